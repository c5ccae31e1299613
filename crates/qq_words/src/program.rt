ghost use Rattle.std.specs.Prelude.{◌≡◌, IfOk, false};
ghost use Rattle.clap.specs.Words.{app_of, new_app, with_subcommand};
ghost use Rattle.clap.specs.declared.builder.command.Command.TheViews.{out-Command};
ghost use Rattle.qq_words.specs.Program.{drill, dump, program, script, top, with_flag, with_option, with_word};

use clap::{Arg, ArgAction, Command};
use std::alloc::{AllocError, Global};

// A command without options.
fn command<'a>(alloc: Global, name: &'a str) -> Command<'a>
    ensures app { app_of result ≡ new_app name.entry.now }
    ensures local { (out-Command result).has_globals ≡ false }
{
    Command::new(alloc, name)
}

fn with_option<'a>(
    alloc: Global,
    command: Command<'a>,
    name: &'a str,
) -> Result<Command<'a>, AllocError>
    requires { (out-Command command).has_globals ≡ false }
    ensures app { IfOk result (λ new. app_of new ≡ with_option (app_of command.entry) name.entry.now) }
    ensures local { IfOk result (λ new. (out-Command new).has_globals ≡ false) }
{
    command.arg(Arg::new(alloc, name).long(name))
}

fn with_flag<'a>(
    alloc: Global,
    command: Command<'a>,
    name: &'a str,
) -> Result<Command<'a>, AllocError>
    requires { (out-Command command).has_globals ≡ false }
    ensures app { IfOk result (λ new. app_of new ≡ with_flag (app_of command.entry) name.entry.now) }
    ensures local { IfOk result (λ new. (out-Command new).has_globals ≡ false) }
{
    command.arg(Arg::new(alloc, name).long(name).action(ArgAction::SetTrue))
}

fn with_word<'a>(
    alloc: Global,
    command: Command<'a>,
    name: &'a str,
) -> Result<Command<'a>, AllocError>
    requires { (out-Command command).has_globals ≡ false }
    ensures app { IfOk result (λ new. app_of new ≡ with_word (app_of command.entry) name.entry.now) }
    ensures local { IfOk result (λ new. (out-Command new).has_globals ≡ false) }
{
    command.arg(Arg::new(alloc, name))
}

fn script<'a>(alloc: Global) -> Result<Command<'a>, AllocError>
    ensures app { IfOk result (λ command. app_of command ≡ script) }
    ensures local { IfOk result (λ command. (out-Command command).has_globals ≡ false) }
{
    let script = command(alloc, "script");
    let script = with_option(alloc, script, "nodes")?;
    let script = with_option(alloc, script, "group")?;
    let script = with_option(alloc, script, "queues")?;
    let script = with_option(alloc, script, "definitions")?;
    let script = with_flag(alloc, script, "ignore-policies")?;
    let script = with_option(alloc, script, "root")?;
    with_option(alloc, script, "log-bytes")
}

fn dump<'a>(alloc: Global) -> Result<Command<'a>, AllocError>
    ensures app { IfOk result (λ command. app_of command ≡ dump) }
    ensures local { IfOk result (λ command. (out-Command command).has_globals ≡ false) }
{
    let dump = command(alloc, "dump");
    let dump = with_option(alloc, dump, "root")?;
    with_option(alloc, dump, "node")
}

fn drill<'a>(alloc: Global) -> Result<Command<'a>, AllocError>
    ensures app { IfOk result (λ command. app_of command ≡ drill) }
    ensures local { IfOk result (λ command. (out-Command command).has_globals ≡ false) }
{
    let drill = command(alloc, "drill");
    let drill = with_word(alloc, drill, "number")?;
    with_option(alloc, drill, "nodes")
}

fn with_subcommand<'a>(command: Command<'a>, other: Command<'a>) -> Result<Command<'a>, AllocError>
    requires { (out-Command other).has_globals ≡ false }
    ensures { IfOk result (λ new. app_of new
        ≡ with_subcommand (app_of command.entry) (app_of other.entry).top) }
{
    command.subcommand(other)
}

// A command comes first, and nobody asks for help.
fn top<'a>(alloc: Global) -> Command<'a>
    ensures { app_of result ≡ top }
{
    Command::new(alloc, "qq")
        .no_binary_name(true)
        .disable_help_flag(true)
        .disable_help_subcommand(true)
        .disable_version_flag(true)
        .subcommand_required(true)
}

// Each command is made where it goes, so that no other one waits for it.
fn with_script<'a>(alloc: Global, command: Command<'a>) -> Result<Command<'a>, AllocError>
    ensures { IfOk result (λ new. app_of new ≡ with_subcommand (app_of command.entry) script.top) }
{
    match script(alloc) {
        Ok(script) => with_subcommand(command, script),
        Err(cause) => {
            drop(command);
            Err(cause)
        }
    }
}

fn with_dump<'a>(alloc: Global, command: Command<'a>) -> Result<Command<'a>, AllocError>
    ensures { IfOk result (λ new. app_of new ≡ with_subcommand (app_of command.entry) dump.top) }
{
    match dump(alloc) {
        Ok(dump) => with_subcommand(command, dump),
        Err(cause) => {
            drop(command);
            Err(cause)
        }
    }
}

fn with_drill<'a>(alloc: Global, command: Command<'a>) -> Result<Command<'a>, AllocError>
    ensures { IfOk result (λ new. app_of new ≡ with_subcommand (app_of command.entry) drill.top) }
{
    match drill(alloc) {
        Ok(drill) => with_subcommand(command, drill),
        Err(cause) => {
            drop(command);
            Err(cause)
        }
    }
}

/// The program's commands, with their options.
pub fn program<'a>(alloc: Global) -> Result<Command<'a>, AllocError>
    ensures { IfOk result (λ command. app_of command ≡ program) }
{
    let program = with_script(alloc, top(alloc))?;
    let program = with_dump(alloc, program)?;
    let program = with_drill(alloc, program)?;
    Ok(program)
}
