//! What the words of the doctor say. They are read by `clap`; what it takes more than the program does is refused here.
ghost use Rattle.std.specs.Prelude.{◌≡◌, false, codes, IfOk, IsOkUnless, map, string_bytes};
ghost use Rattle.std.specs.List.{list_any};
ghost use Rattle.std.specs.Option.{option_map};
ghost use Rattle.clap.specs.Words.{app_of, found_of, first_of, new_app, rows_of};
ghost use Rattle.clap.specs.declared.builder.command.Command.TheViews.{out-Command};
ghost use Rattle.qq_words.specs.Options.{is_true};
ghost use Rattle.qq_words.specs.Program.{top, with_flag, with_option};
ghost use Rattle.qq_words.specs.Words.{is_barred};
ghost use Rattle.qq_doctor.specs.Words.{doctor, group_size, has, names_queues_once, node_count, options_in, parsed, program, queue_count, read_request, request_in, request_of};

use clap::error::ErrorKind;
use clap::{Arg, ArgAction, ArgMatches, Command};
use qq_base::{Memory, Text};
use qq_words::{LOG_BYTES, NodeCount, Options, QueueCount};
use std::alloc::{AllocError, Global};

/// Which nodes' files are to be compared.
#[derive(Drop)]
pub struct Request {
    /// The folder that has them.
    pub root: Text,
    /// The cluster that left them: how many nodes it has, and its queues.
    pub options: Options,
}

fn is_barred(word: &str) -> bool
    ensures { result ≡ is_barred word.now }
{
    word == "" || word == "-" || word == "--"
}

fn has_barred(words: &[String]) -> bool
    ensures { result ≡ list_any is_barred (map string_bytes words.now) }
{
    'words: for word in words {
        if is_barred(word.as_str()) {
            return true;
        }
    }
    false
}

// ---- the command

fn with_option<'a>(
    alloc: Global,
    command: Command<'a>,
    name: &'a str,
) -> Result<Command<'a>, AllocError>
    requires { (out-Command command).has_globals ≡ false }
    ensures app { IfOk result (λ new. app_of new ≡ with_option (app_of command.entry) name.entry.now) }
    ensures local { IfOk result (λ new. (out-Command new).has_globals ≡ false) }
{
    command.arg(Arg::new(alloc, name).long(name))
}

fn with_flag<'a>(
    alloc: Global,
    command: Command<'a>,
    name: &'a str,
) -> Result<Command<'a>, AllocError>
    requires { (out-Command command).has_globals ≡ false }
    ensures app { IfOk result (λ new. app_of new ≡ with_flag (app_of command.entry) name.entry.now) }
    ensures local { IfOk result (λ new. (out-Command new).has_globals ≡ false) }
{
    command.arg(Arg::new(alloc, name).long(name).action(ArgAction::SetTrue))
}

// A command without options.
fn command<'a>(alloc: Global, name: &'a str) -> Command<'a>
    ensures app { app_of result ≡ new_app name.entry.now }
    ensures local { (out-Command result).has_globals ≡ false }
{
    Command::new(alloc, name)
}

fn doctor<'a>(alloc: Global) -> Result<Command<'a>, AllocError>
    ensures app { IfOk result (λ command. app_of command ≡ doctor) }
    ensures local { IfOk result (λ command. (out-Command command).has_globals ≡ false) }
{
    let doctor = command(alloc, "doctor");
    let doctor = with_option(alloc, doctor, "root")?;
    let doctor = with_option(alloc, doctor, "nodes")?;
    let doctor = with_option(alloc, doctor, "queues")?;
    let doctor = with_option(alloc, doctor, "group")?;
    let doctor = with_option(alloc, doctor, "definitions")?;
    with_flag(alloc, doctor, "ignore-policies")
}

// A command comes first, and nobody asks for help.
fn top<'a>(alloc: Global) -> Command<'a>
    ensures { app_of result ≡ top }
{
    Command::new(alloc, "qq")
        .no_binary_name(true)
        .disable_help_flag(true)
        .disable_help_subcommand(true)
        .disable_version_flag(true)
        .subcommand_required(true)
}

fn program<'a>(alloc: Global) -> Result<Command<'a>, AllocError>
    ensures { IfOk result (λ command. app_of command ≡ program) }
{
    let doctor = doctor(alloc)?;
    top(alloc).subcommand(doctor)
}

// The command that `clap` finds in the words, with what it has found of its options.
fn parse<'a>(
    alloc: Global,
    words: &'a [String],
) -> Result<Option<(&'a str, ArgMatches<'a>)>, Memory>
    ensures ok { IfOk result (λ found.
        option_map (λ pair. (pair.0.now, rows_of (found_of pair.1))) found
        ≡ parsed (map string_bytes words.entry.now)) }
    ensures want { IsOkUnless result Memory.Want }
{
    let program = program(alloc)?;
    match program.try_get_matches_from(words) {
        Ok(mut matches) => Ok(matches.remove_subcommand()),
        Err(error) => {
            if error.kind() == ErrorKind::OutOfMemory {
                return Err(Memory::Want);
            }
            Ok(None)
        }
    }
}

// ---- its options

fn value_of<'a>(matches: &ArgMatches<'a>, name: &str) -> Option<&'a str>
    ensures { option_map (λ text. text.now) result
        ≡ first_of name.now (rows_of (found_of matches.now)) }
{
    matches.get_str(name)
}

fn has(matches: &ArgMatches<'_>, name: &str) -> bool
    ensures { result ≡ has name.now (rows_of (found_of matches.now)) }
{
    value_of(matches, name).is_some()
}

fn text_of(alloc: Global, matches: &ArgMatches<'_>, name: &str) -> Result<Option<Text>, Memory>
    ensures ok { IfOk result (λ text. text ≡ first_of name.now (rows_of (found_of matches.now))) }
    ensures want { IsOkUnless result Memory.Want }
{
    match value_of(matches, name) {
        Some(text) => Ok(Some(Text::from_str(alloc, text)?)),
        None => Ok(None),
    }
}

fn has_flag(matches: &ArgMatches<'_>, name: &str) -> bool
    ensures { result ≡ is_true (first_of name.now (rows_of (found_of matches.now))) }
{
    match value_of(matches, name) {
        Some(word) => word == "true",
        None => false,
    }
}

fn node_count(matches: &ArgMatches<'_>) -> Option<NodeCount>
    ensures { result ≡ node_count (rows_of (found_of matches.now)) }
{
    match value_of(matches, "nodes") {
        Some(word) => NodeCount::in_word(word),
        None => None,
    }
}

fn group_size(matches: &ArgMatches<'_>) -> Option<NodeCount>
    ensures { result ≡ group_size (rows_of (found_of matches.now)) }
{
    match value_of(matches, "group") {
        Some(word) => NodeCount::in_word(word),
        None => Some(NodeCount::group()),
    }
}

fn queue_count(matches: &ArgMatches<'_>) -> Option<QueueCount>
    ensures { result ≡ queue_count (rows_of (found_of matches.now)) }
{
    match value_of(matches, "queues") {
        Some(word) => QueueCount::in_word(word),
        None => Some(QueueCount::queues()),
    }
}

fn names_queues_once(matches: &ArgMatches<'_>) -> bool
    ensures { result ≡ names_queues_once (rows_of (found_of matches.now)) }
{
    if has(matches, "definitions") {
        return !(has(matches, "queues") || has(matches, "group"));
    }
    has(matches, "queues")
}

fn options_in(alloc: Global, matches: &ArgMatches<'_>) -> Result<Option<Options>, Memory>
    ensures ok { IfOk result (λ options. options ≡ options_in (rows_of (found_of matches.now))) }
    ensures want { IsOkUnless result Memory.Want }
{
    let Some(nodes) = node_count(matches) else {
        return Ok(None);
    };
    let Some(group) = group_size(matches) else {
        return Ok(None);
    };
    let Some(queues) = queue_count(matches) else {
        return Ok(None);
    };
    let ignore_policies = has_flag(matches, "ignore-policies");
    let definitions = text_of(alloc, matches, "definitions")?;
    Ok(Some(Options {
        nodes,
        group,
        queues,
        definitions,
        ignore_policies,
        root: None,
        log_bytes: LOG_BYTES,
    }))
}

fn request_in(alloc: Global, matches: &ArgMatches<'_>) -> Result<Option<Request>, Memory>
    ensures ok { IfOk result (λ request. request ≡ request_in (rows_of (found_of matches.now))) }
    ensures want { IsOkUnless result Memory.Want }
{
    let is_once = names_queues_once(matches);
    if !is_once {
        return Ok(None);
    }
    let Some(root) = text_of(alloc, matches, "root")? else {
        return Ok(None);
    };
    match options_in(alloc, matches)? {
        Some(options) => Ok(Some(Request { root, options })),
        None => Ok(None),
    }
}

fn request_of(
    alloc: Global,
    name: &str,
    matches: &ArgMatches<'_>,
) -> Result<Option<Request>, Memory>
    ensures ok { IfOk result (λ request. request
        ≡ request_of (name.now, rows_of (found_of matches.now))) }
    ensures want { IsOkUnless result Memory.Want }
{
    match name {
        "doctor" => request_in(alloc, matches),
        _ => Ok(None),
    }
}

/// Reads the doctor's words: `doctor`, and then in any order, each once at most, as `--nodes 3` or `--nodes=3`:
///
/// - `--root DIR` and `--nodes N`, from 1 to 7, both of them;
/// - `--queues N`, from 1 to 1,024, and then `--group N`, from 1 to 7, as the cluster was made with; or
/// - `--definitions NAME`, which says itself what these would; and `--ignore-policies`.
///
/// The clause `ok` has what the words say; None where they say anything else.
#[tactic(auto, unfolding(crate::specs::Words::read_request))]
pub fn read_request(alloc: Global, words: &[String]) -> Result<Option<Request>, Memory>
    ensures ok { IfOk result (λ request. request ≡ read_request (map string_bytes words.now)) }
    ensures want { IsOkUnless result Memory.Want }
{
    if has_barred(words) {
        return Ok(None);
    }
    match parse(alloc, words)? {
        Some((name, matches)) => request_of(alloc, name, &matches),
        None => Ok(None),
    }
}
