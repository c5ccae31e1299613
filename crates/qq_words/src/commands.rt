ghost use Rattle.std.specs.Prelude.{◌≡◌, IfOk, IsOkUnless, map, string_bytes};
ghost use Rattle.std.specs.List.{list_any};
ghost use Rattle.clap.specs.Words.{found_of, rows_of};
ghost use Rattle.qq_words.specs.Options.{drill_in, dump_in};
ghost use Rattle.qq_words.specs.Words.{command_in, is_barred, read_words};

use crate::counts::{DRILLS_MOST, NodeCount};
use crate::options::{Options, options_in};
use crate::parse::parse;
use crate::values::{nodes_of, text_of, value_of};
use clap::ArgMatches;
use qq_base::{Memory, NodeId, Text};
use qq_script_lines::number_in;
use std::alloc::Global;

/// What the program is to do.
#[derive(Drop)]
pub enum Command {
    /// To run a script.
    Script(Options),
    /// To list what the log of a node has.
    Dump {
        /// The folder that has the nodes' files.
        root: Text,
        node: NodeId,
    },
    /// To run the lines that are drawn from a number.
    Drill {
        /// From 1 to `DRILLS_MOST`.
        number: u64,
        nodes: NodeCount,
    },
}

fn is_barred(word: &str) -> bool
    ensures { result ≡ is_barred word.now }
{
    word == "" || word == "-" || word == "--"
}

fn has_barred(words: &[String]) -> bool
    ensures { result ≡ list_any is_barred (map string_bytes words.now) }
{
    'words: for word in words {
        if is_barred(word.as_str()) {
            return true;
        }
    }
    false
}

fn dump_in(alloc: Global, matches: &ArgMatches<'_>) -> Result<Option<Command>, Memory>
    ensures ok { IfOk result (λ command. command ≡ dump_in (rows_of (found_of matches.now))) }
    ensures want { IsOkUnless result Memory.Want }
{
    let Some(word) = value_of(matches, "node") else {
        return Ok(None);
    };
    let Some(node) = NodeCount::in_word(word) else {
        return Ok(None);
    };
    match text_of(alloc, matches, "root")? {
        Some(root) => Ok(Some(Command::Dump {
            root,
            node: NodeId(node.number()),
        })),
        None => Ok(None),
    }
}

fn drill_in(matches: &ArgMatches<'_>) -> Option<Command>
    ensures { result ≡ drill_in (rows_of (found_of matches.now)) }
{
    let Some(word) = value_of(matches, "number") else {
        return None;
    };
    let Some(number) = number_in(1, DRILLS_MOST, word) else {
        return None;
    };
    match nodes_of(matches, "nodes", NodeCount::drill_nodes()) {
        Some(nodes) => Some(Command::Drill { number, nodes }),
        None => None,
    }
}

fn command_in(
    alloc: Global,
    name: &str,
    matches: &ArgMatches<'_>,
) -> Result<Option<Command>, Memory>
    ensures ok { IfOk result (λ command. command
        ≡ command_in (name.now, rows_of (found_of matches.now))) }
    ensures want { IsOkUnless result Memory.Want }
{
    match name {
        "script" => match options_in(alloc, matches)? {
            Some(options) => Ok(Some(Command::Script(options))),
            None => Ok(None),
        },
        "dump" => dump_in(alloc, matches),
        "drill" => Ok(drill_in(matches)),
        _ => Ok(None),
    }
}

/// Reads the program's words: a command and then its options in any order, each once at most, as `--nodes 3` or
/// `--nodes=3`.
///
/// - `script`: `--nodes N` and `--group N`, from 1 to 7, `--queues N`, from 1 to 1,024, `--definitions NAME`,
///   which says itself what `--queues` and `--group` would, `--ignore-policies`, `--root DIR`, and `--log-bytes N`,
///   from 65,536 to 67,108,864.
/// - `dump`: `--root DIR` and `--node N`, both of them.
/// - `drill`: a number from 1 to 1,000,000,000, before or after `--nodes N`.
///
/// The clause `ok` has what the words say; None where they say anything else.
#[tactic(auto, unfolding(crate::specs::Words::read_words))]
pub fn read_words(alloc: Global, words: &[String]) -> Result<Option<Command>, Memory>
    ensures ok { IfOk result (λ command. command ≡ read_words (map string_bytes words.now)) }
    ensures want { IsOkUnless result Memory.Want }
{
    if has_barred(words) {
        return Ok(None);
    }
    match parse(alloc, words)? {
        Some((name, matches)) => command_in(alloc, name, &matches),
        None => Ok(None),
    }
}
