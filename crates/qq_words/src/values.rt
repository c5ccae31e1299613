ghost use Rattle.std.specs.Prelude.{◌≡◌, codes, IfOk, IsOkUnless};
ghost use Rattle.std.specs.Option.{option_map};
ghost use Rattle.clap.specs.Words.{first_of, found_of, rows_of};
ghost use Rattle.qq_words.specs.Options.{is_true, number_or};
ghost use Rattle.qq_words.specs.declared.counts.TheConstants.{NODES_MOST, QUEUES_MOST};

use crate::counts::{NodeCount, QueueCount};
use clap::ArgMatches;
use qq_base::{Memory, Text};
use qq_script_lines::number_in;
use std::alloc::Global;

/// The value that the words give an option.
pub fn value_of<'a>(matches: &ArgMatches<'a>, name: &str) -> Option<&'a str>
    ensures { option_map (λ text. text.now) result
        ≡ first_of name.now (rows_of (found_of matches.now)) }
{
    matches.get_str(name)
}

/// The same as a text of its own.
pub fn text_of(alloc: Global, matches: &ArgMatches<'_>, name: &str) -> Result<Option<Text>, Memory>
    ensures ok { IfOk result (λ text. text
        ≡ first_of name.now (rows_of (found_of matches.now))) }
    ensures want { IsOkUnless result Memory.Want }
{
    match value_of(matches, name) {
        Some(text) => Ok(Some(Text::from_str(alloc, text)?)),
        None => Ok(None),
    }
}

/// Whether the words give a flag.
pub fn has_flag(matches: &ArgMatches<'_>, name: &str) -> bool
    ensures { result ≡ is_true (first_of name.now (rows_of (found_of matches.now))) }
{
    match value_of(matches, name) {
        Some(word) => word == "true",
        None => false,
    }
}

/// A number of nodes; `other` where the words don't say it, and None where they say no such number.
pub fn nodes_of(matches: &ArgMatches<'_>, name: &str, other: NodeCount) -> Option<NodeCount>
    ensures { result ≡ number_or other 1 NODES_MOST
        (first_of name.now (rows_of (found_of matches.now))) }
{
    match value_of(matches, name) {
        Some(word) => NodeCount::in_word(word),
        None => Some(other),
    }
}

/// A number of queues, in the same way.
pub fn queues_of(matches: &ArgMatches<'_>, name: &str, other: QueueCount) -> Option<QueueCount>
    ensures { result ≡ number_or other 1 QUEUES_MOST
        (first_of name.now (rows_of (found_of matches.now))) }
{
    match value_of(matches, name) {
        Some(word) => QueueCount::in_word(word),
        None => Some(other),
    }
}

/// Another number from `first` to `last`.
pub fn number_of(
    matches: &ArgMatches<'_>,
    name: &str,
    other: u64,
    first: u64,
    last: u64,
) -> Option<u64>
    ensures { result ≡ number_or other first last
        (first_of name.now (rows_of (found_of matches.now))) }
{
    match value_of(matches, name) {
        Some(word) => number_in(first, last, word),
        None => Some(other),
    }
}
