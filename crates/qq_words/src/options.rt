ghost use Rattle.std.specs.Prelude.{◌≡◌, IfOk, IsOkUnless};
ghost use Rattle.clap.specs.Words.{found_of, rows_of};
ghost use Rattle.qq_words.specs.Options.{names_queues_twice, options_in};

use crate::counts::{NodeCount, QueueCount};
use crate::values::{has_flag, nodes_of, number_of, queues_of, text_of, value_of};
use clap::ArgMatches;
use qq_base::{Memory, Text};
use std::alloc::Global;

/// How long a log file becomes at most, where the words don't say it: 4 MiB.
pub const LOG_BYTES: u64 = 4_194_304;

/// The least that may be said of it: 64 KiB.
pub const LOG_BYTES_LEAST: u64 = 65_536;

/// The most that may be said of it: 64 MiB.
pub const LOG_BYTES_MOST: u64 = 67_108_864;

/// What a script is run with.
#[derive(Drop)]
pub struct Options {
    /// How many nodes there are.
    pub nodes: NodeCount,
    /// How many members each queue's group has, at most one on each node. An export says it itself.
    pub group: NodeCount,
    /// How many queues there are, where there is no export.
    pub queues: QueueCount,
    /// The name of an export with the queues.
    pub definitions: Option<Text>,
    /// Whether an export's policies are passed over.
    pub ignore_policies: bool,
    /// The folder that has the nodes' files. Without one they are in memory.
    pub root: Option<Text>,
    /// How many bytes a log file may have before a new one begins.
    pub log_bytes: u64,
}

fn names_queues_twice(matches: &ArgMatches<'_>) -> bool
    ensures { result ≡ names_queues_twice (rows_of (found_of matches.now)) }
{
    if value_of(matches, "definitions").is_none() {
        return false;
    }
    value_of(matches, "queues").is_some() || value_of(matches, "group").is_some()
}

/// What the options of a script say; None where they say too much, or no number in its range.
pub fn options_in(alloc: Global, matches: &ArgMatches<'_>) -> Result<Option<Options>, Memory>
    ensures ok { IfOk result (λ options. options ≡ options_in (rows_of (found_of matches.now))) }
    ensures want { IsOkUnless result Memory.Want }
{
    if names_queues_twice(matches) {
        return Ok(None);
    }
    let Some(nodes) = nodes_of(matches, "nodes", NodeCount::nodes()) else {
        return Ok(None);
    };
    let Some(group) = nodes_of(matches, "group", NodeCount::group()) else {
        return Ok(None);
    };
    let Some(queues) = queues_of(matches, "queues", QueueCount::queues()) else {
        return Ok(None);
    };
    let Some(log_bytes) = number_of(
        matches,
        "log-bytes",
        LOG_BYTES,
        LOG_BYTES_LEAST,
        LOG_BYTES_MOST,
    ) else {
        return Ok(None);
    };
    let ignore_policies = has_flag(matches, "ignore-policies");
    let definitions = text_of(alloc, matches, "definitions")?;
    let root = text_of(alloc, matches, "root")?;
    Ok(Some(Options {
        nodes,
        group,
        queues,
        definitions,
        ignore_policies,
        root,
        log_bytes,
    }))
}
