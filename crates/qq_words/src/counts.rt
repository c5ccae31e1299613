ghost use Rattle.std.specs.Prelude.{◌≡◌, ◌<◌, ◌≤◌};
ghost use Rattle.qq_script_lines.specs.Numbers.{number_in};

use qq_script_lines::number_in;
use std::marker::Model;

/// The most nodes that a script may have, and the most members of a group.
pub const NODES_MOST: u64 = 7;

/// How many nodes there are, where the words don't say it.
pub const NODES: u8 = 1;

/// How many members a group has, where the words don't say it and there are as many nodes.
pub const GROUP: u8 = 3;

/// How many queues there are, where the words don't say it.
pub const QUEUES: u32 = 1;

/// The most queues that a script may have.
pub const QUEUES_MOST: u64 = 1_024;

/// How many nodes a drill has, where the words don't say it.
pub const DRILL_NODES: u8 = 3;

/// The greatest number of a drill.
pub const DRILLS_MOST: u64 = 1_000_000_000;

/// A number of nodes, from 1 to `NODES_MOST`.
#[derive(Clone, Copy)]
pub struct NodeCount {
    number: u8,
}

impl Model for NodeCount {
    ghost use Rattle.std.specs.Prelude.{ℕ, ◌≤◌};
    ghost use Rattle.qq_words.specs.declared.counts.TheConstants.{NODES_MOST};

    ghost Value = { ℕ };

    ghost view = { λ c. c.number };

    ghost invariant = { λ c. (1 ≤ c.number) × (c.number ≤ NODES_MOST) };

    ghost inverse = { λ n. record { number = n } };
}

impl NodeCount {
    /// The number of nodes that a word writes; None where it writes another.
    pub fn in_word(word: &str) -> Option<NodeCount>
        ensures { result ≡ number_in 1 NODES_MOST word.now }
    {
        match number_in(1, NODES_MOST, word) {
            Some(number) => Some(NodeCount {
                number: number as u8,
            }),
            None => None,
        }
    }

    /// Where the words don't say how many nodes there are.
    pub fn nodes() -> NodeCount
        ensures { result ≡ NODES }
    {
        NodeCount { number: NODES }
    }

    /// Where they don't say how many members a group has.
    pub fn group() -> NodeCount
        ensures { result ≡ GROUP }
    {
        NodeCount { number: GROUP }
    }

    /// Where they don't say how many nodes a drill has.
    pub fn drill_nodes() -> NodeCount
        ensures { result ≡ DRILL_NODES }
    {
        NodeCount {
            number: DRILL_NODES,
        }
    }

    /// It as a number.
    pub fn number(self) -> u8
        ensures value { result ≡ self }
        ensures some { 0 < result }
        ensures few { result ≤ NODES_MOST }
    {
        self.number
    }
}

/// A number of queues, from 1 to `QUEUES_MOST`.
#[derive(Clone, Copy)]
pub struct QueueCount {
    number: u32,
}

impl Model for QueueCount {
    ghost use Rattle.std.specs.Prelude.{ℕ, ◌≤◌};
    ghost use Rattle.qq_words.specs.declared.counts.TheConstants.{QUEUES_MOST};

    ghost Value = { ℕ };

    ghost view = { λ c. c.number };

    ghost invariant = { λ c. (1 ≤ c.number) × (c.number ≤ QUEUES_MOST) };

    ghost inverse = { λ n. record { number = n } };
}

impl QueueCount {
    /// The number of queues that a word writes; None where it writes another.
    pub fn in_word(word: &str) -> Option<QueueCount>
        ensures { result ≡ number_in 1 QUEUES_MOST word.now }
    {
        match number_in(1, QUEUES_MOST, word) {
            Some(number) => Some(QueueCount {
                number: number as u32,
            }),
            None => None,
        }
    }

    /// Where the words don't say how many queues there are.
    pub fn queues() -> QueueCount
        ensures { result ≡ QUEUES }
    {
        QueueCount { number: QUEUES }
    }

    /// It as a number.
    pub fn number(self) -> u32
        ensures value { result ≡ self }
        ensures some { 0 < result }
        ensures few { result ≤ QUEUES_MOST }
    {
        self.number
    }
}
