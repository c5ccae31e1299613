//! What the words of the program say. They are read by `clap`; what it takes more than the program does is
//! refused here.
#![tactic(auto)]

mod commands;
mod counts;
mod laws;
mod options;
mod parse;
mod program;
mod values;

pub use commands::{Command, read_words};
pub use counts::{
    DRILL_NODES, DRILLS_MOST, GROUP, NODES, NODES_MOST, NodeCount, QUEUES, QUEUES_MOST, QueueCount,
};
pub use laws::{options_are_within_limits, options_stand_in_any_order, other_words_are_refused};
pub use options::{LOG_BYTES, LOG_BYTES_LEAST, LOG_BYTES_MOST, Options};
