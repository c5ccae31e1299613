//! The plain queue machine: it keeps one row for each message that was ever enqueued, and computes
//! what the definitions of `qq_model` say. It is slow, and all other machines are held to it.
#![tactic(auto)]

mod changes;
mod choice;
mod commands;
mod consumers;
mod queue;
mod rows;
mod run;
mod serial;
mod serving;
mod step;
mod table;

pub use qq_base::{Index, Memory};
pub use qq_entry::{Answer, Effect, Entry, QueueArgs};
pub use run::{Applied, replay};
pub use serial::Serial;
