//! The machine of parts: a queue that keeps lists of its live messages alone, each in its own order. Each
//! command is a method over these lists, and a whole step is that of `qq_parts_step`.
#![tactic(auto)]

mod commands;
mod counted;
mod down;
mod ends;
mod finish;
mod gated;
mod least;
mod machine;
mod moves;
mod pending;
mod queue;
mod reads;
mod serving;
mod step;
mod table;
mod within;

pub use counted::Counted;
pub use gated::Gated;
pub use machine::Machine;
pub use pending::Pending;
pub use qq_base::Memory;
pub use queue::{Draft, Made, Queue, Saved};
