//! The dead messages of a queue that dead-letters at least once, and what its dead-letter worker has under
//! way (RabbitMQ, "At-Least-Once Dead Lettering").
#![tactic(auto)]

mod dead;
mod row;

pub use dead::Dead;
pub use qq_base::{Memory, Term};
pub use qq_entry::{ReadyRow, Reason};
pub use row::DeadRow;
