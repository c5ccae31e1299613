//! What a broker is set up with: queues with their members, routes, and counts of what was made.
//!
//! A setup comes from RabbitMQ's exported definitions ("Definitions", `rabbitmqctl export_definitions`), or
//! from the number of queues alone.
#![tactic(auto)]

mod arguments;
mod definitions;
mod draft;
mod elements;
mod fault;
mod fields;
mod laws;

pub use arguments::queue_args;
pub use definitions::{QUEUES_LIMIT, read, read_document};
pub use fault::DefsFault;
pub use laws::{memory_takes_no_part, setups_may_be_run};
pub use qq_route::{Made, QueueRow, QueueRows, Setup};
