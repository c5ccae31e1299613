//! Which queues a message comes to: exchanges, their bindings, and the default exchange
//! (RabbitMQ, "AMQP 0-9-1 Model Explained"); and what a broker is set up with: queues with their members, routes,
//! and counts of what was made, from the number of queues alone or from RabbitMQ's exported definitions.
#![tactic(auto)]

mod destinations;
mod exchange;
mod queue_row;
mod routes;
mod setup;
mod topic;
mod words;

pub use destinations::Destinations;
pub use exchange::{Binding, ExchangeKind};
pub use queue_row::{QueueRow, QueueRows, members};
pub use routes::{RouteFault, Routes};
pub use setup::{Made, Setup};
pub use topic::topic_matches;
