//! The consumers of a queue: what is out with each, whose turn is next, and what credit each has
//! (RabbitMQ, "Consumers" and "Consumer Acknowledgements").
#![tactic(auto)]

mod consumers;
mod fault;
mod joined;
mod laws;
mod next;
mod rising;
mod row;
mod seat;
mod seats;
mod step;

pub use consumers::Consumers;
pub use fault::{CreditFault, SubscribeFault};
pub use laws::{
    a_refusal_changes_no_consumer, a_refusal_tells_its_rule,
    out_of_memory_takes_back_to_the_last_commit, these_are_the_consumers_of_parts,
};
pub use qq_base::{ConsumerId, Memory, SessionId};
pub use qq_entry::{Cause, Mode, ReadyRow};
pub use qq_model::Consumer;
pub use rising::{Numbered, Rising};
pub use row::ConsumerRow;
