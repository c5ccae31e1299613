//! What every crate of the broker speaks of: the ids of queues, nodes, terms, entries and sessions,
//! small lists that contracts see as lists, what a call without memory answers, and numbers as bytes.
#![tactic(auto)]

mod fields;
mod ids;
mod items;
mod memory;
mod text;

pub use fields::{
    numbers_read_back, put_u8, put_u16, put_u32, put_u64, take_u8, take_u16, take_u32, take_u64,
};
pub use ids::{CLIENT, ConsumerId, DEAD_LETTER, Index, NodeId, QueueId, SessionId, Term, WORKER};
pub use items::{Bytes, Ids, Items, QueueIds};
pub use memory::{Duplicate, Memory, NUMBER_END, both};
pub use text::Text;
