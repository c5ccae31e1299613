//! What a node's shared log keeps of each queue: the ops that are written for it, the state that they
//! come to, and the list of entries that a server works on (the Ra library's internals, write-ahead
//! log).
#![tactic(auto)]

mod head;
mod lane;
mod laws;
mod limits;
mod log;
mod op;
mod synced;

pub use head::{Places, SnapshotHead, Span};
pub use lane::{Carry, Lane};
pub use laws::{carries_restate, ops_tell_their_log, tails_agree};
pub use limits::{NODE_LIMIT, PAYLOAD_LIMIT, RECORD_LIMIT};
pub use log::Log;
pub use op::Op;
pub use synced::Synced;
