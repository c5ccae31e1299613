//! A Raft server (Ongaro's dissertation, chapter 3): what it holds, how it answers each message, and what it
//! hands out: changes for its log's disk, messages for the others, and the rows of what was committed.
#![tactic(auto)]

mod api;
mod batch;
mod committing;
mod electing;
mod fits;
mod handed;
mod inputs;
mod lanes;
mod laws;
mod peers;
mod raft;
mod receiving;
mod rising;
mod sending;
mod undo;

pub use lanes::Lanes;
pub use laws::the_entries_of_a_message_fit;
pub use raft::{Raft, copy_behind};
pub use undo::Undo;
