//! A Raft server with its queue (Ongaro's dissertation, sections 2.1 and 3.5): it applies what is committed,
//! each entry once and in order, and hands out what a leader answers.
#![tactic(auto)]

mod api;
mod applying;
mod fault;
mod laws;
mod row;
mod server;

pub use fault::SubmitFault;
pub use laws::what_is_applied_is_committed;
pub use row::AppliedRow;
pub use server::Server;
