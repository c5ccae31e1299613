//! The parts of a queue with a ledger: which messages came to each and left it since the last commit, by
//! index, so that the least index that the queue still needs costs no scan.
#![tactic(auto)]

mod dead;
mod law;
mod ledger;
mod ready;
mod scans;
mod tracked;

pub use law::low_is_of_the_parts;
pub use ledger::Ledger;
pub use qq_base::{Index, Memory};
pub use qq_live::Live;
pub use scans::{push_all, push_consumers, push_dead, push_out, push_ready};
pub use tracked::{Holds, Tracked};
