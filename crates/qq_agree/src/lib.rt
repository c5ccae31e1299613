//! Whether logs that were found may be those of one Raft group: whether they support an audit (Ongaro's
//! dissertation, sections 3.4 to 3.6).
#![tactic(auto)]

mod electing;
mod holder;
mod matching;
mod rising;
mod supporting;

pub use holder::Holder;
pub use supporting::support_audit;
