use crate::row::AppliedRow;
use qq_raft_core::Raft;
use qq_raft_msg::LogView;
use std::collections::VecDeque;

/// A Raft server with its queue.
#[derive(Drop)]
pub struct Server<Q: Drop, L: LogView> {
    pub(crate) raft: Raft<L>,
    pub(crate) machine: Q,
    /// The index of the last entry that was applied.
    pub(crate) applied: u64,
    /// Rows that are to be taken away.
    pub(crate) rows: VecDeque<AppliedRow>,
}
