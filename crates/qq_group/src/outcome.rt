use qq_base::NodeId;
use qq_raft::AppliedRow;

/// What came of an event.
#[derive(Clone, Copy, Debug, PartialEq, Eq)]
pub enum Outcome {
    /// It happened.
    Done,
    /// The node isn't up, or isn't a member. A message for it is lost.
    Down,
    /// The bag has no such message, or the log was handed no such op.
    NoSuch,
    /// The server doesn't lead, or hasn't committed an entry of its term yet.
    NotLeader {
        /// The leader of its term, as far as it knows.
        hint: Option<NodeId>,
    },
    /// The server doesn't take the message, which is lost: a number of it is past its end, it has more than
    /// one change of a log may have, or its sender isn't another member. In a group that stands for a reached
    /// state no message is (`a_message_always_fits` of `qq_group_fits`).
    Unfit,
}

/// What came of an event, and what it shows.
#[derive(Debug, Drop)]
pub struct Shown {
    /// What came of it.
    pub outcome: Outcome,
    /// The rows that a ready leader shows for entries of its term, with their effects, in the order of the
    /// entries.
    pub rows: Vec<AppliedRow>,
}
