use qq_base::{Index, NodeId, Term};

/// What is said of a queue's lanes. A place of a log is the index of an entry, from 1. It counts where a majority of the
/// queue's members have files that reach it: a leader may have committed it.
#[derive(Clone, Copy, Debug, PartialEq)]
pub enum Verdict {
    /// No two lanes differ at a place that counts.
    Agree {
        /// The greatest place that counts, or 0 where none does.
        upto: Index,
    },
    /// Two lanes differ.
    Differ {
        /// The least place that counts at which two do.
        index: Index,
        /// The first of them: its node, and the term that it has there.
        a: (NodeId, Term),
        /// The second.
        b: (NodeId, Term),
    },
}
