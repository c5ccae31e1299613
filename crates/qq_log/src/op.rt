ghost use Rattle.std.specs.Prelude.{◌≡◌};
ghost use Rattle.qq_log.specs.Op.{queue, number};

use crate::head::SnapshotHead;
use qq_base::{Index, NodeId, QueueId, Term};
use qq_entry::Entries;

/// What a queue's server hands to the log. A queue's ops are numbered from 1.
#[derive(Debug, Drop, PartialEq)]
pub enum Op {
    /// Sets term and vote, cuts the log and adds entries.
    Change {
        /// The queue.
        queue: QueueId,
        /// The op's number.
        op: u64,
        /// The server's term from here on.
        term: Term,
        /// Whom the server has voted for in that term.
        vote: Option<NodeId>,
        /// The last entry that stays.
        keep: Index,
        /// The entries that follow it.
        entries: Entries,
    },
    /// A snapshot was written: it becomes the log's base.
    SnapshotMade {
        /// The queue.
        queue: QueueId,
        /// The op's number.
        op: u64,
        /// What the snapshot is of.
        head: SnapshotHead,
        /// The number of its file.
        file: u64,
    },
    /// A segment was written: these entries stand in it too.
    SegmentMade {
        /// The queue.
        queue: QueueId,
        /// The op's number.
        op: u64,
        /// The number of its file.
        file: u64,
        /// The first entry that counts.
        first: Index,
        /// The last entry that counts.
        last: Index,
    },
}

impl Op {
    /// The queue that the op is of.
    pub fn queue(&self) -> QueueId
        ensures { result ≡ queue self.now }
    {
        match self {
            Op::Change { queue, .. }
            | Op::SnapshotMade { queue, .. }
            | Op::SegmentMade { queue, .. } => *queue,
        }
    }

    /// The op's number.
    pub fn number(&self) -> u64
        ensures { result ≡ number self.now }
    {
        match self {
            Op::Change { op, .. } | Op::SnapshotMade { op, .. } | Op::SegmentMade { op, .. } => *op,
        }
    }
}
