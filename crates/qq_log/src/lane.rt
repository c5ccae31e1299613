ghost use Rattle.std.specs.Prelude.{◌≡◌};
ghost use Rattle.qq_log.specs.Lane.{empty};

use crate::head::{Places, SnapshotHead};
use qq_base::{Bytes, Index, NodeId, QueueId, Term};
use qq_entry::Entries;
use std::alloc::Global;

/// What recovery reads of one queue.
#[derive(Debug, Drop, PartialEq)]
pub struct Lane {
    /// The queue.
    pub queue: QueueId,
    /// The number of its last op, 0 where there is none.
    pub op: u64,
    /// The server's term.
    pub term: Term,
    /// Whom it has voted for in that term.
    pub vote: Option<NodeId>,
    /// The snapshot that the log stands on.
    pub base: SnapshotHead,
    /// That snapshot's bytes. None where there is no snapshot.
    pub shadow: Option<Bytes>,
    /// The entries above the base.
    pub entries: Entries,
    /// Where they lie.
    pub places: Places,
}

/// A queue's state but for its entries, as a new log file restates it.
#[derive(Debug, Drop, PartialEq)]
pub struct Carry {
    /// The queue.
    pub queue: QueueId,
    /// The number of its last op.
    pub op: u64,
    /// The server's term.
    pub term: Term,
    /// Whom it has voted for in that term.
    pub vote: Option<NodeId>,
    /// The snapshot that the log stands on.
    pub base: SnapshotHead,
    /// The number of that snapshot's file, 0 where there is no snapshot.
    pub snapshot: u64,
    /// The segments that have an entry of the log, in the order in which they were named.
    pub segments: Places,
    /// The log's last index, the base's where it is empty.
    pub last: Index,
}

impl Lane {
    /// The lane of a queue without ops. It takes no memory.
    pub fn empty(alloc: Global, queue: QueueId) -> Self
        ensures { result ≡ empty queue }
    {
        let none = SnapshotHead {
            index: Index(0),
            term: Term(0),
            through: Index(0),
        };
        Lane {
            queue,
            op: 0,
            term: Term(0),
            vote: None,
            base: none,
            shadow: None,
            entries: Entries::new(alloc),
            places: Places::new(alloc),
        }
    }
}
