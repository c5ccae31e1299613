use qq_base::{Bytes, Index, Items, NodeId, Term};
use qq_log::SnapshotHead;

/// What a server is in its term (Ongaro's dissertation, section 3.3).
#[derive(Clone, Copy, Debug, PartialEq, Eq)]
pub enum Role {
    /// It leads.
    Leader,
    /// It asks for votes.
    Candidate,
    /// It follows.
    Follower,
}

/// What a server tells of itself.
#[derive(Clone, Copy, Debug, PartialEq, Eq)]
pub struct MemberState {
    /// What it is in its term.
    pub role: Role,
    /// Its term.
    pub term: Term,
    /// Its last entry.
    pub last: Index,
    /// The last entry that it knows to be committed.
    pub commit: Index,
}

/// A snapshot that is to be written.
#[derive(Debug, Drop, PartialEq)]
pub struct SnapshotJob {
    /// The node that is to write it.
    pub node: NodeId,
    /// What it is of.
    pub head: SnapshotHead,
    /// Its bytes.
    pub shadow: Bytes,
    /// Whether a leader sent it; else the server took it itself.
    pub install: bool,
}

/// Snapshots that are to be written, in the order in which they were asked for.
pub type Jobs = Items<SnapshotJob>;
