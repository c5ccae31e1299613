use qq_base::NodeId;
use qq_raft_msg::Rpc;

/// Another member of the group, as a server sees it (Ongaro's dissertation, figure 3.1).
#[derive(Clone, Copy, Debug, PartialEq, Eq)]
pub struct Peer {
    /// The member.
    pub node: NodeId,
    /// The index of the next entry to send to it.
    pub next: u64,
    /// Up to here its log is known to be the leader's.
    pub matched: u64,
    /// Whether it gave its vote in this term.
    pub granted: bool,
}

/// A message that waits for a change to be durable.
#[derive(Debug, Drop, PartialEq)]
pub struct Waiting {
    /// The change's number.
    pub op: u64,
    /// The message.
    pub rpc: Rpc,
}
