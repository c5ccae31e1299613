//! One node of a cluster.
use qq_base::{NodeId, QueueId};
use qq_disk::NodeDisk;
use qq_node_log::NodeLog;

/// A node: its log, and whether it is up.
#[derive(Drop)]
pub struct Node<D: NodeDisk> {
    /// Its number.
    pub id: NodeId,
    /// Whether it is up: it was restarted, and no call of its disk has failed since.
    pub up: bool,
    /// Whether it is known that its log was given nothing: its disk failed as the node was opened, and it wasn't up
    /// since.
    pub empty: bool,
    /// The queues of which it has a member, in the order of their places.
    pub queues: Vec<QueueId>,
    /// Its log, or its disk alone. None only once a yard has refused a crash of it, which ends the run.
    pub log: Option<NodeLog<D>>,
}
