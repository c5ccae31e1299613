//! How the nodes of a cluster begin.
ghost use Rattle.std.specs.Prelude.{◌≡◌, ◌≤◌, [], All, length, vec_capacity, IfOk, IsOkUnless, OnErr, OnOk};
ghost use Rattle.qq_cluster_model.specs.Cluster.{Setup, new_cluster};
ghost use Rattle.qq_log.specs.declared.limits.TheConstants.{NODE_LIMIT};
ghost use Rattle.qq_raft_model.specs.Promises.{AreDistinct};
ghost use Rattle.qq_route.specs.declared.queue_row.QueueRow.{QueueRow as Row};
ghost use Rattle.qq_cluster.specs.Disks.{AreBareNodes, IsBareNode};
ghost use Rattle.qq_cluster.specs.Nodes.{Stands};
ghost use Rattle.qq_cluster.specs.Setting.{AreNew, AreQueuesFor, HaveDisks, IsQueueFor, IsRow, IsSetupOver, IsWhole, ids_on, is_among};

use crate::active::Active;
use crate::node::Node;
use crate::nodes::Nodes;
use qq_base::{Duplicate, Memory, NodeId, QueueId, both};
use qq_disk::NodeDisk;
use qq_group::events_reach_groups;
use qq_queue::{ClusterQueue, Sessions};
use qq_route::QueueRow;
use std::alloc::Global;

// A queue whose members are down.
fn new_queue(alloc: Global, row: &QueueRow) -> Result<ClusterQueue, Memory>
    requires row { IsRow row.now }
    requires distinct { AreDistinct row.now.members }
    ensures ok { IfOk result (IsQueueFor row.now) }
    ensures want { IsOkUnless result Memory.Want }
{
    events_reach_groups();
    let (args, name) = both(row.args.copy(alloc), row.name.copy(alloc))?;
    let queue = ClusterQueue::new(alloc, args, name, row.members.as_slice())?;
    Ok(queue)
}

// A queue for each row.
fn new_queues(alloc: Global, rows: &[QueueRow]) -> Result<Vec<ClusterQueue>, Memory>
    requires rows { All IsRow rows.now }
    requires distinct { All (λ (row : Row). AreDistinct row.members) rows.now }
    ensures ok { IfOk result (λ queues. AreQueuesFor rows.now queues.items) }
    ensures want { IsOkUnless result Memory.Want }
{
    let mut queues = Vec::new(alloc);
    let count = rows.len();
    'rows: for at in 0..count {
        let queue = new_queue(alloc, &rows[at])?;
        queues.push(queue)?;
    }
    Ok(queues)
}

fn is_among(node: NodeId, nodes: &[NodeId]) -> bool
    ensures { result ≡ is_among node.0 nodes.now }
{
    nodes.iter().any(|own| own.0 == node.0)
}

// The queues of which a node has a member.
fn queues_on(alloc: Global, rows: &[QueueRow], node: NodeId) -> Result<Vec<QueueId>, Memory>
    ensures ok { IfOk result (λ ids. ids.items ≡ ids_on rows.now node.0) }
    ensures want { IsOkUnless result Memory.Want }
{
    let mut ids = Vec::new(alloc);
    'rows: for row in rows {
        let here = is_among(node, row.members.as_slice());
        if here {
            ids.push(row.args.queue)?;
        }
    }
    Ok(ids)
}

// A node that has no disk yet.
fn bare_node<D: NodeDisk>(alloc: Global, rows: &[QueueRow], id: NodeId) -> Result<Node<D>, Memory>
    ensures ok { IfOk result (IsBareNode rows.now id.0) }
    ensures want { IsOkUnless result Memory.Want }
{
    let queues = queues_on(alloc, rows, id)?;
    Ok(Node {
        id,
        up: false,
        empty: false,
        queues,
        log: None,
    })
}

// So many of them, and no disk of theirs.
fn bare_nodes<D: NodeDisk>(
    alloc: Global,
    rows: &[QueueRow],
    count: usize,
) -> Result<Vec<Node<D>>, Memory>
    requires { count ≤ NODE_LIMIT }
    ensures ok { IfOk result (λ nodes. AreBareNodes rows.now count nodes.items) }
    ensures want { IsOkUnless result Memory.Want }
{
    let mut nodes = Vec::new(alloc);
    'nodes: for at in 0..count {
        let node = bare_node(alloc, rows, NodeId(at as u8 + 1))?;
        nodes.push(node)?;
    }
    Ok(nodes)
}

impl<D: NodeDisk> Nodes<D> {
    /// The nodes of these disks, in order, and a queue for each row, in order: all nodes are down, and a pump
    /// follows each line of a client. A node's log file is full once `log_bytes` came after the bytes with which it
    /// was begun. Nothing is read or written. The only error is `Memory::Want`, out of memory.
    ///
    /// - `ok`: whatever logs the queues begin with, these stand for the cluster.
    /// - `new`, `limit`: the nodes may be opened, with files of this length.
    /// - `empty`, `room`: the disks are in the nodes, and their list is room for them.
    /// - `err`: after an error the disks are in their list as before.
    pub fn new(
        alloc: Global,
        rows: &[QueueRow],
        disks: &mut Vec<D>,
        log_bytes: u64,
    ) -> Result<Self, Memory>
        requires set { (setup : Setup) × IsSetupOver setup rows.now (length disks.old.items) }
        requires rows { All IsRow rows.now }
        requires few { length disks.old.items ≤ NODE_LIMIT }
        requires whole { All (IsWhole D.facts) disks.old.items }
        ensures ok { (setup : Setup) → IsSetupOver setup rows.now (length disks.old.items) →
            IfOk result (λ nodes. Stands D.facts setup nodes (new_cluster setup)) }
        ensures new { IfOk result (AreNew D.facts rows.now) }
        ensures limit { IfOk result (λ nodes. nodes.log_bytes ≡ log_bytes) }
        ensures disks { IfOk result (HaveDisks D.facts disks.old.items) }
        ensures empty { OnOk result (disks.new.items ≡ []) }
        ensures room { vec_capacity disks.new ≡ vec_capacity disks.old }
        ensures err { OnErr result (disks.new ≡ disks.old) }
        ensures want { IsOkUnless result Memory.Want }
    {
        let count = disks.len();
        // All memory is taken before a disk is moved.
        let (queues, nodes) = both(new_queues(alloc, rows), bare_nodes(alloc, rows, count))?;
        let mut nodes = Nodes {
            queues,
            nodes,
            sessions: Sessions::new(alloc),
            active: Active::new(alloc),
            auto: true,
            log_bytes,
        };
        nodes.put_disks(disks);
        Ok(nodes)
    }
}
