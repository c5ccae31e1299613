//! Nodes are restarted.
ghost use Rattle.std.specs.Prelude.{IfErr, OnOk};
ghost use Rattle.qq_cluster_model.specs.Cluster.{Setup};
ghost use Rattle.qq_cluster_model.specs.Rules.{ForEach, IsRestart};
ghost use Rattle.qq_cluster.specs.Nodes.{CanServe, IsNodeAt, Served};
ghost use Rattle.qq_opening.specs.Restarting.{Refuses, all_nodes, this_node};

use crate::stepping::recover_node;
use qq_base::{Memory, NodeId, QueueId};
use qq_cluster::{Nodes, Told};
use qq_disk::{FileName, NodeDisk};
use qq_taker::Taker;
use std::alloc::Global;
use thiserror::Error;

/// Why a node isn't restarted.
#[derive(Clone, Copy, Debug, PartialEq, Eq, Error)]
pub enum RestartFault {
    /// A file breaks the rules of the log.
    #[error("a file is damaged")]
    Damaged {
        /// The node.
        node: NodeId,
        /// The file.
        file: FileName,
        /// The first byte of the header or record that breaks them.
        place: u64,
    },
    /// A file's header is of another version of the format.
    #[error("a file has version {byte}")]
    Version {
        /// The node.
        node: NodeId,
        /// The file.
        file: FileName,
        /// The version.
        byte: u8,
    },
    /// Of a queue another state was found than the log had promised.
    #[error("synced ops were lost")]
    Lost {
        /// The node.
        node: NodeId,
        /// The queue.
        queue: QueueId,
        /// How many of its ops the node's member had noticed as synced.
        noticed: u64,
        /// How many ops were found.
        found: u64,
    },
    /// There was no memory, or a number is at its end.
    #[error("{0}")]
    Memory(Memory),
}

/// Restarts a node: its log is recovered, and each of its queues' members goes on with what was found of it.
/// If the disk fails, the node stays down and says so. A node that is up stays as it is. After an error the run
/// ends.
pub fn restart<D: NodeDisk, T: Taker>(
    nodes: &mut Nodes<D>,
    alloc: Global,
    node: NodeId,
    told: &mut Told<T>,
) -> Result<(), RestartFault>
    requires serve { CanServe D.facts nodes.old }
    requires node { IsNodeAt node nodes.old }
    ensures ok { OnOk result (Served D.facts (λ (setup : Setup). IsRestart setup node.0)
        nodes.old nodes.new told.old told.new) }
    ensures err { IfErr result (Refuses D.facts (this_node node.0)
        (λ (setup : Setup). IsRestart setup node.0) nodes.old nodes.new told.old) }
{
    let up = nodes.is_up(node);
    if up {
        return Ok(());
    }
    match recover_node(nodes, alloc, node, false, told) {
        Ok(()) => Ok(()),
        Err(fault) => Err(fault),
    }
}

/// Restarts each node, in order, up to the first error.
pub fn restart_each<D: NodeDisk, T: Taker>(
    nodes: &mut Nodes<D>,
    alloc: Global,
    told: &mut Told<T>,
) -> Result<(), RestartFault>
    requires { CanServe D.facts nodes.old }
    ensures ok { OnOk result (Served D.facts
        (λ (setup : Setup). ForEach setup.nodes (IsRestart setup))
        nodes.old nodes.new told.old told.new) }
    ensures err { IfErr result (Refuses D.facts all_nodes
        (λ (setup : Setup). ForEach setup.nodes (IsRestart setup)) nodes.old nodes.new told.old) }
{
    let count = nodes.nodes.len();
    'nodes: for at in 0..count {
        let node = nodes.node_id(at);
        restart(nodes, alloc, node, told)?;
    }
    Ok(())
}
