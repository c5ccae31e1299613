//! A node that is down is recovered, and its members go on with what was found.
ghost use Rattle.std.specs.Prelude.{◌≡◌, ◌<◌, length, slice_get, IfErr, IfOk, OnErr, OnOk, Some};
ghost use Rattle.qq_node_log.specs.Found.{AreDistinct};
ghost use Rattle.qq_cluster.specs.Logs.{NodeTurns};
ghost use Rattle.qq_cluster.specs.declared.node.Node.{Node as NodeOf};
ghost use Rattle.qq_opening.specs.Taking.{AreLanesAt, FailsToRecover, GoesOn, MayGoOn, MayNotStep, MayRecover, MayStep, Recovers, StaysDown, Steps};

use crate::marking::mark_in;
use crate::restarting::RestartFault;
use crate::taking::{handed_of, take_up_each};
use qq_base::NodeId;
use qq_cluster::{Node, Nodes, Told};
use qq_disk::NodeDisk;
use qq_log::Lane;
use qq_node_log::{Found, NodeLog, recover_log};
use qq_recover::RecoverFault;
use qq_taker::Taker;
use std::alloc::Global;

// A node's log is recovered. It answers what is found of each of its queues.
fn recover_own<D: NodeDisk>(
    node: &mut Node<D>,
    alloc: Global,
    log_bytes: u64,
) -> Result<Vec<Option<Lane>>, RecoverFault>
    requires own { MayRecover D.facts node.old }
    requires apart { AreDistinct node.old.queues.items }
    ensures ok { IfOk result (λ lanes.
        Recovers D.facts log_bytes node.old node.new lanes.items) }
    ensures err { IfErr result (FailsToRecover D.facts node.old node.new) }
{
    let Some(log) = node.log.take() else {
        unreachable!()
    };
    match recover_log(log.into_disk(), alloc, &node.queues, log_bytes) {
        Ok(found) => {
            let Found { wal, lanes } = found;
            node.log = Some(NodeLog::Open(wal));
            Ok(lanes)
        }
        Err((fault, disk)) => {
            node.log = Some(NodeLog::Closed(disk));
            Err(fault)
        }
    }
}

// The log of the node at an index is recovered.
fn recover_at<D: NodeDisk>(
    nodes: &mut [Node<D>],
    alloc: Global,
    at: usize,
    log_bytes: u64,
) -> Result<Vec<Option<Lane>>, RecoverFault>
    requires place { at < length nodes.old }
    requires own { (node : NodeOf D) → slice_get nodes.old at ≡ Some node →
        MayRecover D.facts node }
    requires apart { (node : NodeOf D) → slice_get nodes.old at ≡ Some node →
        AreDistinct node.queues.items }
    ensures ok { IfOk result (λ lanes. NodeTurns
        (λ old new. Recovers D.facts log_bytes old new lanes.items) at nodes.old nodes.new) }
    ensures err { IfErr result (λ fault. NodeTurns
        (λ old new. FailsToRecover D.facts old new fault) at nodes.old nodes.new) }
{
    recover_own(&mut nodes[at], alloc, log_bytes)
}

fn recover_in<D: NodeDisk>(
    nodes: &mut Vec<Node<D>>,
    alloc: Global,
    at: usize,
    log_bytes: u64,
) -> Result<Vec<Option<Lane>>, RecoverFault>
    requires place { at < length nodes.old.items }
    requires own { (node : NodeOf D) → slice_get nodes.old.items at ≡ Some node →
        MayRecover D.facts node }
    requires apart { (node : NodeOf D) → slice_get nodes.old.items at ≡ Some node →
        AreDistinct node.queues.items }
    ensures ok { IfOk result (λ lanes. NodeTurns
        (λ old new. Recovers D.facts log_bytes old new lanes.items) at nodes.old.items
        nodes.new.items) }
    ensures err { IfErr result (λ fault. NodeTurns
        (λ old new. FailsToRecover D.facts old new fault) at nodes.old.items nodes.new.items) }
{
    recover_at(nodes, alloc, at, log_bytes)
}

// The members on a node go on with what was found, and it is up.
fn go_on<D: NodeDisk>(
    nodes: &mut Nodes<D>,
    alloc: Global,
    node: NodeId,
    opens: bool,
    lanes: Vec<Option<Lane>>,
) -> Result<(), RestartFault>
    requires may { MayGoOn node nodes.old }
    requires lanes { AreLanesAt node nodes.old lanes.items }
    ensures ok { OnOk result (GoesOn node opens lanes.items nodes.old nodes.new) }
    ensures nodes { OnErr result (nodes.new.nodes ≡ nodes.old.nodes) }
    ensures cause { IfErr result (StaysDown node opens lanes.items nodes.old) }
{
    let at = node.0 as usize - 1;
    let own = &nodes.nodes[at];
    let handed = handed_of(opens, own.empty);
    take_up_each(&mut nodes.queues, alloc, node, handed, &own.queues, lanes)?;
    mark_in(&mut nodes.nodes, at, true);
    Ok(())
}

/// Recovers a node that is down: each of its queues' members goes on with what was found of it, and the node is up. If
/// the disk fails, that is said, and the node stays down. `opens` is whether the node is opened: else what is found
/// has to be what its members' logs were handed.
pub(crate) fn recover_node<D: NodeDisk, T: Taker>(
    nodes: &mut Nodes<D>,
    alloc: Global,
    node: NodeId,
    opens: bool,
    told: &mut Told<T>,
) -> Result<(), RestartFault>
    requires { MayStep D.facts node nodes.old }
    ensures ok { OnOk result (Steps D.facts node opens nodes.old nodes.new told.old told.new) }
    ensures err { IfErr result (MayNotStep D.facts node opens nodes.old nodes.new) }
{
    match recover_in(
        &mut nodes.nodes,
        alloc,
        node.0 as usize - 1,
        nodes.log_bytes,
    ) {
        Ok(lanes) => match go_on(nodes, alloc, node, opens, lanes) {
            Ok(()) => Ok(()),
            Err(fault) => Err(fault),
        },
        Err(RecoverFault::Disk) => match nodes.say_stopped(node, told) {
            Ok(()) => Ok(()),
            Err(memory) => Err(RestartFault::Memory(memory)),
        },
        Err(RecoverFault::Damaged { file, place }) => {
            Err(RestartFault::Damaged { node, file, place })
        }
        Err(RecoverFault::Version { file, byte }) => {
            Err(RestartFault::Version { node, file, byte })
        }
        Err(RecoverFault::Memory(memory)) => Err(RestartFault::Memory(memory)),
    }
}
