//! Nodes are crashed.
ghost use Rattle.std.specs.Prelude.{◌≡◌, ◌<◌, ℕ, OnOk, Some, length, slice_get};
ghost use Rattle.qq_base.specs.Causes.{HasCause};
ghost use Rattle.qq_cluster_model.specs.Cluster.{Crashes, Setup};
ghost use Rattle.qq_cluster_model.specs.Outcome.{Outcome};
ghost use Rattle.qq_cluster_model.specs.Rules.{ForEach, Is};
ghost use Rattle.qq_ports.specs.Yard.{IsYardCaused};
ghost use Rattle.qq_cluster.specs.Crashing.{HasHappened, HasOwn, IsCrashedTo, LeavesDisks};
ghost use Rattle.qq_cluster.specs.Logs.{NodeTurns};
ghost use Rattle.qq_cluster.specs.Nodes.{CanServe, IsNodeAt};
ghost use Rattle.qq_cluster.specs.declared.node.Node.{Node as NodeOf};

use crate::node::Node;
use crate::nodes::Nodes;
use qq_base::NodeId;
use qq_disk::Image;
use qq_node_log::crash_log;
use qq_ports::{Yard, YardFault};
use std::alloc::Global;

// A node's log is crashed, and the node is down.
fn crash_own<Y: Yard>(
    node: &mut Node<Y::Disk>,
    alloc: Global,
    yard: &mut Y,
    image: &Image,
) -> Result<(), YardFault>
    requires own { HasOwn node.old }
    ensures ok { OnOk result
        (IsCrashedTo Y.Disk.facts image.now node.old node.new) }
    ensures cause { HasCause IsYardCaused (Y.faults yard.old) (Y.faults yard.new) result }
{
    let Some(log) = node.log.take() else {
        unreachable!()
    };
    match crash_log(log, alloc, yard, image) {
        Ok(left) => {
            node.log = Some(left);
            node.up = false;
            Ok(())
        }
        Err(fault) => Err(fault),
    }
}

// The log of the node at an index is crashed, and the node is down.
fn crash_at<Y: Yard>(
    nodes: &mut [Node<Y::Disk>],
    alloc: Global,
    at: usize,
    yard: &mut Y,
    image: &Image,
) -> Result<(), YardFault>
    requires place { at < length nodes.old }
    requires own { (node : NodeOf Y.Disk) → slice_get nodes.old at ≡ Some node → HasOwn node }
    ensures ok { OnOk result (NodeTurns
        (IsCrashedTo Y.Disk.facts image.now) at nodes.old nodes.new) }
    ensures cause { HasCause IsYardCaused (Y.faults yard.old) (Y.faults yard.new) result }
{
    crash_own(&mut nodes[at], alloc, yard, image)
}

fn crash_in<Y: Yard>(
    nodes: &mut Vec<Node<Y::Disk>>,
    alloc: Global,
    at: usize,
    yard: &mut Y,
    image: &Image,
) -> Result<(), YardFault>
    requires place { at < length nodes.old.items }
    requires own { (node : NodeOf Y.Disk) → slice_get nodes.old.items at ≡ Some node → HasOwn node }
    ensures ok { OnOk result (NodeTurns
        (IsCrashedTo Y.Disk.facts image.now) at nodes.old.items nodes.new.items) }
    ensures cause { HasCause IsYardCaused (Y.faults yard.old) (Y.faults yard.new) result }
{
    crash_at(nodes, alloc, at, yard, image)
}

/// Crashes a node, one that is down too: its members stop, and its disk becomes what the image names. Nothing is
/// printed. Where the yard refuses, its count of faults rose, or there was no memory; then the node's disk is gone,
/// and the run ends.
pub fn crash_node<Y: Yard>(
    nodes: &mut Nodes<Y::Disk>,
    alloc: Global,
    yard: &mut Y,
    node: NodeId,
    image: &Image,
) -> Result<(), YardFault>
    requires serve { CanServe Y.Disk.facts nodes.old }
    requires node { IsNodeAt node nodes.old }
    ensures ok { OnOk result ((outcome : Outcome) → HasHappened Y.Disk.facts
        (λ setup. Is (Crashes node.0 image.now)) nodes.old nodes.new outcome outcome) }
    ensures leaves { OnOk result (LeavesDisks Y.Disk.facts node.0 image.now nodes.old nodes.new) }
    ensures cause { HasCause IsYardCaused (Y.faults yard.old) (Y.faults yard.new) result }
{
    let at = node.0 as usize - 1;
    match crash_in(&mut nodes.nodes, alloc, at, yard, image) {
        Ok(()) => {
            nodes.stop_members(alloc, node);
            Ok(())
        }
        Err(fault) => Err(fault),
    }
}

/// Crashes each node, in order. Where the yard refuses one, the run ends.
pub fn crash_each<Y: Yard>(
    nodes: &mut Nodes<Y::Disk>,
    alloc: Global,
    yard: &mut Y,
    image: &Image,
) -> Result<(), YardFault>
    requires serve { CanServe Y.Disk.facts nodes.old }
    ensures ok { OnOk result ((outcome : Outcome) → HasHappened Y.Disk.facts
        (λ (setup : Setup). ForEach setup.nodes (λ (k : ℕ). Is (Crashes k image.now)))
        nodes.old nodes.new outcome outcome) }
    ensures cause { HasCause IsYardCaused (Y.faults yard.old) (Y.faults yard.new) result }
{
    let count = nodes.nodes.len();
    'nodes: for at in 0..count {
        let node = nodes.node_id(at);
        crash_node(nodes, alloc, yard, node, image)?;
    }
    Ok(())
}
