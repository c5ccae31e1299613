//! Calls of one node's log.
ghost use Rattle.std.specs.Prelude.{◌≡◌, ◌<◌, false, length, IfErr, IfOk, slice_get, Some};
ghost use Rattle.qq_cluster.specs.Logs.{Appends, AppendsInPart, MayAppendAt, MaySyncAt, NodeTurns, Syncs, SyncsInPart};
ghost use Rattle.qq_cluster.specs.declared.node.Node.{Node as NodeOf};

use crate::node::Node;
use qq_base::Memory;
use qq_disk::NodeDisk;
use qq_log::Op;
use qq_node_log::SyncOutcome;
use std::alloc::Global;

fn append_own<D: NodeDisk>(node: &mut Node<D>, alloc: Global, ops: Vec<Op>) -> Result<bool, Memory>
    requires { MayAppendAt D.facts ops.items node.old }
    ensures ok { IfOk result (λ more.
        Appends D.facts ops.items more node.old node.new) }
    ensures err { IfErr result (λ memory.
        AppendsInPart D.facts ops.items memory node.old node.new) }
{
    match &mut node.log {
        None => unreachable!(),
        Some(log) => log.append(alloc, ops),
    }
}

fn sync_own<D: NodeDisk>(node: &mut Node<D>, alloc: Global) -> Result<SyncOutcome, Memory>
    requires { MaySyncAt D.facts node.old }
    ensures ok { IfOk result (λ outcome.
        Syncs D.facts outcome node.old node.new) }
    ensures err { IfErr result (λ memory.
        SyncsInPart D.facts memory node.old node.new) }
{
    match &mut node.log {
        None => unreachable!(),
        Some(log) => log.sync(alloc),
    }
}

fn append_at<D: NodeDisk>(
    nodes: &mut [Node<D>],
    alloc: Global,
    at: usize,
    ops: Vec<Op>,
) -> Result<bool, Memory>
    requires place { at < length nodes.old }
    requires may { (node : NodeOf D) → slice_get nodes.old at ≡ Some node →
        MayAppendAt D.facts ops.items node }
    ensures ok { IfOk result (λ more. NodeTurns
        (Appends D.facts ops.items more) at nodes.old nodes.new) }
    ensures err { IfErr result (λ memory. NodeTurns
        (AppendsInPart D.facts ops.items memory) at nodes.old nodes.new) }
{
    append_own(&mut nodes[at], alloc, ops)
}

/// The log of the node at an index appends ops. It answers whether the disk did so.
pub(crate) fn append_in<D: NodeDisk>(
    nodes: &mut Vec<Node<D>>,
    alloc: Global,
    at: usize,
    ops: Vec<Op>,
) -> Result<bool, Memory>
    requires place { at < length nodes.old.items }
    requires may { (node : NodeOf D) → slice_get nodes.old.items at ≡ Some node →
        MayAppendAt D.facts ops.items node }
    ensures ok { IfOk result (λ more. NodeTurns
        (Appends D.facts ops.items more) at nodes.old.items nodes.new.items) }
    ensures err { IfErr result (λ memory. NodeTurns
        (AppendsInPart D.facts ops.items memory) at nodes.old.items nodes.new.items) }
{
    append_at(nodes, alloc, at, ops)
}

fn sync_at<D: NodeDisk>(
    nodes: &mut [Node<D>],
    alloc: Global,
    at: usize,
) -> Result<SyncOutcome, Memory>
    requires place { at < length nodes.old }
    requires may { (node : NodeOf D) → slice_get nodes.old at ≡ Some node →
        MaySyncAt D.facts node }
    ensures ok { IfOk result (λ outcome. NodeTurns
        (Syncs D.facts outcome) at nodes.old nodes.new) }
    ensures err { IfErr result (λ memory. NodeTurns
        (SyncsInPart D.facts memory) at nodes.old nodes.new) }
{
    sync_own(&mut nodes[at], alloc)
}

/// The log of the node at an index is synced.
pub(crate) fn sync_in<D: NodeDisk>(
    nodes: &mut Vec<Node<D>>,
    alloc: Global,
    at: usize,
) -> Result<SyncOutcome, Memory>
    requires place { at < length nodes.old.items }
    requires may { (node : NodeOf D) → slice_get nodes.old.items at ≡ Some node →
        MaySyncAt D.facts node }
    ensures ok { IfOk result (λ outcome. NodeTurns
        (Syncs D.facts outcome) at nodes.old.items nodes.new.items) }
    ensures err { IfErr result (λ memory. NodeTurns
        (SyncsInPart D.facts memory) at nodes.old.items nodes.new.items) }
{
    sync_at(nodes, alloc, at)
}

fn set_down<D: NodeDisk>(node: &mut Node<D>)
    ensures { node.new ≡ record node.old { up = false } }
{
    node.up = false;
}

fn down_at<D: NodeDisk>(nodes: &mut [Node<D>], at: usize)
    requires { at < length nodes.old }
    ensures { NodeTurns (λ old new. new ≡ record old { up = false }) at nodes.old nodes.new }
{
    set_down(&mut nodes[at]);
}

/// The node at an index is down from here on.
pub(crate) fn down_in<D: NodeDisk>(nodes: &mut Vec<Node<D>>, at: usize)
    requires { at < length nodes.old.items }
    ensures { NodeTurns (λ old new. new ≡ record old { up = false }) at nodes.old.items
        nodes.new.items }
{
    down_at(nodes, at);
}
