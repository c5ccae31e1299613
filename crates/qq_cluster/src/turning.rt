//! What an event of a node's log makes of the queues.
ghost use Rattle.std.specs.Prelude.{◌≡◌, ◌<◌, ℕ, All, length, nat_lt, IfOk, IsOkUnless, OnOk};
ghost use Rattle.std.specs.List.{AllByRecursion};
ghost use Rattle.qq_cluster_model.specs.Queue.{Stops, Syncs, Writes};
ghost use Rattle.qq_queue.specs.Members.{AreSound};
ghost use Rattle.qq_log.specs.Writable.{MayWrite};
ghost use Rattle.qq_cluster.specs.Turning.{HasTaken, HasTurned, TakesAt, TurnsAt, TurnsWhere};

use crate::nodes::Nodes;
use qq_base::{Memory, NodeId};
use qq_disk::NodeDisk;
use qq_log::Op;
use qq_queue::ClusterQueue;
use std::alloc::Global;

// What waits at a node is handed out by the queue at an index.
fn take_at(
    queues: &mut [ClusterQueue],
    alloc: Global,
    at: usize,
    node: NodeId,
    ops: &mut Vec<Op>,
) -> Result<(), Memory>
    requires place { at < length queues.old }
    requires sound { All (λ (d : ClusterQueue). AreSound d.group) queues.old }
    ensures ok { OnOk result (TurnsAt (Writes node.0) at queues.old queues.new) }
    ensures taken { OnOk result (TakesAt node.0 at queues.old ops.old.items ops.new.items) }
    ensures may { OnOk result (All MayWrite ops.old.items → All MayWrite ops.new.items) }
    ensures want { IsOkUnless result Memory.Want }
{
    queues[at].take_ops(alloc, node, ops)
}

// The same of all of them.
fn take_in(
    queues: &mut Vec<ClusterQueue>,
    alloc: Global,
    at: usize,
    node: NodeId,
    ops: &mut Vec<Op>,
) -> Result<(), Memory>
    requires place { at < length queues.old.items }
    requires sound { All (λ (d : ClusterQueue). AreSound d.group) queues.old.items }
    ensures ok { OnOk result (TurnsAt (Writes node.0) at queues.old.items queues.new.items) }
    ensures taken { OnOk result (TakesAt node.0 at queues.old.items ops.old.items ops.new.items) }
    ensures may { OnOk result (All MayWrite ops.old.items → All MayWrite ops.new.items) }
    ensures want { IsOkUnless result Memory.Want }
{
    take_at(queues, alloc, at, node, ops)
}

// What a node's log was given of the queue at an index is synced.
fn mark_at(queues: &mut [ClusterQueue], at: usize, node: NodeId)
    requires place { at < length queues.old }
    requires sound { All (λ (d : ClusterQueue). AreSound d.group) queues.old }
    ensures { TurnsAt (Syncs node.0) at queues.old queues.new }
{
    queues[at].synced(node);
}

// The same of all of them.
fn mark_in(queues: &mut Vec<ClusterQueue>, at: usize, node: NodeId)
    requires place { at < length queues.old.items }
    requires sound { All (λ (d : ClusterQueue). AreSound d.group) queues.old.items }
    ensures { TurnsAt (Syncs node.0) at queues.old.items queues.new.items }
{
    mark_at(queues, at, node);
}

// A node stops for the queue at an index.
fn stop_at(queues: &mut [ClusterQueue], alloc: Global, at: usize, node: NodeId)
    requires place { at < length queues.old }
    requires sound { All (λ (d : ClusterQueue). AreSound d.group) queues.old }
    ensures { TurnsAt (Stops node.0) at queues.old queues.new }
{
    queues[at].stop(alloc, node);
}

// And for each.
fn stop_each(queues: &mut [ClusterQueue], alloc: Global, node: NodeId)
    requires { All (λ (d : ClusterQueue). AreSound d.group) queues.old }
    ensures { TurnsWhere (λ at. nat_lt at (length queues.old)) (Stops node.0)
        queues.old queues.new }
{
    let count = queues.len();
    'queues: for at in 0..count {
        stop_at(queues, alloc, at, node);
    }
}

fn stop_in(queues: &mut Vec<ClusterQueue>, alloc: Global, node: NodeId)
    requires { All (λ (d : ClusterQueue). AreSound d.group) queues.old.items }
    ensures { TurnsWhere (λ at. nat_lt at (length queues.old.items)) (Stops node.0)
        queues.old.items queues.new.items }
{
    stop_each(queues, alloc, node);
}

impl<D: NodeDisk> Nodes<D> {
    // What waits at a node is handed out by each queue, in their order.
    pub(crate) fn take_ops(&mut self, alloc: Global, node: NodeId) -> Result<Vec<Op>, Memory>
        requires sound { All (λ (d : ClusterQueue). AreSound d.group) self.old.queues.items }
        requires within { AllByRecursion (λ (at : ℕ). at < length self.old.queues.items)
            self.old.active }
        ensures ok { IfOk result (λ ops.
            HasTaken D.facts node.0 self.old self.new ops.items) }
        ensures nodes { self.new.nodes ≡ self.old.nodes }
        ensures want { IsOkUnless result Memory.Want }
    {
        let mut ops = Vec::new(alloc);
        // A queue that isn't active has nothing that waits.
        let count = self.active.len();
        'active: for place in 0..count {
            let at = self.active.at(place);
            take_in(&mut self.queues, alloc, at, node, &mut ops)?;
        }
        Ok(ops)
    }

    // What a node's log was given of each queue is synced.
    pub(crate) fn mark_synced(&mut self, node: NodeId)
        requires sound { All (λ (d : ClusterQueue). AreSound d.group) self.old.queues.items }
        requires within { AllByRecursion (λ (at : ℕ). at < length self.old.queues.items)
            self.old.active }
        ensures { HasTurned (Syncs node.0) self.old self.new }
    {
        let count = self.active.len();
        'active: for place in 0..count {
            let at = self.active.at(place);
            mark_in(&mut self.queues, at, node);
        }
    }

    // A node's members stop, of each queue.
    pub(crate) fn stop_members(&mut self, alloc: Global, node: NodeId)
        requires { All (λ (d : ClusterQueue). AreSound d.group) self.old.queues.items }
        ensures same { self.new ≡ record self.old { queues = self.new.queues } }
        ensures turns { TurnsWhere (λ at. nat_lt at (length self.old.queues.items)) (Stops node.0)
            self.old.queues.items self.new.queues.items }
    {
        stop_in(&mut self.queues, alloc, node);
    }
}
