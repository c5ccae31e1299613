//! What waits at a node is written to its log, and synced.
ghost use Rattle.std.specs.Prelude.{◌≡◌, ◌∷◌, [], ◌-◌, All, IfErr, IsOkUnless, OnErr, OnOk};
ghost use Rattle.qq_cluster_model.specs.Cluster.{Setup};
ghost use Rattle.qq_cluster_model.specs.Rules.{IsSync, IsWrite};
ghost use Rattle.qq_cluster_model.specs.declared.printed.Printed.TheVariants.{Stopped};
ghost use Rattle.qq_queue.specs.Members.{AreSound};
ghost use Rattle.qq_queue.specs.declared.cluster_queue.ClusterQueue.{ClusterQueue as Queue};
ghost use Rattle.qq_cluster.specs.Nodes.{CanServe, GaveUp, IsNodeAt, Served};
ghost use Rattle.qq_cluster.specs.Showing.{with_printed};
ghost use Rattle.qq_cluster.specs.Turning.{HasStopped};

use crate::logs::{append_in, down_in, sync_in};
use crate::nodes::Nodes;
use crate::told::Told;
use qq_base::{Memory, NodeId};
use qq_cluster_laws::what_waits_goes_on;
use qq_cluster_model::Printed;
use qq_disk::NodeDisk;
use qq_node_log::SyncOutcome;
use qq_taker::Taker;
use std::alloc::Global;

impl<D: NodeDisk> Nodes<D> {
    /// A call of a node's disk has failed.
    pub fn say_stopped<T: Taker>(&self, node: NodeId, told: &mut Told<T>) -> Result<(), Memory>
        ensures ok { OnOk result (told.new
            ≡ with_printed (Stopped node.0 ∷ []) told.old) }
        ensures want { IsOkUnless result Memory.Want }
    {
        told.print(Printed::Stopped { node: node.0 })
    }

    // A node is down from here on, and so are its members.
    pub(crate) fn stop(&mut self, alloc: Global, node: NodeId)
        requires node { IsNodeAt node self.old }
        requires sound { All (λ (d : Queue). AreSound d.group) self.old.queues.items }
        ensures { HasStopped node.0 self.old self.new }
    {
        self.stop_members(alloc, node);
        down_in(&mut self.nodes, node.0 as usize - 1);
    }

    // A call of a node's disk has failed: that is said, and the node stops. After an error nothing has changed.
    fn fail<T: Taker>(
        &mut self,
        alloc: Global,
        node: NodeId,
        told: &mut Told<T>,
    ) -> Result<(), Memory>
        requires node { IsNodeAt node self.old }
        requires sound { All (λ (d : Queue). AreSound d.group) self.old.queues.items }
        ensures ok { OnOk result (HasStopped node.0 self.old self.new) }
        ensures says { OnOk result (told.new
            ≡ with_printed (Stopped node.0 ∷ []) told.old) }
        ensures err { OnErr result (self.new ≡ self.old) }
        ensures want { IsOkUnless result Memory.Want }
    {
        self.say_stopped(node, told)?;
        self.stop(alloc, node);
        Ok(())
    }

    // What waits at a node is appended, where it is up and something waits.
    pub(crate) fn write_up<T: Taker>(
        &mut self,
        alloc: Global,
        node: NodeId,
        told: &mut Told<T>,
    ) -> Result<(), Memory>
        requires serve { CanServe D.facts self.old }
        requires node { IsNodeAt node self.old }
        ensures ok { OnOk result (Served D.facts (λ (setup : Setup). IsWrite setup node.0)
            self.old self.new told.old told.new) }
        ensures err { IfErr result (GaveUp D.facts (λ (setup : Setup). IsWrite setup node.0)
            self.old self.new) }
    {
        what_waits_goes_on();
        let up = self.is_up(node);
        if !up {
            return Ok(());
        }
        let ops = self.take_ops(alloc, node)?;
        let count = ops.len();
        if count == 0 {
            return Ok(());
        }
        let more = append_in(&mut self.nodes, alloc, node.0 as usize - 1, ops)?;
        if more {
            return Ok(());
        }
        self.fail(alloc, node, told)?;
        Ok(())
    }

    // A node's log is synced, where the node is up.
    pub(crate) fn sync_up<T: Taker>(
        &mut self,
        alloc: Global,
        node: NodeId,
        told: &mut Told<T>,
    ) -> Result<(), Memory>
        requires serve { CanServe D.facts self.old }
        requires node { IsNodeAt node self.old }
        ensures ok { OnOk result (Served D.facts (λ (setup : Setup). IsSync setup node.0)
            self.old self.new told.old told.new) }
        ensures err { IfErr result (GaveUp D.facts (λ (setup : Setup). IsSync setup node.0)
            self.old self.new) }
    {
        let up = self.is_up(node);
        if !up {
            return Ok(());
        }
        let outcome = sync_in(&mut self.nodes, alloc, node.0 as usize - 1)?;
        match outcome {
            SyncOutcome::Whole => {
                self.mark_synced(node);
                Ok(())
            }
            SyncOutcome::NoFile => {
                self.mark_synced(node);
                self.fail(alloc, node, told)?;
                Ok(())
            }
            SyncOutcome::Nothing => {
                self.fail(alloc, node, told)?;
                Ok(())
            }
        }
    }
}
