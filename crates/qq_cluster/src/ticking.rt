//! Time passes at queues' first members.
ghost use Rattle.std.specs.Prelude.{◌<◌, ◌+◌, length, IfErr, OnOk};
ghost use Rattle.qq_cluster_model.specs.Cluster.{Setup};
ghost use Rattle.qq_cluster_model.specs.Rules.{ForEach, IsFirstTick};
ghost use Rattle.qq_cluster.specs.Nodes.{CanServe, GaveUp, Served};

use crate::nodes::Nodes;
use crate::told::Told;
use qq_base::Memory;
use qq_disk::NodeDisk;
use qq_queue::QueueEvent;
use qq_taker::Taker;
use std::alloc::Global;

impl<D: NodeDisk> Nodes<D> {
    // Time passes at a queue's first member.
    fn tick_first<T: Taker>(
        &mut self,
        alloc: Global,
        at: usize,
        told: &mut Told<T>,
    ) -> Result<(), Memory>
        requires serve { CanServe D.facts self.old }
        requires place { at < length self.old.queues.items }
        ensures ok { OnOk result (Served D.facts (λ (setup : Setup). IsFirstTick setup (at + 1))
            self.old self.new told.old told.new) }
        ensures err { IfErr result (GaveUp D.facts (λ (setup : Setup). IsFirstTick setup (at + 1))
            self.old self.new) }
    {
        let first = self.queues[at].members().first().copied();
        let Some(node) = first else {
            return Ok(());
        };
        self.happen(alloc, at, QueueEvent::Tick { node }, told)?;
        Ok(())
    }

    /// Time passes at each queue's first member, in order.
    pub fn tick_each<T: Taker>(&mut self, alloc: Global, told: &mut Told<T>) -> Result<(), Memory>
        requires { CanServe D.facts self.old }
        ensures ok { OnOk result (Served D.facts
            (λ (setup : Setup). ForEach setup.places (IsFirstTick setup))
            self.old self.new told.old told.new) }
        ensures err { IfErr result (GaveUp D.facts
            (λ (setup : Setup). ForEach setup.places (IsFirstTick setup)) self.old self.new) }
    {
        let count = self.queues.len();
        'places: for at in 0..count {
            self.tick_first(alloc, at, told)?;
        }
        Ok(())
    }
}
