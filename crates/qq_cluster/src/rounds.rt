//! Rounds and pumps: what waits is written, synced and noticed node by node, then messages are delivered queue by
//! queue, until nothing is left to do.
ghost use Rattle.std.specs.Prelude.{◌≡◌, ◌<◌, ◌+◌, true, length, IfErr, OnOk};
ghost use Rattle.qq_cluster_model.specs.Cluster.{Cluster, Setup};
ghost use Rattle.qq_cluster_model.specs.Outcome.{Outcome};
ghost use Rattle.qq_cluster_model.specs.Rules.{ForEach, IsEmptied, IsNodeRound, IsNothing, IsNotice, IsPump, IsPumped, IsRound, is_idle, is_quiet};
ghost use Rattle.qq_cluster_laws.specs.Linked.{IsReached};
ghost use Rattle.qq_cluster.specs.Active.{is_in};
ghost use Rattle.qq_cluster.specs.Nodes.{CanServe, GaveUp, IsNodeAt, Served, Stands};

use crate::nodes::Nodes;
use crate::told::Told;
use qq_base::{Memory, NodeId};
use qq_disk::NodeDisk;
use qq_queue::QueueEvent;
use qq_taker::Taker;
use std::alloc::Global;

/// How many rounds a pump makes at most.
pub const MOST_ROUNDS: u64 = 10_000;

impl<D: NodeDisk> Nodes<D> {
    // A queue's member notices what is synced of it, where something is and the node is up.
    fn notice_active<T: Taker>(
        &mut self,
        alloc: Global,
        at: usize,
        node: NodeId,
        told: &mut Told<T>,
    ) -> Result<(), Memory>
        requires serve { CanServe D.facts self.old }
        requires place { at < length self.old.queues.items }
        requires active { is_in at self.old.active ≡ true }
        requires node { IsNodeAt node self.old }
        ensures ok { OnOk result (Served D.facts (λ setup. IsNotice node.0 (at + 1)) self.old
            self.new told.old told.new) }
        ensures active { self.new.active ≡ self.old.active }
        ensures err { IfErr result (GaveUp D.facts (λ setup. IsNotice node.0 (at + 1))
            self.old self.new) }
    {
        let waits = self.waits_noticed(at, node);
        if !waits {
            return Ok(());
        }
        self.tell_active(alloc, at, QueueEvent::Notice { node }, told)?;
        Ok(())
    }

    // Each queue's member on a node notices what is synced of it.
    fn notice_each<T: Taker>(
        &mut self,
        alloc: Global,
        node: NodeId,
        told: &mut Told<T>,
    ) -> Result<(), Memory>
        requires serve { CanServe D.facts self.old }
        requires node { IsNodeAt node self.old }
        ensures ok { OnOk result (Served D.facts
            (λ (setup : Setup). ForEach setup.places (IsNotice node.0))
            self.old self.new told.old told.new) }
        ensures err { IfErr result (GaveUp D.facts
            (λ (setup : Setup). ForEach setup.places (IsNotice node.0)) self.old self.new) }
    {
        // In the order of the queues, which is the order of what is printed.
        let count = self.active.len();
        'active: for place in 0..count {
            let at = self.active.at(place);
            self.notice_active(alloc, at, node, told)?;
        }
        Ok(())
    }

    // The messages of a queue are delivered from the front, as many as there are now.
    fn empty_active<T: Taker>(
        &mut self,
        alloc: Global,
        at: usize,
        told: &mut Told<T>,
    ) -> Result<(), Memory>
        requires serve { CanServe D.facts self.old }
        requires place { at < length self.old.queues.items }
        requires active { is_in at self.old.active ≡ true }
        ensures ok { OnOk result (Served D.facts (λ setup. IsEmptied (at + 1)) self.old self.new
            told.old told.new) }
        ensures active { self.new.active ≡ self.old.active }
        ensures err { IfErr result (GaveUp D.facts (λ setup. IsEmptied (at + 1))
            self.old self.new) }
    {
        let count = self.messages(at);
        'messages: for message in 0..count {
            self.tell_active(alloc, at, QueueEvent::Deliver { place: 1 }, told)?;
        }
        Ok(())
    }

    // The messages of each queue are delivered.
    fn empty_each<T: Taker>(&mut self, alloc: Global, told: &mut Told<T>) -> Result<(), Memory>
        requires { CanServe D.facts self.old }
        ensures ok { OnOk result (Served D.facts (λ (setup : Setup). ForEach setup.places IsEmptied)
            self.old self.new told.old told.new) }
        ensures err { IfErr result (GaveUp D.facts
            (λ (setup : Setup). ForEach setup.places IsEmptied) self.old self.new) }
    {
        let count = self.active.len();
        'active: for place in 0..count {
            let at = self.active.at(place);
            self.empty_active(alloc, at, told)?;
        }
        Ok(())
    }

    // A node's log is written and synced, and its members notice that.
    fn node_round<T: Taker>(
        &mut self,
        alloc: Global,
        node: NodeId,
        told: &mut Told<T>,
    ) -> Result<(), Memory>
        requires serve { CanServe D.facts self.old }
        requires node { IsNodeAt node self.old }
        ensures ok { OnOk result (Served D.facts (λ (setup : Setup). IsNodeRound setup node.0)
            self.old self.new told.old told.new) }
        ensures err { IfErr result (GaveUp D.facts (λ (setup : Setup). IsNodeRound setup node.0)
            self.old self.new) }
    {
        self.write_up(alloc, node, told)?;
        self.sync_up(alloc, node, told)?;
        self.notice_each(alloc, node, told)?;
        Ok(())
    }

    // The rounds of all nodes.
    fn round_each<T: Taker>(&mut self, alloc: Global, told: &mut Told<T>) -> Result<(), Memory>
        requires { CanServe D.facts self.old }
        ensures ok { OnOk result (Served D.facts
            (λ (setup : Setup). ForEach setup.nodes (IsNodeRound setup))
            self.old self.new told.old told.new) }
        ensures err { IfErr result (GaveUp D.facts
            (λ (setup : Setup). ForEach setup.nodes (IsNodeRound setup)) self.old self.new) }
    {
        let count = self.nodes.len();
        'nodes: for at in 0..count {
            let node = self.node_id(at);
            self.node_round(alloc, node, told)?;
        }
        Ok(())
    }

    // Whether nothing is to be done at a queue.
    fn is_quiet(&self, at: usize) -> bool
        requires serve { CanServe D.facts self.now }
        requires place { at < length self.now.queues.items }
        ensures { (setup : Setup) (c : Cluster) → IsReached setup c →
            Stands D.facts setup self.now c → result ≡ is_quiet setup c.up (c.queue (at + 1)) }
    {
        let count = self.messages(at);
        if count > 0 {
            return false;
        }
        let nodes = self.nodes.len();
        'nodes: for place in 0..nodes {
            let node = self.node_id(place);
            let done = self.is_settled(at, node);
            if !done {
                return false;
            }
        }
        true
    }

    // Queues at which nothing is to be done aren't active any more.
    fn drop_quiet(&mut self)
        requires { CanServe D.facts self.old }
        ensures { (outcome : Outcome) → Served D.facts (λ setup. IsNothing) self.old
            self.new outcome outcome }
    {
        let mut left = self.active.len();
        // From the end, so that where all are quiet none of them is moved.
        'active: while left > 0 {
            left -= 1;
            let at = self.active.at(left);
            let quiet = self.is_quiet(at);
            if quiet {
                self.active.remove(left);
            }
        }
    }

    /// Whether a pump has nothing to do: no message is on its way, and nothing waits at a node that is up.
    pub fn is_idle(&self) -> bool
        requires { CanServe D.facts self.now }
        ensures { (setup : Setup) (c : Cluster) → IsReached setup c →
            Stands D.facts setup self.now c → result ≡ is_idle setup c }
    {
        let count = self.active.len();
        'active: for place in 0..count {
            let at = self.active.at(place);
            let quiet = self.is_quiet(at);
            if !quiet {
                return false;
            }
        }
        true
    }

    // The nodes in order, and then the queues in order.
    fn round<T: Taker>(&mut self, alloc: Global, told: &mut Told<T>) -> Result<(), Memory>
        requires { CanServe D.facts self.old }
        ensures ok { OnOk result (Served D.facts IsRound self.old self.new told.old told.new) }
        ensures err { IfErr result (GaveUp D.facts IsRound self.old self.new) }
    {
        self.round_each(alloc, told)?;
        self.empty_each(alloc, told)?;
        self.drop_quiet();
        Ok(())
    }

    /// Rounds are made until nothing is left to do: `MOST_ROUNDS` at most, after which it says that it is
    /// busy.
    pub fn pump<T: Taker>(&mut self, alloc: Global, told: &mut Told<T>) -> Result<(), Memory>
        requires { CanServe D.facts self.old }
        ensures ok { OnOk result (Served D.facts IsPump self.old self.new told.old told.new) }
        ensures err { IfErr result (GaveUp D.facts IsPump self.old self.new) }
    {
        let mut left = MOST_ROUNDS;
        'rounds: while left > 0 {
            let idle = self.is_idle();
            if idle {
                return Ok(());
            }
            self.round(alloc, told)?;
            left -= 1;
        }
        let idle = self.is_idle();
        if idle {
            return Ok(());
        }
        self.say_busy(told)?;
        Ok(())
    }

    // A pump follows, unless it is to be asked for.
    pub(crate) fn pumped<T: Taker>(
        &mut self,
        alloc: Global,
        told: &mut Told<T>,
    ) -> Result<(), Memory>
        requires { CanServe D.facts self.old }
        ensures ok { OnOk result (Served D.facts IsPumped self.old self.new told.old told.new) }
        ensures err { IfErr result (GaveUp D.facts IsPumped self.old self.new) }
    {
        if !self.auto {
            return Ok(());
        }
        self.pump(alloc, told)?;
        Ok(())
    }
}
