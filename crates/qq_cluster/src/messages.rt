//! Lines for one message that is on its way.
ghost use Rattle.std.specs.Prelude.{◌≡◌, ◌<◌, ◌+◌, ◌-◌, length, IfErr, IfSome, OnOk};
ghost use Rattle.qq_cluster_model.specs.Cluster.{Cluster, Setup};
ghost use Rattle.qq_cluster_model.specs.Lines.{IsCopy, IsDeliver, IsDelivered, IsLose, WhereThere, receiver_at};
ghost use Rattle.qq_queue.specs.Members.{number_of};
ghost use Rattle.qq_queue.specs.Events.{event_of};
ghost use Rattle.qq_cluster.specs.Happening.{IsUnasked};
ghost use Rattle.qq_cluster.specs.Nodes.{CanServe, GaveUp, IsNodeAt, IsQueueAt, Served, Stands};

use crate::nodes::Nodes;
use crate::told::Told;
use qq_base::{Memory, NodeId, QueueId};
use qq_disk::NodeDisk;
use qq_group_laws::a_message_is_from_one_member_to_another;
use qq_queue::QueueEvent;
use qq_taker::Taker;
use std::alloc::Global;

impl<D: NodeDisk> Nodes<D> {
    // Whom the message at a place, from 1, is for.
    fn receiver(&self, at: usize, message: u32) -> Option<NodeId>
        requires serve { CanServe D.facts self.now }
        requires place { at < length self.now.queues.items }
        requires message { 0 < message }
        ensures receiver { (setup : Setup) (c : Cluster) → Stands D.facts setup self.now c →
            number_of result ≡ receiver_at c (at + 1) (message - 1) }
        ensures node { IfSome result (λ node. IsNodeAt node self.now) }
    {
        a_message_is_from_one_member_to_another();
        self.queues[at].receiver(message)
    }

    // An event of a message, or it is said that there is none.
    fn happen_where_there<T: Taker>(
        &mut self,
        alloc: Global,
        at: usize,
        message: u32,
        event: QueueEvent,
        told: &mut Told<T>,
    ) -> Result<(), Memory>
        requires serve { CanServe D.facts self.old }
        requires place { at < length self.old.queues.items }
        requires message { 0 < message }
        requires may { IsUnasked event }
        ensures ok { OnOk result (Served D.facts (λ (setup : Setup) (c : Cluster).
            WhereThere (receiver_at c (at + 1) (message - 1)) (event_of event) (at + 1) c)
            self.old self.new told.old told.new) }
        ensures err { IfErr result (GaveUp D.facts (λ (setup : Setup) (c : Cluster).
            WhereThere (receiver_at c (at + 1) (message - 1)) (event_of event) (at + 1) c)
            self.old self.new) }
    {
        let there = self.receiver(at, message).is_some();
        if !there {
            self.say_no_such(told)?;
            return Ok(());
        }
        self.happen(alloc, at, event, told)?;
        Ok(())
    }

    // A message reaches its receiver, or is lost where that is down, which is said.
    fn deliver_to<T: Taker>(
        &mut self,
        alloc: Global,
        at: usize,
        message: u32,
        node: NodeId,
        told: &mut Told<T>,
    ) -> Result<(), Memory>
        requires serve { CanServe D.facts self.old }
        requires place { at < length self.old.queues.items }
        requires message { 0 < message }
        requires node { IsNodeAt node self.old }
        ensures ok { OnOk result (Served D.facts
            (λ (setup : Setup). IsDelivered (at + 1) (message - 1) (number_of (Some node)))
            self.old self.new told.old told.new) }
        ensures err { IfErr result (GaveUp D.facts
            (λ (setup : Setup). IsDelivered (at + 1) (message - 1) (number_of (Some node)))
            self.old self.new) }
    {
        self.tell(alloc, at, QueueEvent::Deliver { place: message }, told)?;
        let up = self.is_up(node);
        if up {
            return Ok(());
        }
        self.say_down(node, told)?;
        Ok(())
    }

    /// A message of a queue, the first one is 1, reaches its receiver. Where that is down the message is lost, and
    /// that it is down is said; where there is no such message that is said.
    pub fn deliver<T: Taker>(
        &mut self,
        alloc: Global,
        queue: QueueId,
        message: u32,
        told: &mut Told<T>,
    ) -> Result<(), Memory>
        requires serve { CanServe D.facts self.old }
        requires queue { IsQueueAt queue self.old }
        ensures ok { OnOk result (Served D.facts (λ setup. IsDeliver queue.0 message) self.old
            self.new told.old told.new) }
        ensures err { IfErr result (GaveUp D.facts (λ setup. IsDeliver queue.0 message)
            self.old self.new) }
    {
        let at = queue.0 as usize - 1;
        if message == 0 {
            self.say_no_such(told)?;
            return Ok(());
        }
        let Some(node) = self.receiver(at, message) else {
            self.say_no_such(told)?;
            return Ok(());
        };
        self.deliver_to(alloc, at, message, node, told)?;
        Ok(())
    }

    /// A message of a queue, the first one is 1, is lost; where there is none that is said.
    pub fn lose<T: Taker>(
        &mut self,
        alloc: Global,
        queue: QueueId,
        message: u32,
        told: &mut Told<T>,
    ) -> Result<(), Memory>
        requires serve { CanServe D.facts self.old }
        requires queue { IsQueueAt queue self.old }
        ensures ok { OnOk result (Served D.facts (λ setup. IsLose queue.0 message) self.old self.new
            told.old told.new) }
        ensures err { IfErr result (GaveUp D.facts (λ setup. IsLose queue.0 message)
            self.old self.new) }
    {
        if message == 0 {
            self.say_no_such(told)?;
            return Ok(());
        }
        let at = queue.0 as usize - 1;
        self.happen_where_there(
            alloc,
            at,
            message,
            QueueEvent::Lose { place: message },
            told,
        )?;
        Ok(())
    }

    /// A message of a queue, the first one is 1, comes again behind all others; where there is none that is said.
    pub fn copy<T: Taker>(
        &mut self,
        alloc: Global,
        queue: QueueId,
        message: u32,
        told: &mut Told<T>,
    ) -> Result<(), Memory>
        requires serve { CanServe D.facts self.old }
        requires queue { IsQueueAt queue self.old }
        ensures ok { OnOk result (Served D.facts (λ setup. IsCopy queue.0 message) self.old self.new
            told.old told.new) }
        ensures err { IfErr result (GaveUp D.facts (λ setup. IsCopy queue.0 message)
            self.old self.new) }
    {
        if message == 0 {
            self.say_no_such(told)?;
            return Ok(());
        }
        let at = queue.0 as usize - 1;
        self.happen_where_there(
            alloc,
            at,
            message,
            QueueEvent::Copy { place: message },
            told,
        )?;
        Ok(())
    }
}
