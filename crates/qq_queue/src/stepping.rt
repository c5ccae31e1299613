//! What happens to the members of a queue: a method for each event.
ghost use Rattle.std.specs.Prelude.{◌≡◌, ◌<◌, ◌-◌, IfErr, OnOk, OnErr};
ghost use Rattle.qq_base.specs.Fronts.{IsFront};
ghost use Rattle.qq_cluster_model.specs.Queue.{Copies, Delivers, Loses, Notices, Stops, Ticks};
ghost use Rattle.qq_group.specs.declared.event.Event.TheVariants as events;
ghost use Rattle.qq_queue.specs.ClusterQueue.{count_at, Becomes, Does, IsSameQueue};
ghost use Rattle.qq_queue.specs.Members.{AreSound, IsStepCaused, IsTellingCaused, LeavesGroup};
ghost use Rattle.qq_queue.specs.Sessions.{standings};

use crate::cluster_queue::ClusterQueue;
use crate::moves::happen;
use crate::sessions::Sessions;
use qq_base::{Memory, NodeId};
use qq_group::Event;
use qq_session::Shown;
use std::alloc::Global;

impl ClusterQueue {
    // Time passes at a member. After an error the member has crashed.
    pub(crate) fn tick(&mut self, alloc: Global, node: NodeId) -> Result<(), Memory>
        requires { AreSound self.old.group }

        ensures sound { AreSound self.new.group }
        ensures same { IsSameQueue self.old self.new }
        ensures ok { OnOk result (Becomes (Ticks node.0) self.old self.new) }
        ensures err { OnErr result (self.new.group.audit.items ≡ self.old.group.audit.items) }
        ensures cause { IfErr result (IsStepCaused (events.Tick node) self.old.group) }
    {
        drop(happen(alloc, &mut self.group, Event::Tick { node })?);
        Ok(())
    }

    // The message at a place, from 1, is lost. Where there is none nothing happens.
    pub(crate) fn lose(&mut self, alloc: Global, place: u32)
        requires sound { AreSound self.old.group }
        requires place { 0 < place }

        ensures sound { AreSound self.new.group }
        ensures same { IsSameQueue self.old self.new }
        ensures ok { Becomes (Loses (place - 1)) self.old self.new }
    {
        let Ok(_) = happen(alloc, &mut self.group, Event::Lose { place }) else {
            unreachable!()
        };
    }

    // A copy of the message at a place, from 1, goes to the end of the bag. Where there is none nothing happens.
    // `Spent` comes only where the bag is full. After an error the messages are as they were.
    pub(crate) fn copy(&mut self, alloc: Global, place: u32) -> Result<(), Memory>
        requires sound { AreSound self.old.group }
        requires place { 0 < place }

        ensures sound { AreSound self.new.group }
        ensures same { IsSameQueue self.old self.new }
        ensures ok { OnOk result (Becomes (Copies (place - 1)) self.old self.new) }
        ensures err { OnErr result (self.new.group.audit.items ≡ self.old.group.audit.items) }
        ensures cause { IfErr result (IsStepCaused (events.Copy place) self.old.group) }
    {
        drop(happen(alloc, &mut self.group, Event::Copy { place })?);
        Ok(())
    }

    /// A node stops: its member loses all but what its log was handed.
    pub fn stop(&mut self, alloc: Global, node: NodeId)
        requires { AreSound self.old.group }

        ensures sound { AreSound self.new.group }
        ensures same { IsSameQueue self.old self.new }
        ensures ok { Becomes (Stops node.0) self.old self.new }
    {
        let Ok(_) = happen(alloc, &mut self.group, Event::Crash { node }) else {
            unreachable!()
        };
    }

    // A member is told what of its log is synced, and the answers and then the deliveries that come to the clients are
    // shown, up to the first delivery for a taker. Where the step was refused the member has crashed.
    pub(crate) fn notice(
        &mut self,
        alloc: Global,
        sessions: &Sessions,
        node: NodeId,
        shown: &mut Vec<Shown>,
    ) -> Result<(), Memory>
        requires { AreSound self.old.group }

        ensures sound { AreSound self.new.group }
        ensures same { IsSameQueue self.old self.new }
        ensures ok { OnOk result (Does (Notices node.0) (standings sessions.now) self.old self.new
            shown.old.items shown.new.items) }
        ensures front { OnErr result (IsFront shown.old.items shown.new.items) }
        ensures left { OnErr result (LeavesGroup
            (events.Notice node (count_at self.old.synced.each node.0)) self.old.group
            self.new.group) }
        ensures cause { IfErr result (IsTellingCaused
            (events.Notice node (count_at self.old.synced.each node.0)) self.old.group) }
    {
        let op = self.synced.at(node);
        let rows = happen(alloc, &mut self.group, Event::Notice { node, op })?;
        self.tell(alloc, sessions, rows, shown)?;
        Ok(())
    }

    // The message at a place, from 1, reaches the member that it is for, and what comes of that to the clients is
    // shown, up to the first delivery for a taker. Where there is none nothing happens. Where the step was refused the
    // message is lost and the member has crashed.
    pub(crate) fn deliver(
        &mut self,
        alloc: Global,
        sessions: &Sessions,
        place: u32,
        shown: &mut Vec<Shown>,
    ) -> Result<(), Memory>
        requires sound { AreSound self.old.group }
        requires place { 0 < place }

        ensures sound { AreSound self.new.group }
        ensures same { IsSameQueue self.old self.new }
        ensures ok { OnOk result (Does (Delivers (place - 1)) (standings sessions.now) self.old
            self.new shown.old.items shown.new.items) }
        ensures front { OnErr result (IsFront shown.old.items shown.new.items) }
        ensures left { OnErr result
            (LeavesGroup (events.Deliver place) self.old.group self.new.group) }
        ensures cause { IfErr result (IsTellingCaused (events.Deliver place) self.old.group) }
    {
        let rows = happen(alloc, &mut self.group, Event::Deliver { place })?;
        self.tell(alloc, sessions, rows, shown)?;
        Ok(())
    }
}
