//! What the members' logs are handed, and what they tell.
ghost use Rattle.std.specs.Prelude.{◌≡◌, ◌<◌, None, Some, is_some, length, true, IfOk, IfErr, IfSome, IfNone, OnOk, OnErr, slice_get};
ghost use Rattle.qq_log.specs.Writable.{MayWrite};
ghost use Rattle.qq_raft.specs.Step.{notice};
ghost use Rattle.qq_raft_model.specs.Group.{happens, Event as GroupEvent};
ghost use Rattle.qq_group.specs.Events.{crash_outcome, lacks_op, notice_outcome, notices, AddsNotice, HasShownNotice};
ghost use Rattle.qq_group.specs.Follows.{AddsNothing, Follows, Makes, OthersStay};
ghost use Rattle.qq_group.specs.Group.{IsSound, server_at};
ghost use Rattle.qq_group.specs.Handing.{KeepsReturned};
ghost use Rattle.qq_group.specs.Input.{IsFeedCaused};
ghost use Rattle.qq_group.specs.Step.{IsDroppedAt};
ghost use Rattle.qq_group.specs.declared.input.Input.TheVariants.{Notice};

use crate::group::Group;
use crate::input::Input;
use crate::outcome::{Outcome, Shown};
use crate::seat::Seat;
use qq_base::{Memory, NodeId};
use qq_raft_model::what_a_group_committed_stays;
use qq_raft_msg::{LogView, Queue};
use std::alloc::Global;

impl<Q: Queue, L: LogView> Group<Q, L> {
    pub(crate) fn seat(&self, node: NodeId) -> Option<&Seat<Q, L>>
        ensures some { IfSome result (λ seat.
            slice_get self.now.seats.items node.0 ≡ Some seat.now) }
        ensures none { IfNone result (slice_get self.now.seats.items node.0 ≡ None) }
    {
        self.seats.get(node.0 as usize)
    }

    /// Whether a member is up and its log wasn't handed an op with this number, or gave it back.
    fn lacks_op(&self, node: NodeId, op: u64) -> bool
        ensures { result ≡ lacks_op node.0 op self.now }
    {
        match self.seat(node) {
            None => false,
            Some(seat) => seat.lacks_op(op),
        }
    }

    /// A member is told that its log is durable up to an op (Ongaro's dissertation, section 10.2.1). An op
    /// that its log wasn't handed, or that was given back, changes nothing. After an error the member has
    /// crashed, and nothing else has changed.
    pub fn notice(&mut self, alloc: Global, node: NodeId, op: u64) -> Result<Shown, Memory>
        requires { IsSound Q.stands L.log Q.applied self.old }

        ensures sound { IsSound Q.stands L.log Q.applied self.new }
        ensures nodes { self.new.nodes ≡ self.old.nodes }
        ensures ok { OnOk result (Follows L.log (notices node.0 op (lacks_op node.0 op self.old))
            self.old self.new) }
        ensures err { OnErr result (Makes L.log (happens (GroupEvent.Crash node.0))
            self.old self.new) }
        ensures outcome { IfOk result (λ shown. shown.outcome
            ≡ notice_outcome (lacks_op node.0 op self.old) (server_at node.0 self.old)) }
        ensures rows { IfOk result (λ shown. HasShownNotice Q.stands Q.step L.log op
            (lacks_op node.0 op self.old) (server_at node.0 self.old) (server_at node.0 self.new)
            shown.rows.items) }
        ensures others { OthersStay node.0 self.old self.new }
        ensures returned { KeepsReturned self.old self.new }
        ensures adds { OnOk result (AddsNotice L.log op (lacks_op node.0 op self.old)
            (server_at node.0 self.old) self.old self.new) }
        ensures adds_err { OnErr result (AddsNothing self.old.bag self.old.audit.items self.new) }
        ensures cause { IfErr result (IsFeedCaused Q.stands Q.step Q.passes_end L.log (Notice op)
            self.old (server_at node.0 self.old)) }
    {
        what_a_group_committed_stays();
        if self.lacks_op(node, op) {
            return Ok(Shown {
                outcome: Outcome::NoSuch,
                rows: Vec::new(alloc),
            });
        }
        self.feed(alloc, node, Input::Notice { op })
    }

    /// A member loses all but what its log was handed.
    pub fn crash(&mut self, node: NodeId) -> Outcome
        requires { IsSound Q.stands L.log Q.applied self.old }

        ensures sound { IsSound Q.stands L.log Q.applied self.new }
        ensures nodes { self.new.nodes ≡ self.old.nodes }
        ensures made { Makes L.log (happens (GroupEvent.Crash node.0)) self.old self.new }
        ensures outcome { result ≡ crash_outcome (server_at node.0 self.old) }
        ensures down { server_at node.0 self.new ≡ None }
        ensures others { OthersStay node.0 self.old self.new }
        ensures returned { KeepsReturned self.old self.new }
        ensures adds { AddsNothing self.old.bag self.old.audit.items self.new }
    {
        let up = self.is_up(node);
        if !up {
            return Outcome::Down;
        }
        self.crash_seat(node);
        Outcome::Done
    }

    /// The server of a member that is up is gone.
    fn crash_seat(&mut self, node: NodeId)
        requires sound { IsSound Q.stands L.log Q.applied self.old }
        requires there { node.0 < length self.old.seats.items }
        requires up { is_some (server_at node.0 self.old) ≡ true }
        ensures sound { IsSound Q.stands L.log Q.applied self.new }
        ensures nodes { self.new.nodes ≡ self.old.nodes }
        ensures dropped { IsDroppedAt L.log node.0 self.old self.new }
    {
        let Some(seat) = self.seats.get_mut(node.0 as usize) else {
            unreachable!()
        };
        seat.crash();
    }
}
