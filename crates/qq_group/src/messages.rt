//! The messages that are on their way.
ghost use Rattle.std.specs.Prelude.{◌≡◌, None, Some, length, IfOk, IfErr, IfSome, IfNone, OnOk, OnErr, IsSome};
ghost use Rattle.qq_base.specs.Causes.{SpentOnlyWhere};
ghost use Rattle.qq_raft_core.specs.Ends.{IsSendable};
ghost use Rattle.qq_raft_msg.specs.Bag.{at_place, without};
ghost use Rattle.qq_raft_msg.specs.Rpc.{IsWritable, envelope};
ghost use Rattle.qq_raft_msg.specs.declared.bag.TheConstants.{BAG_LIMIT};
ghost use Rattle.qq_raft_model.specs.Server.{Input as GroupInput};
ghost use Rattle.qq_raft_model.specs.Group.{happens, Event as GroupEvent};
ghost use Rattle.qq_group.specs.Events.{OneOf, taken_outcome, with_copy, copies, delivers, delivery_outcome, loses, place_outcome, refuses, takes_at, AddsDelivery, HasShownMessage, IsDeliveryCaused, ReachesOne};
ghost use Rattle.qq_group.specs.Follows.{AddsNothing, Feeds, Follows, Makes, OthersStay};
ghost use Rattle.qq_group.specs.Group.{IsSound, server_at};
ghost use Rattle.qq_group.specs.Handing.{KeepsReturned};

use crate::group::Group;
use crate::input::Input;
use crate::outcome::{Outcome, Shown};
use qq_base::{Memory, NodeId};
use qq_raft_model::what_a_group_committed_stays;
use qq_raft_msg::{CopyFault, LogView, Queue, Rpc};
use std::alloc::Global;

impl<Q: Queue, L: LogView> Group<Q, L> {
    /// Takes the message at a place out of the bag. None exactly where there is none.
    pub(crate) fn take_message(&mut self, place: u32) -> Option<Rpc>
        requires { IsSound Q.stands L.log Q.applied self.old }

        ensures sound { IsSound Q.stands L.log Q.applied self.new }
        ensures some { IfSome result (λ rpc. at_place place self.old.bag ≡ Some rpc) }
        ensures sendable { IfSome result IsSendable }
        ensures none { IfNone result (at_place place self.old.bag ≡ None) }
        ensures rest { self.new ≡ record self.old { bag = without place self.old.bag } }
    {
        match self.bag.deliver(place) {
            Ok(rpc) => Some(rpc),
            Err(_) => None,
        }
    }

    /// The message at a place, from 1, is lost.
    pub fn lose(&mut self, place: u32) -> Outcome
        requires { IsSound Q.stands L.log Q.applied self.old }

        ensures sound { IsSound Q.stands L.log Q.applied self.new }
        ensures made { Makes L.log (loses place) self.old self.new }
        ensures outcome { result ≡ place_outcome (at_place place self.old.bag) }
        ensures same { self.new ≡ record self.old { bag = self.new.bag } }
        ensures adds { AddsNothing (without place self.old.bag) self.old.audit.items
            self.new }
    {
        match self.take_message(place) {
            Some(_) => Outcome::Done,
            None => Outcome::NoSuch,
        }
    }

    /// A copy of the message at a place, from 1, goes to the end of the bag. `Spent` comes only where the bag
    /// is full. After an error nothing has changed.
    pub fn copy(&mut self, alloc: Global, place: u32) -> Result<Outcome, Memory>
        requires { IsSound Q.stands L.log Q.applied self.old }

        ensures sound { IsSound Q.stands L.log Q.applied self.new }
        ensures ok { OnOk result (Makes L.log (copies place) self.old self.new) }
        ensures outcome { IfOk result (λ outcome.
            outcome ≡ place_outcome (at_place place self.old.bag)) }
        ensures same { self.new ≡ record self.old { bag = self.new.bag } }
        ensures adds { OnOk result (AddsNothing
            (with_copy (at_place place self.old.bag) self.old.bag) self.old.audit.items self.new) }
        ensures err { OnErr result (self.new ≡ self.old) }
        ensures cause { IfErr result (λ e. SpentOnlyWhere e BAG_LIMIT
            (IsSome (at_place place self.old.bag) × (length self.old.bag ≡ BAG_LIMIT))) }
    {
        match self.bag.copy(alloc, place) {
            Ok(()) => Ok(Outcome::Done),
            Err(CopyFault::NoSuch) => Ok(Outcome::NoSuch),
            Err(CopyFault::Memory(cause)) => Err(cause),
        }
    }

    /// Whether a member takes a message: its server does, or it is down.
    fn takes(&self, node: NodeId, rpc: &Rpc) -> bool
        requires { IsWritable rpc.now }

        ensures { result ≡ takes_at L.log rpc.now (server_at node.0 self.now) }
    {
        match self.server(node) {
            None => true,
            Some(server) => server.fits(rpc),
        }
    }

    /// A message that was taken out of the bag reaches the member that it is for, or is lost.
    fn hand_on(&mut self, alloc: Global, rpc: Rpc) -> Result<Shown, Memory>
        requires sound { IsSound Q.stands L.log Q.applied self.old }
        requires rpc { IsWritable rpc }

        ensures sound { IsSound Q.stands L.log Q.applied self.new }
        ensures nodes { self.new.nodes ≡ self.old.nodes }
        ensures ok { OnOk result (OneOf
            (takes_at L.log rpc (server_at (envelope rpc).to.0 self.old))
            (Feeds L.log (envelope rpc).to.0 (GroupInput.Receive rpc) self.old self.new)
            (self.new ≡ self.old)) }
        ensures err { OnErr result (Makes L.log (happens (GroupEvent.Crash (envelope rpc).to.0))
            self.old self.new) }
        ensures outcome { IfOk result (λ shown. shown.outcome
            ≡ taken_outcome L.log rpc (server_at (envelope rpc).to.0 self.old)) }
        ensures rows { IfOk result (λ shown. HasShownMessage Q.stands Q.step L.log
            (Some rpc) self.old self.new shown.rows.items) }
        ensures others { OthersStay (envelope rpc).to.0 self.old self.new }
        ensures returned { KeepsReturned self.old self.new }
        ensures adds { OnOk result (AddsDelivery L.log (Some rpc) self.old.bag self.old self.new) }
        ensures adds_err { OnErr result (AddsNothing self.old.bag self.old.audit.items self.new) }
        ensures cause { IfErr result (IsDeliveryCaused Q.stands Q.step Q.passes_end L.log
            (Some rpc) self.old) }
    {
        let node = rpc.envelope().to;
        if self.takes(node, &rpc) {
            return self.feed(alloc, node, Input::Receive(rpc));
        }
        Ok(Shown {
            outcome: Outcome::Unfit,
            rows: Vec::new(alloc),
        })
    }

    /// The message at a place, from 1, reaches the member that it is for. It is lost where that is down, or
    /// doesn't take it. After an error the message is lost and the member has crashed, and nothing else has
    /// changed.
    pub fn deliver(&mut self, alloc: Global, place: u32) -> Result<Shown, Memory>
        requires { IsSound Q.stands L.log Q.applied self.old }

        ensures sound { IsSound Q.stands L.log Q.applied self.new }
        ensures nodes { self.new.nodes ≡ self.old.nodes }
        ensures ok { OnOk result (Follows L.log (delivers place) self.old self.new) }
        ensures err { OnErr result (Makes L.log (refuses place) self.old self.new) }
        ensures outcome { IfOk result (λ shown.
            shown.outcome ≡ delivery_outcome L.log (at_place place self.old.bag) self.old) }
        ensures rows { IfOk result (λ shown. HasShownMessage Q.stands Q.step L.log
            (at_place place self.old.bag) self.old self.new shown.rows.items) }
        ensures others { ReachesOne (at_place place self.old.bag) self.old self.new }
        ensures returned { KeepsReturned self.old self.new }
        ensures adds { OnOk result (AddsDelivery L.log (at_place place self.old.bag)
            (without place self.old.bag) self.old self.new) }
        ensures adds_err { OnErr result
            (AddsNothing (without place self.old.bag) self.old.audit.items
            self.new) }
        ensures cause { IfErr result (IsDeliveryCaused Q.stands Q.step Q.passes_end L.log
            (at_place place self.old.bag) (record self.old { bag = without place self.old.bag })) }
    {
        what_a_group_committed_stays();
        let Some(rpc) = self.take_message(place) else {
            return Ok(Shown {
                outcome: Outcome::NoSuch,
                rows: Vec::new(alloc),
            });
        };
        self.hand_on(alloc, rpc)
    }
}
