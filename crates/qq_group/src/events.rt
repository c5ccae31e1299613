//! What may happen in a group, event by GroupEvent.
ghost use Rattle.std.specs.Prelude.{◌≡◌, IfOk, IfErr, OnOk, OnErr};
ghost use Rattle.qq_entry.specs.Range.{IsCommand, HasContent};
ghost use Rattle.qq_raft.specs.Step.{add, flush, tick, submit};
ghost use Rattle.qq_raft_model.specs.Server.{Input as RaftInput};
ghost use Rattle.qq_raft_model.specs.Group.{happens, Event as GroupEvent};
ghost use Rattle.qq_group.specs.Follows.{AddsNothing, AddsStep, Follows, HasShownBy, Makes, OthersStay};
ghost use Rattle.qq_group.specs.Group.{IsSound, server_at};
ghost use Rattle.qq_group.specs.Handing.{KeepsReturned};
ghost use Rattle.qq_group.specs.Input.{fed_outcome, IsFeedCaused};
ghost use Rattle.qq_group.specs.declared.input.Input.TheVariants.{Add, Flush, Submit, Tick};

use crate::group::Group;
use crate::input::Input;
use crate::outcome::Shown;
use qq_base::{Memory, NodeId};
use qq_entry::Command;
use qq_raft_model::what_a_group_committed_stays;
use qq_raft_msg::{LogView, Queue};
use std::alloc::Global;

impl<Q: Queue, L: LogView> Group<Q, L> {
    /// Time has passed at a member without word from a leader, or a leader is to send (Ongaro's dissertation,
    /// section 3.4). After an error the member has crashed, and nothing else has changed.
    pub fn tick(&mut self, alloc: Global, node: NodeId) -> Result<Shown, Memory>
        requires { IsSound Q.stands L.log Q.applied self.old }

        ensures sound { IsSound Q.stands L.log Q.applied self.new }
        ensures nodes { self.new.nodes ≡ self.old.nodes }
        ensures ok { OnOk result (Follows L.log (happens (GroupEvent.Tick node.0))
            self.old self.new) }
        ensures err { OnErr result (Makes L.log (happens (GroupEvent.Crash node.0))
            self.old self.new) }
        ensures outcome { IfOk result (λ shown.
            shown.outcome ≡ fed_outcome L.log Tick (server_at node.0 self.old)) }
        ensures rows { IfOk result (λ shown. HasShownBy Q.stands L.log tick
            (server_at node.0 self.old) (server_at node.0 self.new) shown.rows.items) }
        ensures others { OthersStay node.0 self.old self.new }
        ensures returned { KeepsReturned self.old self.new }
        ensures adds { OnOk result (AddsStep L.log RaftInput.Tick self.old.bag
            self.old.audit.items (server_at node.0 self.old) self.new) }
        ensures adds_err { OnErr result (AddsNothing self.old.bag self.old.audit.items self.new) }
        ensures cause { IfErr result (IsFeedCaused Q.stands Q.step Q.passes_end L.log Tick self.old
            (server_at node.0 self.old)) }
    {
        what_a_group_committed_stays();
        self.feed(alloc, node, Input::Tick)
    }

    /// A client's command reaches a member at this time: a ready leader adds it to its log and sends it.
    /// After an error the member has crashed, and nothing else has changed.
    #[inline(always)]
    pub fn submit(
        &mut self,
        alloc: Global,
        node: NodeId,
        time: u64,
        command: Command,
    ) -> Result<Shown, Memory>
        requires sound { IsSound Q.stands L.log Q.applied self.old }
        requires command { IsCommand command × HasContent command }

        ensures sound { IsSound Q.stands L.log Q.applied self.new }
        ensures nodes { self.new.nodes ≡ self.old.nodes }
        ensures ok { OnOk result (Follows L.log (happens (GroupEvent.Submit node.0 time command))
            self.old self.new) }
        ensures err { OnErr result (Makes L.log (happens (GroupEvent.Crash node.0))
            self.old self.new) }
        ensures outcome { IfOk result (λ shown.
            shown.outcome ≡ fed_outcome L.log (Submit time command) (server_at node.0 self.old)) }
        ensures rows { IfOk result (λ shown. HasShownBy Q.stands L.log (submit time command)
            (server_at node.0 self.old) (server_at node.0 self.new) shown.rows.items) }
        ensures others { OthersStay node.0 self.old self.new }
        ensures returned { KeepsReturned self.old self.new }
        ensures adds { OnOk result (AddsStep L.log (RaftInput.Submit time command) self.old.bag
            self.old.audit.items (server_at node.0 self.old) self.new) }
        ensures adds_err { OnErr result (AddsNothing self.old.bag self.old.audit.items self.new) }
        ensures cause { IfErr result (IsFeedCaused Q.stands Q.step Q.passes_end L.log
            (Submit time command) self.old (server_at node.0 self.old)) }
    {
        what_a_group_committed_stays();
        self.feed(alloc, node, Input::Submit { time, command })
    }

    /// The same, but that its entry isn't sent before the member's next `flush`. After an error the member has
    /// crashed, and nothing else has changed.
    pub fn add(
        &mut self,
        alloc: Global,
        node: NodeId,
        time: u64,
        command: Command,
    ) -> Result<Shown, Memory>
        requires sound { IsSound Q.stands L.log Q.applied self.old }
        requires command { IsCommand command × HasContent command }

        ensures sound { IsSound Q.stands L.log Q.applied self.new }
        ensures nodes { self.new.nodes ≡ self.old.nodes }
        ensures ok { OnOk result (Follows L.log (happens (GroupEvent.Add node.0 time command))
            self.old self.new) }
        ensures err { OnErr result (Makes L.log (happens (GroupEvent.Crash node.0))
            self.old self.new) }
        ensures outcome { IfOk result (λ shown.
            shown.outcome ≡ fed_outcome L.log (Add time command) (server_at node.0 self.old)) }
        ensures rows { IfOk result (λ shown. HasShownBy Q.stands L.log (add time command)
            (server_at node.0 self.old) (server_at node.0 self.new) shown.rows.items) }
        ensures others { OthersStay node.0 self.old self.new }
        ensures returned { KeepsReturned self.old self.new }
        ensures adds { OnOk result (AddsStep L.log (RaftInput.Add time command) self.old.bag
            self.old.audit.items (server_at node.0 self.old) self.new) }
        ensures adds_err { OnErr result (AddsNothing self.old.bag self.old.audit.items self.new) }
        ensures cause { IfErr result (IsFeedCaused Q.stands Q.step Q.passes_end L.log
            (Add time command) self.old (server_at node.0 self.old)) }
    {
        what_a_group_committed_stays();
        self.feed(alloc, node, Input::Add { time, command })
    }

    /// A member that leads sends each of the others the entries that it wasn't sent. After an error the member
    /// has crashed, and nothing else has changed.
    pub fn flush(&mut self, alloc: Global, node: NodeId) -> Result<Shown, Memory>
        requires { IsSound Q.stands L.log Q.applied self.old }

        ensures sound { IsSound Q.stands L.log Q.applied self.new }
        ensures nodes { self.new.nodes ≡ self.old.nodes }
        ensures ok { OnOk result (Follows L.log (happens (GroupEvent.Flush node.0))
            self.old self.new) }
        ensures err { OnErr result (Makes L.log (happens (GroupEvent.Crash node.0))
            self.old self.new) }
        ensures outcome { IfOk result (λ shown.
            shown.outcome ≡ fed_outcome L.log Flush (server_at node.0 self.old)) }
        ensures rows { IfOk result (λ shown. HasShownBy Q.stands L.log flush
            (server_at node.0 self.old) (server_at node.0 self.new) shown.rows.items) }
        ensures others { OthersStay node.0 self.old self.new }
        ensures returned { KeepsReturned self.old self.new }
        ensures adds { OnOk result (AddsStep L.log RaftInput.Flush self.old.bag
            self.old.audit.items (server_at node.0 self.old) self.new) }
        ensures adds_err { OnErr result (AddsNothing self.old.bag self.old.audit.items self.new) }
        ensures cause { IfErr result (IsFeedCaused Q.stands Q.step Q.passes_end L.log Flush self.old
            (server_at node.0 self.old)) }
    {
        what_a_group_committed_stays();
        self.feed(alloc, node, Input::Flush)
    }
}
