//! What makes a server act beside messages: time, clients, and its log's disk.
ghost use Rattle.std.specs.Prelude.{◌≡◌, ◌++◌, All, false, nat_le, slice_get, IfErr, IfOk, OnOk, IsOkUnless};
ghost use Rattle.std.specs.Option.{option_map_or};
ghost use Rattle.qq_raft_model.specs.Server.{add, tick, is_ready, submit, free, still_waiting, notice};
ghost use Rattle.qq_entry.specs.Range.{IsCommand, HasContent};
ghost use Rattle.qq_raft_core.specs.Ends.{IsSendable};
ghost use Rattle.qq_raft_core.specs.Undone.{before};
ghost use Rattle.qq_raft_core.specs.Raft.{server_of, IsSound, IsInLog, IsWaiting, IsCaused};

use crate::batch::term_at;
use crate::peers::{PeerChange, Target, change_peers, greater};
use crate::raft::{Raft, push_rpc};
use qq_base::Memory;
use qq_entry::{Command, Entry, Shared};
use qq_raft_model::Waiting;
use qq_raft_msg::{LogView, Role, Rpc};
use std::alloc::Global;
use std::collections::VecDeque;

fn is_free(op: u64, waiting: &VecDeque<Waiting>) -> bool
    ensures { result ≡ option_map_or (λ w. nat_le w.op op) (slice_get waiting.now.items 0) false }
{
    match waiting.front() {
        None => false,
        Some(first) => first.op <= op,
    }
}

/// Messages whose change is durable leave, in the order of their changes.
#[tactic(auto, using(crate::proofs::Ranges::all_rest))]
fn free(op: u64, waiting: &mut VecDeque<Waiting>, out: &mut VecDeque<Rpc>) -> Result<(), Memory>
    requires waiting { All IsWaiting waiting.old.items }
    requires out { All IsSendable out.old.items }
    ensures out { OnOk result (out.new.items ≡ out.old.items ++ free op waiting.old.items) }
    ensures waiting { OnOk result (waiting.new.items ≡ still_waiting op waiting.old.items) }
    ensures kept { OnOk result (All IsWaiting waiting.new.items × All IsSendable out.new.items) }
    ensures want { IsOkUnless result Memory.Want }
{
    'free: for _ in 0..waiting.len() {
        if !is_free(op, waiting) {
            return Ok(());
        }
        let Some(first) = waiting.pop_front() else {
            return Ok(());
        };
        push_rpc(out, first.rpc)?;
    }
    Ok(())
}

impl<L: LogView> Raft<L> {
    /// A leader sends from what it knows the others to have; anyone else stands for election.
    #[tactic(auto, unfolding(qq_raft_model::specs::Server::tick))]
    pub(crate) fn try_tick(&mut self, alloc: Global) -> Result<(), Memory>
        requires { IsSound L.log self.old }
        ensures sound { OnOk result (IsSound L.log self.new) }
        ensures ok { OnOk result (server_of L.log self.new ≡ tick (server_of L.log self.old)) }
        ensures before { before L.log self.new ≡ before L.log self.old }
        ensures cause { IfErr result (IsCaused (server_of L.log self.old)) }
    {
        if self.role != Role::Leader {
            return self.stand(alloc);
        }
        change_peers(PeerChange::Rewound, &mut self.peers);
        self.send(alloc, Target::Everyone)
    }

    /// Whether it leads and has committed an entry of its term.
    pub(crate) fn is_ready(&self) -> bool
        requires { IsSound L.log self.now }
        ensures { result ≡ is_ready (server_of L.log self.now) }
    {
        self.role == Role::Leader && term_at(&self.log, self.commit).0 == self.term.0
    }

    #[tactic(auto, using(crate::proofs::Ranges::entry_in_log))]
    #[inline(always)]
    fn entry_for(&self, alloc: Global, time: u64, command: Command) -> Result<Entry, Memory>
        requires sound { IsSound L.log self.now }
        requires command { IsCommand command × HasContent command }
        ensures ok { IfOk result (λ e. e ≡ record {
          term = self.now.term;
          time = time;
          command = command;
        }) }
        ensures entry { IfOk result IsInLog }
        ensures want { IsOkUnless result Memory.Want }
    {
        Ok(Entry {
            term: self.term,
            time,
            command: Shared::new(alloc, command)?,
        })
    }

    /// A ready leader adds an entry for a command.
    #[tactic(auto, unfolding(qq_raft_model::specs::Server::submit))]
    pub(crate) fn try_submit(
        &mut self,
        alloc: Global,
        time: u64,
        command: Command,
    ) -> Result<(), Memory>
        requires sound { IsSound L.log self.old }
        requires command { IsCommand command × HasContent command }
        ensures sound { OnOk result (IsSound L.log self.new) }
        ensures ok { OnOk result (server_of L.log self.new
            ≡ submit time command (server_of L.log self.old)) }
        ensures before { before L.log self.new ≡ before L.log self.old }
        ensures cause { IfErr result (IsCaused (server_of L.log self.old)) }
    {
        if !self.is_ready() {
            drop(command);
            return Ok(());
        }
        let entry = self.entry_for(alloc, time, command)?;
        self.add_entry(alloc, entry)
    }

    /// A ready leader adds an entry for a command, which isn't sent yet.
    #[tactic(auto, unfolding(qq_raft_model::specs::Server::add))]
    pub(crate) fn try_add(
        &mut self,
        alloc: Global,
        time: u64,
        command: Command,
    ) -> Result<(), Memory>
        requires sound { IsSound L.log self.old }
        requires command { IsCommand command × HasContent command }
        ensures sound { OnOk result (IsSound L.log self.new) }
        ensures ok { OnOk result (server_of L.log self.new
            ≡ add time command (server_of L.log self.old)) }
        ensures before { before L.log self.new ≡ before L.log self.old }
        ensures cause { IfErr result (IsCaused (server_of L.log self.old)) }
    {
        if !self.is_ready() {
            drop(command);
            return Ok(());
        }
        let entry = self.entry_for(alloc, time, command)?;
        self.append_entry(alloc, entry)
    }

    /// The changes up to a number are durable.
    #[tactic(auto, unfolding(qq_raft_model::specs::Server::notice))]
    pub(crate) fn try_notice(&mut self, alloc: Global, op: u64) -> Result<(), Memory>
        requires { IsSound L.log self.old }
        ensures sound { OnOk result (IsSound L.log self.new) }
        ensures ok { OnOk result (server_of L.log self.new
            ≡ notice op (server_of L.log self.old)) }
        ensures before { before L.log self.new ≡ before L.log self.old }
        ensures cause { IfErr result (IsCaused (server_of L.log self.old)) }
    {
        self.noticed = greater(self.noticed, op);
        free(self.noticed, &mut self.waiting, &mut self.out)?;
        self.lead_if_elected(alloc)?;
        self.advance();
        Ok(())
    }
}
