//! How a server answers messages.
ghost use Rattle.std.specs.Prelude.{◌≡◌, ◌+◌, ◌≤◌, All, Some, drop, length, IfErr, OnOk, IsOkUnless};
ghost use Rattle.qq_log.specs.Same.{same_vote};
ghost use Rattle.qq_log.specs.Stable.{no_snapshot};
ghost use Rattle.qq_base.specs.declared.memory.TheConstants.{NUMBER_END};
ghost use Rattle.qq_raft_msg.specs.declared.rpc.Rpc.TheVariants.{Voted, Appended, Installed};
ghost use Rattle.qq_raft_model.specs.State.{last, vote_in, leader_in};
ghost use Rattle.qq_raft_model.specs.Server.{voted, appended, installed, refuse, is_current, is_free, may_grant, give_vote, receive_vote, receive_voted, is_match, agreed, has_agreed, write, end, take_entries, refuse_entries, receive_append, take_ack, step_back, receive_appended, accept, receive};
ghost use Rattle.qq_raft_msg.specs.Rpc.{IsNode, IsWritable, envelope};
ghost use Rattle.qq_raft_core.specs.Ends.{HasEnds};
ghost use Rattle.qq_log.specs.Writable.{IsVote};
ghost use Rattle.qq_raft_core.specs.Undone.{before};
ghost use Rattle.qq_raft_core.specs.Raft.{server_of, IsSound, IsInLog, IsCaused};
ghost use Rattle.qq_raft_core.specs.Fits.{IsShort, IsWithin, AppendFits};

use crate::batch::term_at;
use crate::peers::{PeerChange, Target, change_peers, greater};
use crate::raft::{Raft, no_entries};
use qq_base::{Index, Memory, NodeId, Term};
use qq_entry::{Entries, Entry};
use qq_raft_msg::{AppendMsg, AppendedMsg, InstalledMsg, LogView, Role, Rpc, VoteMsg, VotedMsg};
use std::alloc::Global;

impl<L: LogView> Raft<L> {
    #[tactic(auto, using(crate::proofs::Sendable::voted))]
    fn voted(&self, to: NodeId, granted: bool) -> VotedMsg
        requires sound { IsSound L.log self.now }
        requires to { IsNode to }
        ensures value { Voted result ≡ voted to granted (server_of L.log self.now) }
        ensures rpc { IsWritable (Voted result) }
        ensures ends { HasEnds (Voted result) }
    {
        VotedMsg {
            from: self.node,
            to,
            term: self.term,
            granted,
        }
    }

    #[tactic(auto, using(crate::proofs::Sendable::appended))]
    fn appended(&self, to: NodeId, ok: bool, index: u64) -> AppendedMsg
        requires sound { IsSound L.log self.now }
        requires to { IsNode to }
        requires index { index ≤ NUMBER_END }
        ensures value { Appended result ≡ appended to ok index (server_of L.log self.now) }
        ensures rpc { IsWritable (Appended result) }
        ensures ends { HasEnds (Appended result) }
    {
        AppendedMsg {
            from: self.node,
            to,
            term: self.term,
            ok,
            index: Index(index),
        }
    }

    #[tactic(auto, using(crate::proofs::Sendable::installed))]
    fn installed(&self, to: NodeId, index: u64) -> InstalledMsg
        requires sound { IsSound L.log self.now }
        requires to { IsNode to }
        requires index { index ≤ NUMBER_END }
        ensures value { Installed result ≡ installed to index (server_of L.log self.now) }
        ensures rpc { IsWritable (Installed result) }
        ensures ends { HasEnds (Installed result) }
    {
        InstalledMsg {
            from: self.node,
            to,
            term: self.term,
            index: Index(index),
        }
    }

    /// A message of an earlier term.
    #[tactic(auto, unfolding(qq_raft_model::specs::Server::refuse))]
    fn refuse(&mut self, rpc: &Rpc) -> Result<(), Memory>
        requires sound { IsSound L.log self.old }
        requires from { IsNode (envelope rpc.now).from }
        ensures sound { OnOk result (IsSound L.log self.new) }
        ensures ok { OnOk result (server_of L.log self.new
            ≡ refuse rpc.now (server_of L.log self.old)) }
        ensures before { before L.log self.new ≡ before L.log self.old }
        ensures want { IsOkUnless result Memory.Want }
    {
        match rpc {
            Rpc::Vote(m) => {
                let answer = self.voted(m.from, false);
                self.say(Rpc::Voted(answer))
            }
            Rpc::Append(m) => {
                let answer = self.appended(m.from, false, self.last());
                self.say(Rpc::Appended(answer))
            }
            Rpc::Install(m) => {
                let answer = self.installed(m.from, self.commit);
                self.say(Rpc::Installed(answer))
            }
            Rpc::Voted(_) | Rpc::Appended(_) | Rpc::Installed(_) => Ok(()),
        }
    }

    fn vote_in(&self, term: Term) -> Option<NodeId>
        requires { IsSound L.log self.now }
        ensures value { result ≡ vote_in term (server_of L.log self.now) }
        ensures vote { IsVote result }
    {
        if self.term.0 < term.0 {
            None
        } else {
            self.vote
        }
    }

    fn leader_in(&self, term: Term) -> Option<NodeId>
        ensures { result ≡ leader_in term (server_of L.log self.now) }
    {
        if self.term.0 < term.0 {
            None
        } else {
            self.leader
        }
    }

    fn is_current(&self, m: &VoteMsg) -> bool
        requires { IsSound L.log self.now }
        ensures { result ≡ is_current (server_of L.log self.now).log m.now }
    {
        let last = self.last();
        let last_term = term_at(&self.log, last);
        last_term.0 < m.last_term.0 || (last_term.0 == m.last_term.0 && last <= m.last_index.0)
    }

    fn may_grant(&self, m: &VoteMsg) -> bool
        requires { IsSound L.log self.now }
        ensures { result ≡ may_grant m.now (server_of L.log self.now) }
    {
        is_free(self.vote_in(m.term), m.from) && self.is_current(m)
    }

    #[tactic(auto, unfolding(qq_raft_model::specs::Server::give_vote))]
    fn give_vote(&mut self, alloc: Global, m: &VoteMsg) -> Result<(), Memory>
        requires sound { IsSound L.log self.old }
        requires from { IsNode m.now.from }
        requires term { m.now.term.0 ≤ NUMBER_END }
        ensures sound { OnOk result (IsSound L.log self.new) }
        ensures ok { OnOk result (server_of L.log self.new
            ≡ give_vote m.now (server_of L.log self.old)) }
        ensures before { before L.log self.new ≡ before L.log self.old }
        ensures cause { IfErr result (IsCaused (server_of L.log self.old)) }
    {
        if is_vote(self.vote_in(m.term), m.from) {
            return Ok(());
        }
        let (leader, last) = (self.leader_in(m.term), self.last());
        self.change(alloc, m.term, Some(m.from), last, no_entries(alloc))?;
        self.role = Role::Follower;
        self.leader = leader;
        Ok(())
    }

    #[tactic(auto, unfolding(qq_raft_model::specs::Server::receive_vote))]
    fn receive_vote(&mut self, alloc: Global, m: &VoteMsg) -> Result<(), Memory>
        requires sound { IsSound L.log self.old }
        requires from { IsNode m.now.from }
        requires term { m.now.term.0 ≤ NUMBER_END }
        ensures sound { OnOk result (IsSound L.log self.new) }
        ensures ok { OnOk result (server_of L.log self.new
            ≡ receive_vote m.now (server_of L.log self.old)) }
        ensures before { before L.log self.new ≡ before L.log self.old }
        ensures cause { IfErr result (IsCaused (server_of L.log self.old)) }
    {
        let granted = self.may_grant(m);
        if granted {
            self.give_vote(alloc, m)?;
        } else {
            self.enter(alloc, m.term)?;
        }
        let answer = self.voted(m.from, granted);
        self.say(Rpc::Voted(answer))
    }

    #[tactic(auto, unfolding(qq_raft_model::specs::Server::receive_voted, qq_raft_model::specs::State::enter))]
    fn receive_voted(&mut self, alloc: Global, m: &VotedMsg) -> Result<(), Memory>
        requires sound { IsSound L.log self.old }
        requires from { IsNode m.now.from }
        requires term { m.now.term.0 ≤ NUMBER_END }
        ensures sound { OnOk result (IsSound L.log self.new) }
        ensures ok { OnOk result (server_of L.log self.new
            ≡ receive_voted m.now (server_of L.log self.old)) }
        ensures before { before L.log self.new ≡ before L.log self.old }
        ensures cause { IfErr result (IsCaused (server_of L.log self.old)) }
    {
        if self.term.0 < m.term.0 {
            return self.enter(alloc, m.term);
        }
        if self.role != Role::Candidate || !m.granted {
            return Ok(());
        }
        change_peers(PeerChange::Granted { node: m.from }, &mut self.peers);
        self.lead_if_elected(alloc)
    }

    fn is_match(&self, m: &AppendMsg) -> bool
        requires { IsSound L.log self.now }
        ensures { result ≡ is_match m.now (server_of L.log self.now).log }
    {
        let before = m.prev_index.0;
        if before == 0 {
            return true;
        }
        before <= self.last() && term_at(&self.log, before).0 == m.prev_term.0
    }

    /// The log is cut where the first entry differs, and what is missing follows.
    fn write(&mut self, alloc: Global, m: AppendMsg, agreed: usize) -> Result<(), Memory>
        requires sound { IsSound L.log self.old }
        requires from { IsNode m.from }
        requires term { m.term.0 ≤ NUMBER_END }
        requires fits { AppendFits m }
        requires there { m.prev_index.0 + agreed ≤ last (server_of L.log self.old) }
        requires within { agreed ≤ length m.entries }
        requires agreed { agreed ≡ has_agreed m (server_of L.log self.old).log }
        ensures sound { OnOk result (IsSound L.log self.new) }
        ensures ok { OnOk result (server_of L.log self.new
            ≡ write m (drop agreed m.entries) (server_of L.log self.old)) }
        ensures before { before L.log self.new ≡ before L.log self.old }
        ensures cause { IfErr result (IsCaused (server_of L.log self.old)) }
    {
        let (term, vote) = (m.term, self.vote_in(m.term));
        let keep = m.prev_index.0 + agreed as u64;
        let missing = behind(m.entries, agreed);
        if missing.is_empty() {
            return self.enter(alloc, term);
        }
        self.change(alloc, term, vote, keep, missing)
    }

    #[tactic(auto, unfolding(qq_raft_model::specs::Server::take_entries), using(crate::proofs::Sendable::min_end))]
    fn take_entries(&mut self, alloc: Global, m: AppendMsg) -> Result<(), Memory>
        requires sound { IsSound L.log self.old }
        requires from { IsNode m.from }
        requires term { m.term.0 ≤ NUMBER_END }
        requires fits { AppendFits m }
        requires there { m.prev_index.0 ≤ last (server_of L.log self.old) }
        ensures sound { OnOk result (IsSound L.log self.new) }
        ensures ok { OnOk result (server_of L.log self.new
            ≡ take_entries m (server_of L.log self.old)) }
        ensures before { before L.log self.new ≡ before L.log self.old }
        ensures cause { IfErr result (IsCaused (server_of L.log self.old)) }
    {
        let count = agreed(&self.log, m.prev_index.0, m.entries.as_slice());
        let (from, commit) = (m.from, m.commit.0);
        let end = m.prev_index.0 + m.entries.len() as u64;
        self.write(alloc, m, count)?;
        self.role = Role::Follower;
        self.leader = Some(from);
        self.commit = greater(self.commit, commit.min(end));
        let answer = self.appended(from, true, end);
        self.say(Rpc::Appended(answer))
    }

    #[tactic(auto, unfolding(qq_raft_model::specs::Server::refuse_entries), using(crate::proofs::Sendable::min_end))]
    fn refuse_entries(&mut self, alloc: Global, m: &AppendMsg) -> Result<(), Memory>
        requires sound { IsSound L.log self.old }
        requires from { IsNode m.now.from }
        requires term { m.now.term.0 ≤ NUMBER_END }
        ensures sound { OnOk result (IsSound L.log self.new) }
        ensures ok { OnOk result (server_of L.log self.new
            ≡ refuse_entries m.now (server_of L.log self.old)) }
        ensures before { before L.log self.new ≡ before L.log self.old }
        ensures cause { IfErr result (IsCaused (server_of L.log self.old)) }
    {
        let index = m.prev_index.0.saturating_sub(1).min(self.last());
        self.enter(alloc, m.term)?;
        self.role = Role::Follower;
        self.leader = Some(m.from);
        let answer = self.appended(m.from, false, index);
        self.say(Rpc::Appended(answer))
    }

    #[tactic(auto, unfolding(qq_raft_model::specs::Server::receive_append))]
    fn receive_append(&mut self, alloc: Global, m: AppendMsg) -> Result<(), Memory>
        requires sound { IsSound L.log self.old }
        requires from { IsNode m.from }
        requires term { m.term.0 ≤ NUMBER_END }
        requires fits { AppendFits m }
        ensures sound { OnOk result (IsSound L.log self.new) }
        ensures ok { OnOk result (server_of L.log self.new
            ≡ receive_append m (server_of L.log self.old)) }
        ensures before { before L.log self.new ≡ before L.log self.old }
        ensures cause { IfErr result (IsCaused (server_of L.log self.old)) }
    {
        if self.is_match(&m) {
            self.take_entries(alloc, m)
        } else {
            self.refuse_entries(alloc, &m)
        }
    }

    #[tactic(auto, unfolding(qq_raft_model::specs::Server::take_ack))]
    fn take_ack(&mut self, alloc: Global, m: &AppendedMsg) -> Result<(), Memory>
        requires sound { IsSound L.log self.old }
        requires index { m.now.index.0 ≤ NUMBER_END }
        ensures sound { OnOk result (IsSound L.log self.new) }
        ensures ok { OnOk result (server_of L.log self.new
            ≡ take_ack m.now (server_of L.log self.old)) }
        ensures before { before L.log self.new ≡ before L.log self.old }
        ensures want { IsOkUnless result Memory.Want }
    {
        let (node, index) = (m.from, m.index.0);
        change_peers(PeerChange::Matched { node, index }, &mut self.peers);
        self.send(alloc, Target::Lacking { node })?;
        self.advance();
        Ok(())
    }

    #[tactic(auto, unfolding(qq_raft_model::specs::Server::step_back))]
    fn step_back(&mut self, alloc: Global, m: &AppendedMsg) -> Result<(), Memory>
        requires sound { IsSound L.log self.old }
        requires index { m.now.index.0 ≤ NUMBER_END }
        ensures sound { OnOk result (IsSound L.log self.new) }
        ensures ok { OnOk result (server_of L.log self.new
            ≡ step_back m.now (server_of L.log self.old)) }
        ensures before { before L.log self.new ≡ before L.log self.old }
        ensures want { IsOkUnless result Memory.Want }
    {
        let (node, index) = (m.from, m.index.0);
        change_peers(PeerChange::Behind { node, index }, &mut self.peers);
        self.send(alloc, Target::One { node })
    }

    #[tactic(auto, unfolding(qq_raft_model::specs::Server::receive_appended, qq_raft_model::specs::State::enter))]
    fn receive_appended(&mut self, alloc: Global, m: &AppendedMsg) -> Result<(), Memory>
        requires sound { IsSound L.log self.old }
        requires term { m.now.term.0 ≤ NUMBER_END }
        requires index { m.now.index.0 ≤ NUMBER_END }
        ensures sound { OnOk result (IsSound L.log self.new) }
        ensures ok { OnOk result (server_of L.log self.new
            ≡ receive_appended m.now (server_of L.log self.old)) }
        ensures before { before L.log self.new ≡ before L.log self.old }
        ensures cause { IfErr result (IsCaused (server_of L.log self.old)) }
    {
        if self.term.0 < m.term.0 {
            return self.enter(alloc, m.term);
        }
        if self.role != Role::Leader {
            return Ok(());
        }
        if m.ok {
            self.take_ack(alloc, m)
        } else {
            self.step_back(alloc, m)
        }
    }

    #[tactic(auto, unfolding(qq_raft_model::specs::Server::accept))]
    fn accept(&mut self, alloc: Global, rpc: Rpc) -> Result<(), Memory>
        requires sound { IsSound L.log self.old }
        requires within { IsWithin rpc }
        ensures sound { OnOk result (IsSound L.log self.new) }
        ensures ok { OnOk result (server_of L.log self.new
            ≡ accept rpc (server_of L.log self.old)) }
        ensures before { before L.log self.new ≡ before L.log self.old }
        ensures cause { IfErr result (IsCaused (server_of L.log self.old)) }
    {
        match rpc {
            Rpc::Vote(m) => self.receive_vote(alloc, &m),
            Rpc::Voted(m) => self.receive_voted(alloc, &m),
            Rpc::Append(m) => self.receive_append(alloc, m),
            Rpc::Appended(m) => self.receive_appended(alloc, &m),
            Rpc::Install(m) => self.enter(alloc, m.term),
            Rpc::Installed(m) => self.enter(alloc, m.term),
        }
    }

    /// Takes a message.
    #[tactic(auto, unfolding(qq_raft_model::specs::Server::receive))]
    pub(crate) fn try_receive(&mut self, alloc: Global, rpc: Rpc) -> Result<(), Memory>
        requires sound { IsSound L.log self.old }
        requires within { IsWithin rpc }
        ensures sound { OnOk result (IsSound L.log self.new) }
        ensures ok { OnOk result (server_of L.log self.new
            ≡ receive rpc (server_of L.log self.old)) }
        ensures before { before L.log self.new ≡ before L.log self.old }
        ensures cause { IfErr result (IsCaused (server_of L.log self.old)) }
    {
        if rpc.envelope().term.0 < self.term.0 {
            self.refuse(&rpc)
        } else {
            self.accept(alloc, rpc)
        }
    }
}

/// The entries behind the first so many.
#[tactic(auto, using(crate::proofs::Ranges::behind_all, crate::proofs::Ranges::behind_short))]
fn behind(entries: Entries, count: usize) -> Entries
    requires count { count ≤ length entries }
    requires entries { All IsInLog entries }
    requires short { IsShort entries }
    ensures value { result ≡ drop count entries }
    ensures entries { All IsInLog result }
    ensures short { IsShort result }
{
    let mut list = entries.into_vec();
    list.drain(..count);
    Entries::from_vec(list)
}

/// How many entries have the terms of the own ones behind an index.
fn agreed<L: LogView>(log: &L, before: u64, entries: &[Entry]) -> usize
    requires whole { (L.log log.now).base ≡ no_snapshot }
    requires within { before + length entries.now ≤ NUMBER_END }
    ensures { result ≡ agreed entries.now (drop before (L.log log.now).entries) }
{
    'entries: for place in 0..entries.len() {
        match log.entry(Index(before + place as u64 + 1)) {
            None => return place,
            Some(own) => {
                if entries[place].term.0 != own.term.0 {
                    return place;
                }
            }
        }
    }
    entries.len()
}

fn is_vote(vote: Option<NodeId>, node: NodeId) -> bool
    ensures { result ≡ same_vote vote (Some node) }
{
    match vote {
        None => false,
        Some(other) => other.0 == node.0,
    }
}

fn is_free(vote: Option<NodeId>, node: NodeId) -> bool
    ensures { result ≡ is_free vote node }
{
    match vote {
        None => true,
        Some(other) => other.0 == node.0,
    }
}
