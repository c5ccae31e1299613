//! How a server stands for election, and leads.
ghost use Rattle.std.specs.Prelude.{◌≡◌, ◌+◌, map, IfErr, IfOk, OnOk, IsOkUnless};
ghost use Rattle.qq_base.specs.declared.memory.TheConstants.{NUMBER_END};
ghost use Rattle.qq_raft_msg.specs.declared.rpc.Rpc.TheVariants.{Vote};
ghost use Rattle.qq_raft_model.specs.State.{last, say_all};
ghost use Rattle.qq_raft_model.specs.Leading.{is_majority, ask, stand, lead, noop, is_elected, lead_if_elected};
ghost use Rattle.qq_raft_msg.specs.Rpc.{IsWritable};
ghost use Rattle.qq_raft_core.specs.Ends.{HasEnds};
ghost use Rattle.qq_raft_core.specs.Undone.{before};
ghost use Rattle.qq_raft_core.specs.Raft.{server_of, IsSound, IsPeer, IsInLog, IsCaused};

use crate::batch::term_at;
use crate::peers::{PeerChange, change_peers, granted_count, is_majority};
use crate::raft::{Raft, no_entries};
use qq_base::{Index, Memory, NUMBER_END, Term};
use qq_entry::{Command, Entry, MACHINE_VERSION, Shared};
use qq_raft_model::Peer;
use qq_raft_msg::{LogView, Role, Rpc, VoteMsg};
use std::alloc::Global;

impl<L: LogView> Raft<L> {
    #[tactic(auto, using(crate::proofs::Sendable::asked))]
    fn ask(&self, peer: &Peer) -> VoteMsg
        requires sound { IsSound L.log self.now }
        requires peer { IsPeer peer.now }
        ensures value { Vote result ≡ ask (server_of L.log self.now) peer.now }
        ensures rpc { IsWritable (Vote result) }
        ensures ends { HasEnds (Vote result) }
    {
        let last = self.last();
        VoteMsg {
            from: self.node,
            to: peer.node,
            term: self.term,
            last_index: Index(last),
            last_term: term_at(&self.log, last),
        }
    }

    fn ask_all(&mut self) -> Result<(), Memory>
        requires { IsSound L.log self.old }
        ensures sound { OnOk result (IsSound L.log self.new) }
        ensures ok { OnOk result (server_of L.log self.new ≡ say_all
            (map (ask (server_of L.log self.old)) (server_of L.log self.old).peers)
            (server_of L.log self.old)) }
        ensures before { before L.log self.new ≡ before L.log self.old }
        ensures want { IsOkUnless result Memory.Want }
    {
        'peers: for place in 0..self.peers.len() {
            let message = self.ask(&self.peers[place]);
            self.say(Rpc::Vote(message))?;
        }
        Ok(())
    }

    /// Stands for election in the next term.
    #[tactic(auto, unfolding(qq_raft_model::specs::Leading::stand))]
    pub(crate) fn stand(&mut self, alloc: Global) -> Result<(), Memory>
        requires { IsSound L.log self.old }
        ensures sound { OnOk result (IsSound L.log self.new) }
        ensures ok { OnOk result (server_of L.log self.new ≡ stand (server_of L.log self.old)) }
        ensures before { before L.log self.new ≡ before L.log self.old }
        ensures cause { IfErr result (IsCaused (server_of L.log self.old)) }
    {
        if self.term.0 >= NUMBER_END {
            return Err(Memory::Spent {
                number: self.term.0,
            });
        }
        let (term, vote, last) = (Term(self.term.0 + 1), Some(self.node), self.last());
        self.change(alloc, term, vote, last, no_entries(alloc))?;
        self.role = Role::Candidate;
        self.leader = None;
        change_peers(PeerChange::Asked, &mut self.peers);
        self.ask_all()?;
        Ok(())
    }

    fn noop(&self, alloc: Global) -> Result<Entry, Memory>
        requires { IsSound L.log self.now }
        ensures ok { IfOk result (λ entry. entry ≡ noop self.now.term) }
        ensures entry { IfOk result IsInLog }
        ensures want { IsOkUnless result Memory.Want }
    {
        let noop = Command::Noop {
            version: MACHINE_VERSION,
        };
        let command = Shared::new(alloc, noop)?;
        Ok(Entry {
            term: self.term,
            time: 0,
            command,
        })
    }

    #[tactic(auto, unfolding(qq_raft_model::specs::Leading::lead))]
    fn lead(&mut self, alloc: Global) -> Result<(), Memory>
        requires { IsSound L.log self.old }
        ensures sound { OnOk result (IsSound L.log self.new) }
        ensures ok { OnOk result (server_of L.log self.new ≡ lead (server_of L.log self.old)) }
        ensures before { before L.log self.new ≡ before L.log self.old }
        ensures cause { IfErr result (IsCaused (server_of L.log self.old)) }
    {
        let noop = self.noop(alloc)?;
        let next = self.last() + 1;
        self.role = Role::Leader;
        self.leader = Some(self.node);
        change_peers(PeerChange::Started { next }, &mut self.peers);
        self.add_entry(alloc, noop)
    }

    fn is_elected(&self) -> bool
        requires { IsSound L.log self.now }
        ensures { result ≡ is_elected (server_of L.log self.now) }
    {
        if self.role != Role::Candidate {
            return false;
        }
        let count = granted_count(&self.peers);
        is_majority(self.op <= self.noticed, count, self.peers.len())
    }

    /// A candidate with the votes of a majority leads.
    #[tactic(auto, unfolding(qq_raft_model::specs::Leading::lead_if_elected))]
    pub(crate) fn lead_if_elected(&mut self, alloc: Global) -> Result<(), Memory>
        requires { IsSound L.log self.old }
        ensures sound { OnOk result (IsSound L.log self.new) }
        ensures ok { OnOk result (server_of L.log self.new
            ≡ lead_if_elected (server_of L.log self.old)) }
        ensures before { before L.log self.new ≡ before L.log self.old }
        ensures cause { IfErr result (IsCaused (server_of L.log self.old)) }
    {
        if !self.is_elected() {
            return Ok(());
        }
        self.lead(alloc)
    }
}
