//! How a leader learns that entries are committed.
ghost use Rattle.std.specs.Prelude.{◌≡◌, ◌+◌, ◌-◌, ◌<◌, ◌≤◌, ℕ, true, false};
ghost use Rattle.qq_base.specs.declared.memory.TheConstants.{NUMBER_END};
ghost use Rattle.qq_raft_model.specs.State.{last};
ghost use Rattle.qq_raft_model.specs.Leading.{durable, may_commit, commit_within, advance};
ghost use Rattle.qq_raft_core.specs.Held.{is_held};
ghost use Rattle.qq_raft_core.specs.Undone.{before};
ghost use Rattle.qq_raft_core.specs.Raft.{server_of, IsSound};

use crate::batch::term_at;
use crate::peers::{is_majority, matched_count};
use crate::raft::Raft;
use qq_raft_msg::{LogView, Role};

impl<L: LogView> Raft<L> {
    /// The last own entry that is durable.
    fn durable(&self) -> u64
        requires { IsSound L.log self.now }
        ensures { result ≡ durable (server_of L.log self.now) }
    {
        let ahead = self.op.saturating_sub(self.noticed);
        self.last().saturating_sub(ahead)
    }

    /// Whether a majority has the entries up to an index.
    fn is_held(&self, index: u64) -> bool
        requires { IsSound L.log self.now }
        ensures { result ≡ is_held (server_of L.log self.now) index }
    {
        let count = matched_count(index, &self.peers);
        is_majority(index <= self.durable(), count, self.peers.len())
    }

    /// Whether an entry is of the own term, and a majority has it.
    fn may_commit(&self, index: u64) -> bool
        requires { IsSound L.log self.now }
        ensures { result ≡ may_commit (server_of L.log self.now) index }
    {
        term_at(&self.log, index).0 == self.term.0 && self.is_held(index)
    }

    /// The greatest index that a majority has, among those that a member has last.
    fn held(&self) -> u64
        requires { IsSound L.log self.now }
        ensures { (index : ℕ) → result < index →
            is_held (server_of L.log self.now) index ≡ false }
    {
        let own = self.durable();
        let mut held = self.held_or(own, 0);
        'peers: for place in 0..self.peers.len() {
            held = self.held_or(self.peers[place].matched, held);
        }
        held
    }

    /// The greater of two indices, if a majority has it.
    fn held_or(&self, index: u64, held: u64) -> u64
        requires { IsSound L.log self.now }
        ensures rises { held ≤ result }
        ensures here { is_held (server_of L.log self.now) index ≡ true → index ≤ result }
    {
        if held < index && self.is_held(index) {
            return index;
        }
        held
    }

    /// The greatest index up to so many above the commit that may be committed, or the commit.
    fn commit_up_to(&self, start: u64) -> u64
        requires sound { IsSound L.log self.now }
        requires start { start ≤ last (server_of L.log self.now) - self.now.commit }
        ensures { result ≡ commit_within (server_of L.log self.now) start }
    {
        'search: for i in 0..start {
            let index = self.commit + (start - i);
            if self.may_commit(index) {
                return index;
            }
        }
        self.commit
    }

    /// The same, begun where a majority may have the log. Where terms don't fall and the entry there is of an earlier
    /// term, so is each one below.
    fn commit_within(&self, above: u64) -> u64
        requires sound { IsSound L.log self.now }
        requires above { above ≡ last (server_of L.log self.now) - self.now.commit }
        ensures value { result ≡ commit_within (server_of L.log self.now) above }
        ensures end { result ≤ NUMBER_END }
    {
        let held = self.held();
        let start = above.min(held.saturating_sub(self.commit));
        if self.is_earlier(self.commit + start) {
            return self.commit;
        }
        self.commit_up_to(start)
    }

    /// A leader's commit moves to the last entry that may be committed.
    #[tactic(auto, unfolding(qq_raft_model::specs::Leading::advance))]
    pub(crate) fn advance(&mut self)
        requires { IsSound L.log self.old }
        ensures sound { IsSound L.log self.new }
        ensures before { before L.log self.new ≡ before L.log self.old }
        ensures value { server_of L.log self.new ≡ advance (server_of L.log self.old) }
    {
        if self.role != Role::Leader {
            return;
        }
        let above = self.last().saturating_sub(self.commit);
        self.commit = self.commit_within(above);
    }
}
