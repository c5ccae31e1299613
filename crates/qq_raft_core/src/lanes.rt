//! What a server leaves.
ghost use Rattle.std.specs.Prelude.{◌≡◌, ◌≤◌, true, length};
ghost use Rattle.std.specs.Bool.{Decides};
ghost use Rattle.qq_base.specs.declared.memory.TheConstants.{NUMBER_END};
ghost use Rattle.qq_log.specs.Stable.{no_snapshot};
ghost use Rattle.qq_raft_core.specs.Undone.{found, held_after, held_by, leads_back, newest};

use crate::raft::Raft;
use crate::undo::{Undo, same_before, same_vote, term_before, undos_from, vote_before};
use qq_base::{NodeId, Term};
use qq_raft_msg::LogView;

/// What a server leaves that isn't up any more: its log as its last change left it, and what leads back from
/// each change that it wasn't told to be durable. So it is known what each part of its changes gives that its
/// disk may have kept (Ongaro's dissertation, section 10.2.1).
#[derive(Drop)]
pub struct Lanes<L: LogView> {
    pub(crate) op: u64,
    pub(crate) term: Term,
    pub(crate) vote: Option<NodeId>,
    pub(crate) log: L,
    pub(crate) undos: Vec<Undo>,
}

impl<L: LogView> Raft<L> {
    /// What it leaves where it crashes.
    pub fn into_lanes(self) -> Lanes<L>
        ensures newest { newest L.log result ≡ held_by L.log self }
        ensures undos { result.undos ≡ self.undos }
        ensures log { result.log ≡ self.log }
    {
        Lanes {
            op: self.op,
            term: self.term,
            vote: self.vote,
            log: self.log,
            undos: self.undos,
        }
    }
}

impl<L: LogView> Lanes<L> {
    /// Whether a log that is found is what the server's disk was to hold after the log's op.
    pub fn holds(&self, other: &L) -> bool
        requires whole { (L.log self.now.log).base ≡ no_snapshot }
        requires other { (L.log other.now).base ≡ no_snapshot }
        requires last { length (L.log other.now).entries ≤ NUMBER_END }
        requires leads { leads_back self.now.op self.now.undos.items
            (L.log self.now.log).entries ≡ true }

        ensures { Decides result (held_after (L.log other.now).op self.now.undos.items
            (newest L.log self.now) ≡ found (L.log other.now)) }
    {
        let (op, term, vote) = other.start();
        let later = self.op < op;
        if later {
            return false;
        }
        let ahead = self.op - op;
        let earlier = (self.undos.len() as u64) < ahead;
        if earlier {
            return false;
        }
        let undos = undos_from(&self.undos, self.undos.len() - ahead as usize);
        term_before(undos, self.term).0 == term.0
            && same_vote(vote_before(undos, self.vote), vote)
            && same_before(undos, &self.log, other)
    }
}
