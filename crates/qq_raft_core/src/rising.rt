//! Whether terms of entries fall.
ghost use Rattle.std.specs.Prelude.{◌≡◌, ◌<◌, ◌≤◌, ◌++◌, true, take};
ghost use Rattle.qq_log.specs.Stable.{no_snapshot};
ghost use Rattle.qq_raft_model.specs.State.{last, term_at};
ghost use Rattle.qq_raft_core.specs.Raft.{server_of, IsSound};
ghost use Rattle.qq_raft_core.specs.Rising.{rises};

use crate::batch::term_at;
use crate::raft::Raft;
use crate::undo::item_at;
use qq_base::{Index, Term};
use qq_entry::Entry;
use qq_raft_msg::LogView;

/// Whether no term falls from a first one on, and none is after another one.
fn rises(first: Term, end: Term, entries: &[Entry]) -> bool
    ensures { result ≡ rises first.0 end.0 entries.now }
{
    let mut term = first;
    'entries: for place in 0..entries.len() {
        let Some(entry) = item_at(entries, place) else {
            return false;
        };
        let falls = entry.term.0 < term.0;
        if falls {
            return false;
        }
        term = entry.term;
    }
    term.0 <= end.0
}

/// Whether no term of a log falls, and none is after a term.
pub(crate) fn log_rises<L: LogView>(log: &L, end: Term) -> bool
    requires { (L.log log.now).base ≡ no_snapshot }
    ensures { result ≡ rises 0 end.0 (L.log log.now).entries }
{
    let mut term = Term(0);
    'entries: for at in 0..log.last().0 {
        let Some(entry) = log.entry(Index(at + 1)) else {
            return false;
        };
        let falls = entry.term.0 < term.0;
        if falls {
            return false;
        }
        term = entry.term;
    }
    term.0 <= end.0
}

impl<L: LogView> Raft<L> {
    /// Whether it is known that no term of its log falls with these entries behind an index, and that none is after a
    /// term.
    #[tactic(auto, using(crate::proofs::Falls::rises_behind))]
    pub(crate) fn still_rises(&self, keep: u64, entries: &[Entry], end: Term) -> bool
        requires sound { IsSound L.log self.now }
        requires keep { keep ≤ last (server_of L.log self.now) }
        ensures { result ≡ true →
            rises 0 end.0 (take keep (L.log self.now.log).entries ++ entries.now) ≡ true }
    {
        if !self.rising {
            return false;
        }
        rises(term_at(&self.log, keep), end, entries)
    }

    /// Whether it is known that the entry at an index, and so each one below it, is of an earlier term.
    pub(crate) fn is_earlier(&self, index: u64) -> bool
        requires { IsSound L.log self.now }
        ensures rising { result ≡ true → rises 0 self.now.term.0 (L.log self.now.log).entries ≡ true }
        ensures earlier { result ≡ true →
            term_at (server_of L.log self.now).log index < self.now.term.0 }
    {
        self.rising && term_at(&self.log, index).0 < self.term.0
    }
}
