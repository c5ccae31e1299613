use qq_base::{Bytes, Index, Memory, NodeId, Term};
use qq_entry::Entry;
use qq_log::{Log, SnapshotHead};

/// A log that a Raft server works on: entries above a base (Ongaro's dissertation, sections 3.5 and 5.1).
///
/// Its `room` says how many appends are sure to find memory and an index. No call but `append` and
/// `rebase` makes it less.
pub trait LogView: Drop {
    ghost use Rattle.std.specs.Prelude.{◌≡◌, ◌+◌, ◌-◌, ◌≤◌, ◌<◌, ◌∷◌, [], ◌++◌, min, Some, None, Err, IfSome, IfNone, IfErr, OnOk};
    ghost use Rattle.qq_base.specs.Causes.{SpentOnlyWhere};
    ghost use Rattle.qq_base.specs.declared.memory.Memory.TheVariants.{Spent};
    ghost use Rattle.qq_base.specs.declared.memory.TheConstants.{NUMBER_END};
    ghost use Rattle.qq_log.specs.Above.{take_above};
    ghost use Rattle.qq_log.specs.Log.{LogState, last_of, entry_at, term_at, entries_behind};

    /// What the log holds.
    ghost log: { Self → LogState };

    /// The op's number, the term and the vote of the lane that the log was made from.
    fn start(&self) -> (u64, Term, Option<NodeId>)
        ensures { result ≡ ((log self.now).op, (log self.now).term, (log self.now).vote) };

    /// What the log stands on.
    fn base(&self) -> SnapshotHead
        ensures { result ≡ (log self.now).base };

    /// The bytes of the snapshot that the lane had, until the first `rebase`.
    fn shadow(&self) -> Option<&Bytes>
        ensures some { IfSome result (λ bytes. (log self.now).shadow ≡ Some bytes.now) }
        ensures none { IfNone result ((log self.now).shadow ≡ None) };

    /// Makes room for so many more entries. `Spent` tells the last index, exactly where that of so many
    /// more would be above the end of indices.
    fn reserve(&mut self, n: usize) -> Result<(), Memory>
        ensures same { log self.new ≡ record (log self.old) { room = (log self.new).room } }
        ensures room { (log self.old).room ≤ (log self.new).room }
        ensures ok { OnOk result (n ≤ (log self.new).room) }
        ensures cause { IfErr result (λ e. SpentOnlyWhere e (last_of (log self.old))
            (NUMBER_END < last_of (log self.old) + n)) }
        ensures spent { NUMBER_END < last_of (log self.old) + n →
            result ≡ Err (Spent (last_of (log self.old))) };

    /// Adds an entry at the end.
    fn append(&mut self, entry: Entry)
        requires { 0 < (log self.old).room }
        ensures { log self.new ≡ record (log self.old) {
          entries = (log self.old).entries ++ entry ∷ [];
          room = (log self.old).room - 1;
        } };

    /// Cuts the entries behind an index, which isn't below the base.
    fn keep_to(&mut self, index: Index)
        requires { (log self.old).base.index.0 ≤ index.0 }
        ensures cut { log self.new ≡ record (log self.old) {
          entries = take_above (log self.old).base.index.0 index.0 (log self.old).entries;
          room = (log self.new).room;
        } }
        ensures room { (log self.old).room ≤ (log self.new).room };

    /// The term of an entry or of the base. None exactly below the base and above the end.
    fn term_at(&self, index: Index) -> Option<Term>
        ensures { result ≡ term_at (log self.now) index.0 };

    /// An entry. None exactly where the index is at the base, below it, or above the end.
    fn entry(&self, index: Index) -> Option<&Entry>
        ensures some { IfSome result (λ entry. entry_at (log self.now) index.0 ≡ Some entry.now) }
        ensures none { IfNone result (entry_at (log self.now) index.0 ≡ None) };

    /// The last entry's index, the base's where there is none.
    fn last(&self) -> Index
        ensures { result.0 ≡ last_of (log self.now) };

    /// Sets the base, which doesn't go back. The entries behind it stay where the log's entry at its
    /// index has its term; else the log is empty.
    fn rebase(&mut self, head: SnapshotHead)
        requires later { (log self.old).base.index.0 ≤ head.index.0 }
        requires within { head.index.0 ≤ NUMBER_END }
        ensures rebased { log self.new ≡ record (log self.old) {
          base = head;
          shadow = None;
          entries = entries_behind (log self.old) head;
          room = (log self.new).room;
        } }
        ensures room { min (log self.old).room (NUMBER_END - head.index.0)
            ≤ (log self.new).room };
}

impl LogView for Log {
    ghost log = { λ l. l };

    fn start(&self) -> (u64, Term, Option<NodeId>) {
        Log::start(self)
    }

    fn base(&self) -> SnapshotHead {
        Log::base(self)
    }

    fn shadow(&self) -> Option<&Bytes> {
        Log::shadow(self)
    }

    fn reserve(&mut self, n: usize) -> Result<(), Memory> {
        Log::reserve(self, n)
    }

    fn append(&mut self, entry: Entry) {
        Log::append(self, entry);
    }

    fn keep_to(&mut self, index: Index) {
        Log::keep_to(self, index);
    }

    fn term_at(&self, index: Index) -> Option<Term> {
        Log::term_at(self, index)
    }

    fn entry(&self, index: Index) -> Option<&Entry> {
        Log::entry(self, index)
    }

    fn last(&self) -> Index {
        Log::last(self)
    }

    fn rebase(&mut self, head: SnapshotHead) {
        Log::rebase(self, head);
    }
}
