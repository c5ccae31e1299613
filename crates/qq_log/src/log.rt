ghost use Rattle.std.specs.Prelude.{◌≡◌, ◌+◌, ◌-◌, ◌≤◌, ◌<◌, ◌∷◌, [], ◌++◌, List, length, drop, min, Some, None, Err, IfSome, IfNone, IfErr, OnOk};
ghost use Rattle.std.specs.VecDeque.{deque_len, deque_capacity};
ghost use Rattle.qq_base.specs.Causes.{SpentOnlyWhere};
ghost use Rattle.qq_log.specs.Above.{last_above, take_above};
ghost use Rattle.qq_log.specs.Log.{LogState, log_of, last_of, entry_at, term_at, entries_behind};

use crate::head::SnapshotHead;
use crate::lane::Lane;
use qq_base::{Bytes, Index, Memory, NUMBER_END, NodeId, Term};
use qq_entry::Entry;
use std::collections::VecDeque;
use std::marker::Model;

/// A server's log: the entries above a base (Ongaro's dissertation, sections 3.5 and 5.1).
///
/// Contracts see it as a `LogState`, whose `room` says how many appends are sure to find memory and an
/// index. No call but `append` and `rebase` makes it less.
#[derive(Drop)]
pub struct Log {
    op: u64,
    term: Term,
    vote: Option<NodeId>,
    base: SnapshotHead,
    shadow: Option<Bytes>,
    entries: VecDeque<Entry>,
}

impl Model for Log {
    ghost use Rattle.std.specs.Prelude.{◌-◌, ◌≤◌, min};
    ghost use Rattle.std.specs.VecDeque.{deque_len, deque_capacity};
    ghost use Rattle.qq_base.specs.declared.memory.TheConstants.{NUMBER_END};
    ghost use Rattle.qq_log.specs.Above.{last_above};
    ghost use Rattle.qq_log.specs.Log.{LogState};

    ghost Value = { LogState };

    ghost view = { λ l. record {
      op = l.op;
      term = l.term;
      vote = l.vote;
      base = l.base;
      shadow = l.shadow;
      entries = l.entries.items;
      room = min (deque_capacity l.entries - deque_len l.entries)
          (NUMBER_END - last_above l.base.index.0 l.entries.items);
    } };

    ghost invariant = { λ l. last_above l.base.index.0 l.entries.items ≤ NUMBER_END };
}

fn drop_front(entries: &mut VecDeque<Entry>, count: u64)
    ensures items { entries.new.items ≡ drop count entries.old.items }
    ensures capacity { deque_capacity entries.new ≡ deque_capacity entries.old }
{
    for _ in 0..count {
        entries.pop_front();
    }
}

impl Log {
    /// The log of a lane, whose last index is at most `NUMBER_END`. It takes no memory.
    pub fn from_lane(lane: Lane) -> Self
        requires { last_above lane.base.index.0 lane.entries ≤ NUMBER_END }
        ensures { result ≡ log_of lane result.room }
    {
        let Lane {
            op,
            term,
            vote,
            base,
            shadow,
            entries,
            ..
        } = lane;
        Log {
            op,
            term,
            vote,
            base,
            shadow,
            entries: VecDeque::from_vec(entries.into_vec()),
        }
    }

    /// The op's number, the term and the vote of the lane that the log was made from.
    pub fn start(&self) -> (u64, Term, Option<NodeId>)
        ensures { result ≡ (self.now.op, self.now.term, self.now.vote) }
    {
        (self.op, self.term, self.vote)
    }

    /// What the log stands on.
    pub fn base(&self) -> SnapshotHead
        ensures { result ≡ self.now.base }
    {
        self.base
    }

    /// The bytes of the snapshot that the lane had, until the first `rebase`.
    pub fn shadow(&self) -> Option<&Bytes>
        ensures some { IfSome result (λ bytes. self.now.shadow ≡ Some bytes.now) }
        ensures none { IfNone result (self.now.shadow ≡ None) }
    {
        self.shadow.as_ref()
    }

    /// The last entry's index, the base's where there is none.
    pub fn last(&self) -> Index
        ensures { result.0 ≡ last_of self.now }
    {
        Index(self.base.index.0 + self.entries.len() as u64)
    }

    /// An entry. None exactly where the index is at the base, below it, or above the end.
    pub fn entry(&self, index: Index) -> Option<&Entry>
        ensures some { IfSome result (λ entry. entry_at self.now index.0 ≡ Some entry.now) }
        ensures none { IfNone result (entry_at self.now index.0 ≡ None) }
    {
        if index.0 <= self.base.index.0 {
            return None;
        }
        self.entries.get((index.0 - self.base.index.0 - 1) as usize)
    }

    /// The term of an entry or of the base. None exactly below the base and above the end.
    pub fn term_at(&self, index: Index) -> Option<Term>
        ensures { result ≡ term_at self.now index.0 }
    {
        if index.0 == self.base.index.0 {
            return Some(self.base.term);
        }
        match self.entry(index) {
            None => None,
            Some(entry) => Some(entry.term),
        }
    }

    /// Makes room for so many more entries. `Spent` tells the last index, exactly where that of so many
    /// more would be above `NUMBER_END`.
    pub fn reserve(&mut self, n: usize) -> Result<(), Memory>
        ensures same { self.new ≡ record self.old { room = self.new.room } }
        ensures room { self.old.room ≤ self.new.room }
        ensures ok { OnOk result (n ≤ self.new.room) }
        ensures cause { IfErr result (λ e.
            SpentOnlyWhere e (last_of self.old) (NUMBER_END < last_of self.old + n)) }
        ensures spent { NUMBER_END < last_of self.old + n →
            result ≡ Err (Memory.Spent (last_of self.old)) }
    {
        let last = self.last().0;
        if NUMBER_END - last < n as u64 {
            return Err(Memory::Spent { number: last });
        }
        self.entries.reserve(n)?;
        Ok(())
    }

    /// Adds an entry at the end.
    pub fn append(&mut self, entry: Entry)
        requires { 0 < self.old.room }
        ensures { self.new ≡ record self.old {
          entries = self.old.entries ++ entry ∷ [];
          room = self.old.room - 1;
        } }
    {
        self.entries.push_back_reserved(entry);
    }

    /// Cuts the entries behind an index, which isn't below the base.
    pub fn keep_to(&mut self, index: Index)
        requires { self.old.base.index.0 ≤ index.0 }
        ensures cut { self.new ≡ record self.old {
          entries = take_above self.old.base.index.0 index.0 self.old.entries;
          room = self.new.room;
        } }
        ensures room { self.old.room ≤ self.new.room }
    {
        self.entries
            .truncate((index.0 - self.base.index.0) as usize);
    }

    /// Sets the base, which doesn't go back. The entries behind it stay where the log's entry at its
    /// index has its term; else the log is empty.
    pub fn rebase(&mut self, head: SnapshotHead)
        requires later { self.old.base.index.0 ≤ head.index.0 }
        requires within { head.index.0 ≤ NUMBER_END }
        ensures rebased { self.new ≡ record self.old {
          base = head;
          shadow = None;
          entries = entries_behind self.old head;
          room = self.new.room;
        } }
        ensures room { min self.old.room (NUMBER_END - head.index.0) ≤ self.new.room }
    {
        if self.term_at(head.index) == Some(head.term) {
            drop_front(&mut self.entries, head.index.0 - self.base.index.0);
        } else {
            self.entries.clear();
        }
        self.base = head;
        self.shadow = None;
    }
}
