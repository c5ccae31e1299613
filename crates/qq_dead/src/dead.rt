ghost use Rattle.std.specs.Prelude.{◌≡◌, ◌+◌, ◌<◌, ◌^◌, nat_lt, length, slice_get, IfNone, IfSome, IfOk, IsOkUnless, OnOk, OnErr};
ghost use Rattle.std.specs.Option.{option_copied, option_map};
ghost use Rattle.qq_dead.specs.Letters.{no_letters, add, attach, may_give, next_dead, next_offer, give, settled, settle, letters_of, AreNumbered, Rises, place_of, is_at, IsSettledAt, SettlesNothing};

use crate::row::DeadRow;
use qq_base::{Memory, Term};
use qq_entry::{ReadyRow, Reason};
use qq_model::MOST_GIVEN;
use qq_undo::UndoDeque;
use std::alloc::Global;
use std::collections::VecDeque;
use std::marker::Model;

/// How many numbers were drawn, and what the dead-letter worker was given.
#[derive(Clone, Copy)]
struct Counts {
    deads: u64,
    given: u64,
    attached: u64,
    // How many rows at the front the worker was given.
    under_way: usize,
}

/// The dead messages of a queue by rising number, and the dead-letter worker that is given them.
///
/// What the worker was given is a front of the list, so giving and counting need no scan. A number is
/// found by binary search. Contracts see both as they are, and as they were at the last `commit`, which
/// `undo` leads back to.
#[derive(Drop)]
pub struct Dead {
    rows: UndoDeque<DeadRow>,
    counts: Counts,
    base: Counts,
}

impl Model for Dead {
    ghost use Rattle.qq_dead.specs.Letters.{DeadState, letters_of, AreNumbered, SplitsAt};

    ghost Value = { DeadState };

    ghost view = { λ d. record {
      letters = letters_of d.rows.items d.counts.deads d.counts.given d.counts.attached;
      base = letters_of d.rows.base d.base.deads d.base.given d.base.attached;
    } };

    ghost invariant = { λ d.
        (AreNumbered (letters_of d.rows.items d.counts.deads d.counts.given d.counts.attached)
        × SplitsAt d.counts.given d.counts.under_way d.rows.items)
        × (AreNumbered (letters_of d.rows.base d.base.deads d.base.given d.base.attached)
        × SplitsAt d.base.given d.base.under_way d.rows.base) };
}

// The first place at which the number isn't below this one.
fn place_of(number: u64, rows: &VecDeque<DeadRow>) -> usize
    requires { Rises rows.now.items }

    ensures { result ≡ place_of number rows.now.items }
{
    rows.partition_point(|row| row.number < number)
}

fn is_at(number: u64, place: usize, rows: &VecDeque<DeadRow>) -> bool
    ensures { result ≡ is_at number place rows.now.items }
{
    match rows.get(place) {
        None => false,
        Some(row) => row.number == number,
    }
}

impl Dead {
    /// No messages, and no worker. It takes no memory.
    pub fn new(alloc: Global) -> Self
        ensures letters { result.letters ≡ no_letters }
        ensures base { result.base ≡ no_letters }
    {
        let counts = Counts {
            deads: 0,
            given: 0,
            attached: 0,
            under_way: 0,
        };
        Dead {
            rows: UndoDeque::new(alloc),
            counts,
            base: counts,
        }
    }

    /// These messages by rising number, of so many numbers that were drawn, with the greatest number that
    /// the worker of this term was given. They are committed. It takes no memory.
    pub fn from_parts(rows: Vec<DeadRow>, deads: u64, given: u64, attached: Term) -> Self
        requires { AreNumbered (letters_of rows.items deads given attached.0) }

        ensures letters { result.letters ≡ letters_of rows.items deads given attached.0 }
        ensures base { result.base ≡ result.letters }
    {
        let under_way = rows.as_slice().partition_point(|row| row.number <= given);
        let counts = Counts {
            deads,
            given,
            attached: attached.0,
            under_way,
        };
        Dead {
            rows: UndoDeque::from_vec(rows),
            counts,
            base: counts,
        }
    }

    /// Keeps a message that has died, and answers its number. There has to be a number. After an error all
    /// is as before.
    pub fn add(&mut self, row: ReadyRow, reason: Reason) -> Result<u64, Memory>
        requires counts { self.old.letters.deads + 1 < 2 ^ 64 }

        ensures number { IfOk result (λ number. number ≡ self.old.letters.deads + 1) }
        ensures letters { OnOk result (self.new.letters ≡ add row reason self.old.letters) }
        ensures err { OnErr result (self.new.letters ≡ self.old.letters) }
        ensures base { self.new.base ≡ self.old.base }
        ensures want { IsOkUnless result Memory.Want }
    {
        let number = self.counts.deads + 1;
        self.rows.push_back(DeadRow {
            number,
            reason,
            row,
        })?;
        self.counts.deads = number;
        Ok(number)
    }

    /// The worker of a term takes over, and begins anew. False exactly where the term isn't greater than
    /// that of the worker attached; then nothing changes.
    pub fn attach(&mut self, term: Term) -> bool
        ensures value { result ≡ nat_lt self.old.letters.attached term.0 }
        ensures letters { self.new.letters ≡ attach term.0 self.old.letters }
        ensures base { self.new.base ≡ self.old.base }
    {
        if term.0 <= self.counts.attached {
            return false;
        }
        self.counts.attached = term.0;
        self.counts.given = 0;
        self.counts.under_way = 0;
        true
    }

    fn may_give(&self) -> bool
        ensures { result ≡ may_give self.now.letters }
    {
        0 < self.counts.attached && (self.counts.under_way as u64) < MOST_GIVEN
    }

    fn next_dead(&self) -> Option<&DeadRow>
        ensures { option_copied result
            ≡ next_dead self.now.letters.given self.now.letters.rows }
    {
        self.row_at(self.counts.under_way)
    }

    /// The next message for the worker. None exactly where no worker is attached, it has `MOST_GIVEN` under
    /// way, or was given all.
    pub fn next_offer(&self) -> Option<&DeadRow>
        ensures { option_copied result ≡ next_offer self.now.letters }
    {
        if self.may_give() {
            self.next_dead()
        } else {
            None
        }
    }

    /// The worker is given the next message, if there is one for it.
    pub fn give(&mut self)
        ensures letters { self.new.letters ≡ give self.old.letters }
        ensures base { self.new.base ≡ self.old.base }
    {
        let number = match self.next_offer() {
            None => return,
            Some(row) => row.number,
        };
        self.counts.given = number;
        self.counts.under_way += 1;
    }

    fn settled_place(&self, term: Term, number: u64) -> Option<usize>
        ensures some { IfSome result (IsSettledAt term.0 number self.now.letters) }
        ensures none { IfNone result (SettlesNothing term.0 number self.now.letters) }
    {
        if term.0 != self.counts.attached || self.counts.given < number {
            return None;
        }
        let rows = self.rows.as_deque();
        let place = place_of(number, rows);
        if is_at(number, place, rows) {
            Some(place)
        } else {
            None
        }
    }

    /// Takes out a message whose targets have confirmed it. None exactly where the term isn't that of the
    /// worker attached, or the number isn't that of a dead message that the worker was given; then nothing
    /// changes. After an error all is as before.
    pub fn settle(&mut self, term: Term, number: u64) -> Result<Option<ReadyRow>, Memory>
        ensures value { IfOk result (λ taken.
            taken ≡ option_map (λ one. one.row) (settled term.0 number self.old.letters)) }
        ensures letters { OnOk result (self.new.letters ≡ settle term.0 number self.old.letters) }
        ensures err { OnErr result (self.new.letters ≡ self.old.letters) }
        ensures base { self.new.base ≡ self.old.base }
        ensures want { IsOkUnless result Memory.Want }
    {
        let Some(place) = self.settled_place(term, number) else {
            return Ok(None);
        };
        let one = self.rows.remove(place)?;
        self.counts.under_way -= 1;
        Ok(Some(one.row))
    }

    /// Makes the messages and the worker as they are what `undo` leads back to. It takes no memory.
    pub fn commit(&mut self)
        ensures letters { self.new.letters ≡ self.old.letters }
        ensures base { self.new.base ≡ self.old.letters }
    {
        self.rows.commit();
        self.base = self.counts;
    }

    /// Takes back what was changed since the last commit. It takes no memory.
    pub fn undo(&mut self)
        ensures letters { self.new.letters ≡ self.old.base }
        ensures base { self.new.base ≡ self.old.base }
    {
        self.rows.undo();
        self.counts = self.base;
    }

    /// A message by its place in the order of numbers. None exactly where there is none.
    pub fn row_at(&self, place: usize) -> Option<&DeadRow>
        ensures { option_copied result ≡ slice_get self.now.letters.rows place }
    {
        self.rows.get(place)
    }

    /// How many are kept.
    pub fn len(&self) -> usize
        ensures { result ≡ length self.now.letters.rows }
    {
        self.rows.len()
    }

    /// How many numbers were drawn, the greatest number that the worker was given, and its term, 0 for
    /// none. The numbers rise and were drawn, and the worker was given none that wasn't.
    pub fn counters(&self) -> (u64, u64, Term)
        ensures numbered { AreNumbered self.now.letters }
        ensures deads { result.0 ≡ self.now.letters.deads }
        ensures given { result.1 ≡ self.now.letters.given }
        ensures attached { result.2.0 ≡ self.now.letters.attached }
    {
        (
            self.counts.deads,
            self.counts.given,
            Term(self.counts.attached),
        )
    }

    /// The same messages and worker, committed, in memory of their own.
    pub fn copy(&self, alloc: Global) -> Result<Self, Memory>
        ensures ok { IfOk result (λ twin. twin.letters ≡ self.now.letters) }
        ensures base { IfOk result (λ twin. twin.base ≡ self.now.letters) }
        ensures want { IsOkUnless result Memory.Want }
    {
        Ok(Dead {
            rows: self.rows.copy(alloc)?,
            counts: self.counts,
            base: self.counts,
        })
    }
}
