ghost use Rattle.std.specs.Prelude.{◌≡◌, ◌+◌, ◌<◌, ◌^◌, nat_lt, refl, IfOk, IsOkUnless, OnOk, OnErr};
ghost use Rattle.std.specs.Option.{option_map};
ghost use Rattle.qq_dead.specs.Letters.{add, attach, give, settled, settle};
ghost use Rattle.qq_ledger.specs.Ledger.{dead_indices};

use crate::tracked::{Holds, Tracked};
use qq_base::{Memory, Term};
use qq_dead::Dead;
use qq_entry::{ReadyRow, Reason};
use std::alloc::Global;

impl Holds for Dead {
    ghost indices = { λ d. dead_indices d.letters };

    ghost base_indices = { λ d. dead_indices d.base };

    ghost committed = { λ d. record { letters = d.letters; base = d.letters } };

    ghost undone = { λ d. record { letters = d.base; base = d.base } };

    fn commit(&mut self) {
        Dead::commit(self);
    }

    fn undo(&mut self) {
        Dead::undo(self);
    }

    fn copy(&self, alloc: Global) -> Result<Self, Memory> {
        Dead::copy(self, alloc)
    }

    ghost commits = { λ x. refl };

    ghost undoes = { λ x. refl };
}

impl Tracked<Dead> {
    /// Keeps a message that has died, and answers its number. There has to be a number. After an error all
    /// is as before.
    pub fn add(&mut self, row: ReadyRow, reason: Reason) -> Result<u64, Memory>
        requires counts { self.old.store.letters.deads + 1 < 2 ^ 64 }

        ensures number { IfOk result (λ number. number ≡ self.old.store.letters.deads + 1) }
        ensures letters { OnOk result (self.new.store.letters
            ≡ add row reason self.old.store.letters) }
        ensures err { OnErr result (self.new ≡ self.old) }
        ensures base { self.new.store.base ≡ self.old.store.base }
        ensures want { IsOkUnless result Memory.Want }
    {
        let index = row.index;
        if let Err(cause) = self.ledger.reserve() {
            drop(row);
            return Err(cause);
        }
        let number = self.store.add(row, reason)?;
        self.ledger.take_in(index);
        Ok(number)
    }

    /// The worker of a term takes over, and begins anew. False exactly where the term isn't greater than
    /// that of the worker attached; then nothing changes.
    pub fn attach(&mut self, term: Term) -> bool
        ensures value { result ≡ nat_lt self.old.store.letters.attached term.0 }
        ensures letters { self.new.store.letters ≡ attach term.0 self.old.store.letters }
        ensures base { self.new.store.base ≡ self.old.store.base }
    {
        self.store.attach(term)
    }

    /// The worker is given the next message, if there is one for it.
    pub fn give(&mut self)
        ensures letters { self.new.store.letters ≡ give self.old.store.letters }
        ensures base { self.new.store.base ≡ self.old.store.base }
    {
        self.store.give();
    }

    /// Takes out a message whose targets have confirmed it. None exactly where the term isn't that of the
    /// worker attached, or the number isn't that of a dead message that the worker was given; then nothing
    /// changes. After an error all is as before.
    pub fn settle(&mut self, term: Term, number: u64) -> Result<Option<ReadyRow>, Memory>
        ensures value { IfOk result (λ taken.
            taken ≡ option_map (λ one. one.row) (settled term.0 number self.old.store.letters)) }
        ensures letters { OnOk result (self.new.store.letters
            ≡ settle term.0 number self.old.store.letters) }
        ensures err { OnErr result (self.new ≡ self.old) }
        ensures base { self.new.store.base ≡ self.old.store.base }
        ensures want { IsOkUnless result Memory.Want }
    {
        self.store.counters();
        self.ledger.reserve()?;
        let taken = self.store.settle(term, number)?;
        match taken {
            None => Ok(None),
            Some(row) => {
                self.ledger.let_go(row.index);
                Ok(Some(row))
            }
        }
    }
}
