ghost use Rattle.std.specs.Prelude.{◌≡◌, ◌+◌, ◌<◌, ◌^◌, refl, IfOk, IsOkUnless, OnOk, OnErr};
ghost use Rattle.std.specs.Option.{option_map};
ghost use Rattle.qq_ready.specs.Queue.{in_order, head, without_next, emptied, push_back, push_returned};
ghost use Rattle.qq_ledger.specs.Ledger.{ready_indices};

use crate::scans::push_ready;
use crate::tracked::{Holds, Tracked};
use qq_base::Memory;
use qq_entry::ReadyRow;
use qq_ready::Ready;
use std::alloc::Global;

impl Holds for Ready {
    ghost indices = { λ r. ready_indices r.queue };

    ghost base_indices = { λ r. ready_indices r.base };

    ghost committed = { λ r. record { queue = r.queue; base = r.queue } };

    ghost undone = { λ r. record { queue = r.base; base = r.base } };

    fn commit(&mut self) {
        Ready::commit(self);
    }

    fn undo(&mut self) {
        Ready::undo(self);
    }

    fn copy(&self, alloc: Global) -> Result<Self, Memory> {
        Ready::copy(self, alloc)
    }

    ghost commits = { λ x. refl };

    ghost undoes = { λ x. refl };
}

impl Tracked<Ready> {
    /// Puts a message at the back, with the next key there. There has to be a key. After an error all is as
    /// before.
    #[inline(always)]
    pub fn push_back(&mut self, row: ReadyRow) -> Result<(), Memory>
        requires counts { self.old.store.queue.orders + 1 < 2 ^ 64 }

        ensures queue { OnOk result (self.new.store.queue ≡ push_back row self.old.store.queue) }
        ensures err { OnErr result (self.new ≡ self.old) }
        ensures base { self.new.store.base ≡ self.old.store.base }
        ensures want { IsOkUnless result Memory.Want }
    {
        let index = row.index;
        if let Err(cause) = self.ledger.reserve() {
            drop(row);
            return Err(cause);
        }
        self.store.push_back(row)?;
        self.ledger.take_in(index);
        Ok(())
    }

    /// Puts a message that was returned under a delivery limit before all but those that were returned
    /// before it, with the next key there. There has to be a key. After an error all is as before.
    pub fn push_returned(&mut self, row: ReadyRow) -> Result<(), Memory>
        requires counts { self.old.store.queue.returns + 1 < 2 ^ 64 }

        ensures queue { OnOk result (self.new.store.queue
            ≡ push_returned row self.old.store.queue) }
        ensures err { OnErr result (self.new ≡ self.old) }
        ensures base { self.new.store.base ≡ self.old.store.base }
        ensures want { IsOkUnless result Memory.Want }
    {
        let index = row.index;
        if let Err(cause) = self.ledger.reserve() {
            drop(row);
            return Err(cause);
        }
        self.store.push_returned(row)?;
        self.ledger.take_in(index);
        Ok(())
    }

    /// Takes the next message. None exactly where nothing is ready. After an error all is as before.
    pub fn pop_next(&mut self) -> Result<Option<ReadyRow>, Memory>
        ensures next { IfOk result (λ next.
            next ≡ option_map (λ one. one.row) (head (in_order self.old.store.queue))) }
        ensures queue { OnOk result (self.new.store.queue ≡ without_next self.old.store.queue) }
        ensures err { OnErr result (self.new ≡ self.old) }
        ensures base { self.new.store.base ≡ self.old.store.base }
        ensures want { IsOkUnless result Memory.Want }
    {
        self.ledger.reserve()?;
        let taken = self.store.pop_next()?;
        match taken {
            None => Ok(None),
            Some(row) => {
                self.ledger.let_go(row.index);
                Ok(Some(row))
            }
        }
    }

    /// Takes all messages out. It goes through all of them. After an error all is as at the last commit.
    pub fn clear(&mut self) -> Result<(), Memory>
        ensures queue { OnOk result (self.new.store.queue ≡ emptied self.old.store.queue) }
        ensures err { OnErr result (self.new.store.queue ≡ self.old.store.base) }
        ensures base { self.new.store.base ≡ self.old.store.base }
        ensures want { IsOkUnless result Memory.Want }
    {
        if let Err(cause) = push_ready(&self.store, &mut self.ledger.gone) {
            self.store.undo();
            self.ledger.clear();
            return Err(cause);
        }
        match self.store.clear() {
            Ok(()) => Ok(()),
            Err(cause) => {
                self.store.undo();
                self.ledger.clear();
                Err(cause)
            }
        }
    }
}
