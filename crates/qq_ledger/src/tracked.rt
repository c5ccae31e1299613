ghost use Rattle.std.specs.Prelude.{◌≡◌, ◌+◌, ◌≤◌, List, length, IfOk, IsOkUnless};
ghost use Rattle.qq_base.specs.declared.ids.Index.{Index};
ghost use Rattle.qq_live.specs.Indices.{Adds, Removes, HasRoomFor};
ghost use Rattle.qq_ledger.specs.Ledger.{Balances};

use crate::ledger::Ledger;
use qq_base::Memory;
use qq_live::Live;
use std::alloc::Global;
use std::marker::Model;

/// A store of messages that knows what it was at the last commit.
pub trait Holds: Drop {
    /// The indices of its messages.
    ghost indices: { Self → List Index };

    /// What they were at the last commit.
    ghost base_indices: { Self → List Index };

    /// The store after a commit.
    ghost committed: { Self → Self };

    /// The store after an undo.
    ghost undone: { Self → Self };

    /// What was changed since the last commit stays. It takes no memory.
    fn commit(&mut self)
        ensures { self.new ≡ committed self.old };

    /// All is as it was at the last commit. It takes no memory.
    fn undo(&mut self)
        ensures { self.new ≡ undone self.old };

    /// The same, committed, in memory of its own.
    fn copy(&self, alloc: Global) -> Result<Self, Memory>
        ensures ok { IfOk result (λ twin. twin ≡ committed self.now) }
        ensures want { IsOkUnless result Memory.Want };

    /// After a commit, what it holds is what it held at the last commit.
    ghost commits: { (x : Self) → indices (committed x) ≡ base_indices (committed x) };

    /// So it is after an undo.
    ghost undoes: { (x : Self) → indices (undone x) ≡ base_indices (undone x) };
}

/// A store of messages, with a ledger of which came and left since the last commit.
#[derive(Drop)]
pub struct Tracked<T: Holds> {
    pub(crate) store: T,
    pub(crate) ledger: Ledger,
}

impl<T: Holds> Model for Tracked<T> {
    ghost use Rattle.qq_ledger.specs.Ledger.{Tracking, Balances};

    ghost Value = { Tracking T };

    ghost view = { λ t. record {
      store = t.store;
      came = t.ledger.came.items;
      gone = t.ledger.gone.items;
    } };

    ghost invariant = { λ t. Balances (T.base_indices t.store) (T.indices t.store)
        t.ledger.came.items t.ledger.gone.items };
}

impl<T: Holds> Tracked<T> {
    /// This store, committed. It takes no memory.
    pub fn over(alloc: Global, store: T) -> Self
        ensures { result.store ≡ T.committed store }
    {
        let mut store = store;
        store.commit();
        Tracked {
            store,
            ledger: Ledger::new(alloc),
        }
    }

    /// The store.
    pub fn store(&self) -> &T
        ensures { result.now ≡ self.now.store }
    {
        &self.store
    }

    /// What was changed since the last commit stays. It takes no memory.
    pub fn commit(&mut self)
        ensures { self.new.store ≡ T.committed self.old.store }
    {
        self.store.commit();
        self.ledger.clear();
    }

    /// The store is as it was at the last commit. It takes no memory.
    pub fn undo(&mut self)
        ensures { self.new.store ≡ T.undone self.old.store }
    {
        self.store.undo();
        self.ledger.clear();
    }

    /// How many messages came since the last commit.
    pub fn came(&self) -> usize
        ensures { result ≡ length self.now.came }
    {
        self.ledger.came.len()
    }

    /// Each message that came since the last commit is held. There has to be room.
    pub fn hold(&self, live: &mut Live)
        requires { HasRoomFor (length self.now.came) live.old }

        ensures indices { Adds self.now.came live.old.indices live.new.indices }
        ensures len { length live.new.indices
            ≡ length live.old.indices + length self.now.came }
        ensures room { live.old.room ≤ live.new.room + length self.now.came }
        ensures balance { Balances (T.base_indices self.now.store) (T.indices self.now.store)
            self.now.came self.now.gone }
    {
        live.add_all(self.ledger.came.as_slice());
    }

    /// Each message that left since the last commit is let go.
    pub fn release(&self, live: &mut Live)
        ensures indices { Removes self.now.gone live.old.indices live.new.indices }
    {
        live.remove_all(self.ledger.gone.as_slice());
    }

    /// The same store, committed, in memory of its own.
    pub fn copy(&self, alloc: Global) -> Result<Self, Memory>
        ensures ok { IfOk result (λ twin. twin.store ≡ T.committed self.now.store) }
        ensures want { IsOkUnless result Memory.Want }
    {
        Ok(Tracked {
            store: self.store.copy(alloc)?,
            ledger: Ledger::new(alloc),
        })
    }
}
