ghost use Rattle.std.specs.Prelude.{◌≡◌, ◌++◌, ◌∷◌, [], IsOkUnless, OnOk};
ghost use Rattle.qq_ledger.specs.Ledger.{HasRoom};

use qq_base::{Index, Memory};
use std::alloc::Global;

/// The indices of the messages that came to a part of a queue, and of those that left it, since the last
/// commit. A message that came and left is in both.
#[derive(Drop)]
pub struct Ledger {
    /// Of those that came.
    pub came: Vec<Index>,
    /// Of those that left.
    pub gone: Vec<Index>,
}

impl Ledger {
    /// Nothing came or left. It takes no memory.
    pub fn new(alloc: Global) -> Self
        ensures came { result.came.items ≡ [] }
        ensures gone { result.gone.items ≡ [] }
    {
        Ledger {
            came: Vec::new(alloc),
            gone: Vec::new(alloc),
        }
    }

    /// Nothing came or left since now.
    pub fn clear(&mut self)
        ensures came { self.new.came.items ≡ [] }
        ensures gone { self.new.gone.items ≡ [] }
    {
        self.came.clear();
        self.gone.clear();
    }

    /// Makes room for one that comes and one that leaves. Nothing else changes, after an error neither.
    #[inline(always)]
    pub fn reserve(&mut self) -> Result<(), Memory>
        ensures came { self.new.came.items ≡ self.old.came.items }
        ensures gone { self.new.gone.items ≡ self.old.gone.items }
        ensures came_room { OnOk result (HasRoom self.new.came) }
        ensures gone_room { OnOk result (HasRoom self.new.gone) }
        ensures want { IsOkUnless result Memory.Want }
    {
        self.came.reserve(1)?;
        self.gone.reserve(1)?;
        Ok(())
    }

    /// A message comes. There has to be room.
    pub fn take_in(&mut self, index: Index)
        requires { HasRoom self.old.came }

        ensures came { self.new.came.items ≡ self.old.came.items ++ index ∷ [] }
        ensures gone { self.new.gone.items ≡ self.old.gone.items }
    {
        self.came.push_reserved(index);
    }

    /// A message leaves. There has to be room.
    pub fn let_go(&mut self, index: Index)
        requires { HasRoom self.old.gone }

        ensures came { self.new.came.items ≡ self.old.came.items }
        ensures gone { self.new.gone.items ≡ self.old.gone.items ++ index ∷ [] }
    {
        self.gone.push_reserved(index);
    }
}
