ghost use Rattle.std.specs.Prelude.{◌≡◌, ◌++◌, ◌∷◌, [], List, length, IfOk, IsOkUnless, OnOk, OnErr, IsTrue, ◌↔◌};

use crate::ids::QueueId;
use crate::memory::{Duplicate, Memory};
use std::alloc::Global;
use std::marker::Model;

/// A list of a struct's field or an answer, which contracts see as a list.
#[derive(Debug, Drop)]
pub struct Items<T> {
    items: Vec<T>,
}

/// Bytes, as those of a message's body.
pub type Bytes = Items<u8>;

/// Ids of deliveries.
pub type Ids = Items<u64>;

/// Queues by their numbers.
pub type QueueIds = Items<QueueId>;

impl<T> Model for Items<T> {
    ghost Value = { List T };

    ghost view = { λ l. l.items.items };
}

impl<T: PartialEq> PartialEq for Items<T> {
    ghost use Rattle.std.specs.Cmp.Lexicographic.{pointwise, lists_per};

    ghost eq = { λ a b. pointwise T.eq a b };

    ghost laws = { lists_per T.laws };

    fn eq(&self, other: &Self) -> bool {
        self.items == other.items
    }
}

impl<T> Items<T> {
    /// An empty list. It takes no memory.
    pub fn new(alloc: Global) -> Self
        ensures { result ≡ [] }
    {
        Items {
            items: Vec::new(alloc),
        }
    }

    /// The list with these items. It takes no memory.
    pub fn from_vec(items: Vec<T>) -> Self
        ensures { result ≡ items.items }
    {
        Items { items }
    }

    /// The items. It takes no memory.
    pub fn into_vec(self) -> Vec<T>
        ensures { result.items ≡ self }
    {
        self.items
    }

    pub fn as_slice(&self) -> &[T]
        ensures { result.now ≡ self.now }
    {
        self.items.as_slice()
    }

    pub fn len(&self) -> usize
        ensures { result ≡ length self.now }
    {
        self.items.len()
    }

    pub fn is_empty(&self) -> bool
        ensures { IsTrue result ↔ (self.now ≡ []) }
    {
        self.items.is_empty()
    }
}

impl<T: Drop> Items<T> {
    /// Adds an item at the end. Out of memory, the list stays.
    pub fn push(&mut self, item: T) -> Result<(), Memory>
        ensures ok { OnOk result (self.new ≡ self.old ++ item ∷ []) }
        ensures err { OnErr result (self.new ≡ self.old) }
        ensures want { IsOkUnless result Memory.Want }
    {
        self.items.push(item)?;
        Ok(())
    }
}

impl<T: Copy> Items<T> {
    /// A list with the same items.
    pub fn copy(&self, alloc: Global) -> Result<Self, Memory>
        ensures ok { IfOk result (λ list. list ≡ self.now) }
        ensures want { IsOkUnless result Memory.Want }
    {
        Ok(Items {
            items: Vec::from_slice(alloc, self.items.as_slice())?,
        })
    }
}

fn copied<T: Duplicate>(alloc: Global, items: &[T]) -> Result<Vec<T>, Memory>
    ensures ok { IfOk result (λ list. list.items ≡ items.now) }
    ensures want { IsOkUnless result Memory.Want }
{
    let mut list = Vec::with_capacity(alloc, items.len())?;
    for item in items {
        list.push(item.copy(alloc)?)?;
    }
    Ok(list)
}

impl<T: Duplicate> Duplicate for Items<T> {
    fn copy(&self, alloc: Global) -> Result<Self, Memory> {
        Ok(Items {
            items: copied(alloc, self.items.as_slice())?,
        })
    }
}
