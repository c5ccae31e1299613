ghost use Rattle.std.specs.Prelude.{◌≡◌, ◌<◌, ◌≤◌, ◌++◌, ◌∷◌, [], true, length, slice_get, insert, remove, nat_eq, Some, IfOk, IsOkUnless, OnOk, OnErr};
ghost use Rattle.std.specs.Option.{option_copied, option_map};
ghost use Rattle.qq_consumer.specs.Numbers.{Rises, AreBelow, IsFree, item_by, with_item, without, without_first, place_of, is_at};

use qq_base::{ConsumerId, Duplicate, Memory};
use qq_entry::ReadyRow;
use qq_undo::UndoDeque;
use std::alloc::Global;
use std::collections::VecDeque;
use std::marker::Model;

/// An item under its number.
#[derive(Drop)]
pub struct Numbered<T> {
    pub number: u64,
    pub item: T,
}

/// A list whose numbers rise. A number is found by binary search.
///
/// Contracts see its items and its base: the items at the last commit. `undo` makes these the items
/// again, and takes no memory.
#[derive(Drop)]
pub struct Rising<T> {
    rows: UndoDeque<Numbered<T>>,
}

impl<T> Model for Rising<T> {
    ghost use Rattle.qq_consumer.specs.Numbers.{RisingList, AreRising};

    ghost Value = { RisingList T };

    ghost view = { λ r. record {
      items = r.rows.items;
      base = r.rows.base;
    } };

    ghost invariant = { λ r. AreRising r.rows.items r.rows.base };
}

// The first place at which the number isn't below this one.
fn place_of<T>(number: u64, rows: &VecDeque<Numbered<T>>) -> usize
    requires { Rises rows.now.items }

    ensures { result ≡ place_of number rows.now.items }
{
    rows.partition_point(|row| row.number < number)
}

fn place_in<T>(number: u64, rows: &UndoDeque<Numbered<T>>) -> usize
    requires { Rises rows.now.items }

    ensures { result ≡ place_of number rows.now.items }
{
    place_of(number, rows.as_deque())
}

fn is_at<T>(number: u64, place: usize, rows: &UndoDeque<Numbered<T>>) -> bool
    ensures { result ≡ is_at number place rows.now.items }
{
    match rows.get(place) {
        None => false,
        Some(row) => row.number == number,
    }
}

impl Duplicate for Numbered<ReadyRow> {
    fn copy(&self, alloc: Global) -> Result<Self, Memory> {
        Ok(Numbered {
            number: self.number,
            item: self.item.copy(alloc)?,
        })
    }
}

impl Duplicate for Numbered<ConsumerId> {
    fn copy(&self, _alloc: Global) -> Result<Self, Memory> {
        Ok(Numbered {
            number: self.number,
            item: self.item,
        })
    }
}

impl<T> Rising<T> {
    /// No items. It takes no memory.
    pub fn new(alloc: Global) -> Self
        ensures items { result.items ≡ [] }
        ensures base { result.base ≡ [] }
    {
        Rising {
            rows: UndoDeque::new(alloc),
        }
    }

    /// These items, whose numbers rise. It takes no memory.
    pub fn from_parts(rows: Vec<Numbered<T>>) -> Self
        requires { Rises rows.items }

        ensures items { result.items ≡ rows.items }
        ensures base { result.base ≡ rows.items }
    {
        Rising {
            rows: UndoDeque::from_vec(rows),
        }
    }

    /// How many items there are.
    pub fn len(&self) -> usize
        ensures { result ≡ length self.now.items }
    {
        self.rows.len()
    }

    /// Whether there are none.
    pub fn is_empty(&self) -> bool
        ensures { result ≡ nat_eq (length self.now.items) 0 }
    {
        self.rows.len() == 0
    }

    /// The item at a place, in the order of numbers. None exactly where there is none.
    pub fn get(&self, place: usize) -> Option<&Numbered<T>>
        ensures { option_copied result ≡ slice_get self.now.items place }
    {
        self.rows.get(place)
    }
}

impl<T: Drop> Rising<T> {
    /// Adds an item behind all others.
    pub fn push(&mut self, number: u64, item: T) -> Result<(), Memory>
        requires below { AreBelow number self.old.items }

        ensures items { OnOk result (self.new.items
            ≡ self.old.items ++ record { number = number; item = item } ∷ []) }
        ensures err { OnErr result (self.new.items ≡ self.old.items) }
        ensures base { self.new.base ≡ self.old.base }
        ensures want { IsOkUnless result Memory.Want }
    {
        self.rows.push_back(Numbered { number, item })?;
        Ok(())
    }

    /// Adds an item at the place of its number, which no item may have.
    pub fn insert(&mut self, number: u64, item: T) -> Result<(), Memory>
        requires free { IsFree number self.old.items }

        ensures items { OnOk result (self.new.items
            ≡ with_item (record { number = number; item = item }) self.old.items) }
        ensures err { OnErr result (self.new.items ≡ self.old.items) }
        ensures base { self.new.base ≡ self.old.base }
        ensures want { IsOkUnless result Memory.Want }
    {
        let place = place_in(number, &self.rows);
        self.rows.insert(place, Numbered { number, item })?;
        Ok(())
    }

    /// Makes the items the base. It takes no memory, and time for the changes since the last commit.
    pub fn commit(&mut self)
        ensures items { self.new.items ≡ self.old.items }
        ensures base { self.new.base ≡ self.old.items }
    {
        self.rows.commit();
    }

    /// Makes the base the items again. It takes no memory, and time for the changes since the last
    /// commit.
    pub fn undo(&mut self)
        ensures items { self.new.items ≡ self.old.base }
        ensures base { self.new.base ≡ self.old.base }
    {
        self.rows.undo();
    }
}

impl<T: Drop> Rising<T>
where
    Numbered<T>: Duplicate,
{
    /// Takes out the item of a number. None exactly where there is none.
    pub fn take(&mut self, number: u64) -> Result<Option<T>, Memory>
        ensures value { IfOk result (λ item. item ≡ item_by number self.old.items) }
        ensures items { OnOk result (self.new.items ≡ without number self.old.items) }
        ensures err { OnErr result (self.new.items ≡ self.old.items) }
        ensures base { self.new.base ≡ self.old.base }
        ensures want { IsOkUnless result Memory.Want }
    {
        let place = place_in(number, &self.rows);
        if !is_at(number, place, &self.rows) {
            return Ok(None);
        }
        let one = self.rows.remove(place)?;
        Ok(Some(one.item))
    }

    /// Takes out the first item. None exactly where there is none.
    pub fn take_first(&mut self) -> Result<Option<T>, Memory>
        ensures value { IfOk result (λ item. item
            ≡ option_map (λ one. one.item) (slice_get self.old.items 0)) }
        ensures items { OnOk result (self.new.items ≡ without_first self.old.items) }
        ensures err { OnErr result (self.new.items ≡ self.old.items) }
        ensures base { self.new.base ≡ self.old.base }
        ensures want { IsOkUnless result Memory.Want }
    {
        match self.rows.pop_front()? {
            None => Ok(None),
            Some(one) => Ok(Some(one.item)),
        }
    }

    /// The same items, in memory of their own.
    pub fn copy(&self, alloc: Global) -> Result<Self, Memory>
        ensures ok { IfOk result (λ twin. twin.items ≡ self.now.items) }
        ensures base { IfOk result (λ twin. twin.base ≡ self.now.items) }
        ensures want { IsOkUnless result Memory.Want }
    {
        Ok(Rising {
            rows: self.rows.copy(alloc)?,
        })
    }
}
