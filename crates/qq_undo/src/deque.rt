ghost use Rattle.std.specs.Prelude.{◌≡◌, ◌+◌, ◌<◌, ◌≤◌, ◌^◌, ◌++◌, ◌∷◌, [], drop, length, slice_get, insert, remove, Some, IfOk, IsOkUnless, OnOk, OnErr};
ghost use Rattle.std.specs.Option.{option_copied, option_to_list};
ghost use Rattle.std.specs.VecDeque.{deque_len, deque_capacity};
ghost use Rattle.qq_undo.specs.Undo.{CanUndoStep, CanUndo, HasMore, held, undo_step, undone};

use crate::step::Step;
use qq_base::{Duplicate, Memory};
use std::alloc::Global;
use std::collections::VecDeque;
use std::marker::Model;
use std::mem;

/// A deque that keeps a journal of its changes.
///
/// Contracts see its items and its base: the items at the last `commit`. `undo` makes the items the base
/// again, and takes no memory: the deque never gives memory back, so there is room for what it had.
#[derive(Drop)]
pub struct UndoDeque<T> {
    items: VecDeque<T>,
    journal: Vec<Step<T>>,
}

impl<T> Model for UndoDeque<T> {
    ghost use Rattle.std.specs.VecDeque.{deque_capacity};
    ghost use Rattle.qq_undo.specs.Undo.{Undoable, CanUndo, held, undone};

    ghost Value = { Undoable T };

    ghost view = { λ d. record {
      items = d.items.items;
      base = (undone d.journal.items (held d.items.items (deque_capacity d.items))).items;
    } };

    ghost invariant = { λ d. CanUndo d.journal.items (held d.items.items (deque_capacity d.items)) };
}

fn take_at<T>(items: &mut VecDeque<T>, place: usize) -> T
    requires { place < length items.old.items }

    ensures value { slice_get items.old.items place ≡ Some result }
    ensures items { items.new.items ≡ remove items.old.items place }
    ensures len { deque_len items.new + 1 ≡ deque_len items.old }
    ensures capacity { deque_capacity items.new ≡ deque_capacity items.old }
{
    items.remove(place).unwrap()
}

fn undo_step<T: Drop>(items: &mut VecDeque<T>, step: Step<T>)
    requires { CanUndoStep step (held items.old.items (deque_capacity items.old)) }

    ensures { HasMore (undo_step step (held items.old.items (deque_capacity items.old)))
        (held items.new.items (deque_capacity items.new)) }
{
    match step {
        Step::Inserted(place) => {
            items.remove(place);
        }
        Step::Removed(place, item) => match items.insert(place, item) {
            Ok(()) => {}
            Err(_) => unreachable!(),
        },
        Step::Cleared(kept) => *items = kept,
    }
}

fn undo_all<T: Drop>(items: &mut VecDeque<T>, journal: &mut Vec<Step<T>>)
    requires { CanUndo journal.old.items (held items.old.items (deque_capacity items.old)) }

    ensures items { items.new.items
        ≡ (undone journal.old.items (held items.old.items (deque_capacity items.old))).items }
    ensures journal { journal.new.items ≡ [] }
{
    'steps: while let Some(step) = journal.pop() {
        undo_step(items, step);
    }
}

fn copied<T: Duplicate>(alloc: Global, items: &VecDeque<T>) -> Result<VecDeque<T>, Memory>
    ensures ok { IfOk result (λ twin. twin.items ≡ items.now.items) }
    ensures want { IsOkUnless result Memory.Want }
{
    let mut twin = VecDeque::with_capacity(alloc, items.len())?;
    'items: for place in 0..items.len() {
        twin.push_back(items[place].copy(alloc)?)?;
    }
    Ok(twin)
}

impl<T> UndoDeque<T> {
    /// No items. It takes no memory.
    pub fn new(alloc: Global) -> Self
        ensures items { result.items ≡ [] }
        ensures base { result.base ≡ [] }
    {
        UndoDeque {
            items: VecDeque::new(alloc),
            journal: Vec::new(alloc),
        }
    }

    /// These items, committed. It takes no memory.
    pub fn from_vec(items: Vec<T>) -> Self
        ensures items { result.items ≡ items.items }
        ensures base { result.base ≡ items.items }
    {
        UndoDeque::from_deque(VecDeque::from_vec(items))
    }

    /// These items, committed. It takes no memory.
    pub fn from_deque(items: VecDeque<T>) -> Self
        ensures items { result.items ≡ items.items }
        ensures base { result.base ≡ items.items }
    {
        let alloc = *items.allocator();
        UndoDeque {
            items,
            journal: Vec::new(alloc),
        }
    }

    /// How many items there are.
    pub fn len(&self) -> usize
        ensures len { result ≡ length self.now.items }
        ensures small { result < 2 ^ 63 }
    {
        self.items.len()
    }

    /// The item at a place. None exactly where there is none.
    pub fn get(&self, place: usize) -> Option<&T>
        ensures { option_copied result ≡ slice_get self.now.items place }
    {
        self.items.get(place)
    }

    /// The items as a deque, to be read.
    pub fn as_deque(&self) -> &VecDeque<T>
        ensures { result.now.items ≡ self.now.items }
    {
        &self.items
    }
}

impl<T: Drop> UndoDeque<T> {
    /// Puts an item in at a place.
    pub fn insert(&mut self, place: usize, item: T) -> Result<(), Memory>
        requires { place ≤ length self.old.items }

        ensures items { OnOk result (self.new.items ≡ insert self.old.items place item) }
        ensures err { OnErr result (self.new.items ≡ self.old.items) }
        ensures base { self.new.base ≡ self.old.base }
        ensures want { IsOkUnless result Memory.Want }
    {
        self.journal.reserve(1)?;
        self.items.insert(place, item)?;
        self.journal.push_reserved(Step::Inserted(place));
        Ok(())
    }

    /// Puts an item behind all others.
    #[inline(always)]
    pub fn push_back(&mut self, item: T) -> Result<(), Memory>
        ensures items { OnOk result (self.new.items ≡ self.old.items ++ item ∷ []) }
        ensures err { OnErr result (self.new.items ≡ self.old.items) }
        ensures base { self.new.base ≡ self.old.base }
        ensures want { IsOkUnless result Memory.Want }
    {
        let place = self.items.len();
        self.journal.reserve(1)?;
        self.items.push_back(item)?;
        self.journal.push_reserved(Step::Inserted(place));
        Ok(())
    }

    /// Takes all items out, in time that doesn't depend on how many there are.
    pub fn clear(&mut self) -> Result<(), Memory>
        ensures items { OnOk result (self.new.items ≡ []) }
        ensures err { OnErr result (self.new.items ≡ self.old.items) }
        ensures base { self.new.base ≡ self.old.base }
        ensures want { IsOkUnless result Memory.Want }
    {
        self.journal.reserve(1)?;
        let none = VecDeque::new(*self.items.allocator());
        let all = mem::replace(&mut self.items, none);
        self.journal.push_reserved(Step::Cleared(all));
        Ok(())
    }

    /// Makes the items the base. It takes no memory, and time for the changes since the last commit.
    pub fn commit(&mut self)
        ensures items { self.new.items ≡ self.old.items }
        ensures base { self.new.base ≡ self.old.items }
    {
        self.journal.clear();
    }

    /// Makes the base the items again. It takes no memory, and time for the changes since the last commit.
    pub fn undo(&mut self)
        ensures items { self.new.items ≡ self.old.base }
        ensures base { self.new.base ≡ self.old.base }
    {
        undo_all(&mut self.items, &mut self.journal);
    }
}

impl<T: Duplicate> UndoDeque<T> {
    /// Takes out the item at a place.
    pub fn remove(&mut self, place: usize) -> Result<T, Memory>
        requires { place < length self.old.items }

        ensures value { IfOk result (λ item. slice_get self.old.items place ≡ Some item) }
        ensures items { OnOk result (self.new.items ≡ remove self.old.items place) }
        ensures err { OnErr result (self.new.items ≡ self.old.items) }
        ensures base { self.new.base ≡ self.old.base }
        ensures want { IsOkUnless result Memory.Want }
    {
        let twin = self.items[place].copy(*self.items.allocator())?;
        self.journal.push(Step::Removed(place, twin))?;
        Ok(take_at(&mut self.items, place))
    }

    /// Takes out the first item. None exactly where there is none.
    pub fn pop_front(&mut self) -> Result<Option<T>, Memory>
        ensures value { IfOk result (λ first. first ≡ slice_get self.old.items 0) }
        ensures items { OnOk result (self.new.items ≡ drop 1 self.old.items) }
        ensures both { IfOk result (λ first.
            self.old.items ≡ option_to_list first ++ self.new.items) }
        ensures err { OnErr result (self.new.items ≡ self.old.items) }
        ensures base { self.new.base ≡ self.old.base }
        ensures want { IsOkUnless result Memory.Want }
    {
        if self.items.is_empty() {
            return Ok(None);
        }
        Ok(Some(self.remove(0)?))
    }

    /// The same items, committed, in memory of their own.
    pub fn copy(&self, alloc: Global) -> Result<Self, Memory>
        ensures items { IfOk result (λ twin. twin.items ≡ self.now.items) }
        ensures base { IfOk result (λ twin. twin.base ≡ self.now.items) }
        ensures want { IsOkUnless result Memory.Want }
    {
        Ok(UndoDeque::from_deque(copied(alloc, &self.items)?))
    }
}
