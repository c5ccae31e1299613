ghost use Rattle.std.specs.Prelude.{◌≡◌, ◌+◌, ◌<◌, ◌≤◌, ◌^◌, true, false, IfOk, IsOkUnless, insert, filter, length, slice_get, slice_set, Some};
ghost use Rattle.std.specs.Option.{option_map};
ghost use Rattle.std.specs.VecDeque.{deque_len, deque_capacity};
ghost use Rattle.qq_live.specs.Slots.{is_held, SlotsRise, AreFronted, place_of, holders_at, is_front_free, held_of, Trims, Gains, Loses};

use qq_base::{Index, Memory};
use std::alloc::Global;
use std::collections::VecDeque;

/// An index, and how many hold it.
#[derive(Clone, Copy)]
pub struct Slot {
    /// Of the entry that brought the message.
    pub index: Index,
    /// How many hold it, 0 where none does any more.
    pub holders: u64,
}

/// The first place at which the index isn't below this one.
#[inline(always)]
pub fn place_of(index: Index, slots: &VecDeque<Slot>) -> usize
    requires { SlotsRise slots.now.items }

    ensures { result ≡ place_of index slots.now.items }
{
    // Most indices come behind all others.
    if let Some(last) = slots.back() {
        if last.index.0 < index.0 {
            return slots.len();
        }
    }
    slots.partition_point(|slot| slot.index.0 < index.0)
}

/// How many hold the slot at a place. None exactly where it isn't of this index.
pub fn holders_at(index: Index, place: usize, slots: &VecDeque<Slot>) -> Option<u64>
    ensures { result ≡ holders_at index place slots.now.items }
{
    match slots.get(place) {
        None => None,
        Some(slot) => {
            if slot.index.0 == index.0 {
                Some(slot.holders)
            } else {
                None
            }
        }
    }
}

fn put_at(slots: &mut VecDeque<Slot>, place: usize, slot: Slot)
    requires { place < length slots.old.items }

    ensures items { slots.new.items ≡ slice_set slots.old.items place slot }
    ensures len { deque_len slots.new ≡ deque_len slots.old }
    ensures capacity { deque_capacity slots.new ≡ deque_capacity slots.old }
{
    slots[place] = slot;
}

fn insert_at(slots: &mut VecDeque<Slot>, place: usize, slot: Slot)
    requires room { deque_len slots.old < deque_capacity slots.old }
    requires place { place ≤ deque_len slots.old }

    ensures items { slots.new.items ≡ insert slots.old.items place slot }
    ensures len { deque_len slots.new ≡ deque_len slots.old + 1 }
    ensures capacity { deque_capacity slots.old ≤ deque_capacity slots.new }
{
    // Most come behind all others, where nothing moves.
    if place == slots.len() {
        slots.push_back_reserved(slot);
        return;
    }
    match slots.insert(place, slot) {
        Ok(()) => {}
        Err(_) => unreachable!(),
    }
}

/// An index has a holder more. True exactly where its slot was free.
pub fn add_holder(slots: &mut VecDeque<Slot>, index: Index) -> bool
    requires slots { AreFronted slots.old.items }
    requires room { deque_len slots.old < deque_capacity slots.old }
    requires count { length (held_of slots.old.items) + 1 < 2 ^ 64 }

    ensures gains { Gains index slots.old.items slots.new.items result }
    ensures len { deque_len slots.new ≤ deque_len slots.old + 1 }
    ensures capacity { deque_capacity slots.old ≤ deque_capacity slots.new }
{
    let place = place_of(index, slots);
    match holders_at(index, place, slots) {
        Some(holders) => {
            put_at(
                slots,
                place,
                Slot {
                    index,
                    holders: holders + 1,
                },
            );
            holders == 0
        }
        None => {
            insert_at(slots, place, Slot { index, holders: 1 });
            true
        }
    }
}

/// An index at a place where it has holders has one less. True exactly where its slot is free now.
pub fn remove_holder(slots: &mut VecDeque<Slot>, index: Index, place: usize, holders: u64) -> bool
    requires slots { AreFronted slots.old.items }
    requires place { place ≡ place_of index slots.old.items }
    requires there { holders_at index place slots.old.items ≡ Some holders }
    requires held { 0 < holders }

    ensures loses { Loses index slots.old.items slots.new.items result }
    ensures len { deque_len slots.new ≡ deque_len slots.old }
    ensures capacity { deque_capacity slots.new ≡ deque_capacity slots.old }
{
    put_at(
        slots,
        place,
        Slot {
            index,
            holders: holders - 1,
        },
    );
    holders == 1
}

/// The index of the first slot.
pub fn first_index(slots: &VecDeque<Slot>) -> Option<Index>
    ensures { option_map (λ index. index.0) result
        ≡ option_map (λ slot. slot.index.0) (slice_get slots.now.items 0) }
{
    match slots.get(0) {
        None => None,
        Some(slot) => Some(slot.index),
    }
}

fn is_front_free(slots: &VecDeque<Slot>) -> bool
    ensures { result ≡ is_front_free slots.now.items }
{
    match slots.front() {
        None => false,
        Some(slot) => slot.holders == 0,
    }
}

fn drop_front(slots: &mut VecDeque<Slot>)
    requires { is_front_free slots.old.items ≡ true }

    ensures trims { Trims slots.old.items slots.new.items }
    ensures len { deque_len slots.new < deque_len slots.old }
    ensures capacity { deque_capacity slots.new ≡ deque_capacity slots.old }
{
    slots.pop_front();
}

/// Takes out those that are free at the front.
pub fn trim_front(slots: &mut VecDeque<Slot>)
    ensures trims { Trims slots.old.items slots.new.items }
    ensures front { is_front_free slots.new.items ≡ false }
    ensures len { deque_len slots.new ≤ deque_len slots.old }
    ensures capacity { deque_capacity slots.new ≡ deque_capacity slots.old }
{
    'free: while is_front_free(slots) {
        drop_front(slots);
    }
}

/// Takes out all that are free.
pub fn compact(slots: &mut VecDeque<Slot>)
    ensures items { slots.new.items ≡ filter is_held slots.old.items }
    ensures len { deque_len slots.new ≤ deque_len slots.old }
    ensures capacity { deque_capacity slots.new ≡ deque_capacity slots.old }
{
    slots.retain(|slot| 0 < slot.holders);
}

/// The same slots.
pub fn copy_slots(alloc: Global, slots: &VecDeque<Slot>) -> Result<VecDeque<Slot>, Memory>
    ensures ok { IfOk result (λ twin. twin.items ≡ slots.now.items) }
    ensures want { IsOkUnless result Memory.Want }
{
    let mut twin = VecDeque::with_capacity(alloc, slots.len())?;
    'slots: for place in 0..slots.len() {
        twin.push_back(slots[place])?;
    }
    Ok(twin)
}
