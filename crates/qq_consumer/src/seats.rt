//! The consumers' rows, and the way back to what they were at the last commit.
ghost use Rattle.std.specs.Prelude.{◌≡◌, List, ◌+◌, ◌-◌, ◌<◌, ◌≤◌, ◌∷◌, [], false, take, length, OnOk, IsOkUnless};
ghost use Rattle.std.specs.List.{AllByRecursion, IsDistinct};
ghost use Rattle.std.specs.Map.{keys_of};
ghost use Rattle.std.specs.VecDeque.{deque_len, deque_capacity};
ghost use Rattle.indexmap.specs.IndexMap.{spare};
ghost use Rattle.qq_base.specs.declared.ids.ConsumerId.{ConsumerId};
ghost use Rattle.qq_base.specs.Ids.{same_consumer};
ghost use Rattle.qq_consumer.specs.Joined.{AreJoined, CanUndoStep, CanUndo, HoldsBase, ComesBack, IsTracked, ones_of, bases_of, base_one, base_id, seen, undo_step, undone};
ghost use Rattle.qq_consumer.specs.declared.seat.Seat.{Seat};

use crate::seat::Seat;
use crate::step::Step;
use indexmap::IndexMap;
use qq_base::{ConsumerId, Memory};
use std::collections::VecDeque;

/// The seats under their ids, in the order of joining.
pub type Rows = IndexMap<ConsumerId, Seat>;

/// Makes room for so many steps more, and for one in the journal.
pub fn make_room(rows: &mut Rows, journal: &mut VecDeque<Step>, more: usize) -> Result<(), Memory>
    requires { more < 3 }

    ensures entries { rows.new.entries ≡ rows.old.entries }
    ensures unique { IsDistinct same_consumer (keys_of rows.new.entries) }
    ensures spare { spare rows.old ≤ spare rows.new }
    ensures steps { journal.new.items ≡ journal.old.items }
    ensures room { OnOk result (length journal.old.items + more ≤ spare rows.new) }
    ensures journal { OnOk result (deque_len journal.new < deque_capacity journal.new) }
    ensures want { IsOkUnless result Memory.Want }
{
    rows.reserve(journal.len() + more)?;
    journal.reserve(1)?;
    Ok(())
}

// A consumer, if it is there, is from now on what it is.
fn commit_seat(rows: &mut Rows, id: ConsumerId)
    requires { AreJoined rows.old.entries }

    ensures ones { ones_of rows.new.entries ≡ ones_of rows.old.entries }
    ensures joined { AreJoined rows.new.entries }
    ensures tracked { (touched : List ConsumerId) →
        AllByRecursion (IsTracked (id ∷ touched)) rows.old.entries
        → AllByRecursion (IsTracked touched) rows.new.entries }
    ensures spare { spare rows.new ≡ spare rows.old }
{
    let Some(seat) = rows.get_mut(&id) else {
        return;
    };
    seat.row.out.commit();
    seat.base = seat.row.consumer;
}

/// Those that were touched are from now on what they are.
pub fn commit_seats(rows: &mut Rows, touched: &mut VecDeque<ConsumerId>)
    requires joined { AreJoined rows.old.entries }
    requires tracked { AllByRecursion (IsTracked touched.old.items) rows.old.entries }

    ensures ones { ones_of rows.new.entries ≡ ones_of rows.old.entries }
    ensures joined { AreJoined rows.new.entries }
    ensures tracked { AllByRecursion (IsTracked []) rows.new.entries }
    ensures touched { touched.new.items ≡ [] }
    ensures spare { spare rows.new ≡ spare rows.old }
{
    'touched: while let Some(id) = touched.pop_front() {
        commit_seat(rows, id);
    }
}

// A consumer, if it is there, is again what it was.
fn undo_seat(rows: &mut Rows, id: ConsumerId)
    requires { AreJoined rows.old.entries }

    ensures bases { bases_of rows.new.entries ≡ bases_of rows.old.entries }
    ensures joined { AreJoined rows.new.entries }
    ensures tracked { (touched : List ConsumerId) →
        AllByRecursion (IsTracked (id ∷ touched)) rows.old.entries
        → AllByRecursion (IsTracked touched) rows.new.entries }
    ensures spare { spare rows.new ≡ spare rows.old }
{
    let Some(seat) = rows.get_mut(&id) else {
        return;
    };
    seat.row.out.undo();
    seat.row.consumer = seat.base;
}

/// Those that were touched are again what they were.
pub fn undo_seats(rows: &mut Rows, touched: &mut VecDeque<ConsumerId>)
    requires joined { AreJoined rows.old.entries }
    requires tracked { AllByRecursion (IsTracked touched.old.items) rows.old.entries }

    ensures bases { bases_of rows.new.entries ≡ bases_of rows.old.entries }
    ensures joined { AreJoined rows.new.entries }
    ensures tracked { AllByRecursion (IsTracked []) rows.new.entries }
    ensures touched { touched.new.items ≡ [] }
    ensures spare { spare rows.new ≡ spare rows.old }
{
    'touched: while let Some(id) = touched.pop_front() {
        undo_seat(rows, id);
    }
}

fn drop_last(rows: &mut Rows)
    ensures entries { rows.new.entries ≡ take (length rows.old.entries - 1) rows.old.entries }
    ensures unique { IsDistinct same_consumer (keys_of rows.new.entries) }
    ensures spare { spare rows.old ≤ spare rows.new }
{
    let last = rows.len().saturating_sub(1);
    rows.truncate(last);
}

// Whoever left comes back to its place, as it was.
fn put_back(rows: &mut Rows, place: usize, mut seat: Seat)
    requires base { AllByRecursion HoldsBase rows.old.entries }
    requires place { place ≤ length rows.old.entries }
    requires free { AllByRecursion (λ id. same_consumer seat.base.id id ≡ false)
        (seen base_id rows.old.entries) }
    requires room { 0 < spare rows.old }

    ensures entries { (back : Seat)
        × ComesBack seat back place rows.old.entries rows.new.entries }
    ensures unique { IsDistinct same_consumer (keys_of rows.new.entries) }
    ensures spare { spare rows.old ≤ spare rows.new + 1 }
{
    seat.row.out.undo();
    seat.row.consumer = seat.base;
    match rows.shift_insert(place, seat.base.id, seat) {
        Ok(_) => {}
        Err(_) => unreachable!(),
    }
}

// Who joined last leaves, or who left comes back.
fn undo_step(rows: &mut Rows, step: Step)
    requires joined { AreJoined rows.old.entries }
    requires can { CanUndoStep step (seen base_id rows.old.entries) }
    requires room { 0 < spare rows.old }

    ensures bases { bases_of rows.new.entries
        ≡ undo_step base_one step (bases_of rows.old.entries) }
    ensures ids { seen base_id rows.new.entries
        ≡ undo_step base_id step (seen base_id rows.old.entries) }
    ensures joined { AreJoined rows.new.entries }
    ensures tracked { (touched : List ConsumerId) →
        AllByRecursion (IsTracked touched) rows.old.entries
        → AllByRecursion (IsTracked touched) rows.new.entries }
    ensures spare { spare rows.old ≤ spare rows.new + 1 }
{
    match step {
        Step::Joined => drop_last(rows),
        Step::Left(place, seat) => put_back(rows, place, seat),
    }
}

/// Who joined leaves, and who left comes back.
pub fn undo_steps(rows: &mut Rows, journal: &mut VecDeque<Step>)
    requires joined { AreJoined rows.old.entries }
    requires can { CanUndo journal.old.items (seen base_id rows.old.entries) }
    requires room { length journal.old.items ≤ spare rows.old }

    ensures bases { bases_of rows.new.entries
        ≡ undone base_one journal.old.items (bases_of rows.old.entries) }
    ensures joined { AreJoined rows.new.entries }
    ensures tracked { (touched : List ConsumerId) →
        AllByRecursion (IsTracked touched) rows.old.entries
        → AllByRecursion (IsTracked touched) rows.new.entries }
    ensures journal { journal.new.items ≡ [] }
{
    'steps: while let Some(step) = journal.pop_front() {
        undo_step(rows, step);
    }
}
