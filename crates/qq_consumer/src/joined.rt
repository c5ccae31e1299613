ghost use Rattle.std.specs.Prelude.{◌≡◌, ◌<◌, ◌++◌, ◌∷◌, [], false, map, length, slice_get, IfSome, Some, None, IfOk, OnOk, OnErr, IsOkUnless, if◌then◌else◌};
ghost use Rattle.std.specs.List.{AllByRecursion};
ghost use Rattle.std.specs.Option.{option_copied, option_map};
ghost use Rattle.qq_model.specs.declared.place.Place.{Place};
ghost use Rattle.qq_parts.specs.Parts.{HasOut, AreApart};
ghost use Rattle.qq_parts.specs.Outs.{hand_to};
ghost use Rattle.qq_consumer.specs.Roster.{served_of, item_at, one_of, is_there, put_one, put_rest, taken_rows, CanCount, remove_one, first_of, is_one_of};
ghost use Rattle.qq_consumer.specs.Joined.{IsGiven};
ghost use Rattle.qq_consumer.specs.Turns.{waiting_turn};
ghost use Rattle.qq_consumer.specs.Next.{IsNextOf};

use crate::next::Next;
use crate::row::{ConsumerRow, copy_row, next_of, serve_one, take_ids, turn_of};
use crate::seat::Seat;
use crate::seats::{Rows, commit_seats, make_room, undo_seats, undo_steps};
use crate::step::Step;
use indexmap::IndexMap;
use qq_base::{ConsumerId, Memory, SessionId};
use qq_entry::ReadyRow;
use qq_model::Consumer;
use std::alloc::Global;
use std::collections::VecDeque;
use std::marker::Model;

/// The consumers under their ids, in the order of joining.
///
/// Contracts see them and their base: the consumers at the last commit. A consumer that changed is
/// touched, and knows what it was. Who joined and who left since is in the journal, the newest step
/// first. The rows have spare memory for each step, so that whoever left can come back.
#[derive(Drop)]
pub struct Joined {
    rows: Rows,
    journal: VecDeque<Step>,
    touched: VecDeque<ConsumerId>,
}

impl Model for Joined {
    ghost use Rattle.indexmap.specs.IndexMap.{spare};
    ghost use Rattle.qq_consumer.specs.Joined.{JoinedState, CanGoBack, ones_of, bases_of, base_one, undone};

    ghost Value = { JoinedState };

    ghost view = { λ j. record {
      served = ones_of j.rows.entries;
      base = undone base_one j.journal.items (bases_of j.rows.entries);
    } };

    ghost invariant = { λ j.
        CanGoBack j.rows.entries j.journal.items j.touched.items (spare j.rows) };
}

impl Joined {
    /// No consumers. It takes no memory.
    pub fn new(alloc: Global) -> Self
        ensures served { result.served ≡ [] }
        ensures base { result.base ≡ [] }
    {
        Joined {
            rows: IndexMap::new(alloc),
            journal: VecDeque::new(alloc),
            touched: VecDeque::new(alloc),
        }
    }

    /// How many there are. They have ids of their own, and what is out with each has ids that it
    /// was given.
    pub fn len(&self) -> usize
        ensures len { result ≡ length self.now.served }
        ensures apart { AreApart self.now.served }
        ensures out { AllByRecursion HasOut self.now.served }
    {
        self.rows.len()
    }

    /// The row at a place, in the order of joining. None exactly where there is none.
    pub fn row_at(&self, place: usize) -> Option<&ConsumerRow>
        ensures { option_map served_of (option_copied result) ≡ slice_get self.now.served place }
    {
        match self.rows.get_index(place) {
            None => None,
            Some((_, seat)) => Some(&seat.row),
        }
    }

    /// The row at a place that there is.
    pub fn row(&self, place: usize) -> &ConsumerRow
        requires { place < length self.now.served }

        ensures { slice_get self.now.served place ≡ Some (served_of result.now) }
    {
        match self.row_at(place) {
            Some(row) => row,
            None => unreachable!(),
        }
    }

    /// The row of a consumer. None exactly where it isn't there. Consumers have ids of their own.
    pub fn row_of(&self, id: ConsumerId) -> Option<&ConsumerRow>
        ensures value { option_map served_of (option_copied result) ≡ one_of id self.now.served }
        ensures apart { AreApart self.now.served }
    {
        match self.rows.get(&id) {
            None => None,
            Some(seat) => Some(&seat.row),
        }
    }

    /// What follows for a consumer, whose free credit was this before.
    pub fn next(&self, id: ConsumerId, before: u64) -> Next
        ensures { IsNextOf before (one_of id self.now.served) result }
    {
        let Some(row) = self.row_of(id) else {
            return Next::Stays;
        };
        next_of(row, before)
    }

    /// The turn of a consumer that may be served.
    pub fn turn_of(&self, id: ConsumerId) -> Option<u64>
        ensures { result ≡ waiting_turn self.now.served id }
    {
        match self.row_of(id) {
            None => None,
            Some(row) => turn_of(row),
        }
    }

    /// A consumer joins at the end. Nobody may have its id.
    pub fn push(&mut self, mut row: ConsumerRow) -> Result<(), Memory>
        requires free { is_there row.consumer.id self.old.served ≡ false }
        requires given { IsGiven row }

        ensures ok { OnOk result (self.new.served ≡ self.old.served ++ served_of row ∷ []) }
        ensures err { OnErr result (self.new.served ≡ self.old.served) }
        ensures base { self.new.base ≡ self.old.base }
        ensures want { IsOkUnless result Memory.Want }
    {
        row.out.commit();
        let seat = Seat {
            base: row.consumer,
            row,
        };
        if let Err(cause) = make_room(&mut self.rows, &mut self.journal, 2) {
            drop(seat);
            return Err(cause);
        }
        self.rows.insert(seat.base.id, seat)?;
        self.journal.push_front_reserved(Step::Joined);
        Ok(())
    }

    /// A message goes to a consumer, which gets this turn.
    pub fn hand_to(&mut self, turn: u64, message: ReadyRow, id: ConsumerId) -> Result<(), Memory>
        requires counts { IfSome (one_of id self.old.served) (λ one. CanCount one.consumer) }

        ensures served { OnOk result ((place : Place) →
            self.new.served ≡ hand_to turn (item_at place message) id self.old.served) }
        ensures err { OnErr result (self.new.served ≡ self.old.served) }
        ensures base { self.new.base ≡ self.old.base }
        ensures want { IsOkUnless result Memory.Want }
    {
        let Ok(()) = self.touched.push_front(id) else {
            drop(message);
            return Err(Memory::Want);
        };
        let Some(seat) = self.rows.get_mut(&id) else {
            drop(message);
            return Ok(());
        };
        serve_one(&mut seat.row, turn, message)
    }

    /// The consumer of an id is this one. The id of its next delivery stays.
    pub fn put(&mut self, new: Consumer) -> Result<(), Memory>
        requires { IfSome (one_of new.id self.old.served) (λ one. new.next_id
            ≡ one.consumer.next_id) }

        ensures served { OnOk result (self.new.served ≡ put_one new self.old.served) }
        ensures err { OnErr result (self.new.served ≡ self.old.served) }
        ensures base { self.new.base ≡ self.old.base }
        ensures want { IsOkUnless result Memory.Want }
    {
        self.touched.push_front(new.id)?;
        let Some(seat) = self.rows.get_mut(&new.id) else {
            return Ok(());
        };
        seat.row.consumer = new;
        Ok(())
    }

    /// Those of the ids that are out with a consumer are taken out, in the given order, and put
    /// behind these messages. After an error some may have been taken out.
    pub fn take_ids(
        &mut self,
        id: ConsumerId,
        ids: &[u64],
        rows: &mut VecDeque<ReadyRow>,
    ) -> Result<(), Memory>
        ensures rows { OnOk result (IfSome (one_of id self.old.served) (λ one.
            rows.new.items ≡ rows.old.items ++ taken_rows ids.now one)) }
        ensures served { OnOk result (self.new.served ≡ put_rest id ids.now self.old.served) }
        ensures base { self.new.base ≡ self.old.base }
        ensures want { IsOkUnless result Memory.Want }
    {
        self.touched.push_front(id)?;
        let Some(seat) = self.rows.get_mut(&id) else {
            return Ok(());
        };
        take_ids(&mut seat.row, ids, rows)
    }

    /// A consumer leaves, with what is out with it.
    pub fn leave(&mut self, id: ConsumerId) -> Result<(), Memory>
        ensures served { OnOk result (self.new.served ≡ remove_one id self.old.served) }
        ensures err { OnErr result (self.new.served ≡ self.old.served) }
        ensures base { self.new.base ≡ self.old.base }
        ensures want { IsOkUnless result Memory.Want }
    {
        make_room(&mut self.rows, &mut self.journal, 1)?;
        let Some((place, _, seat)) = self.rows.shift_remove_full(&id) else {
            return Ok(());
        };
        self.journal.push_front_reserved(Step::Left(place, seat));
        Ok(())
    }

    /// Makes these consumers the base. It takes no memory, and time for the changes since the last
    /// commit.
    pub fn commit(&mut self)
        ensures served { self.new.served ≡ self.old.served }
        ensures base { self.new.base ≡ self.old.served }
    {
        commit_seats(&mut self.rows, &mut self.touched);
        self.journal.clear();
    }

    /// Makes the base the consumers again. It takes no memory.
    pub fn undo(&mut self)
        ensures served { self.new.served ≡ self.old.base }
        ensures base { self.new.base ≡ self.old.base }
    {
        undo_steps(&mut self.rows, &mut self.journal);
        undo_seats(&mut self.rows, &mut self.touched);
    }

    fn is_at(&self, session: SessionId, place: usize) -> Option<ConsumerId>
        requires { place < length self.now.served }

        ensures { IfSome (slice_get self.now.served place) (λ one. result
            ≡ (if is_one_of session one then Some one.consumer.id else None)) }
    {
        let Some(row) = self.row_at(place) else {
            return None;
        };
        if row.consumer.id.session == session {
            Some(row.consumer.id)
        } else {
            None
        }
    }

    /// The longest joined consumer of a session. Consumers have ids of their own.
    pub fn first_of(&self, session: SessionId) -> Option<ConsumerId>
        ensures apart { AreApart self.now.served }
        ensures value { result
            ≡ option_map (λ one. one.consumer.id) (first_of session self.now.served) }
    {
        'rows: for place in 0..self.len() {
            if let Some(id) = self.is_at(session, place) {
                return Some(id);
            }
        }
        None
    }

    // Puts a copy of each consumer behind none.
    fn copy_into(&self, alloc: Global, twin: &mut Joined) -> Result<(), Memory>
        requires { twin.old.served ≡ [] }

        ensures served { OnOk result (twin.new.served ≡ self.now.served) }
        ensures want { IsOkUnless result Memory.Want }
    {
        'rows: for place in 0..self.len() {
            twin.push(copy_row(alloc, self.row(place))?)?;
        }
        Ok(())
    }

    /// The same consumers, with copies of what is out with them.
    pub fn copy(&self, alloc: Global) -> Result<Self, Memory>
        ensures ok { IfOk result (λ twin. twin.served ≡ self.now.served) }
        ensures base { IfOk result (λ twin. twin.base ≡ self.now.served) }
        ensures want { IsOkUnless result Memory.Want }
    {
        let mut twin = Joined::new(alloc);
        self.copy_into(alloc, &mut twin)?;
        twin.commit();
        Ok(twin)
    }
}
