ghost use Rattle.std.specs.Prelude.{◌≡◌, ◌++◌, ◌∷◌, [], IfOk, IsOkUnless, OnErr, OnOk, option_copied, option_map};
ghost use Rattle.qq_taker.specs.declared.heard.What.TheVariants as whats;
ghost use Rattle.qq_taker.specs.Takers.{Free, Gone, IsOffered, LooksAt, drop_at, give, hand, hear, hear_on, heard_of, held_by, is_free, is_free_by, listen, no_takers, seen_at, seen_there, take_heard};

use crate::handed::Handed;
use crate::heard::{Heard, Refusal, What};
use crate::taker::{Taker, Verdict};
use qq_base::{ConsumerId, Duplicate, Memory, QueueId};
use qq_entry::{AuditRow, Delivery};
use std::alloc::Global;
use std::marker::Model;
use std::mem;

/// A taker at its place.
#[derive(Drop)]
pub(crate) enum Place<T: Drop> {
    /// It may be given to a consumer.
    Free(T),
    /// It was given to one.
    Given(T),
    /// It was dropped.
    Gone,
}

impl<T: Taker> Place<T> {
    fn is_free(&self) -> bool
        ensures { result ≡ is_free_by (held_by T.seen self.now) }
    {
        match self {
            Place::Free(_) => true,
            Place::Given(_) => false,
            Place::Gone => false,
        }
    }

    fn taker(&self) -> Option<&T>
        ensures { option_map T.seen (option_copied result) ≡ seen_there (held_by T.seen self.now) }
    {
        match self {
            Place::Free(taker) => Some(taker),
            Place::Given(taker) => Some(taker),
            Place::Gone => None,
        }
    }

    // It is given to a consumer, where it may be.
    fn give(&mut self)
        ensures { held_by T.seen self.new ≡ hand (held_by T.seen self.old) }
    {
        let place = mem::replace(self, Place::Gone);
        *self = match place {
            Place::Free(taker) => Place::Given(taker),
            Place::Given(taker) => Place::Given(taker),
            Place::Gone => Place::Gone,
        };
    }

    // It is dropped.
    fn leave(&mut self)
        ensures { held_by T.seen self.new ≡ Gone }
    {
        *self = Place::Gone;
    }

    // It is offered a delivery, where it was given to a consumer.
    fn offer(&mut self, delivery: &Delivery) -> Result<Option<Verdict>, Memory>
        ensures ok { IfOk result (λ answer. LooksAt delivery.now answer
            (held_by T.seen self.old) (held_by T.seen self.new)) }
        ensures err { OnErr result (held_by T.seen self.new ≡ held_by T.seen self.old) }
        ensures want { IsOkUnless result Memory.Want }
    {
        match self {
            Place::Given(taker) => match taker.take(delivery) {
                Ok(verdict) => Ok(Some(verdict)),
                Err(cause) => Err(cause),
            },
            Place::Free(_) => Ok(None),
            Place::Gone => Ok(None),
        }
    }
}

// Something that is told of a queue is kept.
fn keep(kept: &mut Vec<Heard>, queue: QueueId, what: What) -> Result<(), Memory>
    ensures ok { OnOk result (kept.new.items
        ≡ kept.old.items ++ record { queue = queue; what = what } ∷ []) }
    ensures err { OnErr result (kept.new.items ≡ kept.old.items) }
    ensures want { IsOkUnless result Memory.Want }
{
    kept.push(Heard { queue, what })?;
    Ok(())
}

// A copy of a row of a queue's audit is kept.
fn keep_answer(
    alloc: Global,
    kept: &mut Vec<Heard>,
    queue: QueueId,
    row: &AuditRow,
) -> Result<(), Memory>
    ensures ok { OnOk result (kept.new.items
        ≡ kept.old.items ++ record { queue = queue; what = whats.Answer row.now } ∷ []) }
    ensures err { OnErr result (kept.new.items ≡ kept.old.items) }
    ensures want { IsOkUnless result Memory.Want }
{
    let row = row.copy(alloc)?;
    keep(kept, queue, What::Answer(row))
}

// A copy of a delivery is kept.
fn keep_delivery(
    alloc: Global,
    kept: &mut Vec<Heard>,
    queue: QueueId,
    consumer: ConsumerId,
    delivery: &Delivery,
) -> Result<(), Memory>
    ensures ok { OnOk result (kept.new.items ≡ kept.old.items ++ record {
      queue = queue;
      what = whats.Delivery (record { consumer = consumer; delivery = delivery.now });
    } ∷ []) }
    ensures err { OnErr result (kept.new.items ≡ kept.old.items) }
    ensures want { IsOkUnless result Memory.Want }
{
    let delivery = delivery.copy(alloc)?;
    keep(kept, queue, What::Delivery(Handed { consumer, delivery }))
}

/// The takers of a run, under the numbers 1, 2, 3 and so on. Each may be given to one consumer, once.
///
/// Beside them, who listens is told answers, deliveries to consumers without a taker, and that commands weren't given
/// to a leader. Contracts see of each taker whether it was given and what it has seen, and what was kept.
#[derive(Drop)]
pub struct Desk<T: Taker> {
    rows: Vec<Place<T>>,
    heard: Option<Vec<Heard>>,
}

impl<T: Taker> Model for Desk<T> {
    ghost use Rattle.qq_taker.specs.Takers.{Takers, heard_of, held_of};

    ghost Value = { Takers };

    ghost view = { λ d. record { held = held_of T.seen d.rows.items; heard = heard_of d.heard } };
}

impl<T: Taker> Desk<T> {
    /// No taker, and nobody listens. It takes no memory.
    pub fn new(alloc: Global) -> Self
        ensures { result ≡ no_takers }
    {
        Desk {
            rows: Vec::new(alloc),
            heard: None,
        }
    }

    /// Adds a taker that may be given to a consumer, under the next number. Out of memory, all is as before.
    pub fn add(&mut self, taker: T) -> Result<(), Memory>
        ensures ok { OnOk result (self.new
            ≡ record self.old { held = self.old.held ++ Free (T.seen taker) ∷ [] }) }
        ensures err { OnErr result (self.new ≡ self.old) }
        ensures want { IsOkUnless result Memory.Want }
    {
        self.rows.push(Place::Free(taker))?;
        Ok(())
    }

    /// Whether a taker of this number is there, and may be given to a consumer.
    pub fn is_free(&self, number: u32) -> bool
        ensures { result ≡ is_free number self.now }
    {
        if number == 0 {
            return false;
        }
        match self.rows.get(number as usize - 1) {
            None => false,
            Some(place) => place.is_free(),
        }
    }

    /// The taker of this number. None exactly where none has it, or it was dropped.
    pub fn taker(&self, number: u32) -> Option<&T>
        ensures { option_map T.seen (option_copied result) ≡ seen_at number self.now }
    {
        if number == 0 {
            return None;
        }
        match self.rows.get(number as usize - 1) {
            None => None,
            Some(place) => place.taker(),
        }
    }

    /// The taker of this number is given to a consumer, where it may be.
    pub fn give(&mut self, number: u32)
        ensures { self.new ≡ give number self.old }
    {
        if number == 0 {
            return;
        }
        let Some(place) = self.rows.get_mut(number as usize - 1) else {
            return;
        };
        place.give();
    }

    /// Offers a delivery to the taker of this number, and answers its verdict. None exactly where none of this number
    /// was given to a consumer, or it was dropped.
    ///
    /// - `ok`, `there`: it has seen this one more.
    /// - `err`: the taker was refused memory, and all is as before.
    pub fn offer(&mut self, number: u32, delivery: &Delivery) -> Result<Option<Verdict>, Memory>
        ensures ok { IfOk result (λ answer. IsOffered number delivery.now answer self.old self.new) }
        ensures err { OnErr result (self.new ≡ self.old) }
        ensures want { IsOkUnless result Memory.Want }
    {
        if number == 0 {
            return Ok(None);
        }
        let Some(place) = self.rows.get_mut(number as usize - 1) else {
            return Ok(None);
        };
        place.offer(delivery)
    }

    /// Drops the taker of this number, where there is one.
    pub fn drop_at(&mut self, number: u32)
        ensures { self.new ≡ drop_at number self.old }
    {
        if number == 0 {
            return;
        }
        let Some(place) = self.rows.get_mut(number as usize - 1) else {
            return;
        };
        place.leave();
    }

    /// From here on what is told is kept. What was kept before is dropped.
    pub fn listen(&mut self, alloc: Global)
        ensures { self.new ≡ listen self.old }
    {
        self.heard = Some(Vec::new(alloc));
    }

    /// The answer of a row of a queue's audit is told. Where nobody listens nothing is copied. Out of memory, all is as
    /// before.
    pub fn hear_answer(
        &mut self,
        alloc: Global,
        queue: QueueId,
        row: &AuditRow,
    ) -> Result<(), Memory>
        ensures ok { OnOk result (self.new
            ≡ hear (record { queue = queue; what = whats.Answer row.now }) self.old) }
        ensures err { OnErr result (self.new ≡ self.old) }
        ensures want { IsOkUnless result Memory.Want }
    {
        match &mut self.heard {
            None => Ok(()),
            Some(kept) => keep_answer(alloc, kept, queue, row),
        }
    }

    /// A delivery to a consumer without a taker is told. Where nobody listens nothing is copied. Out of memory, all is
    /// as before.
    pub fn hear_delivery(
        &mut self,
        alloc: Global,
        queue: QueueId,
        consumer: ConsumerId,
        delivery: &Delivery,
    ) -> Result<(), Memory>
        ensures ok { OnOk result (self.new ≡ hear (record {
          queue = queue;
          what = whats.Delivery (record { consumer = consumer; delivery = delivery.now });
        }) self.old) }
        ensures err { OnErr result (self.new ≡ self.old) }
        ensures want { IsOkUnless result Memory.Want }
    {
        match &mut self.heard {
            None => Ok(()),
            Some(kept) => keep_delivery(alloc, kept, queue, consumer, delivery),
        }
    }

    /// A session's command wasn't given to a queue's leader, and that is told. Out of memory, all is as before.
    pub fn hear_refusal(&mut self, queue: QueueId, session: u64, why: Refusal) -> Result<(), Memory>
        ensures ok { OnOk result (self.new
            ≡ hear (record { queue = queue; what = whats.Refused session why }) self.old) }
        ensures err { OnErr result (self.new ≡ self.old) }
        ensures want { IsOkUnless result Memory.Want }
    {
        match &mut self.heard {
            None => Ok(()),
            Some(kept) => keep(kept, queue, What::Refused { session, why }),
        }
    }

    /// What was kept, in order; from here on what comes next is kept. None exactly where nobody listens.
    pub fn take_heard(&mut self, alloc: Global) -> Option<Vec<Heard>>
        ensures heard { heard_of result ≡ self.old.heard }
        ensures rest { self.new ≡ take_heard self.old }
    {
        match &mut self.heard {
            None => None,
            Some(kept) => Some(mem::replace(kept, Vec::new(alloc))),
        }
    }

    /// What was kept is handed out, and what comes next is kept after this list. None is as if nobody listened.
    ///
    /// A caller that hears a call by itself begins with an empty list, and puts back what it was handed.
    pub fn hear_on(&mut self, list: Option<Vec<Heard>>) -> Option<Vec<Heard>>
        ensures heard { heard_of result ≡ self.old.heard }
        ensures rest { self.new ≡ hear_on (heard_of list) self.old }
    {
        mem::replace(&mut self.heard, list)
    }
}
