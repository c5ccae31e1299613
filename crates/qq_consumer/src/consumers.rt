ghost use Rattle.std.specs.Prelude.{◌≡◌, ◌+◌, ◌<◌, ◌^◌, ◌++◌, ◌∷◌, [], false, true, map, length, slice_get, is_some, IfSome, IfOk, IfErr, IsOkUnless, Some, None, OnOk, OnErr, nat_eq};
ghost use Rattle.std.specs.List.{AllByRecursion};
ghost use Rattle.std.specs.Option.{option_copied, option_map};
ghost use Rattle.qq_entry.specs.declared.command.Mode.TheVariants.{Link};
ghost use Rattle.qq_model.specs.declared.place.Place.{Place};
ghost use Rattle.qq_parts.specs.Parts.{HasOut, AreApart, consumer_at};
ghost use Rattle.qq_parts.specs.Consumers.{needed_one};
ghost use Rattle.qq_service.specs.Next.{next};
ghost use Rattle.qq_consumer.specs.Roster.{served_of, roster_of, item_at, one_of, is_there, standing_one, no_consumers, join, subscribe_refusal, is_spent, is_full, IsRefusal, check_out, next_id_at, CanCount, CanDrain, HoldsAt, set_credit, give_credit, credit_fault, drain, drained, link_credit_at, cancel, is_current_at, end, first_of, take_out, taken_rows, IsBack, StaysUnsubscribed, StaysUncredited, IsCreditFault};
ghost use Rattle.qq_consumer.specs.Numbers.{AreBelow, IsFree};
ghost use Rattle.qq_consumer.specs.Turns.{waiting_turn, leave, enter, place_in, HasDrawn, HaveTwoTurns, HaveTurns};

use crate::fault::{CreditFault, SubscribeFault};
use crate::joined::Joined;
use crate::next::Next;
use crate::rising::Rising;
use crate::row::{
    ConsumerRow, begins_to_wait, copy_row, credit_of_one, new_consumer, standing_one, turn_of,
};
use qq_base::{ConsumerId, Memory, SessionId};
use qq_entry::{Cause, Mode, ReadyRow, Standing, Table};
use qq_model::{Consumer, MOST_CONSUMERS};
use std::alloc::Global;
use std::collections::VecDeque;
use std::marker::Model;

/// The consumers of a queue, in the order of joining, each with what is out with it.
///
/// Those that may be served wait in a queue by turn: a consumer that gets a turn waits behind all
/// others, and the first is served next. Contracts see the consumers as the parts of a queue have
/// them, with how many turns were drawn, and their base: what they were at the last commit. `undo`
/// makes them the base again, and takes no memory. A call that runs out of memory in its middle has
/// undone all by itself.
#[derive(Drop)]
pub struct Consumers {
    joined: Joined,
    waiting: Rising<ConsumerId>,
    turns: u64,
    base_turns: u64,
}

impl Model for Consumers {
    ghost use Rattle.qq_consumer.specs.Roster.{ConsumersState, roster_of};
    ghost use Rattle.qq_consumer.specs.Turns.{AreKept};

    ghost Value = { ConsumersState };

    ghost view = { λ c. record {
      roster = roster_of c.joined.served c.turns;
      base = roster_of c.joined.base c.base_turns;
    } };

    ghost invariant = { λ c. AreKept c.waiting (roster_of c.joined.served c.turns)
        (roster_of c.joined.base c.base_turns) };
}

// The consumer of a turn waits no more.
fn leave(waiting: &mut Rising<ConsumerId>, turn: Option<u64>) -> Result<(), Memory>
    ensures items { OnOk result (waiting.new.items ≡ leave turn waiting.old.items) }
    ensures err { OnErr result (waiting.new.items ≡ waiting.old.items) }
    ensures base { waiting.new.base ≡ waiting.old.base }
    ensures want { IsOkUnless result Memory.Want }
{
    if let Some(turn) = turn {
        waiting.take(turn)?;
    }
    Ok(())
}

// A consumer with a turn waits behind all others.
fn enter(waiting: &mut Rising<ConsumerId>, id: ConsumerId, turn: Option<u64>) -> Result<(), Memory>
    requires below { IfSome turn (λ n. AreBelow n waiting.old.items) }

    ensures items { OnOk result (waiting.new.items ≡ enter id turn waiting.old.items) }
    ensures err { OnErr result (waiting.new.items ≡ waiting.old.items) }
    ensures base { waiting.new.base ≡ waiting.old.base }
    ensures want { IsOkUnless result Memory.Want }
{
    if let Some(turn) = turn {
        waiting.push(turn, id)?;
    }
    Ok(())
}

// A consumer with a turn waits in the place of its turn.
fn place_in(
    waiting: &mut Rising<ConsumerId>,
    id: ConsumerId,
    turn: Option<u64>,
) -> Result<(), Memory>
    requires free { IfSome turn (λ n. IsFree n waiting.old.items) }

    ensures items { OnOk result (waiting.new.items ≡ place_in id turn waiting.old.items) }
    ensures err { OnErr result (waiting.new.items ≡ waiting.old.items) }
    ensures base { waiting.new.base ≡ waiting.old.base }
    ensures want { IsOkUnless result Memory.Want }
{
    if let Some(turn) = turn {
        waiting.insert(turn, id)?;
    }
    Ok(())
}

// Makes consumers whose change ran out of memory, and their queue, what they were at the last commit.
fn take_back(joined: &mut Joined, waiting: &mut Rising<ConsumerId>)
    ensures served { joined.new.served ≡ joined.old.base }
    ensures base { joined.new.base ≡ joined.old.base }
    ensures items { waiting.new.items ≡ waiting.old.base }
    ensures waiting { waiting.new.base ≡ waiting.old.base }
{
    joined.undo();
    waiting.undo();
}

fn is_zero(credit: u64) -> bool
    ensures { result ≡ nat_eq credit 0 }
{
    credit == 0
}

fn drained(consumer: Consumer) -> Consumer
    requires { CanDrain consumer }

    ensures { result ≡ drained consumer }
{
    Consumer {
        credit: 0,
        count: consumer.count + consumer.credit,
        ..consumer
    }
}

impl Consumers {
    /// No consumers. It takes no memory.
    pub fn new(alloc: Global) -> Self
        ensures roster { result.roster ≡ no_consumers }
        ensures base { result.base ≡ no_consumers }
    {
        Consumers {
            joined: Joined::new(alloc),
            waiting: Rising::new(alloc),
            turns: 0,
            base_turns: 0,
        }
    }

    /// The consumers of these rows, in the order of joining, of which so many turns were drawn. They
    /// have ids of their own, what is out with each has ids that it was given, and one that was
    /// cancelled has something out. Those that may be served have turns of their own, which were drawn.
    pub fn from_parts(alloc: Global, rows: Vec<ConsumerRow>, turns: u64) -> Result<Self, Memory>
        requires apart { AreApart (map served_of rows.items) }
        requires out { AllByRecursion HasOut (map served_of rows.items) }
        requires needed { AllByRecursion (λ one. needed_one one ≡ true) (map served_of rows.items) }
        requires turns { HaveTurns (roster_of (map served_of rows.items) turns) }

        ensures ok { IfOk result (λ consumers.
            consumers.roster ≡ roster_of (map served_of rows.items) turns) }
        ensures base { IfOk result (λ consumers.
            consumers.base ≡ roster_of (map served_of rows.items) turns) }
        ensures want { IsOkUnless result Memory.Want }
    {
        let mut consumers = Consumers {
            joined: Joined::new(alloc),
            waiting: Rising::new(alloc),
            turns,
            base_turns: turns,
        };
        let mut rows = VecDeque::from_vec(rows);
        'rows: while let Some(row) = rows.pop_front() {
            consumers.put_back(row)?;
        }
        consumers.commit();
        Ok(consumers)
    }

    // A consumer joins at the end with the turn that it has.
    fn put_back(&mut self, row: ConsumerRow) -> Result<(), Memory>
        requires free { is_there row.consumer.id self.old.roster.served ≡ false }
        requires out { HasOut (served_of row) }
        requires needed { needed_one (served_of row) ≡ true }
        requires drawn { HasDrawn self.old.roster.turns (served_of row) }
        requires turns { AllByRecursion (λ one. HaveTwoTurns one (served_of row))
            self.old.roster.served }

        ensures ok { OnOk result (self.new.roster
            ≡ roster_of (self.old.roster.served ++ served_of row ∷ []) self.old.roster.turns) }
        ensures want { IsOkUnless result Memory.Want }
    {
        let id = row.consumer.id;
        let turn = turn_of(&row);
        self.joined.push(row)?;
        if let Err(cause) = place_in(&mut self.waiting, id, turn) {
            take_back(&mut self.joined, &mut self.waiting);
            self.turns = self.base_turns;
            return Err(cause);
        }
        Ok(())
    }

    /// How many consumers there are. They are as `from_parts` asks for.
    pub fn len(&self) -> usize
        ensures len { result ≡ length self.now.roster.served }
        ensures apart { AreApart self.now.roster.served }
        ensures out { AllByRecursion HasOut self.now.roster.served }
        ensures needed { AllByRecursion (λ one. needed_one one ≡ true) self.now.roster.served }
        ensures turns { HaveTurns self.now.roster }
    {
        self.joined.len()
    }

    /// The same consumers and turns, with copies of what is out, committed.
    pub fn copy(&self, alloc: Global) -> Result<Self, Memory>
        ensures ok { IfOk result (λ twin. twin.roster ≡ self.now.roster) }
        ensures base { IfOk result (λ twin. twin.base ≡ self.now.roster) }
        ensures want { IsOkUnless result Memory.Want }
    {
        // What owns most is made last, so that little is alive where a copy fails.
        let waiting = self.waiting.copy(alloc)?;
        Ok(Consumers {
            joined: self.joined.copy(alloc)?,
            waiting,
            turns: self.turns,
            base_turns: self.turns,
        })
    }

    /// How many turns were drawn.
    pub fn turns(&self) -> u64
        ensures { result ≡ self.now.roster.turns }
    {
        self.turns
    }

    /// A consumer by its place in the order of joining. None exactly where there is none.
    pub fn row_at(&self, place: usize) -> Option<&ConsumerRow>
        ensures { option_map served_of (option_copied result)
            ≡ slice_get self.now.roster.served place }
    {
        self.joined.row_at(place)
    }

    /// The consumer of an id. None exactly where it isn't there.
    pub fn row_of(&self, id: ConsumerId) -> Option<&ConsumerRow>
        ensures { option_map served_of (option_copied result)
            ≡ one_of id self.now.roster.served }
    {
        self.joined.row_of(id)
    }

    /// The next consumer of a queue without a single active one: of those that aren't cancelled and
    /// have free credit the one of least turn. None exactly where nobody may be served.
    pub fn next_waiting(&self) -> Option<ConsumerId>
        ensures { result ≡ next false (map standing_one self.now.roster.served) }
    {
        if self.joined.len() == 0 {
            return None;
        }
        match self.waiting.get(0) {
            None => None,
            Some(one) => Some(one.item),
        }
    }

    /// Makes these consumers the base. It takes no memory, and time for the changes since the last
    /// commit.
    pub fn commit(&mut self)
        ensures roster { self.new.roster ≡ self.old.roster }
        ensures base { self.new.base ≡ self.old.roster }
    {
        self.joined.commit();
        self.waiting.commit();
        self.base_turns = self.turns;
    }

    /// Makes the base the consumers again. It takes no memory.
    pub fn undo(&mut self)
        ensures roster { self.new.roster ≡ self.old.base }
        ensures base { self.new.base ≡ self.old.base }
    {
        take_back(&mut self.joined, &mut self.waiting);
        self.turns = self.base_turns;
    }

    fn is_spent(&self, id: ConsumerId, greatest: u32) -> bool
        ensures { result ≡ is_spent id greatest self.now.roster }
    {
        id.tag <= greatest || self.joined.row_of(id).is_some()
    }

    fn is_full(&self) -> bool
        ensures { result ≡ is_full self.now.roster }
    {
        MOST_CONSUMERS <= self.joined.len() as u64
    }

    fn join(&mut self, alloc: Global, id: ConsumerId, mode: Mode) -> Result<(), Memory>
        requires free { is_there id self.old.roster.served ≡ false }
        requires turns { self.old.roster.turns + 1 < 2 ^ 64 }

        ensures ok { OnOk result (self.new.roster ≡ join id mode self.old.roster) }
        ensures err { OnErr result (IsBack self.old self.new) }
        ensures base { self.new.base ≡ self.old.base }
        ensures want { IsOkUnless result Memory.Want }
    {
        let turn = self.turns + 1;
        let consumer = new_consumer(id, mode, turn);
        let row = ConsumerRow {
            consumer,
            out: Rising::new(alloc),
        };
        let waits = turn_of(&row);
        self.joined.push(row)?;
        if let Err(cause) = enter(&mut self.waiting, id, waits) {
            take_back(&mut self.joined, &mut self.waiting);
            self.turns = self.base_turns;
            return Err(cause);
        }
        self.turns = turn;
        Ok(())
    }

    /// A consumer joins at the end, and draws a turn. `greatest` is the greatest tag that its session
    /// used. There has to be a turn.
    pub fn subscribe(
        &mut self,
        alloc: Global,
        id: ConsumerId,
        mode: Mode,
        greatest: u32,
    ) -> Result<(), SubscribeFault>
        requires { self.old.roster.turns + 1 < 2 ^ 64 }

        ensures fits { OnOk result (subscribe_refusal id greatest self.old.roster ≡ None) }
        ensures ok { OnOk result (self.new.roster ≡ join id mode self.old.roster) }
        ensures err { IfErr result (λ fault. StaysUnsubscribed fault self.old self.new) }
        ensures cause { IfErr result (λ fault.
            IsRefusal fault (subscribe_refusal id greatest self.old.roster)) }
        ensures base { self.new.base ≡ self.old.base }
    {
        if self.is_spent(id, greatest) {
            return Err(SubscribeFault::NumberSpent);
        }
        if self.is_full() {
            return Err(SubscribeFault::ConsumersFull);
        }
        match self.join(alloc, id, mode) {
            Ok(()) => Ok(()),
            Err(_) => Err(SubscribeFault::Memory),
        }
    }

    fn next_id_of(&self, id: ConsumerId) -> u64
        ensures { result ≡ next_id_at id self.now.roster }
    {
        match self.joined.row_of(id) {
            None => 0,
            Some(row) => row.consumer.next_id,
        }
    }

    /// A message goes to a consumer that may be served, which uses a credit and draws a turn.
    /// Answers the id of the delivery. There have to be numbers.
    pub fn check_out(&mut self, id: ConsumerId, row: ReadyRow) -> Result<u64, Memory>
        requires may { is_some (waiting_turn self.old.roster.served id) ≡ true }
        requires counts { HoldsAt CanCount id self.old.roster }
        requires turns { self.old.roster.turns + 1 < 2 ^ 64 }

        ensures id { IfOk result (λ number. number ≡ next_id_at id self.old.roster) }
        ensures ok { OnOk result ((place : Place) →
            self.new.roster ≡ check_out id (item_at place row) self.old.roster) }
        ensures err { OnErr result (IsBack self.old self.new) }
        ensures base { self.new.base ≡ self.old.base }
        ensures want { IsOkUnless result Memory.Want }
    {
        let number = self.next_id_of(id);
        let turn = self.turns + 1;
        if let Err(cause) = leave(&mut self.waiting, self.joined.turn_of(id)) {
            drop(row);
            return Err(cause);
        }
        if let Err(cause) = self.joined.hand_to(turn, row, id) {
            take_back(&mut self.joined, &mut self.waiting);
            self.turns = self.base_turns;
            return Err(cause);
        }
        if let Err(cause) = enter(&mut self.waiting, id, self.joined.turn_of(id)) {
            take_back(&mut self.joined, &mut self.waiting);
            self.turns = self.base_turns;
            return Err(cause);
        }
        self.turns = turn;
        Ok(number)
    }

    fn set_credit(&mut self, consumer: Consumer, credit: u64) -> Result<(), Memory>
        requires there { option_map consumer_at (one_of consumer.id self.old.roster.served)
            ≡ Some consumer }
        requires apart { AreApart self.old.roster.served }
        requires link { consumer.mode ≡ Link }
        requires current { consumer.cancelled ≡ false }
        requires turns { self.old.roster.turns + 1 < 2 ^ 64 }

        ensures ok { OnOk result (self.new.roster ≡ set_credit credit consumer self.old.roster) }
        ensures err { OnErr result (IsBack self.old self.new) }
        ensures base { self.new.base ≡ self.old.base }
        ensures want { IsOkUnless result Memory.Want }
    {
        if begins_to_wait(consumer.credit, credit) {
            let turn = self.turns + 1;
            self.joined.put(Consumer {
                credit,
                turn,
                ..consumer
            })?;
            if let Err(cause) = enter(&mut self.waiting, consumer.id, Some(turn)) {
                take_back(&mut self.joined, &mut self.waiting);
                self.turns = self.base_turns;
                return Err(cause);
            }
            self.turns = turn;
            return Ok(());
        }
        if is_zero(credit) {
            leave(&mut self.waiting, self.joined.turn_of(consumer.id))?;
            if let Err(cause) = self.joined.put(Consumer { credit, ..consumer }) {
                take_back(&mut self.joined, &mut self.waiting);
                self.turns = self.base_turns;
                return Err(cause);
            }
            return Ok(());
        }
        self.joined.put(Consumer { credit, ..consumer })?;
        Ok(())
    }

    /// A consumer's link credit becomes what its receiver counted, and gives, less what was
    /// delivered (AMQP 1.0, section 2.6.7). It draws a turn where it had none. `NoConsumer` refuses
    /// it exactly where the consumer isn't there or was cancelled, and `WrongMode` where it has a
    /// prefetch. There has to be a turn.
    pub fn credit(&mut self, id: ConsumerId, count: u32, credit: u32) -> Result<(), CreditFault>
        requires turns { self.old.roster.turns + 1 < 2 ^ 64 }

        ensures fits { OnOk result (credit_fault id self.old.roster ≡ None) }
        ensures ok { OnOk result (self.new.roster
            ≡ give_credit id (count + credit) self.old.roster) }
        ensures err { IfErr result (λ fault. StaysUncredited fault self.old self.new) }
        ensures cause { IfErr result (λ fault.
            IsCreditFault fault (credit_fault id self.old.roster)) }
        ensures base { self.new.base ≡ self.old.base }
    {
        let Some(row) = self.joined.row_of(id) else {
            return Err(CreditFault::Refused(Cause::NoConsumer));
        };
        let consumer = row.consumer;
        if consumer.cancelled {
            return Err(CreditFault::Refused(Cause::NoConsumer));
        }
        match consumer.mode {
            Mode::Prefetch(_) => return Err(CreditFault::Refused(Cause::WrongMode)),
            Mode::Link => {}
        }
        let total = u64::from(count) + u64::from(credit);
        match self.set_credit(consumer, total.saturating_sub(consumer.count)) {
            Ok(()) => Ok(()),
            Err(_) => Err(CreditFault::Memory),
        }
    }

    /// The link credit that is left counts as delivered (AMQP 1.0, section 2.6.7), and is answered.
    /// 0, and nothing changes, where there is no such consumer with link credit. The count has to
    /// fit 64 bits.
    pub fn drain(&mut self, id: ConsumerId) -> Result<u64, Memory>
        requires { HoldsAt CanDrain id self.old.roster }

        ensures value { IfOk result (λ credit. credit ≡ link_credit_at id self.old.roster) }
        ensures ok { OnOk result (self.new.roster ≡ drain id self.old.roster) }
        ensures err { OnErr result (IsBack self.old self.new) }
        ensures base { self.new.base ≡ self.old.base }
        ensures want { IsOkUnless result Memory.Want }
    {
        let Some(row) = self.joined.row_of(id) else {
            return Ok(0);
        };
        let consumer = row.consumer;
        match consumer.mode {
            Mode::Prefetch(_) => return Ok(0),
            Mode::Link => {}
        }
        leave(&mut self.waiting, self.joined.turn_of(id))?;
        if let Err(cause) = self.joined.put(drained(consumer)) {
            take_back(&mut self.joined, &mut self.waiting);
            self.turns = self.base_turns;
            return Err(cause);
        }
        Ok(consumer.credit)
    }

    /// A consumer is cancelled: it gets no more, and leaves where nothing is out with it. False
    /// exactly where it isn't there, or was cancelled before; then nothing changes.
    pub fn cancel(&mut self, id: ConsumerId) -> Result<bool, Memory>
        ensures value { IfOk result (λ did. did ≡ is_current_at id self.old.roster) }
        ensures ok { OnOk result (self.new.roster ≡ cancel id self.old.roster) }
        ensures err { OnErr result (IsBack self.old self.new) }
        ensures base { self.new.base ≡ self.old.base }
        ensures want { IsOkUnless result Memory.Want }
    {
        let Some(row) = self.joined.row_of(id) else {
            return Ok(false);
        };
        let consumer = row.consumer;
        let is_idle = row.out.is_empty();
        if consumer.cancelled {
            return Ok(false);
        }
        leave(&mut self.waiting, self.joined.turn_of(id))?;
        if is_idle {
            if let Err(cause) = self.joined.leave(id) {
                take_back(&mut self.joined, &mut self.waiting);
                self.turns = self.base_turns;
                return Err(cause);
            }
            return Ok(true);
        }
        if let Err(cause) = self.joined.put(Consumer {
            cancelled: true,
            ..consumer
        }) {
            take_back(&mut self.joined, &mut self.waiting);
            self.turns = self.base_turns;
            return Err(cause);
        }
        Ok(true)
    }

    /// The longest joined consumer of a session leaves, with what is out with it, and is answered. None
    /// exactly where the session has none. Called until then, it ends the session's consumers.
    pub fn end(&mut self, alloc: Global, session: SessionId) -> Result<Option<ConsumerRow>, Memory>
        ensures value { IfOk result (λ row. option_map served_of row
            ≡ first_of session self.old.roster.served) }
        ensures ok { OnOk result (self.new.roster ≡ end session self.old.roster) }
        ensures err { OnErr result (IsBack self.old self.new) }
        ensures base { self.new.base ≡ self.old.base }
        ensures want { IsOkUnless result Memory.Want }
    {
        let Some(id) = self.joined.first_of(session) else {
            return Ok(None);
        };
        let Some(row) = self.joined.row_of(id) else {
            return Err(Memory::Want);
        };
        // The row itself is kept, to be put back.
        let twin = copy_row(alloc, row)?;
        leave(&mut self.waiting, self.joined.turn_of(id))?;
        if let Err(cause) = self.joined.leave(id) {
            take_back(&mut self.joined, &mut self.waiting);
            self.turns = self.base_turns;
            return Err(cause);
        }
        Ok(Some(twin))
    }

    /// Takes out those of the ids that are out with a consumer, in the given order; the others are
    /// passed over. A consumer that was cancelled leaves where nothing is out with it any more, and
    /// one that had no free credit and has some now draws a turn. None exactly where the consumer
    /// isn't there. There has to be a turn.
    pub fn take_out(
        &mut self,
        alloc: Global,
        id: ConsumerId,
        ids: &[u64],
    ) -> Result<Option<VecDeque<ReadyRow>>, Memory>
        requires { self.old.roster.turns + 1 < 2 ^ 64 }

        ensures rows { IfOk result (λ rows. option_map (λ r. r.items) rows
            ≡ option_map (taken_rows ids.now) (one_of id self.old.roster.served)) }
        ensures roster { OnOk result (self.new.roster ≡ take_out id ids.now self.old.roster) }
        ensures err { OnErr result (IsBack self.old self.new) }
        ensures base { self.new.base ≡ self.old.base }
        ensures want { IsOkUnless result Memory.Want }
    {
        let Some(row) = self.joined.row_of(id) else {
            return Ok(None);
        };
        let before = credit_of_one(row);
        let mut rows = VecDeque::with_capacity(alloc, ids.len())?;
        if let Err(cause) = self.joined.take_ids(id, ids, &mut rows) {
            take_back(&mut self.joined, &mut self.waiting);
            self.turns = self.base_turns;
            drop(rows);
            return Err(cause);
        }
        match self.joined.next(id, before) {
            Next::Stays => Ok(Some(rows)),
            Next::Leaves => {
                if let Err(cause) = self.joined.leave(id) {
                    take_back(&mut self.joined, &mut self.waiting);
                    self.turns = self.base_turns;
                    drop(rows);
                    return Err(cause);
                }
                Ok(Some(rows))
            }
            Next::Draws(consumer) => {
                let turn = self.turns + 1;
                if let Err(cause) = self.joined.put(Consumer { turn, ..consumer }) {
                    take_back(&mut self.joined, &mut self.waiting);
                    self.turns = self.base_turns;
                    drop(rows);
                    return Err(cause);
                }
                if let Err(cause) = enter(&mut self.waiting, id, self.joined.turn_of(id)) {
                    take_back(&mut self.joined, &mut self.waiting);
                    self.turns = self.base_turns;
                    drop(rows);
                    return Err(cause);
                }
                self.turns = turn;
                Ok(Some(rows))
            }
        }
    }
}

impl Table for Consumers {
    ghost use Rattle.std.specs.Prelude.{map};
    ghost use Rattle.qq_consumer.specs.Roster.{standing_one};

    ghost standings = { λ c. map standing_one c.roster.served };

    fn count(&self) -> usize {
        self.joined.len()
    }

    fn standing(&self, place: usize) -> Standing {
        standing_one(self.joined.row(place))
    }
}
