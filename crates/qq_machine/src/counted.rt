ghost use Rattle.std.specs.Prelude.{◌≡◌, ◌+◌, ◌-◌, ◌<◌, ◌≤◌, ◌^◌, ◌++◌, [], true, length, slice_get, is_some, IfOk, IfErr, IsOkUnless, OnOk, None};
ghost use Rattle.std.specs.Option.{option_copied, option_map, option_map_or};
ghost use Rattle.std.specs.List.{AllByRecursion};
ghost use Rattle.qq_model.specs.declared.place.Place.{Place};
ghost use Rattle.qq_parts.specs.Parts.{HasOut, AreApart, outs};
ghost use Rattle.qq_service.specs.Next.{next};
ghost use Rattle.std.specs.Prelude.{false, map};
ghost use Rattle.qq_consumer.specs.Roster.{served_of, item_at, one_of, standing_one, no_consumers, join, subscribe_refusal, IsRefusal, check_out, next_id_at, CanCount, CanDrain, HoldsAt, give_credit, credit_fault, IsCreditFault, drain, link_credit_at, cancel, is_current_at, end, first_of, take_out, taken_rows};
ghost use Rattle.qq_consumer.specs.Turns.{waiting_turn};
ghost use Rattle.qq_live.specs.Indices.{Adds, Removes, HasRoomFor};
ghost use Rattle.qq_ledger.specs.Ledger.{message_index, out_indices, Balances};
ghost use Rattle.qq_machine.specs.Counted.{StaysIfRefused, ended_indices};

use crate::commands::add;
use crate::queue::next_number;
use qq_base::{ConsumerId, Index, Memory, SessionId};
use qq_consumer::{ConsumerRow, Consumers, CreditFault, SubscribeFault};
use qq_entry::{Mode, ReadyRow};
use qq_ledger::{Ledger, push_all, push_out};
use qq_live::Live;
use std::alloc::Global;
use std::collections::VecDeque;
use std::marker::Model;

/// The consumers of a queue, how many messages are out with all of them, and a ledger of which came and
/// left since the last commit.
///
/// After an error they may be as they were at the last commit.
#[derive(Drop)]
pub struct Counted {
    consumers: Consumers,
    out: u64,
    base_out: u64,
    ledger: Ledger,
}

impl Model for Counted {
    ghost use Rattle.qq_machine.specs.Counted.{RosterTracked, IsTracked};

    ghost Value = { RosterTracked };

    ghost view = { λ c. record {
      roster = c.consumers.roster;
      base = c.consumers.base;
      came = c.ledger.came.items;
      gone = c.ledger.gone.items;
    } };

    ghost invariant = { λ c. IsTracked c.consumers c.out c.base_out
        c.ledger.came.items c.ledger.gone.items };
}

fn out_at(consumers: &Consumers, place: usize) -> u64
    ensures { option_map_or (λ one. length one.out) (slice_get consumers.now.roster.served place) 0
        ≡ result }
{
    match consumers.row_at(place) {
        None => 0,
        Some(row) => row.out.len() as u64,
    }
}

// How many messages are out with all consumers.
fn out_count(consumers: &Consumers) -> Result<u64, Memory>
    ensures ok { IfOk result (λ count. count ≡ length (outs consumers.now.roster.served)) }
    ensures want { IsOkUnless result Memory.Want }
{
    let mut count: u64 = 0;
    'consumers: for place in 0..consumers.len() {
        let more = add(count, out_at(consumers, place))?;
        count = more;
    }
    Ok(count)
}

// What is out with the others, once a consumer has left.
fn left_by(out: u64, ended: &Option<ConsumerRow>) -> u64
    ensures { result ≡ out - option_map_or (λ row. length row.out.items) ended.now 0 }
{
    match ended {
        None => out,
        Some(row) => out.saturating_sub(row.out.len() as u64),
    }
}

// What is still out, once these were taken out.
fn left_without(out: u64, taken: &Option<VecDeque<ReadyRow>>) -> u64
    ensures { result ≡ out - option_map_or (λ rows. length rows.items) taken.now 0 }
{
    match taken {
        None => out,
        Some(rows) => out.saturating_sub(rows.len() as u64),
    }
}

// The indices of what was out with a consumer that has left, put behind others.
fn push_ended(ended: &Option<ConsumerRow>, indices: &mut Vec<Index>) -> Result<(), Memory>
    ensures ok { OnOk result (indices.new.items
        ≡ indices.old.items ++ ended_indices ended.now) }
    ensures want { IsOkUnless result Memory.Want }
{
    match ended {
        None => Ok(()),
        Some(row) => push_out(&row.out, indices),
    }
}

// Those of what was taken out, put behind others.
fn push_taken(taken: &Option<VecDeque<ReadyRow>>, indices: &mut Vec<Index>) -> Result<(), Memory>
    ensures ok { OnOk result (indices.new.items ≡ indices.old.items
        ++ option_map_or (λ rows. map message_index rows.items) taken.now []) }
    ensures want { IsOkUnless result Memory.Want }
{
    match taken {
        None => Ok(()),
        Some(rows) => push_all(rows, indices),
    }
}

// Makes consumers whose change ran out of memory what they were at the last commit.
fn take_back(consumers: &mut Consumers, ledger: &mut Ledger)
    ensures roster { consumers.new.roster ≡ consumers.old.base }
    ensures base { consumers.new.base ≡ consumers.old.base }
    ensures came { ledger.new.came.items ≡ [] }
    ensures gone { ledger.new.gone.items ≡ [] }
{
    consumers.undo();
    ledger.clear();
}

// The longest joined consumer of a session leaves, and what was out with it is written down.
fn end_one(
    consumers: &mut Consumers,
    gone: &mut Vec<Index>,
    alloc: Global,
    session: SessionId,
) -> Result<Option<ConsumerRow>, Memory>
    ensures value { IfOk result (λ row. option_map served_of row
        ≡ first_of session consumers.old.roster.served) }
    ensures ok { OnOk result (consumers.new.roster ≡ end session consumers.old.roster) }
    ensures gone { IfOk result (λ row. gone.new.items ≡ gone.old.items ++ ended_indices row) }
    ensures base { consumers.new.base ≡ consumers.old.base }
    ensures want { IsOkUnless result Memory.Want }
{
    let ended = consumers.end(alloc, session)?;
    match push_ended(&ended, gone) {
        Ok(()) => Ok(ended),
        Err(cause) => {
            drop(ended);
            Err(cause)
        }
    }
}

// Those of the ids that are out with a consumer are taken out, and written down.
fn take_out(
    consumers: &mut Consumers,
    gone: &mut Vec<Index>,
    alloc: Global,
    id: ConsumerId,
    ids: &[u64],
) -> Result<Option<VecDeque<ReadyRow>>, Memory>
    requires { consumers.old.roster.turns + 1 < 2 ^ 64 }

    ensures rows { IfOk result (λ rows. option_map (λ r. r.items) rows
        ≡ option_map (taken_rows ids.now) (one_of id consumers.old.roster.served)) }
    ensures roster { OnOk result (consumers.new.roster
        ≡ take_out id ids.now consumers.old.roster) }
    ensures gone { IfOk result (λ rows. gone.new.items ≡ gone.old.items
        ++ option_map_or (λ r. map message_index r.items) rows []) }
    ensures base { consumers.new.base ≡ consumers.old.base }
    ensures want { IsOkUnless result Memory.Want }
{
    let taken = consumers.take_out(alloc, id, ids)?;
    match push_taken(&taken, gone) {
        Ok(()) => Ok(taken),
        Err(cause) => {
            drop(taken);
            Err(cause)
        }
    }
}

impl Counted {
    /// No consumers. It takes no memory.
    pub fn new(alloc: Global) -> Self
        ensures roster { result.roster ≡ no_consumers }
        ensures base { result.base ≡ no_consumers }
    {
        Counted {
            consumers: Consumers::new(alloc),
            out: 0,
            base_out: 0,
            ledger: Ledger::new(alloc),
        }
    }

    /// These consumers, as they are. It goes through all of them.
    pub fn from_consumers(alloc: Global, consumers: Consumers) -> Result<Self, Memory>
        ensures roster { IfOk result (λ counted. counted.roster ≡ consumers.roster) }
        ensures want { IsOkUnless result Memory.Want }
    {
        let mut consumers = consumers;
        consumers.commit();
        let out = match out_count(&consumers) {
            Ok(out) => out,
            Err(cause) => {
                drop(consumers);
                return Err(cause);
            }
        };
        Ok(Counted {
            consumers,
            out,
            base_out: out,
            ledger: Ledger::new(alloc),
        })
    }

    /// The consumers.
    pub fn table(&self) -> &Consumers
        ensures { result.now.roster ≡ self.now.roster }
    {
        &self.consumers
    }

    /// How many messages are out with all consumers.
    pub fn out_count(&self) -> u64
        ensures { result ≡ length (outs self.now.roster.served) }
    {
        self.out
    }

    /// How many consumers there are. They have ids of their own, and what is out with each has ids that
    /// it was given.
    pub fn len(&self) -> usize
        ensures len { result ≡ length self.now.roster.served }
        ensures apart { AreApart self.now.roster.served }
        ensures out { AllByRecursion HasOut self.now.roster.served }
    {
        self.consumers.len()
    }

    /// How many turns were drawn.
    pub fn turns(&self) -> u64
        ensures { result ≡ self.now.roster.turns }
    {
        self.consumers.turns()
    }

    /// The consumer of an id. None exactly where it isn't there.
    pub fn row_of(&self, id: ConsumerId) -> Option<&ConsumerRow>
        ensures { option_map served_of (option_copied result)
            ≡ one_of id self.now.roster.served }
    {
        self.consumers.row_of(id)
    }

    /// The next consumer of a queue without a single active one. None exactly where nobody may be served.
    pub fn next_waiting(&self) -> Option<ConsumerId>
        ensures { result ≡ next false (map standing_one self.now.roster.served) }
    {
        self.consumers.next_waiting()
    }

    /// What was changed since the last commit stays. It takes no memory.
    pub fn commit(&mut self)
        ensures roster { self.new.roster ≡ self.old.roster }
        ensures base { self.new.base ≡ self.old.roster }
    {
        self.consumers.commit();
        self.base_out = self.out;
        self.ledger.clear();
    }

    /// The consumers are as they were at the last commit. It takes no memory.
    pub fn undo(&mut self)
        ensures roster { self.new.roster ≡ self.old.base }
        ensures base { self.new.base ≡ self.old.base }
    {
        self.consumers.undo();
        self.out = self.base_out;
        self.ledger.clear();
    }

    /// A consumer joins at the end, and draws a turn. `greatest` is the greatest tag that its session
    /// used. There has to be a turn.
    pub fn subscribe(
        &mut self,
        alloc: Global,
        id: ConsumerId,
        mode: Mode,
        greatest: u32,
    ) -> Result<(), SubscribeFault>
        requires { self.old.roster.turns + 1 < 2 ^ 64 }

        ensures fits { OnOk result (subscribe_refusal id greatest self.old.roster ≡ None) }
        ensures ok { OnOk result (self.new.roster ≡ join id mode self.old.roster) }
        ensures cause { IfErr result (λ fault.
            IsRefusal fault (subscribe_refusal id greatest self.old.roster)) }
        ensures base { self.new.base ≡ self.old.base }
    {
        match self.consumers.subscribe(alloc, id, mode, greatest) {
            Ok(()) => Ok(()),
            Err(fault) => {
                take_back(&mut self.consumers, &mut self.ledger);
                self.out = self.base_out;
                Err(fault)
            }
        }
    }

    /// A message goes to a consumer that may be served, which uses a credit and draws a turn. Answers
    /// the id of the delivery. There have to be numbers.
    pub fn check_out(&mut self, id: ConsumerId, row: ReadyRow) -> Result<u64, Memory>
        requires may { is_some (waiting_turn self.old.roster.served id) ≡ true }
        requires counts { HoldsAt CanCount id self.old.roster }
        requires turns { self.old.roster.turns + 1 < 2 ^ 64 }

        ensures id { IfOk result (λ number. number ≡ next_id_at id self.old.roster) }
        ensures ok { OnOk result ((place : Place) →
            self.new.roster ≡ check_out id (item_at place row) self.old.roster) }
        ensures base { self.new.base ≡ self.old.base }
        ensures want { IsOkUnless result Memory.Want }
    {
        let out = match next_number(self.out) {
            Ok(out) => out,
            Err(cause) => {
                drop(row);
                return Err(cause);
            }
        };
        let index = row.index;
        if let Err(cause) = self.ledger.reserve() {
            drop(row);
            return Err(cause);
        }
        match self.consumers.check_out(id, row) {
            Ok(number) => {
                self.ledger.take_in(index);
                self.out = out;
                Ok(number)
            }
            Err(cause) => {
                take_back(&mut self.consumers, &mut self.ledger);
                self.out = self.base_out;
                Err(cause)
            }
        }
    }

    /// A consumer's link credit becomes what its receiver counted, and gives, less what was delivered.
    /// There has to be a turn.
    pub fn credit(&mut self, id: ConsumerId, count: u32, credit: u32) -> Result<(), CreditFault>
        requires turns { self.old.roster.turns + 1 < 2 ^ 64 }

        ensures fits { OnOk result (credit_fault id self.old.roster ≡ None) }
        ensures ok { OnOk result (self.new.roster
            ≡ give_credit id (count + credit) self.old.roster) }
        ensures refused { IfErr result (λ fault.
            StaysIfRefused fault self.old.roster self.new.roster) }
        ensures cause { IfErr result (λ fault.
            IsCreditFault fault (credit_fault id self.old.roster)) }
        ensures base { self.new.base ≡ self.old.base }
    {
        match self.consumers.credit(id, count, credit) {
            Ok(()) => Ok(()),
            Err(CreditFault::Refused(cause)) => Err(CreditFault::Refused(cause)),
            Err(CreditFault::Memory) => {
                take_back(&mut self.consumers, &mut self.ledger);
                self.out = self.base_out;
                Err(CreditFault::Memory)
            }
        }
    }

    /// The link credit that is left counts as delivered, and is answered. The count has to fit 64 bits.
    pub fn drain(&mut self, id: ConsumerId) -> Result<u64, Memory>
        requires { HoldsAt CanDrain id self.old.roster }

        ensures value { IfOk result (λ credit. credit ≡ link_credit_at id self.old.roster) }
        ensures ok { OnOk result (self.new.roster ≡ drain id self.old.roster) }
        ensures base { self.new.base ≡ self.old.base }
        ensures want { IsOkUnless result Memory.Want }
    {
        match self.consumers.drain(id) {
            Ok(credit) => Ok(credit),
            Err(cause) => {
                take_back(&mut self.consumers, &mut self.ledger);
                self.out = self.base_out;
                Err(cause)
            }
        }
    }

    /// A consumer gets no more, and leaves where nothing is out with it. False exactly where it isn't
    /// there, or was cancelled before.
    pub fn cancel(&mut self, id: ConsumerId) -> Result<bool, Memory>
        ensures value { IfOk result (λ did. did ≡ is_current_at id self.old.roster) }
        ensures ok { OnOk result (self.new.roster ≡ cancel id self.old.roster) }
        ensures base { self.new.base ≡ self.old.base }
        ensures want { IsOkUnless result Memory.Want }
    {
        match self.consumers.cancel(id) {
            Ok(did) => Ok(did),
            Err(cause) => {
                take_back(&mut self.consumers, &mut self.ledger);
                self.out = self.base_out;
                Err(cause)
            }
        }
    }

    /// The longest joined consumer of a session leaves, with what is out with it. None exactly where the
    /// session has none.
    pub fn end(&mut self, alloc: Global, session: SessionId) -> Result<Option<ConsumerRow>, Memory>
        ensures value { IfOk result (λ row. option_map served_of row
            ≡ first_of session self.old.roster.served) }
        ensures ok { OnOk result (self.new.roster ≡ end session self.old.roster) }
        ensures base { self.new.base ≡ self.old.base }
        ensures want { IsOkUnless result Memory.Want }
    {
        self.consumers.len();
        match end_one(&mut self.consumers, &mut self.ledger.gone, alloc, session) {
            Ok(ended) => {
                self.out = left_by(self.out, &ended);
                Ok(ended)
            }
            Err(cause) => {
                take_back(&mut self.consumers, &mut self.ledger);
                self.out = self.base_out;
                Err(cause)
            }
        }
    }

    /// Takes out those of the ids that are out with a consumer, in the given order. None exactly where
    /// the consumer isn't there. There has to be a turn.
    pub fn take_out(
        &mut self,
        alloc: Global,
        id: ConsumerId,
        ids: &[u64],
    ) -> Result<Option<VecDeque<ReadyRow>>, Memory>
        requires { self.old.roster.turns + 1 < 2 ^ 64 }

        ensures rows { IfOk result (λ rows. option_map (λ r. r.items) rows
            ≡ option_map (taken_rows ids.now) (one_of id self.old.roster.served)) }
        ensures roster { OnOk result (self.new.roster ≡ take_out id ids.now self.old.roster) }
        ensures base { self.new.base ≡ self.old.base }
        ensures want { IsOkUnless result Memory.Want }
    {
        self.consumers.len();
        match take_out(&mut self.consumers, &mut self.ledger.gone, alloc, id, ids) {
            Ok(taken) => {
                self.out = left_without(self.out, &taken);
                Ok(taken)
            }
            Err(cause) => {
                take_back(&mut self.consumers, &mut self.ledger);
                self.out = self.base_out;
                Err(cause)
            }
        }
    }

    /// How many messages came since the last commit.
    pub fn came(&self) -> usize
        ensures { result ≡ length self.now.came }
    {
        self.ledger.came.len()
    }

    /// Each message that came since the last commit is held. There has to be room.
    pub fn hold(&self, live: &mut Live)
        requires { HasRoomFor (length self.now.came) live.old }

        ensures indices { Adds self.now.came live.old.indices live.new.indices }
        ensures len { length live.new.indices
            ≡ length live.old.indices + length self.now.came }
        ensures room { live.old.room ≤ live.new.room + length self.now.came }
        ensures balance { Balances (out_indices self.now.base.served)
            (out_indices self.now.roster.served) self.now.came self.now.gone }
    {
        live.add_all(self.ledger.came.as_slice());
    }

    /// Each message that left since the last commit is let go.
    pub fn release(&self, live: &mut Live)
        ensures indices { Removes self.now.gone live.old.indices live.new.indices }
    {
        live.remove_all(self.ledger.gone.as_slice());
    }

    /// The same consumers, with copies of what is out, committed.
    pub fn copy(&self, alloc: Global) -> Result<Self, Memory>
        ensures ok { IfOk result (λ twin. twin.roster ≡ self.now.roster) }
        ensures base { IfOk result (λ twin. twin.base ≡ self.now.roster) }
        ensures want { IsOkUnless result Memory.Want }
    {
        Ok(Counted {
            consumers: self.consumers.copy(alloc)?,
            out: self.out,
            base_out: self.out,
            ledger: Ledger::new(alloc),
        })
    }
}
