ghost use Rattle.std.specs.Prelude.{◌≡◌, ◌<◌, ◌≤◌, ◌+◌, ◌^◌, ◌++◌, IfErr, IfOk, IfSome, OnErr, OnOk, None, not, is_some, length, replicate, true, vec_capacity, vec_len};
ghost use Rattle.qq_base.specs.Causes.{SpentOnlyWhere};
ghost use Rattle.qq_base.specs.declared.memory.TheConstants.{NUMBER_END};
ghost use Rattle.qq_consuming.specs.Arrivals.{Asks, after_deeds, handed};
ghost use Rattle.qq_consuming.specs.Consumers.{come_by, taken_by};
ghost use Rattle.qq_consuming.specs.Consuming.{HasClaimCause, arrive, has_arrived, hand_out, missing, new_consumer, next_delivery, not_taken, was_handed_out, IsLeastMissing};
ghost use Rattle.qq_consuming.specs.Received.{IsReceived};

use qq_base::{ConsumerId, Memory, NUMBER_END};
use qq_entry::Delivery;
use std::alloc::Global;
use std::collections::BTreeMap;
use std::marker::Model;
use thiserror::Error;

/// Why ids aren't a client's to settle, return or discard.
#[derive(Clone, Copy, Debug, Error)]
pub enum ClaimFault {
    /// This id wasn't handed out.
    #[error("not taken {id}")]
    NotTaken {
        /// The first such id.
        id: u64,
    },
}

/// A consumer at its client.
///
/// Contracts see the consumer, the id of the delivery that is handed out next, and what has arrived before
/// its turn, in the order of ids.
#[derive(Drop)]
pub struct Consuming {
    consumer: ConsumerId,
    next: u64,
    waiting: BTreeMap<u64, Delivery>,
}

impl Model for Consuming {
    ghost use Rattle.std.specs.Map.{values_of};
    ghost use Rattle.qq_consuming.specs.Consuming.{Received};
    ghost use Rattle.qq_consuming.specs.Received.{IsKept};

    ghost Value = { Received };

    ghost view = { λ c. record {
      consumer = c.consumer;
      next = c.next;
      waiting = values_of c.waiting.entries;
    } };

    ghost invariant = { λ c. IsKept (record {
      consumer = c.consumer;
      next = c.next;
      waiting = values_of c.waiting.entries;
    }) c.waiting.entries };
}

impl Consuming {
    /// A consumer to which nothing has come. It takes no memory.
    pub fn new_consumer(alloc: Global, id: ConsumerId) -> Self
        ensures { result ≡ new_consumer id }
    {
        Consuming {
            consumer: id,
            next: 1,
            waiting: BTreeMap::new(alloc),
        }
    }

    /// Whose deliveries they are.
    pub fn consumer(&self) -> ConsumerId
        ensures { result ≡ self.now.consumer }
    {
        self.consumer
    }

    /// Whether a delivery of this id has arrived. Ids count from 1; 0, which a get has, counts as arrived.
    pub fn has_arrived(&self, id: u64) -> bool
        ensures { result ≡ has_arrived id self.now }
    {
        id < self.next || self.waiting.contains_key(&id)
    }

    /// A delivery comes to the client. It is false exactly for an id that has arrived before; then all is as
    /// before.
    ///
    /// - `ok`, `first`: it waits for its turn, unless its id has arrived.
    /// - `err`: after an error all is as before.
    /// - `within`, `cause`: an id at the end of numbers, which no queue gives, is refused with
    ///   `Memory::Spent`, and no other is.
    pub fn arrive(&mut self, delivery: Delivery) -> Result<bool, Memory>
        ensures ok { OnOk result (self.new ≡ arrive delivery self.old) }
        ensures first { IfOk result (λ first. first ≡ not (has_arrived delivery.id self.old)) }
        ensures within { IfOk result (λ first. first ≡ true → delivery.id < NUMBER_END) }
        ensures err { OnErr result (self.new ≡ self.old) }
        ensures cause { IfErr result (λ e. SpentOnlyWhere e NUMBER_END (NUMBER_END ≤ delivery.id)) }
    {
        if self.has_arrived(delivery.id) {
            drop(delivery);
            return Ok(false);
        }
        if delivery.id >= NUMBER_END {
            drop(delivery);
            return Err(Memory::Spent { number: NUMBER_END });
        }
        self.waiting.insert(delivery.id, delivery)?;
        Ok(true)
    }

    // Goes over what waits without a gap.
    fn first_missing(&self) -> u64
        ensures value { result ≡ missing self.now }
        ensures within { result ≤ NUMBER_END }
        ensures received { IsReceived self.now }
    {
        let mut id = self.next;
        for key in self.waiting.keys() {
            if *key != id {
                return id;
            }
            id += 1;
        }
        id
    }

    /// The least id that hasn't arrived, at most `NUMBER_END`.
    pub fn missing(&self) -> u64
        ensures value { result ≡ missing self.now }
        ensures least { IsLeastMissing result self.now }
        ensures within { result ≤ NUMBER_END }
    {
        self.first_missing()
    }

    fn has_next(&self) -> bool
        ensures { result ≡ is_some (next_delivery self.now) }
    {
        match self.waiting.first_key_value() {
            None => false,
            Some((id, _)) => *id == self.next,
        }
    }

    /// Hands out the next delivery in the order of ids. None exactly where it hasn't arrived; then all is as
    /// before.
    pub fn next(&mut self) -> Option<Delivery>
        ensures value { result ≡ next_delivery self.old }
        ensures arrived { is_some result ≡ has_arrived self.old.next self.old }
        ensures order { IfSome result (λ delivery. delivery.id ≡ self.old.next) }
        ensures after { self.new ≡ hand_out self.old }
    {
        let there = self.has_next();
        if !there {
            return None;
        }
        match self.waiting.pop_first() {
            None => None,
            Some((_, delivery)) => {
                self.next += 1;
                Some(delivery)
            }
        }
    }

    // How many deliveries wait.
    fn waiting_count(&self) -> usize
        ensures count { result ≡ length self.now.waiting }
        ensures small { result < 2 ^ 63 }
    {
        self.waiting.len()
    }

    // Hands out what is there.
    fn take_all(&mut self, out: &mut Vec<Delivery>)
        requires { vec_len out.old + length self.old.waiting ≤ vec_capacity out.old }

        ensures after { self.new
            ≡ after_deeds (replicate (length self.old.waiting) Asks) self.old }
        ensures taken { out.new.items
            ≡ out.old.items ++ handed self.old (replicate (length self.old.waiting) Asks) }
    {
        let count = self.waiting_count();
        'asks: for asked in 0..count {
            let Some(delivery) = self.next() else {
                return;
            };
            out.push_reserved(delivery);
        }
    }

    /// A delivery comes to the client, and `out` grows by what is there then, in the order of ids.
    ///
    /// - `err`, `left`: after an error all is as before.
    /// - `cause`: as of `arrive`.
    pub fn come(&mut self, delivery: Delivery, out: &mut Vec<Delivery>) -> Result<(), Memory>
        ensures ok { OnOk result (self.new ≡ come_by delivery self.old) }
        ensures taken { OnOk result (out.new.items ≡ out.old.items ++ taken_by delivery self.old) }
        ensures err { OnErr result (self.new ≡ self.old) }
        ensures left { OnErr result (out.new.items ≡ out.old.items) }
        ensures cause { IfErr result (λ e. SpentOnlyWhere e NUMBER_END (NUMBER_END ≤ delivery.id)) }
    {
        // What comes and all that waits has room before anything changes.
        let room = self.waiting_count() + 1;
        if let Err(_) = out.reserve(room) {
            drop(delivery);
            return Err(Memory::Want);
        }
        if let Err(cause) = self.arrive(delivery) {
            return Err(cause);
        }
        self.take_all(out);
        Ok(())
    }

    /// Whether a delivery of this id was handed out.
    pub fn was_handed_out(&self, id: u64) -> bool
        ensures { result ≡ was_handed_out id self.now }
    {
        0 < id && id < self.next
    }

    /// Whether all of these ids were handed out, so that the client may settle, return or discard them. It
    /// refuses exactly where one wasn't, and names the first.
    pub fn claim(&self, ids: &[u64]) -> Result<(), ClaimFault>
        ensures ok { OnOk result (not_taken ids.now self.now ≡ None) }
        ensures err { IfErr result (λ fault. HasClaimCause fault ids.now self.now) }
    {
        for id in ids {
            if !self.was_handed_out(*id) {
                return Err(ClaimFault::NotTaken { id: *id });
            }
        }
        Ok(())
    }

    /// The first of these ids that wasn't handed out, None where each was.
    pub fn not_taken(&self, ids: &[u64]) -> Option<u64>
        ensures { result ≡ not_taken ids.now self.now }
    {
        match self.claim(ids) {
            Ok(()) => None,
            Err(ClaimFault::NotTaken { id }) => Some(id),
        }
    }
}
