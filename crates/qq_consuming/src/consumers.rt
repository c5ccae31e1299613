//! The consumers of a queue's clients.
ghost use Rattle.std.specs.Prelude.{◌≡◌, ◌++◌, ◌≤◌, [], IfErr, OnErr, OnOk, IsOkUnless, length, option_map, slice_get};
ghost use Rattle.qq_base.specs.Causes.{SpentOnlyWhere};
ghost use Rattle.qq_base.specs.declared.memory.TheConstants.{NUMBER_END};
ghost use Rattle.qq_consuming.specs.Consumers.{come, consumer_at, know, know_by, not_taken_of, taken};
ghost use Rattle.qq_consuming.specs.Consuming.{not_taken};
ghost use Rattle.qq_consuming.specs.Known.{gap};

use crate::consuming::Consuming;
use indexmap::IndexMap;
use qq_base::{ConsumerId, Memory, SessionId};
use qq_entry::{Delivery, Unstamped};
use std::alloc::Global;
use std::marker::Model;

/// What a consumer's client may fetch.
#[derive(Clone, Copy)]
pub struct Gap {
    /// Whose deliveries they are.
    pub consumer: ConsumerId,
    /// The least id that hasn't arrived.
    pub missing: u64,
}

/// The consumers that a queue's clients know, under their ids.
///
/// Contracts see them in the order in which they were subscribed.
#[derive(Drop)]
pub struct Consumers {
    rows: IndexMap<ConsumerId, Consuming>,
}

impl Model for Consumers {
    ghost use Rattle.std.specs.Prelude.{List};
    ghost use Rattle.std.specs.Map.{values_of};
    ghost use Rattle.qq_consuming.specs.Consuming.{Received};
    ghost use Rattle.qq_consuming.specs.Known.{AreOwn};

    ghost Value = { List Received };

    ghost view = { λ c. values_of c.rows.entries };

    ghost invariant = { λ c. AreOwn c.rows.entries };
}

impl Consumers {
    /// No client knows a consumer. It takes no memory.
    pub fn new(alloc: Global) -> Self
        ensures { result ≡ [] }
    {
        Consumers {
            rows: IndexMap::new(alloc),
        }
    }

    // A client knows a consumer from here on.
    fn know(&mut self, alloc: Global, id: ConsumerId) -> Result<(), Memory>
        ensures ok { OnOk result (self.new ≡ know id self.old) }
        ensures err { OnErr result (self.new ≡ self.old) }
        ensures want { IsOkUnless result Memory.Want }
    {
        if self.rows.contains_key(&id) {
            return Ok(());
        }
        let consumer = Consuming::new_consumer(alloc, id);
        self.rows.insert(id, consumer)?;
        Ok(())
    }

    /// A client's command is given: from its first subscription on it knows a consumer. The only error is
    /// `Memory::Want`, out of memory, after which all is as before.
    pub fn know_by(
        &mut self,
        alloc: Global,
        session: SessionId,
        body: &Unstamped,
    ) -> Result<(), Memory>
        ensures ok { OnOk result (self.new ≡ know_by session body.now self.old) }
        ensures err { OnErr result (self.new ≡ self.old) }
        ensures want { IsOkUnless result Memory.Want }
    {
        match body {
            Unstamped::Subscribe { tag, .. } => self.know(alloc, ConsumerId { session, tag: *tag }),
            Unstamped::Enqueue { .. }
            | Unstamped::Get
            | Unstamped::Cancel { .. }
            | Unstamped::Credit { .. }
            | Unstamped::Settle { .. }
            | Unstamped::Return { .. }
            | Unstamped::Discard { .. }
            | Unstamped::Purge => Ok(()),
        }
    }

    /// A delivery comes to its consumer, and `out` grows by what is handed out then, in order. One for a consumer
    /// that no client knows is passed over.
    ///
    /// - `err`, `left`: after an error all is as before.
    /// - `cause`: an id at the end of numbers, which no queue gives, is refused with `Memory::Spent`, and no other
    ///   is.
    pub fn come(
        &mut self,
        id: ConsumerId,
        delivery: Delivery,
        out: &mut Vec<Delivery>,
    ) -> Result<(), Memory>
        ensures ok { OnOk result (self.new ≡ come id delivery self.old) }
        ensures taken { OnOk result
            (out.new.items ≡ out.old.items ++ taken id delivery self.old) }
        ensures err { OnErr result (self.new ≡ self.old) }
        ensures left { OnErr result (out.new.items ≡ out.old.items) }
        ensures cause { IfErr result (λ e. SpentOnlyWhere e NUMBER_END (NUMBER_END ≤ delivery.id)) }
    {
        let Some(consumer) = self.rows.get_mut(&id) else {
            drop(delivery);
            return Ok(());
        };
        consumer.come(delivery, out)
    }

    // The first of these ids that wasn't handed out to a consumer.
    fn not_taken_at(&self, alloc: Global, id: ConsumerId, ids: &[u64]) -> Option<u64>
        ensures { result ≡ not_taken ids.now (consumer_at id self.now) }
    {
        match self.rows.get(&id) {
            Some(consumer) => consumer.not_taken(ids),
            None => {
                let none = Consuming::new_consumer(alloc, id);
                let first = none.not_taken(ids);
                drop(none);
                first
            }
        }
    }

    /// The first delivery that a session's command ends and that wasn't handed out. None where each was, so that
    /// the command may be given. It takes no memory.
    pub fn not_taken(&self, alloc: Global, session: SessionId, body: &Unstamped) -> Option<u64>
        ensures { result ≡ not_taken_of session body.now self.now }
    {
        match body {
            Unstamped::Settle { tag, ids } => {
                self.not_taken_at(alloc, ConsumerId { session, tag: *tag }, ids.as_slice())
            }
            Unstamped::Return { tag, ids } => {
                self.not_taken_at(alloc, ConsumerId { session, tag: *tag }, ids.as_slice())
            }
            Unstamped::Discard { tag, ids } => {
                self.not_taken_at(alloc, ConsumerId { session, tag: *tag }, ids.as_slice())
            }
            Unstamped::Enqueue { .. }
            | Unstamped::Get
            | Unstamped::Subscribe { .. }
            | Unstamped::Cancel { .. }
            | Unstamped::Credit { .. }
            | Unstamped::Purge => None,
        }
    }

    /// How many consumers there are.
    pub fn count(&self) -> usize
        ensures { result ≡ length self.now }
    {
        self.rows.len()
    }

    /// Whose the consumer at a place is, in the order of subscriptions, and from where on it may fetch. None exactly
    /// where there is none.
    pub fn gap(&self, place: usize) -> Option<Gap>
        ensures { result ≡ option_map gap (slice_get self.now place) }
    {
        match self.rows.get_index(place) {
            None => None,
            Some((_, consumer)) => Some(Gap {
                consumer: consumer.consumer(),
                missing: consumer.missing(),
            }),
        }
    }
}
