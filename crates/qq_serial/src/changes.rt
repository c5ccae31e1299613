//! Changes of a queue that several commands share.
ghost use Rattle.std.specs.Prelude.{◌≡◌, IfOk, IsOkUnless, OnOk, OnErr};
ghost use Rattle.qq_model.specs.Changes.{die, go_back, return_row, credit_of, begin_to_wait, delivery_of};
ghost use Rattle.qq_serial.specs.Views.{state_of, progress_of, Becomes, Changes};
ghost use Rattle.qq_serial.specs.declared.queue.Store.{Store};

use crate::consumers::{consumer_of, free_credit, put_consumer};
use crate::queue::{Draft, Queue, Store, next_number};
use crate::rows::{message_of, put_row};
use qq_base::{ConsumerId, Memory};
use qq_entry::{Delivery, Effect, Reason, Strategy};
use qq_model::{Consumer, GoneReason, Key, Place, Row};
use std::alloc::Global;

/// The free credit of the consumer of an id, 0 where there is none.
pub fn credit_of(id: ConsumerId, rows: &[Row], consumers: &[Consumer]) -> u64
    ensures { result ≡ credit_of id rows.now consumers.now }
{
    match consumer_of(id, consumers) {
        None => 0,
        Some(consumer) => free_credit(rows, consumer),
    }
}

impl Queue {
    /// What a consumer or a get sees of a message.
    pub fn delivery_of(
        &self,
        alloc: Global,
        store: &Store,
        id: u64,
        row: Row,
    ) -> Result<Delivery, Memory>
        ensures ok { IfOk result (λ delivery. delivery
            ≡ delivery_of (state_of store.now self.now) id row) }
        ensures want { IsOkUnless result Memory.Want }
    {
        Ok(Delivery {
            index: row.index,
            arrival: row.arrival,
            id,
            count: row.count,
            message: message_of(alloc, &self.rows, &store.messages, row)?,
        })
    }

    /// Gives a consumer the next turn if its free credit was 0 before and is more now.
    pub fn begin_to_wait(&mut self, before: u64, id: ConsumerId) -> Result<(), Memory>
        ensures ok { OnOk result (Becomes (begin_to_wait before id) self.old self.new) }
        ensures want { IsOkUnless result Memory.Want }
    {
        if before != 0 || credit_of(id, &self.rows, &self.consumers) == 0 {
            return Ok(());
        }
        let Some(consumer) = consumer_of(id, &self.consumers) else {
            return Ok(());
        };
        let turn = next_number(self.turns)?;
        self.turns = turn;
        put_consumer(&mut self.consumers, Consumer { turn, ..consumer });
        Ok(())
    }
}

impl Draft {
    /// A message dies.
    #[tactic(auto, unfolding(qq_model::specs::Changes::die))]
    pub fn die(
        &mut self,
        alloc: Global,
        store: &Store,
        reason: Reason,
        row: Row,
    ) -> Result<(), Memory>
        ensures ok { OnOk result (Changes (die reason row) store.now self.old self.new) }
        ensures want { IsOkUnless result Memory.Want }
    {
        let gone = Row {
            place: Place::Gone(GoneReason::Died(reason)),
            ..row
        };
        match store.args.strategy {
            Strategy::Absent => {
                put_row(&mut self.queue.rows, gone);
                Ok(())
            }
            Strategy::AtMostOnce => {
                let message = message_of(alloc, &self.queue.rows, &store.messages, row)?;
                self.effects.push(Effect::DeadOnce { reason, message })?;
                put_row(&mut self.queue.rows, gone);
                Ok(())
            }
            Strategy::AtLeastOnce => {
                let number = next_number(self.queue.deads)?;
                self.queue.deads = number;
                let dead = Row {
                    place: Place::Dead(number, reason),
                    ..row
                };
                put_row(&mut self.queue.rows, dead);
                Ok(())
            }
        }
    }

    fn go_back(&mut self, store: &Store, row: Row) -> Result<(), Memory>
        ensures ok { OnOk result (Changes (go_back
            store.now.args.delivery_limit row) store.now self.old self.new) }
        ensures want { IsOkUnless result Memory.Want }
    {
        match store.args.delivery_limit {
            None => {
                let order = next_number(self.queue.orders)?;
                self.queue.orders = order;
                let ready = Row {
                    place: Place::Ready(Key::Back(order)),
                    ..row
                };
                put_row(&mut self.queue.rows, ready);
                Ok(())
            }
            Some(_) => {
                let order = next_number(self.queue.returns)?;
                self.queue.returns = order;
                let ready = Row {
                    place: Place::Ready(Key::Front(order)),
                    ..row
                };
                put_row(&mut self.queue.rows, ready);
                Ok(())
            }
        }
    }

    /// A message is returned to the queue.
    #[tactic(auto, unfolding(qq_model::specs::Changes::return_row))]
    pub fn return_row(&mut self, alloc: Global, store: &Store, row: Row) -> Result<(), Memory>
        ensures ok { OnOk result (Changes (return_row row) store.now self.old self.new) }
        ensures want { IsOkUnless result Memory.Want }
    {
        let count = next_number(row.count)?;
        let counted = Row { count, ..row };
        if let Some(limit) = store.args.delivery_limit
            && limit < count
        {
            return self.die(alloc, store, Reason::DeliveryLimit, counted);
        }
        self.go_back(store, counted)
    }
}
