//! What follows on each command: deliveries, the limits, and dead letters for the worker.
ghost use Rattle.std.specs.Prelude.{◌≡◌, IfOk, IsOkUnless, OnOk, OnErr, false, Some, None, if◌then◌else◌};
ghost use Rattle.qq_model.specs.Commands.{Acted, reply};
ghost use Rattle.qq_model.specs.Serving.{serve, deliver, check_out, check_out_all, drain_by, drain, drain_after, is_credited, drop_head, keep_limits, offer_by, give_dead, give_all_dead};
ghost use Rattle.qq_serial.specs.Views.{state_of, progress_of, Changes, GoesOn, Replies};

use crate::consumers::{consumer_of, next_consumer, put_consumer};
use crate::queue::{Draft, Store, next_number};
use crate::rows::{
    dead_count, given_count, is_over_limit, message_of, next_dead, next_message, put_row,
    ready_count,
};
use qq_base::{ConsumerId, Memory};
use qq_entry::{Answer, Command, Effect, Mode, Reason};
use qq_model::{Consumer, MOST_GIVEN, Place, Row};
use std::alloc::Global;

fn serve(consumer: Consumer, turn: u64) -> Result<Consumer, Memory>
    ensures ok { IfOk result (λ after. after ≡ serve turn consumer) }
    ensures want { IsOkUnless result Memory.Want }
{
    let next_id = next_number(consumer.next_id)?;
    match consumer.mode {
        Mode::Prefetch(_) => Ok(Consumer {
            next_id,
            turn,
            ..consumer
        }),
        Mode::Link => Ok(Consumer {
            next_id,
            turn,
            credit: consumer.credit.saturating_sub(1),
            count: next_number(consumer.count)?,
            ..consumer
        }),
    }
}

fn is_credited(answer: &Answer) -> bool
    ensures { result ≡ is_credited answer.now }
{
    matches!(answer, Answer::Credited { .. })
}

impl Draft {
    fn deliver(
        &mut self,
        alloc: Global,
        store: &Store,
        row: Row,
        consumer: Consumer,
    ) -> Result<(), Memory>
        ensures ok { OnOk result (Changes (deliver row consumer) store.now self.old self.new) }
        ensures want { IsOkUnless result Memory.Want }
    {
        let turn = next_number(self.queue.turns)?;
        let after = serve(consumer, turn)?;
        let delivery = self.queue.delivery_of(alloc, store, consumer.next_id, row)?;
        self.effects.push(Effect::Deliver(consumer.id, delivery))?;
        let out = Row {
            place: Place::Out(consumer.id, consumer.next_id),
            ..row
        };
        put_row(&mut self.queue.rows, out);
        put_consumer(&mut self.queue.consumers, after);
        self.queue.turns = turn;
        Ok(())
    }

    #[tactic(auto, unfolding(qq_model::specs::Serving::check_out))]
    fn check_out(&mut self, alloc: Global, store: &Store) -> Result<bool, Memory>
        ensures ok { IfOk result (GoesOn check_out store.now self.old self.new) }
        ensures still { IfOk result (λ did. did ≡ false → self.new ≡ self.old) }
        ensures want { IsOkUnless result Memory.Want }
    {
        let Some(row) = next_message(&self.queue.rows) else {
            return Ok(false);
        };
        let single = store.args.single_active;
        let Some(consumer) = next_consumer(single, &self.queue.rows, &self.queue.consumers) else {
            return Ok(false);
        };
        self.deliver(alloc, store, row, consumer)?;
        Ok(true)
    }

    /// Delivers messages while there is a next message and a next consumer.
    #[tactic(auto, unfolding(qq_model::specs::Serving::check_out_all))]
    pub fn check_out_all(&mut self, alloc: Global, store: &Store) -> Result<(), Memory>
        ensures ok { OnOk result (Changes check_out_all store.now self.old self.new) }
        ensures want { IsOkUnless result Memory.Want }
    {
        let ready = ready_count(&self.queue.rows);
        'rounds: for _round in 0..ready {
            if !self.check_out(alloc, store)? {
                return Ok(());
            }
        }
        Ok(())
    }

    fn drain_by(
        &mut self,
        store: &Store,
        consumer: Option<Consumer>,
        answer: Answer,
    ) -> Result<Answer, Memory>
        ensures ok { IfOk result (Replies (drain_by consumer answer) store.now self.old self.new) }
        ensures want { IsOkUnless result Memory.Want }
    {
        let Some(consumer) = consumer else {
            return Ok(answer);
        };
        let Some(count) = consumer.count.checked_add(consumer.credit) else {
            return Err(Memory::Want);
        };
        let drained = Consumer {
            credit: 0,
            count,
            ..consumer
        };
        put_consumer(&mut self.queue.consumers, drained);
        Ok(Answer::Credited {
            drained: consumer.credit,
        })
    }

    fn drain(
        &mut self,
        store: &Store,
        id: ConsumerId,
        wanted: bool,
        answer: Answer,
    ) -> Result<Answer, Memory>
        ensures ok { IfOk result (Replies (λ p. drain id wanted (reply answer p))
            store.now self.old self.new) }
        ensures want { IsOkUnless result Memory.Want }
    {
        if wanted && is_credited(&answer) {
            let consumer = consumer_of(id, &self.queue.consumers);
            return self.drain_by(store, consumer, answer);
        }
        Ok(answer)
    }

    /// Leaves no credit after a Credit with drain.
    #[tactic(auto, unfolding(qq_model::specs::Serving::drain_after))]
    pub fn drain_after(
        &mut self,
        store: &Store,
        command: &Command,
        answer: Answer,
    ) -> Result<Answer, Memory>
        ensures ok { IfOk result (Replies (λ p. drain_after command.now (reply answer p))
            store.now self.old self.new) }
        ensures want { IsOkUnless result Memory.Want }
    {
        match command {
            Command::Credit {
                stamp,
                tag,
                drain,
                ..
            } => self.drain(store, stamp.consumer_id(*tag), *drain, answer),
            _ => Ok(answer),
        }
    }

    #[tactic(auto, unfolding(qq_model::specs::Serving::drop_head))]
    fn drop_head(&mut self, alloc: Global, store: &Store) -> Result<bool, Memory>
        ensures ok { IfOk result (GoesOn drop_head store.now self.old self.new) }
        ensures still { IfOk result (λ did. did ≡ false → self.new ≡ self.old) }
        ensures want { IsOkUnless result Memory.Want }
    {
        if !is_over_limit(&store.args, &self.queue.rows) {
            return Ok(false);
        }
        let Some(row) = next_message(&self.queue.rows) else {
            return Ok(false);
        };
        self.die(alloc, store, Reason::MaxLen, row)?;
        Ok(true)
    }

    /// Lets messages at the front die while the queue has grown past its limit.
    #[tactic(auto, unfolding(qq_model::specs::Serving::keep_limits))]
    pub fn keep_limits(&mut self, alloc: Global, store: &Store) -> Result<(), Memory>
        ensures ok { OnOk result (Changes keep_limits store.now self.old self.new) }
        ensures want { IsOkUnless result Memory.Want }
    {
        let ready = ready_count(&self.queue.rows);
        'rounds: for _round in 0..ready {
            if !self.drop_head(alloc, store)? {
                return Ok(());
            }
        }
        Ok(())
    }

    fn offer_by(&mut self, alloc: Global, store: &Store, row: Option<Row>) -> Result<bool, Memory>
        ensures ok { IfOk result (GoesOn (offer_by row) store.now self.old self.new) }
        ensures still { IfOk result (λ did. did ≡ false → self.new ≡ self.old) }
        ensures want { IsOkUnless result Memory.Want }
    {
        let Some(row) = row else {
            return Ok(false);
        };
        match row.place {
            Place::Dead(number, reason) => {
                let message = message_of(alloc, &self.queue.rows, &store.messages, row)?;
                self.effects.push(Effect::Offer {
                    number,
                    reason,
                    message,
                })?;
                self.queue.given = number;
                Ok(true)
            }
            _ => Ok(false),
        }
    }

    #[tactic(auto, unfolding(qq_model::specs::Serving::give_dead))]
    fn give_dead(&mut self, alloc: Global, store: &Store) -> Result<bool, Memory>
        ensures ok { IfOk result (GoesOn give_dead store.now self.old self.new) }
        ensures still { IfOk result (λ did. did ≡ false → self.new ≡ self.old) }
        ensures want { IsOkUnless result Memory.Want }
    {
        if self.queue.attached == 0 {
            return Ok(false);
        }
        if MOST_GIVEN <= given_count(self.queue.given, &self.queue.rows) as u64 {
            return Ok(false);
        }
        let row = next_dead(self.queue.given, &self.queue.rows);
        self.offer_by(alloc, store, row)
    }

    /// Offers dead messages to the worker while it has room for them.
    #[tactic(auto, unfolding(qq_model::specs::Serving::give_all_dead))]
    pub fn give_all_dead(&mut self, alloc: Global, store: &Store) -> Result<(), Memory>
        ensures ok { OnOk result (Changes give_all_dead store.now self.old self.new) }
        ensures want { IsOkUnless result Memory.Want }
    {
        let dead = dead_count(&self.queue.rows);
        'rounds: for _round in 0..dead {
            if !self.give_dead(alloc, store)? {
                return Ok(());
            }
        }
        Ok(())
    }
}
