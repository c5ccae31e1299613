//! What each command does and answers.
ghost use Rattle.std.specs.Prelude.{◌≡◌, ◌+◌, take, vec_len, IfOk, IsOkUnless, OnOk, OnErr, filter, not, false, Some, None, if◌then◌else◌};
ghost use Rattle.qq_model.specs.declared.consumer.Consumer.{Consumer};
ghost use Rattle.qq_model.specs.Commands.{Acted, reply, set_state, Settling, enqueue, get, subscribe, cancel, give_credit, credit_by_mode, end_delivery, end_delivery_by, end_deliveries, finish, purge, return_all, return_first, is_of_session, return_session, leave, down, dead_attach, is_at_least_once, settle_dead_by, given_row, settle_dead, dead_settle, act};
ghost use Rattle.qq_model.specs.Changes.{while_next};
ghost use Rattle.qq_serial.specs.Views.{state_of, progress_of, Acts, Becomes, Changes, GoesOn, OnlyAddsMessages, Replies, Settles, return_if};

use crate::changes::credit_of;
use crate::consumers::{consumer_of, drop_finished, put_consumer};
use crate::queue::{Draft, Queue, Store, next_number};
use crate::rows::{
    dead_row, delivered_row, first_delivery, next_message, out_count, publish_limit, purge_rows,
    put_row, ready_count,
};
use qq_base::{ConsumerId, Duplicate, Index, Memory, SessionId, Term};
use qq_entry::{Answer, Cause, DeadDone, Message, Mode, Reason, Strategy};
use qq_model::{Consumer, GoneReason, Key, MOST_CONSUMERS, Outcome, Place, Row};
use std::alloc::Global;

impl Queue {
    fn leave(&mut self, alloc: Global, session: SessionId) -> Result<(), Memory>
        ensures ok { OnOk result (Becomes (leave session) self.old self.new) }
        ensures want { IsOkUnless result Memory.Want }
    {
        drop_consumers(session, &mut self.consumers);
        self.sessions.reserve(alloc, session)?;
        self.sessions.end(session);
        Ok(())
    }
}

impl Draft {
    /// Publishes a message.
    #[tactic(auto, unfolding(qq_model::specs::Commands::enqueue))]
    pub fn enqueue(
        &mut self,
        alloc: Global,
        store: &mut Store,
        index: Index,
        message: &Message,
    ) -> Result<Answer, Memory>
        ensures ok { IfOk result (Acts (enqueue index message.now)
            store.old self.old store.new self.new) }
        ensures store { OnlyAddsMessages store.old store.new }
        ensures want { IsOkUnless result Memory.Want }
    {
        if let Some(full) = publish_limit(&store.args, &self.queue.rows) {
            return Ok(Answer::Rejected(full));
        }
        let arrival = next_number(self.queue.arrivals)?;
        let order = next_number(self.queue.orders)?;
        self.queue.rows.push(Row {
            index,
            arrival,
            count: 0,
            size: message.size,
            place: Place::Ready(Key::Back(order)),
        })?;
        self.queue.arrivals = arrival;
        self.queue.orders = order;
        store.messages.push(message.copy(alloc)?)?;
        Ok(Answer::Confirmed)
    }

    /// Takes the next message, settled at once.
    #[tactic(auto, unfolding(qq_model::specs::Commands::get))]
    pub fn get(&mut self, alloc: Global, store: &Store) -> Result<Answer, Memory>
        ensures ok { IfOk result (Replies get store.now self.old self.new) }
        ensures want { IsOkUnless result Memory.Want }
    {
        if store.args.single_active {
            return Ok(Answer::Refused(Cause::SingleActive));
        }
        let Some(row) = next_message(&self.queue.rows) else {
            return Ok(Answer::Empty);
        };
        let delivery = self.queue.delivery_of(alloc, store, 0, row)?;
        let gone = Row {
            place: Place::Gone(GoneReason::Got),
            ..row
        };
        put_row(&mut self.queue.rows, gone);
        Ok(Answer::Got(delivery))
    }

    /// Adds a consumer.
    #[tactic(auto, unfolding(qq_model::specs::Commands::subscribe))]
    pub fn subscribe(
        &mut self,
        alloc: Global,
        store: &Store,
        id: ConsumerId,
        mode: Mode,
    ) -> Result<Answer, Memory>
        ensures ok { IfOk result (Replies (subscribe id mode) store.now self.old self.new) }
        ensures want { IsOkUnless result Memory.Want }
    {
        if id.tag <= self.queue.sessions.greatest_tag(id.session) {
            return Ok(Answer::Refused(Cause::NumberSpent));
        }
        if MOST_CONSUMERS <= self.queue.consumers.len() as u64 {
            return Ok(Answer::Refused(Cause::ConsumersFull));
        }
        let turn = next_number(self.queue.turns)?;
        self.queue.turns = turn;
        self.queue.consumers.push(Consumer {
            id,
            mode,
            credit: 0,
            next_id: 1,
            count: 0,
            turn,
            cancelled: false,
        })?;
        self.queue.sessions.take_tag(id.session, id.tag);
        Ok(Answer::Subscribed)
    }

    /// Cancels a consumer.
    #[tactic(auto, unfolding(qq_model::specs::Commands::cancel))]
    pub fn cancel(&mut self, store: &Store, id: ConsumerId) -> Answer
        ensures { Replies (cancel id) store.now self.old self.new result }
    {
        let Some(consumer) = consumer_of(id, &self.queue.consumers) else {
            return Answer::Refused(Cause::NoConsumer);
        };
        if consumer.cancelled {
            return Answer::Refused(Cause::NoConsumer);
        }
        let cancelled = Consumer {
            cancelled: true,
            ..consumer
        };
        put_consumer(&mut self.queue.consumers, cancelled);
        drop_finished(&self.queue.rows, &mut self.queue.consumers);
        Answer::Done
    }

    fn credit_by_mode(
        &mut self,
        store: &Store,
        consumer: Consumer,
        credit: u64,
    ) -> Result<Answer, Memory>
        ensures ok { IfOk result (Replies (credit_by_mode consumer.mode consumer credit)
            store.now self.old self.new) }
        ensures want { IsOkUnless result Memory.Want }
    {
        if let Mode::Prefetch(_) = consumer.mode {
            return Ok(Answer::Refused(Cause::WrongMode));
        }
        let before = credit_of(consumer.id, &self.queue.rows, &self.queue.consumers);
        let credited = Consumer {
            credit: credit.saturating_sub(consumer.count),
            ..consumer
        };
        put_consumer(&mut self.queue.consumers, credited);
        self.queue.begin_to_wait(before, consumer.id)?;
        Ok(Answer::Credited { drained: 0 })
    }

    /// Sets the link credit of a consumer.
    #[tactic(auto, unfolding(qq_model::specs::Commands::give_credit))]
    pub fn give_credit(
        &mut self,
        store: &Store,
        id: ConsumerId,
        credit: u64,
    ) -> Result<Answer, Memory>
        ensures ok { IfOk result (Replies (give_credit id credit) store.now self.old self.new) }
        ensures want { IsOkUnless result Memory.Want }
    {
        let Some(consumer) = consumer_of(id, &self.queue.consumers) else {
            return Ok(Answer::Refused(Cause::NoConsumer));
        };
        if consumer.cancelled {
            return Ok(Answer::Refused(Cause::NoConsumer));
        }
        self.credit_by_mode(store, consumer, credit)
    }

    fn end_delivery(
        &mut self,
        alloc: Global,
        store: &Store,
        outcome: Outcome,
        row: Row,
    ) -> Result<(), Memory>
        ensures ok { OnOk result (Changes (end_delivery outcome row) store.now self.old self.new) }
        ensures want { IsOkUnless result Memory.Want }
    {
        match outcome {
            Outcome::Settled => {
                let gone = Row {
                    place: Place::Gone(GoneReason::Settled),
                    ..row
                };
                put_row(&mut self.queue.rows, gone);
                Ok(())
            }
            Outcome::Returned => self.return_row(alloc, store, row),
            Outcome::Discarded => self.die(alloc, store, Reason::Rejected, row),
        }
    }

    fn end_delivery_by(
        &mut self,
        alloc: Global,
        store: &Store,
        outcome: Outcome,
        row: Option<Row>,
    ) -> Result<(), Memory>
        ensures ok { OnOk result (Changes (end_delivery_by outcome row)
            store.now self.old self.new) }
        ensures want { IsOkUnless result Memory.Want }
    {
        match row {
            None => Ok(()),
            Some(row) => self.end_delivery(alloc, store, outcome, row),
        }
    }

    fn end_deliveries(
        &mut self,
        alloc: Global,
        store: &Store,
        outcome: Outcome,
        consumer: ConsumerId,
        ids: &[u64],
    ) -> Result<(), Memory>
        ensures ok { OnOk result (Changes (end_deliveries outcome consumer ids.now)
            store.now self.old self.new) }
        ensures want { IsOkUnless result Memory.Want }
    {
        for id in ids {
            let row = delivered_row(consumer, *id, &self.queue.rows);
            self.end_delivery_by(alloc, store, outcome, row)?;
        }
        Ok(())
    }

    /// Settles, returns or discards deliveries.
    #[tactic(auto, unfolding(qq_model::specs::Commands::finish))]
    pub fn finish(
        &mut self,
        alloc: Global,
        store: &Store,
        outcome: Outcome,
        consumer: ConsumerId,
        ids: &[u64],
    ) -> Result<Answer, Memory>
        ensures ok { IfOk result (Replies (finish outcome consumer ids.now)
            store.now self.old self.new) }
        ensures want { IsOkUnless result Memory.Want }
    {
        let Some(_) = consumer_of(consumer, &self.queue.consumers) else {
            return Ok(Answer::Refused(Cause::NoConsumer));
        };
        let before = credit_of(consumer, &self.queue.rows, &self.queue.consumers);
        self.end_deliveries(alloc, store, outcome, consumer, ids)?;
        drop_finished(&self.queue.rows, &mut self.queue.consumers);
        self.queue.begin_to_wait(before, consumer)?;
        Ok(Answer::Done)
    }

    /// Removes all ready messages.
    #[tactic(auto, unfolding(qq_model::specs::Commands::purge))]
    pub fn purge(&mut self, store: &Store) -> Answer
        ensures { Replies purge store.now self.old self.new result }
    {
        let count = ready_count(&self.queue.rows) as u64;
        purge_rows(&mut self.queue.rows);
        Answer::Purged { count }
    }

    fn return_first(
        &mut self,
        alloc: Global,
        store: &Store,
        consumer: ConsumerId,
    ) -> Result<bool, Memory>
        ensures ok { IfOk result (GoesOn (return_first consumer) store.now self.old self.new) }
        ensures still { IfOk result (λ did. did ≡ false → self.new ≡ self.old) }
        ensures want { IsOkUnless result Memory.Want }
    {
        let Some(row) = first_delivery(consumer, &self.queue.rows) else {
            return Ok(false);
        };
        self.return_row(alloc, store, row)?;
        Ok(true)
    }

    #[tactic(auto, unfolding(qq_model::specs::Commands::return_all))]
    fn return_all(&mut self, alloc: Global, store: &Store, consumer: Consumer) -> Result<(), Memory>
        ensures ok { OnOk result (Changes (return_all consumer) store.now self.old self.new) }
        ensures want { IsOkUnless result Memory.Want }
    {
        let out = out_count(consumer.id, &self.queue.rows);
        'rounds: for _round in 0..out {
            if !self.return_first(alloc, store, consumer.id)? {
                return Ok(());
            }
        }
        Ok(())
    }

    fn return_if(
        &mut self,
        alloc: Global,
        store: &Store,
        session: SessionId,
        consumer: Consumer,
    ) -> Result<(), Memory>
        ensures ok { OnOk result (Changes (return_if session consumer)
            store.now self.old self.new) }
        ensures want { IsOkUnless result Memory.Want }
    {
        if is_of_session(session, consumer) {
            return self.return_all(alloc, store, consumer);
        }
        Ok(())
    }

    fn return_session(
        &mut self,
        alloc: Global,
        store: &Store,
        session: SessionId,
        consumers: &[Consumer],
    ) -> Result<(), Memory>
        ensures ok { OnOk result (Changes (return_session session consumers.now)
            store.now self.old self.new) }
        ensures want { IsOkUnless result Memory.Want }
    {
        for consumer in consumers {
            self.return_if(alloc, store, session, *consumer)?;
        }
        Ok(())
    }

    /// Ends a session.
    #[tactic(auto, unfolding(qq_model::specs::Commands::down))]
    pub fn down(
        &mut self,
        alloc: Global,
        store: &Store,
        session: SessionId,
    ) -> Result<Answer, Memory>
        ensures ok { IfOk result (Replies (down session) store.now self.old self.new) }
        ensures want { IsOkUnless result Memory.Want }
    {
        let consumers = Vec::from_slice(alloc, &self.queue.consumers)?;
        self.return_session(alloc, store, session, &consumers)?;
        self.queue.leave(alloc, session)?;
        Ok(Answer::Down)
    }

    /// Attaches the dead-letter worker of a term.
    #[tactic(auto, unfolding(qq_model::specs::Commands::dead_attach))]
    pub fn dead_attach(&mut self, store: &Store, term: Term) -> Answer
        ensures { Replies (dead_attach term) store.now self.old self.new result }
    {
        if is_at_least_once(store.args.strategy) && self.queue.attached < term.0 {
            self.queue.attached = term.0;
            self.queue.given = 0;
            return Answer::Attached;
        }
        Answer::Stale
    }

    fn settle_dead_by(&mut self, store: &Store, row: Option<Row>, count: u64) -> Result<u64, Memory>
        ensures ok { IfOk result (Settles (settle_dead_by row) store.now self.old count self.new) }
        ensures want { IsOkUnless result Memory.Want }
    {
        let Some(row) = row else {
            return Ok(count);
        };
        let gone = Row {
            place: Place::Gone(GoneReason::DeadLettered),
            ..row
        };
        put_row(&mut self.queue.rows, gone);
        next_number(count)
    }

    fn given_row(&self, store: &Store, number: u64) -> Option<Row>
        ensures { result ≡ given_row number (state_of store.now self.now.queue) }
    {
        if number <= self.queue.given {
            return dead_row(number, &self.queue.rows);
        }
        None
    }

    fn settle_dead(&mut self, store: &Store, done: &[DeadDone]) -> Result<u64, Memory>
        ensures ok { IfOk result (λ count. settle_dead done.now (progress_of store.now self.old)
            ≡ record { progress = progress_of store.now self.new; count = count }) }
        ensures want { IsOkUnless result Memory.Want }
    {
        let mut count = 0;
        for one in done {
            let row = self.given_row(store, one.number);
            count = self.settle_dead_by(store, row, count)?;
        }
        Ok(count)
    }

    /// Settles dead letters.
    #[tactic(auto, unfolding(qq_model::specs::Commands::dead_settle))]
    pub fn dead_settle(
        &mut self,
        store: &Store,
        term: Term,
        done: &[DeadDone],
    ) -> Result<Answer, Memory>
        ensures ok { IfOk result (Replies (dead_settle term done.now) store.now self.old self.new) }
        ensures want { IsOkUnless result Memory.Want }
    {
        if is_at_least_once(store.args.strategy) && term.0 == self.queue.attached {
            let count = self.settle_dead(store, done)?;
            return Ok(Answer::DeadSettled { count });
        }
        Ok(Answer::Stale)
    }
}

fn is_of_session(session: SessionId, consumer: Consumer) -> bool
    ensures { result ≡ is_of_session session consumer }
{
    consumer.id.session == session
}

fn drop_consumers(session: SessionId, consumers: &mut Vec<Consumer>)
    ensures { consumers.new.items
        ≡ filter (λ one. not (is_of_session session one)) consumers.old.items }
{
    consumers.retain(|consumer| !is_of_session(session, *consumer));
}

fn is_at_least_once(strategy: Strategy) -> bool
    ensures { result ≡ is_at_least_once strategy }
{
    matches!(strategy, Strategy::AtLeastOnce)
}
