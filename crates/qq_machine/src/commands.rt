//! What each command does and answers, but for those that end deliveries.
ghost use Rattle.std.specs.Prelude.{◌≡◌, ◌+◌, length, slice_get, if◌then◌else◌, IfOk, IsOkUnless, OnOk};
ghost use Rattle.qq_entry.specs.declared.queue.QueueArgs.{QueueArgs};
ghost use Rattle.std.specs.Option.{option_map_or};
ghost use Rattle.qq_parts.specs.Parts.{items_of, outs};
ghost use Rattle.qq_parts.specs.Commands.{parts_enqueue, parts_get, parts_subscribe, parts_cancel, parts_give_credit, parts_purge, parts_dead_attach, parts_settle_dead, parts_settle_dead_by, take_given, parts_dead_settle, full_by};
ghost use Rattle.qq_model.specs.Commands.{is_at_least_once};
ghost use Rattle.qq_machine.specs.Views.{work_of, parts_of, Becomes, Changes, Replies, KeepsBase, KeepsStamp};
ghost use Rattle.qq_machine.specs.Gated.{begun};
ghost use Rattle.qq_entry.specs.Command.{consumer_id};
ghost use Rattle.std.specs.Prelude.{Some};

use crate::queue::{Draft, Queue, next_number};
use qq_base::{ConsumerId, Index, Memory, Term};
use qq_consumer::CreditFault;
use qq_entry::{
    Answer, Cause, DeadDone, Delivery, Full, Message, Mode, QueueArgs, Stamp, Strategy,
};
use qq_model::MOST_CONSUMERS;
use qq_rules::refuses;
use std::alloc::Global;

// A sum that fits. Lists in memory are never so long that theirs doesn't.
pub fn add(a: u64, b: u64) -> Result<u64, Memory>
    ensures ok { IfOk result (λ sum. sum ≡ a + b) }
    ensures want { IsOkUnless result Memory.Want }
{
    match a.checked_add(b) {
        Some(sum) => Ok(sum),
        None => Err(Memory::Want),
    }
}

fn count_if(more: bool, count: u64) -> Result<u64, Memory>
    ensures ok { IfOk result (λ after. after ≡ (if more then count + 1 else count)) }
    ensures want { IsOkUnless result Memory.Want }
{
    if more { next_number(count) } else { Ok(count) }
}

fn is_at_least_once(strategy: Strategy) -> bool
    ensures { result ≡ is_at_least_once strategy }
{
    matches!(strategy, Strategy::AtLeastOnce)
}

impl Queue {
    // How many messages aren't gone.
    #[tactic(auto, using(crate::proofs::Ready::live_count))]
    fn live(&self) -> Result<u64, Memory>
        ensures ok { IfOk result (λ count. (args : QueueArgs) →
            count ≡ length (items_of (parts_of args self.now))) }
        ensures want { IsOkUnless result Memory.Want }
    {
        let kept = add(self.consumers.out_count(), self.dead.store().len() as u64)?;
        let live = add(self.ready.store().count(), kept)?;
        Ok(live)
    }

    fn full_by(&self, args: &QueueArgs) -> Result<Option<Full>, Memory>
        ensures ok { IfOk result (λ full. full ≡ full_by (parts_of args.now self.now)) }
        ensures want { IsOkUnless result Memory.Want }
    {
        let live = self.live()?;
        let ready = self.ready.store();
        Ok(refuses(args, ready.count(), ready.bytes(), live))
    }
}

impl Draft {
    /// Publishes a message.
    #[tactic(auto, unfolding(qq_parts::specs::Commands::parts_enqueue))]
    pub fn enqueue(
        &mut self,
        alloc: Global,
        args: &QueueArgs,
        index: Index,
        message: &Message,
    ) -> Result<Answer, Memory>
        ensures ok { IfOk result (Replies (parts_enqueue index message.now)
            args.now self.old self.new) }
        ensures base { KeepsBase self.old.queue self.new.queue }
        ensures want { IsOkUnless result Memory.Want }
    {
        let full = self.queue.full_by(args)?;
        match full {
            Some(full) => Ok(Answer::Rejected(full)),
            None => {
                self.queue.arrive(alloc, index, message)?;
                Ok(Answer::Confirmed)
            }
        }
    }

    /// Takes the next message, settled at once.
    #[tactic(auto, unfolding(qq_parts::specs::Commands::parts_get))]
    pub fn get(&mut self, args: &QueueArgs) -> Result<Answer, Memory>
        ensures ok { IfOk result (Replies parts_get args.now self.old self.new) }
        ensures base { KeepsBase self.old.queue self.new.queue }
        ensures want { IsOkUnless result Memory.Want }
    {
        if args.single_active {
            return Ok(Answer::Refused(Cause::SingleActive));
        }
        let taken = self.queue.take_first()?;
        match taken {
            None => Ok(Answer::Empty),
            Some(row) => Ok(Answer::Got(Delivery {
                index: row.index,
                arrival: row.arrival,
                id: 0,
                count: row.count,
                message: row.message,
            })),
        }
    }

    /// Attaches the dead-letter worker of a term.
    #[tactic(auto, unfolding(qq_parts::specs::Commands::parts_dead_attach))]
    pub fn dead_attach(&mut self, args: &QueueArgs, term: Term) -> Answer
        ensures value { Replies (parts_dead_attach term) args.now self.old self.new result }
        ensures base { KeepsBase self.old.queue self.new.queue }
    {
        if !is_at_least_once(args.strategy) {
            return Answer::Stale;
        }
        if self.queue.dead.attach(term) {
            Answer::Attached
        } else {
            Answer::Stale
        }
    }

    /// Adds a consumer.
    #[tactic(auto, unfolding(qq_parts::specs::Commands::parts_subscribe))]
    pub fn subscribe(
        &mut self,
        alloc: Global,
        args: &QueueArgs,
        stamp: Stamp,
        tag: u32,
        mode: Mode,
    ) -> Result<Answer, Memory>
        requires { self.old.queue.sessions.pending ≡ begun (Some stamp) }

        ensures ok { IfOk result (Replies (parts_subscribe (consumer_id stamp tag) mode)
            args.now self.old self.new) }
        ensures base { KeepsStamp self.old.queue self.new.queue }
        ensures want { IsOkUnless result Memory.Want }
    {
        let greatest = self.queue.sessions.greatest_tag(&stamp);
        if tag <= greatest {
            return Ok(Answer::Refused(Cause::NumberSpent));
        }
        if MOST_CONSUMERS <= self.queue.consumers.len() as u64 {
            return Ok(Answer::Refused(Cause::ConsumersFull));
        }
        next_number(self.queue.consumers.turns())?;
        let id = stamp.consumer_id(tag);
        match self.queue.consumers.subscribe(alloc, id, mode, greatest) {
            Ok(()) => {}
            Err(_) => return Err(Memory::Want),
        }
        self.queue.sessions.take_tag(stamp, tag);
        Ok(Answer::Subscribed)
    }

    /// Cancels a consumer.
    #[tactic(auto, unfolding(qq_parts::specs::Commands::parts_cancel))]
    pub fn cancel(&mut self, args: &QueueArgs, id: ConsumerId) -> Result<Answer, Memory>
        ensures ok { IfOk result (Replies (parts_cancel id) args.now self.old self.new) }
        ensures base { KeepsBase self.old.queue self.new.queue }
        ensures want { IsOkUnless result Memory.Want }
    {
        if self.queue.consumers.cancel(id)? {
            Ok(Answer::Done)
        } else {
            Ok(Answer::Refused(Cause::NoConsumer))
        }
    }

    /// Sets the link credit of a consumer.
    #[tactic(auto, unfolding(qq_parts::specs::Commands::parts_give_credit))]
    pub fn give_credit(
        &mut self,
        args: &QueueArgs,
        id: ConsumerId,
        count: u32,
        credit: u32,
    ) -> Result<Answer, Memory>
        ensures ok { IfOk result (Replies (parts_give_credit id (count + credit))
            args.now self.old self.new) }
        ensures base { KeepsBase self.old.queue self.new.queue }
        ensures want { IsOkUnless result Memory.Want }
    {
        next_number(self.queue.consumers.turns())?;
        match self.queue.consumers.credit(id, count, credit) {
            Ok(()) => Ok(Answer::Credited { drained: 0 }),
            Err(CreditFault::Refused(cause)) => Ok(Answer::Refused(cause)),
            Err(CreditFault::Memory) => Err(Memory::Want),
        }
    }

    /// Removes all ready messages.
    #[tactic(auto, unfolding(qq_parts::specs::Commands::parts_purge))]
    pub fn purge(&mut self, args: &QueueArgs) -> Result<Answer, Memory>
        ensures ok { IfOk result (Replies parts_purge args.now self.old self.new) }
        ensures base { KeepsBase self.old.queue self.new.queue }
        ensures want { IsOkUnless result Memory.Want }
    {
        let count = self.queue.ready.store().count();
        self.queue.ready.clear()?;
        Ok(Answer::Purged { count })
    }

    #[tactic(auto, using(crate::proofs::Dead::attached_stays))]
    fn settle_one(
        &mut self,
        args: &QueueArgs,
        term: Term,
        number: u64,
        count: u64,
    ) -> Result<u64, Memory>
        requires { term.0 ≡ self.old.queue.dead.store.letters.attached }

        ensures ok { IfOk result (λ after. parts_settle_dead_by
            (take_given number (parts_of args.now self.old.queue))
            (record { work = work_of args.now self.old; count = count })
            ≡ record { work = work_of args.now self.new; count = after }) }
        ensures attached { OnOk result (self.new.queue.dead.store.letters.attached
            ≡ self.old.queue.dead.store.letters.attached) }
        ensures base { KeepsBase self.old.queue self.new.queue }
        ensures want { IsOkUnless result Memory.Want }
    {
        self.queue.dead.store().counters();
        let settled = self.queue.dead.settle(term, number)?;
        let did = settled.is_some();
        drop(settled);
        let after = count_if(did, count)?;
        Ok(after)
    }

    fn settle_dead(
        &mut self,
        args: &QueueArgs,
        term: Term,
        done: &[DeadDone],
    ) -> Result<u64, Memory>
        requires { term.0 ≡ self.old.queue.dead.store.letters.attached }

        ensures ok { IfOk result (λ count. parts_settle_dead done.now (work_of args.now self.old)
            ≡ record { work = work_of args.now self.new; count = count }) }
        ensures base { KeepsBase self.old.queue self.new.queue }
        ensures want { IsOkUnless result Memory.Want }
    {
        let mut count = 0;
        for one in done {
            count = self.settle_one(args, term, one.number, count)?;
        }
        Ok(count)
    }

    /// Settles dead letters.
    #[tactic(auto, unfolding(qq_parts::specs::Commands::parts_dead_settle))]
    pub fn dead_settle(
        &mut self,
        args: &QueueArgs,
        term: Term,
        done: &[DeadDone],
    ) -> Result<Answer, Memory>
        ensures ok { IfOk result (Replies (parts_dead_settle term done.now)
            args.now self.old self.new) }
        ensures base { KeepsBase self.old.queue self.new.queue }
        ensures want { IsOkUnless result Memory.Want }
    {
        let (_, _, attached) = self.queue.dead.store().counters();
        if !is_at_least_once(args.strategy) || term.0 != attached.0 {
            return Ok(Answer::Stale);
        }
        let count = self.settle_dead(args, term, done)?;
        Ok(Answer::DeadSettled { count })
    }
}
