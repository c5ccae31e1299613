//! What follows on each command: deliveries, the limits, and dead letters for the worker.
ghost use Rattle.std.specs.Prelude.{◌≡◌, ◌+◌, ◌<◌, ◌^◌, IfOk, IfSome, IfNone, IsOkUnless, OnOk, false};
ghost use Rattle.qq_entry.specs.declared.queue.QueueArgs.{QueueArgs};
ghost use Rattle.qq_model.specs.Serving.{is_credited};
ghost use Rattle.qq_parts.specs.Follows.{parts_check_out, parts_check_out_all, parts_drop_head, parts_keep_limits, parts_give_dead, parts_give_all_dead, is_over};
ghost use Rattle.qq_parts.specs.Commands.{parts_drain, parts_drain_after};
ghost use Rattle.qq_machine.specs.Views.{work_of, parts_of, Becomes, Changes, Replies, GoesOn, IsNextIn, IsLinkAt, HasLinkFor, Delivers, KeepsBase};
ghost use Rattle.qq_consumer.specs.Roster.{item_at, HoldsAt, CanCount};
ghost use Rattle.qq_consumer.specs.Turns.{waiting_turn};
ghost use Rattle.qq_model.specs.declared.place.Place.{Place};
ghost use Rattle.std.specs.Prelude.{true, is_some};

use crate::queue::{Draft, Queue, next_number};
use qq_base::{ConsumerId, Duplicate, Memory};
use qq_entry::{Answer, Command, Delivery, Effect, Message, Mode, QueueArgs, ReadyRow, Reason};
use qq_rules::over;
use qq_service::next;
use std::alloc::Global;
use std::mem;

fn is_credited(answer: &Answer) -> bool
    ensures { result ≡ is_credited answer.now }
{
    matches!(answer, Answer::Credited { .. })
}

impl Queue {
    fn next_one(&self, single: bool) -> Option<ConsumerId>
        ensures { IsNextIn single self.now.consumers.roster.served result }
    {
        if self.consumers.len() == 0 {
            return None;
        }
        if single {
            next(self.consumers.table(), true)
        } else {
            self.consumers.next_waiting()
        }
    }

    // The numbers that a delivery raises fit 64 bits.
    fn can_deliver(&self, id: ConsumerId) -> Result<(), Memory>
        ensures turns { OnOk result (self.now.consumers.roster.turns + 1 < 2 ^ 64) }
        ensures counts { OnOk result (HoldsAt CanCount id self.now.consumers.roster) }
        ensures want { IsOkUnless result Memory.Want }
    {
        next_number(self.consumers.turns())?;
        let Some(row) = self.consumers.row_of(id) else {
            return Ok(());
        };
        next_number(row.consumer.next_id)?;
        next_number(row.consumer.count)?;
        Ok(())
    }
}

impl Draft {
    fn deliver(&mut self, alloc: Global, id: ConsumerId, row: ReadyRow) -> Result<(), Memory>
        requires { is_some (waiting_turn self.old.queue.consumers.roster.served id) ≡ true }

        ensures ok { OnOk result
            ((place : Place) → Delivers id (item_at place row) self.old self.new) }
        ensures base { KeepsBase self.old.queue self.new.queue }
        ensures want { IsOkUnless result Memory.Want }
    {
        if let Err(cause) = self.queue.can_deliver(id) {
            drop(row);
            return Err(cause);
        }
        let message = match row.message.copy(alloc) {
            Ok(message) => message,
            Err(cause) => {
                drop(row);
                return Err(cause);
            }
        };
        let (index, arrival, count) = (row.index, row.arrival, row.count);
        let number = match self.queue.consumers.check_out(id, row) {
            Ok(number) => number,
            Err(cause) => {
                drop(message);
                return Err(cause);
            }
        };
        self.effects.push(Effect::Deliver(
            id,
            Delivery {
                index,
                arrival,
                id: number,
                count,
                message,
            },
        ))?;
        Ok(())
    }

    #[tactic(auto, unfolding(qq_parts::specs::Follows::parts_check_out))]
    fn check_out(&mut self, alloc: Global, args: &QueueArgs) -> Result<bool, Memory>
        ensures ok { IfOk result (GoesOn parts_check_out args.now self.old self.new) }
        ensures still { IfOk result
            (λ did. did ≡ false → work_of args.now self.new ≡ work_of args.now self.old) }
        ensures base { KeepsBase self.old.queue self.new.queue }
        ensures want { IsOkUnless result Memory.Want }
    {
        let Some(id) = self.queue.next_one(args.single_active) else {
            return Ok(false);
        };
        let taken = self.queue.take_first()?;
        let row = match taken {
            None => return Ok(false),
            Some(row) => row,
        };
        self.deliver(alloc, id, row)?;
        Ok(true)
    }

    /// Delivers messages while there is a next message and a next consumer.
    #[tactic(auto, unfolding(qq_parts::specs::Follows::parts_check_out_all))]
    pub fn check_out_all(&mut self, alloc: Global, args: &QueueArgs) -> Result<(), Memory>
        ensures ok { OnOk result (Changes parts_check_out_all args.now self.old self.new) }
        ensures base { KeepsBase self.old.queue self.new.queue }
        ensures want { IsOkUnless result Memory.Want }
    {
        let ready = self.queue.ready.store().count();
        'rounds: for _round in 0..ready {
            if !self.check_out(alloc, args)? {
                return Ok(());
            }
        }
        Ok(())
    }

    fn drain(
        &mut self,
        args: &QueueArgs,
        id: ConsumerId,
        wanted: bool,
        answer: &mut Answer,
    ) -> Result<(), Memory>
        requires { is_credited answer.old ≡ true
            → IsLinkAt id self.old.queue.consumers.roster.served }

        ensures ok { OnOk result (Replies
            (λ t. parts_drain id wanted (record { work = t; answer = answer.old }))
            args.now self.old self.new answer.new) }
        ensures base { KeepsBase self.old.queue self.new.queue }
        ensures want { IsOkUnless result Memory.Want }
    {
        if !wanted || !is_credited(answer) {
            return Ok(());
        }
        let Some(row) = self.queue.consumers.row_of(id) else {
            return Ok(());
        };
        // A consumer with a prefetch is never answered `Credited`.
        let Mode::Link = row.consumer.mode else {
            unreachable!()
        };
        if row
            .consumer
            .count
            .checked_add(row.consumer.credit)
            .is_none()
        {
            return Err(Memory::Want);
        }
        let drained = self.queue.consumers.drain(id)?;
        drop(mem::replace(answer, Answer::Credited { drained }));
        Ok(())
    }

    /// Leaves no credit after a Credit with drain.
    #[tactic(auto, unfolding(qq_parts::specs::Commands::parts_drain_after))]
    pub fn drain_after(
        &mut self,
        args: &QueueArgs,
        command: &Command,
        answer: &mut Answer,
    ) -> Result<(), Memory>
        requires { HasLinkFor command.now answer.old self.old.queue.consumers.roster.served }

        ensures ok { OnOk result (Replies
            (λ t. parts_drain_after command.now (record { work = t; answer = answer.old }))
            args.now self.old self.new answer.new) }
        ensures base { KeepsBase self.old.queue self.new.queue }
        ensures want { IsOkUnless result Memory.Want }
    {
        match command {
            Command::Credit {
                stamp,
                tag,
                drain,
                ..
            } => self.drain(args, stamp.consumer_id(*tag), *drain, answer),
            _ => Ok(()),
        }
    }

    #[tactic(auto, unfolding(qq_parts::specs::Follows::parts_drop_head))]
    fn drop_head(&mut self, args: &QueueArgs) -> Result<bool, Memory>
        ensures ok { IfOk result (GoesOn parts_drop_head args.now self.old self.new) }
        ensures still { IfOk result
            (λ did. did ≡ false → work_of args.now self.new ≡ work_of args.now self.old) }
        ensures base { KeepsBase self.old.queue self.new.queue }
        ensures want { IsOkUnless result Memory.Want }
    {
        let ready = self.queue.ready.store();
        if !over(args, ready.count(), ready.bytes()) {
            return Ok(false);
        }
        let taken = self.queue.take_first()?;
        let row = match taken {
            None => return Ok(false),
            Some(row) => row,
        };
        self.die(args, Reason::MaxLen, row)?;
        Ok(true)
    }

    /// Lets messages at the front die while the queue has grown past its limit.
    #[tactic(auto, unfolding(qq_parts::specs::Follows::parts_keep_limits))]
    pub fn keep_limits(&mut self, args: &QueueArgs) -> Result<(), Memory>
        ensures ok { OnOk result (Changes parts_keep_limits args.now self.old self.new) }
        ensures base { KeepsBase self.old.queue self.new.queue }
        ensures want { IsOkUnless result Memory.Want }
    {
        let ready = self.queue.ready.store().count();
        'rounds: for _round in 0..ready {
            if !self.drop_head(args)? {
                return Ok(());
            }
        }
        Ok(())
    }

    #[tactic(auto, unfolding(qq_parts::specs::Follows::parts_give_dead))]
    fn give_dead(&mut self, alloc: Global, args: &QueueArgs) -> Result<bool, Memory>
        ensures ok { IfOk result (GoesOn parts_give_dead args.now self.old self.new) }
        ensures still { IfOk result
            (λ did. did ≡ false → work_of args.now self.new ≡ work_of args.now self.old) }
        ensures base { KeepsBase self.old.queue self.new.queue }
        ensures want { IsOkUnless result Memory.Want }
    {
        let Some(one) = self.queue.dead.store().next_offer() else {
            return Ok(false);
        };
        let effect = Effect::Offer {
            number: one.number,
            reason: one.reason,
            message: one.row.message.copy(alloc)?,
        };
        self.effects.push(effect)?;
        self.queue.dead.give();
        Ok(true)
    }

    /// Offers dead messages to the worker while it has room for them.
    #[tactic(auto, unfolding(qq_parts::specs::Follows::parts_give_all_dead))]
    pub fn give_all_dead(&mut self, alloc: Global, args: &QueueArgs) -> Result<(), Memory>
        ensures ok { OnOk result (Changes parts_give_all_dead args.now self.old self.new) }
        ensures base { KeepsBase self.old.queue self.new.queue }
        ensures want { IsOkUnless result Memory.Want }
    {
        let dead = self.queue.dead.store().len();
        'rounds: for _round in 0..dead {
            if !self.give_dead(alloc, args)? {
                return Ok(());
            }
        }
        Ok(())
    }
}
