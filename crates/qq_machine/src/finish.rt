//! Deliveries end by a Settle, a Return or a Discard.
ghost use Rattle.std.specs.Prelude.{◌≡◌, IfOk, IsOkUnless, OnOk};
ghost use Rattle.std.specs.Option.{option_map};
ghost use Rattle.qq_model.specs.declared.place.Place.{Place};
ghost use Rattle.qq_entry.specs.declared.queue.QueueArgs.{QueueArgs};
ghost use Rattle.qq_parts.specs.Parts.{IsWhole};
ghost use Rattle.qq_parts.specs.Commands.{parts_finish};
ghost use Rattle.qq_machine.specs.Views.{parts_of, work_of, Changes, Replies, end_taken, KeepsBase};

use crate::queue::{Draft, Queue, next_number};
use qq_base::{ConsumerId, Memory};
use qq_entry::{Answer, Cause, QueueArgs, ReadyRow};
use qq_model::Outcome;
use std::alloc::Global;
use std::collections::VecDeque;

impl Queue {
    /// How many messages are ready, how many are dead, and how many consumers there are. The parts
    /// are whole.
    pub fn sizes(&self) -> (u64, usize, usize)
        ensures { (args : QueueArgs) → IsWhole (parts_of args self.now) }
    {
        let ready = self.ready.store();
        let dead = self.dead.store();
        ready.counters();
        dead.counters();
        (ready.count(), dead.len(), self.consumers.len())
    }
}

impl Draft {
    fn end_taken(
        &mut self,
        args: &QueueArgs,
        outcome: Outcome,
        rows: Option<VecDeque<ReadyRow>>,
    ) -> Result<(), Memory>
        ensures ok { OnOk result ((place : Place) → Changes
            (end_taken outcome place (option_map (λ r. r.items) rows)) args.now self.old self.new) }
        ensures base { KeepsBase self.old.queue self.new.queue }
        ensures want { IsOkUnless result Memory.Want }
    {
        match rows {
            None => Ok(()),
            Some(rows) => {
                self.end_rows(args, outcome, rows)?;
                Ok(())
            }
        }
    }

    /// Settles, returns or discards deliveries.
    #[tactic(auto, unfolding(qq_parts::specs::Commands::parts_finish))]
    pub fn finish(
        &mut self,
        alloc: Global,
        args: &QueueArgs,
        outcome: Outcome,
        consumer: ConsumerId,
        ids: &[u64],
    ) -> Result<Answer, Memory>
        ensures ok { IfOk result (Replies (parts_finish outcome consumer ids.now)
            args.now self.old self.new) }
        ensures base { KeepsBase self.old.queue self.new.queue }
        ensures want { IsOkUnless result Memory.Want }
    {
        self.queue.sizes();
        let Some(_row) = self.queue.consumers.row_of(consumer) else {
            return Ok(Answer::Refused(Cause::NoConsumer));
        };
        next_number(self.queue.consumers.turns())?;
        let rows = self.queue.consumers.take_out(alloc, consumer, ids)?;
        self.end_taken(args, outcome, rows)?;
        Ok(Answer::Done)
    }
}
