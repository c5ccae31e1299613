//! Messages that were taken out die, go back, or are gone.
ghost use Rattle.std.specs.Prelude.{◌≡◌, ◌+◌, ◌<◌, ◌^◌, fold, IfOk, IsOkUnless, OnOk};
ghost use Rattle.qq_model.specs.declared.place.Place.{Place};
ghost use Rattle.qq_parts.specs.Changes.{put_back};
ghost use Rattle.qq_parts.specs.Work.{Work};
ghost use Rattle.qq_parts.specs.Ends.{parts_die, parts_return, parts_end};
ghost use Rattle.qq_consumer.specs.Roster.{item_at};
ghost use Rattle.qq_machine.specs.Views.{work_of, Becomes, Changes, return_counted, end_rows, KeepsBase};

use crate::queue::{Draft, Queue, next_number};
use qq_base::Memory;
use qq_entry::{Effect, QueueArgs, ReadyRow, Reason, Strategy};
use qq_model::Outcome;
use qq_rules::dies;
use std::collections::VecDeque;

impl Queue {
    /// A message goes back: before all others under a delivery limit, else to the back.
    fn put_back(&mut self, limit: Option<u64>, row: ReadyRow) -> Result<(), Memory>
        ensures ok { OnOk result
            ((place : Place) → Becomes (put_back limit (item_at place row)) self.old self.new) }
        ensures base { KeepsBase self.old self.new }
        ensures want { IsOkUnless result Memory.Want }
    {
        match limit {
            None => {
                self.push_back(row)?;
                Ok(())
            }
            Some(_) => {
                self.push_front(row)?;
                Ok(())
            }
        }
    }
}

impl Draft {
    /// A message dies.
    pub fn die(&mut self, args: &QueueArgs, reason: Reason, row: ReadyRow) -> Result<(), Memory>
        ensures ok { OnOk result ((place : Place) → Changes
            (parts_die reason (item_at place row)) args.now self.old self.new) }
        ensures base { KeepsBase self.old.queue self.new.queue }
        ensures want { IsOkUnless result Memory.Want }
    {
        match args.strategy {
            Strategy::Absent => Ok(()),
            Strategy::AtMostOnce => {
                let message = row.message;
                self.effects.push(Effect::DeadOnce { reason, message })?;
                Ok(())
            }
            Strategy::AtLeastOnce => {
                self.queue.push_dead(reason, row)?;
                Ok(())
            }
        }
    }

    fn return_counted(&mut self, args: &QueueArgs, row: ReadyRow) -> Result<(), Memory>
        ensures ok { OnOk result ((place : Place) → Changes
            (return_counted (item_at place row)) args.now self.old self.new) }
        ensures base { KeepsBase self.old.queue self.new.queue }
        ensures want { IsOkUnless result Memory.Want }
    {
        if dies(args, row.count) {
            return self.die(args, Reason::DeliveryLimit, row);
        }
        self.queue.put_back(args.delivery_limit, row)
    }

    /// A message is returned to the queue.
    pub fn return_row(&mut self, args: &QueueArgs, row: ReadyRow) -> Result<(), Memory>
        ensures ok { OnOk result ((place : Place) → Changes
            (parts_return (item_at place row)) args.now self.old self.new) }
        ensures base { KeepsBase self.old.queue self.new.queue }
        ensures want { IsOkUnless result Memory.Want }
    {
        let count = next_number(row.count)?;
        self.return_counted(args, ReadyRow { count, ..row })?;
        Ok(())
    }

    fn end_row(&mut self, args: &QueueArgs, outcome: Outcome, row: ReadyRow) -> Result<(), Memory>
        ensures ok { OnOk result ((place : Place) → Changes
            (parts_end outcome (item_at place row)) args.now self.old self.new) }
        ensures base { KeepsBase self.old.queue self.new.queue }
        ensures want { IsOkUnless result Memory.Want }
    {
        match outcome {
            Outcome::Settled => Ok(()),
            Outcome::Returned => self.return_row(args, row),
            Outcome::Discarded => self.die(args, Reason::Rejected, row),
        }
    }

    /// Messages that were taken out are settled, returned or discarded, in this order.
    pub fn end_rows(
        &mut self,
        args: &QueueArgs,
        outcome: Outcome,
        mut rows: VecDeque<ReadyRow>,
    ) -> Result<(), Memory>
        ensures ok { OnOk result ((place : Place) → Changes
            (end_rows outcome place rows.items) args.now self.old self.new) }
        ensures base { KeepsBase self.old.queue self.new.queue }
        ensures want { IsOkUnless result Memory.Want }
    {
        'rows: while let Some(row) = rows.pop_front() {
            self.end_row(args, outcome, row)?;
        }
        Ok(())
    }
}
