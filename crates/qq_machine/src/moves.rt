//! Messages are taken out of a queue's parts, and put in.
ghost use Rattle.std.specs.Prelude.{◌≡◌, ◌+◌, ◌<◌, ◌≤◌, ◌^◌, Option, Some, None, IfOk, IfSome, IfNone, IsOkUnless, OnOk};
ghost use Rattle.qq_model.specs.declared.place.Place.{Place};
ghost use Rattle.qq_entry.specs.declared.queue.QueueArgs.{QueueArgs};
ghost use Rattle.qq_parts.specs.Changes.{take_first, push_back, push_front, push_dead, arrive};
ghost use Rattle.qq_consumer.specs.Roster.{item_at};
ghost use Rattle.qq_machine.specs.Views.{parts_of, Becomes, IsFirst, KeepsBase};

use crate::queue::{Queue, next_number};
use qq_base::{Duplicate, Index, Memory};
use qq_entry::{Message, ReadyRow, Reason};
use std::alloc::Global;

impl Queue {
    /// Takes out the next message.
    pub fn take_first(&mut self) -> Result<Option<ReadyRow>, Memory>
        ensures some { IfOk result (λ taken. IfSome taken (λ row.
            IsFirst row self.old self.new)) }
        ensures none { IfOk result (λ taken. IfNone taken
            ((args : QueueArgs) → take_first (parts_of args self.old) ≡ None)) }
        ensures consumers { self.new.consumers ≡ self.old.consumers }
        ensures still { IfOk result (λ taken. IfNone taken
            ((args : QueueArgs) → parts_of args self.new ≡ parts_of args self.old)) }
        ensures base { KeepsBase self.old self.new }
        ensures want { IsOkUnless result Memory.Want }
    {
        let taken = self.ready.pop_next()?;
        Ok(taken)
    }

    /// Puts a message at the back.
    #[inline(always)]
    pub fn push_back(&mut self, row: ReadyRow) -> Result<(), Memory>
        ensures ok { OnOk result
            ((place : Place) → Becomes (push_back (item_at place row)) self.old self.new) }
        ensures base { KeepsBase self.old self.new }
        ensures want { IsOkUnless result Memory.Want }
    {
        let (orders, _) = self.ready.store().counters();
        if let Err(cause) = next_number(orders) {
            drop(row);
            return Err(cause);
        }
        self.ready.push_back(row)
    }

    /// Puts a message that was returned under a delivery limit behind those returned before.
    pub fn push_front(&mut self, row: ReadyRow) -> Result<(), Memory>
        ensures ok { OnOk result
            ((place : Place) → Becomes (push_front (item_at place row)) self.old self.new) }
        ensures base { KeepsBase self.old self.new }
        ensures want { IsOkUnless result Memory.Want }
    {
        let (_, returns) = self.ready.store().counters();
        if let Err(cause) = next_number(returns) {
            drop(row);
            return Err(cause);
        }
        self.ready.push_returned(row)
    }

    /// Keeps a message that has died.
    pub fn push_dead(&mut self, reason: Reason, row: ReadyRow) -> Result<(), Memory>
        ensures ok { OnOk result
            ((place : Place) → Becomes (push_dead reason (item_at place row)) self.old self.new) }
        ensures base { KeepsBase self.old self.new }
        ensures want { IsOkUnless result Memory.Want }
    {
        let (deads, _, _) = self.dead.store().counters();
        if let Err(cause) = next_number(deads) {
            drop(row);
            return Err(cause);
        }
        self.dead.add(row, reason)?;
        Ok(())
    }

    /// Puts a new message at the back.
    #[inline(always)]
    pub fn arrive(&mut self, alloc: Global, index: Index, message: &Message) -> Result<(), Memory>
        ensures ok { OnOk result (Becomes (arrive index message.now) self.old self.new) }
        ensures base { KeepsBase self.old self.new }
        ensures want { IsOkUnless result Memory.Want }
    {
        let arrival = next_number(self.arrivals)?;
        let row = ReadyRow {
            index,
            arrival,
            count: 0,
            message: message.copy(alloc)?,
        };
        self.push_back(row)?;
        self.arrivals = arrival;
        Ok(())
    }
}
