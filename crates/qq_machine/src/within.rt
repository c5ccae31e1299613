//! Whether a number of a queue has passed its end.
ghost use Rattle.std.specs.Prelude.{◌≡◌, ◌+◌, true, false, nat_le, slice_get, IfOk, IfErr, IsOkUnless, OnOk};
ghost use Rattle.std.specs.Option.{option_map_or};
ghost use Rattle.std.specs.List.{list_all};
ghost use Rattle.qq_base.specs.Causes.{SpentOnlyWhere};
ghost use Rattle.qq_base.specs.declared.memory.TheConstants.{NUMBER_END};
ghost use Rattle.qq_entry.specs.declared.queue.QueueArgs.{QueueArgs};
ghost use Rattle.qq_laws.specs.Far.{are_far};
ghost use Rattle.qq_machine.specs.Views.{parts_of, rest_of};
ghost use Rattle.qq_machine.specs.Within.{is_one_within, are_within, AreTold};

use crate::queue::Queue;
use qq_base::{Memory, NUMBER_END};
use qq_consumer::Consumers;
use qq_laws::HALFWAY;
use std::alloc::Global;

fn is_within_at(consumers: &Consumers, place: usize) -> bool
    ensures { result
        ≡ option_map_or is_one_within (slice_get consumers.now.roster.served place) true }
{
    match consumers.row_at(place) {
        None => true,
        Some(row) => row.consumer.next_id <= NUMBER_END && row.consumer.count <= NUMBER_END,
    }
}

fn are_consumers_within(consumers: &Consumers) -> bool
    ensures { result ≡ list_all is_one_within consumers.now.roster.served }
{
    'consumers: for place in 0..consumers.len() {
        let within = is_within_at(consumers, place);
        if !within {
            return false;
        }
    }
    true
}

fn are_few(orders: u64, returns: u64) -> bool
    ensures { result ≡ nat_le (orders + returns) NUMBER_END }
{
    match orders.checked_add(returns) {
        None => false,
        Some(given) => given <= NUMBER_END,
    }
}

impl Queue {
    fn are_far(&self) -> bool
        ensures { (args : QueueArgs) → result ≡ are_far (rest_of args self.now) }
    {
        let (orders, returns) = self.ready.store().counters();
        let (deads, _, _) = self.dead.store().counters();
        let turns = self.consumers.turns();
        self.applied <= HALFWAY
            && self.arrivals <= HALFWAY
            && orders <= HALFWAY
            && returns <= HALFWAY
            && deads <= HALFWAY
            && turns <= HALFWAY
    }

    fn is_within_ends(&self, alloc: Global) -> Result<bool, Memory>
        ensures ok { IfOk result (λ within. (args : QueueArgs) →
            within ≡ are_within (parts_of args self.now)) }
        ensures want { IsOkUnless result Memory.Want }
    {
        let sessions = self.sessions.are_within(alloc)?;
        let consumers = are_consumers_within(self.consumers.table());
        let (orders, returns) = self.ready.store().counters();
        let (deads, _, _) = self.dead.store().counters();
        let turns = self.consumers.turns();
        Ok(
            self.applied <= NUMBER_END
                && self.arrivals <= NUMBER_END
                && orders <= NUMBER_END
                && returns <= NUMBER_END
                && deads <= NUMBER_END
                && turns <= NUMBER_END
                && consumers
                && sessions,
        )
    }

    /// `Spent` comes exactly where a number has passed its end. It goes through the consumers and a copy of
    /// the sessions only where a counter has passed half of its range; there memory is out too where the
    /// places that were given don't say of each message how often it was returned.
    pub fn check_ends(&self, alloc: Global) -> Result<(), Memory>
        ensures ok { OnOk result ((args : QueueArgs) → AreTold (parts_of args self.now)) }
        ensures cause { IfErr result (λ e. SpentOnlyWhere e NUMBER_END
            ((args : QueueArgs) → are_within (parts_of args self.now) ≡ false)) }
    {
        let far = self.are_far();
        if far {
            return Ok(());
        }
        let within = match self.is_within_ends(alloc) {
            Ok(within) => within,
            Err(cause) => return Err(cause),
        };
        if !within {
            return Err(Memory::Spent { number: NUMBER_END });
        }
        let (orders, returns) = self.ready.store().counters();
        let few = are_few(orders, returns);
        if !few {
            return Err(Memory::Want);
        }
        Ok(())
    }
}
