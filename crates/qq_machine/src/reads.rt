//! What is read of a queue.
ghost use Rattle.std.specs.Prelude.{◌≡◌, ◌+◌, ◌-◌, ◌<◌, ◌^◌, ◌++◌, ◌∷◌, [], count_by, min, slice_get, false, if◌then◌else◌, IfOk, IsOkUnless, OnOk};
ghost use Rattle.std.specs.Option.{option_map_or};
ghost use Rattle.qq_consumer.specs.Roster.{one_of};
ghost use Rattle.qq_machine.specs.Reads.{is_current, fetched, fetched_rows};

use crate::queue::Queue;
use qq_base::{ConsumerId, Duplicate, Memory};
use qq_consumer::{Consumers, Numbered, Rising};
use qq_entry::{Delivery, ReadyRow};
use std::alloc::Global;

fn is_current(consumers: &Consumers, place: usize) -> bool
    ensures { result ≡ option_map_or is_current
        (slice_get consumers.now.roster.served place) false }
{
    match consumers.row_at(place) {
        None => false,
        Some(row) => !row.consumer.cancelled,
    }
}

fn count_after(more: bool, count: u64) -> u64
    requires { count + 1 < 2 ^ 64 }

    ensures { result ≡ (if more then count + 1 else count) }
{
    if more { count + 1 } else { count }
}

/// How many consumers weren't cancelled.
pub fn current_count(consumers: &Consumers) -> u64
    ensures { result ≡ count_by is_current consumers.now.roster.served }
{
    let mut count: u64 = 0;
    'consumers: for place in 0..consumers.len() {
        let more = is_current(consumers, place);
        count = count_after(more, count);
    }
    count
}

/// A number, as far as 32 bits count.
pub fn to_u32(number: u64) -> u32
    ensures { result ≡ min number (2 ^ 32 - 1) }
{
    number.min(u64::from(u32::MAX)) as u32
}

fn push_delivery(
    alloc: Global,
    from: u64,
    one: &Numbered<ReadyRow>,
    found: &mut Vec<Delivery>,
) -> Result<(), Memory>
    ensures ok { OnOk result (found.new.items
        ≡ found.old.items ++ fetched_rows from (one.now ∷ [])) }
    ensures want { IsOkUnless result Memory.Want }
{
    if one.number < from {
        return Ok(());
    }
    found.push(Delivery {
        index: one.item.index,
        arrival: one.item.arrival,
        id: one.number,
        count: one.item.count,
        message: one.item.message.copy(alloc)?,
    })?;
    Ok(())
}

fn fetch_rows(alloc: Global, from: u64, out: &Rising<ReadyRow>) -> Result<Vec<Delivery>, Memory>
    ensures ok { IfOk result (λ found. found.items ≡ fetched_rows from out.now.items) }
    ensures want { IsOkUnless result Memory.Want }
{
    let mut found = Vec::new(alloc);
    'out: for place in 0..out.len() {
        let Some(one) = out.get(place) else {
            unreachable!()
        };
        push_delivery(alloc, from, one, &mut found)?;
    }
    Ok(found)
}

impl Queue {
    /// What is out with a consumer, from an id on, by rising id.
    pub fn fetch(
        &self,
        alloc: Global,
        consumer: ConsumerId,
        from: u64,
    ) -> Result<Vec<Delivery>, Memory>
        ensures ok { IfOk result (λ found.
            found.items ≡ fetched from (one_of consumer self.now.consumers.roster.served)) }
        ensures want { IsOkUnless result Memory.Want }
    {
        let Some(row) = self.consumers.row_of(consumer) else {
            return Ok(Vec::new(alloc));
        };
        let found = fetch_rows(alloc, from, &row.out)?;
        Ok(found)
    }
}
