//! The indices of all messages of a list, put behind others.
ghost use Rattle.std.specs.Prelude.{◌≡◌, ◌++◌, ◌∷◌, ◌<◌, [], map, length, slice_get, Some, IsOkUnless, OnOk};
ghost use Rattle.std.specs.Option.{option_copied, option_map_or};
ghost use Rattle.qq_ledger.specs.Low.{item_index};
ghost use Rattle.qq_ledger.specs.Ledger.{message_index, numbered_index, ready_indices, dead_indices, out_indices};

use qq_base::{Index, Memory};
use qq_consumer::{Consumers, Rising};
use qq_dead::Dead;
use qq_entry::ReadyRow;
use qq_ready::Ready;
use std::collections::VecDeque;

fn row_at(rows: &VecDeque<ReadyRow>, place: usize) -> Option<&ReadyRow>
    ensures { option_copied result ≡ slice_get rows.now.items place }
{
    rows.get(place)
}

/// Those of messages that were taken out.
pub fn push_all(rows: &VecDeque<ReadyRow>, indices: &mut Vec<Index>) -> Result<(), Memory>
    ensures ok { OnOk result (indices.new.items
        ≡ indices.old.items ++ map message_index rows.now.items) }
    ensures want { IsOkUnless result Memory.Want }
{
    'rows: for place in 0..rows.len() {
        let Some(row) = row_at(rows, place) else {
            unreachable!()
        };
        indices.push(row.index)?;
    }
    Ok(())
}

/// Those of what is out with one consumer.
pub fn push_out(out: &Rising<ReadyRow>, indices: &mut Vec<Index>) -> Result<(), Memory>
    ensures ok { OnOk result (indices.new.items
        ≡ indices.old.items ++ map numbered_index out.now.items) }
    ensures want { IsOkUnless result Memory.Want }
{
    'out: for place in 0..out.len() {
        let Some(one) = out.get(place) else {
            unreachable!()
        };
        indices.push(one.item.index)?;
    }
    Ok(())
}

/// Those of the ready messages.
pub fn push_ready(ready: &Ready, indices: &mut Vec<Index>) -> Result<(), Memory>
    ensures ok { OnOk result (indices.new.items
        ≡ indices.old.items ++ ready_indices ready.now.queue) }
    ensures want { IsOkUnless result Memory.Want }
{
    'rows: for place in 0..ready.count() as usize {
        let Some(one) = ready.row_at(place) else {
            unreachable!()
        };
        indices.push(one.row.index)?;
    }
    Ok(())
}

/// Those of the dead messages.
pub fn push_dead(dead: &Dead, indices: &mut Vec<Index>) -> Result<(), Memory>
    ensures ok { OnOk result (indices.new.items
        ≡ indices.old.items ++ dead_indices dead.now.letters) }
    ensures want { IsOkUnless result Memory.Want }
{
    'rows: for place in 0..dead.len() {
        let Some(one) = dead.row_at(place) else {
            unreachable!()
        };
        indices.push(one.row.index)?;
    }
    Ok(())
}

fn push_consumer(
    consumers: &Consumers,
    place: usize,
    indices: &mut Vec<Index>,
) -> Result<(), Memory>
    ensures ok { OnOk result (indices.new.items ≡ indices.old.items
        ++ option_map_or (λ one. map item_index one.out)
        (slice_get consumers.now.roster.served place) []) }
    ensures want { IsOkUnless result Memory.Want }
{
    match consumers.row_at(place) {
        None => Ok(()),
        Some(row) => {
            push_out(&row.out, indices)?;
            Ok(())
        }
    }
}

/// Those of what is out with all consumers.
pub fn push_consumers(consumers: &Consumers, indices: &mut Vec<Index>) -> Result<(), Memory>
    ensures ok { OnOk result (indices.new.items
        ≡ indices.old.items ++ out_indices consumers.now.roster.served) }
    ensures want { IsOkUnless result Memory.Want }
{
    'consumers: for place in 0..consumers.len() {
        push_consumer(consumers, place, indices)?;
    }
    Ok(())
}
