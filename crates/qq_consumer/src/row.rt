ghost use Rattle.std.specs.Prelude.{◌≡◌, ◌⊎◌, ◌+◌, ◌<◌, ◌^◌, ◌++◌, ◌∷◌, [], map, length, slice_get, nat_eq, nat_lt, ◌&&◌, Some, IfOk, IsOkUnless, OnOk, OnErr};
ghost use Rattle.std.specs.Option.{option_to_list};
ghost use Rattle.qq_model.specs.declared.place.Place.{Place};
ghost use Rattle.qq_model.specs.Choice.{prefetch_limit, credit_left};
ghost use Rattle.qq_model.specs.Commands.{new_consumer};
ghost use Rattle.qq_model.specs.Serving.{use_credit, serve};
ghost use Rattle.qq_parts.specs.Turns.{credit_of_one, may_serve};
ghost use Rattle.qq_parts.specs.Outs.{serve_one};
ghost use Rattle.qq_parts.specs.Consumers.{needed_one};
ghost use Rattle.qq_consumer.specs.Roster.{served_of, out_item, item_at, row_of, cut_ids, CanCount, standing_one};
ghost use Rattle.qq_consumer.specs.Numbers.{without};
ghost use Rattle.qq_consumer.specs.Turns.{turn_of};
ghost use Rattle.qq_consumer.specs.Next.{IsNext};
ghost use Rattle.qq_consumer.specs.Joined.{IsGiven};

use crate::next::Next;
use crate::rising::Rising;
use qq_base::{ConsumerId, Memory};
use qq_entry::{Mode, ReadyRow, Standing};
use qq_model::{Consumer, UNBOUNDED_PREFETCH};
use std::alloc::Global;
use std::collections::VecDeque;

/// A consumer, and the messages that are out with it, under the ids of their deliveries.
#[derive(Drop)]
pub struct ConsumerRow {
    pub consumer: Consumer,
    pub out: Rising<ReadyRow>,
}

/// A consumer as it joins, with its turn.
pub fn new_consumer(id: ConsumerId, mode: Mode, turn: u64) -> Consumer
    ensures { result ≡ new_consumer id mode turn }
{
    Consumer {
        id,
        mode,
        credit: 0,
        next_id: 1,
        count: 0,
        turn,
        cancelled: false,
    }
}

fn prefetch_limit(prefetch: u16) -> u64
    ensures { result ≡ prefetch_limit prefetch }
{
    if prefetch == 0 {
        UNBOUNDED_PREFETCH
    } else {
        u64::from(prefetch)
    }
}

fn credit_left(mode: Mode, credit: u64, out: u64) -> u64
    ensures { result ≡ credit_left mode credit out }
{
    match mode {
        Mode::Prefetch(prefetch) => prefetch_limit(prefetch).saturating_sub(out),
        Mode::Link => credit,
    }
}

/// How many more deliveries a consumer may get.
pub fn credit_of_one(row: &ConsumerRow) -> u64
    ensures { result ≡ credit_of_one (served_of row.now) }
{
    credit_left(row.consumer.mode, row.consumer.credit, row.out.len() as u64)
}

/// Whether a consumer may be served.
pub fn may_serve(row: &ConsumerRow) -> bool
    ensures { result ≡ may_serve (served_of row.now) }
{
    !row.consumer.cancelled && 0 < credit_of_one(row)
}

/// The turn of a consumer that may be served.
pub fn turn_of(row: &ConsumerRow) -> Option<u64>
    ensures { result ≡ turn_of (served_of row.now) }
{
    if may_serve(row) {
        Some(row.consumer.turn)
    } else {
        None
    }
}

fn use_credit(consumer: Consumer) -> Consumer
    requires { consumer.count + 1 < 2 ^ 64 }

    ensures value { result ≡ use_credit consumer.mode consumer }
    ensures id { result.id ≡ consumer.id }
    ensures next { result.next_id ≡ consumer.next_id }
{
    match consumer.mode {
        Mode::Prefetch(_) => consumer,
        Mode::Link => Consumer {
            credit: consumer.credit.saturating_sub(1),
            count: consumer.count + 1,
            ..consumer
        },
    }
}

fn serve(turn: u64, consumer: Consumer) -> Consumer
    requires { CanCount consumer }

    ensures value { result ≡ serve turn consumer }
    ensures id { result.id ≡ consumer.id }
    ensures next { result.next_id ≡ consumer.next_id + 1 }
{
    use_credit(Consumer {
        next_id: consumer.next_id + 1,
        turn,
        ..consumer
    })
}

/// A message goes to a consumer, which gets this turn. After an error it is as before.
pub fn serve_one(row: &mut ConsumerRow, turn: u64, message: ReadyRow) -> Result<(), Memory>
    requires counts { CanCount row.old.consumer }
    requires given { IsGiven row.old }

    ensures one { OnOk result ((place : Place) →
        served_of row.new ≡ serve_one turn (item_at place message) (served_of row.old)) }
    ensures id { row.new.consumer.id ≡ row.old.consumer.id }
    ensures given { IsGiven row.new }
    ensures err { OnErr result (served_of row.new ≡ served_of row.old) }
    ensures base { row.new.out.base ≡ row.old.out.base }
    ensures want { IsOkUnless result Memory.Want }
{
    row.out.push(row.consumer.next_id, message)?;
    row.consumer = serve(turn, row.consumer);
    Ok(())
}

fn put_behind(row: Option<ReadyRow>, rows: &mut VecDeque<ReadyRow>) -> Result<(), Memory>
    ensures rows { OnOk result (rows.new.items ≡ rows.old.items ++ option_to_list row) }
    ensures want { IsOkUnless result Memory.Want }
{
    match row {
        None => Ok(()),
        Some(row) => {
            rows.push_back(row)?;
            Ok(())
        }
    }
}

fn take_id(out: &mut Rising<ReadyRow>, id: u64, rows: &mut VecDeque<ReadyRow>) -> Result<(), Memory>
    ensures rows { OnOk result ((consumer : ConsumerId) → rows.new.items
        ≡ rows.old.items
        ++ map row_of (cut_ids (id ∷ []) (map (out_item consumer) out.old.items)).items) }
    ensures out { OnOk result ((consumer : ConsumerId) → map (out_item consumer) out.new.items
        ≡ (cut_ids (id ∷ []) (map (out_item consumer) out.old.items)).rest) }
    ensures items { (out.new.items ≡ without id out.old.items)
        ⊎ (out.new.items ≡ out.old.items) }
    ensures base { out.new.base ≡ out.old.base }
    ensures want { IsOkUnless result Memory.Want }
{
    let taken = out.take(id)?;
    put_behind(taken, rows)?;
    Ok(())
}

fn id_at(ids: &[u64], place: usize) -> u64
    requires { place < length ids.now }

    ensures { slice_get ids.now place ≡ Some result }
{
    ids[place]
}

/// Those of the ids that are out are taken out, in the given order, and put behind these messages.
/// After an error some may have been taken out.
pub fn take_ids(
    row: &mut ConsumerRow,
    ids: &[u64],
    rows: &mut VecDeque<ReadyRow>,
) -> Result<(), Memory>
    requires given { IsGiven row.old }

    ensures rows { OnOk result (rows.new.items ≡ rows.old.items
        ++ map row_of (cut_ids ids.now (served_of row.old).out).items) }
    ensures one { OnOk result (served_of row.new ≡ record {
      consumer = row.old.consumer;
      out = (cut_ids ids.now (served_of row.old).out).rest;
    }) }
    ensures consumer { row.new.consumer ≡ row.old.consumer }
    ensures given { IsGiven row.new }
    ensures base { row.new.out.base ≡ row.old.out.base }
    ensures want { IsOkUnless result Memory.Want }
{
    'ids: for place in 0..ids.len() {
        let id = id_at(ids, place);
        take_id(&mut row.out, id, rows)?;
    }
    Ok(())
}

/// Whether a consumer draws a turn, by its free credit before and now.
pub fn begins_to_wait(before: u64, after: u64) -> bool
    ensures { result ≡ (nat_eq before 0 && nat_lt 0 after) }
{
    before == 0 && 0 < after
}

fn is_needed(row: &ConsumerRow) -> bool
    ensures { result ≡ needed_one (served_of row.now) }
{
    !(row.consumer.cancelled && row.out.len() == 0)
}

/// What follows for a consumer, whose free credit was this before.
pub fn next_of(row: &ConsumerRow, before: u64) -> Next
    ensures { IsNext before (served_of row.now) result }
{
    if !is_needed(row) {
        return Next::Leaves;
    }
    if begins_to_wait(before, credit_of_one(row)) {
        return Next::Draws(row.consumer);
    }
    Next::Stays
}

/// How a consumer stands.
pub fn standing_one(row: &ConsumerRow) -> Standing
    ensures { result ≡ standing_one (served_of row.now) }
{
    Standing {
        id: row.consumer.id,
        credit: credit_of_one(row),
        turn: row.consumer.turn,
        cancelled: row.consumer.cancelled,
    }
}

/// The same consumer, with copies of the messages that are out with it.
pub fn copy_row(alloc: Global, row: &ConsumerRow) -> Result<ConsumerRow, Memory>
    ensures ok { IfOk result (λ twin. served_of twin ≡ served_of row.now) }
    ensures want { IsOkUnless result Memory.Want }
{
    Ok(ConsumerRow {
        consumer: row.consumer,
        out: row.out.copy(alloc)?,
    })
}
