//! Reads and changes of the rows of messages.
ghost use Rattle.std.specs.Prelude.{◌≡◌, map, nat_eq, if◌then◌else◌, IfOk, IsOkUnless, position};
ghost use Rattle.qq_model.specs.Choice.{key_less, ready_key, next_message, is_out_to, out_count};
ghost use Rattle.qq_model.specs.Limits.{is_ready, is_dead, is_live, ready_count, ready_bytes, dead_count, live_count, publish_limit, is_over_limit};
ghost use Rattle.qq_model.specs.Changes.{put_row, message_of};
ghost use Rattle.qq_model.specs.Commands.{is_delivery, delivered_row, delivery_id, first_delivery, purge_row, is_dead_number, dead_row};
ghost use Rattle.qq_model.specs.Serving.{is_given, given_count, dead_number, next_dead};

use crate::choice::least_by;
use qq_base::{ConsumerId, Duplicate, Index, Memory};
use qq_entry::{Full, Message, Overflow, QueueArgs};
use qq_model::{GoneReason, Key, Place, Row};
use std::alloc::Global;

fn key_less(a: Key, b: Key) -> bool
    ensures { result ≡ key_less a b }
{
    match (a, b) {
        (Key::Front(x), Key::Front(y)) => x < y,
        (Key::Front(_), Key::Back(_)) => true,
        (Key::Back(_), Key::Front(_)) => false,
        (Key::Back(x), Key::Back(y)) => x < y,
    }
}

fn ready_key(row: Row) -> Option<Key>
    ensures { result ≡ ready_key row }
{
    match row.place {
        Place::Ready(key) => Some(key),
        _ => None,
    }
}

/// The ready message of least key.
pub fn next_message(rows: &[Row]) -> Option<Row>
    ensures { result ≡ next_message rows.now }
{
    least_by(rows, ready_key, key_less)
}

fn is_ready(place: Place) -> bool
    ensures { result ≡ is_ready place }
{
    matches!(place, Place::Ready(_))
}

fn is_dead(place: Place) -> bool
    ensures { result ≡ is_dead place }
{
    matches!(place, Place::Dead(_, _))
}

fn is_live(place: Place) -> bool
    ensures { result ≡ is_live place }
{
    !matches!(place, Place::Gone(_))
}

fn is_out_to(consumer: ConsumerId, place: Place) -> bool
    ensures { result ≡ is_out_to consumer place }
{
    match place {
        Place::Out(other, _) => other == consumer,
        _ => false,
    }
}

/// How many messages are ready.
pub fn ready_count(rows: &[Row]) -> usize
    ensures { result ≡ ready_count rows.now }
{
    rows.iter().filter(|row| is_ready(row.place)).count()
}

/// How many messages are dead and kept.
pub fn dead_count(rows: &[Row]) -> usize
    ensures { result ≡ dead_count rows.now }
{
    rows.iter().filter(|row| is_dead(row.place)).count()
}

fn live_count(rows: &[Row]) -> usize
    ensures { result ≡ live_count rows.now }
{
    rows.iter().filter(|row| is_live(row.place)).count()
}

/// How many deliveries a consumer hasn't settled.
pub fn out_count(consumer: ConsumerId, rows: &[Row]) -> usize
    ensures { result ≡ out_count consumer rows.now }
{
    rows.iter()
        .filter(|row| is_out_to(consumer, row.place))
        .count()
}

fn ready_bytes(rows: &[Row]) -> u128
    ensures { result ≡ ready_bytes rows.now }
{
    let mut sum = 0;
    for row in rows {
        if is_ready(row.place) {
            sum += u128::from(row.size);
        }
    }
    sum
}

/// The first limit that a publish meets.
pub fn publish_limit(args: &QueueArgs, rows: &[Row]) -> Option<Full>
    ensures { result ≡ publish_limit args.now rows.now }
{
    if args.overflow == Overflow::RejectPublish {
        if let Some(limit) = args.max_length
            && limit <= ready_count(rows) as u64
        {
            return Some(Full::Length);
        }
        if let Some(limit) = args.max_bytes
            && u128::from(limit) <= ready_bytes(rows)
        {
            return Some(Full::ByteLength);
        }
    }
    if args.live <= live_count(rows) as u64 {
        return Some(Full::Live);
    }
    None
}

/// Whether messages at the front have to die.
pub fn is_over_limit(args: &QueueArgs, rows: &[Row]) -> bool
    ensures { result ≡ is_over_limit args.now rows.now }
{
    if args.overflow != Overflow::DropHead {
        return false;
    }
    if let Some(limit) = args.max_length
        && limit < ready_count(rows) as u64
    {
        return true;
    }
    if let Some(limit) = args.max_bytes
        && u128::from(limit) < ready_bytes(rows)
    {
        return true;
    }
    false
}

fn put_where(row: &mut Row, new: Row)
    ensures { row.new ≡ (if nat_eq row.old.index.0 new.index.0 then new else row.old) }
{
    if row.index == new.index {
        *row = new;
    }
}

/// Puts a row in the place of the row of its index.
pub fn put_row(rows: &mut [Row], new: Row)
    ensures { rows.new ≡ put_row new rows.old }
{
    for row in rows.iter_mut() {
        put_where(row, new);
    }
}

fn purge_row(row: &mut Row)
    ensures { row.new ≡ purge_row row.old }
{
    if is_ready(row.place) {
        row.place = Place::Gone(GoneReason::Purged);
    }
}

/// Puts each ready message among the purged.
pub fn purge_rows(rows: &mut [Row])
    ensures { rows.new ≡ map purge_row rows.old }
{
    for row in rows.iter_mut() {
        purge_row(row);
    }
}

fn place_at(rows: &[Row], index: Index) -> Option<usize>
    ensures { result ≡ position (λ (other : Row). nat_eq other.index.0 index.0) rows.now }
{
    rows.iter().position(|row| row.index == index)
}

/// A copy of the message of a row.
pub fn message_of(
    alloc: Global,
    rows: &[Row],
    messages: &[Message],
    row: Row,
) -> Result<Message, Memory>
    ensures ok { IfOk result (λ message. message ≡ message_of rows.now messages.now row) }
    ensures want { IsOkUnless result Memory.Want }
{
    let blank = Message {
        size: row.size,
        content: None,
    };
    let Some(place) = place_at(rows, row.index) else {
        return Ok(blank);
    };
    match messages.get(place) {
        None => Ok(blank),
        Some(message) => message.copy(alloc),
    }
}

fn is_delivery(consumer: ConsumerId, id: u64, place: Place) -> bool
    ensures { result ≡ is_delivery consumer id place }
{
    match place {
        Place::Out(other, number) => other == consumer && number == id,
        _ => false,
    }
}

/// The message that is the delivery of an id to a consumer.
pub fn delivered_row(consumer: ConsumerId, id: u64, rows: &[Row]) -> Option<Row>
    ensures { result ≡ delivered_row consumer id rows.now }
{
    for row in rows {
        if is_delivery(consumer, id, row.place) {
            return Some(*row);
        }
    }
    None
}

fn delivery_id(consumer: ConsumerId, place: Place) -> Option<u64>
    ensures { result ≡ delivery_id consumer place }
{
    match place {
        Place::Out(other, id) if other == consumer => Some(id),
        _ => None,
    }
}

/// The delivery to a consumer of least id.
pub fn first_delivery(consumer: ConsumerId, rows: &[Row]) -> Option<Row>
    ensures { result ≡ first_delivery consumer rows.now }
{
    least_by(rows, |row| delivery_id(consumer, row.place), |a, b| a < b)
}

fn is_dead_number(number: u64, place: Place) -> bool
    ensures { result ≡ is_dead_number number place }
{
    match place {
        Place::Dead(other, _) => other == number,
        _ => false,
    }
}

/// The dead message of a number.
pub fn dead_row(number: u64, rows: &[Row]) -> Option<Row>
    ensures { result ≡ dead_row number rows.now }
{
    for row in rows {
        if is_dead_number(number, row.place) {
            return Some(*row);
        }
    }
    None
}

fn is_given(given: u64, place: Place) -> bool
    ensures { result ≡ is_given given place }
{
    match place {
        Place::Dead(number, _) => number <= given,
        _ => false,
    }
}

/// How many dead letters up to a number there are.
pub fn given_count(given: u64, rows: &[Row]) -> usize
    ensures { result ≡ given_count given rows.now }
{
    rows.iter().filter(|row| is_given(given, row.place)).count()
}

fn dead_number(given: u64, place: Place) -> Option<u64>
    ensures { result ≡ dead_number given place }
{
    match place {
        Place::Dead(number, _) if given < number => Some(number),
        _ => None,
    }
}

/// The dead message of least number above a number.
pub fn next_dead(given: u64, rows: &[Row]) -> Option<Row>
    ensures { result ≡ next_dead given rows.now }
{
    least_by(rows, |row| dead_number(given, row.place), |a, b| a < b)
}
