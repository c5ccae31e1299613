//! Reads and changes of the consumers.
ghost use Rattle.std.specs.Prelude.{◌≡◌, map, filter};
ghost use Rattle.qq_model.specs.Choice.{prefetch_limit, credit_left, free_credit, may_be_served, waiting_turn, longest_waiting, active_consumer, next_consumer};
ghost use Rattle.qq_model.specs.Changes.{put_consumer, consumer_of, is_needed};
ghost use Rattle.std.specs.Prelude.{if◌then◌else◌};
ghost use Rattle.qq_base.specs.Ids.{same_consumer};

use crate::choice::least_by;
use crate::rows::out_count;
use qq_base::ConsumerId;
use qq_entry::Mode;
use qq_model::{Consumer, Row, UNBOUNDED_PREFETCH};

fn prefetch_limit(prefetch: u16) -> u64
    ensures { result ≡ prefetch_limit prefetch }
{
    if prefetch == 0 {
        UNBOUNDED_PREFETCH
    } else {
        u64::from(prefetch)
    }
}

fn credit_left(mode: Mode, credit: u64, out: u64) -> u64
    ensures { result ≡ credit_left mode credit out }
{
    match mode {
        Mode::Prefetch(prefetch) => prefetch_limit(prefetch).saturating_sub(out),
        Mode::Link => credit,
    }
}

/// How many more deliveries a consumer may get.
pub fn free_credit(rows: &[Row], consumer: Consumer) -> u64
    ensures { result ≡ free_credit rows.now consumer }
{
    credit_left(
        consumer.mode,
        consumer.credit,
        out_count(consumer.id, rows) as u64,
    )
}

fn may_be_served(rows: &[Row], consumer: Consumer) -> bool
    ensures { result ≡ may_be_served rows.now consumer }
{
    !consumer.cancelled && 0 < free_credit(rows, consumer)
}

fn waiting_turn(rows: &[Row], consumer: Consumer) -> Option<u64>
    ensures { result ≡ waiting_turn rows.now consumer }
{
    if may_be_served(rows, consumer) {
        Some(consumer.turn)
    } else {
        None
    }
}

fn longest_waiting(rows: &[Row], consumers: &[Consumer]) -> Option<Consumer>
    ensures { result ≡ longest_waiting rows.now consumers.now }
{
    least_by(
        consumers,
        |consumer| waiting_turn(rows, consumer),
        |a, b| a < b,
    )
}

fn active_consumer(rows: &[Row], consumers: &[Consumer]) -> Option<Consumer>
    ensures { result ≡ active_consumer rows.now consumers.now }
{
    for consumer in consumers {
        if !consumer.cancelled {
            return if may_be_served(rows, *consumer) {
                Some(*consumer)
            } else {
                None
            };
        }
    }
    None
}

/// The next consumer to be served.
pub fn next_consumer(single_active: bool, rows: &[Row], consumers: &[Consumer]) -> Option<Consumer>
    ensures { result ≡ next_consumer single_active rows.now consumers.now }
{
    if single_active {
        active_consumer(rows, consumers)
    } else {
        longest_waiting(rows, consumers)
    }
}

/// The consumer of an id.
pub fn consumer_of(id: ConsumerId, consumers: &[Consumer]) -> Option<Consumer>
    ensures { result ≡ consumer_of id consumers.now }
{
    for consumer in consumers {
        if consumer.id == id {
            return Some(*consumer);
        }
    }
    None
}

fn put_where(consumer: &mut Consumer, new: Consumer)
    ensures { consumer.new ≡ (if same_consumer consumer.old.id new.id then new else consumer.old) }
{
    if consumer.id == new.id {
        *consumer = new;
    }
}

/// Puts a consumer in the place of the consumer of its id.
pub fn put_consumer(consumers: &mut [Consumer], new: Consumer)
    ensures { consumers.new ≡ put_consumer new consumers.old }
{
    for consumer in consumers.iter_mut() {
        put_where(consumer, new);
    }
}

fn is_needed(rows: &[Row], consumer: Consumer) -> bool
    ensures { result ≡ is_needed rows.now consumer }
{
    !(consumer.cancelled && out_count(consumer.id, rows) == 0)
}

/// Takes out the cancelled consumers that have settled everything.
pub fn drop_finished(rows: &[Row], consumers: &mut Vec<Consumer>)
    ensures { consumers.new.items ≡ filter (is_needed rows.now) consumers.old.items }
{
    consumers.retain(|consumer| is_needed(rows, *consumer));
}
