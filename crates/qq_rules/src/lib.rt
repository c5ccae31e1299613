//! The limits of a queue, decided from three running counts: they don't look at the messages (RabbitMQ,
//! "Queue Length Limit", and "Quorum Queues", "Poison Message Handling").
#![tactic(auto)]

ghost use Rattle.std.specs.Prelude.{◌≡◌, List};
ghost use Rattle.qq_model.specs.declared.place.Row.{Row};
ghost use Rattle.qq_model.specs.Limits.{ready_count, ready_bytes, live_count, has_reached, has_passed, publish_limit, is_over_limit};
ghost use Rattle.qq_rules.specs.Decisions.{refuses, over, dies};

pub use qq_entry::{Full, Overflow, QueueArgs};

// A limit that is there was reached by so many.
fn has_reached(limit: Option<u64>, count: u128) -> bool
    ensures { result ≡ has_reached limit count }
{
    match limit {
        None => false,
        Some(limit) => u128::from(limit) <= count,
    }
}

// A limit that is there was passed by so many.
fn has_passed(limit: Option<u64>, count: u128) -> bool
    ensures { result ≡ has_passed limit count }
{
    match limit {
        None => false,
        Some(limit) => u128::from(limit) < count,
    }
}

/// The first limit that a publish meets, None where it meets none. `ready` messages are ready, with
/// `bytes` bytes of bodies, and `live` messages aren't gone: the first two count under `reject-publish`
/// alone, the last always.
pub fn refuses(args: &QueueArgs, ready: u64, bytes: u128, live: u64) -> Option<Full>
    ensures value { result ≡ refuses args.now ready bytes live }
    ensures rows { (rows : List Row) → ready ≡ ready_count rows → bytes ≡ ready_bytes rows →
        live ≡ live_count rows → result ≡ publish_limit args.now rows }
{
    if args.overflow == Overflow::RejectPublish {
        if has_reached(args.max_length, u128::from(ready)) {
            return Some(Full::Length);
        }
        if has_reached(args.max_bytes, bytes) {
            return Some(Full::ByteLength);
        }
    }
    if args.live <= live {
        return Some(Full::Live);
    }
    None
}

/// Whether the message at the front has to die: under `drop-head` the queue has grown past a limit, with
/// `ready` messages ready and `bytes` bytes of bodies.
pub fn over(args: &QueueArgs, ready: u64, bytes: u128) -> bool
    ensures value { result ≡ over args.now ready bytes }
    ensures rows { (rows : List Row) → ready ≡ ready_count rows → bytes ≡ ready_bytes rows →
        result ≡ is_over_limit args.now rows }
{
    if args.overflow != Overflow::DropHead {
        return false;
    }
    has_passed(args.max_length, u128::from(ready)) || has_passed(args.max_bytes, bytes)
}

/// Whether a message dies of having been returned `count` times, which is above the delivery limit.
pub fn dies(args: &QueueArgs, count: u64) -> bool
    ensures { result ≡ dies args.now count }
{
    has_passed(args.delivery_limit, u128::from(count))
}
