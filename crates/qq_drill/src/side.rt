//! What a drill knows of one queue.
ghost use Rattle.std.specs.Prelude.{◌≡◌, ◌-◌, map, replicate, OnErr, OnOk, IfOk, IsOkUnless};
ghost use Rattle.qq_drill.specs.Drill.{ended, hold, new_side, put_side, side_at, side_of, subscribed};

use qq_base::{ConsumerId, Memory};
use std::alloc::Global;

/// The most consumers that a queue's second session has.
pub(crate) const TAGS_MOST: u32 = 8;

/// A delivery that was printed and isn't ended.
#[derive(Clone, Copy)]
pub struct Held {
    /// Its consumer's.
    pub tag: u32,
    /// Its number for the consumer.
    pub id: u64,
}

/// How many consumers the queue's second session has, and what was printed of their deliveries and isn't ended, the
/// oldest first.
#[derive(Drop)]
pub(crate) struct Side {
    tags: u32,
    held: Vec<Held>,
}

impl Side {
    fn new(alloc: Global) -> Self
        ensures { side_of result ≡ new_side }
    {
        Side {
            tags: 0,
            held: Vec::new(alloc),
        }
    }

    // One consumer more, of at most eight.
    fn subscribe(&mut self)
        ensures { side_of self.new ≡ subscribed (side_of self.old) }
    {
        if self.tags < TAGS_MOST {
            self.tags += 1;
        }
    }

    // The oldest delivery is ended.
    fn end(&mut self)
        ensures { side_of self.new ≡ ended (side_of self.old) }
    {
        if !self.held.is_empty() {
            let _ = self.held.remove(0);
        }
    }

    // A delivery was printed.
    fn hold(&mut self, consumer: ConsumerId, id: u64) -> Result<(), Memory>
        ensures ok { OnOk result (side_of self.new ≡ hold consumer id (side_of self.old)) }
        ensures err { OnErr result (side_of self.new ≡ side_of self.old) }
        ensures want { IsOkUnless result Memory.Want }
    {
        self.held.push(Held {
            tag: consumer.tag,
            id,
        })?;
        Ok(())
    }
}

/// The four queues of a new drill.
pub(crate) fn new_sides(alloc: Global) -> Result<Vec<Side>, Memory>
    ensures ok { IfOk result (λ sides. map side_of sides.items ≡ replicate 4 new_side) }
    ensures want { IsOkUnless result Memory.Want }
{
    Ok(vec![in alloc;
        Side::new(alloc),
        Side::new(alloc),
        Side::new(alloc),
        Side::new(alloc),
    ]?)
}

fn place_of(queue: u32) -> usize
    ensures { result ≡ queue - 1 }
{
    queue.saturating_sub(1) as usize
}

/// How many consumers a queue's second session has.
pub(crate) fn tags_at(sides: &[Side], queue: u32) -> u32
    ensures { result ≡ (side_at queue (map side_of sides.now)).tags }
{
    let place = place_of(queue);
    if place < sides.len() {
        sides[place].tags
    } else {
        0
    }
}

/// What was printed of its deliveries and isn't ended, the oldest first.
pub(crate) fn held_at(sides: &[Side], queue: u32) -> &[Held]
    ensures { result.now ≡ (side_at queue (map side_of sides.now)).held }
{
    let place = place_of(queue);
    if place < sides.len() {
        sides[place].held.as_slice()
    } else {
        &[]
    }
}

/// One consumer more, of at most eight.
pub(crate) fn subscribe_at(sides: &mut [Side], queue: u32)
    ensures { map side_of sides.new ≡ put_side queue
        (subscribed (side_at queue (map side_of sides.old))) (map side_of sides.old) }
{
    let place = place_of(queue);
    if place < sides.len() {
        sides[place].subscribe();
    }
}

/// The oldest delivery is ended.
pub(crate) fn end_at(sides: &mut [Side], queue: u32)
    ensures { map side_of sides.new ≡ put_side queue
        (ended (side_at queue (map side_of sides.old))) (map side_of sides.old) }
{
    let place = place_of(queue);
    if place < sides.len() {
        sides[place].end();
    }
}

/// A delivery was printed.
pub(crate) fn hold_at(
    sides: &mut [Side],
    queue: u32,
    consumer: ConsumerId,
    id: u64,
) -> Result<(), Memory>
    ensures ok { OnOk result (map side_of sides.new ≡ put_side queue
        (hold consumer id (side_at queue (map side_of sides.old))) (map side_of sides.old)) }
    ensures err { OnErr result (map side_of sides.new ≡ map side_of sides.old) }
    ensures want { IsOkUnless result Memory.Want }
{
    let place = place_of(queue);
    if place < sides.len() {
        return sides[place].hold(consumer, id);
    }
    Ok(())
}
