//! A thread that waits until an op is synced, by the marks that another raises.
ghost use Rattle.std.specs.Prelude.{◌≡◌, ◌+◌, ◌<◌, ◌≤◌, true, IfOk, IsOkUnless, slice_index};
ghost use Rattle.qq_base.specs.declared.memory.Memory.TheVariants.{Want};
ghost use Rattle.qq_inbox.specs.Marks.{reading, words, IsSeatOf};
ghost use Rattle.qq_inbox.specs.Threads.{SeesQueue, HasRaised, HasSeen};

use crate::marks::{MarkSeat, Marks, new_marks};
use qq_base::{Memory, QueueId};
use qq_log::Synced;
use std::alloc::Global;
use std::sync::Wait;
use std::thread;
use std::thread::Threads;

/// What a thread saw that waited for an op.
#[derive(Clone, Copy, Debug, PartialEq, Eq)]
pub struct Sighting {
    /// The last op that it saw marked as synced.
    pub seen: u64,
    /// How often it looked.
    pub looks: u64,
}

/// What a thread saw that waited for an op, and where.
#[derive(Drop)]
pub struct Watch {
    /// What it saw.
    pub sighting: Sighting,
    /// The marks.
    pub marks: Marks,
    /// Their seat, which may raise again, and has seen what both threads saw.
    pub seat: MarkSeat,
}

/// One thread marks a queue's ops as synced, one after the other, as far as the log has synced them. Another
/// looks until it sees an op at or above `op`, and answers which. What it believes to be synced is synced,
/// so where the log hasn't synced `op` it waits for ever.
pub fn wait_for_op<S: Synced + Sync, R: Threads + Wait + Sync>(
    rt: &R,
    alloc: Global,
    log: &S,
    queue: QueueId,
    op: u64,
) -> Result<Watch, Memory>
    requires queue { 0 < queue.0 }
    ensures reached { IfOk result (λ watch. op ≤ watch.sighting.seen) }
    ensures synced { IfOk result (λ watch. watch.sighting.seen ≤ S.synced_op log.now queue) }
    ensures looked { IfOk result (λ watch. 0 < watch.sighting.looks) }
    ensures raised { IfOk result (λ watch.
        HasRaised watch.marks watch.seat queue.0 (S.synced_op log.now queue)) }
    ensures told { IfOk result (λ watch.
        watch.sighting.seen ≤ slice_index (reading watch.seat).seen queue.0) }
    ensures words { IfOk result (λ watch. words watch.marks ≡ queue.0 + 1) }
    ensures want { IsOkUnless result Want }
{
    let (marks, mut writer) = new_marks(alloc, queue.0 as usize)?;
    let reader = marks.split(&mut writer)?;
    let shared = &marks;
    let (mut seat, (reader, sighting)) = thread::join(
        rt,
        move || -> MarkSeat
            requires { HasRaised shared.now writer queue.0 0 }
            ensures { HasRaised shared.entry.now result queue.0
                (S.synced_op log.entry.now queue) }
        { raise_all(shared, writer, log, queue) },
        move || -> (MarkSeat, Sighting)
            requires { SeesQueue shared.now reader queue.0 }
            ensures { HasSeen shared.entry.now result.0 queue.0 result.1.seen
                × (op ≤ result.1.seen) × (0 < result.1.looks) }
        { look_for(rt, shared, reader, queue, op) },
    );
    shared.join(&mut seat, reader);
    Ok(Watch {
        sighting,
        marks,
        seat,
    })
}

// Raises a queue's mark by one, and again, up to the last op that the log has synced.
fn raise_all<S: Synced>(marks: &Marks, mut seat: MarkSeat, log: &S, queue: QueueId) -> MarkSeat
    requires { HasRaised marks.now seat queue.0 0 }
    ensures { HasRaised marks.now result queue.0 (S.synced_op log.now queue) }
{
    let last = log.synced(queue);
    'ops: for before in 0..last {
        marks.raise(&mut seat, log, queue, before + 1);
    }
    seat
}

fn look_for<W: Wait>(
    rt: &W,
    marks: &Marks,
    mut seat: MarkSeat,
    queue: QueueId,
    op: u64,
) -> (MarkSeat, Sighting)
    requires { SeesQueue marks.now seat queue.0 }
    ensures seen { HasSeen marks.now result.0 queue.0 result.1.seen }
    ensures reached { op ≤ result.1.seen }
    ensures looked { 0 < result.1.looks }
{
    let mut looks = 0u64;
    'looks: for _ in rt.forever() {
        let seen = marks.seen(&mut seat, queue);
        looks = looks.saturating_add(1);
        if seen >= op {
            return (seat, Sighting { seen, looks });
        }
    }
    unreachable!()
}
