//! What is kept of each queue.
ghost use Rattle.std.specs.Prelude.{◌≡◌, ◌≤◌, ◌-◌, ◌^◌, length, map, true, IfOk, IsOkUnless};
ghost use Rattle.qq_log.specs.Carries.{carry_behind, carry_or_new, new_carry};
ghost use Rattle.qq_wal.specs.Marks.{carry_for, is_below, is_rising, numbers_in, numbers_of, IsPlaceOf};
ghost use Rattle.qq_wal.specs.Notices.{last_index, new_mark, carried_op, synced_in};

use crate::notices::Notice;
use qq_base::{Index, Memory, QueueId, Term};
use qq_log::{Carry, Op, Places, SnapshotHead};
use std::alloc::Global;

/// What is kept of a queue.
#[derive(Drop)]
pub(crate) struct Mark {
    /// The queue.
    pub(crate) queue: QueueId,
    /// What a new file restates of it, None before its first op.
    pub(crate) carry: Option<Carry>,
    /// What it is told at the next sync, None where none of its ops waits for one.
    pub(crate) notice: Option<Notice>,
    /// The number of its last op that was synced.
    pub(crate) synced: u64,
}

/// The carry of a queue without ops. It takes no memory.
fn new_carry(alloc: Global, queue: QueueId) -> Carry
    ensures { result ≡ new_carry queue }
{
    Carry {
        queue,
        op: 0,
        term: Term(0),
        vote: None,
        base: SnapshotHead {
            index: Index(0),
            term: Term(0),
            through: Index(0),
        },
        snapshot: 0,
        segments: Places::new(alloc),
        last: Index(0),
    }
}

fn carry_or_new(alloc: Global, carry: Option<Carry>, queue: QueueId) -> Carry
    ensures { result ≡ carry_or_new carry queue }
{
    match carry {
        Some(carry) => carry,
        None => new_carry(alloc, queue),
    }
}

fn carry_behind(carry: Carry, op: &Op) -> Carry
    requires { last_index op.now ≤ 2 ^ 64 - 1 }
    ensures { result ≡ carry_behind carry op.now }
{
    match op {
        Op::Change {
            op,
            term,
            vote,
            keep,
            entries,
            ..
        } => Carry {
            op: *op,
            term: *term,
            vote: *vote,
            last: Index(keep.0 + entries.len() as u64),
            ..carry
        },
        Op::SnapshotMade { .. } | Op::SegmentMade { .. } => carry,
    }
}

/// The carry behind an op more of its queue. It takes no memory.
pub(crate) fn add_op(alloc: Global, carry: Option<Carry>, queue: QueueId, op: &Op) -> Carry
    requires { last_index op.now ≤ 2 ^ 64 - 1 }
    ensures { result ≡ carry_behind (carry_or_new carry queue) op.now }
{
    carry_behind(carry_or_new(alloc, carry, queue), op)
}

/// An equal carry.
fn copy_carry(alloc: Global, carry: &Carry) -> Result<Carry, Memory>
    ensures ok { IfOk result (λ twin. twin ≡ carry.now) }
    ensures want { IsOkUnless result Memory.Want }
{
    let segments = carry.segments.copy(alloc)?;
    Ok(Carry {
        queue: carry.queue,
        op: carry.op,
        term: carry.term,
        vote: carry.vote,
        base: carry.base,
        snapshot: carry.snapshot,
        segments,
        last: carry.last,
    })
}

fn carry_for(alloc: Global, carries: &[Carry], queue: QueueId) -> Result<Option<Carry>, Memory>
    ensures ok { IfOk result (λ carry. carry ≡ carry_for carries.now queue) }
    ensures want { IsOkUnless result Memory.Want }
{
    let mut rest = carries;
    'rest: while let [carry, after @ ..] = rest {
        if carry.queue.0 == queue.0 {
            return Ok(Some(copy_carry(alloc, carry)?));
        }
        rest = after;
    }
    Ok(None)
}

fn carried_op(carry: &Option<Carry>) -> u64
    ensures { result ≡ carried_op carry.now }
{
    match carry {
        None => 0,
        Some(carry) => carry.op,
    }
}

fn new_mark(alloc: Global, carries: &[Carry], queue: QueueId) -> Result<Mark, Memory>
    ensures ok { IfOk result (λ mark. mark ≡ new_mark carries.now queue) }
    ensures want { IsOkUnless result Memory.Want }
{
    let carry = carry_for(alloc, carries, queue)?;
    let synced = carried_op(&carry);
    Ok(Mark {
        queue,
        carry,
        notice: None,
        synced,
    })
}

/// The queues' marks before any op is appended.
pub(crate) fn new_marks(
    alloc: Global,
    queues: &[QueueId],
    carries: &[Carry],
) -> Result<Vec<Mark>, Memory>
    ensures ok { IfOk result (λ marks. marks.items ≡ map (new_mark carries.now) queues.now) }
    ensures want { IsOkUnless result Memory.Want }
{
    let mut marks = Vec::new(alloc);
    'queues: for queue in queues {
        marks.push(new_mark(alloc, carries, *queue)?)?;
    }
    Ok(marks)
}

fn is_below(queue: QueueId, after: &[QueueId]) -> bool
    ensures { result ≡ is_below queue.0 (numbers_of after.now) }
{
    match after {
        [] => true,
        [next, ..] => queue.0 < next.0,
    }
}

/// Whether each queue's number is below the next one's.
pub(crate) fn is_rising(queues: &[QueueId]) -> bool
    ensures { result ≡ is_rising (numbers_of queues.now) }
{
    let mut rest = queues;
    'rest: while let [queue, after @ ..] = rest {
        if !is_below(*queue, after) {
            return false;
        }
        rest = after;
    }
    true
}

/// Where the mark of a queue stands, or would stand.
pub(crate) fn place_of(queue: QueueId, marks: &[Mark]) -> usize
    requires { is_rising (numbers_in marks.now) ≡ true }
    ensures place { IsPlaceOf queue marks.now result }
    ensures within { result ≤ length marks.now }
{
    marks.partition_point(|mark| mark.queue.0 < queue.0)
}

/// The number of the queue's last op that was synced, 0 where there is none.
pub(crate) fn synced_in(marks: &[Mark], queue: QueueId) -> u64
    ensures { result ≡ synced_in marks.now queue }
{
    let mut rest = marks;
    'rest: while let [mark, after @ ..] = rest {
        if mark.queue.0 == queue.0 {
            return mark.synced;
        }
        rest = after;
    }
    0
}
