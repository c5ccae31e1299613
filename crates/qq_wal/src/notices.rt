//! What is appended of each queue since the last sync, and what the queue is told of it then.
ghost use Rattle.std.specs.Prelude.{◌≡◌, ◌++◌, ◌≤◌, ◌-◌, ◌^◌, Some, option_to_list, length, take, drop, map, IfOk, OnOk, IsOkUnless};
ghost use Rattle.std.specs.List.{fold};
ghost use Rattle.qq_wal.specs.Batch.{AllFitBatch};
ghost use Rattle.qq_wal.specs.Marks.{is_rising, numbers_in};
ghost use Rattle.qq_wal.specs.Notices.{change_at, note_record, op_term, last_index, first_index, lesser_index, note_mark, note_all, sync_mark, notices_in, note_op, AreNotedWithin};

use crate::marks::{Mark, add_op, place_of};
use crate::table::Marks;
use crate::waiting::Waiting;
use qq_base::{Index, Memory, QueueId, Term};
use qq_log::Op;
use std::alloc::Global;

/// What a queue is told once its ops are synced.
#[derive(Clone, Copy, Debug, PartialEq, Eq)]
pub struct Notice {
    /// The queue.
    pub queue: QueueId,
    /// Its server's term.
    pub term: Term,
    /// The least index that was written, 0 where none was.
    pub first: Index,
    /// The log's last index.
    pub last: Index,
    /// The number of its last op.
    pub op: u64,
}

fn lesser_index(a: u64, b: u64) -> u64
    ensures { result ≡ lesser_index a b }
{
    if a == 0 {
        return b;
    }
    if b == 0 {
        return a;
    }
    a.min(b)
}

fn note_op(queue: QueueId, notice: Option<Notice>, op: &Op) -> Notice
    requires { last_index op.now ≤ 2 ^ 64 - 1 }
    ensures { Some result ≡ note_op queue notice op.now }
{
    let (term, first, last) = indices(op);
    let before = match notice {
        None => 0,
        Some(notice) => notice.first.0,
    };
    Notice {
        queue,
        term: Term(term),
        first: Index(lesser_index(before, first)),
        last: Index(last),
        op: op.number(),
    }
}

/// Notes an op where the mark is its queue's.
fn note_mark(alloc: Global, mark: &mut Mark, op: &Op)
    requires { last_index op.now ≤ 2 ^ 64 - 1 }
    ensures { mark.new ≡ note_mark op.now mark.old }
{
    if op.queue().0 != mark.queue.0 {
        return;
    }
    let queue = mark.queue;
    mark.notice = Some(note_op(queue, mark.notice, op));
    let carry = mark.carry.take();
    mark.carry = Some(add_op(alloc, carry, queue, op));
}

/// Notes an op in its queue's mark.
pub(crate) fn note_all(alloc: Global, marks: &mut [Mark], op: &Op)
    requires { last_index op.now ≤ 2 ^ 64 - 1 }
    ensures { marks.new ≡ note_all marks.old op.now }
{
    'marks: for mark in marks.iter_mut() {
        note_mark(alloc, mark, op);
    }
}

/// Notes an op in the mark at a place, where there is one.
fn note_at(alloc: Global, marks: &mut [Mark], place: usize, op: &Op)
    requires { last_index op.now ≤ 2 ^ 64 - 1 }
    ensures { marks.new ≡ change_at (note_mark op.now) place marks.old }
{
    if place < marks.len() {
        note_mark(alloc, &mut marks[place], op);
    }
}

/// Notes an op in its queue's mark, by binary search where the queues rise. Answers the place from which marks may
/// have changed, and the one before which.
pub(crate) fn note(alloc: Global, marks: &mut [Mark], rising: bool, op: &Op) -> (usize, usize)
    requires end { last_index op.now ≤ 2 ^ 64 - 1 }
    requires rising { rising ≡ is_rising (numbers_in marks.old) }
    ensures marks { marks.new ≡ note_all marks.old op.now }
    ensures before { take result.0 marks.new ≡ take result.0 marks.old }
    ensures behind { drop result.1 marks.new ≡ drop result.1 marks.old }
{
    if !rising {
        note_all(alloc, marks, op);
        return (0, marks.len());
    }
    let place = place_of(op.queue(), marks);
    note_at(alloc, marks, place, op);
    (place, place + 1)
}

/// The op's term, the first index that it writes, and the log's end behind it.
fn indices(op: &Op) -> (u64, u64, u64)
    requires { last_index op.now ≤ 2 ^ 64 - 1 }
    ensures { result ≡ (op_term op.now, first_index op.now, last_index op.now) }
{
    match op {
        Op::Change {
            term,
            keep,
            entries,
            ..
        } => {
            let count = entries.len() as u64;
            let first = if count == 0 { 0 } else { keep.0 + 1 };
            (term.0, first, keep.0 + count)
        }
        Op::SnapshotMade { .. } | Op::SegmentMade { .. } => (0, 0, 0),
    }
}

fn push_notice(notices: &mut Vec<Notice>, mark: &Mark) -> Result<(), Memory>
    ensures ok { OnOk result (
        notices.new.items ≡ notices.old.items ++ option_to_list mark.now.notice) }
    ensures want { IsOkUnless result Memory.Want }
{
    match mark.notice {
        None => Ok(()),
        Some(notice) => {
            notices.push(notice)?;
            Ok(())
        }
    }
}

/// The notices of the queues that have one.
pub(crate) fn notices_in(alloc: Global, marks: &[Mark]) -> Result<Vec<Notice>, Memory>
    ensures ok { IfOk result (λ notices. notices.items ≡ notices_in marks.now) }
    ensures want { IsOkUnless result Memory.Want }
{
    let mut notices = Vec::new(alloc);
    'marks: for mark in marks {
        push_notice(&mut notices, mark)?;
    }
    Ok(notices)
}

fn sync_mark(mark: &mut Mark)
    ensures { mark.new ≡ sync_mark mark.old }
{
    if let Some(notice) = mark.notice {
        mark.synced = notice.op;
        mark.notice = None;
    }
}

/// What waited for a sync is synced. Notices stand from the first place on, before the end.
pub(crate) fn sync_within(marks: &mut [Mark], first: usize, end: usize)
    requires { AreNotedWithin first end marks.old }
    ensures { marks.new ≡ map sync_mark marks.old }
{
    let end = end.min(marks.len());
    'marks: for place in first..end {
        sync_mark(&mut marks[place]);
    }
}

/// Takes the first ops, and notes them.
pub(crate) fn take_batch(alloc: Global, waiting: &mut Waiting, marks: &mut Marks, count: usize)
    requires fit { AllFitBatch waiting.old.items }
    requires count { count ≤ length waiting.old.items }
    ensures waiting { waiting.new.items ≡ drop count waiting.old.items }
    ensures marks { marks.new ≡ fold note_record marks.old (take count waiting.old.items) }
{
    for _ in 0..count {
        if let Some(op) = waiting.pop() {
            marks.note(alloc, &op);
        }
    }
}
