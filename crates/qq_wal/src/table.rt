//! The marks of all queues.
ghost use Rattle.std.specs.Prelude.{◌≡◌, ◌≤◌, ◌-◌, ◌^◌, take, drop, map, slice_get, IfOk, IsOkUnless};
ghost use Rattle.qq_wal.specs.Notices.{last_index, new_mark, note_all, notices_in, sync_mark, synced_by, synced_in, AreNotedWithin};
ghost use Rattle.qq_wal.specs.Marks.{is_rising, numbers_in};

use crate::marks::{Mark, is_rising, new_marks, place_of, synced_in};
use crate::notices::{Notice, note, notices_in, sync_within};
use qq_base::{Memory, QueueId};
use qq_log::{Carry, Op};
use std::alloc::Global;
use std::marker::Model;

/// The marks of a log's queues, in the order of the queues. Where the queues rise by their numbers, a queue's
/// mark is found by binary search, and else by a walk.
#[derive(Drop)]
pub(crate) struct Marks {
    marks: Vec<Mark>,
    /// Whether the queues rise by their numbers.
    rising: bool,
    /// No mark before this place has a notice,
    first: usize,
    /// nor one from this place on: a sync looks at those between alone.
    end: usize,
}

impl Model for Marks {
    ghost use Rattle.std.specs.Prelude.{◌≡◌, List};
    ghost use Rattle.qq_wal.specs.declared.marks.Mark.{Mark};
    ghost use Rattle.qq_wal.specs.Marks.{is_rising, numbers_in};

    ghost Value = { List Mark };

    ghost view = { λ m. m.marks.items };

    ghost use Rattle.qq_wal.specs.Notices.{AreNotedWithin};

    ghost invariant = { λ m. (m.rising ≡ is_rising (numbers_in m.marks.items))
        × AreNotedWithin m.first m.end m.marks.items };
}

fn note_item(alloc: Global, marks: &mut Vec<Mark>, rising: bool, op: &Op) -> (usize, usize)
    requires end { last_index op.now ≤ 2 ^ 64 - 1 }
    requires rising { rising ≡ is_rising (numbers_in marks.old.items) }
    ensures marks { marks.new.items ≡ note_all marks.old.items op.now }
    ensures before { take result.0 marks.new.items ≡ take result.0 marks.old.items }
    ensures behind { drop result.1 marks.new.items ≡ drop result.1 marks.old.items }
{
    note(alloc, marks, rising, op)
}

fn sync_items(marks: &mut Vec<Mark>, first: usize, end: usize)
    requires { AreNotedWithin first end marks.old.items }
    ensures { marks.new.items ≡ map sync_mark marks.old.items }
{
    sync_within(marks, first, end);
}

/// The marks from the first place on, before the end.
fn between(marks: &[Mark], first: usize, end: usize) -> &[Mark]
    ensures { result.now ≡ drop first (take end marks.now) }
{
    let (front, _) = marks.split_at(end.min(marks.len()));
    front.split_at(first.min(front.len())).1
}

/// What the mark at a place says, where it is the queue's own.
fn synced_by(marks: &[Mark], place: usize, queue: QueueId) -> u64
    ensures { result ≡ synced_by (slice_get marks.now place) queue }
{
    match marks.get(place) {
        None => 0,
        Some(mark) => {
            if mark.queue.0 == queue.0 {
                return mark.synced;
            }
            0
        }
    }
}

/// The number of the queue's last op that was synced, 0 where there is none.
fn synced_at(marks: &[Mark], rising: bool, queue: QueueId) -> u64
    requires { rising ≡ is_rising (numbers_in marks.now) }
    ensures { result ≡ synced_in marks.now queue }
{
    if !rising {
        return synced_in(marks, queue);
    }
    let place = place_of(queue, marks);
    synced_by(marks, place, queue)
}

impl Marks {
    /// Those of these queues before any op is appended.
    pub(crate) fn new(alloc: Global, queues: &[QueueId], carries: &[Carry]) -> Result<Self, Memory>
        ensures ok { IfOk result (λ marks. marks ≡ map (new_mark carries.now) queues.now) }
        ensures want { IsOkUnless result Memory.Want }
    {
        let marks = new_marks(alloc, queues, carries)?;
        let rising = is_rising(queues);
        Ok(Marks {
            marks,
            rising,
            first: usize::MAX,
            end: 0,
        })
    }

    pub(crate) fn as_slice(&self) -> &[Mark]
        ensures { result.now ≡ self.now }
    {
        self.marks.as_slice()
    }

    /// Notes an op in its queue's mark.
    pub(crate) fn note(&mut self, alloc: Global, op: &Op)
        requires { last_index op.now ≤ 2 ^ 64 - 1 }
        ensures { self.new ≡ note_all self.old op.now }
    {
        let (from, to) = note_item(alloc, &mut self.marks, self.rising, op);
        self.first = self.first.min(from);
        self.end = self.end.max(to);
    }

    /// The notices of the queues that have one.
    pub(crate) fn notices(&self, alloc: Global) -> Result<Vec<Notice>, Memory>
        ensures ok { IfOk result (λ notices. notices.items ≡ notices_in self.now) }
        ensures want { IsOkUnless result Memory.Want }
    {
        notices_in(alloc, between(self.marks.as_slice(), self.first, self.end))
    }

    /// What waited for a sync is synced.
    pub(crate) fn sync(&mut self)
        ensures { self.new ≡ map sync_mark self.old }
    {
        sync_items(&mut self.marks, self.first, self.end);
        self.first = usize::MAX;
        self.end = 0;
    }

    /// The number of the queue's last op that was synced, 0 where there is none.
    pub(crate) fn synced(&self, queue: QueueId) -> u64
        ensures { result ≡ synced_in self.now queue }
    {
        synced_at(self.marks.as_slice(), self.rising, queue)
    }
}
