//! Which of a queue's entries lie in which log file.
ghost use Rattle.std.specs.Prelude.{◌≡◌, ◌+◌, ◌++◌, ◌^◌, ◌<◌, ◌≤◌, ◌-◌, length, take, option_to_list, IfOk, OnOk, IsOkUnless};
ghost use Rattle.std.specs.List.{fold};
ghost use Rattle.std.specs.Ordering.{nat_cmp};
ghost use Rattle.std.specs.BTreeMap.{get};
ghost use Rattle.qq_wal.specs.Batch.{AllFitBatch};
ghost use Rattle.qq_wal.specs.Notices.{last_index};
ghost use Rattle.qq_wal.specs.Ranges.{new_ranges, write, begin_file, enter_file, as_indices, places_of, put_ranges, ranges_of, change_ranges, write_op, write_op_in, write_record, begin_queue, begin_files, in_file, ranges_in};
ghost use Rattle.qq_wal.specs.Spans.{range_to, first_or, range_behind, span_to, spans_to, span_of, least_kept, find_file};

use crate::older::{Older, Range, span_to};
use crate::waiting::Waiting;
use qq_base::{Index, Memory, QueueId};
use qq_log::{Op, Span};
use std::alloc::Global;
use std::collections::BTreeMap;

/// Which of a queue's entries lie in which log file.
#[derive(Drop)]
pub(crate) struct QueueRanges {
    /// The file that the queue's changes are written to.
    file: u64,
    /// Those in that file.
    own: Option<Range>,
    /// Those in older files, the oldest first, as they were when the file was begun.
    older: Older,
    /// The least index behind which the log was cut since then. It cuts those in older files only when the
    /// next file is begun, so that a change takes no memory and no walk.
    cut: Option<u64>,
}

fn range_to(keep: u64, range: Option<Range>) -> Option<Range>
    ensures { result ≡ range_to keep range }
{
    match range {
        None => None,
        Some((first, last)) => {
            if first <= keep {
                return Some((first, last.min(keep)));
            }
            None
        }
    }
}

fn first_or(index: u64, range: Option<Range>) -> u64
    ensures { result ≡ first_or index range }
{
    match range {
        None => index,
        Some((first, _)) => first,
    }
}

fn range_behind(keep: u64, count: u64, range: Option<Range>) -> Option<Range>
    requires { keep + count < 2 ^ 64 }
    ensures { result ≡ range_behind keep count range }
{
    if count == 0 {
        return range;
    }
    Some((first_or(keep + 1, range), keep + count))
}

fn least_kept(cut: Option<u64>, keep: u64) -> u64
    ensures { result ≡ least_kept cut keep }
{
    match cut {
        None => keep,
        Some(cut) => cut.min(keep),
    }
}

fn push_span(spans: &mut Vec<Span>, span: Option<Span>) -> Result<(), Memory>
    ensures ok { OnOk result (spans.new.items ≡ spans.old.items ++ option_to_list span) }
    ensures want { IsOkUnless result Memory.Want }
{
    match span {
        None => Ok(()),
        Some(span) => {
            spans.push(span)?;
            Ok(())
        }
    }
}

fn spans_to(alloc: Global, cut: Option<u64>, spans: &[Span]) -> Result<Vec<Span>, Memory>
    ensures ok { IfOk result (λ left. left.items ≡ spans_to cut spans.now) }
    ensures want { IsOkUnless result Memory.Want }
{
    let mut left = Vec::new(alloc);
    'spans: for span in spans {
        push_span(&mut left, span_to(cut, *span))?;
    }
    Ok(left)
}

fn push_range(spans: &mut Vec<Span>, file: u64, range: Option<Range>) -> Result<(), Memory>
    ensures ok { OnOk result (spans.new.items ≡ spans.old.items ++ span_of file range) }
    ensures want { IsOkUnless result Memory.Want }
{
    match range {
        None => Ok(()),
        Some((first, last)) => {
            spans.push(Span {
                file,
                segment: false,
                first: Index(first),
                last: Index(last),
            })?;
            Ok(())
        }
    }
}

fn find_own(file: u64, own: u64, range: Option<Range>) -> Option<Range>
    ensures { result ≡ find_file file (span_of own range) }
{
    match range {
        None => None,
        Some(range) => {
            if own == file {
                return Some(range);
            }
            None
        }
    }
}

fn as_indices(range: Option<Range>) -> Option<(Index, Index)>
    ensures { result ≡ as_indices range }
{
    match range {
        None => None,
        Some((first, last)) => Some((Index(first), Index(last))),
    }
}

impl QueueRanges {
    /// A queue without entries. It takes no memory.
    fn new(alloc: Global) -> Self
        ensures { result ≡ new_ranges }
    {
        QueueRanges {
            file: 0,
            own: None,
            older: Older::new(alloc),
            cut: None,
        }
    }

    /// A change that is written to the present file.
    fn write(&mut self, keep: u64, count: u64)
        requires { keep + count < 2 ^ 64 }
        ensures { self.new ≡ write keep count self.old }
    {
        self.own = range_behind(keep, count, range_to(keep, self.own));
        self.cut = Some(least_kept(self.cut, keep));
    }

    /// Where the queue's entries lie, the oldest file first.
    fn places_of(&self, alloc: Global) -> Result<Vec<Span>, Memory>
        ensures ok { IfOk result (λ spans. spans.items ≡ places_of self.now) }
        ensures want { IsOkUnless result Memory.Want }
    {
        let mut spans = spans_to(alloc, self.cut, self.older.as_slice())?;
        push_range(&mut spans, self.file, self.own)?;
        Ok(spans)
    }

    /// The same, where later changes are written to this file.
    fn begin_file(&self, alloc: Global, file: u64) -> Result<QueueRanges, Memory>
        ensures ok { IfOk result (λ q. q ≡ begin_file file self.now) }
        ensures want { IsOkUnless result Memory.Want }
    {
        let older = self.places_of(alloc)?;
        Ok(QueueRanges {
            file,
            own: None,
            older: Older::from_vec(older),
            cut: None,
        })
    }

    /// The same as this file is entered, where it isn't the present one.
    fn enter_file(&mut self, alloc: Global, file: u64) -> Result<(), Memory>
        ensures ok { OnOk result (self.new ≡ enter_file file self.old) }
        ensures want { IsOkUnless result Memory.Want }
    {
        if self.file != file {
            *self = self.begin_file(alloc, file)?;
        }
        Ok(())
    }

    fn find_file(&self, file: u64) -> Option<Range>
        ensures { result ≡ find_file file (places_of self.now) }
    {
        match self.older.find(self.cut, file) {
            Some(range) => Some(range),
            None => find_own(file, self.file, self.own),
        }
    }
}

/// Which entries of each queue lie in which log file.
#[derive(Drop)]
pub struct FileRanges {
    rows: BTreeMap<u32, QueueRanges>,
}

fn put_ranges(
    rows: &mut BTreeMap<u32, QueueRanges>,
    id: u32,
    ranges: QueueRanges,
) -> Result<(), Memory>
    ensures ok { OnOk result
        (get nat_cmp rows.new ≡ put_ranges (get nat_cmp rows.old) id ranges) }
    ensures want { IsOkUnless result Memory.Want }
{
    rows.insert(id, ranges)?;
    Ok(())
}

fn begin_queue(
    alloc: Global,
    old: &BTreeMap<u32, QueueRanges>,
    rows: &mut BTreeMap<u32, QueueRanges>,
    queue: QueueId,
    file: u64,
) -> Result<(), Memory>
    ensures ok { OnOk result (get nat_cmp rows.new
        ≡ begin_queue file (get nat_cmp old.now) (get nat_cmp rows.old) queue) }
    ensures want { IsOkUnless result Memory.Want }
{
    match old.get(&queue.0) {
        Some(row) => put_ranges(rows, queue.0, row.begin_file(alloc, file)?),
        None => Ok(()),
    }
}

impl FileRanges {
    /// Those of queues without entries.
    pub fn new(alloc: Global, queues: &[QueueId]) -> Result<Self, Memory>
        ensures ok { IfOk result (λ all. ranges_in all ≡ ranges_of queues.now) }
        ensures want { IsOkUnless result Memory.Want }
    {
        let mut rows = BTreeMap::new(alloc);
        'queues: for queue in queues {
            put_ranges(&mut rows, queue.0, QueueRanges::new(alloc))?;
        }
        Ok(FileRanges { rows })
    }

    fn write(&mut self, queue: QueueId, keep: u64, count: u64)
        requires { keep + count < 2 ^ 64 }
        ensures { ranges_in self.new
            ≡ change_ranges (write keep count) (ranges_in self.old) queue.0 }
    {
        let Some(row) = self.rows.get_mut(&queue.0) else {
            return;
        };
        row.write(keep, count);
    }

    fn write_in(
        &mut self,
        alloc: Global,
        file: u64,
        queue: QueueId,
        keep: u64,
        count: u64,
    ) -> Result<(), Memory>
        requires { keep + count < 2 ^ 64 }
        ensures ok { OnOk result (ranges_in self.new ≡ change_ranges
            (λ q. write keep count (enter_file file q)) (ranges_in self.old) queue.0) }
        ensures want { IsOkUnless result Memory.Want }
    {
        let Some(row) = self.rows.get_mut(&queue.0) else {
            return Ok(());
        };
        row.enter_file(alloc, file)?;
        row.write(keep, count);
        Ok(())
    }

    /// An op that stands in a log file. Files come in the order in which they were written. Out of memory,
    /// the ranges are of no use any more.
    pub fn write_op_in(&mut self, alloc: Global, file: u64, op: &Op) -> Result<(), Memory>
        requires { last_index op.now ≤ 2 ^ 64 - 1 }
        ensures ok { OnOk result
            (ranges_in self.new ≡ write_op_in file (ranges_in self.old) op.now) }
        ensures want { IsOkUnless result Memory.Want }
    {
        match op {
            Op::Change {
                queue,
                keep,
                entries,
                ..
            } => self.write_in(alloc, file, *queue, keep.0, entries.len() as u64),
            Op::SnapshotMade { .. } | Op::SegmentMade { .. } => Ok(()),
        }
    }

    /// An op that is written to the present file.
    pub(crate) fn write_op(&mut self, op: &Op)
        requires { last_index op.now ≤ 2 ^ 64 - 1 }
        ensures { ranges_in self.new ≡ write_op (ranges_in self.old) op.now }
    {
        match op {
            Op::Change {
                queue,
                keep,
                entries,
                ..
            } => self.write(*queue, keep.0, entries.len() as u64),
            Op::SnapshotMade { .. } | Op::SegmentMade { .. } => {}
        }
    }

    /// The first ops that wait are written.
    pub(crate) fn write_batch(&mut self, waiting: &Waiting, count: usize)
        requires fit { AllFitBatch waiting.now.items }
        requires count { count ≤ length waiting.now.items }
        ensures { ranges_in self.new
            ≡ fold write_record (ranges_in self.old) (take count waiting.now.items) }
    {
        for i in 0..count {
            self.write_op(waiting.op_at(i));
        }
    }

    /// The same for these queues, where later changes are written to a new file.
    pub(crate) fn begin_files(
        &self,
        alloc: Global,
        queues: &[QueueId],
        file: u64,
    ) -> Result<FileRanges, Memory>
        ensures ok { IfOk result (λ all.
            ranges_in all ≡ begin_files file queues.now (ranges_in self.now)) }
        ensures want { IsOkUnless result Memory.Want }
    {
        let mut rows = BTreeMap::new(alloc);
        'queues: for queue in queues {
            begin_queue(alloc, &self.rows, &mut rows, *queue, file)?;
        }
        Ok(FileRanges { rows })
    }

    /// The first and the last of the queue's entries that lie in a log file, None where none does.
    pub(crate) fn in_file(&self, queue: QueueId, file: u64) -> Option<(Index, Index)>
        ensures { result ≡ in_file (ranges_in self.now) queue file }
    {
        match self.rows.get(&queue.0) {
            Some(row) => as_indices(row.find_file(file)),
            None => None,
        }
    }
}
