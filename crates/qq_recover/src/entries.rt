//! Where the entries lie that are read.
ghost use Rattle.std.specs.Prelude.{◌≡◌, OnOk, IsOkUnless};
ghost use Rattle.std.specs.List.{fold};
ghost use Rattle.qq_wal_chain.specs.Lanes.{is_within_end};
ghost use Rattle.qq_wal.specs.Notices.{last_index};
ghost use Rattle.qq_wal.specs.Ranges.{ranges_in};
ghost use Rattle.qq_recover.specs.Entries.{find_op, find_in, find_record};

use crate::file::ChainFile;
use crate::state::is_last_within_end;
use qq_base::Memory;
use qq_log::Op;
use qq_wal::FileRanges;
use qq_wal_record::LogRecord;
use std::alloc::Global;

/// Whether the log's end behind an op isn't past its end.
fn is_last_index_within_end(op: &Op) -> bool
    ensures { result ≡ is_within_end (last_index op.now) }
{
    match op {
        Op::Change { keep, entries, .. } => is_last_within_end(keep.0, entries.len()),
        Op::SnapshotMade { .. } | Op::SegmentMade { .. } => true,
    }
}

fn find_op(alloc: Global, ranges: &mut FileRanges, file: u64, op: &Op) -> Result<(), Memory>
    ensures ok { OnOk result (ranges_in ranges.new ≡ find_op file (ranges_in ranges.old) op.now) }
    ensures want { IsOkUnless result Memory.Want }
{
    if !is_last_index_within_end(op) {
        return Ok(());
    }
    ranges.write_op_in(alloc, file, op)
}

fn find_in(
    alloc: Global,
    ranges: &mut FileRanges,
    file: u64,
    entry: &LogRecord,
) -> Result<(), Memory>
    ensures ok { OnOk result
        (ranges_in ranges.new ≡ find_in file (ranges_in ranges.old) entry.now) }
    ensures want { IsOkUnless result Memory.Want }
{
    match entry {
        LogRecord::Op(op) => find_op(alloc, ranges, file, op),
        LogRecord::Carry(_) => Ok(()),
    }
}

/// A file's records, from the first on.
pub(crate) fn find_file(
    alloc: Global,
    ranges: &mut FileRanges,
    file: &ChainFile,
) -> Result<(), Memory>
    ensures ok { OnOk result
        (ranges_in ranges.new
        ≡ fold (find_record file.now.number) (ranges_in ranges.old) file.now.records) }
    ensures want { IsOkUnless result Memory.Want }
{
    'records: for record in file.records.as_slice() {
        find_in(alloc, ranges, file.number, record.entry())?;
    }
    Ok(())
}
