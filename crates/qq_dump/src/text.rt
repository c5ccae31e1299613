//! The text of one log file.
ghost use Rattle.std.specs.Prelude.{◌≡◌, ◌≤◌, ◌<◌, ◌+◌, ◌++◌, ◌^◌, length, drop, [], option_map, IfOk, IfSome, IsOkUnless, OnOk};
ghost use Rattle.qq_wal_record.specs.Reading.{IsRecordAt};
ghost use Rattle.qq_wal_record.specs.Record.{payload_length};
ghost use Rattle.qq_wal_chain.specs.Records.{records};
ghost use Rattle.qq_wal_chain.specs.Wal.{wal, read_record};
ghost use Rattle.qq_dump.specs.Text.{end_text, field, file_text, kind_text, record_text, records_text};

use qq_base::Memory;
use qq_log::Op;
use qq_script::{push_number, push_text};
use qq_wal_chain::the_log_has_a_format;
use qq_wal_record::{LogRecord, NoRecord, encodings_have_lengths, read_header, read_record};
use std::alloc::Global;

/// The bytes of a header.
const HEADER: usize = 38;

/// The bytes of a record beside its payload.
const FRAME: usize = 25;

fn kind_text(entry: &LogRecord) -> &'static str
    ensures { result.now ≡ kind_text entry.now }
{
    match entry {
        LogRecord::Op(Op::Change { .. }) => "change",
        LogRecord::Op(Op::SnapshotMade { .. }) => "snapshot",
        LogRecord::Op(Op::SegmentMade { .. }) => "segment",
        LogRecord::Carry(_) => "carry",
    }
}

/// A blank, and a number.
fn push_field(out: &mut Vec<u8>, number: u64) -> Result<(), Memory>
    ensures ok { OnOk result (out.new.items ≡ out.old.items ++ field number) }
    ensures want { IsOkUnless result Memory.Want }
{
    push_text(out, " ")?;
    push_number(out, number)
}

/// The line of a record, which has a payload of this length.
fn push_record(
    out: &mut Vec<u8>,
    file: u64,
    place: u64,
    entry: &LogRecord,
    payload: u64,
) -> Result<(), Memory>
    requires { payload ≡ payload_length entry.now }
    ensures ok { OnOk result
        (out.new.items ≡ out.old.items ++ record_text file place entry.now) }
    ensures want { IsOkUnless result Memory.Want }
{
    push_number(out, file)?;
    push_field(out, place)?;
    push_text(out, " ")?;
    push_text(out, kind_text(entry))?;
    push_field(out, u64::from(entry.queue().0))?;
    push_field(out, entry.number())?;
    push_field(out, payload)?;
    push_text(out, "\n")
}

/// The line for where a file's records end.
fn push_end(out: &mut Vec<u8>, file: u64, place: u64) -> Result<(), Memory>
    ensures ok { OnOk result (out.new.items ≡ out.old.items ++ end_text file place) }
    ensures want { IsOkUnless result Memory.Want }
{
    push_text(out, "end")?;
    push_field(out, file)?;
    push_field(out, place)?;
    push_text(out, "\n")
}

/// The record at the front, and how many bytes it takes. None where no whole record stands there.
fn record_at(alloc: Global, file: u64, bytes: &[u8]) -> Result<Option<(LogRecord, usize)>, Memory>
    ensures read { IfOk result (λ found.
        option_map (λ x. x.0) found ≡ read_record file bytes.now) }
    ensures found { IfOk result (λ found. IfSome found (IsRecordAt file bytes.now)) }
    ensures within { IfOk result (λ found. IfSome found (λ x. x.1 ≤ length bytes.now)) }
    ensures want { IsOkUnless result Memory.Want }
{
    match read_record(alloc, file, bytes) {
        Ok((entry, taken)) => Ok(Some((entry, taken))),
        Err(NoRecord::Memory) => Err(Memory::Want),
        Err(NoRecord::Short) => Ok(None),
        Err(NoRecord::Mark) => Ok(None),
        Err(NoRecord::Kind) => Ok(None),
        Err(NoRecord::Field) => Ok(None),
    }
}

/// The lines of the records of a file whose bytes after the header are these.
fn push_records(alloc: Global, file: u64, bytes: &[u8], out: &mut Vec<u8>) -> Result<(), Memory>
    requires { length bytes.now < 2 ^ 63 }
    ensures ok { OnOk result (out.new.items
        ≡ out.old.items ++ records_text file 38 (records (wal []) file bytes.now)) }
    ensures want { IsOkUnless result Memory.Want }
{
    the_log_has_a_format();
    encodings_have_lengths();
    let mut rest = bytes;
    let mut place = HEADER as u64;
    'records: while let Some((entry, taken)) = record_at(alloc, file, rest)? {
        let pushed = push_record(out, file, place, &entry, (taken - FRAME) as u64);
        drop(entry);
        pushed?;
        place += taken as u64;
        rest = rest.split_at(taken).1;
    }
    push_end(out, file, place)
}

fn behind_header(bytes: &[u8]) -> &[u8]
    ensures { result.now ≡ drop 38 bytes.now }
{
    if bytes.len() < HEADER {
        return &[];
    }
    bytes.split_at(HEADER).1
}

/// The text of the log file of this number: a line for each record up to the first place where none reads, and one for
/// that place. A file whose header isn't read has no records. The only error is that there is no memory.
#[tactic(auto, unfolding(crate::specs::Text::file_text))]
pub(crate) fn file_text(alloc: Global, file: u64, bytes: &[u8]) -> Result<Vec<u8>, Memory>
    requires { length bytes.now < 2 ^ 63 }
    ensures ok { IfOk result (λ text. text.items ≡ file_text file bytes.now) }
    ensures want { IsOkUnless result Memory.Want }
{
    let mut text = Vec::new(alloc);
    match read_header(bytes) {
        Ok(_) => push_records(alloc, file, behind_header(bytes), &mut text)?,
        Err(_) => push_end(&mut text, file, 0)?,
    }
    Ok(text)
}
