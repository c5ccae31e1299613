//! Reading a record from the front of bytes.
ghost use Rattle.std.specs.Prelude.{◌≡◌, ◌++◌, ◌+◌, ◌≤◌, List, ℕ, length, take, IfOk, IfSome, Ok, Err};
ghost use Rattle.qq_wal_record.specs.Ahead.{IsMarkAt, mark_place};
ghost use Rattle.qq_wal_record.specs.Encoding.{record_encoding, record_mark};
ghost use Rattle.qq_wal_record.specs.Reading.{Gives, change_at, snapshot_made_at, segment_made_at, carry_at, payload_at, whole_payload_at, inside_at, is_too_long, marked_at, record_at, IsRecordAt};
ghost use Rattle.qq_wal_record.specs.Record.{IsWritable};
ghost use Rattle.qq_wal_record.specs.declared.record.LogRecord.{LogRecord};

use crate::fields::{entries_at, head_at, segment_at, segments_at, vote_at};
use crate::mark::{MARK_LEN, record_mark};
use crate::record::{CARRY, CHANGE, HEAD_LEN, LogRecord, NoRecord, SEGMENT, SNAPSHOT};
use qq_base::{Index, QueueId, Term};
use qq_fields::{u8_at, u32_at, u64_at};
use qq_log::{Carry, Op, PAYLOAD_LIMIT};
use std::alloc::Global;

/// The bytes of a payload's length.
const LENGTH_LEN: usize = 4;

#[tactic(auto, unfolding(crate::specs::Reading::change_at))]
fn change_at(
    alloc: Global,
    queue: QueueId,
    op: u64,
    bytes: &[u8],
) -> Result<(LogRecord, &[u8]), NoRecord>
    ensures { Gives (λ x. (x.0, x.1.now)) result (change_at queue op bytes.now) }
{
    let (term, rest) = u64_at(bytes, NoRecord::Field)?;
    let (vote, rest) = vote_at(rest)?;
    let (keep, rest) = u64_at(rest, NoRecord::Field)?;
    let (entries, rest) = entries_at(alloc, rest)?;
    let change = Op::Change {
        queue,
        op,
        term: Term(term),
        vote,
        keep: Index(keep),
        entries,
    };
    Ok((LogRecord::Op(change), rest))
}

#[tactic(auto, unfolding(crate::specs::Reading::snapshot_made_at))]
fn snapshot_made_at(queue: QueueId, op: u64, bytes: &[u8]) -> Result<(LogRecord, &[u8]), NoRecord>
    ensures { Gives (λ x. (x.0, x.1.now)) result (snapshot_made_at queue op bytes.now) }
{
    let (head, rest) = head_at(bytes)?;
    let (file, rest) = u64_at(rest, NoRecord::Field)?;
    let made = Op::SnapshotMade {
        queue,
        op,
        head,
        file,
    };
    Ok((LogRecord::Op(made), rest))
}

#[tactic(auto, unfolding(crate::specs::Reading::segment_made_at))]
fn segment_made_at(queue: QueueId, op: u64, bytes: &[u8]) -> Result<(LogRecord, &[u8]), NoRecord>
    ensures { Gives (λ x. (x.0, x.1.now)) result (segment_made_at queue op bytes.now) }
{
    let (segment, rest) = segment_at(bytes)?;
    let made = Op::SegmentMade {
        queue,
        op,
        file: segment.file,
        first: segment.first,
        last: segment.last,
    };
    Ok((LogRecord::Op(made), rest))
}

#[tactic(auto, unfolding(crate::specs::Reading::carry_at))]
fn carry_at(
    alloc: Global,
    queue: QueueId,
    op: u64,
    bytes: &[u8],
) -> Result<(LogRecord, &[u8]), NoRecord>
    ensures { Gives (λ x. (x.0, x.1.now)) result (carry_at queue op bytes.now) }
{
    let (term, rest) = u64_at(bytes, NoRecord::Field)?;
    let (vote, rest) = vote_at(rest)?;
    let (base, rest) = head_at(rest)?;
    let (snapshot, rest) = u64_at(rest, NoRecord::Field)?;
    let (segments, rest) = segments_at(alloc, rest)?;
    let (last, rest) = u64_at(rest, NoRecord::Field)?;
    let carry = Carry {
        queue,
        op,
        term: Term(term),
        vote,
        base,
        snapshot,
        segments,
        last: Index(last),
    };
    Ok((LogRecord::Carry(carry), rest))
}

#[tactic(auto, unfolding(crate::specs::Reading::payload_at))]
fn payload_at(
    alloc: Global,
    kind: u8,
    queue: QueueId,
    op: u64,
    bytes: &[u8],
) -> Result<(LogRecord, &[u8]), NoRecord>
    ensures { Gives (λ x. (x.0, x.1.now)) result (payload_at kind queue op bytes.now) }
{
    match kind {
        CHANGE => change_at(alloc, queue, op, bytes),
        SNAPSHOT => snapshot_made_at(queue, op, bytes),
        SEGMENT => segment_made_at(queue, op, bytes),
        CARRY => carry_at(alloc, queue, op, bytes),
        _ => Err(NoRecord::Kind),
    }
}

/// A payload that takes all of the bytes.
#[tactic(auto, unfolding(crate::specs::Reading::whole_payload_at))]
fn whole_payload_at(
    alloc: Global,
    kind: u8,
    queue: QueueId,
    op: u64,
    bytes: &[u8],
) -> Result<LogRecord, NoRecord>
    ensures { Gives (λ x. x) result (whole_payload_at kind queue op bytes.now) }
{
    let (record, rest) = payload_at(alloc, kind, queue, op, bytes)?;
    if !rest.is_empty() {
        return Err(NoRecord::Field);
    }
    Ok(record)
}

/// The fields behind a payload's length.
#[tactic(auto, unfolding(crate::specs::Reading::inside_at))]
fn inside_at(alloc: Global, len: usize, bytes: &[u8]) -> Result<LogRecord, NoRecord>
    requires { 17 + len ≤ length bytes.now }
    ensures { Gives (λ x. x) result (inside_at len bytes.now) }
{
    let (kind, rest) = u8_at(bytes.split_at(LENGTH_LEN).1, NoRecord::Field)?;
    let (queue, rest) = u32_at(rest, NoRecord::Field)?;
    let (op, _) = u64_at(rest, NoRecord::Field)?;
    let payload = bytes.split_at(HEAD_LEN).1.split_at(len).0;
    whole_payload_at(alloc, kind, QueueId(queue), op, payload)
}

/// The mark of a record's bytes in a file, where it isn't known.
fn mark_of(file: u64, known: Option<[u8; 8]>, body: &[u8]) -> [u8; 8]
    requires { IfSome known (λ mark. mark ≡ record_mark file body.now) }
    ensures { result ≡ record_mark file body.now }
{
    match known {
        Some(mark) => mark,
        None => record_mark(file, body),
    }
}

/// The record of a payload's length, if its mark is right.
#[tactic(auto, unfolding(crate::specs::Reading::marked_at))]
fn marked_at(
    alloc: Global,
    file: u64,
    known: Option<[u8; 8]>,
    len: usize,
    bytes: &[u8],
) -> Result<(LogRecord, usize), NoRecord>
    requires there { 17 + len + 8 ≤ length bytes.now }
    requires known { IfSome known (λ mark. mark ≡ record_mark file (take (17 + len) bytes.now)) }
    ensures { Gives (λ x. x) result (marked_at file len bytes.now) }
{
    let end = HEAD_LEN + len;
    let (body, rest) = bytes.split_at(end);
    if mark_of(file, known, body).as_slice() != rest.split_at(MARK_LEN).0 {
        return Err(NoRecord::Mark);
    }
    let record = inside_at(alloc, len, bytes)?;
    Ok((record, end + MARK_LEN))
}

fn is_too_long(kind: u8, len: usize) -> bool
    ensures { result ≡ is_too_long kind len }
{
    kind != CARRY && len > PAYLOAD_LIMIT
}

#[tactic(auto, unfolding(crate::specs::Reading::record_at))]
fn record_at(
    alloc: Global,
    file: u64,
    known: Option<[u8; 8]>,
    bytes: &[u8],
) -> Result<(LogRecord, usize), NoRecord>
    requires { IfSome known (IsMarkAt file bytes.now) }
    ensures { Gives (λ x. x) result (record_at file bytes.now) }
{
    if bytes.len() < HEAD_LEN {
        return Err(NoRecord::Short);
    }
    let (len, rest) = u32_at(bytes, NoRecord::Field)?;
    let (kind, _) = u8_at(rest, NoRecord::Field)?;
    let len = len as usize;
    if is_too_long(kind, len) {
        return Err(NoRecord::Short);
    }
    if bytes.len() < HEAD_LEN + len + MARK_LEN {
        return Err(NoRecord::Short);
    }
    marked_at(alloc, file, known, len, bytes)
}

/// The same as `read_record`, where the mark that the record has to have may be known.
pub fn read_record_with(
    alloc: Global,
    file: u64,
    known: Option<[u8; 8]>,
    bytes: &[u8],
) -> Result<(LogRecord, usize), NoRecord>
    requires { IfSome known (IsMarkAt file bytes.now) }
    // Which answer it is.
    ensures exact { Gives (λ x. x) result (record_at file bytes.now) }
    // What is read may be written, and its encoding is what stands at the front.
    ensures found { IfOk result (λ x. IsRecordAt file bytes.now x) }
    // A record whose encoding stands at the front is read, whatever follows it.
    ensures only { (r : LogRecord) (rest : List ℕ) → IsWritable r →
        bytes.now ≡ record_encoding file r ++ rest →
        Gives (λ x. x) result (Ok (r, length (record_encoding file r))) }
    ensures within { IfOk result (λ x. x.1 ≤ length bytes.now) }
    // The next record begins behind its mark.
    ensures next { IfOk result (λ x. x.1 ≡ mark_place bytes.now + 8) }
{
    record_at(alloc, file, known, bytes)
}

/// The record of the file of this number at the front of the bytes, and how many bytes it takes. What
/// follows it isn't looked at.
///
/// `Short` is for bytes that end before the record does, and for an op whose payload is above
/// `PAYLOAD_LIMIT`, then `Mark` for a mark that isn't that of the bytes before it, then `Kind` for a kind
/// above 4, then `Field` for a payload that isn't read exactly by its kind.
pub fn read_record(alloc: Global, file: u64, bytes: &[u8]) -> Result<(LogRecord, usize), NoRecord>
    // Which answer it is.
    ensures exact { Gives (λ x. x) result (record_at file bytes.now) }
    // What is read may be written, and its encoding is what stands at the front.
    ensures found { IfOk result (λ x. IsRecordAt file bytes.now x) }
    // A record whose encoding stands at the front is read, whatever follows it.
    ensures only { (r : LogRecord) (rest : List ℕ) → IsWritable r →
        bytes.now ≡ record_encoding file r ++ rest →
        Gives (λ x. x) result (Ok (r, length (record_encoding file r))) }
    ensures within { IfOk result (λ x. x.1 ≤ length bytes.now) }
{
    read_record_with(alloc, file, None, bytes)
}
