//! Reading the fields of a payload from the front of bytes.
ghost use Rattle.qq_wal_record.specs.Reading.{Gives, vote_at, head_at, segment_at, entries_at, segments_at};

use crate::record::NoRecord;
use crate::writing::put_segment;
use qq_base::{Index, Memory, NodeId, Term};
use qq_command::{Entries, Refusal};
use qq_fields::{Item, list_at, u8_at, u64_at};
use qq_log::{NODE_LIMIT, Places, SnapshotHead, Span};
use std::alloc::Global;

/// The bytes of a segment in a carry.
const SEGMENT_LEN: usize = 24;

#[tactic(auto, unfolding(crate::specs::Reading::vote_at))]
pub fn vote_at(bytes: &[u8]) -> Result<(Option<NodeId>, &[u8]), NoRecord>
    ensures { Gives (λ x. (x.0, x.1.now)) result (vote_at bytes.now) }
{
    let (number, rest) = u8_at(bytes, NoRecord::Field)?;
    if number > NODE_LIMIT {
        return Err(NoRecord::Field);
    }
    if number == 0 {
        return Ok((None, rest));
    }
    Ok((Some(NodeId(number)), rest))
}

#[tactic(auto, unfolding(crate::specs::Reading::head_at))]
pub fn head_at(bytes: &[u8]) -> Result<(SnapshotHead, &[u8]), NoRecord>
    ensures { Gives (λ x. (x.0, x.1.now)) result (head_at bytes.now) }
{
    let (index, rest) = u64_at(bytes, NoRecord::Field)?;
    let (term, rest) = u64_at(rest, NoRecord::Field)?;
    let (through, rest) = u64_at(rest, NoRecord::Field)?;
    let head = SnapshotHead {
        index: Index(index),
        term: Term(term),
        through: Index(through),
    };
    Ok((head, rest))
}

#[tactic(auto, unfolding(crate::specs::Reading::segment_at))]
pub fn segment_at(bytes: &[u8]) -> Result<(Span, &[u8]), NoRecord>
    ensures { Gives (λ x. (x.0, x.1.now)) result (segment_at bytes.now) }
{
    let (file, rest) = u64_at(bytes, NoRecord::Field)?;
    let (first, rest) = u64_at(rest, NoRecord::Field)?;
    let (last, rest) = u64_at(rest, NoRecord::Field)?;
    let span = Span {
        file,
        segment: true,
        first: Index(first),
        last: Index(last),
    };
    Ok((span, rest))
}

impl Item<NoRecord> for Span {
    ghost use Rattle.qq_log.specs.Writable.{IsSegment};
    ghost use Rattle.qq_wal_record.specs.Encoding.{segment};
    ghost use Rattle.qq_wal_record.specs.Reading.{segment_at};

    ghost read = { segment_at };

    ghost write = { segment };

    ghost fits = { IsSegment };

    fn item_at(_: Global, bytes: &[u8]) -> Result<(Self, &[u8]), NoRecord> {
        segment_at(bytes)
    }

    fn put_item(&self, out: &mut Vec<u8>) -> Result<(), Memory> {
        put_segment(out, self)
    }
}

/// A count, and so many entries.
#[tactic(auto, unfolding(crate::specs::Reading::entries_at))]
pub fn entries_at(alloc: Global, bytes: &[u8]) -> Result<(Entries, &[u8]), NoRecord>
    ensures { Gives (λ x. (x.0, x.1.now)) result (entries_at bytes.now) }
{
    match qq_command::entries_at(alloc, bytes) {
        Ok(read) => Ok(read),
        Err(Refusal::Memory(_)) => Err(NoRecord::Memory),
        Err(_) => Err(NoRecord::Field),
    }
}

/// A count, and so many segments.
#[tactic(auto, unfolding(crate::specs::Reading::segments_at))]
pub fn segments_at(alloc: Global, bytes: &[u8]) -> Result<(Places, &[u8]), NoRecord>
    ensures { Gives (λ x. (x.0, x.1.now)) result (segments_at bytes.now) }
{
    let (segments, rest) = list_at(alloc, SEGMENT_LEN, bytes, NoRecord::Field)?;
    Ok((Places::from_vec(segments), rest))
}
