//! A file of the chain: its header, and its records as far as it is good.
ghost use Rattle.std.specs.Prelude.{◌≡◌, ◌+◌, ◌≤◌, ◌<◌, ◌^◌, List, length, take, drop, option_map, IfOk, IfErr, IfSome, IsOkUnless, OnOk};
ghost use Rattle.qq_base.specs.declared.ids.QueueId.{QueueId};
ghost use Rattle.qq_wal_record.specs.Ahead.{AreMarks};
ghost use Rattle.qq_wal_record.specs.Record.{IsWritable};
ghost use Rattle.qq_wal_record.specs.declared.header.TheConstants.{HEADER_LEN};
ghost use Rattle.qq_wal_chain.specs.Records.{encode_all, records};
ghost use Rattle.qq_wal_record.specs.Reading.{IsRecordAt};
ghost use Rattle.qq_wal_chain.specs.Wal.{wal, read_record};
ghost use Rattle.qq_recover.specs.Answer.{Gives};
ghost use Rattle.qq_recover.specs.Fault.{IsOfBytes};
ghost use Rattle.qq_disk.specs.Image.{log_of};
ghost use Rattle.qq_recover.specs.Files.{header_of, ends_at, file_at, good_end, good_bytes, is_short, counted_file};
ghost use Rattle.qq_recover.specs.Placed.{placed};

use crate::fault::RecoverFault;
use qq_base::{Items, Memory};
use qq_disk::{FileKind, FileName};
use qq_wal_chain::the_log_has_a_format;
use qq_wal_record::{
    Header, LogRecord, NoHeader, NoRecord, marks_ahead, read_header, read_record_with,
};
use std::alloc::Global;
use std::collections::VecDeque;
use std::marker::Model;

/// The bytes of a header.
const HEADER: usize = 38;

/// A record of a log file, and where it begins.
#[derive(Drop)]
pub(crate) struct PlacedRecord {
    place: u64,
    entry: LogRecord,
}

impl Model for PlacedRecord {
    ghost use Rattle.qq_wal_record.specs.Record.{IsWritable};
    ghost use Rattle.qq_recover.specs.Placed.{Placed};

    ghost Value = { Placed };

    ghost view = { λ p. record { place = p.place; entry = p.entry } };

    ghost invariant = { λ p. IsWritable p.entry };
}

impl PlacedRecord {
    fn new(place: u64, entry: LogRecord) -> Self
        requires { IsWritable entry }
        ensures { result ≡ record { place = place; entry = entry } }
    {
        PlacedRecord { place, entry }
    }

    pub(crate) fn entry(&self) -> &LogRecord
        ensures { result.now ≡ self.now.entry }
    {
        &self.entry
    }

    pub(crate) fn into_parts(self) -> (u64, LogRecord)
        ensures parts { result ≡ (self.place, self.entry) }
        ensures writable { IsWritable self.entry }
    {
        (self.place, self.entry)
    }
}

/// A file of the chain.
#[derive(Drop)]
pub(crate) struct ChainFile {
    pub(crate) number: u64,
    /// Where its records end.
    pub(crate) end: u64,
    pub(crate) records: Items<PlacedRecord>,
}

/// The name of a log file.
pub(crate) fn log_of(number: u64) -> FileName
    ensures { result ≡ log_of number }
{
    FileName {
        kind: FileKind::Log,
        number,
    }
}

/// The header of a file of this number, or why it counts for none.
#[tactic(auto, unfolding(crate::specs::Files::header_of))]
fn header_of(number: u64, read: Result<Header, NoHeader>) -> Result<Header, RecoverFault>
    ensures gives { Gives (λ h. h) result (header_of number read) }
    ensures cause { IfErr result IsOfBytes }
{
    let file = log_of(number);
    match read {
        Ok(header) => {
            if header.file == number && header.previous < number {
                return Ok(header);
            }
            Err(RecoverFault::Damaged { file, place: 0 })
        }
        Err(NoHeader::Version { byte }) => Err(RecoverFault::Version { file, byte }),
        Err(_) => Err(RecoverFault::Damaged { file, place: 0 }),
    }
}

/// Makes the marks of the records ahead, where none is left.
fn refill(
    alloc: Global,
    number: u64,
    ahead: &mut VecDeque<[u8; 8]>,
    bytes: &[u8],
) -> Result<(), Memory>
    requires { AreMarks number ahead.old.items bytes.now }
    ensures ok { OnOk result (AreMarks number ahead.new.items bytes.now) }
    ensures want { IsOkUnless result Memory.Want }
{
    if !ahead.is_empty() {
        return Ok(());
    }
    *ahead = VecDeque::from_vec(marks_ahead(alloc, number, bytes)?);
    Ok(())
}

/// The record at the front, and how many bytes it takes. None where no whole record stands there. `ahead` has the
/// marks of some records from here on.
fn record_at(
    alloc: Global,
    number: u64,
    ahead: &mut VecDeque<[u8; 8]>,
    bytes: &[u8],
) -> Result<Option<(LogRecord, usize)>, Memory>
    requires { AreMarks number ahead.old.items bytes.now }
    ensures read { IfOk result (λ found.
        option_map (λ x. x.0) found ≡ read_record number bytes.now) }
    ensures found { IfOk result (λ found. IfSome found (IsRecordAt number bytes.now)) }
    ensures within { IfOk result (λ found. IfSome found (λ x. x.1 ≤ length bytes.now)) }
    ensures ahead { IfOk result (λ found. IfSome found (λ x.
        AreMarks number ahead.new.items (drop x.1 bytes.now))) }
    ensures want { IsOkUnless result Memory.Want }
{
    refill(alloc, number, ahead, bytes)?;
    let known = ahead.pop_front();
    match read_record_with(alloc, number, known, bytes) {
        Ok((entry, taken)) => Ok(Some((entry, taken))),
        Err(NoRecord::Memory) => Err(Memory::Want),
        Err(NoRecord::Short) => Ok(None),
        Err(NoRecord::Mark) => Ok(None),
        Err(NoRecord::Kind) => Ok(None),
        Err(NoRecord::Field) => Ok(None),
    }
}

/// The records that stand one behind the other from a place of a file on, and where they end.
fn records_at(
    alloc: Global,
    number: u64,
    start: u64,
    bytes: &[u8],
) -> Result<(Vec<PlacedRecord>, u64), Memory>
    requires { start + length bytes.now < 2 ^ 64 }
    ensures records { (queues : List QueueId) → IfOk result (λ x.
        x.0.items ≡ placed number start (records (wal queues) number bytes.now)) }
    ensures end { (queues : List QueueId) → IfOk result (λ x. x.1 ≡
        start + length (encode_all (wal queues) number (records (wal queues) number bytes.now))) }
    ensures want { IsOkUnless result Memory.Want }
{
    the_log_has_a_format();
    let mut found = Vec::new(alloc);
    let mut ahead = VecDeque::new(alloc);
    let mut rest = bytes;
    let mut place = start;
    'records: while let Some((entry, taken)) = record_at(alloc, number, &mut ahead, rest)? {
        found.push(PlacedRecord::new(place, entry))?;
        place += taken as u64;
        rest = rest.split_at(taken).1;
    }
    Ok((found, place))
}

/// The first bytes, all where there are no more.
fn first(bytes: &[u8], count: u64) -> &[u8]
    ensures { result.now ≡ take count bytes.now }
{
    if count >= bytes.len() as u64 {
        return bytes;
    }
    bytes.split_at(count as usize).0
}

fn behind_header(bytes: &[u8]) -> &[u8]
    ensures { result.now ≡ drop HEADER_LEN bytes.now }
{
    if bytes.len() < HEADER {
        return &[];
    }
    bytes.split_at(HEADER).1
}

/// The bytes that count: those up to where the file is good, all where it isn't said.
fn good_bytes(bytes: &[u8], good: Option<u64>) -> &[u8]
    ensures { result.now ≡ good_bytes good bytes.now }
{
    match good {
        Some(good) => first(bytes, good),
        None => bytes,
    }
}

fn is_short(good: Option<u64>, end: u64) -> bool
    ensures { result ≡ is_short good end }
{
    match good {
        Some(good) => good != end,
        None => false,
    }
}

/// The file of a header that counts.
fn counted_file(
    alloc: Global,
    number: u64,
    good: Option<u64>,
    header: Header,
    bytes: &[u8],
) -> Result<(Header, ChainFile), RecoverFault>
    requires some { 0 < number }
    requires long { length bytes.now < 2 ^ 63 }
    ensures gives { (queues : List QueueId) → Gives (λ x. x) result
        (ends_at (good_end queues number good bytes.now) header
        (counted_file queues number good bytes.now)) }
    ensures cause { IfErr result IsOfBytes }
{
    the_log_has_a_format();
    let counted = behind_header(good_bytes(bytes, good));
    let (records, end) = records_at(alloc, number, HEADER as u64, counted)?;
    if is_short(good, end) {
        return Err(RecoverFault::Damaged {
            file: log_of(number),
            place: end,
        });
    }
    let file = ChainFile {
        number,
        end,
        records: Items::from_vec(records),
    };
    Ok((header, file))
}

/// The file of this number, of which so many bytes are good. Where it isn't said, it is good up to the first
/// place where no whole record stands.
pub(crate) fn file_at(
    alloc: Global,
    number: u64,
    good: Option<u64>,
    bytes: &[u8],
) -> Result<(Header, ChainFile), RecoverFault>
    requires some { 0 < number }
    requires long { length bytes.now < 2 ^ 63 }
    ensures gives { (queues : List QueueId) → Gives (λ x. x) result
        (file_at queues number (good_end queues number good bytes.now) bytes.now) }
    ensures cause { IfErr result IsOfBytes }
{
    the_log_has_a_format();
    match header_of(number, read_header(bytes)) {
        Ok(header) => counted_file(alloc, number, good, header, bytes),
        Err(fault) => Err(fault),
    }
}
