//! Records as the bytes of one append.
ghost use Rattle.std.specs.Prelude.{◌≡◌, ◌++◌, ◌+◌, ◌≤◌, ℕ, [], All, flat_map, length, map, take, IfOk, OnOk, IsOkUnless};
ghost use Rattle.std.specs.List.{AllByRecursion};
ghost use Rattle.qq_base.specs.Fields.{AreBytes};
ghost use Rattle.qq_log.specs.Writable.{IsWritableCarry};
ghost use Rattle.qq_wal_record.specs.declared.record.LogRecord.TheVariants.{Carry as CarryRecord};
ghost use Rattle.qq_wal_record.specs.Encoding.{body, record_encoding};
ghost use Rattle.qq_wal_record.specs.Marked.{body_length};
ghost use Rattle.qq_wal_chain.specs.Wal.{RecordFits};
ghost use Rattle.qq_wal.specs.Batch.{encodings, AllFitBatch, IsBatch};

use crate::waiting::Waiting;
use qq_base::Memory;
use qq_log::Carry;
use qq_wal_record::{MARK_LEN, MarkRoom, put_op_body, write_carry, write_marked};
use std::alloc::Global;
use std::marker::Model;

/// The most ops of a batch.
pub const BATCH_OPS: usize = 8_192;

/// The most bytes of a batch, heads and marks of its records counted.
pub const BATCH_BYTES: usize = 4_194_304;

fn are_bytes(bytes: &[u8])
    ensures { AreBytes bytes.now }
{}

/// Adds a carry's record. Its encoding is of bytes.
pub(crate) fn put_carry_record(file: u64, carry: &Carry, out: &mut Vec<u8>) -> Result<(), Memory>
    requires { IsWritableCarry carry.now }
    ensures ok { OnOk result
        (out.new.items ≡ out.old.items ++ record_encoding file (CarryRecord carry.now)) }
    ensures fits { OnOk result (RecordFits file (CarryRecord carry.now)) }
    ensures want { IsOkUnless result Memory.Want }
{
    let place = out.len();
    write_carry(file, carry, out)?;
    are_bytes(out.as_slice().split_at(place).1);
    Ok(())
}

/// Room to put batches together in. What stands in it is of no use to a later batch: it is kept for its memory, so
/// that once it has grown, a batch takes none. It stays as large as the largest batch made it: each list of bytes
/// may have `BATCH_BYTES`.
#[derive(Drop)]
pub(crate) struct BatchRoom {
    /// The records before their marks.
    bodies: Vec<u8>,
    /// How many bytes each of them has.
    lengths: Vec<usize>,
    marks: MarkRoom,
    /// The records.
    bytes: Vec<u8>,
}

impl Model for BatchRoom {
    ghost Value = { Unit {0} };

    ghost view = { λ _. tt };
}

impl BatchRoom {
    /// Room that takes no memory yet.
    pub(crate) fn new(alloc: Global) -> BatchRoom {
        BatchRoom {
            bodies: Vec::new(alloc),
            lengths: Vec::new(alloc),
            marks: MarkRoom::new(alloc),
            bytes: Vec::new(alloc),
        }
    }
}

/// Adds the bytes of a batch of what waits, each record's before its mark, with how many they are, and answers
/// of how many records it is.
fn put_bodies(
    bytes: &mut Vec<u8>,
    lengths: &mut Vec<usize>,
    waiting: &Waiting,
) -> Result<usize, Memory>
    requires fit { AllFitBatch waiting.now.items }
    requires bytes { bytes.old.items ≡ [] }
    requires lengths { lengths.old.items ≡ [] }
    ensures batch { IfOk result (λ count. (file : ℕ) → IsBatch file count waiting.now.items) }
    ensures bytes { IfOk result
        (λ count. bytes.new.items ≡ flat_map body (take count waiting.now.items)) }
    ensures lengths { IfOk result
        (λ count. lengths.new.items ≡ map body_length (take count waiting.now.items)) }
    ensures want { IsOkUnless result Memory.Want }
{
    let mut count = 0;
    while count < waiting.len() && count < BATCH_OPS {
        let place = bytes.len();
        put_op_body(bytes, waiting.op_at(count))?;
        if bytes.len() + MARK_LEN * (count + 1) > BATCH_BYTES {
            bytes.truncate(place);
            return Ok(count);
        }
        lengths.push(bytes.len() - place)?;
        count += 1;
    }
    Ok(count)
}

/// Puts together a batch of what waits, and answers of how many records it is, and its bytes.
pub(crate) fn put_batch<'a>(
    room: &'a mut BatchRoom,
    file: u64,
    waiting: &Waiting,
) -> Result<(usize, &'a [u8]), Memory>
    requires { AllFitBatch waiting.now.items }
    ensures batch { IfOk result (λ batch. IsBatch file batch.0 waiting.now.items) }
    ensures ok { IfOk result
        (λ batch. batch.1.now ≡ encodings file (take batch.0 waiting.now.items)) }
    ensures fits { IfOk result (λ batch.
        AllByRecursion (RecordFits file) (take batch.0 waiting.now.items)) }
    ensures want { IsOkUnless result Memory.Want }
{
    room.bodies.clear();
    room.lengths.clear();
    room.bytes.clear();
    let count = put_bodies(&mut room.bodies, &mut room.lengths, waiting)?;
    let bodies = room.bodies.as_slice();
    let lengths = room.lengths.as_slice();
    write_marked(&mut room.bytes, &mut room.marks, file, bodies, lengths)?;
    let bytes = room.bytes.as_slice();
    are_bytes(bytes);
    Ok((count, bytes))
}
