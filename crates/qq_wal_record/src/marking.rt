//! Records whose marks are made at once.
ghost use Rattle.std.specs.Prelude.{◌≡◌, ◌++◌, ◌≤◌, List, OnOk, IsOkUnless, flat_map, length, map, sum};
ghost use Rattle.qq_digests.specs.Pieces.{pieces};
ghost use Rattle.qq_wal_record.specs.declared.record.LogRecord.{LogRecord};
ghost use Rattle.qq_wal_record.specs.Encoding.{body, record_encoding};
ghost use Rattle.qq_wal_record.specs.Marked.{body_length, with_fronts};

use crate::mark::first_bytes;
use qq_base::Memory;
use qq_digests::put_digests;
use std::alloc::Global;
use std::marker::Model;

/// Room to make marks in. What stands in it is of no use to a later call: it is kept for its memory, so that once
/// it has grown, no further call takes any. It grows with the most bytes and records of one call.
#[derive(Drop)]
pub struct MarkRoom {
    digests: Vec<[u8; 32]>,
    /// Where `put_digests` makes copies.
    copies: Vec<u8>,
}

impl Model for MarkRoom {
    ghost Value = { Unit {0} };

    ghost view = { λ _. tt };
}

impl MarkRoom {
    /// Room that takes no memory yet.
    pub fn new(alloc: Global) -> MarkRoom {
        MarkRoom {
            digests: Vec::new(alloc),
            copies: Vec::new(alloc),
        }
    }
}

/// Adds the pieces of these lengths, each with the first bytes of its digest.
fn put_pieces(
    out: &mut Vec<u8>,
    bytes: &[u8],
    lengths: &[usize],
    digests: &[[u8; 32]],
) -> Result<(), Memory>
    requires room { sum lengths.now ≤ length bytes.now }
    requires count { length digests.now ≡ length lengths.now }
    ensures ok { OnOk result (out.new.items
        ≡ out.old.items ++ with_fronts (pieces lengths.now bytes.now) digests.now) }
    ensures want { IsOkUnless result Memory.Want }
{
    let mut rest = bytes;
    'pieces: for i in 0..lengths.len() {
        let (piece, more) = rest.split_at(lengths[i]);
        out.extend_from_slice(piece)?;
        out.extend_from_slice(&first_bytes(digests[i]))?;
        rest = more;
    }
    Ok(())
}

/// Adds the records in the file of this number whose bytes before their marks stand here, one after the other,
/// with these lengths. The only error is that there is no memory; what was added then isn't said.
pub fn write_marked(
    out: &mut Vec<u8>,
    room: &mut MarkRoom,
    file: u64,
    bytes: &[u8],
    lengths: &[usize],
) -> Result<(), Memory>
    requires { sum lengths.now ≤ length bytes.now }
    ensures ok { OnOk result ((records : List LogRecord) → bytes.now ≡ flat_map body records →
        lengths.now ≡ map body_length records →
        out.new.items ≡ out.old.items ++ flat_map (record_encoding file) records) }
    ensures want { IsOkUnless result Memory.Want }
{
    room.digests.clear();
    let prefix = file.to_be_bytes();
    put_digests(&mut room.digests, &mut room.copies, &prefix, bytes, lengths)?;
    put_pieces(out, bytes, lengths, room.digests.as_slice())?;
    Ok(())
}
