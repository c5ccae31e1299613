//! Marks of records that are made at once, before the records are read.
ghost use Rattle.std.specs.Prelude.{◌≡◌, ◌+◌, ℕ, drop, map, take, IfOk, IfSome, IsOkUnless};
ghost use Rattle.qq_wal_record.specs.Ahead.{AreMarks, mark_place};
ghost use Rattle.qq_wal_record.specs.Encoding.{record_mark};

use crate::mark::{MARK_LEN, record_marks};
use crate::record::HEAD_LEN;
use qq_base::{Memory, take_u32};
use std::alloc::Global;

/// The most records whose marks are made at once.
const AHEAD: usize = 256;

/// The bytes before its mark of the record at the front, and those behind its mark. None where there are too few.
fn body_at(bytes: &[u8]) -> Option<(&[u8], &[u8])>
    ensures body { IfSome result (λ x. x.0.now ≡ take (mark_place bytes.now) bytes.now) }
    ensures rest { IfSome result (λ x. x.1.now ≡ drop (mark_place bytes.now + 8) bytes.now) }
{
    let (len, _) = take_u32(bytes)?;
    let end = HEAD_LEN + len as usize;
    if bytes.len() < end + MARK_LEN {
        return None;
    }
    Some((bytes.split_at(end).0, bytes.split_at(end + MARK_LEN).1))
}

/// The bytes before their marks of the records that stand one behind the other, as far as their lengths say so.
fn bodies_at(alloc: Global, bytes: &[u8]) -> Result<Vec<&[u8]>, Memory>
    ensures ok { (file : ℕ) → IfOk result (λ found.
        AreMarks file (map (λ body. record_mark file body.now) found.items) bytes.now) }
    ensures want { IsOkUnless result Memory.Want }
{
    let mut found = Vec::new(alloc);
    let mut rest = bytes;
    'bodies: for _ in 0..AHEAD {
        let Some((body, more)) = body_at(rest) else {
            return Ok(found);
        };
        found.push(body)?;
        rest = more;
    }
    Ok(found)
}

/// The marks that the records at the front of the bytes have to have, which stand one behind the other in the file
/// of this number: those of some hundreds, or fewer. The only error is `Memory::Want`, out of memory.
pub fn marks_ahead(alloc: Global, file: u64, bytes: &[u8]) -> Result<Vec<[u8; 8]>, Memory>
    ensures ok { IfOk result (λ marks. AreMarks file marks.items bytes.now) }
    ensures want { IsOkUnless result Memory.Want }
{
    let bodies = bodies_at(alloc, bytes)?;
    let marks = record_marks(alloc, file, bodies.as_slice())?;
    Ok(marks)
}
