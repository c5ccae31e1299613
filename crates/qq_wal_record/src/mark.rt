//! Marks: the first 8 bytes of a digest under SHA-256.
ghost use Rattle.std.specs.Prelude.{◌≡◌, IfOk, IsOkUnless, map, take};
ghost use Rattle.qq_wal_record.specs.Encoding.{record_mark};
ghost use Rattle.qq_wal_record.specs.Mark.{mark};

use qq_base::Memory;
use qq_digests::digests;
use sha2::{Digest, Sha256};
use std::alloc::Global;

/// The bytes of a mark.
pub const MARK_LEN: usize = 8;

pub fn first_bytes(digest: [u8; 32]) -> [u8; 8]
    ensures { result ≡ take 8 digest }
{
    [
        digest[0], digest[1], digest[2], digest[3], digest[4], digest[5], digest[6], digest[7],
    ]
}

/// The mark of bytes.
#[tactic(auto, unfolding(crate::specs::Mark::mark))]
pub fn mark(bytes: &[u8]) -> [u8; 8]
    ensures { result ≡ mark bytes.now }
{
    let mut hasher = Sha256::new();
    hasher.update(bytes);
    first_bytes(hasher.finalize())
}

/// The mark of a record's bytes in a file, whose number comes first.
#[tactic(auto, unfolding(crate::specs::Mark::mark, crate::specs::Encoding::record_mark))]
pub fn record_mark(file: u64, bytes: &[u8]) -> [u8; 8]
    ensures { result ≡ record_mark file bytes.now }
{
    let mut hasher = Sha256::new();
    hasher.update(&file.to_be_bytes());
    hasher.update(bytes);
    first_bytes(hasher.finalize())
}

/// The mark of each of some records' bytes in a file. The only error is that there is no memory.
#[tactic(auto, unfolding(crate::specs::Mark::mark, crate::specs::Encoding::record_mark))]
pub fn record_marks(alloc: Global, file: u64, bodies: &[&[u8]]) -> Result<Vec<[u8; 8]>, Memory>
    ensures ok { IfOk result
        (λ marks. marks.items ≡ map (λ body. record_mark file body.now) bodies.now) }
    ensures want { IsOkUnless result Memory.Want }
{
    let digests = digests(alloc, &file.to_be_bytes(), bodies)?;
    let mut marks = Vec::new(alloc);
    'marks: for digest in digests.as_slice() {
        marks.push(first_bytes(*digest))?;
    }
    Ok(marks)
}
