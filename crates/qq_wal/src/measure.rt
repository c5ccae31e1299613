//! How many bytes records will have, told without writing them.
ghost use Rattle.std.specs.Prelude.{◌≡◌, ◌<◌, ◌≤◌, All, length, IfSome, IfNone};
ghost use Rattle.std.specs.List.{flat_map};
ghost use Rattle.qq_command.specs.Encoding.{encoding};
ghost use Rattle.qq_entry.specs.Range.{IsWritable};
ghost use Rattle.qq_log.specs.Writable.{HasFields};
ghost use Rattle.qq_wal.specs.Batch.{is_short};
ghost use Rattle.qq_wal.specs.declared.batch.TheConstants.{BATCH_BYTES};

use crate::batch::BATCH_BYTES;
use qq_command::{Entry, encoded_len};
use qq_log::Op;

/// The bytes of a change's record beside its entries.
const CHANGE_LEN: usize = 46;

/// How many bytes entries have, None where that is more than a batch may have.
fn entries_len(entries: &[Entry]) -> Option<usize>
    requires { All IsWritable entries.now }
    ensures some { IfSome result (λ len. len ≡ length (flat_map encoding entries.now)) }
    ensures within { IfSome result (λ len. len ≤ BATCH_BYTES) }
    ensures none { IfNone result (BATCH_BYTES < length (flat_map encoding entries.now)) }
{
    let mut len = 0;
    for entry in entries {
        if len > BATCH_BYTES {
            return None;
        }
        len += encoded_len(entry);
    }
    if len > BATCH_BYTES {
        return None;
    }
    Some(len)
}

/// Whether an op's record has no more bytes than a batch may have, its head and mark counted.
pub(crate) fn is_short(op: &Op) -> bool
    requires fields { HasFields op.now }
    ensures { result ≡ is_short op.now }
{
    match op {
        Op::Change { entries, .. } => match entries_len(entries.as_slice()) {
            None => false,
            Some(len) => CHANGE_LEN + len <= BATCH_BYTES,
        },
        Op::SnapshotMade { .. } | Op::SegmentMade { .. } => true,
    }
}
