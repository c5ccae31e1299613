//! What a leader sends in one message.
ghost use Rattle.std.specs.Prelude.{◌≡◌, ◌+◌, ◌-◌, ◌≤◌, ◌<◌, ◌^◌, ◌++◌, All, drop, length, IfOk, OnOk, IsOkUnless};
ghost use Rattle.qq_base.specs.declared.memory.TheConstants.{NUMBER_END};
ghost use Rattle.qq_log.specs.Stable.{no_snapshot};
ghost use Rattle.qq_raft_model.specs.State.{term_at};
ghost use Rattle.qq_entry.specs.Range.{IsWritable};
ghost use Rattle.qq_raft_model.specs.declared.limits.TheConstants.{BATCH_ENTRIES};
ghost use Rattle.qq_raft_model.specs.Leading.{weight, fit, batch_from};
ghost use Rattle.qq_raft_core.specs.Fits.{IsShort};
ghost use Rattle.qq_raft_core.specs.Raft.{IsInLog};

use qq_base::{Duplicate, Index, Memory, Term};
use qq_command::{encoded_len, entries_read_back};
use qq_entry::{Entries, Entry};
use qq_raft_model::{BATCH_BYTES, BATCH_ENTRIES};
use qq_raft_msg::LogView;
use std::alloc::Global;

/// The term of the entry at an index, or of the last one where it is behind it, 0 at index 0.
pub(crate) fn term_at<L: LogView>(log: &L, index: u64) -> Term
    requires { (L.log log.now).base ≡ no_snapshot }
    ensures value { result.0 ≡ term_at (L.log log.now).entries index }
    ensures end { All IsInLog (L.log log.now).entries → result.0 ≤ NUMBER_END }
{
    match log.term_at(Index(index.min(log.last().0))) {
        None => Term(0),
        Some(term) => term,
    }
}

fn weight(entry: &Entry) -> u64
    requires { IsWritable entry.now }
    ensures { result ≡ weight entry.now }
{
    encoded_len(entry) as u64
}

/// Adds the entries from a place on that fit.
fn add_fitting<L: LogView>(
    alloc: Global,
    log: &L,
    place: u64,
    count: u64,
    room: u64,
    entries: &mut Vec<Entry>,
) -> Result<(), Memory>
    requires whole { (L.log log.now).base ≡ no_snapshot }
    requires entries { All IsInLog (L.log log.now).entries }
    requires within { place + count < 2 ^ 64 }
    ensures ok { OnOk result (entries.new.items
        ≡ entries.old.items ++ fit count room (drop place (L.log log.now).entries)) }
    ensures want { IsOkUnless result Memory.Want }
{
    let mut left = room;
    'entries: for i in 0..count {
        let Some(entry) = log.entry(Index(place + i + 1)) else {
            return Ok(());
        };
        let size = weight(entry);
        if left < size {
            return Ok(());
        }
        entries.push(entry.copy(alloc)?)?;
        left -= size;
    }
    Ok(())
}

/// Copies of the entries from an index on, as many as go in one message.
pub(crate) fn batch_from<L: LogView>(alloc: Global, log: &L, next: u64) -> Result<Entries, Memory>
    requires whole { (L.log log.now).base ≡ no_snapshot }
    requires last { length (L.log log.now).entries ≤ NUMBER_END }
    requires entries { All IsInLog (L.log log.now).entries }
    requires next { next ≤ NUMBER_END + 1 }
    ensures ok { IfOk result (λ entries.
        entries ≡ batch_from next (L.log log.now).entries) }
    ensures each { IfOk result (All IsInLog) }
    ensures short { IfOk result IsShort }
    ensures end { IfOk result (λ entries. next - 1 + length entries ≤ NUMBER_END) }
    ensures count { IfOk result (λ entries. length entries ≤ BATCH_ENTRIES) }
    ensures want { IsOkUnless result Memory.Want }
{
    entries_read_back();
    let place = next.saturating_sub(1);
    let mut entries = Vec::new(alloc);
    let Some(first) = log.entry(Index(place + 1)) else {
        return Ok(Entries::from_vec(entries));
    };
    let room = BATCH_BYTES.saturating_sub(weight(first));
    entries.push(first.copy(alloc)?)?;
    add_fitting(alloc, log, place + 1, BATCH_ENTRIES - 1, room, &mut entries)?;
    Ok(Entries::from_vec(entries))
}
