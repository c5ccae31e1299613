//! Reading an entry from a prefix of bytes.
ghost use Rattle.std.specs.Prelude.{◌≡◌, ◌≤◌, ◌++◌, List, ℕ, length, IfOk, Ok, Err};
ghost use Rattle.qq_base.specs.Fields.{AreBytes};
ghost use Rattle.qq_base.specs.declared.memory.Memory.{Memory};
ghost use Rattle.qq_entry.specs.declared.command.Entry.{Entry};
ghost use Rattle.qq_entry.specs.Range.{IsWritable};
ghost use Rattle.qq_command.specs.Encoding.{encoding};
ghost use Rattle.qq_command.specs.Laws.{HasShortEncoding};
ghost use Rattle.qq_command.specs.Reading.{Gives, IsEntryPrefix, noop_at, enqueue_at, get_at, subscribe_at, cancel_at, credit_at, settle_at, return_at, discard_at, purge_at, down_at, dead_attach_at, dead_settle_at, fields_at, payload_at, entry_at};

use crate::fields::{
    consumer_at, counted_at, message_at, mode_at, origin_at, session_at, stamp_at, verdict_at,
};
use crate::kinds;
use crate::lengths::HEAD_LEN;
use crate::lists::dead_dones_at;
use crate::refusal::Refusal;
use qq_base::{DEAD_LETTER, Term};
use qq_entry::{Command, Entry, LENGTH_LIMIT, MACHINE_VERSION, Shared, TERM_LIMIT};
use qq_fields::{flag_at, u8_at, u32_at, u64_at};
use std::alloc::Global;

#[tactic(auto, unfolding(qq_fields::specs::Reading::checked, crate::specs::Reading::noop_at))]
fn noop_at(bytes: &[u8]) -> Result<(Command, &[u8]), Refusal>
    ensures { Gives (λ x. (x.0, x.1.now)) result (noop_at bytes.now) }
{
    let (version, rest) = u8_at(bytes, Refusal::BadField)?;
    if version != MACHINE_VERSION {
        return Err(Refusal::BadField);
    }
    Ok((Command::Noop { version }, rest))
}

#[tactic(auto, unfolding(crate::specs::Reading::enqueue_at))]
fn enqueue_at(alloc: Global, bytes: &[u8]) -> Result<(Command, &[u8]), Refusal>
    ensures { Gives (λ x. (x.0, x.1.now)) result (enqueue_at bytes.now) }
{
    let (stamp, rest) = stamp_at(bytes)?;
    let (origin, rest) = origin_at(rest)?;
    let (message, rest) = message_at(alloc, rest)?;
    Ok((
        Command::Enqueue {
            stamp,
            origin,
            message,
        },
        rest,
    ))
}

#[tactic(auto, unfolding(crate::specs::Reading::get_at))]
fn get_at(bytes: &[u8]) -> Result<(Command, &[u8]), Refusal>
    ensures { Gives (λ x. (x.0, x.1.now)) result (get_at bytes.now) }
{
    let (stamp, rest) = counted_at(bytes)?;
    Ok((Command::Get { stamp }, rest))
}

#[tactic(auto, unfolding(crate::specs::Reading::subscribe_at))]
fn subscribe_at(bytes: &[u8]) -> Result<(Command, &[u8]), Refusal>
    ensures { Gives (λ x. (x.0, x.1.now)) result (subscribe_at bytes.now) }
{
    let ((stamp, tag), rest) = consumer_at(bytes)?;
    let (mode, rest) = mode_at(rest)?;
    Ok((Command::Subscribe { stamp, tag, mode }, rest))
}

#[tactic(auto, unfolding(crate::specs::Reading::cancel_at))]
fn cancel_at(bytes: &[u8]) -> Result<(Command, &[u8]), Refusal>
    ensures { Gives (λ x. (x.0, x.1.now)) result (cancel_at bytes.now) }
{
    let ((stamp, tag), rest) = consumer_at(bytes)?;
    Ok((Command::Cancel { stamp, tag }, rest))
}

#[tactic(auto, unfolding(crate::specs::Reading::credit_at))]
fn credit_at(bytes: &[u8]) -> Result<(Command, &[u8]), Refusal>
    ensures { Gives (λ x. (x.0, x.1.now)) result (credit_at bytes.now) }
{
    let ((stamp, tag), rest) = consumer_at(bytes)?;
    let (count, rest) = u32_at(rest, Refusal::BadField)?;
    let (credit, rest) = u32_at(rest, Refusal::BadField)?;
    let (drain, rest) = flag_at(rest, Refusal::BadField, Refusal::BadField)?;
    Ok((
        Command::Credit {
            stamp,
            tag,
            count,
            credit,
            drain,
        },
        rest,
    ))
}

#[tactic(auto, unfolding(crate::specs::Reading::settle_at))]
fn settle_at(alloc: Global, bytes: &[u8]) -> Result<(Command, &[u8]), Refusal>
    ensures { Gives (λ x. (x.0, x.1.now)) result (settle_at bytes.now) }
{
    let ((stamp, tag, ids), rest) = verdict_at(alloc, bytes)?;
    Ok((Command::Settle { stamp, tag, ids }, rest))
}

#[tactic(auto, unfolding(crate::specs::Reading::return_at))]
fn return_at(alloc: Global, bytes: &[u8]) -> Result<(Command, &[u8]), Refusal>
    ensures { Gives (λ x. (x.0, x.1.now)) result (return_at bytes.now) }
{
    let ((stamp, tag, ids), rest) = verdict_at(alloc, bytes)?;
    Ok((Command::Return { stamp, tag, ids }, rest))
}

#[tactic(auto, unfolding(crate::specs::Reading::discard_at))]
fn discard_at(alloc: Global, bytes: &[u8]) -> Result<(Command, &[u8]), Refusal>
    ensures { Gives (λ x. (x.0, x.1.now)) result (discard_at bytes.now) }
{
    let ((stamp, tag, ids), rest) = verdict_at(alloc, bytes)?;
    Ok((Command::Discard { stamp, tag, ids }, rest))
}

#[tactic(auto, unfolding(crate::specs::Reading::purge_at))]
fn purge_at(bytes: &[u8]) -> Result<(Command, &[u8]), Refusal>
    ensures { Gives (λ x. (x.0, x.1.now)) result (purge_at bytes.now) }
{
    let (stamp, rest) = counted_at(bytes)?;
    Ok((Command::Purge { stamp }, rest))
}

#[tactic(auto, unfolding(qq_fields::specs::Reading::checked, crate::specs::Reading::down_at))]
fn down_at(bytes: &[u8]) -> Result<(Command, &[u8]), Refusal>
    ensures { Gives (λ x. (x.0, x.1.now)) result (down_at bytes.now) }
{
    let (session, rest) = session_at(bytes)?;
    if session.class >= DEAD_LETTER {
        return Err(Refusal::BadField);
    }
    Ok((Command::Down { session }, rest))
}

#[tactic(auto, unfolding(qq_fields::specs::Reading::checked, crate::specs::Reading::dead_attach_at))]
fn dead_attach_at(bytes: &[u8]) -> Result<(Command, &[u8]), Refusal>
    ensures { Gives (λ x. (x.0, x.1.now)) result (dead_attach_at bytes.now) }
{
    let (term, rest) = u64_at(bytes, Refusal::BadField)?;
    if term > TERM_LIMIT {
        return Err(Refusal::BadField);
    }
    Ok((Command::DeadAttach { term: Term(term) }, rest))
}

#[tactic(auto, unfolding(crate::specs::Reading::dead_settle_at))]
fn dead_settle_at(alloc: Global, bytes: &[u8]) -> Result<(Command, &[u8]), Refusal>
    ensures { Gives (λ x. (x.0, x.1.now)) result (dead_settle_at bytes.now) }
{
    let (term, rest) = u64_at(bytes, Refusal::BadField)?;
    let (done, rest) = dead_dones_at(alloc, rest)?;
    Ok((
        Command::DeadSettle {
            term: Term(term),
            done,
        },
        rest,
    ))
}

#[tactic(auto, unfolding(crate::specs::Reading::fields_at))]
fn fields_at(alloc: Global, kind: u8, bytes: &[u8]) -> Result<(Command, &[u8]), Refusal>
    ensures { Gives (λ x. (x.0, x.1.now)) result (fields_at kind bytes.now) }
{
    match kind {
        kinds::NOOP => noop_at(bytes),
        kinds::ENQUEUE => enqueue_at(alloc, bytes),
        kinds::GET => get_at(bytes),
        kinds::SUBSCRIBE => subscribe_at(bytes),
        kinds::CANCEL => cancel_at(bytes),
        kinds::CREDIT => credit_at(bytes),
        kinds::SETTLE => settle_at(alloc, bytes),
        kinds::RETURN => return_at(alloc, bytes),
        kinds::DISCARD => discard_at(alloc, bytes),
        kinds::PURGE => purge_at(bytes),
        kinds::DOWN => down_at(bytes),
        kinds::DEAD_ATTACH => dead_attach_at(bytes),
        kinds::DEAD_SETTLE => dead_settle_at(alloc, bytes),
        _ => Err(Refusal::BadKind),
    }
}

/// The time and the command, which take all of the bytes.
#[tactic(auto, unfolding(crate::specs::Reading::payload_at))]
fn payload_at(alloc: Global, bytes: &[u8]) -> Result<(u64, Command), Refusal>
    ensures { Gives (λ x. x) result (payload_at bytes.now) }
{
    let (time, rest) = u64_at(bytes, Refusal::BadField)?;
    let (kind, rest) = u8_at(rest, Refusal::BadField)?;
    let (command, rest) = fields_at(alloc, kind, rest)?;
    if !rest.is_empty() {
        return Err(Refusal::BadField);
    }
    Ok((time, command))
}

#[tactic(auto, unfolding(crate::specs::Reading::entry_at))]
fn entry_at(alloc: Global, bytes: &[u8]) -> Result<(Entry, usize), Refusal>
    ensures { Gives (λ x. x) result (entry_at bytes.now) }
{
    if bytes.len() < HEAD_LEN {
        return Err(Refusal::Short);
    }
    let (term, rest) = u64_at(bytes, Refusal::BadField)?;
    let (length, rest) = u32_at(rest, Refusal::BadField)?;
    let length = length as usize;
    if length > LENGTH_LIMIT {
        return Err(Refusal::TooLarge);
    }
    if rest.len() < length {
        return Err(Refusal::Short);
    }
    let (time, command) = payload_at(alloc, rest.split_at(length).0)?;
    let entry = Entry {
        term: Term(term),
        time,
        command: Shared::new(alloc, command)?,
    };
    Ok((entry, HEAD_LEN + length))
}

/// The entry that is a prefix of the bytes, and how many bytes it takes. What follows isn't looked at.
///
/// The first fault is answered. First come the term and the length: `Short` where they aren't whole, then
/// `TooLarge` for a length above `LENGTH_LIMIT`, then `Short` where fewer bytes follow than the length
/// says. Then the time, the kind and the fields are read in their order: `BadKind` for a kind above 12;
/// `TooLarge` for a body above `BODY_LIMIT`, more deaths than `DEATHS_LIMIT` and more ids than `IDS_LIMIT`;
/// `BadField` for any other value out of its range, and for a field that passes the length's end. Last
/// comes `BadField` for bytes that are left before that end. `Memory` is out of memory.
pub fn decode(alloc: Global, bytes: &[u8]) -> Result<(Entry, usize), Refusal>
    // What is read is in range and has its content, and its encoding is a prefix of the bytes.
    ensures found { IfOk result (λ x. IsEntryPrefix bytes.now x) }
    // An entry in range whose encoding is a prefix of the bytes is read, whatever follows it.
    ensures only { (e : Entry) (rest : List ℕ) → IsWritable e → bytes.now ≡ encoding e ++ rest →
        Gives (λ x. x) result (Ok (e, length (encoding e))) }
    ensures within { IfOk result (λ x. x.1 ≤ length bytes.now) }
    // Which refusal it is.
    ensures exact { Gives (λ x. x) result (entry_at bytes.now) }
    ensures want { (m : Memory) → result ≡ Err (Refusal.Memory m) → m ≡ Memory.Want }
{
    entry_at(alloc, bytes)
}

/// A law: an entry's encoding is read again whatever follows it, what is read has that encoding and no
/// other, and no encoding is longer than its limit.
pub fn entries_read_back()
    ensures again { (e : Entry) (rest : List ℕ) → IsWritable e →
        entry_at (encoding e ++ rest) ≡ Ok (e, length (encoding e)) }
    ensures alone { (bytes : List ℕ) (x : Entry × ℕ) → AreBytes bytes → entry_at bytes ≡ Ok x →
        IsEntryPrefix bytes x }
    ensures short { (e : Entry) → HasShortEncoding e }
{}

/// A law: no entry's encoding begins another's, so what was written is read again whatever follows it.
pub fn no_encoding_begins_another()
    ensures { (a b : Entry) (x y : List ℕ) → IsWritable a → IsWritable b →
        encoding a ++ x ≡ encoding b ++ y → (a ≡ b) × (x ≡ y) }
{}
