//! Reading a message from a prefix of bytes.
ghost use Rattle.std.specs.Prelude.{◌≡◌, ◌++◌, ◌≤◌, List, ℕ, length, IfOk, Ok, Err};
ghost use Rattle.qq_base.specs.declared.memory.Memory.{Memory};
ghost use Rattle.qq_command.specs.Reading.{Gives};
ghost use Rattle.qq_raft_msg.specs.Encoding.{encoding};
ghost use Rattle.qq_raft_msg.specs.Reading.{vote_at, voted_at, append_at, appended_at, install_at, installed_at, fields_at, rpc_at, message_at, IsRpcPrefix};
ghost use Rattle.qq_raft_msg.specs.Rpc.{IsWritable};
ghost use Rattle.qq_raft_msg.specs.declared.rpc.Rpc.{Rpc};

use crate::envelope::Envelope;
use crate::fields::{envelope_at, kind_at, shadow_at};
use crate::kinds;
use crate::rpc::{AppendMsg, AppendedMsg, InstallMsg, InstalledMsg, Rpc, VoteMsg, VotedMsg};
use qq_base::{Index, Memory, Term};
use qq_command::{Refusal, entries_at};
use qq_fields::{flag_at, u64_at};
use std::alloc::Global;

#[tactic(auto, unfolding(crate::specs::Reading::vote_at))]
fn vote_at(envelope: Envelope, bytes: &[u8]) -> Result<(Rpc, &[u8]), Refusal>
    ensures { Gives (λ x. (x.0, x.1.now)) result (vote_at envelope bytes.now) }
{
    let (index, rest) = u64_at(bytes, Refusal::Short)?;
    let (term, rest) = u64_at(rest, Refusal::Short)?;
    let message = VoteMsg {
        from: envelope.from,
        to: envelope.to,
        term: envelope.term,
        last_index: Index(index),
        last_term: Term(term),
    };
    Ok((Rpc::Vote(message), rest))
}

#[tactic(auto, unfolding(crate::specs::Reading::voted_at))]
fn voted_at(envelope: Envelope, bytes: &[u8]) -> Result<(Rpc, &[u8]), Refusal>
    ensures { Gives (λ x. (x.0, x.1.now)) result (voted_at envelope bytes.now) }
{
    let (granted, rest) = flag_at(bytes, Refusal::Short, Refusal::BadField)?;
    let message = VotedMsg {
        from: envelope.from,
        to: envelope.to,
        term: envelope.term,
        granted,
    };
    Ok((Rpc::Voted(message), rest))
}

#[tactic(auto, unfolding(crate::specs::Reading::append_at))]
fn append_at(alloc: Global, envelope: Envelope, bytes: &[u8]) -> Result<(Rpc, &[u8]), Refusal>
    ensures { Gives (λ x. (x.0, x.1.now)) result (append_at envelope bytes.now) }
{
    let (index, rest) = u64_at(bytes, Refusal::Short)?;
    let (term, rest) = u64_at(rest, Refusal::Short)?;
    let (commit, rest) = u64_at(rest, Refusal::Short)?;
    let (entries, rest) = entries_at(alloc, rest)?;
    let message = AppendMsg {
        from: envelope.from,
        to: envelope.to,
        term: envelope.term,
        prev_index: Index(index),
        prev_term: Term(term),
        commit: Index(commit),
        entries,
    };
    Ok((Rpc::Append(message), rest))
}

#[tactic(auto, unfolding(crate::specs::Reading::appended_at))]
fn appended_at(envelope: Envelope, bytes: &[u8]) -> Result<(Rpc, &[u8]), Refusal>
    ensures { Gives (λ x. (x.0, x.1.now)) result (appended_at envelope bytes.now) }
{
    let (ok, rest) = flag_at(bytes, Refusal::Short, Refusal::BadField)?;
    let (index, rest) = u64_at(rest, Refusal::Short)?;
    let message = AppendedMsg {
        from: envelope.from,
        to: envelope.to,
        term: envelope.term,
        ok,
        index: Index(index),
    };
    Ok((Rpc::Appended(message), rest))
}

#[tactic(auto, unfolding(crate::specs::Reading::install_at))]
fn install_at(alloc: Global, envelope: Envelope, bytes: &[u8]) -> Result<(Rpc, &[u8]), Refusal>
    ensures { Gives (λ x. (x.0, x.1.now)) result (install_at envelope bytes.now) }
{
    let (index, rest) = u64_at(bytes, Refusal::Short)?;
    let (term, rest) = u64_at(rest, Refusal::Short)?;
    let (through, rest) = u64_at(rest, Refusal::Short)?;
    let (shadow, rest) = shadow_at(alloc, rest)?;
    let message = InstallMsg {
        from: envelope.from,
        to: envelope.to,
        term: envelope.term,
        index: Index(index),
        last_term: Term(term),
        through: Index(through),
        shadow,
    };
    Ok((Rpc::Install(message), rest))
}

#[tactic(auto, unfolding(crate::specs::Reading::installed_at))]
fn installed_at(envelope: Envelope, bytes: &[u8]) -> Result<(Rpc, &[u8]), Refusal>
    ensures { Gives (λ x. (x.0, x.1.now)) result (installed_at envelope bytes.now) }
{
    let (index, rest) = u64_at(bytes, Refusal::Short)?;
    let message = InstalledMsg {
        from: envelope.from,
        to: envelope.to,
        term: envelope.term,
        index: Index(index),
    };
    Ok((Rpc::Installed(message), rest))
}

/// What follows an envelope in a message of a kind.
#[tactic(auto, unfolding(crate::specs::Reading::fields_at))]
fn fields_at(
    alloc: Global,
    kind: u8,
    envelope: Envelope,
    bytes: &[u8],
) -> Result<(Rpc, &[u8]), Refusal>
    ensures { Gives (λ x. (x.0, x.1.now)) result (fields_at kind envelope bytes.now) }
{
    match kind {
        kinds::VOTE => vote_at(envelope, bytes),
        kinds::VOTED => voted_at(envelope, bytes),
        kinds::APPEND => append_at(alloc, envelope, bytes),
        kinds::APPENDED => appended_at(envelope, bytes),
        kinds::INSTALL => install_at(alloc, envelope, bytes),
        _ => installed_at(envelope, bytes),
    }
}

#[tactic(auto, unfolding(crate::specs::Reading::rpc_at))]
fn rpc_at(alloc: Global, bytes: &[u8]) -> Result<(Rpc, &[u8]), Refusal>
    ensures { Gives (λ x. (x.0, x.1.now)) result (rpc_at bytes.now) }
{
    let (kind, rest) = kind_at(bytes)?;
    let (envelope, rest) = envelope_at(rest)?;
    fields_at(alloc, kind, envelope, rest)
}

#[tactic(auto, unfolding(crate::specs::Reading::message_at))]
fn message_at(alloc: Global, bytes: &[u8]) -> Result<(Rpc, usize), Refusal>
    ensures { Gives (λ x. x) result (message_at bytes.now) }
{
    let (message, rest) = rpc_at(alloc, bytes)?;
    Ok((message, bytes.len().saturating_sub(rest.len())))
}

/// The message that is a prefix of the bytes, and how many bytes it takes. What follows isn't looked at.
///
/// The fields are read in their order, and the first fault is answered: `Short` where the bytes end before
/// the message does, `BadKind` for a kind that isn't 1 to 6, `BadField` for a node that isn't 1 to 7 and a
/// flag above 1, and for an entry what the decoder of entries answers of it. `Memory` is out of memory.
pub fn decode(alloc: Global, bytes: &[u8]) -> Result<(Rpc, usize), Refusal>
    // What is read has bytes, and they are a prefix of these.
    ensures found { IfOk result (λ x. IsRpcPrefix bytes.now x) }
    // A message whose encoding is a prefix of the bytes is read, whatever follows it.
    ensures only { (r : Rpc) (rest : List ℕ) → IsWritable r → bytes.now ≡ encoding r ++ rest →
        Gives (λ x. x) result (Ok (r, length (encoding r))) }
    ensures within { IfOk result (λ x. x.1 ≤ length bytes.now) }
    // Which refusal it is.
    ensures exact { Gives (λ x. x) result (message_at bytes.now) }
    ensures want { (m : Memory) → result ≡ Err (Refusal.Memory m) → m ≡ Memory.Want }
{
    message_at(alloc, bytes)
}
