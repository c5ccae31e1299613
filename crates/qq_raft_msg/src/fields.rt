//! Reading the fields of a message from a prefix of bytes.
ghost use Rattle.qq_command.specs.Reading.{Gives};
ghost use Rattle.qq_raft_msg.specs.Reading.{kind_at, node_at, envelope_at, shadow_at};

use crate::envelope::Envelope;
use crate::kinds;
use qq_base::{Bytes, NodeId, Term};
use qq_command::Refusal;
use qq_fields::{bytes_at, u8_at, u32_at, u64_at};
use qq_log::NODE_LIMIT;
use std::alloc::Global;

#[tactic(auto, unfolding(crate::specs::Reading::kind_at))]
pub fn kind_at(bytes: &[u8]) -> Result<(u8, &[u8]), Refusal>
    ensures { Gives (λ x. (x.0, x.1.now)) result (kind_at bytes.now) }
{
    let (number, rest) = u8_at(bytes, Refusal::Short)?;
    if number == 0 || number > kinds::INSTALLED {
        return Err(Refusal::BadKind);
    }
    Ok((number, rest))
}

#[tactic(auto, unfolding(crate::specs::Reading::node_at, qq_fields::specs::Reading::checked))]
fn node_at(bytes: &[u8]) -> Result<(NodeId, &[u8]), Refusal>
    ensures { Gives (λ x. (x.0, x.1.now)) result (node_at bytes.now) }
{
    let (number, rest) = u8_at(bytes, Refusal::Short)?;
    if number == 0 || number > NODE_LIMIT {
        return Err(Refusal::BadField);
    }
    Ok((NodeId(number), rest))
}

#[tactic(auto, unfolding(crate::specs::Reading::envelope_at))]
pub fn envelope_at(bytes: &[u8]) -> Result<(Envelope, &[u8]), Refusal>
    ensures { Gives (λ x. (x.0, x.1.now)) result (envelope_at bytes.now) }
{
    let (from, rest) = node_at(bytes)?;
    let (to, rest) = node_at(rest)?;
    let (term, rest) = u64_at(rest, Refusal::Short)?;
    let envelope = Envelope {
        from,
        to,
        term: Term(term),
    };
    Ok((envelope, rest))
}

/// A length, and so many bytes.
#[tactic(auto, unfolding(crate::specs::Reading::shadow_at))]
pub fn shadow_at(alloc: Global, bytes: &[u8]) -> Result<(Bytes, &[u8]), Refusal>
    ensures { Gives (λ x. (x.0, x.1.now)) result (shadow_at bytes.now) }
{
    let (len, rest) = u32_at(bytes, Refusal::Short)?;
    let (shadow, rest) = bytes_at(len as usize, rest, Refusal::Short)?;
    Ok((Bytes::from_vec(Vec::from_slice(alloc, shadow)?), rest))
}
