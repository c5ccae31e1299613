//! Reading the fields of a command from a prefix of bytes.
ghost use Rattle.std.specs.Prelude.{◌≡◌, ◌≤◌, length, IfOk};
ghost use Rattle.std.specs.Int.{w32, w64};
ghost use Rattle.qq_command.specs.Reading.{Gives, bytes_at, positive_at, flag_at, has_owner, session_at, has_seq, stamp_at, counted_at, queue_at, origin_at, body_at, key_at, message_at, mode_at, consumer_at, verdict_at};

use crate::lists::{deaths_at, ids_at};
use crate::refusal::Refusal;
use qq_base::{Bytes, CLIENT, DEAD_LETTER, Ids, QueueId, SessionId, Text};
use qq_entry::{BODY_LIMIT, Content, Message, Mode, Origin, Stamp};
use qq_fields::{bytes_at, flag_at, u8_at, u16_at, u32_at, u64_at};
use std::alloc::Global;

#[tactic(auto, unfolding(qq_fields::specs::Reading::checked, crate::specs::Reading::positive_at))]
fn positive_u32_at(bytes: &[u8]) -> Result<(u32, &[u8]), Refusal>
    ensures { Gives (λ x. (x.0, x.1.now)) result (positive_at w32 bytes.now) }
{
    let (number, rest) = u32_at(bytes, Refusal::BadField)?;
    if number == 0 {
        return Err(Refusal::BadField);
    }
    Ok((number, rest))
}

#[tactic(auto, unfolding(qq_fields::specs::Reading::checked, crate::specs::Reading::positive_at))]
pub fn positive_u64_at(bytes: &[u8]) -> Result<(u64, &[u8]), Refusal>
    ensures { Gives (λ x. (x.0, x.1.now)) result (positive_at w64 bytes.now) }
{
    let (number, rest) = u64_at(bytes, Refusal::BadField)?;
    if number == 0 {
        return Err(Refusal::BadField);
    }
    Ok((number, rest))
}

fn has_owner(session: &SessionId) -> bool
    ensures { result ≡ has_owner session.now }
{
    if session.class == CLIENT {
        session.owner == 0
    } else {
        CLIENT < session.class && session.class <= DEAD_LETTER && 0 < session.owner
    }
}

#[tactic(auto, unfolding(qq_fields::specs::Reading::checked, crate::specs::Reading::session_at))]
pub fn session_at(bytes: &[u8]) -> Result<(SessionId, &[u8]), Refusal>
    ensures { Gives (λ x. (x.0, x.1.now)) result (session_at bytes.now) }
{
    let (class, rest) = u8_at(bytes, Refusal::BadField)?;
    let (owner, rest) = u32_at(rest, Refusal::BadField)?;
    let (number, rest) = positive_u64_at(rest)?;
    let session = SessionId {
        class,
        owner,
        number,
    };
    if !has_owner(&session) {
        return Err(Refusal::BadField);
    }
    Ok((session, rest))
}

fn has_seq(stamp: &Stamp) -> bool
    ensures { result ≡ has_seq stamp.now }
{
    if stamp.session.class < DEAD_LETTER {
        0 < stamp.seq
    } else {
        stamp.seq == 0
    }
}

#[tactic(auto, unfolding(qq_fields::specs::Reading::checked, crate::specs::Reading::stamp_at))]
pub fn stamp_at(bytes: &[u8]) -> Result<(Stamp, &[u8]), Refusal>
    ensures { Gives (λ x. (x.0, x.1.now)) result (stamp_at bytes.now) }
{
    let (session, rest) = session_at(bytes)?;
    let (seq, rest) = u64_at(rest, Refusal::BadField)?;
    let (done, rest) = u64_at(rest, Refusal::BadField)?;
    let stamp = Stamp { session, seq, done };
    if !has_seq(&stamp) {
        return Err(Refusal::BadField);
    }
    Ok((stamp, rest))
}

/// The stamp of a command that only clients and workers give.
#[tactic(auto, unfolding(qq_fields::specs::Reading::checked, crate::specs::Reading::counted_at))]
pub fn counted_at(bytes: &[u8]) -> Result<(Stamp, &[u8]), Refusal>
    ensures { Gives (λ x. (x.0, x.1.now)) result (counted_at bytes.now) }
{
    let (stamp, rest) = stamp_at(bytes)?;
    if stamp.session.class >= DEAD_LETTER {
        return Err(Refusal::BadField);
    }
    Ok((stamp, rest))
}

#[tactic(auto, unfolding(crate::specs::Reading::queue_at))]
pub fn queue_at(bytes: &[u8]) -> Result<(QueueId, &[u8]), Refusal>
    ensures { Gives (λ x. (x.0, x.1.now)) result (queue_at bytes.now) }
{
    let (number, rest) = positive_u32_at(bytes)?;
    Ok((QueueId(number), rest))
}

#[tactic(auto, unfolding(crate::specs::Reading::origin_at))]
pub fn origin_at(bytes: &[u8]) -> Result<(Option<Origin>, &[u8]), Refusal>
    ensures { Gives (λ x. (x.0, x.1.now)) result (origin_at bytes.now) }
{
    let (is_there, rest) = flag_at(bytes, Refusal::BadField, Refusal::BadField)?;
    if !is_there {
        return Ok((None, rest));
    }
    let (source, rest) = queue_at(rest)?;
    let (number, rest) = positive_u64_at(rest)?;
    Ok((Some(Origin { source, number }), rest))
}

#[tactic(auto, unfolding(crate::specs::Reading::body_at))]
fn body_at(alloc: Global, bytes: &[u8]) -> Result<(Bytes, &[u8]), Refusal>
    ensures exact { Gives (λ x. (x.0, x.1.now)) result (body_at bytes.now) }
    ensures within { IfOk result (λ x. length x.0 ≤ BODY_LIMIT) }
{
    let (count, rest) = u32_at(bytes, Refusal::BadField)?;
    let count = count as usize;
    if count > BODY_LIMIT {
        return Err(Refusal::TooLarge);
    }
    let (body, rest) = bytes_at(count, rest, Refusal::BadField)?;
    Ok((Bytes::from_vec(Vec::from_slice(alloc, body)?), rest))
}

#[tactic(auto, unfolding(qq_fields::specs::Reading::checked, crate::specs::Reading::key_at))]
fn key_at(alloc: Global, bytes: &[u8]) -> Result<(Text, &[u8]), Refusal>
    ensures { Gives (λ x. (x.0, x.1.now)) result (key_at bytes.now) }
{
    let (count, rest) = u8_at(bytes, Refusal::BadField)?;
    let (key, rest) = bytes_at(count as usize, rest, Refusal::BadField)?;
    match str::from_utf8(key) {
        Ok(key) => Ok((Text::from_str(alloc, key)?, rest)),
        Err(_) => Err(Refusal::BadField),
    }
}

#[tactic(auto, unfolding(crate::specs::Reading::message_at))]
pub fn message_at(alloc: Global, bytes: &[u8]) -> Result<(Message, &[u8]), Refusal>
    ensures { Gives (λ x. (x.0, x.1.now)) result (message_at bytes.now) }
{
    let (body, rest) = body_at(alloc, bytes)?;
    let (key, rest) = key_at(alloc, rest)?;
    let (deaths, rest) = deaths_at(alloc, rest)?;
    let message = Message::new(alloc, Content { body, key, deaths })?;
    Ok((message, rest))
}

#[tactic(auto, unfolding(crate::specs::Reading::mode_at))]
pub fn mode_at(bytes: &[u8]) -> Result<(Mode, &[u8]), Refusal>
    ensures { Gives (λ x. (x.0, x.1.now)) result (mode_at bytes.now) }
{
    let (is_link, rest) = flag_at(bytes, Refusal::BadField, Refusal::BadField)?;
    let (count, rest) = u16_at(rest, Refusal::BadField)?;
    if !is_link {
        return Ok((Mode::Prefetch(count), rest));
    }
    if count != 0 {
        return Err(Refusal::BadField);
    }
    Ok((Mode::Link, rest))
}

/// A stamp, and the tag of a consumer of its session.
#[tactic(auto, unfolding(crate::specs::Reading::consumer_at))]
pub fn consumer_at(bytes: &[u8]) -> Result<((Stamp, u32), &[u8]), Refusal>
    ensures { Gives (λ x. (x.0, x.1.now)) result (consumer_at bytes.now) }
{
    let (stamp, rest) = counted_at(bytes)?;
    let (tag, rest) = positive_u32_at(rest)?;
    Ok(((stamp, tag), rest))
}

/// A stamp, a tag, and ids of deliveries.
#[tactic(auto, unfolding(crate::specs::Reading::verdict_at))]
pub fn verdict_at(alloc: Global, bytes: &[u8]) -> Result<((Stamp, u32, Ids), &[u8]), Refusal>
    ensures { Gives (λ x. (x.0, x.1.now)) result (verdict_at bytes.now) }
{
    let ((stamp, tag), rest) = consumer_at(bytes)?;
    let (ids, rest) = ids_at(alloc, rest)?;
    Ok(((stamp, tag, ids), rest))
}
