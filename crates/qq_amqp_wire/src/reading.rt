//! Reading the frame at the front of bytes.
ghost use Rattle.std.specs.Prelude.{◌≡◌, ◌≤◌, ◌+◌, length, IfOk, IfSome};
ghost use Rattle.qq_fields.specs.Reading.{Gives};
ghost use Rattle.qq_amqp_wire.specs.Arguments.{memory_of};
ghost use Rattle.qq_amqp_wire.specs.Frames.{method_in, header_in, payload_in, is_kind, has_bad_kind, frame_of, frame_at, protocol_at, found_at};
ghost use Rattle.qq_amqp_wire.specs.Rows.{arguments_at};

use crate::basic::basic_at;
use crate::channel::channel_at;
use crate::connection::connection_at;
use crate::fault::WireFault;
use crate::frame::Frame;
use crate::head::{Head, head_at};
use crate::kinds::{BODY, END, HEADER, HEARTBEAT, METHOD, PROTOCOL};
use crate::method::Method;
use crate::queue::{confirm_at, queue_at};
use qq_base::Bytes;
use qq_fields::{u16_at, u64_at};
use std::alloc::Global;

/// The arguments of the method with these numbers.
#[tactic(auto, unfolding(crate::specs::Rows::arguments_at))]
fn arguments_at(
    alloc: Global,
    class: u16,
    number: u16,
    bytes: &[u8],
) -> Result<(Method, &[u8]), WireFault>
    ensures { Gives memory_of (λ x. (x.0, x.1.now)) result
        (arguments_at class number bytes.now) }
{
    match class {
        10 => connection_at(alloc, number, bytes),
        20 => channel_at(alloc, number, bytes),
        50 => queue_at(alloc, number, bytes),
        60 => basic_at(alloc, number, bytes),
        85 => confirm_at(number, bytes),
        _ => Err(WireFault::BadMethod {
            class,
            method: number,
        }),
    }
}

#[tactic(auto, unfolding(crate::specs::Frames::method_in))]
fn method_in(alloc: Global, payload: &[u8]) -> Result<Method, WireFault>
    ensures { Gives memory_of (λ x. x) result (method_in payload.now) }
{
    let (class, rest) = u16_at(payload, WireFault::BadField)?;
    let (number, rest) = u16_at(rest, WireFault::BadField)?;
    let (method, rest) = arguments_at(alloc, class, number, rest)?;
    match rest {
        [] => Ok(method),
        [_, ..] => Err(WireFault::BadField),
    }
}

/// Class, weight, size of the bodies, and the properties.
#[tactic(auto, unfolding(crate::specs::Frames::header_in))]
fn header_in(alloc: Global, channel: u16, payload: &[u8]) -> Result<Frame, WireFault>
    ensures { Gives memory_of (λ x. x) result (header_in channel payload.now) }
{
    let (class, rest) = u16_at(payload, WireFault::BadField)?;
    let (_, rest) = u16_at(rest, WireFault::BadField)?;
    let (size, rest) = u64_at(rest, WireFault::BadField)?;
    Ok(Frame::Header {
        channel,
        class,
        size,
        properties: Bytes::from_vec(Vec::from_slice(alloc, rest)?),
    })
}

#[tactic(auto, unfolding(crate::specs::Frames::payload_in))]
fn payload_in(alloc: Global, kind: u8, channel: u16, payload: &[u8]) -> Result<Frame, WireFault>
    ensures { Gives memory_of (λ x. x) result (payload_in kind channel payload.now) }
{
    match kind {
        METHOD => Ok(Frame::Method {
            channel,
            method: method_in(alloc, payload)?,
        }),
        HEADER => header_in(alloc, channel, payload),
        BODY => Ok(Frame::Body {
            channel,
            bytes: Bytes::from_vec(Vec::from_slice(alloc, payload)?),
        }),
        _ => match payload {
            [] => Ok(Frame::Heartbeat { channel }),
            [_, ..] => Err(WireFault::BadField),
        },
    }
}

fn is_kind(kind: u8) -> bool
    ensures { result ≡ is_kind kind }
{
    kind == METHOD || kind == HEADER || kind == BODY || kind == HEARTBEAT
}

/// Whether the first byte is there, and no type of frame.
fn has_bad_kind(bytes: &[u8]) -> bool
    ensures { result ≡ has_bad_kind bytes.now }
{
    match bytes {
        [] => false,
        [kind, ..] => !is_kind(*kind),
    }
}

/// The frame of a head and the bytes after it, and how many bytes it takes with its head and its end.
#[tactic(auto, unfolding(crate::specs::Frames::frame_of))]
fn frame_of(
    alloc: Global,
    max: u32,
    head: Head,
    bytes: &[u8],
) -> Result<Option<(Frame, usize)>, WireFault>
    ensures exact { Gives memory_of (λ x. x) result (frame_of max head bytes.now) }
    ensures within { IfOk result (λ o. IfSome o (λ x. x.1 ≤ length bytes.now + 7)) }
{
    if head.size > max.saturating_sub(8) {
        return Err(WireFault::TooLong);
    }
    let size = head.size as usize;
    if bytes.len() < size + 1 {
        return Ok(None);
    }
    if bytes[size] != END {
        return Err(WireFault::BadEnd);
    }
    let frame = payload_in(alloc, head.kind, head.channel, bytes.split_at(size).0)?;
    Ok(Some((frame, size + 8)))
}

/// The frame at the front of the bytes, and how many bytes it takes.
#[tactic(auto, unfolding(crate::specs::Frames::frame_at))]
fn frame_at(alloc: Global, max: u32, bytes: &[u8]) -> Result<Option<(Frame, usize)>, WireFault>
    ensures exact { Gives memory_of (λ x. x) result (frame_at max bytes.now) }
    ensures within { IfOk result (λ o. IfSome o (λ x. x.1 ≤ length bytes.now)) }
{
    if has_bad_kind(bytes) {
        return Err(WireFault::BadType);
    }
    match head_at(bytes) {
        None => Ok(None),
        Some((head, rest)) => frame_of(alloc, max, head, rest),
    }
}

/// What stands before the first frame, and how many bytes it takes.
#[tactic(auto, unfolding(crate::specs::Frames::protocol_at))]
fn protocol_at(bytes: &[u8]) -> Result<Option<(Frame, usize)>, WireFault>
    ensures exact { result ≡ protocol_at bytes.now }
    ensures within { IfOk result (λ o. IfSome o (λ x. x.1 ≤ length bytes.now)) }
{
    let count = bytes.len().min(PROTOCOL.len());
    if bytes.split_at(count).0 != PROTOCOL.as_slice().split_at(count).0 {
        return Err(WireFault::BadProtocol);
    }
    if bytes.len() < PROTOCOL.len() {
        return Ok(None);
    }
    Ok(Some((Frame::Protocol, PROTOCOL.len())))
}

/// What stands at the front of the bytes, and how many of them it takes.
#[tactic(auto, unfolding(crate::specs::Frames::found_at))]
pub fn found_at(
    alloc: Global,
    begun: bool,
    max: u32,
    bytes: &[u8],
) -> Result<Option<(Frame, usize)>, WireFault>
    ensures exact { Gives memory_of (λ x. x) result (found_at begun max bytes.now) }
    ensures within { IfOk result (λ o. IfSome o (λ x. x.1 ≤ length bytes.now)) }
{
    if begun {
        frame_at(alloc, max, bytes)
    } else {
        protocol_at(bytes)
    }
}
