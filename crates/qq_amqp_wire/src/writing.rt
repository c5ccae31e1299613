//! Writing a frame.
ghost use Rattle.std.specs.Prelude.{◌≡◌, ◌++◌, ◌≤◌, ◌-◌, ℕ, List, Some, Ok, ◌<◌, ◌^◌, length, OnOk, OnErr, IsOkUnless};
ghost use Rattle.qq_base.specs.Fronts.{IsFront as IsPrefix};
ghost use Rattle.qq_fields.specs.Writing.{u16, u32, u64};
ghost use Rattle.qq_amqp_wire.specs.Frames.{found_at};
ghost use Rattle.qq_amqp_wire.specs.Writing.{begun_at, kind_of, channel_of, header_bytes, payload_of, written, HasRoom, MayWrite, IsWritable};

use crate::frame::Frame;
use crate::kinds::{BODY, END, HEADER, HEARTBEAT, METHOD, PROTOCOL};
use crate::put_method::put_method;
use qq_base::{Memory, put_u8, put_u16, put_u32, put_u64};
use qq_fields::{put_bytes, set_length};

fn kind_of(frame: &Frame) -> u8
    ensures { result ≡ kind_of frame.now }
{
    match frame {
        Frame::Protocol => 0,
        Frame::Method { .. } => METHOD,
        Frame::Header { .. } => HEADER,
        Frame::Body { .. } => BODY,
        Frame::Heartbeat { .. } => HEARTBEAT,
    }
}

fn channel_of(frame: &Frame) -> u16
    ensures { result ≡ channel_of frame.now }
{
    match frame {
        Frame::Protocol => 0,
        Frame::Method { channel, .. } => *channel,
        Frame::Header { channel, .. } => *channel,
        Frame::Body { channel, .. } => *channel,
        Frame::Heartbeat { channel } => *channel,
    }
}

/// The class of a content, no weight, and the size of its bodies.
#[tactic(auto, using(qq_fields::proofs::Appends::prefix_rules))]
fn put_content(out: &mut Vec<u8>, class: u16, size: u64) -> Result<(), Memory>
    ensures ok { OnOk result (out.new.items
        ≡ out.old.items ++ (u16 class ++ (u16 0 ++ u64 size))) }
    ensures err { OnErr result (IsPrefix out.old.items out.new.items) }
    ensures want { IsOkUnless result Memory.Want }
{
    put_u16(out, class)?;
    put_u16(out, 0)?;
    put_u64(out, size)
}

#[tactic(auto, using(qq_fields::proofs::Appends::prefix_rules), unfolding(crate::specs::Writing::header_bytes))]
fn put_header(out: &mut Vec<u8>, class: u16, size: u64, properties: &[u8]) -> Result<(), Memory>
    ensures ok { OnOk result (out.new.items
        ≡ out.old.items ++ header_bytes class size properties.now) }
    ensures err { OnErr result (IsPrefix out.old.items out.new.items) }
    ensures want { IsOkUnless result Memory.Want }
{
    put_content(out, class, size)?;
    put_bytes(out, properties)
}

#[tactic(auto, using(qq_fields::proofs::Appends::prefix_rules))]
fn put_payload(out: &mut Vec<u8>, frame: &Frame) -> Result<(), Memory>
    requires { HasRoom frame.now }
    ensures ok { OnOk result (out.new.items ≡ out.old.items ++ payload_of frame.now) }
    ensures err { OnErr result (IsPrefix out.old.items out.new.items) }
    ensures want { IsOkUnless result Memory.Want }
{
    match frame {
        Frame::Protocol => Ok(()),
        Frame::Method { method, .. } => put_method(out, method),
        Frame::Header {
            class,
            size,
            properties,
            ..
        } => put_header(out, *class, *size, properties.as_slice()),
        Frame::Body { bytes, .. } => put_bytes(out, bytes.as_slice()),
        Frame::Heartbeat { .. } => Ok(()),
    }
}

/// A frame's size in four bytes, and its payload.
#[tactic(auto, using(qq_fields::proofs::Appends::prefix_rules))]
fn put_sized(out: &mut Vec<u8>, frame: &Frame) -> Result<(), Memory>
    requires { MayWrite frame.now }
    ensures ok { OnOk result (out.new.items ≡ out.old.items
        ++ (u32 (length (payload_of frame.now)) ++ payload_of frame.now)) }
    ensures err { OnErr result (IsPrefix out.old.items out.new.items) }
    ensures want { IsOkUnless result Memory.Want }
{
    let place = out.len();
    put_u32(out, 0)?;
    let start = out.len();
    put_payload(out, frame)?;
    let length = (out.len() - start) as u32;
    set_length(out, place, length);
    Ok(())
}

#[tactic(auto, using(qq_fields::proofs::Appends::prefix_rules), unfolding(crate::specs::Writing::written, crate::specs::Writing::framed))]
fn put_frame(out: &mut Vec<u8>, frame: &Frame) -> Result<(), Memory>
    requires { MayWrite frame.now }
    ensures ok { OnOk result (out.new.items ≡ out.old.items ++ written frame.now) }
    ensures err { OnErr result (IsPrefix out.old.items out.new.items) }
    ensures want { IsOkUnless result Memory.Want }
{
    if let Frame::Protocol = frame {
        return put_bytes(out, PROTOCOL.as_slice());
    }
    put_u8(out, kind_of(frame))?;
    put_u16(out, channel_of(frame))?;
    put_sized(out, frame)?;
    put_u8(out, END)
}

// All of a frame's bytes, or none.
fn put_all(out: &mut Vec<u8>, frame: &Frame) -> Result<(), Memory>
    requires { MayWrite frame.now }
    ensures ok { OnOk result (out.new.items ≡ out.old.items ++ written frame.now) }
    ensures err { OnErr result (out.new.items ≡ out.old.items) }
    ensures want { IsOkUnless result Memory.Want }
{
    let len = out.len();
    let result = put_frame(out, frame);
    if result.is_err() {
        out.truncate(len);
    }
    result
}

/// Adds a frame's bytes at the end of `out`. What is reserved is zero or empty. Out of memory, `out` is as
/// before.
pub fn write_frame(frame: &Frame, out: &mut Vec<u8>) -> Result<(), Memory>
    requires { MayWrite frame.now }
    ensures ok { OnOk result (out.new.items ≡ out.old.items ++ written frame.now) }

    // What is written is read again as this frame, whatever follows it.
    ensures again { (max : ℕ) (rest : List ℕ) → IsWritable frame.now
        → length (payload_of frame.now) ≤ max - 8
        → found_at (begun_at frame.now) max (written frame.now ++ rest)
        ≡ Ok (Some (frame.now, length (written frame.now))) }
    ensures err { OnErr result (out.new.items ≡ out.old.items) }
    ensures want { IsOkUnless result Memory.Want }
{
    put_all(out, frame)
}
