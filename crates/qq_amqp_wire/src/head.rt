//! What begins a frame.
ghost use Rattle.std.specs.Prelude.{◌≡◌, Ok, Err, MatchOption, IfSome, ◌+◌, length};
ghost use Rattle.qq_amqp_wire.specs.Frames.{head_at};

use qq_base::{take_u8, take_u16, take_u32};

/// What begins a frame (AMQP 0-9-1, section 2.3.5).
#[derive(Clone, Copy)]
pub struct Head {
    /// The frame's type.
    pub kind: u8,
    /// Its channel.
    pub channel: u16,
    /// The bytes of its payload.
    pub size: u32,
}

/// The head at the front of the bytes, and the bytes after it. None where bytes of it are missing.
#[tactic(auto, unfolding(crate::specs::Frames::head_at, qq_fields::specs::Reading::number_at))]
pub fn head_at(bytes: &[u8]) -> Option<(Head, &[u8])>
    ensures exact { MatchOption result (head_at bytes.now ≡ Err tt)
        (λ x. head_at bytes.now ≡ Ok (x.0, x.1.now)) }
    ensures len { IfSome result (λ x. length x.1.now + 7 ≡ length bytes.now) }
{
    let (kind, taken) = take_u8(bytes)?;
    let (_, rest) = bytes.split_at(taken);
    let (channel, taken) = take_u16(rest)?;
    let (_, rest) = rest.split_at(taken);
    let (size, taken) = take_u32(rest)?;
    let (_, rest) = rest.split_at(taken);
    let head = Head {
        kind,
        channel,
        size,
    };
    Some((head, rest))
}
