//! Reading the values of methods from a prefix of bytes.
ghost use Rattle.std.specs.Prelude.{◌≡◌, ◌/◌, ◌%◌, ◌==◌};
ghost use Rattle.qq_fields.specs.Reading.{Gives};
ghost use Rattle.qq_amqp_wire.specs.Arguments.{memory_of, short_str_at, long_str_at};

use crate::fault::WireFault;
use qq_base::{Bytes, Text};
use qq_fields::{bytes_at, u8_at, u32_at};
use std::alloc::Global;

/// A length in one byte, and so many bytes of text.
#[tactic(auto, unfolding(qq_fields::specs::Reading::checked, crate::specs::Arguments::short_str_at))]
pub fn text_at(bytes: &[u8]) -> Result<(&str, &[u8]), WireFault>
    ensures { Gives memory_of (λ x. (x.0.now, x.1.now)) result (short_str_at bytes.now) }
{
    let (count, rest) = u8_at(bytes, WireFault::BadField)?;
    let (text, rest) = bytes_at(count as usize, rest, WireFault::BadField)?;
    match str::from_utf8(text) {
        Ok(text) => Ok((text, rest)),
        Err(_) => Err(WireFault::BadField),
    }
}

/// The same, with a text of its own.
pub fn short_str_at(alloc: Global, bytes: &[u8]) -> Result<(Text, &[u8]), WireFault>
    ensures { Gives memory_of (λ x. (x.0, x.1.now)) result (short_str_at bytes.now) }
{
    let (text, rest) = text_at(bytes)?;
    Ok((Text::from_str(alloc, text)?, rest))
}

/// A length in four bytes, and so many bytes.
#[tactic(auto, unfolding(crate::specs::Arguments::long_str_at))]
pub fn long_at(bytes: &[u8]) -> Result<(&[u8], &[u8]), WireFault>
    ensures { Gives memory_of (λ x. (x.0.now, x.1.now)) result (long_str_at bytes.now) }
{
    let (count, rest) = u32_at(bytes, WireFault::BadField)?;
    bytes_at(count as usize, rest, WireFault::BadField)
}

/// The same, with bytes of its own.
pub fn long_str_at(alloc: Global, bytes: &[u8]) -> Result<(Bytes, &[u8]), WireFault>
    ensures { Gives memory_of (λ x. (x.0, x.1.now)) result (long_str_at bytes.now) }
{
    let (text, rest) = long_at(bytes)?;
    Ok((Bytes::from_vec(Vec::from_slice(alloc, text)?), rest))
}

/// The byte's two lowest bits, the lowest first.
pub fn two_bits(byte: u8) -> (bool, bool)
    ensures { result ≡ (byte % 2 == 1, byte / 2 % 2 == 1) }
{
    (byte % 2 == 1, byte / 2 % 2 == 1)
}

/// The byte's four lowest bits, the lowest first.
pub fn four_bits(byte: u8) -> (bool, bool, bool, bool)
    ensures { result ≡ (
      byte % 2 == 1,
      byte / 2 % 2 == 1,
      byte / 2 / 2 % 2 == 1,
      byte / 2 / 2 / 2 % 2 == 1,
    ) }
{
    let half = byte / 2;
    let quarter = half / 2;
    let eighth = quarter / 2;
    (
        byte % 2 == 1,
        half % 2 == 1,
        quarter % 2 == 1,
        eighth % 2 == 1,
    )
}

/// The bit above the byte's four lowest.
pub fn fifth_bit(byte: u8) -> bool
    ensures { result ≡ (byte / 2 / 2 / 2 / 2 % 2 == 1) }
{
    byte / 2 / 2 / 2 / 2 % 2 == 1
}
