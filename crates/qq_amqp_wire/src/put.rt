//! Putting the values of methods at the end of bytes.
ghost use Rattle.std.specs.Prelude.{◌≡◌, ◌++◌, ◌<◌, ◌^◌, length, OnOk, OnErr, IsOkUnless};
ghost use Rattle.qq_base.specs.Fronts.{IsFront as IsPrefix};
ghost use Rattle.qq_fields.specs.Writing.{u16};
ghost use Rattle.qq_amqp_wire.specs.Arguments.{short_str, long_str, byte_of};

use qq_base::{Bytes, Memory, Text, put_u8, put_u16, put_u32};
use qq_fields::put_bytes;

/// A text's length in one byte, and the text.
#[tactic(auto, using(qq_fields::proofs::Appends::prefix_rules), unfolding(crate::specs::Arguments::short_str))]
pub fn put_short_str(out: &mut Vec<u8>, text: &Text) -> Result<(), Memory>
    requires { length text.now < 2 ^ 8 }
    ensures ok { OnOk result (out.new.items ≡ out.old.items ++ short_str text.now) }
    ensures err { OnErr result (IsPrefix out.old.items out.new.items) }
    ensures want { IsOkUnless result Memory.Want }
{
    put_u8(out, text.len() as u8)?;
    put_bytes(out, text.as_bytes())
}

/// A length in four bytes, and so many bytes.
#[tactic(auto, using(qq_fields::proofs::Appends::prefix_rules), unfolding(crate::specs::Arguments::long_str))]
pub fn put_long_str(out: &mut Vec<u8>, bytes: &Bytes) -> Result<(), Memory>
    requires { length bytes.now < 2 ^ 32 }
    ensures ok { OnOk result (out.new.items ≡ out.old.items ++ long_str bytes.now) }
    ensures err { OnErr result (IsPrefix out.old.items out.new.items) }
    ensures want { IsOkUnless result Memory.Want }
{
    put_u32(out, bytes.len() as u32)?;
    put_bytes(out, bytes.as_slice())
}

/// The numbers of a method.
#[tactic(auto, using(qq_fields::proofs::Appends::prefix_rules))]
pub fn put_numbers(out: &mut Vec<u8>, class: u16, number: u16) -> Result<(), Memory>
    ensures ok { OnOk result (out.new.items ≡ out.old.items ++ (u16 class ++ u16 number)) }
    ensures err { OnErr result (IsPrefix out.old.items out.new.items) }
    ensures want { IsOkUnless result Memory.Want }
{
    put_u16(out, class)?;
    put_u16(out, number)
}

/// The byte with this bit.
pub fn one_bit(a: bool) -> u8
    ensures { result ≡ byte_of 1 (a, tt) }
{
    if a { 1 } else { 0 }
}

/// The byte with these bits, the first lowest.
pub fn two_bits(a: bool, b: bool) -> u8
    ensures { result ≡ byte_of 2 (a, (b, tt)) }
{
    one_bit(a) + 2 * one_bit(b)
}

/// The byte with these bits, the first lowest.
pub fn four_bits(a: bool, b: bool, c: bool, d: bool) -> u8
    ensures { result ≡ byte_of 4 (a, (b, (c, (d, tt)))) }
{
    one_bit(a) + 2 * (one_bit(b) + 2 * two_bits(c, d))
}

/// The byte with these bits, the first lowest.
pub fn five_bits(a: bool, b: bool, c: bool, d: bool, e: bool) -> u8
    ensures { result ≡ byte_of 5 (a, (b, (c, (d, (e, tt))))) }
{
    one_bit(a) + 2 * four_bits(b, c, d, e)
}
