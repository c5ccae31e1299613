//! Numbers as bytes, the high byte first.
ghost use Rattle.std.specs.Prelude.{◌≡◌, ◌++◌, ◌<◌, ◌^◌, List, ℕ, OnOk, OnErr, IsOkUnless};
ghost use Rattle.std.specs.Int.{w8, w16, w32, w64, to_be_bytes};
ghost use Rattle.qq_base.specs.Fields.{number_at, ReadsBack};

use crate::memory::Memory;

/// The number in the first byte, and 1. None exactly where there is no byte.
pub fn take_u8(bytes: &[u8]) -> Option<(u8, usize)>
    ensures { result ≡ number_at w8 bytes.now }
{
    match bytes {
        [] => None,
        [a, ..] => Some((*a, 1)),
    }
}

/// The number in the first two bytes, and 2. None exactly where there are fewer.
pub fn take_u16(bytes: &[u8]) -> Option<(u16, usize)>
    ensures { result ≡ number_at w16 bytes.now }
{
    if bytes.len() < 2 {
        return None;
    }
    Some((u16::from_be_bytes([bytes[0], bytes[1]]), 2))
}

/// The number in the first four bytes, and 4. None exactly where there are fewer.
pub fn take_u32(bytes: &[u8]) -> Option<(u32, usize)>
    ensures { result ≡ number_at w32 bytes.now }
{
    if bytes.len() < 4 {
        return None;
    }
    let number = u32::from_be_bytes([bytes[0], bytes[1], bytes[2], bytes[3]]);
    Some((number, 4))
}

/// The number in the first eight bytes, and 8. None exactly where there are fewer.
pub fn take_u64(bytes: &[u8]) -> Option<(u64, usize)>
    ensures { result ≡ number_at w64 bytes.now }
{
    if bytes.len() < 8 {
        return None;
    }
    let number = u64::from_be_bytes([
        bytes[0], bytes[1], bytes[2], bytes[3], bytes[4], bytes[5], bytes[6], bytes[7],
    ]);
    Some((number, 8))
}

/// Adds a number's one byte at the end. Out of memory, `out` stays.
pub fn put_u8(out: &mut Vec<u8>, v: u8) -> Result<(), Memory>
    ensures ok { OnOk result (out.new.items ≡ out.old.items ++ to_be_bytes w8 v) }
    ensures err { OnErr result (out.new.items ≡ out.old.items) }
    ensures want { IsOkUnless result Memory.Want }
{
    out.push(v)?;
    Ok(())
}

/// Adds a number's two bytes at the end. Out of memory, `out` stays.
pub fn put_u16(out: &mut Vec<u8>, v: u16) -> Result<(), Memory>
    ensures ok { OnOk result (out.new.items ≡ out.old.items ++ to_be_bytes w16 v) }
    ensures err { OnErr result (out.new.items ≡ out.old.items) }
    ensures want { IsOkUnless result Memory.Want }
{
    out.extend_from_slice(&v.to_be_bytes())?;
    Ok(())
}

/// Adds a number's four bytes at the end. Out of memory, `out` stays.
pub fn put_u32(out: &mut Vec<u8>, v: u32) -> Result<(), Memory>
    ensures ok { OnOk result (out.new.items ≡ out.old.items ++ to_be_bytes w32 v) }
    ensures err { OnErr result (out.new.items ≡ out.old.items) }
    ensures want { IsOkUnless result Memory.Want }
{
    out.extend_from_slice(&v.to_be_bytes())?;
    Ok(())
}

/// Adds a number's eight bytes at the end. Out of memory, `out` stays.
pub fn put_u64(out: &mut Vec<u8>, v: u64) -> Result<(), Memory>
    ensures ok { OnOk result (out.new.items ≡ out.old.items ++ to_be_bytes w64 v) }
    ensures err { OnErr result (out.new.items ≡ out.old.items) }
    ensures want { IsOkUnless result Memory.Want }
{
    out.extend_from_slice(&v.to_be_bytes())?;
    Ok(())
}

/// A law: a number that was put is taken again, whatever follows it, and what is taken has that
/// number's bytes at its front and no others.
pub fn numbers_read_back()
    ensures one_byte { ReadsBack w8 (2 ^ 8) }
    ensures two_bytes { ReadsBack w16 (2 ^ 16) }
    ensures four_bytes { ReadsBack w32 (2 ^ 32) }
    ensures eight_bytes { ReadsBack w64 (2 ^ 64) }
{}
