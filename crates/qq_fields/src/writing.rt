//! Putting flags, bytes and lengths into bytes.
ghost use Rattle.std.specs.Prelude.{◌≡◌, ◌++◌, ◌+◌, ◌≤◌, take, drop, vec_len, OnOk, OnErr, IsOkUnless};
ghost use Rattle.qq_fields.specs.Writing.{flag, u32};

use qq_base::{Memory, put_u8};

/// Adds 1 or 0 at the end. Out of memory, `out` stays.
pub fn put_flag(out: &mut Vec<u8>, value: bool) -> Result<(), Memory>
    ensures ok { OnOk result (out.new.items ≡ out.old.items ++ flag value) }
    ensures err { OnErr result (out.new.items ≡ out.old.items) }
    ensures want { IsOkUnless result Memory.Want }
{
    put_u8(out, if value { 1 } else { 0 })
}

/// Adds bytes at the end. Out of memory, `out` stays.
pub fn put_bytes(out: &mut Vec<u8>, bytes: &[u8]) -> Result<(), Memory>
    ensures ok { OnOk result (out.new.items ≡ out.old.items ++ bytes.now) }
    ensures err { OnErr result (out.new.items ≡ out.old.items) }
    ensures want { IsOkUnless result Memory.Want }
{
    out.extend_from_slice(bytes)?;
    Ok(())
}

/// Writes a length over the four bytes at a place, where it was left open until what it counts was there.
pub fn set_length(out: &mut Vec<u8>, place: usize, length: u32)
    requires { place + 4 ≤ vec_len out.old }
    ensures { out.new.items
        ≡ take place out.old.items ++ (u32 length ++ drop (place + 4) out.old.items) }
{
    out[place..place + 4].copy_from_slice(&length.to_be_bytes());
}
