//! The SHA-256 of many messages (FIPS 180-4). Messages of like length are hashed side by side.
#![tactic(auto)]

ghost use Rattle.std.specs.Prelude.{◌≡◌, ◌++◌, ◌≤◌, length, map, sum, IfOk, IsOkUnless, OnOk};
ghost use Rattle.sha2.specs.Sha256.{sha256};
ghost use Rattle.qq_digests.specs.Lanes.{with_prefix};
ghost use Rattle.qq_digests.specs.Pieces.{pieces};

mod constants;
mod group;
mod padding;
mod pieces;
mod rounds;
mod words;

use group::{LANES, block_counts, most_blocks, put_group};
use pieces::pieces;
use qq_base::Memory;
use sha2::{Digest, Sha256};
use std::alloc::Global;

fn digest(prefix: &[u8], message: &[u8]) -> [u8; 32]
    ensures { result ≡ sha256 (prefix.now ++ message.now) }
{
    let mut hasher = Sha256::new();
    hasher.update(prefix);
    hasher.update(message);
    hasher.finalize()
}

/// Adds the digests of the messages, one after the other.
fn put_each(out: &mut Vec<[u8; 32]>, prefix: &[u8], messages: &[&[u8]]) -> Result<(), Memory>
    ensures ok { OnOk result (out.new.items
        ≡ out.old.items ++ map sha256 (with_prefix prefix.now messages.now)) }
    ensures want { IsOkUnless result Memory.Want }
{
    'messages: for message in messages {
        out.push(digest(prefix, message))?;
    }
    Ok(())
}

/// Adds the digests of up to eight messages.
fn put_some(
    out: &mut Vec<[u8; 32]>,
    room: &mut Vec<u8>,
    prefix: &[u8],
    messages: &[&[u8]],
) -> Result<(), Memory>
    requires { length messages.now ≤ 8 }
    ensures ok { OnOk result (out.new.items
        ≡ out.old.items ++ map sha256 (with_prefix prefix.now messages.now)) }
    ensures want { IsOkUnless result Memory.Want }
{
    let counts = block_counts(prefix, messages);
    match most_blocks(counts) {
        Some(most) => put_group(out, room, prefix, messages, counts, most),
        None => put_each(out, prefix, messages),
    }
}

/// Adds the digests of the messages.
fn put_all(
    out: &mut Vec<[u8; 32]>,
    room: &mut Vec<u8>,
    prefix: &[u8],
    messages: &[&[u8]],
) -> Result<(), Memory>
    ensures ok { OnOk result (out.new.items
        ≡ out.old.items ++ map sha256 (with_prefix prefix.now messages.now)) }
    ensures want { IsOkUnless result Memory.Want }
{
    'groups: for i in 0..messages.len().div_ceil(LANES) {
        let at = LANES * i;
        let end = messages.len().min(at + LANES);
        put_some(out, room, prefix, &messages[at..end])?;
    }
    Ok(())
}

/// The SHA-256 of each message with `prefix` before it, in the messages' order: of message m it is what
/// `sha2` gives for `prefix ++ m`. The only error is `Memory::Want`, out of memory.
pub fn digests(alloc: Global, prefix: &[u8], messages: &[&[u8]]) -> Result<Vec<[u8; 32]>, Memory>
    ensures ok { IfOk result
        (λ found. found.items ≡ map sha256 (with_prefix prefix.now messages.now)) }
    ensures want { IsOkUnless result Memory.Want }
{
    let mut found = Vec::new(alloc);
    let mut room = Vec::new(alloc);
    found.reserve(messages.len())?;
    put_all(&mut found, &mut room, prefix, messages)?;
    Ok(found)
}

/// Adds the SHA-256 of pieces of bytes, one after the other, of these lengths, each with `prefix` before it. `room` is
/// where copies are made: once it has grown, a further call with it allocates nothing but what `out` needs. The only
/// error is `Memory::Want`, out of memory; what was added then isn't said.
pub fn put_digests(
    out: &mut Vec<[u8; 32]>,
    room: &mut Vec<u8>,
    prefix: &[u8],
    bytes: &[u8],
    lengths: &[usize],
) -> Result<(), Memory>
    requires { sum lengths.now ≤ length bytes.now }
    ensures ok { OnOk result (out.new.items ≡ out.old.items
        ++ map (λ piece. sha256 (prefix.now ++ piece)) (pieces lengths.now bytes.now)) }
    ensures want { IsOkUnless result Memory.Want }
{
    let mut rest = bytes;
    'groups: for i in 0..lengths.len().div_ceil(LANES) {
        let at = LANES * i;
        let end = lengths.len().min(at + LANES);
        let (group, more) = pieces(rest, &lengths[at..end]);
        put_some(out, room, prefix, &group[..end - at])?;
        rest = more;
    }
    Ok(())
}
