//! A message with its padding (FIPS 180-4, 5.1.1).
ghost use Rattle.std.specs.Prelude.{◌≡◌, ℕ, ◌+◌, ◌*◌, ◌≤◌, ◌++◌, List, length, take};
ghost use Rattle.qq_base.specs.Fronts.{IsFront};
ghost use Rattle.sha2.specs.Sha256.{padded_message};

/// The bytes of a block.
pub const BLOCK_LEN: usize = 64;

/// The bytes of a message's length, which its padding ends with.
const LENGTH_LEN: usize = 8;

/// What padding begins with: a bit, and as many zeros as it may have.
const PADDING: [u8; BLOCK_LEN] = [
    0x80, 0, 0, 0, 0, 0, 0, 0, 0, 0, 0, 0, 0, 0, 0, 0, 0, 0, 0, 0, 0, 0, 0, 0, 0, 0, 0, 0, 0, 0, 0,
    0, 0, 0, 0, 0, 0, 0, 0, 0, 0, 0, 0, 0, 0, 0, 0, 0, 0, 0, 0, 0, 0, 0, 0, 0, 0, 0, 0, 0, 0, 0, 0,
    0,
];

/// How many blocks a message of this length has with its padding.
fn block_count(len: usize) -> usize
    ensures { (m : List ℕ) → length m ≡ len → length (padded_message m) ≡ 64 * result }
{
    len / BLOCK_LEN + (len % BLOCK_LEN + 72) / BLOCK_LEN
}

/// How many blocks `prefix` and the message have as one message, with its padding.
pub fn blocks_of(prefix: &[u8], message: &[u8]) -> usize
    ensures { length (padded_message (prefix.now ++ message.now)) ≡ 64 * result }
{
    block_count(prefix.len() + message.len())
}

/// Writes the bytes at a place.
#[inline(always)]
fn put_at(bytes: &mut [u8], at: usize, more: &[u8])
    requires { at + length more.now ≤ length bytes.old }
    ensures { take (at + length more.now) bytes.new ≡ take at bytes.old ++ more.now }
{
    bytes[at..at + more.len()].copy_from_slice(more);
}

/// Writes `prefix` and the message as one message with its padding. What follows it in `bytes` stays.
pub fn put_padded(bytes: &mut [u8], prefix: &[u8], message: &[u8])
    requires { length (padded_message (prefix.now ++ message.now)) ≤ length bytes.old }
    ensures { IsFront (padded_message (prefix.now ++ message.now)) bytes.new }
{
    let len = prefix.len() + message.len();
    let end = BLOCK_LEN * block_count(len) - LENGTH_LEN;
    let bits = (len as u64).wrapping_mul(8);
    put_at(bytes, 0, prefix);
    put_at(bytes, prefix.len(), message);
    put_at(bytes, len, &PADDING[..end - len]);
    put_at(bytes, end, &bits.to_be_bytes());
}
