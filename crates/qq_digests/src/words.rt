//! The functions on words of SHA-256 (FIPS 180-4, 4.1.2), each on the words of eight messages.
ghost use Rattle.std.specs.Prelude.{◌≡◌, ℕ, ◌+◌, ◌*◌, ◌/◌, ◌%◌, ◌^◌, ◌<◌, ◌≤◌, bit_and, bit_xor, length, slice_index};
ghost use Rattle.std.specs.Int.{bit_not, w32};
ghost use Rattle.sha2.specs.Sha256.{add32, big_sigma0, big_sigma1, ch, maj, small_sigma0, small_sigma1, word_at};

use std::simd::{u8x4, u32x1, u32x8};

/// The same word for each message.
#[inline(always)]
pub fn splat(word: u32) -> u32x8
    ensures { (j : ℕ) → j < 8 → slice_index result j ≡ word }
{
    u32x8::splat(word)
}

#[inline(always)]
pub fn add32(x: u32x8, y: u32x8) -> u32x8
    ensures { (j : ℕ) → j < 8 → slice_index result j ≡ add32 (slice_index x j) (slice_index y j) }
{
    x + y
}

#[inline(always)]
fn xor(x: u32x8, y: u32x8) -> u32x8
    ensures { (j : ℕ) → j < 8 → slice_index result j ≡ bit_xor (slice_index x j) (slice_index y j) }
{
    x ^ y
}

#[inline(always)]
fn and(x: u32x8, y: u32x8) -> u32x8
    ensures { (j : ℕ) → j < 8 → slice_index result j ≡ bit_and (slice_index x j) (slice_index y j) }
{
    x & y
}

#[inline(always)]
fn not(x: u32x8) -> u32x8
    ensures { (j : ℕ) → j < 8 → slice_index result j ≡ bit_not w32 (slice_index x j) }
{
    !x
}

#[inline(always)]
fn right(x: u32x8, by: u32) -> u32x8
    requires { by < 32 }
    ensures { (j : ℕ) → j < 8 → slice_index result j ≡ slice_index x j / 2 ^ by }
{
    x >> u32x8::splat(by)
}

#[inline(always)]
fn left(x: u32x8, by: u32) -> u32x8
    requires { by < 32 }
    ensures { (j : ℕ) → j < 8 → slice_index result j ≡ slice_index x j * 2 ^ by % 2 ^ 32 }
{
    x << u32x8::splat(by)
}

#[inline(always)]
pub fn ch(x: u32x8, y: u32x8, z: u32x8) -> u32x8
    ensures { (j : ℕ) → j < 8
        → slice_index result j ≡ ch (slice_index x j) (slice_index y j) (slice_index z j) }
{
    xor(and(x, y), and(not(x), z))
}

#[inline(always)]
pub fn maj(x: u32x8, y: u32x8, z: u32x8) -> u32x8
    ensures { (j : ℕ) → j < 8
        → slice_index result j ≡ maj (slice_index x j) (slice_index y j) (slice_index z j) }
{
    xor(xor(and(x, y), and(x, z)), and(y, z))
}

// Vectors aren't rotated by one instruction. The four functions below nest their shifts to the right, and
// those to the left, which takes fewer instructions than one rotation after the other.

#[inline(always)]
pub fn big_sigma0(x: u32x8) -> u32x8
    ensures { (j : ℕ) → j < 8 → slice_index result j ≡ big_sigma0 (slice_index x j) }
{
    let low = right(xor(right(xor(right(x, 9), x), 11), x), 2);
    let high = left(xor(left(xor(left(x, 11), x), 9), x), 10);
    xor(low, high)
}

#[inline(always)]
pub fn big_sigma1(x: u32x8) -> u32x8
    ensures { (j : ℕ) → j < 8 → slice_index result j ≡ big_sigma1 (slice_index x j) }
{
    let low = right(xor(right(xor(right(x, 14), x), 5), x), 6);
    let high = left(xor(left(xor(left(x, 5), x), 14), x), 7);
    xor(low, high)
}

#[inline(always)]
pub fn small_sigma0(x: u32x8) -> u32x8
    ensures { (j : ℕ) → j < 8 → slice_index result j ≡ small_sigma0 (slice_index x j) }
{
    let low = right(xor(right(xor(right(x, 11), x), 4), x), 3);
    let high = left(xor(left(x, 11), x), 14);
    xor(low, high)
}

#[inline(always)]
pub fn small_sigma1(x: u32x8) -> u32x8
    ensures { (j : ℕ) → j < 8 → slice_index result j ≡ small_sigma1 (slice_index x j) }
{
    let low = right(xor(right(xor(right(x, 2), x), 7), x), 10);
    let high = left(xor(left(x, 2), x), 13);
    xor(low, high)
}

/// The word at byte `at`, high byte first. As a vector of bytes it is one load.
#[inline(always)]
pub fn word_at(bytes: &[u8], at: usize) -> u32
    requires { at + 4 ≤ length bytes.now }
    ensures { result ≡ word_at bytes.now at }
{
    let low_first = u8x4::from_slice(&bytes[at..]).reverse();
    let [word] = u32x1::from_le_bytes(low_first).to_array();
    word
}
