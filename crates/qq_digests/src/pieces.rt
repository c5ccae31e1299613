//! A run of bytes in pieces.
ghost use Rattle.std.specs.Prelude.{◌≡◌, ◌≤◌, drop, length, map, sum, take};
ghost use Rattle.qq_digests.specs.Pieces.{pieces};

use crate::group::LANES;

/// The pieces of bytes, one after the other, of these lengths, and the bytes behind them.
pub fn pieces<'a>(bytes: &'a [u8], lengths: &[usize]) -> ([&'a [u8]; LANES], &'a [u8])
    requires count { length lengths.now ≤ 8 }
    requires room { sum lengths.now ≤ length bytes.now }
    ensures pieces { map (λ piece. piece.now) (take (length lengths.now) result.0)
        ≡ pieces lengths.now bytes.now }
    ensures rest { result.1.now ≡ drop (sum lengths.now) bytes.now }
{
    let mut found = [bytes; LANES];
    let mut rest = bytes;
    'pieces: for i in 0..lengths.len() {
        let (piece, more) = rest.split_at(lengths[i]);
        found[i] = piece;
        rest = more;
    }
    (found, rest)
}
