//! Short text, written from its end to its front: a number's digits go straight to their place, and all of it is added
//! to a line at once.
ghost use Rattle.std.specs.Prelude.{◌≡◌, ◌+◌, ◌≤◌, ◌++◌, ℕ, List, [], length, drop};
ghost use Rattle.std.specs.Fmt.{decimal};

use itoa::write_digits;
use std::marker::Model;

/// The most bytes that a piece has.
pub const ROOM: usize = 160;

/// A short text, which grows at its front.
#[derive(Drop)]
pub struct Piece {
    bytes: [u8; ROOM],
    start: usize,
}

impl Model for Piece {
    ghost Value = { List ℕ };

    ghost view = { λ p. drop p.start p.bytes };

    ghost invariant = { λ p. p.start ≤ 160 };
}

impl Piece {
    /// An empty one.
    #[inline(always)]
    pub fn new() -> Self
        ensures { result ≡ [] }
    {
        Piece {
            bytes: [0; ROOM],
            start: ROOM,
        }
    }

    /// The text so far.
    #[inline(always)]
    pub fn text(&self) -> &[u8]
        ensures { result.now ≡ self.now }
    {
        &self.bytes[self.start..]
    }

    /// Puts a text in front.
    #[inline(always)]
    pub fn put_text(&mut self, text: &str)
        requires { length text.now + length self.old ≤ 160 }

        ensures { self.new ≡ text.now ++ self.old }
    {
        let start = self.start - text.len();
        self.bytes[start..self.start].copy_from_slice(text.as_bytes());
        self.start = start;
    }

    /// Puts a number in front, in decimal.
    pub fn put_number(&mut self, number: u64)
        requires { 20 + length self.old ≤ 160 }

        ensures text { self.new ≡ decimal number ++ self.old }
        ensures length { length self.new ≤ 20 + length self.old }
    {
        self.start = write_digits(number, &mut self.bytes, self.start);
    }
}
