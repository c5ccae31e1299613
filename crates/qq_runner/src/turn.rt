ghost use Rattle.std.specs.Prelude.{◌≡◌, ℕ, IfOk, OnErr};

use qq_base::Memory;
use std::alloc::Global;
use std::sync::Wait;

/// What a turn did.
#[derive(Clone, Copy, Debug, PartialEq, Eq)]
pub enum Turned {
    /// Something was done, and the next turn may follow at once.
    Worked,
    /// There was nothing to do. The value rests before its next turn.
    Idle,
    /// All is done. No turn follows.
    Ended,
}

/// A value that is given turns until it has ended, or until a turn is refused.
pub trait Turn {
    /// Which value it is. No turn changes it.
    ghost name: { Self → ℕ };

    /// What holds of a value that gets no more turns.
    ghost over: { Self → Type 0 };

    /// One turn. It may wait. Out of memory is its only error, and ends the value as `Ended` does.
    fn turn<W: Wait>(&mut self, rt: &W, alloc: Global) -> Result<Turned, Memory>
        ensures name { name self.new ≡ name self.old }
        ensures ended { IfOk result (λ turned. turned ≡ Turned.Ended → over self.new) }
        ensures refused { OnErr result (over self.new) };

    /// Waits after an idle turn until there may be something to do, and changes nothing. A value whose
    /// work comes from other threads parks on a `std::thread::Parker` that these unpark, so that it costs
    /// nothing while it is idle. A turn follows in any case, also where nobody has made work.
    fn rest<W: Wait>(&self, rt: &W);
}
