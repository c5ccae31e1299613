//! What a seat at the marks knows, and what each step of it changes.
use atomic_table::{Join, Play, Split, TableRule};
use std::collections::LinkedList;

/// The place of the stop's mark. A queue's mark stands at the queue's number.
pub const STOP: usize = 0;

/// What a seat may do, and what was done and seen by it. Contracts speak of it alone: no value of it is made.
pub struct SeatView {
    /// Whether it has the right to raise.
    pub raises: bool,
    /// With that right, how high each mark was raised.
    pub raised: LinkedList<u64>,
    /// How high each mark was seen, by it or by a seat that told it.
    pub seen: LinkedList<u64>,
}

/// The rule of the marks.
pub struct Marking;

impl TableRule<(), SeatView, usize> for Marking {
    ghost use Rattle.qq_inbox.specs.Seats.{Marked, first_seat};

    ghost holds = { λ _. Marked };

    ghost first = { first_seat };
}

/// A mark is raised.
pub struct Raise;

impl Play<(), SeatView> for Raise {
    ghost use Rattle.qq_inbox.specs.Seats.{Raises};

    ghost then = { Raises };
}

/// A mark is looked at.
pub struct Look;

impl Play<(), SeatView> for Look {
    ghost use Rattle.qq_inbox.specs.Seats.{Looks};

    ghost then = { Looks };
}

/// What was seen is compared with what was raised.
pub struct Check;

impl Play<(), SeatView> for Check {
    ghost use Rattle.qq_inbox.specs.Seats.{Checks};

    ghost then = { Checks };
}

/// A new seat is told what was seen, and what two seats know comes together.
pub struct Tell;

impl Split<SeatView> for Tell {
    ghost use Rattle.qq_inbox.specs.Seats.{reader};

    ghost left = { λ v. v };

    ghost right = { reader };
}

impl Join<SeatView> for Tell {
    ghost use Rattle.qq_inbox.specs.Seats.{joined_seat, spent_seat};

    ghost both = { joined_seat };

    ghost spent = { spent_seat };
}
