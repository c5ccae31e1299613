ghost use Rattle.std.specs.Prelude.{◌≡◌, ◌<◌, List, length, slice_get, Some};

use qq_base::ConsumerId;

/// A consumer as the choice of the next one sees it.
#[derive(Clone, Copy, Debug, PartialEq, Eq)]
pub struct Standing {
    /// The consumer.
    pub id: ConsumerId,
    /// How many deliveries it may still get.
    pub credit: u64,
    /// The turn at which it was last served.
    pub turn: u64,
    /// Whether it was cancelled.
    pub cancelled: bool,
}

/// A list of consumers, in the order in which they joined.
pub trait Table {
    ghost use Rattle.qq_entry.specs.declared.table.Standing.{Standing};

    /// The consumers' standings, in the order in which they joined.
    ghost standings: { Self → List Standing };

    /// How many consumers there are.
    fn count(&self) -> usize
        ensures { result ≡ length (standings self.now) };

    /// The standing at a place, counted from 0.
    fn standing(&self, place: usize) -> Standing
        requires { place < length (standings self.now) }
        ensures { slice_get (standings self.now) place ≡ Some result };
}
