//! The least index of a queue is that of its parts.
ghost use Rattle.std.specs.Prelude.{◌≡◌};
ghost use Rattle.qq_model.specs.State.{State};
ghost use Rattle.qq_parts.specs.Parts.{Parts, Stands};
ghost use Rattle.qq_ledger.specs.Low.{low, parts_low};

/// Where parts stand for a queue, the least index that they still need is the queue's.
pub fn low_is_of_the_parts()
    ensures { (m : Parts) (s : State) → Stands m s → low s ≡ parts_low m }
{}
