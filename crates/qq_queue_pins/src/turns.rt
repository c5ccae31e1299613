//! Laws of whose turn it is: the functions do nothing, and their contracts are the laws.
ghost use Rattle.std.specs.Prelude.{◌≡◌, ◌⊎◌, ◌+◌, ◌≤◌, ◌∷◌, List, true, false, Contains};
ghost use Rattle.std.specs.Option.{option_map};
ghost use Rattle.qq_parts.specs.Reduced.{Item};
ghost use Rattle.qq_model.specs.Changes.{Progress};
ghost use Rattle.qq_model.specs.Choice.{next_consumer};
ghost use Rattle.qq_model.specs.Serving.{check_out_all};
ghost use Rattle.qq_model.specs.State.{State};
ghost use Rattle.qq_parts.specs.Outs.{hand_over, serve_one};
ghost use Rattle.qq_parts.specs.Parts.{Parts, Served, Stands, IsWhole, consumer_at};
ghost use Rattle.qq_parts.specs.Rounds.{Serving, IsServing, serve_all};
ghost use Rattle.qq_parts.specs.Turns.{AreByTurn, AreWaiting, behind, first_one, may_serve};

use qq_parts::{all_checkouts_are_made, turns_are_a_queue};

/// A law: of the consumers that may be served, by turn, without a single active one.
///
/// - `next`: the next consumer is the first of them.
/// - `among`, `all`: once it was served, those that wait, with it behind all others if it may be served again, are
///   consumers that may be served, and all of these.
/// - `order`, `drawn`: they wait by turn, and none has a turn that wasn't drawn.
pub fn the_first_that_waits_is_next()
    ensures next { (m : Parts) (s : State) (waiting : List Served) → Stands m s → IsWhole m →
        AreWaiting m waiting →
        next_consumer false s.rows s.consumers ≡ option_map consumer_at (first_one waiting) }
    ensures among { (m : Parts) (s : State) (x : Item) (one other : Served) (ones : List Served) →
        Stands m s → IsWhole m → AreWaiting m (one ∷ ones) →
        Contains (behind (serve_one (m.rest.turns + 1) x one) ones) other →
        Contains (hand_over x one.consumer m).served other × (may_serve other ≡ true) }
    ensures all { (m : Parts) (s : State) (x : Item) (one other : Served) (ones : List Served) →
        Stands m s → IsWhole m → AreWaiting m (one ∷ ones) →
        Contains (hand_over x one.consumer m).served other → (may_serve other ≡ false)
        ⊎ Contains (behind (serve_one (m.rest.turns + 1) x one) ones) other }
    ensures order { (m : Parts) (s : State) (x : Item) (one : Served) (ones : List Served) →
        Stands m s → IsWhole m → AreWaiting m (one ∷ ones) →
        AreByTurn (behind (serve_one (m.rest.turns + 1) x one) ones) }
    ensures drawn { (m : Parts) (s : State) (x : Item) (one other : Served) (ones : List Served) →
        Stands m s → IsWhole m → AreWaiting m (one ∷ ones) →
        Contains (behind (serve_one (m.rest.turns + 1) x one) ones) other →
        other.consumer.turn ≤ m.rest.turns + 1 }
{
    turns_are_a_queue();
}

/// A law: once all checkouts are made in the parts, they stand for the queue with all of its checkouts, with the
/// effects that these have there, and the consumers that wait are still those that may be served.
pub fn checkouts_are_those_of_the_queue()
    ensures stands { (t : Serving) (p : Progress) → IsServing t p →
        Stands (serve_all t).parts (check_out_all p).state × IsWhole (serve_all t).parts }
    ensures effects { (t : Serving) (p : Progress) → IsServing t p →
        (check_out_all p).effects ≡ (serve_all t).effects }
    ensures waiting { (t : Serving) (p : Progress) → IsServing t p →
        AreWaiting (serve_all t).parts (serve_all t).waiting }
    ensures shared { (t : Serving) (p : Progress) → IsServing t p →
        (check_out_all p).state.args.single_active ≡ false }
{
    all_checkouts_are_made();
}
