//! Laws in numerals: short runs of one consumer.
ghost use Rattle.std.specs.Prelude.{◌≡◌, ◌∷◌, [], None, Some};
ghost use Rattle.qq_consuming.specs.Arrivals.{Asks};
ghost use Rattle.qq_consuming.specs.Consuming.{missing, not_taken};
ghost use Rattle.qq_consuming.specs.Numerals.{after, arrives, ids_handed};

/// A delivery that comes before one below it waits for that one.
pub fn deliveries_wait_for_those_below_them()
    ensures waits { ids_handed (arrives 2 ∷ Asks ∷ arrives 3 ∷ Asks ∷ []) ≡ [] }
    ensures order { ids_handed
        (arrives 3 ∷ arrives 2 ∷ Asks ∷ arrives 1 ∷ Asks ∷ Asks ∷ Asks ∷ Asks ∷ [])
        ≡ 1 ∷ 2 ∷ 3 ∷ [] }
{}

/// A delivery that comes again is handed out once, whether it was handed out before or waits.
pub fn repeats_are_handed_out_once()
    ensures handed { ids_handed (arrives 1 ∷ Asks ∷ arrives 1 ∷ Asks ∷ []) ≡ 1 ∷ [] }
    ensures waiting { ids_handed (arrives 2 ∷ arrives 2 ∷ arrives 1 ∷ Asks ∷ Asks ∷ Asks ∷ [])
        ≡ 1 ∷ 2 ∷ [] }
{}

/// The least id that hasn't arrived is missing, whatever was handed out.
pub fn the_first_gap_is_missing()
    ensures first { missing (after []) ≡ 1 }
    ensures gap { missing (after (arrives 1 ∷ arrives 4 ∷ arrives 2 ∷ [])) ≡ 3 }
    ensures handed { missing (after (arrives 1 ∷ Asks ∷ arrives 3 ∷ Asks ∷ [])) ≡ 2 }
{}

/// Ids that were handed out may be claimed. One that waits, one that never came and 0 may not, and the first such
/// one is named.
pub fn claims_name_the_first_id_that_is_not_taken()
    ensures taken { not_taken (2 ∷ 1 ∷ [])
        (after (arrives 1 ∷ arrives 2 ∷ Asks ∷ Asks ∷ [])) ≡ None }
    ensures waits { not_taken (1 ∷ 2 ∷ 3 ∷ [])
        (after (arrives 1 ∷ arrives 2 ∷ Asks ∷ [])) ≡ Some 2 }
    ensures zero { not_taken (0 ∷ 9 ∷ []) (after (arrives 1 ∷ Asks ∷ [])) ≡ Some 0 }
{}
