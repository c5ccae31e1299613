//! A worked group that shows why the laws ask for what they do.
ghost use Rattle.std.specs.Prelude.{◌≡◌, [], ◌∷◌};
ghost use Rattle.qq_entry.specs.declared.command.Entry.{Entry};
ghost use Rattle.qq_raft_protocol.specs.Example.{three};
ghost use Rattle.qq_raft_protocol.specs.Moves.{run, AreAllowed};
ghost use Rattle.qq_raft_protocol.specs.Safe.{IsSupported};
ghost use Rattle.qq_raft_protocol.specs.World.{start_world};
ghost use Rattle.qq_raft_away_laws.specs.Away.{IsBeside, read_lane};
ghost use Rattle.qq_raft_away_laws.specs.Replaced.{at_once, is_third, new_disks, old_disks, old_lane};

/// A worked group: nodes 1 and 3 of three have the one entry that was committed, and the disk of node 3 is
/// replaced. If it takes part before the others have committed, another entry may be committed in its place.
pub fn who_begins_at_once_may_lose_an_entry()
    ensures beside { (e : Entry) → e.term.0 ≡ 1 →
        IsBeside three is_third (new_disks e) (old_disks e) (e ∷ []) }
    ensures allowed { (e f : Entry) → f.term.0 ≡ 3 →
        AreAllowed three (start_world (new_disks e) []) (at_once f) }
    ensures lost { (e f : Entry) →
        (run (start_world (new_disks e) []) (at_once f)).audit ≡ f ∷ [] }
{}

/// A worked group: over the same disks the term of the entry itself is too low for node 3. Nobody can have
/// been elected in it then, and the group would be refused, although no disk of it is wrong.
pub fn the_term_of_an_entry_is_too_low()
    ensures { (e : Entry) → e.term.0 ≡ 1 →
        IsSupported three (λ q l. l ≡ read_lane is_third (λ p. 1) (old_lane e) q) [] → ⊥ }
{}
