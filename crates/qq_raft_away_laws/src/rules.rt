//! What follows from the rules by which members are away, and take part again.
ghost use Rattle.std.specs.Prelude.{◌≡◌, ◌<◌, ◌≤◌, Bool, true, false, List, [], max, ℕ};
ghost use Rattle.qq_base.specs.Fronts.{put};
ghost use Rattle.qq_raft_protocol.specs.Facts.{In};
ghost use Rattle.qq_raft_protocol.specs.Moves.{Move, run, Allowed, AreAllowed};
ghost use Rattle.qq_raft_protocol.specs.Moves.Move.{Restart};
ghost use Rattle.qq_raft_protocol.specs.Starts.{IsStart};
ghost use Rattle.qq_raft_protocol.specs.World.{Lane, start_world};
ghost use Rattle.qq_raft_away_laws.specs.Away.{AreBelow, AreStill, read_lane};
ghost use Rattle.qq_raft_away_laws.specs.Rules.{MayReturn, Reading, first_lane, is_away, is_new, may_begin, opening, reopening, term_above};

/// A law: a node is new where nothing of any queue was found on it, and something of one of its queues on
/// another node. On new disks alone nobody is. A new node begins where each such queue has a ready leader.
/// Who is new is away, and so is whose disk failed.
pub fn a_node_is_new_among_old_ones()
    ensures blank { (readings : List Reading) (node : ℕ) (r : Reading) →
        is_new readings node ≡ true → In r readings → (r.lane node).op ≡ 0 }
    ensures new { (readings : List Reading) (node : ℕ) (r : Reading) (q : ℕ) →
        ((s : Reading) → In s readings → (s.lane node).op ≡ 0) → In r readings →
        In node r.members → In q r.members → 0 < (r.lane q).op → is_new readings node ≡ true }
    ensures alone { (readings : List Reading) (node : ℕ) →
        ((r : Reading) → In r readings → (q : ℕ) → In q r.members → (r.lane q).op ≡ 0) →
        is_new readings node ≡ false }
    ensures begins { (has_leader : Reading → Bool) (readings : List Reading) (node : ℕ)
        (r : Reading) (q : ℕ) → may_begin has_leader readings node ≡ true → In r readings →
        In node r.members → In q r.members → 0 < (r.lane q).op → has_leader r ≡ true }
    ensures failed { (failed : ℕ → Bool) (readings : List Reading) (node : ℕ) →
        failed node ≡ true → is_away failed readings node ≡ true }
    ensures present { (failed : ℕ → Bool) (readings : List Reading) (node : ℕ) →
        failed node ≡ false → is_away failed readings node ≡ is_new readings node }
{}

/// A law: the term that is assumed is the first one that is later than each entry that was read.
pub fn the_next_term_is_assumed()
    ensures above { (members : List ℕ) (away : ℕ → Bool) (lane : ℕ → Lane) →
        ((q : ℕ) → (In q members → ⊥) → (lane q).log ≡ []) →
        AreBelow away (λ p. term_above away lane members) lane }
    ensures next { (members : List ℕ) (away : ℕ → Bool) (lane : ℕ → Lane) (t p : ℕ) →
        away p ≡ true → AreBelow away (λ q. t) lane → 0 < t → term_above away lane members ≤ t }
{}

/// A law: where a term may be assumed, so may a leader's that is later. A new node begins with it.
pub fn a_later_term_may_be_assumed()
    ensures below { (away : ℕ → Bool) (lane : ℕ → Lane) (t : ℕ → ℕ) (k leader : ℕ) →
        AreBelow away t lane → AreBelow away (put k (max (t k) leader) t) lane }
    ensures first { (away : ℕ → Bool) (lane : ℕ → Lane) (t : ℕ → ℕ) (k leader : ℕ) →
        away k ≡ true →
        read_lane away (put k (max (t k) leader) t) lane k ≡ first_lane (t k) leader }
{}

/// A law: a failed node whose lane may return was there all the time. The group could have begun with that
/// lane, what it has done since was allowed then too, and the restart with it is one more move.
pub fn a_failed_node_may_return()
    ensures start { (members : List ℕ) (away : ℕ → Bool) (lane : ℕ → Lane) (k : ℕ) (found : Lane) →
        ((q : ℕ) → (In q members → ⊥) → (lane q).log ≡ []) → In k members →
        MayReturn members away lane k found →
        IsStart members (reopening members away lane k found) [] }
    ensures allowed { (members : List ℕ) (away : ℕ → Bool) (lane : ℕ → Lane) (k : ℕ)
        (found : Lane) (moves : List Move) → away k ≡ true → AreStill away moves →
        AreAllowed members (start_world (opening members away lane) []) moves →
        AreAllowed members (start_world (reopening members away lane k found) []) moves }
    ensures restart { (members : List ℕ) (away : ℕ → Bool) (lane : ℕ → Lane) (k : ℕ)
        (found : Lane) (moves : List Move) → away k ≡ true → AreStill away moves →
        Allowed members (run (start_world (reopening members away lane k found) []) moves)
        (Restart k found) }
{}
