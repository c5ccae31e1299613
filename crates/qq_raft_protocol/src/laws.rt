//! The laws of a group.
ghost use Rattle.std.specs.Prelude.{◌≡◌, ◌⊎◌, List, [], ◌∷◌, ℕ};
ghost use Rattle.qq_base.specs.Fronts.{IsFront};
ghost use Rattle.qq_entry.specs.declared.command.Entry.{Entry};
ghost use Rattle.qq_raft_protocol.specs.Example.{three, election, replication};
ghost use Rattle.qq_raft_protocol.specs.Facts.{add, In};
ghost use Rattle.qq_raft_protocol.specs.Moves.{Move, run, AreAllowed};
ghost use Rattle.qq_raft_protocol.specs.Safe.{IsSafe, IsSupported, HasOneLeader, OnlyAppends, AcksWithin, IsFirst};
ghost use Rattle.qq_raft_protocol.specs.Starts.{IsStart, WasThere, IsAppended};
ghost use Rattle.qq_raft_protocol.specs.World.{Lane, Member, World, lanes, new_member, new_world, opened, start_world};

/// A law: whatever a group does over disks that support an audit, in any order, with any losses, repeats
/// and crashes, it is safe.
pub fn servers_agree()
    ensures { (members : List ℕ) (member : ℕ → Member) (audit : List Entry) (moves : List Move) →
        IsStart members member audit → AreAllowed members (start_world member audit) moves →
        IsSafe members (run (start_world member audit) moves) }
{}

/// A law: whatever a group does later, the audit only grows, and a term that had a leader has no other.
pub fn what_is_committed_stays()
    ensures audit { (members : List ℕ) (member : ℕ → Member) (audit : List Entry)
        (first second : List Move) → IsStart members member audit →
        AreAllowed members (start_world member audit) first →
        AreAllowed members (run (start_world member audit) first) second →
        IsFront (run (start_world member audit) first).audit
        (run (run (start_world member audit) first) second).audit }
    ensures leader { (members : List ℕ) (member : ℕ → Member) (audit : List Entry)
        (first second : List Move) → IsStart members member audit →
        AreAllowed members (start_world member audit) first →
        AreAllowed members (run (start_world member audit) first) second →
        HasOneLeader (run (start_world member audit) first)
        (run (run (start_world member audit) first) second) }
{}

/// A law: whatever a group does later, the log of a term's leader is only extended (section 3.5).
pub fn a_leader_only_appends()
    ensures { (members : List ℕ) (member : ℕ → Member) (audit : List Entry)
        (first second : List Move) → IsStart members member audit →
        AreAllowed members (start_world member audit) first →
        AreAllowed members (run (start_world member audit) first) second →
        OnlyAppends (run (start_world member audit) first)
        (run (run (start_world member audit) first) second) }
{}

/// A law: no acknowledgement of its term passes a leader's log, and a candidate that a majority elected has
/// no entry of its term yet.
pub fn a_leader_has_all_of_its_term()
    ensures acks { (members : List ℕ) (member : ℕ → Member) (audit : List Entry) (moves : List Move) →
        IsStart members member audit → AreAllowed members (start_world member audit) moves →
        AcksWithin (run (start_world member audit) moves) }
    ensures first { (members : List ℕ) (member : ℕ → Member) (audit : List Entry) (moves : List Move) →
        IsStart members member audit → AreAllowed members (start_world member audit) moves →
        IsFirst members (run (start_world member audit) moves) }
{}

/// A law: new disks support the empty audit, and disks of which a crash left any part support the audit
/// that the group had. So a group may begin again over these, any number of times. Whoever isn't a member
/// has no entry.
pub fn disks_are_a_start()
    ensures new { (members : List ℕ) → IsStart members (λ q. new_member) [] }
    ensures left { (members : List ℕ) (w : World) (lane : ℕ → Lane) → IsSafe members w →
        ((q : ℕ) → In (lane q) (lanes (w.member q))) →
        ((q : ℕ) → (In q members → ⊥) → (lane q).log ≡ []) →
        IsStart members (λ q. opened (lane q)) w.audit }
{}

/// A law: lanes that are fewer support what begins the audit that all support.
pub fn fewer_lanes_support_the_audit()
    ensures { (members : List ℕ) (fewer more : ℕ → List Lane) (first audit : List Entry) →
        ((q : ℕ) (l : Lane) → In l (fewer q) → In l (more q)) → IsFront first audit →
        IsSupported members (λ q l. In l (more q)) audit →
        IsSupported members (λ q l. In l (fewer q)) first }
{}

/// A law: an entry of a log, whatever a crash leaves of it, or of the audit was on a disk of the start after
/// the same entries, or a leader added it to these.
pub fn an_entry_was_appended()
    ensures lane { (members : List ℕ) (member : ℕ → Member) (audit : List Entry) (moves : List Move)
        (q : ℕ) (lane : Lane) (a : List Entry) (e : Entry) → IsStart members member audit →
        AreAllowed members (start_world member audit) moves →
        In lane (lanes ((run (start_world member audit) moves).member q)) →
        IsFront (add a e) lane.log →
        WasThere members member a e ⊎ IsAppended (start_world member audit) moves a e }
    ensures audit { (members : List ℕ) (member : ℕ → Member) (audit : List Entry) (moves : List Move)
        (a : List Entry) (e : Entry) → IsStart members member audit →
        AreAllowed members (start_world member audit) moves →
        IsFront (add a e) (run (start_world member audit) moves).audit →
        WasThere members member a e ⊎ IsAppended (start_world member audit) moves a e }
{}

/// A law: the logs of three members with entries of terms 1 5, of 1 2 and a later one, and of 3 don't
/// support an audit of the first entry, though two of them have it. The leader of a next term may cut the 5 by
/// the entry of term 2, and then whoever has the 3 may lead and commit it in the audit's place.
pub fn an_audit_that_may_be_replaced_is_refused()
    ensures { (lane : ℕ → Lane) (one two third five later : Entry) → one.term.0 ≡ 1 →
        two.term.0 ≡ 2 → third.term.0 ≡ 3 → five.term.0 ≡ 5 →
        (lane 1).log ≡ one ∷ five ∷ [] → (lane 2).log ≡ one ∷ two ∷ later ∷ [] →
        (lane 3).log ≡ third ∷ [] → IsSupported three (λ q l. l ≡ lane q) (one ∷ []) → ⊥ }
{}

/// A law: what is allowed isn't nothing. Of three nodes two may elect a leader, which commits an entry of
/// its term, while the third is away.
pub fn a_group_may_commit()
    ensures election { AreAllowed three new_world election }
    ensures replication { (e : Entry) → e.term.0 ≡ 1 →
        AreAllowed three (run new_world election) (replication e) }
    ensures audit { (e : Entry) →
        (run (run new_world election) (replication e)).audit ≡ e ∷ [] }
{}
