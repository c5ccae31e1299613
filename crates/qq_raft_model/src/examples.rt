//! Worked steps, as laws.
ghost use Rattle.std.specs.Prelude.{◌≡◌, [], ◌∷◌, map, length, replicate, Some, None, true, false};
ghost use Rattle.qq_entry.specs.declared.command.Entry.{Entry};
ghost use Rattle.qq_log.specs.declared.op.Op.TheVariants.{Change};
ghost use Rattle.qq_raft_msg.specs.declared.state.Role.TheVariants.{Leader, Candidate, Follower};
ghost use Rattle.qq_raft_model.specs.Example.{node, of_term, server, acknowledgement, append, vote};
ghost use Rattle.qq_raft_model.specs.Leading.{batch, weight};
ghost use Rattle.qq_raft_model.specs.Server.{receive, notice, tick, voted, is_ready};
ghost use Rattle.qq_raft_model.specs.State.{wait};

/// A law: of the leader of term 3 with entries of terms 1, 1 and 3, an acknowledgement of entry 2 commits
/// nothing, and one of entry 3 commits all three (Ongaro's dissertation, figure 3.7).
pub fn an_entry_of_an_older_term_is_not_committed_by_counting()
    ensures older { (receive (acknowledgement 3 2)
        (server Leader 3 (Some (node 1)) (1 ∷ 1 ∷ 3 ∷ []))).commit
        ≡ 0 }
    ensures own { (receive (acknowledgement 3 3)
        (server Leader 3 (Some (node 1)) (1 ∷ 1 ∷ 3 ∷ []))).commit
        ≡ 3 }
    ensures ready { is_ready (receive (acknowledgement 3 3)
        (server Leader 3 (Some (node 1)) (1 ∷ 1 ∷ 3 ∷ []))) ≡ true }
{}

/// A law: an old append without entries cuts nothing and changes nothing on the disk; one whose first entry
/// differs cuts the rest of the log, in one change (section 3.5).
pub fn an_append_cuts_only_what_differs()
    ensures old { (receive (append 3 1 1 []) (server Follower 3 None (1 ∷ 1 ∷ 3 ∷ []))).log
        ≡ map of_term (1 ∷ 1 ∷ 3 ∷ []) }
    ensures nothing { (receive (append 3 1 1 (1 ∷ []))
        (server Follower 3 None (1 ∷ 1 ∷ 3 ∷ []))).ops ≡ [] }
    ensures tail { (receive (append 3 1 1 (3 ∷ []))
        (server Follower 2 None (1 ∷ 2 ∷ 2 ∷ 2 ∷ []))).log
        ≡ map of_term (1 ∷ 3 ∷ []) }
    ensures change { (receive (append 3 1 1 (3 ∷ []))
        (server Follower 2 None (1 ∷ 2 ∷ 2 ∷ 2 ∷ []))).ops
        ≡ Change (record { 0 = 1 }) 6 (record { 0 = 3 }) None (record { 0 = 1 })
        (of_term 3 ∷ []) ∷ [] }
    ensures gap { (receive (append 3 3 3 (3 ∷ [])) (server Follower 3 None (1 ∷ 2 ∷ []))).log
        ≡ map of_term (1 ∷ 2 ∷ []) }
{}

/// A law: a vote waits until it is durable (section 3.8), is given once in a term (section 3.4), and not to
/// a candidate with a shorter log (section 3.6.1).
pub fn a_vote_is_durable_single_and_for_a_current_log()
    ensures first { (receive (vote 2 4 2 3) (server Follower 3 None (1 ∷ 3 ∷ []))).out ≡ [] }
    ensures later { (notice 6 (receive (vote 2 4 2 3) (server Follower 3 None (1 ∷ 3 ∷ [])))).out
        ≡ voted (node 2) true (server Follower 4 None []) ∷ [] }
    ensures other { (receive (vote 3 3 2 3) (server Follower 3 (Some (node 2)) (1 ∷ 3 ∷ []))).out
        ≡ voted (node 3) false (server Follower 3 None []) ∷ [] }
    ensures shorter { (receive (vote 2 3 1 3) (server Follower 3 None (1 ∷ 3 ∷ []))).out
        ≡ voted (node 2) false (server Follower 3 None []) ∷ [] }
{}

/// A law: a message holds one entry at least, 256 at most, and more than one where their encodings have a
/// mebibyte at most.
pub fn a_message_holds_256_entries_or_a_mebibyte()
    ensures first { (e : Entry) → batch (e ∷ []) ≡ e ∷ [] }
    ensures count { length (batch (replicate 257 (of_term 1))) ≡ 256 }
    ensures full { (e : Entry) → weight e ≡ 524288 → batch (e ∷ e ∷ []) ≡ e ∷ e ∷ [] }
    ensures over { (e : Entry) → weight e ≡ 524289 → batch (e ∷ e ∷ []) ≡ e ∷ [] }
{}
