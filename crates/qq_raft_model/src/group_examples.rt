//! Worked groups, as laws.
ghost use Rattle.std.specs.Prelude.{◌≡◌, [], ◌∷◌, true};
ghost use Rattle.qq_raft_msg.specs.declared.state.Role.TheVariants.{Leader};
ghost use Rattle.qq_raft_model.specs.Server.{is_ready};
ghost use Rattle.qq_raft_model.specs.State.{Server};
ghost use Rattle.qq_raft_model.specs.GroupExample.{after_a, after_b, after_c, after_one, committed, copies, log_terms, node, replaced, terms, three, two_entries};
ghost use Rattle.qq_raft_model.specs.Group.{group_after};
ghost use Rattle.qq_raft_model.specs.Promises.{AreDistinct, IsUp};

/// A law: of five servers as in figure 8 of the Raft paper, an entry of term 2 that a majority has
/// isn't committed, and may be replaced by one of term 3; where a majority has the entry of term 4
/// behind it, both are committed.
pub fn an_entry_of_an_older_term_may_be_replaced()
    ensures first { log_terms 5 after_one ≡ 1 ∷ [] }
    ensures second { log_terms 2 after_a ≡ 1 ∷ 2 ∷ [] }
    ensures third { log_terms 5 after_b ≡ 1 ∷ 3 ∷ [] }
    ensures fourth { log_terms 3 after_c ≡ 1 ∷ 2 ∷ 4 ∷ [] }
    ensures audit { after_c.audit ≡ [] }
    ensures fifth { log_terms 2 (group_after after_c replaced) ≡ 1 ∷ 3 ∷ 5 ∷ [] }
    ensures commit { terms (group_after after_c committed).audit ≡ 1 ∷ 2 ∷ 4 ∷ [] }
{}

/// A law: of three servers whose nodes differ one comes to be up, to lead and to be ready.
pub fn a_leader_gets_ready()
    ensures distinct { AreDistinct (node 1 ∷ node 2 ∷ node 3 ∷ []) }
    ensures ready { (s : Server) × IsUp (group_after three two_entries) 1 s × (s.role ≡ Leader) ×
        (is_ready s ≡ true) }
{}

/// A law: a request for a vote and entries that reach a server again, after later ones, change
/// neither its log nor what is committed.
pub fn a_message_that_comes_again_changes_nothing()
    ensures audit { terms (group_after three two_entries).audit ≡ 1 ∷ 1 ∷ [] }
    ensures leader { log_terms 1 (group_after (group_after three two_entries) copies) ≡ 1 ∷ 1 ∷ [] }
    ensures follower { log_terms 2 (group_after (group_after three two_entries) copies) ≡
        1 ∷ 1 ∷ [] }
    ensures later { terms (group_after (group_after three two_entries) copies).audit ≡ 1 ∷ 1 ∷ [] }
{}
