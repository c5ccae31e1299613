//! The definition of Raft's server, step by step, and of a group of such servers with the messages between them,
//! and that both are moves of the protocol. Definitions and laws; no code.
#![tactic(auto)]

mod examples;
mod group_examples;
mod group_laws;
mod laws;
mod limits;
mod peer;

pub use examples::{
    a_message_holds_256_entries_or_a_mebibyte, a_vote_is_durable_single_and_for_a_current_log,
    an_append_cuts_only_what_differs, an_entry_of_an_older_term_is_not_committed_by_counting,
};
pub use group_examples::{
    a_leader_gets_ready, a_message_that_comes_again_changes_nothing,
    an_entry_of_an_older_term_may_be_replaced,
};
pub use group_laws::{
    a_log_was_handed_the_changes_of_its_server, a_term_does_not_fall, a_term_has_one_leader,
    an_answered_command_stays, each_row_was_submitted, groups_are_opened,
    the_disks_support_the_audit, what_a_group_committed_stays,
};
pub use laws::{
    a_flush_leaves_nothing_to_send, a_leader_keeps_to_its_log, a_leader_sends_and_adds_by_moves,
    a_request_for_a_vote_is_answered_by_moves, a_restart_is_a_move,
    a_server_works_on_what_it_handed_out, a_step_of_one_leaves_the_others,
    a_vote_is_counted_by_moves, an_acknowledgement_is_counted_by_moves, each_step_is_moves,
    sent_entries_are_taken_by_moves, servers_that_stand_agree, standing_is_a_move,
    what_is_durable_is_noticed_by_moves,
};
pub use limits::{BATCH_BYTES, BATCH_ENTRIES};
pub use peer::{Peer, Waiting};
