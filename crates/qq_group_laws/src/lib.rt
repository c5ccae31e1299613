//! Laws of groups and their servers in words of their own: what members have applied and show, that each message on
//! its way fits the server that it reaches, why a call is refused and what stands then, and what a restart finds.
//! So none of the definitions that say so can be weakened alone. No code but laws.
#![tactic(auto)]

mod answered;
mod audited;
mod ends;
mod fits;
mod group_refusals;
mod handing;
mod members;
mod messages;
mod openings;
mod refusals;
mod restarts;
mod sources;
mod spent;
mod steps;

pub use answered::a_command_with_a_row_is_answered;
pub use audited::{each_row_is_of_the_audit, members_apply_the_audit};
pub use ends::{a_number_of_the_queue_passes_its_end, applying_gives_up_at_an_end};
pub use fits::{a_message_always_fits, a_message_is_from_one_member_to_another};
pub use group_refusals::{
    a_copy_is_refused_for_want_or_a_full_bag, a_loss_is_never_refused,
    a_refusal_tells_want_or_an_end, an_event_of_a_member_that_is_down_is_never_refused,
};
pub use handing::an_op_that_was_given_back_is_next;
pub use members::{
    a_leader_has_the_entries_of_its_term, what_is_committed_is_on_a_majority_of_disks,
};
pub use messages::{a_message_that_was_read_is_read_again, entries_of_a_term_have_one_sender};
pub use openings::{a_member_that_isnt_named_is_told, an_opened_group_stands_for_a_state};
pub use refusals::{
    a_command_is_refused_with_its_cause, a_failed_call_hands_nothing_out,
    a_number_is_told_at_its_end,
};
pub use restarts::{
    a_log_that_is_found_restarts, a_lost_log_is_told_as_it_was_found,
    a_seat_has_noticed_what_its_server_has,
};
pub use sources::where_an_entry_comes_from;
pub use spent::{
    a_full_bag_is_told_where_messages_pass_its_limit, an_end_is_told_where_a_number_stands_at_it,
};
pub use steps::a_step_keeps_the_node;
