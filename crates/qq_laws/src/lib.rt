//! Laws of a queue: what holds over all entries that a queue may apply. Each is the contract of a
//! function with no parameters and an empty body; the statements stand in `specs/`.
#![tactic(auto)]

mod closing;
mod consumers;
mod credit;
mod dead_letters;
mod deliveries;
mod ends;
mod messages;
mod number_ends;
mod numerals;
mod refusals;
mod sessions;

pub use closing::{earlier_workers_give_way, sessions_are_few, sessions_end_for_good};
pub use consumers::{
    consumers_are_cancelled, consumers_are_served_in_turn, consumers_come_by_subscribes,
    consumers_join, consumers_keep_their_order, consumers_stay, deliveries_are_made_in_turn,
    deliveries_are_out, deliveries_go_to_who_waits, delivery_ids_count_by_one,
    nobody_waits_in_vain, one_consumer_is_served_at_a_time, prefetch_is_kept,
    subscribes_are_refused_at_limits, the_active_consumer_is_served_alone,
    the_active_consumer_never_waits_in_vain, the_active_consumer_stays_until_it_ends,
};
pub use credit::{credit_is_given, link_credit_is_kept};
pub use dead_letters::{
    dead_letters_are_offered_in_order, dead_letters_are_sent_once, settlements_count_dead_letters,
    the_dead_stay_until_settled, the_worker_is_given_the_dead, workers_take_over_by_term,
};
pub use deliveries::{
    sessions_end_with_their_deliveries, settles_take_effect, unknown_ids_are_passed_over,
    what_is_out_was_delivered,
};
pub use ends::{
    deliveries_count_returns, messages_move_for_reasons, rejections_name_the_limit,
    returns_are_counted, the_delivery_limit_is_exact,
};
pub use messages::{
    deliveries_show_publishes, deliveries_stay_out, entries_move_messages, gets_show_publishes,
    gets_take_the_first_message, limits_are_kept, messages_add_up, messages_are_gone_for_a_reason,
    messages_are_in_order, messages_last, publishes_are_kept, publishes_are_rejected_at_limits,
    purges_take_the_ready, the_first_message_is_next,
};
pub use number_ends::{HALFWAY, numbers_follow_their_counters, queues_are_reached_by_entries};
pub use numerals::{
    a_delivery_limit_of_two_allows_two_returns, a_limit_of_two_is_met_by_the_third_message,
    a_prefetch_of_zero_is_two_thousand, a_queue_without_limits_drops_nothing,
    an_unknown_end_counts_as_seen, deliveries_end_in_the_order_of_ids,
    numbers_pass_the_gate_in_order, returned_messages_come_first,
    what_is_turned_away_moves_the_mark_alone,
};
pub use refusals::{
    answers_are_plain, consumers_keep_their_places, drains_are_answered, refusals_are_exact,
};
pub use sessions::{
    commands_are_carried_out_once, commands_are_fresh_where_let_in, commands_count_by_one,
    commands_turned_away_change_nothing, marks_only_rise, repeats_are_answered_as_before,
    repeats_are_turned_away, repeats_have_the_first_answer,
};
