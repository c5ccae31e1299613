//! A queue in parts: what a machine that keeps separate lists of its live messages reads and does is what the
//! definition reads of all rows and does to them. Definitions and laws; no code.
#![tactic(auto)]

mod gone;
mod part_steps;
mod parts;

pub use gone::gone_messages_play_no_part;
pub use part_steps::{
    a_step_of_the_parts_is_a_step_of_the_queue, commands_follow, consumers_may_go_one_by_one,
    deliveries_end_in_order, ids_may_be_cut_at_once, loops_follow, nobody_waits_for_what_is_ready,
    the_parts_run_as_the_queue,
};
pub use parts::{
    all_checkouts_are_made, consumers_are_served, consumers_change_and_leave, deliveries_end,
    messages_come_and_go, parts_tell_dead_letters, parts_tell_the_queue,
    the_active_consumer_is_the_first, turns_are_a_queue,
};
