//! The workload of a drill: the lines of a script that publishes, consumes, crashes and restarts, drawn from one number.
#![tactic(auto)]

mod draw;
mod drill;
mod laws;
mod lines;
mod side;

pub use drill::{Drill, Held, is_sixteenth};
pub use laws::{
    a_drill_of_seven_begins_with_a_get, all_sessions_send_again_after_sixteen_steps,
    consumers_are_at_most_eight, deeds_are_drawn_by_weight, deliveries_are_ended_oldest_first,
    draws_are_of_their_ranges, members_that_are_up_are_ticked, nodes_crash_in_a_write,
};
pub use lines::resends;
