//! What a node's log knows of each of its queues: the ops that it was given, and how many of them a sync
//! has kept. It has no code, and speaks of no world of nodes.
#![tactic(auto)]

mod laws;

pub use laws::{
    a_crash_keeps_what_was_promised, a_log_goes_on_with_what_recovery_found, a_new_log_has_no_ops,
    a_sync_keeps_all_that_was_given, a_write_gives_its_batches, promises_of_a_part_are_of_more,
    whatever_is_left_lies_between,
};
