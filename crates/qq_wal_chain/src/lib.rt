//! What a chain of log files holds, and what of it every crash leaves.
#![tactic(auto)]

mod laws;

pub use laws::{
    a_crash_keeps_the_promise, a_crash_without_junk_keeps_the_promise, a_cut_image_is_honest,
    a_file_outside_the_chain_may_go, a_new_file_keeps_the_promise,
    a_stored_batch_is_in_every_image, a_sync_keeps_the_promise, a_synced_log_is_settled,
    an_append_keeps_the_promise, an_empty_disk_keeps_the_promise, every_image_recovers,
    other_kinds_play_no_part, promises_of_more_are_of_less, queues_get_their_first_ops,
    syncs_settle_what_is_read, the_log_has_a_format, what_is_synced_may_be_noticed,
};
