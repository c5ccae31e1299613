//! Laws of disks and logs in words of their own, so that none of the definitions that say what an image, a lane
//! and a recovery are can be weakened alone.
#![tactic(auto)]

mod begun;
mod bytes;
mod calls;
mod crashes;
mod images;
mod lanes;
mod moments;
mod read;
mod readings;
mod unread;
mod worn_disk;

pub use begun::{a_new_log_is_ready, a_recovered_log_goes_on_behind_what_was_read};
pub use bytes::{a_segment_has_an_entry_of_its_log, what_is_read_stands_there};
pub use calls::{
    a_new_file_goes_on_from_the_old_one, a_replaced_file_is_named_no_more,
    an_append_takes_what_fits, appends_and_syncs_stay_in_their_file,
};
pub use crashes::{
    a_crash_in_memory_leaves_the_named_image, a_new_disk_in_memory_counts_from_nothing,
    listed_calls_of_a_disk_fail,
};
pub use images::{
    a_crash_since_leaves_the_old_bytes, a_named_image_keeps_what_it_names,
    a_removed_file_may_be_back_or_gone, a_synced_file_is_left_whole, images_of_a_file,
    the_newest_log_is_one, what_no_sync_kept_may_be_lost,
};
pub use lanes::{a_lane_tells_its_state, each_queue_with_ops_has_its_lane};
pub use moments::{
    a_removal_takes_one_file, a_sync_changes_no_reading, an_append_adds_a_first_part,
    calls_that_fail_are_calls, out_of_memory_changes_nothing, synced_bytes_stay_whatever_fails,
};
pub use read::{
    a_disk_that_was_only_read_is_as_before, a_readable_disk_gives_what_was_promised,
    each_image_gives_what_was_promised,
};
pub use readings::{a_listing_has_each_file_once, a_read_fills_the_front};
pub use unread::recovery_removes_the_logs_that_it_does_not_read;
pub use worn_disk::WornDisk;
