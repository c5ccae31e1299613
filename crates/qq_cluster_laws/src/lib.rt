//! What the disks of a cluster's nodes keep of its queues, whatever happens. It has no code.
#![tactic(auto)]

mod giving;
mod laws;
mod linking;
mod serving;
mod tracing;

pub use giving::what_waits_goes_on;
pub use laws::disks_support_the_audits;
pub use linking::{
    a_cluster_begins_linked, a_restart_goes_on_with_the_log, a_stop_keeps_the_promise,
    a_sync_keeps_the_link, a_write_keeps_the_link, unseen_events_keep_the_link,
};
pub use serving::{
    what_happened_is_on_the_disks, what_was_answered_is_kept, what_was_given_up_keeps_the_promises,
    what_was_served_keeps_the_promises,
};
pub use tracing::{
    a_trace_tells_of_the_disk, each_moment_supports_the_audits, traces_follow_one_another,
};
