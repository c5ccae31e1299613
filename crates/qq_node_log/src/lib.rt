//! One node's log, which all of its queues share: written to, or crashed. It knows its queues by their parts,
//! and has no queue in it.
#![tactic(auto)]

mod batches;
mod crashing;
mod gathering;
mod laws;
mod node_log;
mod recovering;
mod syncing;

pub use crashing::crash_log;
pub use laws::{
    a_new_disk_holds_nothing, parts_are_compared_at_their_places,
    the_log_goes_on_where_its_ops_end, what_is_left_after_a_crash_is_promised,
};
pub use node_log::NodeLog;
pub use recovering::{Found, recover_log};
pub use syncing::SyncOutcome;
