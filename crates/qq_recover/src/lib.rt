//! Recovery of a node's shared log from what its disk holds.
#![tactic(auto)]

mod clear;
mod entries;
mod fault;
mod file;
mod inspection;
mod laws;
mod log;
mod read;
mod recovered;
mod recovery;
mod replay;
mod settle;
mod start;
mod state;
mod table;
mod walk;

pub use fault::RecoverFault;
pub use inspection::inspect;
pub use laws::{
    a_lane_is_within_its_ends, a_log_that_goes_on_may_be_recovered, a_promised_disk_is_read,
    a_recovered_queue_goes_on, entries_lie_where_they_were_read, lanes_are_those_of_the_chain,
    recovery_leaves_other_files_their_bytes, recovery_settles_on_first_ops,
    recovery_tells_why_it_refuses, these_disks_may_be_recovered,
};
pub use recovered::Recovered;
pub use recovery::recover;
