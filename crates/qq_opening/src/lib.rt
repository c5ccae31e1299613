//! Nodes are opened and restarted: what their disks hold is read, and their members go on with it.
#![tactic(auto)]

mod agreeing;
mod marking;
mod opening;
mod reopening;
mod restarting;
mod stepping;
mod taking;

pub use opening::open;
pub use reopening::reopen;
pub use restarting::{RestartFault, restart, restart_each};
