//! The nodes of a cluster as code: queues and logs side by side.
#![tactic(auto)]

mod active;
mod crashing;
mod disks;
mod happening;
mod judging;
mod lines;
mod logs;
mod messages;
mod new;
mod node;
mod nodes;
mod reading;
mod rounds;
mod sending;
mod showing;
mod stopping;
mod ticking;
mod told;
mod turning;
mod writing;

pub use crashing::{crash_each, crash_node};
pub use node::Node;
pub use nodes::Nodes;
pub use rounds::MOST_ROUNDS;
pub use told::Told;
