//! How a cluster goes on where nothing fails. It has no code.
#![tactic(auto)]

mod laws;

pub use laws::{
    a_command_is_committed_soon, a_first_command_is_answered, an_opening_gives_each_queue_a_leader,
};
