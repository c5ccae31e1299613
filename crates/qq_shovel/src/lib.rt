//! Messages of one queue are moved to another one, of another broker: each is settled at its source once it stands
//! confirmed at its target.
#![tactic(auto)]

mod fault;
mod laws;
mod shovel;

pub use fault::MoveFault;
pub use laws::what_was_settled_stands_confirmed;
pub use shovel::{Shovel, TAG};
