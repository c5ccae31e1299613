//! A client's sessions: how it numbers its commands, so that each is carried out once, however often it
//! is sent (Ongaro's dissertation, section 6.3).
#![tactic(auto)]

mod laws;
mod publishing;
mod shown;
mod stamped;

pub use laws::{commands_are_answered_once, commands_arrive_in_order};
pub use publishing::{HandFault, Publishing};
pub use qq_base::{Memory, QueueId, SessionId};
pub use qq_entry::{Answer, Command, Stamp, Unstamped};
pub use shown::Shown;
pub use stamped::closes;
