//! The session gate: which commands of a session are carried out, and which are answered from what was
//! kept (Ongaro's dissertation, section 6.3). Contracts see the sessions as the definition of `qq_model`
//! does.
#![tactic(auto)]

mod answers;
mod ended;
mod open_sessions;
mod opened;
mod row;
mod sessions;
mod workers;

pub use qq_base::{Index, Memory, SessionId};
pub use qq_entry::{Answer, Stamp};
pub use qq_model::{Gate, Worker};
pub use row::{Kepts, SessionRow};
pub use sessions::Sessions;
