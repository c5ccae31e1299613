//! The ready messages of a queue: which one is next, how many there are, and how many bytes they have.
#![tactic(auto)]

mod ready;
mod row;

pub use qq_base::Memory;
pub use qq_entry::ReadyRow;
pub use qq_model::Key;
pub use ready::Ready;
pub use row::KeyedRow;
