//! A deque that can undo what was changed since the last commit.
#![tactic(auto)]

mod deque;
mod step;

pub use deque::UndoDeque;
pub use qq_base::{Duplicate, Memory};
