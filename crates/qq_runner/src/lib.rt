//! Runs values that take turns, each in a thread of its own.
#![tactic(auto)]

mod runner;
mod turn;

pub use runner::run_all;
pub use turn::{Turn, Turned};
