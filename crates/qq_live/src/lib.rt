//! The live messages of a queue by index, so that the least index costs no scan: a log may be cut
//! below what its machine still needs (Ra internals, release cursors).
#![tactic(auto)]

mod live;
mod slot;

pub use live::Live;
pub use qq_base::{Index, Memory};
