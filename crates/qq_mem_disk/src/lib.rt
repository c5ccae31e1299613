//! A node's disk in memory, which can be made to fail, to stop, and to crash into a named image.
#![tactic(auto)]

mod change;
mod counter;
mod crash;
mod file;
mod files;
mod listing;
mod mem_disk;
mod reading;
mod store;

pub use mem_disk::MemDisk;
