//! A node's disk in a folder of the operating system.
//!
//! `docs/DISK.md` says what each call does in system calls, in their order. Nothing is proved of what a
//! folder holds: the contracts say that faults are counted, that no sync answers Ok after a sync or an append
//! that failed, and how files are named.
#![tactic(auto)]

mod dir_disk;
mod disk_file;
mod faults;
mod folder;
mod handles;
mod listing;
mod name;
mod root;

pub use dir_disk::DirDisk;
pub use disk_file::DiskFile;
pub use name::{file_name, file_text};
pub use root::{LockedRoot, lock_root};
