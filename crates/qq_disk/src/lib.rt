//! What a node's disk does, and what a crash may leave of it, at any moment.
//!
//! `NodeDisk` is the contract that each disk meets. `docs/DISK.md` says it in prose.
#![tactic(auto)]

mod either_disk;
mod fault;
mod image;
mod laws;
mod name;
mod node_disk;
mod two_records;

pub use either_disk::EitherDisk;
pub use fault::DiskFault;
pub use image::{Image, Tail};
pub use laws::{a_crash_settles, a_disk_shows_an_image, a_named_image_is_one, synced_bytes_stay};
pub use name::{FileKind, FileName};
pub use node_disk::NodeDisk;
pub use two_records::store_two;
