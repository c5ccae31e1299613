//! The outside of the broker: sources of bytes and sinks for them, which count their faults, and the
//! lines of a source.
#![tactic(auto)]

mod fault;
mod folder_shelf;
mod folder_yard;
mod laws;
mod lines;
mod mem_shelf;
mod mem_yard;
mod memory;
mod shelf;
mod sink;
mod source;
mod standard;
mod yard;
mod yard_fault;
mod yard_laws;

pub use fault::{LINE_LIMIT, LineFault};
pub use folder_shelf::FolderShelf;
pub use folder_yard::FolderYard;
pub use laws::{calls_in_memory_are_counted, faults_have_causes};
pub use lines::{Lines, lines_law, next_line};
pub use mem_shelf::{MemShelf, listed_fetches_fail};
pub use mem_yard::MemYard;
pub use memory::{MemSink, MemSource};
pub use shelf::{Shelf, ShelfFault};
pub use sink::{Sink, write_all};
pub use source::{Failed, Source};
pub use standard::{StdSink, StdSource};
pub use yard::Yard;
pub use yard_fault::YardFault;
pub use yard_laws::{
    a_crash_leaves_an_image, a_failure_is_counted, a_new_disk_crashes_into_a_new_one,
    a_new_disk_is_empty_and_works, an_opened_disk_loses_nothing, listed_calls_fail,
};
