//! The writer of a node's shared log: one file that only grows, to which the ops of all queues are
//! written in batches, so that one sync keeps the commands of many queues (the Ra library's internals,
//! write-ahead log).
#![tactic(auto)]

mod batch;
mod begin;
mod entries;
mod fault;
mod file;
mod laws;
mod marks;
mod measure;
mod notices;
mod numbers;
mod older;
mod ranges;
mod roll;
mod sweep;
mod synced;
mod table;
mod waiting;
mod wal;

pub use batch::{BATCH_BYTES, BATCH_OPS};
pub use fault::WalFault;
pub use laws::{
    a_file_that_is_not_read_may_go, a_sync_counts_what_was_appended, calls_keep_what_was_promised,
    entries_lie_where_they_were_written, notices_are_of_their_ops, other_files_keep_the_log_sound,
    the_log_tells_why_it_refuses, what_counts_as_synced_is_in_every_image,
    what_is_appended_and_synced_is_kept,
};
pub use notices::Notice;
pub use numbers::greatest_number;
pub use ranges::FileRanges;
pub use sweep::changes_replace_no_file;
pub use wal::Wal;
