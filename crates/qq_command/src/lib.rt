//! The commands of a queue and their bytes: one encoding for each entry, which is read again whatever
//! follows it. The types stand in `qq_entry`, and are passed on.
#![tactic(auto)]

mod entries;
mod fields;
mod kinds;
mod lengths;
mod lists;
mod measure;
mod put;
mod reading;
mod reasons;
mod refusal;
mod writing;

pub use entries::{entries_at, put_entries};
pub use measure::encoded_len;
pub use qq_entry::{
    Answer, AuditRow, BODY_LIMIT, Cause, Command, Content, DEAD_DONE_LIMIT, DEATHS_LIMIT,
    DELIVERY_LIMIT, DeadDone, DeadDones, Death, Deaths, Delivery, Effect, Effects, Entries, Entry,
    Full, IDS_LIMIT, KEY_LIMIT, LENGTH_LIMIT, LIVE_LIMIT, MACHINE_VERSION, Members, Message, Mode,
    Origin, Overflow, QueueArgs, ReadyRow, Reason, Rows, Shared, Stamp, Standing, Strategy,
    TARGETS_LIMIT, TERM_LIMIT, Table, Unstamped,
};
pub use reading::{decode, entries_read_back, no_encoding_begins_another};
pub use refusal::Refusal;
pub use writing::{encode, put_entry};
