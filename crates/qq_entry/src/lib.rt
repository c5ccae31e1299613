//! The commands, entries and answers of a queue: the types that all layers of the broker speak of. And checks of
//! entries: whether two are the same, whether one is in the range that a log may hold, and which row of an audit
//! answers a command.
#![tactic(auto)]

/// An equal struct. The fields before the `;` are `Copy`, those behind it take memory.
macro_rules! copy_struct {
    ($value:expr, $alloc:expr, $name:ident { $($plain:ident),*; $($owned:ident),* }) => {
        $name {
            $($plain: $value.$plain,)*
            $($owned: $value.$owned.copy($alloc)?,)*
        }
    };
}

/// An equal value of an enum, with the fields of each variant as in `copy_struct`.
macro_rules! copy_enum {
    ($value:expr, $alloc:expr, $name:ident {
        $($variant:ident { $($plain:ident),*; $($owned:ident),* }),* $(,)?
    }) => {
        match $value {
            $($name::$variant { $($plain,)* $($owned,)* } => $name::$variant {
                $($plain: *$plain,)*
                $($owned: $owned.copy($alloc)?,)*
            },)*
        }
    };
}

mod answer;
mod answers;
mod audit;
mod command;
mod commands;
mod entries;
mod limits;
mod lists;
mod message;
mod message_ranges;
mod messages;
mod queue;
mod ranges;
mod shared;
mod table;

pub use answer::{Answer, Cause, Delivery, Full};
pub use answers::answer_after;
pub use audit::{AuditRow, Effect, Effects, Rows};
pub use command::{Command, DeadDone, DeadDones, Entries, Entry, Mode, Stamp, Unstamped};
pub use entries::{same_entries, same_entry};
pub use limits::{
    BODY_LIMIT, DEAD_DONE_LIMIT, DEATHS_LIMIT, IDS_LIMIT, KEY_LIMIT, LENGTH_LIMIT, MACHINE_VERSION,
    TARGETS_LIMIT, TERM_LIMIT,
};
pub use message::{Content, Death, Deaths, Message, Origin, ReadyRow, Reason};
pub use queue::{DELIVERY_LIMIT, LIVE_LIMIT, Members, Overflow, QueueArgs, Strategy};
pub use ranges::is_in_range;
pub use shared::Shared;
pub use table::{Standing, Table};
