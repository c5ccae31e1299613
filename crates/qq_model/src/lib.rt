//! What a quorum queue is: its state, and what each entry of its log does to it. The definitions stand
//! in `specs/`; here are the types that they speak of.
#![tactic(auto)]

mod consumer;
mod place;
mod rounds;
mod serving;
mod session;
mod sound;

/// How many consumers a queue may have.
pub const MOST_CONSUMERS: u64 = 1_024;

/// The prefetch that 0 stands for.
pub const UNBOUNDED_PREFETCH: u64 = 2_000;

/// How many numbers of a session may be open: answered, and not yet acknowledged by its low mark.
pub const WINDOW: u64 = 256;

/// How many sessions may be open at once.
pub const MOST_OPEN: u64 = 4_096;

/// How many sessions a queue may see in its life.
pub const MOST_SEEN: u64 = 1_000_000;

/// How many dead letters the dead-letter worker may have under way.
pub const MOST_GIVEN: u64 = 32;

pub use consumer::{Consumer, Outcome};
pub use place::{GoneReason, Key, Place, Row};
pub use rounds::loops_run_out;
pub use serving::the_next_consumer_has_credit;
pub use session::{Gate, OpenSession, Worker};
pub use sound::queues_are_sound;
