use crate::message::Message;
use qq_base::{Duplicate, Index, Memory};
use std::alloc::Global;

/// A message as a consumer or a get sees it.
#[derive(Debug, Drop, PartialEq)]
pub struct Delivery {
    /// Of the entry that brought the message.
    pub index: Index,
    /// The message's place in the order of arrival, from 1.
    pub arrival: u64,
    /// The delivery's number for this consumer, from 1; 0 for a get.
    pub id: u64,
    /// How often the message was returned and counted before.
    pub count: u64,
    /// The message, with its content.
    pub message: Message,
}

/// Which limit a publish has met (RabbitMQ, "Queue Length Limit", `reject-publish`).
#[derive(Clone, Copy, Debug, PartialEq, Eq)]
pub enum Full {
    /// The ready messages are at `x-max-length`.
    Length,
    /// The ready bytes are at `x-max-length-bytes`.
    ByteLength,
    /// The messages that aren't gone are at the queue's own limit.
    Live,
}

/// Why a command was refused.
#[derive(Clone, Copy, Debug, PartialEq, Eq)]
pub enum Cause {
    /// A get of a queue with a single active consumer.
    SingleActive,
    /// The tag isn't above the session's greatest.
    NumberSpent,
    /// The queue has as many consumers as it may have.
    ConsumersFull,
    /// No such consumer.
    NoConsumer,
    /// The consumer gets deliveries in the other mode.
    WrongMode,
}

/// What a queue answers to a command.
#[derive(Debug, Drop, PartialEq)]
pub enum Answer {
    /// A leader's first entry was applied.
    Lead,
    /// The message is in the queue.
    Confirmed,
    /// The message was refused.
    Rejected(Full),
    /// A message for a get.
    Got(Delivery),
    /// No message is ready.
    Empty,
    /// The consumer was added.
    Subscribed,
    /// The command was refused.
    Refused(Cause),
    /// A cancel, settle, return or discard was carried out.
    Done,
    /// The credit was set.
    Credited {
        /// How much of it was drained.
        drained: u64,
    },
    /// The ready messages were removed.
    Purged {
        /// How many they were.
        count: u64,
    },
    /// The session has ended.
    Down,
    /// The dead-letter worker was attached.
    Attached,
    /// The dead-letter worker isn't that of the greatest term.
    Stale,
    /// Dead letters were settled.
    DeadSettled {
        /// How many they were.
        count: u64,
    },
    /// The number is above the session's next one.
    Gap {
        /// The session's next number.
        next: u64,
    },
    /// The number is at or below the session's low mark.
    Forgotten,
    /// The session has ended before.
    Ended,
    /// As many of the session's numbers are open as may be.
    WindowFull,
    /// As many sessions are open, or were seen, as may be.
    SessionsFull,
}

impl Answer {
    ghost use Rattle.std.specs.Prelude.{◌≡◌};
    ghost use Rattle.qq_entry.specs.Answer.{comes_from_gate};

    /// Whether the session gate itself answers so.
    pub fn comes_from_gate(&self) -> bool
        ensures { result ≡ comes_from_gate self.now }
    {
        matches!(
            self,
            Answer::Gap { .. }
                | Answer::Forgotten
                | Answer::Ended
                | Answer::WindowFull
                | Answer::SessionsFull
        )
    }
}

impl Duplicate for Delivery {
    fn copy(&self, alloc: Global) -> Result<Self, Memory> {
        Ok(copy_struct!(self, alloc, Delivery { index, arrival, id, count; message }))
    }
}

impl Duplicate for Answer {
    fn copy(&self, alloc: Global) -> Result<Self, Memory> {
        Ok(match self {
            Answer::Lead => Answer::Lead,
            Answer::Confirmed => Answer::Confirmed,
            Answer::Rejected(full) => Answer::Rejected(*full),
            Answer::Got(delivery) => Answer::Got(delivery.copy(alloc)?),
            Answer::Empty => Answer::Empty,
            Answer::Subscribed => Answer::Subscribed,
            Answer::Refused(cause) => Answer::Refused(*cause),
            Answer::Done => Answer::Done,
            Answer::Credited { drained } => Answer::Credited { drained: *drained },
            Answer::Purged { count } => Answer::Purged { count: *count },
            Answer::Down => Answer::Down,
            Answer::Attached => Answer::Attached,
            Answer::Stale => Answer::Stale,
            Answer::DeadSettled { count } => Answer::DeadSettled { count: *count },
            Answer::Gap { next } => Answer::Gap { next: *next },
            Answer::Forgotten => Answer::Forgotten,
            Answer::Ended => Answer::Ended,
            Answer::WindowFull => Answer::WindowFull,
            Answer::SessionsFull => Answer::SessionsFull,
        })
    }
}
