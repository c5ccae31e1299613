use crate::answer::{Answer, Delivery};
use crate::command::Entry;
use crate::message::{Message, Reason};
use qq_base::{ConsumerId, Duplicate, Index, Items, Memory};
use std::alloc::Global;

/// What applying an entry does beside its answer.
#[derive(Debug, Drop, PartialEq)]
pub enum Effect {
    /// A delivery to a consumer.
    Deliver(ConsumerId, Delivery),
    /// A dead letter of a queue that dead-letters at most once.
    DeadOnce {
        /// Why the message died.
        reason: Reason,
        /// The message as it died.
        message: Message,
    },
    /// A dead letter for the worker of a queue that dead-letters at least once.
    Offer {
        /// The dead letter's number at this queue, from 1.
        number: u64,
        /// Why the message died.
        reason: Reason,
        /// The message as it died.
        message: Message,
    },
}

/// Effects in order.
pub type Effects = Items<Effect>;

/// One row of a queue's audit.
#[derive(Debug, Drop, PartialEq)]
pub struct AuditRow {
    /// Of the entry.
    pub index: Index,
    /// The entry that was applied.
    pub entry: Entry,
    /// Whether its command counted as fresh.
    pub fresh: bool,
    /// What was answered.
    pub answer: Answer,
}

/// Rows of an audit, by rising index.
pub type Rows = Items<AuditRow>;

impl Duplicate for Effect {
    fn copy(&self, alloc: Global) -> Result<Self, Memory> {
        Ok(match self {
            Effect::Deliver(consumer, delivery) => {
                Effect::Deliver(*consumer, delivery.copy(alloc)?)
            }
            Effect::DeadOnce { reason, message } => Effect::DeadOnce {
                reason: *reason,
                message: message.copy(alloc)?,
            },
            Effect::Offer {
                number,
                reason,
                message,
            } => Effect::Offer {
                number: *number,
                reason: *reason,
                message: message.copy(alloc)?,
            },
        })
    }
}

impl Duplicate for AuditRow {
    fn copy(&self, alloc: Global) -> Result<Self, Memory> {
        Ok(copy_struct!(self, alloc, AuditRow { index, fresh; entry, answer }))
    }
}
