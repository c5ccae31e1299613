use crate::shared::Shared;
use qq_base::{Bytes, Duplicate, Index, Items, Memory, QueueId, Text};
use std::alloc::Global;

/// Why a message was dead-lettered (RabbitMQ, "Dead Letter Exchanges", `x-death` reasons).
#[derive(Clone, Copy, Debug, PartialEq, Eq)]
pub enum Reason {
    /// A consumer discarded it.
    Rejected,
    /// It outlived its time to live.
    Expired,
    /// It was at the head of a queue that had grown past its limit.
    MaxLen,
    /// It was returned more often than the delivery limit allows.
    DeliveryLimit,
}

/// One death of a message: in which queue, and why.
#[derive(Clone, Copy, Debug, PartialEq, Eq)]
pub struct Death {
    /// Where it died.
    pub queue: QueueId,
    /// Why it died there.
    pub reason: Reason,
}

/// The deaths of a message, the oldest first.
pub type Deaths = Items<Death>;

/// What a message carries.
#[derive(Debug, Drop, PartialEq)]
pub struct Content {
    /// At most `BODY_LIMIT` bytes.
    pub body: Bytes,
    /// The routing key, of at most `KEY_LIMIT` bytes.
    pub key: Text,
    /// The deaths that the message died before.
    pub deaths: Deaths,
}

/// A message.
#[derive(Debug, Drop, PartialEq)]
pub struct Message {
    /// The size of its body in bytes, also once that was taken out.
    pub size: u32,
    /// What it carries, shared by all copies. None where this was taken out.
    pub content: Option<Shared<Content>>,
}

/// Where a dead letter comes from.
#[derive(Clone, Copy, Debug, PartialEq, Eq)]
pub struct Origin {
    /// The queue in which it died.
    pub source: QueueId,
    /// The dead letter's number there, from 1.
    pub number: u64,
}

/// A message of a queue.
#[derive(Debug, Drop, PartialEq)]
pub struct ReadyRow {
    /// Of the entry that brought it.
    pub index: Index,
    /// Its place in the order of arrival, from 1.
    pub arrival: u64,
    /// How often it was returned and counted.
    pub count: u64,
    /// The message, with its content.
    pub message: Message,
}

impl Message {
    ghost use Rattle.std.specs.Prelude.{◌≡◌, ◌<◌, ◌^◌, length, IfOk, IsOkUnless};
    ghost use Rattle.qq_entry.specs.Message.{new_message};

    /// The message with this content, whose size is that of the body.
    pub fn new(alloc: Global, content: Content) -> Result<Self, Memory>
        requires { length content.body < 2 ^ 32 }

        ensures ok { IfOk result (λ message. message ≡ new_message content) }
        ensures want { IsOkUnless result Memory.Want }
    {
        Ok(Message {
            size: content.body.len() as u32,
            content: Some(Shared::new(alloc, content)?),
        })
    }
}

impl Duplicate for Content {
    fn copy(&self, alloc: Global) -> Result<Self, Memory> {
        Ok(copy_struct!(self, alloc, Content { ; body, key, deaths }))
    }
}

impl Duplicate for Message {
    fn copy(&self, alloc: Global) -> Result<Self, Memory> {
        let content = match &self.content {
            None => None,
            Some(content) => Some(content.copy(alloc)?),
        };
        Ok(Message {
            size: self.size,
            content,
        })
    }
}

impl Duplicate for ReadyRow {
    fn copy(&self, alloc: Global) -> Result<Self, Memory> {
        Ok(copy_struct!(self, alloc, ReadyRow { index, arrival, count; message }))
    }
}
