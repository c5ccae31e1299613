use qq_base::{Duplicate, Items, Memory, NodeId, QueueId, Text};
use std::alloc::Global;

/// What a queue at a length limit does (RabbitMQ, "Queue Length Limit", `x-overflow`).
#[derive(Clone, Copy, Debug, PartialEq, Eq)]
pub enum Overflow {
    /// Messages at the front die.
    DropHead,
    /// A publish is refused.
    RejectPublish,
}

/// How dead messages are sent on (RabbitMQ, "At-Least-Once Dead Lettering",
/// `x-dead-letter-strategy`).
#[derive(Clone, Copy, Debug, PartialEq, Eq)]
pub enum Strategy {
    /// The queue has no dead-letter exchange.
    Absent,
    /// A dead message leaves the queue at once.
    AtMostOnce,
    /// A dead message stays until its targets have confirmed it.
    AtLeastOnce,
}

/// The delivery limit of a queue that is declared with none.
pub const DELIVERY_LIMIT: u64 = 20;

/// The most messages of a queue that aren't gone, where its declaration says nothing.
pub const LIVE_LIMIT: u64 = 1_000_000;

/// A quorum queue's arguments (RabbitMQ, "Quorum Queues" and "Queue Length Limit").
#[derive(Debug, Drop, PartialEq)]
pub struct QueueArgs {
    /// The queue's own id.
    pub queue: QueueId,
    /// How many members the queue's group has.
    pub group: u8,
    /// `x-max-length`, in ready messages.
    pub max_length: Option<u64>,
    /// `x-max-length-bytes`, in bytes of ready bodies.
    pub max_bytes: Option<u64>,
    /// `x-overflow`.
    pub overflow: Overflow,
    /// `x-delivery-limit`: how many counted returns keep a message. None for no limit.
    pub delivery_limit: Option<u64>,
    /// `x-single-active-consumer`.
    pub single_active: bool,
    /// `x-dead-letter-strategy`.
    pub strategy: Strategy,
    /// `x-dead-letter-exchange`; the empty text is the default exchange.
    pub dead_exchange: Text,
    /// `x-dead-letter-routing-key`. None for the message's own.
    pub dead_key: Option<Text>,
    /// The greatest number of messages that aren't gone, 1 to `LIVE_LIMIT`.
    pub live: u64,
}

impl QueueArgs {
    ghost use Rattle.std.specs.Prelude.{◌≡◌};
    ghost use Rattle.qq_entry.specs.Queue.{default_args};

    /// The arguments of a queue that is declared with none but its type (RabbitMQ, "Quorum Queues"): no
    /// length limit, the delivery limit `DELIVERY_LIMIT`, no dead-letter exchange. It takes no memory.
    pub fn new(alloc: Global, queue: QueueId, group: u8) -> Self
        ensures { result ≡ default_args queue group }
    {
        QueueArgs {
            queue,
            group,
            max_length: None,
            max_bytes: None,
            overflow: Overflow::DropHead,
            delivery_limit: Some(DELIVERY_LIMIT),
            single_active: false,
            strategy: Strategy::Absent,
            dead_exchange: Text::new(alloc),
            dead_key: None,
            live: LIVE_LIMIT,
        }
    }
}

/// The nodes of a queue's group.
pub type Members = Items<NodeId>;

impl Duplicate for QueueArgs {
    fn copy(&self, alloc: Global) -> Result<Self, Memory> {
        let dead_key = match &self.dead_key {
            None => None,
            Some(key) => Some(key.copy(alloc)?),
        };
        Ok(QueueArgs {
            queue: self.queue,
            group: self.group,
            max_length: self.max_length,
            max_bytes: self.max_bytes,
            overflow: self.overflow,
            delivery_limit: self.delivery_limit,
            single_active: self.single_active,
            strategy: self.strategy,
            dead_exchange: self.dead_exchange.copy(alloc)?,
            dead_key,
            live: self.live,
        })
    }
}
