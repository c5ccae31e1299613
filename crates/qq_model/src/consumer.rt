use qq_base::ConsumerId;
use qq_entry::Mode;

/// A consumer (RabbitMQ, "Consumers").
#[derive(Clone, Copy, Debug, PartialEq, Eq)]
pub struct Consumer {
    /// Its session, and its tag there.
    pub id: ConsumerId,
    /// How it gets deliveries.
    pub mode: Mode,
    /// The free credit in link mode (AMQP 1.0 link credit). In prefetch mode it is 0, and the free
    /// credit follows from the deliveries that aren't settled.
    pub credit: u64,
    /// The id of the next delivery, from 1.
    pub next_id: u64,
    /// How many deliveries used up link credit, or had it drained (AMQP 1.0 delivery-count).
    pub count: u64,
    /// When the consumer was last served, or began to wait to be. Those with lesser turns come first.
    pub turn: u64,
    /// Whether it was cancelled. It then stays only for the deliveries that it hasn't settled.
    pub cancelled: bool,
}

/// How a delivery ends (AMQP 1.0, delivery outcomes; AMQP 0-9-1, acknowledgements).
#[derive(Clone, Copy, Debug, PartialEq, Eq)]
pub enum Outcome {
    /// `basic.ack`: the message is gone.
    Settled,
    /// `basic.nack` with requeue: the message goes back to the queue.
    Returned,
    /// `basic.reject` without requeue: the message dies.
    Discarded,
}
