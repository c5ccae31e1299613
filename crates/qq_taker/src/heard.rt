use crate::handed::Handed;
use qq_base::QueueId;
use qq_entry::AuditRow;

/// Why a session's command wasn't given to a queue's leader.
#[derive(Clone, Copy)]
pub enum Refusal {
    /// No leader is ready to take it.
    NoLeader,
    /// As many of the session's numbers are open as may be.
    WindowFull,
    /// The session has ended.
    Ended,
    /// A delivery of this id wasn't handed out to the consumer that the command names.
    NotTaken { id: u64 },
}

/// What is told.
#[derive(Drop)]
pub enum What {
    /// The answer of a row of the queue's audit.
    Answer(AuditRow),
    /// A delivery to a consumer without a taker.
    Delivery(Handed),
    /// A command of a client's session wasn't given to the leader.
    Refused { session: u64, why: Refusal },
}

/// What who listens hears: something that is told of a queue.
#[derive(Drop)]
pub struct Heard {
    pub queue: QueueId,
    pub what: What,
}
