use qq_base::ConsumerId;
use qq_entry::{AuditRow, Delivery};
use qq_taker::Verdict;

/// What a client sees of a queue.
#[derive(Drop)]
pub enum Shown {
    /// The answer of a row, to the session of its command.
    Answered {
        row: AuditRow,
    },
    /// A delivery, to the session of its consumer.
    Delivered {
        consumer: ConsumerId,
        delivery: Delivery,
    },
    /// No leader is ready to take a session's command.
    NoLeader {
        session: u64,
    },
    /// As many of a session's numbers are open as may be.
    WindowFull {
        session: u64,
    },
    /// A session has ended, and gives no more commands.
    HasEnded {
        session: u64,
    },
    /// A delivery of this id wasn't handed out, so a session's command for it isn't given.
    NotTaken {
        session: u64,
        id: u64,
    },
    /// The taker of this number is given to a consumer of a session.
    Attached {
        session: u64,
        number: u32,
    },
    /// A session's consumer has the taker of this number, so it is given no other one.
    IsBusy {
        session: u64,
        number: u32,
    },
    /// A delivery was offered to its consumer's taker of this number, which gave this verdict on it.
    Taken {
        number: u32,
        consumer: ConsumerId,
        delivery: Delivery,
        verdict: Verdict,
    },
    /// The taker of a session's consumer is dropped.
    Dropped {
        session: u64,
        number: u32,
    },
}
