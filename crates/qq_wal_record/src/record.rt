ghost use Rattle.std.specs.Prelude.{◌≡◌};
ghost use Rattle.qq_wal_record.specs.Record.{kind, queue, number};
ghost use Rattle.qq_wal_record.specs.declared.record.LogRecord.TheVariants.{Op as OpRecord};

use qq_base::QueueId;
use qq_fields::Fault;
use qq_log::{Carry, Op};
use thiserror::Error;

/// The kind of a change.
pub const CHANGE: u8 = 1;

/// The kind of a snapshot that was made.
pub const SNAPSHOT: u8 = 2;

/// The kind of a segment that was made.
pub const SEGMENT: u8 = 3;

/// The kind of a carry.
pub const CARRY: u8 = 4;

/// The bytes of a payload's length, the kind, the queue and the op's number.
pub const HEAD_LEN: usize = 17;

/// What stands in a log file: an op of a queue, or what a new file restates of one.
#[derive(Drop, PartialEq)]
pub enum LogRecord {
    /// An op that was handed to the log.
    Op(Op),
    /// The state of a queue as it was when the file was begun, but for its entries.
    Carry(Carry),
}

/// Why no record stands at the front of bytes. The first that applies is answered.
#[derive(Clone, Copy, Debug, PartialEq, Eq, Error)]
pub enum NoRecord {
    /// The bytes end before the record does, or an op's payload is above its limit.
    #[error("the bytes end too early")]
    Short,
    /// The mark isn't that of the bytes before it.
    #[error("the mark is another")]
    Mark,
    /// There is no such kind of record.
    #[error("no such kind of record")]
    Kind,
    /// A field is out of its range, passes the payload's end, or leaves bytes before it.
    #[error("a field is out of range")]
    Field,
    /// Out of memory.
    #[error("out of memory")]
    Memory,
}

impl Fault for NoRecord {
    ghost use Rattle.qq_wal_record.specs.Reading.{memory_of};

    ghost memory = { memory_of };

    fn want() -> Self {
        NoRecord::Memory
    }
}

/// Which kind of record an op's is.
pub fn op_kind(op: &Op) -> u8
    ensures { result ≡ kind (OpRecord op.now) }
{
    match op {
        Op::Change { .. } => CHANGE,
        Op::SnapshotMade { .. } => SNAPSHOT,
        Op::SegmentMade { .. } => SEGMENT,
    }
}

impl LogRecord {
    /// Which kind of record it is.
    pub fn kind(&self) -> u8
        ensures { result ≡ kind self.now }
    {
        match self {
            LogRecord::Op(op) => op_kind(op),
            LogRecord::Carry(_) => CARRY,
        }
    }

    /// The queue that it is of.
    pub fn queue(&self) -> QueueId
        ensures { result ≡ queue self.now }
    {
        match self {
            LogRecord::Op(op) => op.queue(),
            LogRecord::Carry(carry) => carry.queue,
        }
    }

    /// The op's number. A carry has that of its queue's last record before it.
    pub fn number(&self) -> u64
        ensures { result ≡ number self.now }
    {
        match self {
            LogRecord::Op(op) => op.number(),
            LogRecord::Carry(carry) => carry.op,
        }
    }
}
