ghost use Rattle.std.specs.Prelude.{◌≡◌};
ghost use Rattle.qq_base.specs.declared.memory.Memory.TheVariants.{Want};
ghost use Rattle.qq_ports.specs.declared.fault.LineFault.TheVariants as faults;

use crate::source::Failed;
use qq_base::Memory;
use std::alloc::{AllocError, AllocFailed};
use std::error::Error;
use std::fmt;

/// How many bytes a line may have before its line feed.
pub const LINE_LIMIT: usize = 70_000;

/// Why there is no next line.
#[derive(Clone, Copy, Debug, PartialEq, Eq)]
pub enum LineFault {
    /// The source failed.
    Failed,
    /// The line has more bytes than `LINE_LIMIT`: it is given up at this many.
    TooLong { length: u64 },
    /// Out of memory.
    Memory(Memory),
}

impl fmt::Display for LineFault {
    fn fmt<W: fmt::Write>(&self, f: &mut fmt::Formatter<W>) -> fmt::Result {
        match self {
            LineFault::Failed => f.write_str("the source has failed"),
            LineFault::TooLong { .. } => f.write_str("a line of more than 70000 bytes"),
            LineFault::Memory(cause) => write!(f, "{cause}"),
        }
    }
}

impl Error for LineFault {}

impl From<Failed> for LineFault {
    ghost from_gives = { λ _ e. e ≡ faults.Failed };

    fn from(_: Failed) -> Self {
        LineFault::Failed
    }
}

impl From<Memory> for LineFault {
    ghost from_gives = { λ cause e. e ≡ faults.Memory cause };

    fn from(cause: Memory) -> Self {
        LineFault::Memory(cause)
    }
}

impl From<AllocError> for LineFault {
    ghost from_gives = { λ _ e. e ≡ faults.Memory Want };

    fn from(_: AllocError) -> Self {
        LineFault::Memory(Memory::Want)
    }
}

impl<T: Drop> From<AllocFailed<T>> for LineFault {
    ghost from_gives = { λ _ e. e ≡ faults.Memory Want };

    fn from(_: AllocFailed<T>) -> Self {
        LineFault::Memory(Memory::Want)
    }
}
