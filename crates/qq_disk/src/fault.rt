use qq_base::Memory;
use std::alloc::{AllocError, AllocFailed};
use std::error::Error;
use std::fmt;

/// Why a call of a disk gave up.
#[derive(Clone, Copy, Debug, PartialEq, Eq)]
pub enum DiskFault {
    /// The disk failed, which it counts.
    Failed,
    /// There was no memory.
    Memory(Memory),
}

impl fmt::Display for DiskFault {
    ghost use Rattle.std.specs.Prelude.{Some};
    ghost use Rattle.qq_disk.specs.Fault.{fault_text};

    ghost output = { λ fault. Some (fault_text fault) };

    fn fmt<W: fmt::Write>(&self, f: &mut fmt::Formatter<W>) -> fmt::Result {
        match self {
            DiskFault::Failed => f.write_str("disk"),
            DiskFault::Memory(_) => f.write_str("memory"),
        }
    }
}

impl Error for DiskFault {}

impl From<Memory> for DiskFault {
    ghost use Rattle.std.specs.Prelude.{◌≡◌};
    ghost use Rattle.qq_disk.specs.declared.fault.DiskFault.TheVariants.{Memory as OfMemory};

    ghost from_gives = { λ memory e. e ≡ OfMemory memory };

    fn from(memory: Memory) -> Self {
        DiskFault::Memory(memory)
    }
}

impl From<AllocError> for DiskFault {
    ghost use Rattle.std.specs.Prelude.{◌≡◌};
    ghost use Rattle.qq_base.specs.declared.memory.Memory.TheVariants.{Want};
    ghost use Rattle.qq_disk.specs.declared.fault.DiskFault.TheVariants.{Memory as OfMemory};

    ghost from_gives = { λ _ e. e ≡ OfMemory Want };

    fn from(_: AllocError) -> Self {
        DiskFault::Memory(Memory::Want)
    }
}

impl<T: Drop> From<AllocFailed<T>> for DiskFault {
    ghost use Rattle.std.specs.Prelude.{◌≡◌};
    ghost use Rattle.qq_base.specs.declared.memory.Memory.TheVariants.{Want};
    ghost use Rattle.qq_disk.specs.declared.fault.DiskFault.TheVariants.{Memory as OfMemory};

    ghost from_gives = { λ _ e. e ≡ OfMemory Want };

    fn from(_: AllocFailed<T>) -> Self {
        DiskFault::Memory(Memory::Want)
    }
}
