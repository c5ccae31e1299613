ghost use Rattle.std.specs.Prelude.{◌≡◌};
ghost use Rattle.qq_recover.specs.Fault.{fault_of};

use qq_base::Memory;
use qq_disk::{DiskFault, FileName};
use std::alloc::{AllocError, AllocFailed};
use thiserror::Error;

/// Why recovery gave up.
#[derive(Clone, Copy, Debug, PartialEq, Eq, Error)]
pub enum RecoverFault {
    /// The disk failed, which it counts.
    #[error("the disk failed")]
    Disk,
    /// A file breaks the rules of the log.
    #[error("a file is damaged")]
    Damaged {
        /// The file.
        file: FileName,
        /// The first byte of the header or record that breaks them.
        place: u64,
    },
    /// A file's header is of another version of the format.
    #[error("a file has version {byte}")]
    Version {
        /// The file.
        file: FileName,
        /// The version.
        byte: u8,
    },
    /// There was no memory, or a number is at its end.
    #[error("out of memory or numbers")]
    Memory(Memory),
}

impl From<DiskFault> for RecoverFault {
    ghost use Rattle.std.specs.Prelude.{◌≡◌};
    ghost use Rattle.qq_recover.specs.Fault.{fault_of};

    ghost from_gives = { λ fault e. e ≡ fault_of fault };

    fn from(fault: DiskFault) -> Self {
        match fault {
            DiskFault::Failed => RecoverFault::Disk,
            DiskFault::Memory(memory) => RecoverFault::Memory(memory),
        }
    }
}

impl From<Memory> for RecoverFault {
    ghost use Rattle.std.specs.Prelude.{◌≡◌};
    ghost use Rattle.qq_recover.specs.declared.fault.RecoverFault.TheVariants.{Memory as OfMemory};

    ghost from_gives = { λ memory e. e ≡ OfMemory memory };

    fn from(memory: Memory) -> Self {
        RecoverFault::Memory(memory)
    }
}

impl From<AllocError> for RecoverFault {
    ghost use Rattle.std.specs.Prelude.{◌≡◌};
    ghost use Rattle.qq_base.specs.declared.memory.Memory.TheVariants.{Want};
    ghost use Rattle.qq_recover.specs.declared.fault.RecoverFault.TheVariants.{Memory as OfMemory};

    ghost from_gives = { λ _ e. e ≡ OfMemory Want };

    fn from(_: AllocError) -> Self {
        RecoverFault::Memory(Memory::Want)
    }
}

impl<T: Drop> From<AllocFailed<T>> for RecoverFault {
    ghost use Rattle.std.specs.Prelude.{◌≡◌};
    ghost use Rattle.qq_base.specs.declared.memory.Memory.TheVariants.{Want};
    ghost use Rattle.qq_recover.specs.declared.fault.RecoverFault.TheVariants.{Memory as OfMemory};

    ghost from_gives = { λ _ e. e ≡ OfMemory Want };

    fn from(_: AllocFailed<T>) -> Self {
        RecoverFault::Memory(Memory::Want)
    }
}
