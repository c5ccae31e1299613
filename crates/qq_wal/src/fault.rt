ghost use Rattle.std.specs.Prelude.{◌≡◌};
ghost use Rattle.qq_wal.specs.Fault.{fault_of, is_failure};

use qq_base::Memory;
use qq_disk::DiskFault;
use thiserror::Error;

/// Why a call of the log gave up.
#[derive(Clone, Copy, Debug, PartialEq, Eq, Error)]
pub enum WalFault {
    /// The disk failed, which it counts. The log is stopped from then on, and after no other error but one
    /// that `roll` names.
    #[error("the disk failed")]
    Disk,
    /// The disk failed in an earlier call.
    #[error("the log is stopped")]
    Stopped,
    /// The op's record would be longer than a batch may be.
    #[error("the op is too large")]
    TooLarge,
    /// There was no memory, or a number is at its end.
    #[error("out of memory or numbers")]
    Memory(Memory),
}

/// The disk's fault, as the log tells it.
pub(crate) fn fault_of(fault: DiskFault) -> WalFault
    ensures { result ≡ fault_of fault }
{
    match fault {
        DiskFault::Failed => WalFault::Disk,
        DiskFault::Memory(memory) => WalFault::Memory(memory),
    }
}

/// Whether the disk failed, and didn't only lack memory.
pub(crate) fn is_failure(fault: DiskFault) -> bool
    ensures { result ≡ is_failure fault }
{
    match fault {
        DiskFault::Failed => true,
        DiskFault::Memory(_) => false,
    }
}
