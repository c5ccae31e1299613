use qq_disk::DiskFault;
use thiserror::Error;

/// Why a log isn't dumped whole.
#[derive(Clone, Copy, Debug, Error)]
pub enum DumpFault {
    /// The disk failed, which it counts.
    #[error("the disk failed")]
    Disk,
    /// The sink failed, which it counts.
    #[error("the sink failed")]
    Sink,
    /// There was no memory.
    #[error("out of memory")]
    NoMemory,
}

impl From<DiskFault> for DumpFault {
    ghost use Rattle.std.specs.Prelude.{◌≡◌};
    ghost use Rattle.qq_dump.specs.Fault.{fault_of};

    ghost from_gives = { λ fault e. e ≡ fault_of fault };

    fn from(fault: DiskFault) -> Self {
        match fault {
            DiskFault::Failed => DumpFault::Disk,
            DiskFault::Memory(_) => DumpFault::NoMemory,
        }
    }
}
