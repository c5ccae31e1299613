use qq_base::Memory;
use std::alloc::AllocError;
use thiserror::Error;

/// Why a yard gave no disk.
#[derive(Clone, Copy, Debug, PartialEq, Eq, Error)]
pub enum YardFault {
    /// The yard failed, which it counts.
    #[error("the yard has failed")]
    Failed,
    /// There was no memory.
    #[error("{0}")]
    Memory(Memory),
}

impl From<Memory> for YardFault {
    ghost use Rattle.std.specs.Prelude.{◌≡◌};
    ghost use Rattle.qq_ports.specs.declared.yard_fault.YardFault.TheVariants.{Memory as OfMemory};

    ghost from_gives = { λ memory e. e ≡ OfMemory memory };

    fn from(memory: Memory) -> Self {
        YardFault::Memory(memory)
    }
}

impl From<AllocError> for YardFault {
    ghost use Rattle.std.specs.Prelude.{◌≡◌};
    ghost use Rattle.qq_base.specs.declared.memory.Memory.TheVariants.{Want};
    ghost use Rattle.qq_ports.specs.declared.yard_fault.YardFault.TheVariants.{Memory as OfMemory};

    ghost from_gives = { λ _ e. e ≡ OfMemory Want };

    fn from(_: AllocError) -> Self {
        YardFault::Memory(Memory::Want)
    }
}
