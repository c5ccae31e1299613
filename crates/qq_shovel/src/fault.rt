use qq_base::Memory;
use std::alloc::AllocFailed;
use thiserror::Error;

/// Why a delivery isn't taken.
#[derive(Clone, Copy, Debug, PartialEq, Eq, Error)]
pub enum MoveFault {
    /// 256 publishes aren't confirmed yet.
    #[error("256 publishes are open")]
    WindowFull,
    /// There was no memory.
    #[error("{0}")]
    Memory(Memory),
}

impl From<Memory> for MoveFault {
    ghost use Rattle.std.specs.Prelude.{◌≡◌};
    ghost use Rattle.qq_shovel.specs.declared.fault.MoveFault.TheVariants.{Memory as OfMemory};

    ghost from_gives = { λ memory e. e ≡ OfMemory memory };

    fn from(memory: Memory) -> Self {
        MoveFault::Memory(memory)
    }
}

impl<T: Drop> From<AllocFailed<T>> for MoveFault {
    ghost use Rattle.std.specs.Prelude.{◌≡◌};
    ghost use Rattle.qq_base.specs.declared.memory.Memory.TheVariants.{Want};
    ghost use Rattle.qq_shovel.specs.declared.fault.MoveFault.TheVariants.{Memory as OfMemory};

    ghost from_gives = { λ _ e. e ≡ OfMemory Want };

    fn from(_: AllocFailed<T>) -> Self {
        MoveFault::Memory(Memory::Want)
    }
}
