ghost use Rattle.std.specs.Prelude.{◌≡◌};

use qq_base::Memory;
use qq_fields::Fault;
use std::alloc::AllocError;
use thiserror::Error;

/// Why bytes are no entry. The entry is read field by field, and its first fault is answered.
#[derive(Clone, Copy, Debug, PartialEq, Eq, Error)]
pub enum Refusal {
    /// The bytes end before the term and the length, or before as many bytes as the length says.
    #[error("the bytes end too early")]
    Short,
    /// The command's kind is above 12.
    #[error("no such kind of command")]
    BadKind,
    /// A field is out of its range or passes the length's end, or bytes are left before that end.
    #[error("a field is out of range")]
    BadField,
    /// The length, a body, or the number of ids or deaths is above its limit.
    #[error("a length is above its limit")]
    TooLarge,
    /// Out of memory.
    #[error("{0}")]
    Memory(Memory),
}

impl Fault for Refusal {
    ghost use Rattle.qq_command.specs.Reading.{memory_of};

    ghost memory = { memory_of };

    fn want() -> Self {
        Refusal::Memory(Memory::Want)
    }
}

impl From<Memory> for Refusal {
    ghost use Rattle.qq_command.specs.declared.refusal.Refusal.TheVariants.{Memory};

    ghost from_gives = { λ m e. e ≡ Memory m };

    fn from(cause: Memory) -> Self {
        Refusal::Memory(cause)
    }
}

impl From<AllocError> for Refusal {
    ghost use Rattle.qq_base.specs.declared.memory.Memory.TheVariants.{Want};
    ghost use Rattle.qq_command.specs.declared.refusal.Refusal.TheVariants.{Memory};

    ghost from_gives = { λ _ e. e ≡ Memory Want };

    fn from(_: AllocError) -> Self {
        Refusal::Memory(Memory::Want)
    }
}
