ghost use Rattle.std.specs.Prelude.{◌≡◌};

use qq_base::{Memory, Text};
use std::alloc::AllocError;
use thiserror::Error;

/// Why definitions aren't read. The first fault is told: of the text, of the policies, then of the queues,
/// the exchanges and the bindings, each in the order of its list, and last that there are too many queues.
#[derive(Debug, Drop, Error)]
pub enum DefsFault {
    /// Not JSON, not UTF-8, or nested more than 127 deep.
    #[error("not JSON")]
    Json,
    /// JSON that isn't an object.
    #[error("not an object")]
    NotObject,
    /// A field is missing or of another type.
    #[error("missing")]
    Missing {
        /// Where it was looked for, such as `queues[0].name`.
        path: Text,
    },
    /// A value that isn't allowed.
    #[error("bad argument")]
    BadArgument {
        /// The argument's or field's name.
        name: Text,
    },
    /// What this broker can't do.
    #[error("unsupported")]
    Unsupported {
        /// The argument's name, or the type of an exchange or of a destination.
        name: Text,
    },
    /// There are policies, and they weren't to be ignored.
    #[error("policies")]
    Policies,
    /// A binding names an exchange or a queue that isn't there.
    #[error("unknown target")]
    UnknownTarget {
        /// Its name.
        name: Text,
    },
    /// There are more quorum queues than a broker has room for.
    #[error("{count} queues are too many")]
    Limit {
        /// How many there are.
        count: u64,
    },
    /// Out of memory.
    #[error("{0}")]
    Memory(Memory),
}

impl From<Memory> for DefsFault {
    ghost use Rattle.qq_defs.specs.declared.fault.DefsFault.TheVariants.{Memory as memory_fault};

    ghost from_gives = { λ fault e. e ≡ memory_fault fault };

    fn from(fault: Memory) -> Self {
        DefsFault::Memory(fault)
    }
}

impl From<AllocError> for DefsFault {
    ghost use Rattle.qq_base.specs.declared.memory.Memory.TheVariants.{Want};
    ghost use Rattle.qq_defs.specs.declared.fault.DefsFault.TheVariants.{Memory as memory_fault};

    ghost from_gives = { λ _ e. e ≡ memory_fault Want };

    fn from(_: AllocError) -> Self {
        DefsFault::Memory(Memory::Want)
    }
}
