//! Why a value isn't read.
ghost use Rattle.std.specs.Prelude.{◌≡◌, Some};

use qq_base::Memory;

/// Why a value isn't read. Each format has an enum of its own, with one case for want of memory.
pub trait Fault: Drop + Sized {
    ghost use Rattle.std.specs.Prelude.{Option};
    ghost use Rattle.qq_base.specs.declared.memory.Memory.{Memory};

    /// What memory was short of, where the fault isn't one of the bytes.
    ghost memory: { Self → Option Memory };

    /// The fault of a call for which there was no memory.
    fn want() -> Self
        ensures { memory result ≡ Some Memory.Want };
}
