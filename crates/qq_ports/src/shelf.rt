ghost use Rattle.std.specs.Prelude.{◌≡◌, ℕ, List, Option, IfOk};
ghost use Rattle.qq_base.specs.Causes.{HasCause};
ghost use Rattle.qq_ports.specs.Shelf.{Gives, IsShelfCaused};

use qq_base::Memory;
use std::alloc::{AllocError, AllocFailed, Global};
use thiserror::Error;

/// Why a shelf gave no file.
#[derive(Clone, Copy, Debug, PartialEq, Eq, Error)]
pub enum ShelfFault {
    /// The shelf failed, or has no such file, which it counts.
    #[error("no such file, or it can't be read")]
    Failed,
    /// There was no memory.
    #[error("{0}")]
    Memory(Memory),
}

impl From<AllocError> for ShelfFault {
    ghost use Rattle.qq_base.specs.declared.memory.Memory.TheVariants.{Want};
    ghost use Rattle.qq_ports.specs.declared.shelf.ShelfFault.TheVariants.{Memory as OfMemory};

    ghost from_gives = { λ _ e. e ≡ OfMemory Want };

    fn from(_: AllocError) -> Self {
        ShelfFault::Memory(Memory::Want)
    }
}

impl<T: Drop> From<AllocFailed<T>> for ShelfFault {
    ghost use Rattle.qq_base.specs.declared.memory.Memory.TheVariants.{Want};
    ghost use Rattle.qq_ports.specs.declared.shelf.ShelfFault.TheVariants.{Memory as OfMemory};

    ghost from_gives = { λ _ e. e ≡ OfMemory Want };

    fn from(_: AllocFailed<T>) -> Self {
        ShelfFault::Memory(Memory::Want)
    }
}

/// Files that are read whole, by their names.
pub trait Shelf {
    /// The bytes of each file, None where there is no such file. None where the shelf doesn't tell them.
    ghost files: { Self → Option (List ℕ → Option (List ℕ)) };

    /// How often it has failed. The count never falls, and stops at 2^64 - 1.
    ghost faults: { Self → ℕ };

    /// The file of this name, whole. A missing file is a fault.
    ///
    /// - `ok`: the bytes are those of the file, which is there.
    /// - `same`: the shelf's files stay.
    /// - `cause`: it fails only at a counted fault.
    fn fetch(&mut self, alloc: Global, name: &str) -> Result<Vec<u8>, ShelfFault>
        ensures ok { IfOk result (λ bytes. Gives (files self.old) name.now bytes.items) }
        ensures same { files self.new ≡ files self.old }
        ensures cause { HasCause IsShelfCaused (faults self.old) (faults self.new) result };
}
