ghost use Rattle.std.specs.Prelude.{◌≡◌, ◌⊎◌, Ok, Err, IfOk, IfErr, IsOk, IsOkUnless};

use std::alloc::{AllocError, AllocFailed, Global};
use thiserror::Error;

/// The end of each number that rises: an index, a term, a counter.
pub const NUMBER_END: u64 = 1 << 63;

/// Why a call that takes memory, or raises a number, gave up.
#[derive(Clone, Copy, Debug, PartialEq, Eq, Error)]
pub enum Memory {
    /// Out of memory. Any call that allocates may answer it.
    #[error("out of memory")]
    Want,
    /// The call would have raised a number that stands at its end.
    #[error("a number is at its end, {number}")]
    Spent {
        /// Where the number stands.
        number: u64,
    },
}

impl From<AllocError> for Memory {
    ghost use Rattle.qq_base.specs.declared.memory.Memory.TheVariants.{Want};

    ghost from_gives = { λ _ e. e ≡ Want };

    fn from(_: AllocError) -> Self {
        Memory::Want
    }
}

impl<T: Drop> From<AllocFailed<T>> for Memory {
    ghost use Rattle.qq_base.specs.declared.memory.Memory.TheVariants.{Want};

    ghost from_gives = { λ _ e. e ≡ Want };

    fn from(_: AllocFailed<T>) -> Self {
        Memory::Want
    }
}

/// A value that takes memory to be copied.
pub trait Duplicate: Drop + Sized {
    /// An equal value. The only error is `Memory::Want`, out of memory.
    fn copy(&self, alloc: Global) -> Result<Self, Memory>
        ensures ok { IfOk result (λ twin. twin ≡ self.now) }
        ensures want { IsOkUnless result Memory.Want };
}

/// Both values, or else the first error. A caller whose results own much makes them first and joins them
/// here, so that no other end of it owns any.
pub fn both<A: Drop, B: Drop>(
    first: Result<A, Memory>,
    second: Result<B, Memory>,
) -> Result<(A, B), Memory>
    ensures first { IfOk result (λ pair. first ≡ Ok pair.0) }
    ensures second { IfOk result (λ pair. second ≡ Ok pair.1) }
    ensures err { IfErr result (λ e. (first ≡ Err e) ⊎ (IsOk first × (second ≡ Err e))) }
    ensures want { IsOkUnless first Memory.Want → IsOkUnless second Memory.Want →
        IsOkUnless result Memory.Want }
{
    match first {
        Err(cause) => {
            drop(second);
            Err(cause)
        }
        Ok(a) => match second {
            Err(cause) => {
                drop(a);
                Err(cause)
            }
            Ok(b) => Ok((a, b)),
        },
    }
}
