ghost use Rattle.std.specs.Prelude.{◌≤◌, ◌<◌, ◌≡◌, ℕ, List, Option, IfOk, OnErr, length, take};
ghost use Rattle.std.specs.Io.KnownBytes.{Consumes, Keeps, IsAtEnd};
ghost use Rattle.qq_base.specs.Causes.{HasCause, Rose, raise};
ghost use Rattle.qq_ports.specs.Faults.{IsCaused};

use std::error::Error;
use std::fmt;

/// The outside has failed: a counted fault.
#[derive(Clone, Copy, Debug, PartialEq, Eq)]
pub struct Failed;

impl fmt::Display for Failed {
    fn fmt<W: fmt::Write>(&self, f: &mut fmt::Formatter<W>) -> fmt::Result {
        f.write_str("the outside has failed")
    }
}

impl Error for Failed {}

// Counts a fault. The count stops at its end.
pub(crate) fn count_fault(faults: &mut u64) -> Failed
    ensures later { faults.old ≤ faults.new }
    ensures rose { Rose faults.old faults.new }
    ensures raised { faults.new ≡ raise faults.old }
{
    *faults = faults.saturating_add(1);
    Failed
}

/// Where bytes come from.
pub trait Source {
    /// The bytes that it has left. None where it doesn't tell them.
    ghost left: { Self → Option (List ℕ) };

    /// How often it has failed. The count never falls, and stops at 2^64 - 1.
    ghost faults: { Self → ℕ };

    /// Reads bytes into the first places of `buf`, and says how many, as `read` of Rust's `std::io::Read`.
    ///
    /// - `within`: it gives no more bytes than `buf` has room for.
    /// - `ok`: they are the first that were left, and are left no longer.
    /// - `end`: 0 for a buffer that isn't empty comes only at the end of the input.
    /// - `err`: where it fails, it has taken nothing.
    /// - `cause`: it fails only at a counted fault.
    fn read(&mut self, buf: &mut [u8]) -> Result<usize, Failed>
        ensures within { IfOk result (λ n. n ≤ length buf.old) }
        ensures ok { IfOk result (λ n.
            Consumes (left self.old) (left self.new) (take n buf.new)) }
        ensures end { IfOk result (λ n. n ≡ 0 → 0 < length buf.old → IsAtEnd (left self.new)) }
        ensures err { OnErr result (Keeps (left self.old) (left self.new)) }
        ensures cause { HasCause IsCaused (faults self.old) (faults self.new) result };
}
