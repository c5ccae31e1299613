ghost use Rattle.std.specs.Prelude.{◌≤◌, ◌<◌, ◌≡◌, ℕ, List, Option, IfOk, OnOk, OnErr, length, take};
ghost use Rattle.std.specs.Io.KnownBytes.{Appends, Keeps};
ghost use Rattle.qq_base.specs.Causes.{HasCause, Rose};
ghost use Rattle.qq_ports.specs.Faults.{AppendsPrefix, IsCaused};

use crate::source::Failed;

/// Where bytes go.
pub trait Sink {
    /// The bytes that it was given. None where it doesn't tell them.
    ghost written: { Self → Option (List ℕ) };

    /// How often it has failed. The count never falls, and stops at 2^64 - 1.
    ghost faults: { Self → ℕ };

    /// Takes some of the bytes from their front, and says how many, as `write` of Rust's
    /// `std::io::Write`.
    ///
    /// - `within`: it takes no more bytes than there are.
    /// - `ok`: they stand behind all that was written before.
    /// - `none`: taking none of a piece that isn't empty is counted as a fault.
    /// - `err`: where it fails, it has taken nothing.
    /// - `cause`: it fails only at a counted fault.
    fn write(&mut self, bytes: &[u8]) -> Result<usize, Failed>
        ensures within { IfOk result (λ n. n ≤ length bytes.now) }
        ensures ok { IfOk result (λ n.
            Appends (written self.old) (written self.new) (take n bytes.now)) }
        ensures none { IfOk result (λ n.
            n ≡ 0 → 0 < length bytes.now → Rose (faults self.old) (faults self.new)) }
        ensures err { OnErr result (Keeps (written self.old) (written self.new)) }
        ensures cause { HasCause IsCaused (faults self.old) (faults self.new) result };
}

/// Writes all the bytes, in as many calls as the sink wants.
///
/// - `ok`: they stand behind all that was written before.
/// - `err`: a prefix of them was written.
/// - `cause`: it fails only at a counted fault.
#[tactic(auto, using(crate::proofs::Writes::appends_more))]
pub fn write_all<O: Sink>(out: &mut O, bytes: &[u8]) -> Result<(), Failed>
    ensures ok { OnOk result (Appends (O.written out.old) (O.written out.new) bytes.now) }
    ensures err { OnErr result
        (AppendsPrefix (O.written out.old) (O.written out.new) bytes.now) }
    ensures cause { HasCause IsCaused (O.faults out.old) (O.faults out.new) result }
{
    let mut at = 0;
    while at < bytes.len() {
        let (_, rest) = bytes.split_at(at);
        let count = out.write(rest)?;
        if count == 0 {
            return Err(Failed);
        }
        at += count;
    }
    Ok(())
}
