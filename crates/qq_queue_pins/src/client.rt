//! Laws of a client's numbers: the functions do nothing, and their contracts are the laws.
ghost use Rattle.std.specs.Prelude.{◌≡◌, ◌<◌, ◌≤◌, ◌^◌, ℕ, Some, Contains, length};
ghost use Rattle.qq_base.specs.declared.memory.Memory.TheVariants.{Spent};
ghost use Rattle.qq_entry.specs.declared.command.Command.{Command};
ghost use Rattle.qq_entry.specs.declared.command.Stamp.{Stamp};
ghost use Rattle.qq_entry.specs.Command.{stamp};
ghost use Rattle.qq_session.specs.declared.publishing.HandFault.TheVariants.{WindowFull, Memory};
ghost use Rattle.qq_session.specs.Numbering.{IsLowMark, IsNumbering};
ghost use Rattle.qq_session.specs.Publishing.{Numbers, HasHandCause};

/// A law: no two numbers are the low mark of a client's numbers.
pub fn a_client_has_one_low_mark()
    ensures { (n : Numbers) (mark other : ℕ) → IsLowMark mark n → IsLowMark other n → mark ≡ other }
{}

/// A law: a client's numbers.
///
/// - `counted`, `within`, `few`: they count from 1 to 2^63, and 256 at most are open.
/// - `open`, `stamp`: an open number was handed out, to a command of its session, whose low mark lies below.
/// - `full`, `spent`: a command gets no number where 256 are open, or where the next one stands at its end.
pub fn what_is_open_was_handed_out()
    ensures counted { (n : Numbers) → IsNumbering n → 0 < n.next }
    ensures within { (n : Numbers) → IsNumbering n → n.next ≤ 2 ^ 63 }
    ensures few { (n : Numbers) → IsNumbering n → length n.opened ≤ 256 }
    ensures open { (n : Numbers) (seq : ℕ) (command : Command) → IsNumbering n →
        Contains n.opened (seq, command) → (0 < seq) × (seq < n.next) }
    ensures stamp { (n : Numbers) (seq : ℕ) (command : Command) (by : Stamp) → IsNumbering n →
        Contains n.opened (seq, command) → stamp command ≡ Some by →
        (by.session ≡ n.session) × (by.seq ≡ seq) × (by.done < seq) }
    ensures full { (n : Numbers) → HasHandCause WindowFull n → length n.opened ≡ 256 }
    ensures spent { (n : Numbers) (number : ℕ) → HasHandCause (Memory (Spent number)) n →
        (number ≡ 2 ^ 63) × (n.next ≡ 2 ^ 63) }
{}
