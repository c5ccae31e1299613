use qq_base::Memory;
use std::alloc::AllocError;
use std::error::Error;
use std::fmt;

/// Why a line isn't read. A whole line is looked at for one kind before the next, in this order: `TooLong`,
/// `Unknown`, `Words`, `Number`, `NoSuch`, `Session`, `Body`. `Memory` may come at any time.
#[derive(Clone, Copy, Debug)]
pub enum ScriptFault {
    /// Its first word names no line, or it isn't UTF-8, the body of `publish` excepted.
    Unknown,
    /// The number of its words is wrong, a key has more than 255 bytes, or the words of an image or the last
    /// word of `credit` aren't any of those that there are.
    Words,
    /// A number isn't decimal without leading zeros, or isn't in range, or there are more ids than a command
    /// may have.
    Number,
    /// A node or a queue isn't there, or the node isn't a member of the queue's group.
    NoSuch,
    /// It has more bytes than `LINE_LIMIT`.
    TooLong,
    /// It stands in a client's section, and isn't a client's line.
    Session,
    /// The body has more bytes than `BODY_LIMIT`.
    Body {
        /// How many it has.
        size: u64,
    },
    /// Out of memory.
    Memory(Memory),
}

impl fmt::Display for ScriptFault {
    fn fmt<W: fmt::Write>(&self, f: &mut fmt::Formatter<W>) -> fmt::Result {
        match self {
            ScriptFault::Unknown => f.write_str("unknown"),
            ScriptFault::Words => f.write_str("words"),
            ScriptFault::Number => f.write_str("number"),
            ScriptFault::NoSuch => f.write_str("no-such"),
            ScriptFault::TooLong => f.write_str("too-long"),
            ScriptFault::Session => f.write_str("session"),
            ScriptFault::Body { size } => write!(f, "body {size}"),
            ScriptFault::Memory(cause) => write!(f, "{cause}"),
        }
    }
}

impl Error for ScriptFault {}

impl From<Memory> for ScriptFault {
    ghost use Rattle.std.specs.Prelude.{◌≡◌};
    ghost use Rattle.qq_script_lines.specs.declared.fault.ScriptFault.TheVariants as faults;

    ghost from_gives = { λ cause e. e ≡ faults.Memory cause };

    fn from(cause: Memory) -> Self {
        ScriptFault::Memory(cause)
    }
}

impl From<AllocError> for ScriptFault {
    ghost use Rattle.std.specs.Prelude.{◌≡◌};
    ghost use Rattle.qq_base.specs.declared.memory.Memory.TheVariants.{Want};
    ghost use Rattle.qq_script_lines.specs.declared.fault.ScriptFault.TheVariants as faults;

    ghost from_gives = { λ _ e. e ≡ faults.Memory Want };

    fn from(_: AllocError) -> Self {
        ScriptFault::Memory(Memory::Want)
    }
}
