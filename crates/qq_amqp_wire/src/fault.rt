//! Why bytes are no frame.
ghost use Rattle.std.specs.Prelude.{◌≡◌};

use qq_base::Memory;
use qq_fields::Fault;
use std::alloc::AllocError;
use thiserror::Error;

/// Why no frame stands where one should. The first that applies is answered, as soon as the bytes that
/// decide it are there.
#[derive(Clone, Copy, Debug, PartialEq, Eq, Error)]
pub enum WireFault {
    /// One of the first eight bytes isn't that of `AMQP` 0 0 9 1.
    #[error("this is no AMQP 0-9-1")]
    BadProtocol,
    /// The frame's type isn't 1, 2, 3 or 8.
    #[error("no such type of frame")]
    BadType,
    /// The frame's size is above the most that is allowed.
    #[error("the frame is too long")]
    TooLong,
    /// The byte after the payload isn't `ce`.
    #[error("the frame has no end")]
    BadEnd,
    /// The method isn't one that is read.
    #[error("no method {method} of class {class}")]
    BadMethod {
        /// The method's class.
        class: u16,
        /// The method's number in its class.
        method: u16,
    },
    /// The payload ends within a field, or goes on after the last one, or a short string isn't UTF-8.
    #[error("a field isn't one")]
    BadField,
    /// Out of memory.
    #[error("out of memory")]
    Memory,
}

impl Fault for WireFault {
    ghost use Rattle.qq_amqp_wire.specs.Arguments.{memory_of};

    ghost memory = { memory_of };

    fn want() -> Self {
        WireFault::Memory
    }
}

impl From<Memory> for WireFault {
    ghost use Rattle.qq_amqp_wire.specs.declared.fault.WireFault.TheVariants.{Memory};

    ghost from_gives = { λ _ e. e ≡ Memory };

    fn from(_: Memory) -> Self {
        WireFault::Memory
    }
}

impl From<AllocError> for WireFault {
    ghost use Rattle.qq_amqp_wire.specs.declared.fault.WireFault.TheVariants.{Memory};

    ghost from_gives = { λ _ e. e ≡ Memory };

    fn from(_: AllocError) -> Self {
        WireFault::Memory
    }
}
