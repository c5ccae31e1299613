ghost use Rattle.std.specs.Prelude.{◌≡◌};

use qq_base::{Memory, NodeId};
use thiserror::Error;

/// Why a server took no command.
#[derive(Clone, Copy, Debug, PartialEq, Eq, Error)]
pub enum SubmitFault {
    /// It doesn't lead, or hasn't applied an entry of its term yet.
    #[error("not the leader")]
    NotLeader {
        /// The leader of its term, as far as it knows.
        hint: Option<NodeId>,
    },
    /// Out of memory, or a number stands at its end.
    #[error("{0}")]
    Memory(Memory),
}

impl From<Memory> for SubmitFault {
    ghost use Rattle.qq_raft.specs.declared.fault.SubmitFault.TheVariants.{Memory};

    ghost from_gives = { λ m e. e ≡ Memory m };

    fn from(cause: Memory) -> Self {
        SubmitFault::Memory(cause)
    }
}
