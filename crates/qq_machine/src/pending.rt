ghost use Rattle.std.specs.Prelude.{◌≡◌, IfOk, IsOkUnless};

use qq_base::{Duplicate, Memory, SessionId};
use qq_entry::{Answer, Stamp};
use std::alloc::Global;

/// What a step does to the sessions, which is done once the step is whole.
#[derive(Drop)]
pub enum Pending {
    /// Nothing so far.
    Nothing,
    /// The low mark of a command that isn't carried out is taken over.
    TurnedAway(Stamp),
    /// A command has passed the gate, and may have taken a tag.
    Passed {
        /// The command's stamp.
        stamp: Stamp,
        /// The tag of the consumer that joins.
        tag: Option<u32>,
    },
    /// A command that has passed the gate is answered.
    Answered {
        /// The command's stamp.
        stamp: Stamp,
        /// The tag of the consumer that joins.
        tag: Option<u32>,
        /// The answer, which is kept.
        answer: Answer,
    },
    /// A session ends.
    Ended(SessionId),
}

impl Pending {
    /// The same.
    pub fn copy(&self, alloc: Global) -> Result<Self, Memory>
        ensures ok { IfOk result (λ twin. twin ≡ self.now) }
        ensures want { IsOkUnless result Memory.Want }
    {
        match self {
            Pending::Nothing => Ok(Pending::Nothing),
            Pending::TurnedAway(stamp) => Ok(Pending::TurnedAway(*stamp)),
            Pending::Passed { stamp, tag } => Ok(Pending::Passed {
                stamp: *stamp,
                tag: *tag,
            }),
            Pending::Answered { stamp, tag, answer } => Ok(Pending::Answered {
                stamp: *stamp,
                tag: *tag,
                answer: answer.copy(alloc)?,
            }),
            Pending::Ended(session) => Ok(Pending::Ended(*session)),
        }
    }
}
