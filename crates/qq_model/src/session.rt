ghost use Rattle.std.specs.Prelude.{◌≡◌};

use qq_base::{Duplicate, Items, Memory, SessionId};
use qq_entry::Answer;
use std::alloc::Global;

/// An open session (Ongaro's dissertation, section 6.3).
#[derive(Debug, Drop, PartialEq)]
pub struct OpenSession {
    /// Whose it is.
    pub session: SessionId,
    /// The number that its next command is to have, from 2.
    pub next: u64,
    /// The low mark: it is done with the numbers up to this one, from 0.
    pub mark: u64,
    /// The answers to the numbers above the mark and below the next, in order.
    pub kept: Items<Answer>,
    /// The greatest tag of its consumers, 0 where it had none.
    pub tag: u32,
}

/// The greatest number of the dead-letter workers of one source queue that was seen.
#[derive(Clone, Copy, Debug, PartialEq, Eq)]
pub struct Worker {
    /// The source queue's.
    pub owner: u32,
    /// The greatest one.
    pub number: u64,
}

/// What becomes of a session's command (Ongaro's dissertation, section 6.3).
#[derive(Debug, Drop, PartialEq)]
pub enum Gate {
    /// It is carried out.
    Fresh,
    /// It was carried out before, with this answer.
    Again(Answer),
    /// Its number is above the session's next.
    Gap {
        /// The session's next number.
        next: u64,
    },
    /// Its number is at or below the session's low mark.
    Forgotten,
    /// The session has ended.
    Ended,
    /// As many of the session's numbers are open as may be.
    WindowFull,
    /// As many sessions are open, or were seen, as may be.
    SessionsFull,
}

impl Duplicate for OpenSession {
    fn copy(&self, alloc: Global) -> Result<Self, Memory> {
        Ok(OpenSession {
            session: self.session,
            next: self.next,
            mark: self.mark,
            kept: self.kept.copy(alloc)?,
            tag: self.tag,
        })
    }
}
