ghost use Rattle.std.specs.Prelude.{◌≡◌, ◌<◌, Some, None, IfOk, IsOkUnless, OnOk};
ghost use Rattle.qq_model.specs.Gate.{gate, admit, turn_away, keep_answer, take_tag, end_session, greatest_tag};
ghost use Rattle.std.specs.List.{list_all};
ghost use Rattle.qq_model.specs.State.{is_session_within};
ghost use Rattle.qq_sessions.specs.Known.{no_sessions};
ghost use Rattle.qq_machine.specs.declared.pending.Pending.TheVariants.{Nothing, Passed};
ghost use Rattle.qq_machine.specs.Gated.{tagged, passed, begun, passed_by, HasPlaceFor, IsTagOf, done, CanBeDone};

use crate::pending::Pending;
use qq_base::{Duplicate, Memory, SessionId, both};
use qq_entry::{Answer, Stamp};
use qq_model::Gate;
use qq_sessions::Sessions;
use std::alloc::Global;
use std::marker::Model;
use std::mem;

/// The sessions, and what a step under way does to them.
///
/// The sessions themselves change only at the `commit`, for which there is memory by then. Contracts see
/// them as the step leaves them so far, and as they were at the last `commit`.
#[derive(Drop)]
pub struct Gated {
    sessions: Sessions,
    pending: Pending,
}

impl Model for Gated {
    ghost use Rattle.qq_machine.specs.Gated.{GatedState, done, CanBeDone};

    ghost Value = { GatedState };

    ghost view = { λ g. record {
      known = done g.pending g.sessions.known;
      base = g.sessions.known;
      pending = g.pending;
    } };

    ghost invariant = { λ g. CanBeDone g.pending g.sessions };
}

// A command that has passed the gate counts as carried out.
#[inline(always)]
fn pass(sessions: &mut Sessions, stamp: &Stamp, tag: Option<u32>)
    requires { HasPlaceFor stamp.now.session sessions.old }

    ensures known { sessions.new.known ≡ passed stamp.now tag sessions.old.known }
    ensures session { sessions.new.room.session ≡ sessions.old.room.session }
{
    sessions.admit(stamp);
    if let Some(tag) = tag {
        sessions.take_tag(stamp.session, tag);
    }
}

// Does what is to be done, whose answer moves to the sessions.
#[inline(always)]
fn perform(sessions: &mut Sessions, pending: &mut Pending)
    requires { CanBeDone pending.old sessions.old }

    ensures { sessions.new.known ≡ done pending.old sessions.old.known }
{
    match pending {
        Pending::Nothing => {}
        Pending::TurnedAway(stamp) => sessions.advance(stamp),
        Pending::Passed { stamp, tag } => pass(sessions, stamp, *tag),
        Pending::Answered { stamp, tag, answer } => {
            pass(sessions, stamp, *tag);
            sessions.keep(stamp, mem::replace(answer, Answer::Done));
        }
        Pending::Ended(session) => sessions.end(*session),
    }
}

// Takes the memory for what is to be done.
fn make_room(alloc: Global, sessions: &mut Sessions, pending: &Pending) -> Result<(), Memory>
    ensures same { sessions.new.known ≡ sessions.old.known }
    ensures ok { OnOk result (CanBeDone pending.now sessions.new) }
    ensures want { IsOkUnless result Memory.Want }
{
    match pending {
        Pending::Passed { stamp, .. } => sessions.reserve(alloc, stamp.session),
        Pending::Answered { stamp, .. } => sessions.reserve(alloc, stamp.session),
        Pending::Ended(session) => sessions.reserve(alloc, *session),
        Pending::Nothing => Ok(()),
        Pending::TurnedAway(_) => Ok(()),
    }
}

impl Gated {
    /// No sessions. It takes no memory.
    pub fn new(alloc: Global) -> Self
        ensures known { result.known ≡ no_sessions }
        ensures base { result.base ≡ no_sessions }
        ensures pending { result.pending ≡ Nothing }
    {
        Gated {
            sessions: Sessions::new(alloc),
            pending: Pending::Nothing,
        }
    }

    /// These sessions. It takes no memory.
    pub fn from_sessions(sessions: Sessions) -> Self
        ensures known { result.known ≡ sessions.known }
        ensures base { result.base ≡ sessions.known }
        ensures pending { result.pending ≡ Nothing }
    {
        Gated {
            sessions,
            pending: Pending::Nothing,
        }
    }

    /// The sessions as they were at the last `commit`.
    pub fn sessions(&self) -> &Sessions
        ensures { result.now.known ≡ self.now.base }
    {
        &self.sessions
    }

    /// What becomes of a stamped command. It takes memory only for an answer that is told again.
    pub fn check(&self, alloc: Global, stamp: &Stamp) -> Result<Gate, Memory>
        ensures ok { IfOk result (λ passed. passed ≡ gate self.now.base stamp.now) }
        ensures want { IsOkUnless result Memory.Want }
    {
        self.sessions.check(alloc, stamp)
    }

    fn passed_by(&self) -> Option<Stamp>
        ensures { result ≡ passed_by self.now.pending }
    {
        match &self.pending {
            Pending::Passed { stamp, .. } => Some(*stamp),
            _ => None,
        }
    }

    /// The greatest tag of the consumers of the session whose command has passed the gate, 0 where it had
    /// none.
    pub fn greatest_tag(&self, stamp: &Stamp) -> u32
        requires { self.now.pending ≡ begun (Some stamp.now) }

        ensures { result ≡ greatest_tag stamp.now.session self.now.known }
    {
        self.sessions.greatest_tag(stamp.session)
    }

    /// The low mark of a command that isn't carried out will be taken over.
    pub fn turn_away(&mut self, stamp: Stamp)
        requires { self.old.pending ≡ Nothing }

        ensures known { self.new.known ≡ turn_away self.old.known stamp }
        ensures base { self.new.base ≡ self.old.base }
    {
        self.pending = Pending::TurnedAway(stamp);
    }

    /// The number of a command that has passed the gate will be used, and its answer kept, for which memory
    /// is taken now. `Memory::Want` comes too where a number of the session is at the end of 64 bits.
    pub fn admit(&mut self, alloc: Global, stamp: Stamp) -> Result<(), Memory>
        requires { self.old.pending ≡ Nothing }

        ensures ok { OnOk result (self.new.known ≡ admit self.old.known stamp) }
        ensures pending { OnOk result (self.new.pending ≡ begun (Some stamp)) }
        ensures base { self.new.base ≡ self.old.base }
        ensures want { IsOkUnless result Memory.Want }
    {
        self.sessions.reserve(alloc, stamp.session)?;
        self.pending = Pending::Passed { stamp, tag: None };
        Ok(())
    }

    /// The greatest tag of the consumers of the session whose command has passed the gate will be this.
    pub fn take_tag(&mut self, stamp: Stamp, tag: u32)
        requires { self.old.pending ≡ begun (Some stamp) }

        ensures known { self.new.known ≡ take_tag stamp.session tag self.old.known }
        ensures passed { passed_by self.new.pending ≡ passed_by self.old.pending }
        ensures base { self.new.base ≡ self.old.base }
    {
        self.pending = Pending::Passed {
            stamp,
            tag: Some(tag),
        };
    }

    /// The answer of a command that has passed the gate will be kept.
    pub fn keep(&mut self, stamp: Stamp, answer: Answer)
        requires { passed_by self.old.pending ≡ Some stamp }

        ensures known { self.new.known ≡ keep_answer stamp answer self.old.known }
        ensures base { self.new.base ≡ self.old.base }
    {
        let tag = self.tag();
        self.pending = Pending::Answered { stamp, tag, answer };
    }

    fn tag(&self) -> Option<u32>
        ensures { IsTagOf result self.now.pending }
    {
        match &self.pending {
            Pending::Passed { tag, .. } => *tag,
            _ => None,
        }
    }

    /// A session will end, for which memory is taken now. `Memory::Want` comes too where a number of the
    /// session is at the end of 64 bits.
    pub fn end(&mut self, alloc: Global, session: SessionId) -> Result<(), Memory>
        requires { self.old.pending ≡ Nothing }

        ensures ok { OnOk result (self.new.known ≡ end_session self.old.known session) }
        ensures passed { passed_by self.new.pending ≡ passed_by self.old.pending }
        ensures base { self.new.base ≡ self.old.base }
        ensures want { IsOkUnless result Memory.Want }
    {
        self.sessions.reserve(alloc, session)?;
        self.pending = Pending::Ended(session);
        Ok(())
    }

    /// Whether no number of an open session has passed its end. It goes through a copy of the sessions.
    pub fn are_within(&self, alloc: Global) -> Result<bool, Memory>
        ensures ok { IfOk result (λ within.
            within ≡ list_all is_session_within self.now.known.opened) }
        ensures want { IsOkUnless result Memory.Want }
    {
        let (mut twin, mut pending) = both(self.sessions.copy(alloc), self.pending.copy(alloc))?;
        if let Err(cause) = make_room(alloc, &mut twin, &pending) {
            drop(twin);
            drop(pending);
            return Err(cause);
        }
        perform(&mut twin, &mut pending);
        let within = twin.are_within();
        drop(twin);
        drop(pending);
        Ok(within)
    }

    /// What is to be done is done. It takes no memory.
    pub fn commit(&mut self)
        ensures known { self.new.known ≡ self.old.known }
        ensures base { self.new.base ≡ self.old.known }
        ensures pending { self.new.pending ≡ Nothing }
    {
        perform(&mut self.sessions, &mut self.pending);
        self.pending = Pending::Nothing;
    }

    /// The sessions are as they were at the last `commit`. It takes no memory.
    pub fn undo(&mut self)
        ensures known { self.new.known ≡ self.old.base }
        ensures base { self.new.base ≡ self.old.base }
        ensures pending { self.new.pending ≡ Nothing }
    {
        self.pending = Pending::Nothing;
    }

    /// The same sessions, as they were at the last `commit`.
    pub fn copy(&self, alloc: Global) -> Result<Self, Memory>
        ensures known { IfOk result (λ twin. twin.known ≡ self.now.base) }
        ensures base { IfOk result (λ twin. twin.base ≡ self.now.base) }
        ensures pending { IfOk result (λ twin. twin.pending ≡ Nothing) }
        ensures want { IsOkUnless result Memory.Want }
    {
        Ok(Gated {
            sessions: self.sessions.copy(alloc)?,
            pending: Pending::Nothing,
        })
    }
}
