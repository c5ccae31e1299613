ghost use Rattle.std.specs.Prelude.{◌≡◌, ◌+◌, ◌<◌, ◌≤◌, ◌^◌, ℕ, [], ◌&&◌, map, length, slice_get, false, Some, None, IfOk, IsOkUnless, OnOk};
ghost use Rattle.std.specs.Bool.{OnTrue};
ghost use Rattle.std.specs.List.{list_all};
ghost use Rattle.std.specs.Option.{option_copied, option_map};
ghost use Rattle.qq_model.specs.State.{Sessions, is_session_within};
ghost use Rattle.qq_model.specs.Gate.{is_ended, gate_unknown, gate, turn_away, open_session, admit, keep_answer, greatest_tag, take_tag, end_session, session_of, is_open, is_worker};
ghost use Rattle.qq_sessions.specs.Row.{open_of};
ghost use Rattle.qq_sessions.specs.Rising.{Rises, number_key, owner_key, has_owner};
ghost use Rattle.qq_sessions.specs.Opened.{AreApart, HaveOwners};
ghost use Rattle.qq_sessions.specs.Known.{no_sessions, HasRoomFor, CanCount, next_by};
ghost use Rattle.qq_sessions.specs.KeptLow.{kept_low};

use crate::ended::Ended;
use crate::open_sessions::OpenSessions;
use crate::row::{SessionRow, gate_number};
use crate::workers::Workers;
use qq_base::{CLIENT, DEAD_LETTER, Index, Memory, SessionId, WORKER};
use qq_entry::{Answer, Stamp};
use qq_model::{Gate, MOST_OPEN, MOST_SEEN, Worker};
use std::alloc::Global;
use std::marker::Model;

/// What a queue knows of sessions.
///
/// Contracts see the definition's `Sessions`, and for what there is memory. A check looks an id up by its
/// hash, and an ended session by binary search. The least index that a kept answer names costs no scan.
#[derive(Drop)]
pub struct Sessions {
    opened: OpenSessions,
    ended: Ended,
    workers: Workers,
    seen: u64,
}

impl Model for Sessions {
    ghost use Rattle.qq_sessions.specs.Known.{KnownSessions};
    ghost use Rattle.qq_sessions.specs.Opened.{HaveOwners};

    ghost Value = { KnownSessions };

    ghost view = { λ s. record {
      known = record {
        opened = s.opened.rows;
        ended = s.ended.numbers;
        workers = s.workers.workers;
        seen = s.seen;
      };
      room = record { session = s.opened.room; workers = s.workers.room; ends = s.ended.room };
    } };

    ghost invariant = { λ s. HaveOwners s.opened.rows s.workers.workers };
}

impl Sessions {
    /// A queue that has seen no session. It takes no memory.
    pub fn new(alloc: Global) -> Self
        ensures { result.known ≡ no_sessions }
    {
        Sessions {
            opened: OpenSessions::new(alloc),
            ended: Ended::new(alloc),
            workers: Workers::new(alloc),
            seen: 0,
        }
    }

    /// Sessions with these rows, in the order of opening, ended clients by rising number, workers by
    /// rising owner, and so many seen. Each open worker's session has its owner among the workers. A
    /// refusal gives the parts up.
    pub fn from_parts(
        alloc: Global,
        rows: Vec<SessionRow>,
        ended: Vec<u64>,
        workers: Vec<Worker>,
        seen: u64,
    ) -> Result<Self, Memory>
        requires apart { AreApart (map open_of rows.items) }
        requires ended { Rises number_key ended.items }
        requires workers { Rises owner_key workers.items }
        requires owners { HaveOwners (map open_of rows.items) workers.items }

        ensures ok { IfOk result (λ s. s.known ≡ record {
          opened = map open_of rows.items;
          ended = ended.items;
          workers = workers.items;
          seen = seen;
        }) }
        ensures want { IsOkUnless result Memory.Want }
    {
        Ok(Sessions {
            opened: OpenSessions::from_rows(alloc, rows)?,
            ended: Ended::from_vec(ended),
            workers: Workers::from_vec(workers),
            seen,
        })
    }

    /// The row of an open session by its place in the order of opening. None exactly where there is none.
    pub fn row_at(&self, place: usize) -> Option<&SessionRow>
        ensures { option_map open_of (option_copied result)
            ≡ slice_get self.now.known.opened place }
    {
        self.opened.row_at(place)
    }

    /// The number of an ended client by its place in their rising order. None exactly where there is none.
    pub fn ended_at(&self, place: usize) -> Option<u64>
        ensures { result ≡ slice_get self.now.known.ended place }
    {
        self.ended.at(place)
    }

    /// A worker by its place in the rising order of owners. None exactly where there is none.
    pub fn worker_at(&self, place: usize) -> Option<Worker>
        ensures { result ≡ slice_get self.now.known.workers place }
    {
        self.workers.at(place)
    }

    /// How many sessions were ever seen.
    pub fn seen(&self) -> u64
        ensures { result ≡ self.now.known.seen }
    {
        self.seen
    }

    /// The greatest tag of a session's consumers, 0 where it had none.
    pub fn greatest_tag(&self, session: SessionId) -> u32
        ensures { result ≡ greatest_tag session self.now.known }
    {
        match self.opened.session_of(session) {
            None => 0,
            Some(row) => row.tag,
        }
    }

    #[inline(always)]
    fn is_ended(&self, session: SessionId) -> bool
        ensures { result ≡ is_ended self.now.known session }
    {
        (session.class == CLIENT && self.ended.contains(session.number))
            || (session.class == WORKER
                && self
                    .workers
                    .is_superseded(session, self.opened.is_open(session)))
    }

    fn gate_unknown(&self, stamp: &Stamp) -> Gate
        ensures { result ≡ gate_unknown self.now.known stamp.now }
    {
        if stamp.seq != 1 {
            return Gate::Gap { next: 1 };
        }
        if MOST_OPEN <= self.opened.len() as u64 || MOST_SEEN <= self.seen {
            return Gate::SessionsFull;
        }
        Gate::Fresh
    }

    /// What becomes of a stamped command. It takes memory only for an answer that is told again.
    #[tactic(auto, unfolding(qq_model::specs::Gate::gate))]
    #[inline(always)]
    pub fn check(&self, alloc: Global, stamp: &Stamp) -> Result<Gate, Memory>
        ensures ok { IfOk result (λ passed. passed ≡ gate self.now.known stamp.now) }
        ensures want { IsOkUnless result Memory.Want }
    {
        if stamp.session.class == DEAD_LETTER {
            return Ok(Gate::Fresh);
        }
        if self.is_ended(stamp.session) {
            return Ok(Gate::Ended);
        }
        match self.opened.session_of(stamp.session) {
            None => Ok(self.gate_unknown(stamp)),
            Some(row) => gate_number(alloc, stamp, row),
        }
    }

    /// Makes room for the next admission, answer and end of a session. `Memory::Want` comes too where a
    /// number of the session is at the end of 64 bits. After an error there may be room for less than before.
    #[inline(always)]
    pub fn reserve(&mut self, alloc: Global, session: SessionId) -> Result<(), Memory>
        ensures same { self.new.known ≡ self.old.known }
        ensures room { OnOk result (HasRoomFor session self.new.room) }
        ensures counts { OnOk result (CanCount session self.new.known) }
        ensures want { IsOkUnless result Memory.Want }
    {
        if self.seen == u64::MAX {
            return Err(Memory::Want);
        }
        self.ended.reserve()?;
        self.workers.reserve()?;
        self.opened.reserve(alloc, session)?;
        Ok(())
    }

    /// Takes over the low mark of a command that isn't carried out.
    #[tactic(auto, unfolding(qq_model::specs::Gate::turn_away))]
    pub fn advance(&mut self, stamp: &Stamp)
        ensures known { self.new.known ≡ turn_away self.old.known stamp.now }
        ensures room { self.new.room ≡ self.old.room }
    {
        if self.is_ended(stamp.session) {
            return;
        }
        self.opened.raise_mark(stamp);
    }

    fn may_end_earlier(&self, session: SessionId) -> bool
        ensures { result
            ≡ (is_worker session && has_owner session.owner self.now.known.workers) }
    {
        session.class == WORKER && self.workers.has_owner(session.owner)
    }

    fn open_session(&mut self, stamp: &Stamp)
        requires room { HasRoomFor stamp.now.session self.old.room }
        requires closed { is_open stamp.now.session self.old.known.opened ≡ false }
        requires seen { self.old.known.seen + 1 < 2 ^ 64 }

        ensures known { self.new.known ≡ open_session self.old.known stamp.now }
        ensures session { self.new.room.session ≡ self.old.room.session }
        ensures ends { self.new.room.ends ≡ self.old.room.ends }
    {
        let ends_earlier = self.may_end_earlier(stamp.session);
        self.opened.open_session(stamp, ends_earlier);
        self.seen += 1;
        if stamp.session.class == WORKER {
            self.workers.put(Worker {
                owner: stamp.session.owner,
                number: stamp.session.number,
            });
        }
    }

    /// Uses the number of a command that has passed the gate. There has to be room. The room for its
    /// answer stays, and that for an end.
    #[tactic(auto, unfolding(qq_model::specs::Gate::admit))]
    #[inline(always)]
    pub fn admit(&mut self, stamp: &Stamp)
        requires room { HasRoomFor stamp.now.session self.old.room }
        requires counts { CanCount stamp.now.session self.old.known }

        ensures known { self.new.known ≡ admit self.old.known stamp.now }
        ensures session { self.new.room.session ≡ self.old.room.session }
        ensures ends { self.new.room.ends ≡ self.old.room.ends }
    {
        if stamp.session.class == DEAD_LETTER {
            return;
        }
        if self.opened.use_number(stamp) {
            return;
        }
        self.open_session(stamp);
    }

    /// Keeps the answer of a command that has passed the gate. There has to be room.
    #[tactic(auto, unfolding(qq_model::specs::Gate::keep_answer))]
    #[inline(always)]
    pub fn keep(&mut self, stamp: &Stamp, answer: Answer)
        requires { self.old.room.session ≡ Some stamp.now.session }

        ensures known { self.new.known ≡ keep_answer stamp.now answer self.old.known }
        ensures workers { self.new.room.workers ≡ self.old.room.workers }
        ensures ends { self.new.room.ends ≡ self.old.room.ends }
    {
        self.opened.add_answer(stamp.session, answer);
    }

    /// Raises the greatest tag of a session's consumers.
    #[tactic(auto, unfolding(qq_model::specs::Gate::take_tag))]
    pub fn take_tag(&mut self, session: SessionId, tag: u32)
        ensures known { self.new.known ≡ take_tag session tag self.old.known }
        ensures room { self.new.room ≡ self.old.room }
    {
        self.opened.set_tag(session, tag);
    }

    /// Ends a session. There has to be room. It may move memory.
    #[tactic(auto, unfolding(qq_model::specs::Gate::end_session))]
    pub fn end(&mut self, session: SessionId)
        requires { 0 < self.old.room.ends }

        ensures known { self.new.known ≡ end_session self.old.known session }
        ensures workers { self.new.room.workers ≡ self.old.room.workers }
    {
        if self.opened.is_open(session) {
            self.opened.remove(session);
            if session.class == CLIENT {
                self.ended.put(session.number);
            }
            return;
        }
        if session.class == CLIENT && !self.is_ended(session) && self.seen < MOST_SEEN {
            self.ended.put(session.number);
            self.seen += 1;
        }
    }

    /// The least index of a message that a kept answer names. None exactly where none does.
    pub fn kept_low(&self) -> Option<Index>
        ensures { option_map (λ index. index.0) result ≡ kept_low self.now.known }
    {
        self.opened.kept_low()
    }

    /// Whether no number of an open session has passed its end.
    pub fn are_within(&self) -> bool
        ensures { result ≡ list_all is_session_within self.now.known.opened }
    {
        self.opened.are_within()
    }

    /// The same sessions.
    pub fn copy(&self, alloc: Global) -> Result<Self, Memory>
        ensures ok { IfOk result (λ twin. twin.known ≡ self.now.known) }
        ensures want { IsOkUnless result Memory.Want }
    {
        // What owns most is made last, so that little is alive where a copy fails.
        let ended = self.ended.copy(alloc)?;
        let workers = self.workers.copy(alloc)?;
        Ok(Sessions {
            opened: self.opened.copy(alloc)?,
            ended,
            workers,
            seen: self.seen,
        })
    }
}
