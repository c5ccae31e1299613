ghost use Rattle.std.specs.Prelude.{◌≡◌, ◌+◌, ◌<◌, ◌^◌, ◌∷◌, ◌++◌, [], false, not, filter, map, length, fold, slice_get, Some, None, IfOk, IsOkUnless, OnOk};
ghost use Rattle.std.specs.List.{list_all, AllByRecursion};
ghost use Rattle.std.specs.Option.{option_copied, option_map};
ghost use Rattle.qq_base.specs.Ids.{same_session};
ghost use Rattle.qq_model.specs.State.{is_session_within};
ghost use Rattle.qq_model.specs.Gate.{session_of, is_open, change_session, raise_mark, use_number, add_answer, set_tag, new_session, is_giving_way};
ghost use Rattle.qq_live.specs.Indices.{Removes, HasRoomFor};
ghost use Rattle.qq_sessions.specs.Row.{open_of};
ghost use Rattle.qq_sessions.specs.Opened.{AreApart};
ghost use Rattle.qq_sessions.specs.Known.{next_by};
ghost use Rattle.qq_sessions.specs.KeptLow.{low_of_session};
ghost use Rattle.qq_sessions.specs.Named.{kept_indices, HoldsKept};

use crate::answers::{got_index, let_go_first, push_answers};
use crate::opened::{Opened, is_giving_way};
use crate::row::{SessionRow, done_count};
use qq_base::{Index, Memory, SessionId};
use qq_entry::{Answer, Stamp};
use qq_live::Live;
use std::alloc::Global;
use std::marker::Model;

/// The open sessions, and beside them the messages that their kept answers name, so that the least index
/// of these costs no scan.
#[derive(Drop)]
pub struct OpenSessions {
    opened: Opened,
    // Each index as often as kept answers name it.
    named: Live,
}

impl Model for OpenSessions {
    ghost use Rattle.qq_sessions.specs.Opened.{OpenedState};
    ghost use Rattle.qq_sessions.specs.Named.{AreNamed};

    ghost Value = { OpenedState };

    ghost view = { λ o. o.opened };

    ghost invariant = { λ o. AreNamed o.opened o.named };
}

// The messages that kept answers name.
fn named_of(alloc: Global, opened: &Opened) -> Result<Live, Memory>
    ensures ok { IfOk result (λ live. HoldsKept live.indices opened.now.rows) }
    ensures want { IsOkUnless result Memory.Want }
{
    let mut indices = Vec::new(alloc);
    'rows: for place in 0..opened.len() {
        push_answers(&opened.row(place).kept, &mut indices)?;
    }
    let live = Live::from_indices(alloc, indices)?;
    Ok(live)
}

// An answer is about to be kept.
fn hold_answer(opened: &Opened, named: &mut Live, session: SessionId, answer: &Answer)
    requires held { HoldsKept named.old.indices opened.now.rows }
    requires room { HasRoomFor 1 named.old }

    ensures { HoldsKept named.new.indices
        (change_session session (add_answer answer.now) opened.now.rows) }
{
    let index = match got_index(answer) {
        None => return,
        Some(index) => index,
    };
    match opened.session_of(session) {
        None => {}
        Some(_) => named.add(index),
    }
}

// The answers up to a stamp's low mark are about to be forgotten.
#[inline(always)]
fn let_go_done(opened: &Opened, named: &mut Live, stamp: &Stamp)
    requires held { HoldsKept named.old.indices opened.now.rows }

    ensures held { HoldsKept named.new.indices
        (change_session stamp.now.session (raise_mark stamp.now) opened.now.rows) }
    ensures room { HasRoomFor 1 named.old → HasRoomFor 1 named.new }
{
    // Mostly no kept answer names a message.
    if named.len() == 0 {
        return;
    }
    match opened.session_of(stamp.session) {
        None => {}
        Some(row) => let_go_first(named, &row.kept, done_count(stamp, row)),
    }
}

// All answers of a session are about to be forgotten.
fn let_go_all(named: &mut Live, row: &SessionRow)
    ensures named { Removes (kept_indices (open_of row.now ∷ []))
        named.old.indices named.new.indices }
    ensures room { HasRoomFor 1 named.old → HasRoomFor 1 named.new }
{
    let_go_first(named, &row.kept, row.kept.len() as u64);
}

// A session is about to end.
fn let_go_session(opened: &Opened, named: &mut Live, session: SessionId)
    ensures named { Removes (kept_indices
        (filter (λ one. same_session one.session session) opened.now.rows))
        named.old.indices named.new.indices }
    ensures room { HasRoomFor 1 named.old → HasRoomFor 1 named.new }
{
    match opened.session_of(session) {
        None => {}
        Some(row) => let_go_all(named, row),
    }
}

fn let_go_if_earlier(named: &mut Live, session: SessionId, row: &SessionRow)
    ensures named { Removes (kept_indices
        (filter (is_giving_way session) (open_of row.now ∷ [])))
        named.old.indices named.new.indices }
    ensures room { HasRoomFor 1 named.old → HasRoomFor 1 named.new }
{
    if is_giving_way(session, row) {
        let_go_all(named, row);
    }
}

// The sessions that give way to another are about to end.
fn let_go_earlier(opened: &Opened, named: &mut Live, session: SessionId, ends_earlier: bool)
    requires { ends_earlier ≡ false
        → AllByRecursion (λ one. is_giving_way session one ≡ false) opened.now.rows }

    ensures named { Removes (kept_indices (filter (is_giving_way session) opened.now.rows))
        named.old.indices named.new.indices }
    ensures room { HasRoomFor 1 named.old → HasRoomFor 1 named.new }
{
    if !ends_earlier {
        return;
    }
    'rows: for place in 0..opened.len() {
        let_go_if_earlier(named, session, opened.row(place));
    }
}

impl OpenSessions {
    /// No sessions. It takes no memory.
    pub fn new(alloc: Global) -> Self
        ensures { result.rows ≡ [] }
    {
        OpenSessions {
            opened: Opened::new(alloc),
            named: Live::new(alloc),
        }
    }

    /// How many are open.
    pub fn len(&self) -> usize
        ensures { result ≡ length self.now.rows }
    {
        self.opened.len()
    }

    /// The row at a place, in the order of opening. None exactly where there is none.
    pub fn row_at(&self, place: usize) -> Option<&SessionRow>
        ensures { option_map open_of (option_copied result) ≡ slice_get self.now.rows place }
    {
        self.opened.row_at(place)
    }

    /// The row of a session. None exactly where it isn't open.
    pub fn session_of(&self, session: SessionId) -> Option<&SessionRow>
        ensures { option_map open_of (option_copied result) ≡ session_of session self.now.rows }
    {
        self.opened.session_of(session)
    }

    /// Whether a session is open.
    pub fn is_open(&self, session: SessionId) -> bool
        ensures { result ≡ is_open session self.now.rows }
    {
        self.opened.is_open(session)
    }

    /// Makes room for a session to be opened, or else for one more answer. `Memory::Want` comes too where
    /// the session's next number is at the end of 64 bits. After an error there may be room for no session.
    #[inline(always)]
    pub fn reserve(&mut self, alloc: Global, session: SessionId) -> Result<(), Memory>
        ensures same { self.new.rows ≡ self.old.rows }
        ensures ok { OnOk result (self.new.room ≡ Some session) }
        ensures count { OnOk result (next_by (session_of session self.new.rows) + 1 < 2 ^ 64) }
        ensures want { IsOkUnless result Memory.Want }
    {
        self.opened.give_up_room();
        self.named.reserve(1)?;
        self.opened.reserve(alloc, session)?;
        Ok(())
    }

    /// Takes over a stamp's low mark.
    pub fn raise_mark(&mut self, stamp: &Stamp)
        ensures rows { self.new.rows
            ≡ change_session stamp.now.session (raise_mark stamp.now) self.old.rows }
        ensures room { self.new.room ≡ self.old.room }
    {
        let_go_done(&self.opened, &mut self.named, stamp);
        self.opened.raise_mark(stamp);
    }

    /// Uses a number of a session. False exactly where it isn't open; then nothing changes.
    #[inline(always)]
    pub fn use_number(&mut self, stamp: &Stamp) -> bool
        requires { next_by (session_of stamp.now.session self.old.rows) + 1 < 2 ^ 64 }

        ensures value { result ≡ is_open stamp.now.session self.old.rows }
        ensures rows { self.new.rows
            ≡ change_session stamp.now.session (use_number stamp.now) self.old.rows }
        ensures still { result ≡ false → self.new.rows ≡ self.old.rows }
        ensures room { self.new.room ≡ self.old.room }
    {
        let_go_done(&self.opened, &mut self.named, stamp);
        self.opened.use_number(stamp)
    }

    /// Sets the greatest tag of a session's consumers.
    pub fn set_tag(&mut self, session: SessionId, tag: u32)
        ensures rows { self.new.rows ≡ change_session session (set_tag tag) self.old.rows }
        ensures room { self.new.room ≡ self.old.room }
    {
        self.opened.set_tag(session, tag);
    }

    /// Keeps an answer, for which there has to be room.
    pub fn add_answer(&mut self, session: SessionId, answer: Answer)
        requires { self.old.room ≡ Some session }

        ensures { self.new.rows ≡ change_session session (add_answer answer) self.old.rows }
    {
        hold_answer(&self.opened, &mut self.named, session, &answer);
        self.opened.add_answer(session, answer);
    }

    /// Opens a session that isn't open. It ends those that give way to it, which `ends_earlier` may rule out.
    pub fn open_session(&mut self, stamp: &Stamp, ends_earlier: bool)
        requires room { self.old.room ≡ Some stamp.now.session }
        requires closed { is_open stamp.now.session self.old.rows ≡ false }
        requires alone { ends_earlier ≡ false
            → AllByRecursion (λ one. is_giving_way stamp.now.session one ≡ false) self.old.rows }

        ensures rows { self.new.rows
            ≡ filter (λ one. not (is_giving_way stamp.now.session one)) self.old.rows
            ++ new_session stamp.now ∷ [] }
        ensures room { self.new.room ≡ self.old.room }
    {
        let_go_earlier(&self.opened, &mut self.named, stamp.session, ends_earlier);
        self.opened.open_session(stamp, ends_earlier);
    }

    /// Removes a session.
    pub fn remove(&mut self, session: SessionId)
        ensures { self.new.rows
            ≡ filter (λ one. not (same_session one.session session)) self.old.rows }
    {
        let_go_session(&self.opened, &mut self.named, session);
        self.opened.remove(session);
    }

    /// The same sessions.
    pub fn copy(&self, alloc: Global) -> Result<OpenSessions, Memory>
        ensures ok { IfOk result (λ twin. twin.rows ≡ self.now.rows) }
        ensures want { IsOkUnless result Memory.Want }
    {
        let named = self.named.copy(alloc)?;
        let opened = self.opened.copy(alloc)?;
        Ok(OpenSessions { opened, named })
    }

    /// The sessions of these rows, each of which has an id of its own.
    pub fn from_rows(alloc: Global, rows: Vec<SessionRow>) -> Result<OpenSessions, Memory>
        requires { AreApart (map open_of rows.items) }

        ensures ok { IfOk result (λ opened. opened.rows ≡ map open_of rows.items) }
        ensures want { IsOkUnless result Memory.Want }
    {
        let opened = Opened::from_rows(alloc, rows)?;
        let named = named_of(alloc, &opened)?;
        Ok(OpenSessions { opened, named })
    }

    /// Whether no number of a session has passed its end.
    pub fn are_within(&self) -> bool
        ensures { result ≡ list_all is_session_within self.now.rows }
    {
        self.opened.are_within()
    }

    /// The least index of a message that a kept answer names.
    pub fn kept_low(&self) -> Option<Index>
        ensures { option_map (λ index. index.0) result
            ≡ fold low_of_session None self.now.rows }
    {
        self.named.low()
    }
}
