ghost use Rattle.std.specs.Prelude.{◌≡◌, ◌+◌, ◌<◌, ◌≤◌, ◌^◌, ◌∷◌, ◌++◌, [], true, false, not, filter, map, length, slice_get, is_some, IfSome, Some, None, IfOk, IsOkUnless, OnOk};
ghost use Rattle.std.specs.List.{list_all, AllByRecursion};
ghost use Rattle.std.specs.Option.{option_copied, option_map};
ghost use Rattle.indexmap.specs.IndexMap.{get, spare, IsUnique};
ghost use Rattle.qq_base.specs.Ids.{same_session};
ghost use Rattle.qq_model.specs.State.{is_session_within};
ghost use Rattle.qq_model.specs.Gate.{session_of, is_open, change_session, raise_mark, use_number, add_answer, set_tag, new_session, is_giving_way};
ghost use Rattle.qq_sessions.specs.Row.{open_of};
ghost use Rattle.qq_sessions.specs.Opened.{AreApart, IsReady, sessions_of};
ghost use Rattle.qq_sessions.specs.Known.{next_by};

use crate::row::{
    Kepts, SessionRow, add_answer, copy_row, new_session, raise_mark, reserve_slot, set_tag,
    use_number,
};
use indexmap::IndexMap;
use qq_base::{Memory, NUMBER_END, SessionId, WORKER};
use qq_entry::{Answer, Stamp};
use std::alloc::Global;
use std::collections::VecDeque;
use std::marker::Model;

/// How many answers a new session has room for.
const FIRST_ANSWERS: usize = 4;

// A session's place, and its row: at `near`, or where its id's hash leads.
fn find(
    rows: &IndexMap<SessionId, SessionRow>,
    near: usize,
    session: SessionId,
) -> Option<(usize, &SessionRow)>
    ensures row { option_map (λ p. p.1.now) result ≡ get same_session rows.now session }
    ensures place { IfSome result
        (λ p. slice_get rows.now.entries p.0 ≡ Some (session, p.1.now)) }
{
    if let Some((id, row)) = rows.get_index(near) {
        if *id == session {
            return Some((near, row));
        }
    }
    let (place, _, row) = rows.get_full(&session)?;
    Some((place, row))
}

/// The open sessions, in the order of their opening.
#[derive(Drop)]
pub struct Opened {
    rows: IndexMap<SessionId, SessionRow>,
    // An empty list of answers for the next session.
    at_hand: Option<Kepts>,
    room: Option<SessionId>,
    // Where the session stood for which there was room last: one step asks for it several times.
    near: usize,
}

impl Model for Opened {
    ghost use Rattle.std.specs.Prelude.{is_some, IfSome};
    ghost use Rattle.indexmap.specs.IndexMap.{spare};
    ghost use Rattle.qq_sessions.specs.Opened.{OpenedState, AreHeld, IsReady, sessions_of};

    ghost Value = { OpenedState };

    ghost view = { λ o. record { rows = sessions_of o.rows.entries; room = o.room } };

    ghost invariant = { λ o. AreHeld o.rows.entries (spare o.rows) (is_some o.at_hand) o.room
        × IfSome o.at_hand IsReady };
}

impl Opened {
    /// No sessions. It takes no memory.
    pub fn new(alloc: Global) -> Self
        ensures rows { result.rows ≡ [] }
        ensures room { result.room ≡ None }
    {
        Opened {
            rows: IndexMap::new(alloc),
            at_hand: None,
            room: None,
            near: 0,
        }
    }

    /// How many are open.
    pub fn len(&self) -> usize
        ensures len { result ≡ length self.now.rows }
        ensures apart { AreApart self.now.rows }
    {
        self.rows.len()
    }

    /// The row at a place, in the order of opening. None exactly where there is none.
    pub fn row_at(&self, place: usize) -> Option<&SessionRow>
        ensures { option_map open_of (option_copied result) ≡ slice_get self.now.rows place }
    {
        match self.rows.get_index(place) {
            None => None,
            Some((_, row)) => Some(row),
        }
    }

    /// The row at a place, which has to be there.
    pub fn row(&self, place: usize) -> &SessionRow
        requires { place < length self.now.rows }

        ensures { slice_get self.now.rows place ≡ Some (open_of result.now) }
    {
        match self.row_at(place) {
            Some(row) => row,
            None => unreachable!(),
        }
    }

    /// The row of a session. None exactly where it isn't open.
    pub fn session_of(&self, session: SessionId) -> Option<&SessionRow>
        ensures one { option_map open_of (option_copied result)
            ≡ session_of session self.now.rows }
        ensures apart { AreApart self.now.rows }
    {
        match find(&self.rows, self.near, session) {
            None => None,
            Some((_, row)) => Some(row),
        }
    }

    /// Whether a session is open.
    pub fn is_open(&self, session: SessionId) -> bool
        ensures { result ≡ is_open session self.now.rows }
    {
        find(&self.rows, self.near, session).is_some()
    }

    /// Makes room for a session to be opened, or else for one more answer. `Memory::Want` comes too where
    /// the session's next number is at the end of 64 bits. After an error there may be room for no session.
    #[inline(always)]
    pub fn reserve(&mut self, alloc: Global, session: SessionId) -> Result<(), Memory>
        ensures same { self.new.rows ≡ self.old.rows }
        ensures ok { OnOk result (self.new.room ≡ Some session) }
        ensures count { OnOk result (next_by (session_of session self.new.rows) + 1 < 2 ^ 64) }
        ensures want { IsOkUnless result Memory.Want }
    {
        self.room = None;
        self.rows.reserve(1)?;
        hold_ready(alloc, &mut self.at_hand)?;
        let Some((place, row)) = find(&self.rows, self.near, session) else {
            self.room = Some(session);
            return Ok(());
        };
        let fits = row.next < u64::MAX;
        if !fits {
            return Err(Memory::Want);
        }
        self.near = place;
        let Some(row) = self.rows.get_index_mut(place) else {
            unreachable!()
        };
        reserve_slot(row)?;
        self.room = Some(session);
        Ok(())
    }

    /// From now on there is room for no session.
    pub fn give_up_room(&mut self)
        ensures rows { self.new.rows ≡ self.old.rows }
        ensures room { self.new.room ≡ None }
    {
        self.room = None;
    }

    /// Takes over a stamp's low mark.
    pub fn raise_mark(&mut self, stamp: &Stamp)
        ensures rows { self.new.rows
            ≡ change_session stamp.now.session (raise_mark stamp.now) self.old.rows }
        ensures room { self.new.room ≡ self.old.room }
    {
        let Some((place, _)) = find(&self.rows, self.near, stamp.session) else {
            return;
        };
        let Some(row) = self.rows.get_index_mut(place) else {
            unreachable!()
        };
        raise_mark(row, stamp);
    }

    /// Uses a number of a session. False exactly where it isn't open; then nothing changes.
    #[inline(always)]
    pub fn use_number(&mut self, stamp: &Stamp) -> bool
        requires { next_by (session_of stamp.now.session self.old.rows) + 1 < 2 ^ 64 }

        ensures value { result ≡ is_open stamp.now.session self.old.rows }
        ensures rows { self.new.rows
            ≡ change_session stamp.now.session (use_number stamp.now) self.old.rows }
        ensures still { result ≡ false → self.new.rows ≡ self.old.rows }
        ensures room { self.new.room ≡ self.old.room }
    {
        let Some((place, _)) = find(&self.rows, self.near, stamp.session) else {
            return false;
        };
        let Some(row) = self.rows.get_index_mut(place) else {
            unreachable!()
        };
        use_number(row, stamp);
        true
    }

    /// Sets the greatest tag of a session's consumers.
    pub fn set_tag(&mut self, session: SessionId, tag: u32)
        ensures rows { self.new.rows ≡ change_session session (set_tag tag) self.old.rows }
        ensures room { self.new.room ≡ self.old.room }
    {
        let Some((place, _)) = find(&self.rows, self.near, session) else {
            return;
        };
        let Some(row) = self.rows.get_index_mut(place) else {
            unreachable!()
        };
        set_tag(row, tag);
    }

    /// Keeps an answer, for which there has to be room.
    pub fn add_answer(&mut self, session: SessionId, answer: Answer)
        requires { self.old.room ≡ Some session }

        ensures rows { self.new.rows ≡ change_session session (add_answer answer) self.old.rows }
        ensures room { self.new.room ≡ None }
    {
        self.room = None;
        let Some((place, _)) = find(&self.rows, self.near, session) else {
            return;
        };
        let Some(row) = self.rows.get_index_mut(place) else {
            unreachable!()
        };
        add_answer(row, answer);
    }

    /// Opens a session that isn't open. It ends those that give way to it, which `ends_earlier` may rule out.
    pub fn open_session(&mut self, stamp: &Stamp, ends_earlier: bool)
        requires room { self.old.room ≡ Some stamp.now.session }
        requires closed { is_open stamp.now.session self.old.rows ≡ false }
        requires alone { ends_earlier ≡ false
            → AllByRecursion (λ one. is_giving_way stamp.now.session one ≡ false) self.old.rows }

        ensures rows { self.new.rows
            ≡ filter (λ one. not (is_giving_way stamp.now.session one)) self.old.rows
            ++ new_session stamp.now ∷ [] }
        ensures room { self.new.room ≡ self.old.room }
    {
        drop_earlier(&mut self.rows, stamp.session, ends_earlier);
        let kept = self.at_hand.take().unwrap();
        let row = new_session(stamp, kept);
        self.rows.insert(stamp.session, row).unwrap();
    }

    /// Removes a session.
    pub fn remove(&mut self, session: SessionId)
        ensures rows { self.new.rows
            ≡ filter (λ one. not (same_session one.session session)) self.old.rows }
        ensures room { self.new.room ≡ None }
    {
        self.room = None;
        self.rows.shift_remove(&session);
    }

    /// Adds a row whose session isn't open.
    pub fn push(&mut self, row: SessionRow) -> Result<(), Memory>
        requires { is_open row.session self.old.rows ≡ false }

        ensures ok { OnOk result (self.new.rows ≡ self.old.rows ++ open_of row ∷ []) }
        ensures room { self.new.room ≡ None }
        ensures want { IsOkUnless result Memory.Want }
    {
        self.room = None;
        self.rows.insert(row.session, row)?;
        Ok(())
    }

    // Puts a copy of each session behind none.
    fn copy_into(&self, alloc: Global, twin: &mut Opened) -> Result<(), Memory>
        requires rows { twin.old.rows ≡ [] }
        requires room { twin.old.room ≡ None }

        ensures rows { OnOk result (twin.new.rows ≡ self.now.rows) }
        ensures room { OnOk result (twin.new.room ≡ None) }
        ensures want { IsOkUnless result Memory.Want }
    {
        let len = self.len();
        twin.rows.reserve(len)?;
        'rows: for place in 0..len {
            twin.push(copy_row(alloc, self.row(place))?)?;
        }
        Ok(())
    }

    /// The same sessions.
    pub fn copy(&self, alloc: Global) -> Result<Opened, Memory>
        ensures ok { IfOk result (λ twin. twin.rows ≡ self.now.rows) }
        ensures room { IfOk result (λ twin. twin.room ≡ None) }
        ensures want { IsOkUnless result Memory.Want }
    {
        let mut twin = Opened::new(alloc);
        self.copy_into(alloc, &mut twin)?;
        Ok(twin)
    }

    /// The sessions of these rows, each of which has an id of its own.
    pub fn from_rows(alloc: Global, rows: Vec<SessionRow>) -> Result<Opened, Memory>
        requires { AreApart (map open_of rows.items) }

        ensures ok { IfOk result (λ opened. opened.rows ≡ map open_of rows.items) }
        ensures room { IfOk result (λ opened. opened.room ≡ None) }
        ensures want { IsOkUnless result Memory.Want }
    {
        let mut opened = Opened::new(alloc);
        let mut rows = VecDeque::from_vec(rows);
        'rows: while let Some(row) = rows.pop_front() {
            opened.push(row)?;
        }
        Ok(opened)
    }

    /// Whether no number of a session has passed its end.
    pub fn are_within(&self) -> bool
        ensures { result ≡ list_all is_session_within self.now.rows }
    {
        'rows: for place in 0..self.len() {
            if NUMBER_END < self.row(place).next {
                return false;
            }
        }
        true
    }
}

fn hold_ready(alloc: Global, at_hand: &mut Option<Kepts>) -> Result<(), Memory>
    requires { IfSome at_hand.old IsReady }

    ensures ready { IfSome at_hand.new IsReady }
    ensures ok { OnOk result (is_some at_hand.new ≡ true) }
    ensures want { IsOkUnless result Memory.Want }
{
    if at_hand.is_some() {
        return Ok(());
    }
    let mut kept = VecDeque::new(alloc);
    kept.reserve(FIRST_ANSWERS)?;
    *at_hand = Some(kept);
    Ok(())
}

/// Whether a session gives way to another.
pub fn is_giving_way(session: SessionId, row: &SessionRow) -> bool
    ensures { result ≡ is_giving_way session (open_of row.now) }
{
    session.class == WORKER
        && row.session.class == WORKER
        && row.session.owner == session.owner
        && row.session.number < session.number
}

fn drop_earlier(rows: &mut IndexMap<SessionId, SessionRow>, session: SessionId, ends_earlier: bool)
    requires { ends_earlier ≡ false
        → AllByRecursion (λ one. is_giving_way session one ≡ false) (sessions_of rows.old.entries) }

    ensures entries { rows.new.entries
        ≡ filter (λ e. not (is_giving_way session (open_of e.1))) rows.old.entries }
    ensures room { spare rows.old ≤ spare rows.new }
{
    if !ends_earlier {
        return;
    }
    rows.retain(
        |_: &SessionId, row: &mut SessionRow| -> bool
            ensures { (result ≡ not (is_giving_way session (open_of row.old)))
                × (row.new ≡ row.old) }
        { !is_giving_way(session, row) },
    );
}
