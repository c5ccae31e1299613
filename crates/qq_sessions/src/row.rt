//! One open session, and what a command does to it.
ghost use Rattle.std.specs.Prelude.{◌≡◌, ◌+◌, ◌-◌, ◌<◌, ◌≤◌, ◌^◌, ◌∷◌, ◌++◌, [], drop, IfOk, IsOkUnless, OnOk};
ghost use Rattle.std.specs.VecDeque.{deque_len, deque_capacity};
ghost use Rattle.qq_model.specs.Gate.{next_mark, kept_answer, repeat_by, gate_number, raise_mark, use_number, add_answer, set_tag, new_session};
ghost use Rattle.qq_sessions.specs.Row.{open_of, slots};

use qq_base::{Duplicate, Memory, SessionId};
use qq_entry::{Answer, Stamp};
use qq_model::{Gate, WINDOW};
use std::alloc::Global;
use std::collections::VecDeque;

/// Kept answers, in the order of their numbers.
pub type Kepts = VecDeque<Answer>;

/// An open session.
#[derive(Drop)]
pub struct SessionRow {
    /// Whose it is.
    pub session: SessionId,
    /// The number that its next command is to have, from 2.
    pub next: u64,
    /// The low mark: it is done with the numbers up to this one, from 0.
    pub mark: u64,
    /// The answers to the numbers above the mark and below the next.
    pub kept: Kepts,
    /// The greatest tag of its consumers, 0 where it had none.
    pub tag: u32,
}

/// A session with its first number used.
pub fn new_session(stamp: &Stamp, kept: Kepts) -> SessionRow
    requires { kept.items ≡ [] }

    ensures made { open_of result ≡ new_session stamp.now }
    ensures slots { slots result ≡ deque_capacity kept - deque_len kept }
{
    SessionRow {
        session: stamp.session,
        next: 2,
        mark: 0,
        kept,
        tag: 0,
    }
}

fn next_mark(stamp: &Stamp, row: &SessionRow) -> u64
    ensures { result ≡ next_mark stamp.now (open_of row.now) }
{
    row.mark.max(stamp.done.min(row.next.saturating_sub(1)))
}

/// How many answers a stamp's low mark forgets.
pub fn done_count(stamp: &Stamp, row: &SessionRow) -> u64
    ensures { result ≡ next_mark stamp.now (open_of row.now) - row.now.mark }
{
    next_mark(stamp, row).saturating_sub(row.mark)
}

fn repeat_kept(alloc: Global, seq: u64, row: &SessionRow) -> Result<Gate, Memory>
    ensures ok { IfOk result (λ gate. gate ≡ repeat_by (kept_answer seq (open_of row.now))) }
    ensures want { IsOkUnless result Memory.Want }
{
    let place = seq.saturating_sub(row.mark).saturating_sub(1) as usize;
    match row.kept.get(place) {
        None => Ok(Gate::Forgotten),
        Some(answer) => Ok(Gate::Again(answer.copy(alloc)?)),
    }
}

/// What becomes of a command of an open session.
pub fn gate_number(alloc: Global, stamp: &Stamp, row: &SessionRow) -> Result<Gate, Memory>
    ensures ok { IfOk result (λ gate. gate ≡ gate_number stamp.now (open_of row.now)) }
    ensures want { IsOkUnless result Memory.Want }
{
    let mark = next_mark(stamp, row);
    if stamp.seq <= mark {
        return Ok(Gate::Forgotten);
    }
    if stamp.seq < row.next {
        return repeat_kept(alloc, stamp.seq, row);
    }
    if row.next < stamp.seq {
        return Ok(Gate::Gap { next: row.next });
    }
    if row.next.saturating_sub(1).saturating_sub(mark) == WINDOW {
        return Ok(Gate::WindowFull);
    }
    Ok(Gate::Fresh)
}

fn drop_front(kept: &mut Kepts, count: u64)
    ensures items { kept.new.items ≡ drop count kept.old.items }
    ensures len { deque_len kept.new ≤ deque_len kept.old }
    ensures capacity { deque_capacity kept.new ≡ deque_capacity kept.old }
{
    let count = count.min(kept.len() as u64);
    for _ in 0..count {
        kept.pop_front();
    }
}

fn set_mark(row: &mut SessionRow, mark: u64)
    ensures ok { open_of row.new ≡ record (open_of row.old) {
      mark = mark;
      kept = drop (mark - row.old.mark) row.old.kept.items;
    } }
    ensures slots { slots row.old ≤ slots row.new }
{
    let count = mark.saturating_sub(row.mark);
    drop_front(&mut row.kept, count);
    row.mark = mark;
}

/// Takes over a stamp's low mark, and forgets the answers up to it.
pub fn raise_mark(row: &mut SessionRow, stamp: &Stamp)
    ensures ok { open_of row.new ≡ raise_mark stamp.now (open_of row.old) }
    ensures slots { slots row.old ≤ slots row.new }
{
    let mark = next_mark(stamp, row);
    set_mark(row, mark);
}

/// Uses the number of a stamp.
pub fn use_number(row: &mut SessionRow, stamp: &Stamp)
    requires { row.old.next + 1 < 2 ^ 64 }

    ensures ok { open_of row.new ≡ use_number stamp.now (open_of row.old) }
    ensures slots { slots row.old ≤ slots row.new }
{
    let mark = next_mark(stamp, row);
    row.next += 1;
    set_mark(row, mark);
}

/// Sets the greatest tag of its consumers.
pub fn set_tag(row: &mut SessionRow, tag: u32)
    ensures ok { open_of row.new ≡ set_tag tag (open_of row.old) }
    ensures slots { slots row.old ≤ slots row.new }
{
    row.tag = tag;
}

/// Makes room for one more answer.
pub fn reserve_slot(row: &mut SessionRow) -> Result<(), Memory>
    ensures same { open_of row.new ≡ open_of row.old }
    ensures ok { OnOk result (0 < slots row.new) }
    ensures want { IsOkUnless result Memory.Want }
{
    row.kept.reserve(1)?;
    Ok(())
}

/// Keeps an answer.
pub fn add_answer(row: &mut SessionRow, answer: Answer)
    requires { 0 < slots row.old }

    ensures { open_of row.new ≡ add_answer answer (open_of row.old) }
{
    row.kept.push_back_reserved(answer);
}

fn copy_answers(alloc: Global, answers: &Kepts) -> Result<Kepts, Memory>
    ensures ok { IfOk result (λ twin. twin.items ≡ answers.now.items) }
    ensures want { IsOkUnless result Memory.Want }
{
    let mut twin = VecDeque::with_capacity(alloc, answers.len())?;
    'answers: for place in 0..answers.len() {
        twin.push_back(answers[place].copy(alloc)?)?;
    }
    Ok(twin)
}

/// The same session.
pub fn copy_row(alloc: Global, row: &SessionRow) -> Result<SessionRow, Memory>
    ensures ok { IfOk result (λ twin. open_of twin ≡ open_of row.now) }
    ensures want { IsOkUnless result Memory.Want }
{
    Ok(SessionRow {
        session: row.session,
        next: row.next,
        mark: row.mark,
        kept: copy_answers(alloc, &row.kept)?,
        tag: row.tag,
    })
}
