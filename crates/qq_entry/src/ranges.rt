ghost use Rattle.std.specs.Prelude.{◌≡◌, IsTrue, All, true};
ghost use Rattle.qq_entry.specs.Range.{IsPositive, IsSession, IsStamp, IsCounted, AreIds, IsDeadDone, AreDeadDones, IsOfConsumer, IsMode, IsCommand, IsInRange};

use crate::message_ranges::{are_queues, has_range, is_from};
use crate::{
    Command, DEAD_DONE_LIMIT, DeadDone, Entry, IDS_LIMIT, MACHINE_VERSION, Mode, Stamp,
    TARGETS_LIMIT, TERM_LIMIT,
};
use qq_base::{CLIENT, DEAD_LETTER, SessionId};

fn is_session(session: SessionId) -> bool
    ensures { IsTrue result → IsSession session }
{
    if session.number == 0 {
        return false;
    }
    if session.class == CLIENT {
        return session.owner == 0;
    }
    CLIENT < session.class && session.class <= DEAD_LETTER && 0 < session.owner
}

fn is_stamp(stamp: Stamp) -> bool
    ensures { IsTrue result → IsStamp stamp }
{
    if !is_session(stamp.session) {
        return false;
    }
    if stamp.session.class == DEAD_LETTER {
        return stamp.seq == 0;
    }
    0 < stamp.seq
}

fn is_counted(stamp: Stamp) -> bool
    ensures { IsTrue result → IsCounted stamp }
{
    is_stamp(stamp) && stamp.session.class < DEAD_LETTER
}

fn is_of_consumer(stamp: Stamp, tag: u32) -> bool
    ensures { IsTrue result → IsOfConsumer stamp tag }
{
    is_counted(stamp) && 0 < tag
}

// Each one is.
fn is_mode(mode: Mode) -> bool
    ensures range { IsMode mode }
    ensures value { result ≡ true }
{
    match mode {
        Mode::Prefetch(_) => true,
        Mode::Link => true,
    }
}

fn are_positive(ids: &[u64]) -> bool
    ensures { IsTrue result → All (IsPositive 64) ids.now }
{
    ids.iter().all(|id| *id > 0)
}

fn are_ids(ids: &[u64]) -> bool
    ensures { IsTrue result → AreIds ids.now }
{
    if ids.is_empty() || ids.len() > IDS_LIMIT {
        return false;
    }
    are_positive(ids)
}

fn is_dead_done(done: &DeadDone) -> bool
    ensures { IsTrue result → IsDeadDone done.now }
{
    if done.number == 0 || done.targets.len() > TARGETS_LIMIT {
        return false;
    }
    are_queues(done.targets.as_slice())
}

fn are_each_done(done: &[DeadDone]) -> bool
    ensures { IsTrue result → All IsDeadDone done.now }
{
    done.iter().all(|one| is_dead_done(one))
}

fn are_dead_dones(done: &[DeadDone]) -> bool
    ensures { IsTrue result → AreDeadDones done.now }
{
    if done.is_empty() || done.len() > DEAD_DONE_LIMIT {
        return false;
    }
    are_each_done(done)
}

fn is_command(command: &Command) -> bool
    ensures { IsTrue result → IsCommand command.now }
{
    match command {
        Command::Noop { version } => *version == MACHINE_VERSION,
        Command::Enqueue {
            stamp,
            origin,
            message,
        } => is_stamp(*stamp) && is_from(*origin) && has_range(message),
        Command::Get { stamp } | Command::Purge { stamp } => is_counted(*stamp),
        Command::Subscribe { stamp, tag, mode } => {
            is_mode(*mode) && is_of_consumer(*stamp, *tag)
        }
        Command::Cancel { stamp, tag } => is_of_consumer(*stamp, *tag),
        Command::Credit {
            stamp,
            tag,
            count,
            credit,
            ..
        } => {
            let (_count, _credit) = (*count, *credit);
            is_of_consumer(*stamp, *tag)
        }
        Command::Settle { stamp, tag, ids }
        | Command::Return { stamp, tag, ids }
        | Command::Discard { stamp, tag, ids } => {
            is_of_consumer(*stamp, *tag) && are_ids(ids.as_slice())
        }
        Command::Down { session } => is_session(*session) && session.class < DEAD_LETTER,
        Command::DeadAttach { term } => term.0 <= TERM_LIMIT,
        Command::DeadSettle { term, done } => {
            let _term = term.0;
            are_dead_dones(done.as_slice())
        }
    }
}

/// Whether the log of a queue may hold an entry: each number, length and text of it is within its bounds.
pub fn is_in_range(entry: &Entry) -> bool
    ensures { IsTrue result → IsInRange entry.now }
{
    let _term = entry.term.0;
    let _time = entry.time;
    is_command(entry.command.get())
}
