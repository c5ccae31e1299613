//! Commands, a few kinds at a time.
ghost use Rattle.std.specs.Prelude.{◌≡◌};
ghost use Rattle.qq_entry.specs.Same.{same_command, same_consumer, same_credit, same_inner, same_mode, same_publish, same_settlement, same_stamp};

use crate::lists::{Same, are_same};
use crate::messages::{same_message, same_origin};
use crate::{Command, DeadDone, Mode, Stamp};

fn same_stamp(a: &Stamp, b: &Stamp) -> bool
    ensures { result ≡ same_stamp a.now b.now }
{
    a.session == b.session && a.seq == b.seq && a.done == b.done
}

fn same_mode(a: Mode, b: Mode) -> bool
    ensures { result ≡ same_mode a b }
{
    match (a, b) {
        (Mode::Prefetch(a), Mode::Prefetch(b)) => a == b,
        (Mode::Link, Mode::Link) => true,
        _ => false,
    }
}

impl Same for DeadDone {
    ghost use Rattle.qq_entry.specs.Same.{same_done};

    ghost same = { same_done };

    fn is_same(&self, other: &Self) -> bool {
        self.number == other.number && are_same(self.targets.as_slice(), other.targets.as_slice())
    }
}

/// A message is published, or messages are asked for or dropped.
fn same_publish(a: &Command, b: &Command) -> bool
    ensures { result ≡ same_publish a.now b.now }
{
    match (a, b) {
        (
            Command::Enqueue {
                stamp,
                origin,
                message,
            },
            Command::Enqueue {
                stamp: by,
                origin: from,
                message: other,
            },
        ) => same_stamp(stamp, by) && same_origin(*origin, *from) && same_message(message, other),
        (Command::Get { stamp }, Command::Get { stamp: by }) => same_stamp(stamp, by),
        (Command::Purge { stamp }, Command::Purge { stamp: by }) => same_stamp(stamp, by),
        _ => false,
    }
}

/// A consumer comes or goes.
fn same_consumer(a: &Command, b: &Command) -> bool
    ensures { result ≡ same_consumer a.now b.now }
{
    match (a, b) {
        (
            Command::Subscribe { stamp, tag, mode },
            Command::Subscribe {
                stamp: by,
                tag: other,
                mode: as_well,
            },
        ) => same_stamp(stamp, by) && tag == other && same_mode(*mode, *as_well),
        (
            Command::Cancel { stamp, tag },
            Command::Cancel {
                stamp: by,
                tag: other,
            },
        ) => same_stamp(stamp, by) && tag == other,
        _ => false,
    }
}

fn same_credit(a: &Command, b: &Command) -> bool
    ensures { result ≡ same_credit a.now b.now }
{
    match (a, b) {
        (
            Command::Credit {
                stamp,
                tag,
                count,
                credit,
                drain,
            },
            Command::Credit {
                stamp: by,
                tag: other,
                count: so_many,
                credit: given,
                drain: drains,
            },
        ) => {
            same_stamp(stamp, by)
                && tag == other
                && count == so_many
                && credit == given
                && drain == drains
        }
        _ => false,
    }
}

/// Deliveries are settled.
fn same_settlement(a: &Command, b: &Command) -> bool
    ensures { result ≡ same_settlement a.now b.now }
{
    match (a, b) {
        (
            Command::Settle { stamp, tag, ids },
            Command::Settle {
                stamp: by,
                tag: other,
                ids: settled,
            },
        )
        | (
            Command::Return { stamp, tag, ids },
            Command::Return {
                stamp: by,
                tag: other,
                ids: settled,
            },
        )
        | (
            Command::Discard { stamp, tag, ids },
            Command::Discard {
                stamp: by,
                tag: other,
                ids: settled,
            },
        ) => same_stamp(stamp, by) && tag == other && ids == settled,
        _ => false,
    }
}

/// No client's command, or the end of a session.
fn same_inner(a: &Command, b: &Command) -> bool
    ensures { result ≡ same_inner a.now b.now }
{
    match (a, b) {
        (Command::Noop { version }, Command::Noop { version: other }) => version == other,
        (Command::Down { session }, Command::Down { session: other }) => session == other,
        (Command::DeadAttach { term }, Command::DeadAttach { term: other }) => term.0 == other.0,
        (
            Command::DeadSettle { term, done },
            Command::DeadSettle {
                term: other,
                done: settled,
            },
        ) => term.0 == other.0 && are_same(done.as_slice(), settled.as_slice()),
        _ => false,
    }
}

pub(crate) fn same_command(a: &Command, b: &Command) -> bool
    ensures { result ≡ same_command a.now b.now }
{
    same_publish(a, b)
        || same_consumer(a, b)
        || same_credit(a, b)
        || same_settlement(a, b)
        || same_inner(a, b)
}
