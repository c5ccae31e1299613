//! How many bytes an entry will have, told without writing them.
ghost use Rattle.std.specs.Prelude.{◌≡◌, ◌+◌, ◌<◌, ◌^◌, length, IfSome};
ghost use Rattle.qq_command.specs.Encoding.{encoding};
ghost use Rattle.qq_entry.specs.Range.{AreDeadDones, AreIds, IsCommand, IsContent, IsWritable};
ghost use Rattle.qq_command.specs.Lengths.{origin_length, content_length, ids_length, dead_dones_length, fields_length};

use qq_entry::{Command, Content, DeadDone, Entry, Origin, Shared};

/// The bytes of an entry beside its command's fields: term, length, time and kind.
const ENTRY_LEN: usize = 21;

/// A session.
const SESSION_LEN: usize = 13;

/// A stamp.
const STAMP_LEN: usize = 29;

/// A stamp and a tag.
const CONSUMER_LEN: usize = 33;

fn origin_len(from: &Option<Origin>) -> usize
    ensures { result ≡ origin_length from.now }
{
    match from {
        None => 1,
        Some(_) => 13,
    }
}

fn content_len(of: &Option<Shared<Content>>) -> usize
    requires { IfSome of.now IsContent }
    ensures len { result ≡ content_length of.now }
    ensures within { result < 2 ^ 32 }
{
    match of {
        None => 0,
        Some(shared) => {
            let c = shared.get();
            7 + c.body.len() + c.key.len() + 5 * c.deaths.len()
        }
    }
}

fn ids_len(list: &[u64]) -> usize
    requires { AreIds list.now }
    ensures len { result ≡ ids_length list.now }
    ensures within { result < 2 ^ 32 }
{
    4 + 8 * list.len()
}

fn dead_dones_len(list: &[DeadDone]) -> usize
    requires { AreDeadDones list.now }
    ensures len { result ≡ dead_dones_length list.now }
    ensures within { result < 2 ^ 32 }
{
    let mut len = 2;
    'list: for done in list {
        len += 10 + 4 * done.targets.len();
    }
    len
}

fn fields_len(command: &Command) -> usize
    requires { IsCommand command.now }
    ensures len { result ≡ fields_length command.now }
    ensures within { result < 2 ^ 33 }
{
    match command {
        Command::Noop { .. } => 1,
        Command::Enqueue {
            origin,
            message,
            ..
        } => STAMP_LEN + origin_len(origin) + content_len(&message.content),
        Command::Get { .. } | Command::Purge { .. } => STAMP_LEN,
        Command::Subscribe { .. } => CONSUMER_LEN + 3,
        Command::Cancel { .. } => CONSUMER_LEN,
        Command::Credit { .. } => CONSUMER_LEN + 9,
        Command::Settle { ids, .. } | Command::Return { ids, .. } | Command::Discard { ids, .. } =>
            CONSUMER_LEN + ids_len(ids.as_slice()),
        Command::Down { .. } => SESSION_LEN,
        Command::DeadAttach { .. } => 8,
        Command::DeadSettle { done, .. } => 8 + dead_dones_len(done.as_slice()),
    }
}

/// How many bytes an entry's encoding has, told without writing them.
pub fn encoded_len(entry: &Entry) -> usize
    requires { IsWritable entry.now }
    ensures len { result ≡ length (encoding entry.now) }
    ensures within { result < 2 ^ 34 }
{
    ENTRY_LEN + fields_len(entry.command.get())
}
