ghost use Rattle.std.specs.Prelude.{◌≡◌, ◌+◌, ◌≤◌, ◌++◌, ◌∷◌, [], length, Some, OnOk, IsOkUnless, OnErr};
ghost use Rattle.qq_entry.specs.Command.{seq_of, session};
ghost use Rattle.qq_script.specs.Text.{tag_of, full_text, cause_text, answer_words, content_body, shown_body, is_first_client, line_prefix, answer_text};

use crate::piece::{Piece, ROOM};
use crate::words::{push_line, push_text, put_mark, put_numbered, put_session};
use qq_base::{Memory, SessionId, Text};
use qq_entry::{Answer, Cause, Command, Content, Full, Shared};
use std::alloc::Global;

pub fn tag_of(command: &Command) -> u32
    ensures { result ≡ tag_of command.now }
{
    command.tag().unwrap_or(0)
}

fn full_text(full: Full) -> &'static str
    ensures { result.now ≡ full_text full }
{
    match full {
        Full::Length => "length",
        Full::ByteLength => "bytes",
        Full::Live => "live",
    }
}

fn cause_text(cause: Cause) -> &'static str
    ensures { result.now ≡ cause_text cause }
{
    match cause {
        Cause::SingleActive => "single-active",
        Cause::NumberSpent => "number-spent",
        Cause::ConsumersFull => "consumers-full",
        Cause::NoConsumer => "no-consumer",
        Cause::WrongMode => "wrong-mode",
    }
}

/// Puts the words of an answer to the command of this number and tag, without a message's body, in front of a piece.
pub fn put_answer_words(piece: &mut Piece, seq: u64, tag: u32, answer: &Answer)
    requires { length piece.old ≤ 20 }

    ensures text { piece.new ≡ answer_words seq tag answer.now ++ piece.old }
    ensures length { length piece.new ≤ 80 }
{
    match answer {
        Answer::Lead => piece.put_text("lead"),
        Answer::Confirmed => put_numbered(piece, "confirmed ", seq),
        Answer::Rejected(full) => {
            piece.put_text(full_text(*full));
            piece.put_text(" ");
            put_numbered(piece, "rejected ", seq);
        }
        Answer::Got(delivery) => {
            put_mark(piece, delivery.arrival, delivery.count);
            piece.put_text("message ");
        }
        Answer::Empty => piece.put_text("empty"),
        Answer::Subscribed => put_numbered(piece, "subscribed ", u64::from(tag)),
        Answer::Refused(cause) => {
            piece.put_text(cause_text(*cause));
            piece.put_text("refused ");
        }
        Answer::Done => piece.put_text("done"),
        Answer::Credited { drained } => put_numbered(piece, "credited ", *drained),
        Answer::Purged { count } => put_numbered(piece, "purged ", *count),
        Answer::Down => piece.put_text("down"),
        Answer::Attached => piece.put_text("attached"),
        Answer::Stale => piece.put_text("stale"),
        Answer::DeadSettled { count } => put_numbered(piece, "dead-settled ", *count),
        Answer::Gap { next } => put_numbered(piece, "gap ", *next),
        Answer::Forgotten => put_numbered(piece, "forgotten ", seq),
        Answer::Ended => piece.put_text("ended"),
        Answer::WindowFull => piece.put_text("window full"),
        Answer::SessionsFull => piece.put_text("sessions full"),
    }
}

fn is_first_client(session: Option<SessionId>) -> bool
    ensures { result ≡ is_first_client session }
{
    match session {
        None => true,
        Some(session) => session.class == 1 && session.number == 1,
    }
}

pub fn push_line_prefix(
    out: &mut Vec<u8>,
    first: bool,
    session: Option<SessionId>,
    queue: &str,
) -> Result<(), Memory>
    ensures ok { OnOk result
        (out.new.items ≡ out.old.items ++ line_prefix first session queue.now) }
    ensures want { IsOkUnless result Memory.Want }
{
    if first && is_first_client(session) {
        return Ok(());
    }
    let mut client = Piece::new();
    client.put_text(" ");
    if let Some(session) = session {
        put_session(&mut client, session);
    }
    out.reserve(ROOM + queue.len())?;
    out.extend_from_slice(client.text())?;
    push_text(out, queue)?;
    push_text(out, ": ")
}

pub fn content_body(content: &Option<Shared<Content>>) -> &[u8]
    ensures { result.now ≡ content_body content.now }
{
    match content {
        None => &[],
        Some(content) => content.get().body.as_slice(),
    }
}

// Puts the words of an answer, and a blank where a message's body follows, which it gives.
fn put_answer<'a>(piece: &mut Piece, seq: u64, tag: u32, answer: &'a Answer) -> &'a [u8]
    requires { piece.old ≡ [] }

    ensures { piece.new ++ result.now ≡ answer_words seq tag answer.now ++ shown_body answer.now }
{
    match answer {
        Answer::Got(delivery) => {
            piece.put_text(" ");
            put_answer_words(piece, seq, tag, answer);
            content_body(&delivery.message.content)
        }
        _ => {
            put_answer_words(piece, seq, tag, answer);
            &[]
        }
    }
}

/// Adds a line about a client's session, with its line feed: whom it is about, and then the words. `first`
/// says that the queue is the first one.
///
/// - `ok`: the line stands behind what `out` had.
/// - `err`, `want`: it fails for want of memory alone, and then `out` stays.
pub fn session_line(
    alloc: Global,
    first: bool,
    session: SessionId,
    queue: &Text,
    words: &str,
    out: &mut Vec<u8>,
) -> Result<(), Memory>
    ensures ok { OnOk result (out.new.items ≡ out.old.items
        ++ (line_prefix first (Some session) queue.now ++ words.now ++ 10 ∷ [])) }
    ensures err { OnErr result (out.new.items ≡ out.old.items) }
    ensures want { IsOkUnless result Memory.Want }
{
    let mut prefix = Vec::new(alloc);
    push_line_prefix(&mut prefix, first, Some(session), queue.as_str())?;
    push_line(out, &prefix, words.as_bytes(), b"")
}

/// Adds the line of an answer, with its line feed. `first` says that the queue is the first one. Session
/// 1 of the first queue isn't named.
///
/// - `ok`: the line stands behind what `out` had.
/// - `err`, `want`: it fails for want of memory alone, and then `out` stays.
pub fn answer_text(
    alloc: Global,
    first: bool,
    command: &Command,
    queue: &Text,
    answer: &Answer,
    out: &mut Vec<u8>,
) -> Result<(), Memory>
    ensures ok { OnOk result (out.new.items ≡
        out.old.items ++ answer_text first command.now queue.now answer.now) }
    ensures err { OnErr result (out.new.items ≡ out.old.items) }
    ensures want { IsOkUnless result Memory.Want }
{
    let mut prefix = Vec::new(alloc);
    push_line_prefix(&mut prefix, first, command.session(), queue.as_str())?;
    let mut words = Piece::new();
    let body = put_answer(&mut words, command.seq_of(), tag_of(command), answer);
    push_line(out, &prefix, words.text(), body)
}
