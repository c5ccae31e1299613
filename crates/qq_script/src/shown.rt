//! The lines for what a queue shows.
ghost use Rattle.std.specs.Prelude.{◌≡◌, ◌++◌, ◌∷◌, [], IfOk, OnOk, OnErr, IsOkUnless, Some, codes, string_bytes};
ghost use Rattle.std.specs.Fmt.{decimal};
ghost use Rattle.qq_script.specs.Shown.{prefix_as, shown_text, taken_words, verdict_text};
ghost use Rattle.qq_script.specs.Text.{line_prefix, mark_text};

use crate::answer::{answer_text, session_line};
use crate::delivery::delivery_text;
use itoa::Buffer;
use qq_base::{ConsumerId, Memory, SessionId, Text};
use qq_entry::Delivery;
use qq_session::Shown;
use qq_taker::Verdict;
use std::alloc::Global;

fn verdict_text(verdict: Verdict) -> &'static str
    ensures { result.now ≡ verdict_text verdict }
{
    match verdict {
        Verdict::Settle => "settle",
        Verdict::Return => "return",
        Verdict::Discard => "discard",
        Verdict::Keep => "keep",
    }
}

// A message's place in the order of arrival, and how often it was returned.
fn push_mark(words: &mut String, arrival: u64, count: u64) -> Result<(), Memory>
    ensures ok { OnOk result (string_bytes words.new
        ≡ string_bytes words.old ++ mark_text arrival count) }
    ensures want { IsOkUnless result Memory.Want }
{
    let mut buffer = Buffer::new();
    words.push_str(buffer.format(arrival))?;
    if count != 0 {
        words.push_str("/")?;
        words.push_str(buffer.format(count))?;
    }
    Ok(())
}

// What is shown of a delivery that was offered to its consumer's taker, before the verdict.
fn taken_words(alloc: Global, consumer: ConsumerId, delivery: &Delivery) -> Result<String, Memory>
    ensures ok { IfOk result (λ words. string_bytes words ≡ taken_words consumer delivery.now) }
    ensures want { IsOkUnless result Memory.Want }
{
    let mut words = String::from_str(alloc, "taken ")?;
    let mut buffer = Buffer::new();
    words.push_str(buffer.format(u64::from(consumer.tag)))?;
    words.push_str(" ")?;
    words.push_str(buffer.format(delivery.id))?;
    words.push_str(" ")?;
    push_mark(&mut words, delivery.arrival, delivery.count)?;
    words.push_str(" ")?;
    Ok(words)
}

// Adds the line of a delivery that a taker was offered.
fn taken_text(
    alloc: Global,
    first: bool,
    name: &Text,
    consumer: ConsumerId,
    delivery: &Delivery,
    verdict: Verdict,
    out: &mut Vec<u8>,
) -> Result<(), Memory>
    ensures ok { OnOk result (out.new.items ≡ out.old.items
        ++ (line_prefix first (Some consumer.session) name.now
        ++ (taken_words consumer delivery.now ++ verdict_text verdict) ++ 10 ∷ [])) }
    ensures err { OnErr result (out.new.items ≡ out.old.items) }
    ensures want { IsOkUnless result Memory.Want }
{
    let mut words = taken_words(alloc, consumer, delivery)?;
    words.push_str(verdict_text(verdict))?;
    session_line(alloc, first, consumer.session, name, words.as_str(), out)
}

// Adds a line of a client's session: these words.
fn client_line(
    alloc: Global,
    first: bool,
    name: &Text,
    session: u64,
    words: &str,
    out: &mut Vec<u8>,
) -> Result<(), Memory>
    ensures ok { OnOk result (out.new.items ≡ out.old.items
        ++ (prefix_as first name.now session ++ words.now ++ 10 ∷ [])) }
    ensures err { OnErr result (out.new.items ≡ out.old.items) }
    ensures want { IsOkUnless result Memory.Want }
{
    session_line(alloc, first, SessionId::client(session), name, words, out)
}

// Adds a line of a client's session: these words and a text behind them.
fn client_line_with(
    alloc: Global,
    first: bool,
    name: &Text,
    session: u64,
    words: &str,
    last: &str,
    out: &mut Vec<u8>,
) -> Result<(), Memory>
    ensures ok { OnOk result (out.new.items ≡ out.old.items
        ++ (prefix_as first name.now session ++ (words.now ++ last.now) ++ 10 ∷ [])) }
    ensures err { OnErr result (out.new.items ≡ out.old.items) }
    ensures want { IsOkUnless result Memory.Want }
{
    let mut line = String::from_str(alloc, words)?;
    line.push_str(last)?;
    client_line(alloc, first, name, session, line.as_str(), out)
}

// Adds a line of a client's session: these words and a number behind them.
fn client_line_of(
    alloc: Global,
    first: bool,
    name: &Text,
    session: u64,
    words: &str,
    number: u64,
    out: &mut Vec<u8>,
) -> Result<(), Memory>
    ensures ok { OnOk result (out.new.items ≡ out.old.items
        ++ (prefix_as first name.now session ++ (words.now ++ decimal number) ++ 10 ∷ [])) }
    ensures err { OnErr result (out.new.items ≡ out.old.items) }
    ensures want { IsOkUnless result Memory.Want }
{
    let mut buffer = Buffer::new();
    let digits = buffer.format(number);
    client_line_with(alloc, first, name, session, words, digits, out)
}

/// Adds the line for what is shown of a queue of this name. `first` says that the queue is the cluster's first one,
/// whose session 1 isn't named. That a taker is given to a consumer has no line.
///
/// - `ok`: the line stands after what `out` had.
/// - `err`, `want`: it fails for want of memory alone, and then `out` stays.
pub fn shown_text(
    alloc: Global,
    first: bool,
    name: &Text,
    shown: &Shown,
    out: &mut Vec<u8>,
) -> Result<(), Memory>
    ensures ok { OnOk result (out.new.items ≡ out.old.items ++ shown_text first name.now shown.now) }
    ensures err { OnErr result (out.new.items ≡ out.old.items) }
    ensures want { IsOkUnless result Memory.Want }
{
    match shown {
        Shown::Answered { row } => {
            let command = row.entry.command.get();
            answer_text(alloc, first, command, name, &row.answer, out)
        }
        Shown::Delivered { consumer, delivery } => {
            delivery_text(alloc, first, name, *consumer, delivery, out)
        }
        Shown::NoLeader { session } => {
            client_line_with(
                alloc,
                first,
                name,
                *session,
                "no leader ",
                name.as_str(),
                out,
            )
        }
        Shown::WindowFull { session } => {
            client_line(alloc, first, name, *session, "window full", out)
        }
        Shown::HasEnded { session } => client_line(alloc, first, name, *session, "ended", out),
        Shown::NotTaken { session, id } => {
            client_line_of(alloc, first, name, *session, "not taken ", *id, out)
        }
        Shown::Attached { .. } => Ok(()),
        Shown::IsBusy { session, number } => {
            client_line_of(
                alloc,
                first,
                name,
                *session,
                "busy ",
                u64::from(*number),
                out,
            )
        }
        Shown::Taken {
            number: _,
            consumer,
            delivery,
            verdict,
        } => taken_text(alloc, first, name, *consumer, delivery, *verdict, out),
        Shown::Dropped { session, number } => {
            client_line_of(
                alloc,
                first,
                name,
                *session,
                "dropped ",
                u64::from(*number),
                out,
            )
        }
    }
}
