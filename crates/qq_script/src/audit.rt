ghost use Rattle.std.specs.Prelude.{◌≡◌, ◌+◌, ◌≤◌, ◌++◌, [], length, OnOk, IsOkUnless, OnErr, IfOk, map, codes};
ghost use Rattle.std.specs.Fmt.{decimal};
ghost use Rattle.qq_entry.specs.declared.command.DeadDone.{DeadDone};
ghost use Rattle.qq_entry.specs.Command.{seq_of};
ghost use Rattle.qq_script.specs.Text.{answer_words, tag_of};
ghost use Rattle.qq_script.specs.Audit.{numbers_text, stamp_text, command_head, command_ids, again_text, row_text, audit_head_text, comma_before};

use crate::answer::{put_answer_words, tag_of};
use crate::piece::Piece;
use crate::words::{push_line, push_number, push_numbered, push_text, put_numbered, put_session};
use qq_base::{Index, Memory, Text};
use qq_entry::{Answer, AuditRow, Command, DeadDone, Stamp};
use std::alloc::Global;

fn push_numbers(out: &mut Vec<u8>, numbers: &[u64]) -> Result<(), Memory>
    ensures ok { OnOk result (out.new.items ≡ out.old.items ++ numbers_text numbers.now) }
    ensures want { IsOkUnless result Memory.Want }
{
    let [first, rest @ ..] = numbers else {
        return Ok(());
    };
    push_number(out, *first)?;
    for number in rest {
        push_numbered(out, ",", *number)?;
    }
    Ok(())
}

fn push_dead_numbers(out: &mut Vec<u8>, done: &[DeadDone]) -> Result<(), Memory>
    ensures ok { OnOk result (out.new.items ≡
        out.old.items ++ numbers_text (map (λ (d : DeadDone). d.number) done.now)) }
    ensures want { IsOkUnless result Memory.Want }
{
    let [first, rest @ ..] = done else {
        return Ok(());
    };
    push_number(out, first.number)?;
    for dead in rest {
        push_numbered(out, ",", dead.number)?;
    }
    Ok(())
}

// Puts whom a command is of and its number in front of a piece.
fn put_stamp(piece: &mut Piece, stamp: Stamp)
    requires { 64 + length piece.old ≤ 160 }

    ensures text { piece.new ≡ stamp_text stamp ++ piece.old }
    ensures length { length piece.new ≤ 64 + length piece.old }
{
    put_numbered(piece, " ", stamp.seq);
    put_session(piece, stamp.session);
    piece.put_text(" ");
}

// Puts a word, a stamp and a number in front of a piece.
fn put_stamped(piece: &mut Piece, word: &str, stamp: Stamp, number: u32)
    requires word { length word.now ≤ 10 }
    requires piece { length piece.old ≤ 1 }

    ensures text { piece.new
        ≡ (word.now ++ stamp_text stamp ++ codes " " ++ decimal number) ++ piece.old }
    ensures length { length piece.new ≤ 96 }
{
    put_numbered(piece, " ", u64::from(number));
    put_stamp(piece, stamp);
    piece.put_text(word);
}

// Puts a word, a stamp and a tag in front of the ids that follow.
fn put_before_ids(piece: &mut Piece, word: &str, stamp: Stamp, tag: u32)
    requires word { length word.now ≤ 10 }
    requires piece { piece.old ≡ [] }

    ensures text { piece.new ≡ word.now ++ stamp_text stamp ++ codes " " ++ decimal tag ++ codes " " }
    ensures length { length piece.new ≤ 96 }
{
    piece.put_text(" ");
    put_stamped(piece, word, stamp, tag);
}

// A command without the ids that it names, whose text may have any length.
fn put_command(piece: &mut Piece, command: &Command)
    requires { piece.old ≡ [] }

    ensures text { piece.new ≡ command_head command.now }
    ensures length { length piece.new ≤ 96 }
{
    match command {
        Command::Noop { version } => put_numbered(piece, "noop ", u64::from(*version)),
        Command::Enqueue { stamp, message, .. } => {
            put_stamped(piece, "enqueue", *stamp, message.size)
        }
        Command::Get { stamp } => {
            put_stamp(piece, *stamp);
            piece.put_text("get")
        }
        Command::Subscribe { stamp, tag, .. } => put_stamped(piece, "subscribe", *stamp, *tag),
        Command::Cancel { stamp, tag } => put_stamped(piece, "cancel", *stamp, *tag),
        Command::Credit { stamp, tag, .. } => put_stamped(piece, "credit", *stamp, *tag),
        Command::Settle { stamp, tag, .. } => put_before_ids(piece, "settle", *stamp, *tag),
        Command::Return { stamp, tag, .. } => put_before_ids(piece, "return", *stamp, *tag),
        Command::Discard { stamp, tag, .. } => put_before_ids(piece, "discard", *stamp, *tag),
        Command::Purge { stamp } => {
            put_stamp(piece, *stamp);
            piece.put_text("purge")
        }
        Command::Down { session } => {
            put_session(piece, *session);
            piece.put_text("down ")
        }
        Command::DeadAttach { term } => put_numbered(piece, "dead-attach ", term.0),
        Command::DeadSettle { term, .. } => {
            piece.put_text(" ");
            put_numbered(piece, "dead-settle ", term.0)
        }
    }
}

// Adds the ids that a command names.
fn push_ids(out: &mut Vec<u8>, command: &Command) -> Result<(), Memory>
    ensures ok { OnOk result (out.new.items ≡ out.old.items ++ command_ids command.now) }
    ensures want { IsOkUnless result Memory.Want }
{
    match command {
        Command::Settle { ids, .. } => push_numbers(out, ids.as_slice()),
        Command::Return { ids, .. } => push_numbers(out, ids.as_slice()),
        Command::Discard { ids, .. } => push_numbers(out, ids.as_slice()),
        Command::DeadSettle { done, .. } => push_dead_numbers(out, done.as_slice()),
        _ => Ok(()),
    }
}

// Puts in front of a piece that a kept answer was given again.
fn put_again(piece: &mut Piece, fresh: bool, answer: &Answer)
    requires { piece.old ≡ [] }

    ensures text { piece.new ≡ again_text fresh answer.now }
    ensures length { length piece.new ≤ 6 }
{
    if fresh || answer.comes_from_gate() {
        return;
    }
    piece.put_text(" again");
}

// A row up to the ids that its command names.
fn put_row_start(piece: &mut Piece, row: &AuditRow)
    requires { piece.old ≡ [] }

    ensures { piece.new ≡ decimal row.now.index.0 ++ codes " " ++ decimal row.now.entry.term.0
        ++ codes " " ++ command_head row.now.entry.command }
{
    put_command(piece, row.entry.command.get());
    piece.put_text(" ");
    put_numbered(piece, " ", row.entry.term.0);
    piece.put_number(row.index.0);
}

// What a row has after the ids, without its line feed.
fn put_row_end(piece: &mut Piece, row: &AuditRow)
    requires { piece.old ≡ [] }

    ensures { piece.new ≡ codes " "
        ++ answer_words (seq_of row.now.entry.command) (tag_of row.now.entry.command) row.now.answer
        ++ again_text row.now.fresh row.now.answer }
{
    let command = row.entry.command.get();
    put_again(piece, row.fresh, &row.answer);
    put_answer_words(piece, command.seq_of(), tag_of(command), &row.answer);
    piece.put_text(" ");
}

/// Adds the line of an audit's row, with its line feed.
///
/// - `ok`: the line stands behind what `out` had.
/// - `err`, `want`: it fails for want of memory alone, and then `out` stays.
pub fn row_text(alloc: Global, row: &AuditRow, out: &mut Vec<u8>) -> Result<(), Memory>
    ensures ok { OnOk result (out.new.items ≡ out.old.items ++ row_text row.now) }
    ensures err { OnErr result (out.new.items ≡ out.old.items) }
    ensures want { IsOkUnless result Memory.Want }
{
    let mut start = Piece::new();
    put_row_start(&mut start, row);
    let mut ids = Vec::new(alloc);
    push_ids(&mut ids, row.entry.command.get())?;
    let mut end = Piece::new();
    put_row_end(&mut end, row);
    push_line(out, start.text(), &ids, end.text())
}

// The first line of an audit, without its line feed.
fn head_words(alloc: Global, queue: &str, start: u64, count: u64) -> Result<Vec<u8>, Memory>
    ensures ok { IfOk result (λ words.
        audit_head_text queue.now start count ≡ words.items ++ codes "\n") }
    ensures want { IsOkUnless result Memory.Want }
{
    let mut out = Vec::new(alloc);
    push_text(&mut out, "audit ")?;
    push_text(&mut out, queue)?;
    push_numbered(&mut out, " ", start)?;
    push_numbered(&mut out, " ", count)?;
    Ok(out)
}

/// Adds the first line of an audit: the queue, the index at which it starts, and its number of rows.
///
/// - `ok`: the line stands behind what `out` had.
/// - `err`, `want`: it fails for want of memory alone, and then `out` stays.
pub fn audit_head_text(
    alloc: Global,
    queue: &Text,
    start: Index,
    count: u64,
    out: &mut Vec<u8>,
) -> Result<(), Memory>
    ensures ok { OnOk result (out.new.items ≡
        out.old.items ++ audit_head_text queue.now start.0 count) }
    ensures err { OnErr result (out.new.items ≡ out.old.items) }
    ensures want { IsOkUnless result Memory.Want }
{
    let words = head_words(alloc, queue.as_str(), start.0, count)?;
    push_line(out, &words, b"", b"")
}
