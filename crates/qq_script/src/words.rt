//! Pieces of text, each put at the end of a line.
ghost use Rattle.std.specs.Prelude.{◌≡◌, ◌+◌, ◌≤◌, ◌++◌, ◌∷◌, [], length, OnOk, OnErr, IsOkUnless};
ghost use Rattle.std.specs.Vec.{vec_len, vec_capacity};
ghost use Rattle.std.specs.Fmt.{decimal};
ghost use Rattle.qq_script.specs.Text.{session_text, mark_text};

use crate::piece::Piece;
use itoa::Buffer;
use qq_base::{Memory, SessionId};

/// Adds a text. It fails for want of memory alone, and then `out` stays.
pub fn push_text(out: &mut Vec<u8>, text: &str) -> Result<(), Memory>
    ensures ok { OnOk result (out.new.items ≡ out.old.items ++ text.now) }
    ensures err { OnErr result (out.new.items ≡ out.old.items) }
    ensures want { IsOkUnless result Memory.Want }
{
    out.extend_from_slice(text.as_bytes())?;
    Ok(())
}

/// Adds a number in decimal. It fails for want of memory alone, and then `out` stays.
pub fn push_number(out: &mut Vec<u8>, number: u64) -> Result<(), Memory>
    ensures ok { OnOk result (out.new.items ≡ out.old.items ++ decimal number) }
    ensures err { OnErr result (out.new.items ≡ out.old.items) }
    ensures want { IsOkUnless result Memory.Want }
{
    let mut buffer = Buffer::new();
    out.extend_from_slice(buffer.format(number).as_bytes())?;
    Ok(())
}

/// A text and a number behind it.
pub fn push_numbered(out: &mut Vec<u8>, text: &str, number: u64) -> Result<(), Memory>
    ensures ok { OnOk result (out.new.items ≡ out.old.items ++ (text.now ++ decimal number)) }
    ensures want { IsOkUnless result Memory.Want }
{
    push_text(out, text)?;
    push_number(out, number)
}

/// Puts a text and a number behind it in front of a piece.
#[inline(always)]
pub fn put_numbered(piece: &mut Piece, text: &str, number: u64)
    requires { length text.now + 20 + length piece.old ≤ 160 }

    ensures text { piece.new ≡ (text.now ++ decimal number) ++ piece.old }
    ensures length { length piece.new ≤ length text.now + 20 + length piece.old }
{
    piece.put_number(number);
    piece.put_text(text);
}

/// Puts a session in front of a piece.
pub fn put_session(piece: &mut Piece, session: SessionId)
    requires { 42 + length piece.old ≤ 160 }

    ensures text { piece.new ≡ session_text session ++ piece.old }
    ensures length { length piece.new ≤ 42 + length piece.old }
{
    piece.put_number(session.number);
    if session.class == 1 {
        return;
    }
    piece.put_text(".");
    piece.put_number(u64::from(session.owner));
    piece.put_text(if session.class == 2 { "d" } else { "o" });
}

/// Puts an arrival and a number of returns in front of a piece.
pub fn put_mark(piece: &mut Piece, arrival: u64, count: u64)
    requires { 41 + length piece.old ≤ 160 }

    ensures text { piece.new ≡ mark_text arrival count ++ piece.old }
    ensures length { length piece.new ≤ 41 + length piece.old }
{
    if count == 0 {
        piece.put_number(arrival);
        return;
    }
    put_numbered(piece, "/", count);
    piece.put_number(arrival);
}

// Adds a text for which room was taken.
#[inline(always)]
fn push_reserved(out: &mut Vec<u8>, text: &[u8])
    requires { vec_len out.old + length text.now ≤ vec_capacity out.old }

    ensures text { out.new.items ≡ out.old.items ++ text.now }
    ensures len { vec_len out.new ≡ vec_len out.old + length text.now }
    ensures room { vec_capacity out.old ≤ vec_capacity out.new }
{
    if !text.is_empty() {
        out.extend_from_slice(text).unwrap();
    }
}

/// Adds three texts and a line feed, or nothing: the room is taken first.
pub fn push_line(out: &mut Vec<u8>, first: &[u8], second: &[u8], third: &[u8]) -> Result<(), Memory>
    ensures ok { OnOk result (out.new.items
        ≡ out.old.items ++ (first.now ++ second.now ++ third.now ++ 10 ∷ [])) }
    ensures err { OnErr result (out.new.items ≡ out.old.items) }
    ensures want { IsOkUnless result Memory.Want }
{
    let Some(room) = (first.len() + second.len()).checked_add(third.len() + 1) else {
        return Err(Memory::Want);
    };
    out.reserve(room)?;
    push_reserved(out, first);
    push_reserved(out, second);
    push_reserved(out, third);
    out.push_reserved(b'\n');
    Ok(())
}
