ghost use Rattle.std.specs.Prelude.{◌≡◌, ◌≤◌, length, replicate, Ok, IfOk, IfErr};
ghost use Rattle.qq_script_lines.specs.Numbers.{value_of};
ghost use Rattle.qq_script_lines.specs.Bodies.{begins_with, is_count, escaped_body, body_of, limited};
ghost use Rattle.qq_script_lines.specs.Lines.{HasScriptCause};

use crate::fault::ScriptFault;
use crate::numbers::are_digits;
use qq_base::Bytes;
use qq_entry::BODY_LIMIT;
use std::alloc::Global;

pub fn begins_with(byte: u8, bytes: &[u8]) -> bool
    ensures { result ≡ begins_with byte bytes.now }
{
    match bytes {
        [first, ..] => *first == byte,
        [] => false,
    }
}

// Whether these are one to seven digits.
fn is_count(digits: &[u8]) -> bool
    ensures { result ≡ is_count digits.now }
{
    if digits.is_empty() || digits.len() > 7 {
        return false;
    }
    are_digits(digits)
}

// The number that at most seven digits write.
fn value_of(digits: &[u8]) -> usize
    requires { length digits.now ≤ 7 }

    ensures { result ≡ value_of digits.now }
{
    let mut number = 0;
    for digit in digits {
        number = number * 10 + usize::from(digit.saturating_sub(48));
    }
    number
}

// So many letters x. The limit comes first: a count may be far above it.
fn letters(alloc: Global, count: usize) -> Result<Bytes, ScriptFault>
    ensures ok { IfOk result (λ body. limited (replicate count 120) ≡ Ok body) }
    ensures cause { IfErr result (λ e. HasScriptCause e (limited (replicate count 120))) }
{
    if count > BODY_LIMIT {
        return Err(ScriptFault::Body { size: count as u64 });
    }
    Ok(Bytes::from_vec(vec![in alloc; b'x'; count]?))
}

fn limited(alloc: Global, body: &[u8]) -> Result<Bytes, ScriptFault>
    ensures ok { IfOk result (λ copy. limited body.now ≡ Ok copy) }
    ensures cause { IfErr result (λ e. HasScriptCause e (limited body.now)) }
{
    if body.len() > BODY_LIMIT {
        return Err(ScriptFault::Body {
            size: body.len() as u64,
        });
    }
    Ok(Bytes::from_vec(Vec::from_slice(alloc, body)?))
}

// The body of a text that begins with an equals sign and has this rest.
fn escaped_body(alloc: Global, whole: &[u8], rest: &[u8]) -> Result<Bytes, ScriptFault>
    ensures ok { IfOk result (λ body. limited (escaped_body whole.now rest.now) ≡ Ok body) }
    ensures cause { IfErr result (λ e.
        HasScriptCause e (limited (escaped_body whole.now rest.now))) }
{
    if is_count(rest) {
        return letters(alloc, value_of(rest));
    }
    if begins_with(b'=', rest) {
        return limited(alloc, rest);
    }
    limited(alloc, whole)
}

/// The body that the rest of a line gives.
pub fn body_of(alloc: Global, text: &[u8]) -> Result<Bytes, ScriptFault>
    ensures ok { IfOk result (λ body. limited (body_of text.now) ≡ Ok body) }
    ensures cause { IfErr result (λ e. HasScriptCause e (limited (body_of text.now))) }
{
    match text {
        [b'=', rest @ ..] => escaped_body(alloc, text, rest),
        _ => limited(alloc, text),
    }
}
