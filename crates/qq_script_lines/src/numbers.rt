ghost use Rattle.std.specs.Prelude.{◌≡◌, ◌≤◌, ◌^◌, ◌<◌, map, length, IfOk, IfSome, IsOkUnless};
ghost use Rattle.std.specs.List.{list_all};
ghost use Rattle.std.specs.Option.{option_map};
ghost use Rattle.qq_script_lines.specs.Numbers.{is_digit, has_leading_zero, is_number, number_in, session_of, tag_of, place_of, id_of, all_ids, ids_of};

use crate::words::parts_of;
use qq_base::{Ids, Memory, SessionId};
use qq_entry::IDS_LIMIT;
use std::alloc::Global;

pub fn is_digit(byte: u8) -> bool
    ensures { result ≡ is_digit byte }
{
    48 <= byte && byte <= 57
}

pub fn are_digits(bytes: &[u8]) -> bool
    ensures { result ≡ list_all is_digit bytes.now }
{
    bytes.iter().all(|byte| is_digit(*byte))
}

fn has_leading_zero(digits: &[u8]) -> bool
    ensures { result ≡ has_leading_zero digits.now }
{
    match digits {
        [first, _, ..] => *first == b'0',
        _ => false,
    }
}

/// Whether a word is decimal without leading zeros.
pub fn is_number(word: &[u8]) -> bool
    ensures { result ≡ is_number word.now }
{
    if word.is_empty() || has_leading_zero(word) {
        return false;
    }
    are_digits(word)
}

/// The number that a word writes, from `first` to `last`.
pub fn number_in(first: u64, last: u64, word: &str) -> Option<u64>
    ensures value { result ≡ number_in first last word.now }
    ensures bound { IfSome result (λ number. number ≤ last) }
{
    if !is_number(word.as_bytes()) {
        return None;
    }
    let Ok(number) = word.parse::<u64>() else {
        return None;
    };
    if number < first {
        return None;
    }
    if last < number {
        return None;
    }
    Some(number)
}

/// A client's session by its number.
pub fn session_of(word: &str) -> Option<SessionId>
    ensures { result ≡ session_of word.now }
{
    match number_in(1, 4_294_967_295, word) {
        Some(number) => Some(SessionId::client(number)),
        None => None,
    }
}

/// A consumer's tag, from 1.
pub fn tag_of(word: &str) -> Option<u32>
    ensures { result ≡ tag_of word.now }
{
    match number_in(1, 4_294_967_295, word) {
        Some(tag) => Some(tag as u32),
        None => None,
    }
}

/// A place among messages. No message has place 0.
pub fn place_of(word: &str) -> Option<u32>
    ensures { result ≡ place_of word.now }
{
    match number_in(0, 4_294_967_295, word) {
        Some(place) => Some(place as u32),
        None => None,
    }
}

fn id_of(word: &str) -> Option<u64>
    ensures { result ≡ id_of word.now }
{
    number_in(1, u64::MAX, word)
}

// A number for each word.
#[tactic(auto, using(crate::proofs::Reading::more_ids, crate::proofs::Reading::all_read))]
fn all_ids(alloc: Global, words: &[&str]) -> Result<Option<Ids>, Memory>
    ensures ok { IfOk result (λ ids. ids ≡ all_ids (map (λ word. word.now) words.now)) }
    ensures want { IsOkUnless result Memory.Want }
{
    let mut ids = Ids::new(alloc);
    for word in words {
        match id_of(word) {
            Some(id) => ids.push(id)?,
            None => return Ok(None),
        }
    }
    Ok(Some(ids))
}

/// Numbers from 1 that are joined by commas, no more than a command may have. None where a part isn't one.
pub fn ids_of(alloc: Global, word: &str) -> Result<Option<Ids>, Memory>
    ensures ok { IfOk result (λ ids. ids ≡ ids_of word.now) }
    ensures want { IsOkUnless result Memory.Want }
{
    let parts = parts_of(alloc, ',', word)?;
    if parts.len() > IDS_LIMIT {
        return Ok(None);
    }
    all_ids(alloc, parts.as_slice())
}
