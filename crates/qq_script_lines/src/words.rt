ghost use Rattle.std.specs.Prelude.{◌≡◌, ◌<◌, ◌==◌, ◌∷◌, [], map, position, unwrap_or, IfOk, IsOkUnless};
ghost use Rattle.std.specs.List.{slice_split};
ghost use Rattle.std.specs.Option.{option_map};
ghost use Rattle.qq_script_lines.specs.Words.{is_blank, behind_blank, words_of, words_behind, text_of};

use qq_base::Memory;
use std::alloc::Global;

/// The parts of a text between bytes of one kind.
pub fn parts_of<'a>(alloc: Global, at: char, text: &'a str) -> Result<Vec<&'a str>, Memory>
    requires { at < 128 }

    ensures ok { IfOk result (λ parts.
        map (λ part. part.now) parts.items ≡ slice_split (λ b. b == at) text.now) }
    ensures want { IsOkUnless result Memory.Want }
{
    Ok(text.split(at).collect(alloc)?)
}

// The place of the first blank.
fn blank_place(text: &[u8]) -> Option<usize>
    ensures { result ≡ position is_blank text.now }
{
    text.iter().position(|byte| *byte == b' ')
}

/// The first word, and what stands behind its blank, if it has one.
pub fn first_word(text: &str) -> (&str, Option<&str>)
    ensures words { words_of text.now ≡ result.0.now
        ∷ words_behind (option_map (λ rest. rest.now) result.1) }
    ensures rest { behind_blank text.now
        ≡ unwrap_or (option_map (λ rest. rest.now) result.1) [] }
{
    match blank_place(text.as_bytes()) {
        Some(place) => (&text[..place], Some(&text[place + 1..])),
        None => (text, None),
    }
}

/// The words of what stands behind a blank.
pub fn words_behind<'a>(alloc: Global, rest: Option<&'a str>) -> Result<Vec<&'a str>, Memory>
    ensures ok { IfOk result (λ words. map (λ word. word.now) words.items
        ≡ words_behind (option_map (λ text. text.now) rest.entry)) }
    ensures want { IsOkUnless result Memory.Want }
{
    match rest {
        Some(text) => parts_of(alloc, ' ', text),
        None => Ok(Vec::new(alloc)),
    }
}

/// A text, or `-` for the empty one.
pub fn text_of(word: &str) -> &str
    ensures { result.now ≡ text_of word.now }
{
    match word.as_bytes() {
        [b'-'] => "",
        _ => word,
    }
}
