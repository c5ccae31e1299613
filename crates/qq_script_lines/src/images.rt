ghost use Rattle.std.specs.Prelude.{◌≡◌, map, Ok, IfOk, IfErr};
ghost use Rattle.hex.specs.Hex.{decode_of};
ghost use Rattle.qq_script_lines.specs.Images.{left, newest_left, junk_of, cut_of, plain_image, measured_image, image_of};
ghost use Rattle.qq_script_lines.specs.Lines.{HasScriptCause};

use crate::fault::ScriptFault;
use crate::numbers::number_in;
use hex::FromHexError;
use qq_base::{Bytes, Memory};
use qq_disk::{Image, Tail};
use std::alloc::Global;

fn left(newest: Tail, others: Tail) -> Image
    ensures { result ≡ left newest others }
{
    Image {
        newest_log: newest,
        others,
        removed_back: false,
    }
}

// This of the newest log file's pending bytes, and none of another file's.
fn newest_left(newest: Tail) -> Image
    ensures { result ≡ newest_left newest }
{
    left(newest, Tail::Cut(0))
}

fn cut_of(word: &str) -> Result<Image, ScriptFault>
    ensures { result ≡ cut_of word.now }
{
    match number_in(0, u64::MAX, word) {
        Some(count) => Ok(newest_left(Tail::Cut(count))),
        None => Err(ScriptFault::Number),
    }
}

fn junk_of(alloc: Global, word: &str) -> Result<Image, ScriptFault>
    ensures ok { IfOk result (λ image. junk_of (decode_of word.now) ≡ Ok image) }
    ensures cause { IfErr result (λ e. HasScriptCause e (junk_of (decode_of word.now))) }
{
    match hex::decode(alloc, word) {
        Ok(bytes) => Ok(newest_left(Tail::Junk(Bytes::from_vec(bytes)))),
        Err(FromHexError::OutOfMemory) => Err(ScriptFault::Memory(Memory::Want)),
        Err(_) => Err(ScriptFault::Words),
    }
}

fn plain_image(word: &str) -> Result<Image, ScriptFault>
    ensures { result ≡ plain_image word.now }
{
    match word {
        "none" => Ok(newest_left(Tail::Cut(0))),
        "whole" => Ok(left(Tail::Whole, Tail::Whole)),
        _ => Err(ScriptFault::Words),
    }
}

fn measured_image(alloc: Global, word: &str, value: &str) -> Result<Image, ScriptFault>
    ensures ok { IfOk result (λ image. measured_image word.now value.now ≡ Ok image) }
    ensures cause { IfErr result (λ e. HasScriptCause e (measured_image word.now value.now)) }
{
    match word {
        "cut" => cut_of(value),
        "junk" => junk_of(alloc, value),
        _ => Err(ScriptFault::Words),
    }
}

/// The image that words name.
#[tactic(auto, unfolding(crate::specs::Images::image_of))]
pub fn image_of(alloc: Global, words: &[&str]) -> Result<Image, ScriptFault>
    ensures ok { IfOk result (λ image. image_of (map (λ w. w.now) words.now) ≡ Ok image) }
    ensures cause { IfErr result (λ e.
        HasScriptCause e (image_of (map (λ w. w.now) words.now))) }
{
    match words {
        [word] => plain_image(word),
        [word, value] => measured_image(alloc, word, value),
        _ => Err(ScriptFault::Words),
    }
}
