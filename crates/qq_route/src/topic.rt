ghost use Rattle.std.specs.Prelude.{◌≡◌, ◌↔◌, IsTrue, codes};
ghost use Rattle.qq_route.specs.Topic.{words, do_match, Matches, from_any};
ghost use Rattle.qq_route.specs.Walk.{reach_of, walk};
ghost use Rattle.qq_route.specs.Words.{left};

use crate::words::Words;

/// Where a binding key stops that goes along a routing key.
enum Stop<'a> {
    /// A word isn't taken.
    Fails,
    /// Both end.
    Ends,
    /// To a hash, with what is behind it and what is left of the routing key.
    Comes(Words<'a>, Words<'a>),
}

/// Goes along the key until the pattern comes to a hash.
fn walk<'a>(pattern: Words<'a>, key: Words<'a>) -> Stop<'a>
    ensures { reach_of result ≡ walk (left pattern.entry) (left key.entry) }
{
    let mut pattern = pattern;
    let mut key = key;
    'words: while let Some((wanted, patterns)) = pattern.split_first() {
        if wanted == "#" {
            return Stop::Comes(patterns, key);
        }
        let Some((word, rest)) = key.split_first() else {
            return Stop::Fails;
        };
        if wanted != "*" && wanted != word {
            return Stop::Fails;
        }
        pattern = patterns;
        key = rest;
    }
    match key.split_first() {
        Some(_) => Stop::Fails,
        None => Stop::Ends,
    }
}

/// Whether the pattern takes the key from some word on. What stands before a later hash is taken where it
/// is found first, since the later hash takes all that is skipped otherwise.
fn matches_from_any<'a>(pattern: Words<'a>, key: Words<'a>) -> bool
    ensures { result ≡ from_any (do_match (left pattern.entry)) (left key.entry) }
{
    let mut pattern = pattern;
    let mut key = key;
    'places: loop {
        match walk(pattern, key) {
            Stop::Ends => return true,
            Stop::Comes(patterns, rest) => {
                pattern = patterns;
                key = rest;
            }
            Stop::Fails => match key.split_first() {
                Some((_, rest)) => key = rest,
                None => return false,
            },
        }
    }
}

fn matches<'a>(pattern: Words<'a>, key: Words<'a>) -> bool
    ensures { result ≡ do_match (left pattern.entry) (left key.entry) }
{
    match walk(pattern, key) {
        Stop::Ends => true,
        Stop::Fails => false,
        Stop::Comes(patterns, rest) => matches_from_any(patterns, rest),
    }
}

/// Whether a topic exchange's binding key takes a routing key. It takes no memory, and time of at most the
/// product of both lengths.
pub fn topic_matches(pattern: &str, key: &str) -> bool
    ensures is { result ≡ do_match (words pattern.now) (words key.now) }
    ensures relation { IsTrue result ↔ Matches (words pattern.now) (words key.now) }
{
    matches(Words::new(pattern), Words::new(key))
}
