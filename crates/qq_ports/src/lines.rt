ghost use Rattle.std.specs.Prelude.{◌≡◌, ◌+◌, ◌<◌, ◌≤◌, ◌++◌, ◌∷◌, [], List, ℕ, Some, None, length, take, drop, IfOk, IfErr, IsOkUnless, IfSome, IfNone, OnOk, OnErr, MatchOption, MatchBool, ◌==◌, position};
ghost use Rattle.std.specs.Io.KnownBytes.{Consumes, Keeps, IsAtEnd};
ghost use Rattle.qq_ports.specs.declared.fault.TheConstants.{LINE_LIMIT};
ghost use Rattle.qq_base.specs.Causes.{HasCause, Rose};
ghost use Rattle.qq_ports.specs.Faults.{IsCaused};
ghost use Rattle.qq_ports.specs.Lines.{HasNoFeed, without_return, ahead, TakesToFeed, TakesPiece, TakesLine, LosesSome, IsGivenUp, HasLineCause, first_line, FirstLineLeads};

use crate::fault::{LINE_LIMIT, LineFault};
use crate::source::{Failed, Source};
use qq_base::{Bytes, Memory};
use std::alloc::Global;
use std::marker::Model;

// How many bytes are read at once.
const CHUNK: usize = 16_384;

/// A reader of a source's lines. Its value is what it has read and not handed out.
#[derive(Debug, Drop)]
pub struct Lines {
    // None until the first line is asked for: making a reader takes no memory.
    chunk: Option<Chunk>,
    // A line that was given back.
    spare: Option<Vec<u8>>,
}

impl Model for Lines {
    ghost use Rattle.std.specs.Prelude.{[], ℕ, List, unwrap_or};

    ghost Value = { List ℕ };

    ghost view = { λ l. unwrap_or l.chunk [] };
}

impl Lines {
    /// A reader that has read nothing. It takes no memory.
    pub fn new() -> Self
        ensures { result ≡ [] }
    {
        Lines {
            chunk: None,
            spare: None,
        }
    }

    /// Takes back a line that was handed out. The next line is written in its memory.
    pub fn reuse(&mut self, line: Bytes)
        ensures { self.new ≡ self.old }
    {
        self.spare = Some(line.into_vec());
    }

    // No bytes, in the memory of a line that was given back, if there is one.
    fn take_spare(&mut self, alloc: Global) -> Vec<u8>
        ensures same { self.new ≡ self.old }
        ensures empty { result.items ≡ [] }
    {
        match self.spare.take() {
            Some(mut line) => {
                line.clear();
                line
            }
            None => Vec::new(alloc),
        }
    }
}

// What was read at once, of which the bytes from `at` to `end` weren't handed out.
#[derive(Debug, Drop)]
struct Chunk {
    bytes: Vec<u8>,
    at: usize,
    end: usize,
}

impl Model for Chunk {
    ghost use Rattle.std.specs.Prelude.{◌<◌, ◌≤◌, ℕ, List, take, drop, vec_len};

    ghost Value = { List ℕ };

    ghost view = { λ c. drop c.at (take c.end c.bytes.items) };

    ghost invariant = { λ c. (c.at ≤ c.end) × (c.end ≤ vec_len c.bytes) × (0 < vec_len c.bytes) };
}

impl Chunk {
    fn new(alloc: Global) -> Result<Self, Memory>
        ensures ok { IfOk result (λ chunk. chunk ≡ []) }
        ensures want { IsOkUnless result Memory.Want }
    {
        Ok(Chunk {
            bytes: vec![in alloc; 0; CHUNK]?,
            at: 0,
            end: 0,
        })
    }

    fn is_drained(&self) -> bool
        ensures { MatchBool result (self.now ≡ []) (0 < length self.now) }
    {
        self.at == self.end
    }

    // The bytes read and not handed out.
    fn pending(&self) -> &[u8]
        ensures { result.now ≡ self.now }
    {
        &self.bytes[self.at..self.end]
    }

    // Passes over so many pending bytes.
    fn pass(&mut self, count: usize)
        requires { count ≤ length self.old }
        ensures { self.new ≡ drop count self.old }
    {
        self.at += count;
    }

    // Reads more, where all that was read was handed out. Answers whether there is more.
    fn fill<I: Source>(&mut self, input: &mut I) -> Result<bool, Failed>
        requires { self.old ≡ [] }
        ensures read { OnOk result (Consumes (I.left input.old) (I.left input.new) self.new) }
        ensures more { IfOk result (λ more. MatchBool more (0 < length self.new)
            ((self.new ≡ []) × IsAtEnd (I.left input.new))) }
        ensures err { OnErr result (Keeps (I.left input.old) (I.left input.new)) }
        ensures cause { HasCause IsCaused (I.faults input.old) (I.faults input.new) result }
    {
        let count = input.read(&mut self.bytes)?;
        self.at = 0;
        self.end = count;
        Ok(count > 0)
    }

    // Whether bytes are pending. It reads more where there are none.
    fn has_more<I: Source>(&mut self, input: &mut I) -> Result<bool, Failed>
        ensures ok { OnOk result (Keeps (ahead self.old (I.left input.old))
            (ahead self.new (I.left input.new))) }
        ensures more { IfOk result (λ more. MatchBool more (0 < length self.new)
            (IsAtEnd (ahead self.new (I.left input.new)))) }
        ensures err { OnErr result (Keeps (ahead self.old (I.left input.old)) (I.left input.new)) }
        ensures cause { HasCause IsCaused (I.faults input.old) (I.faults input.new) result }
    {
        if !self.is_drained() {
            return Ok(true);
        }
        self.fill(input)
    }

    // Moves what is pending up to the next line feed, or all where there is none, to the end of `raw`,
    // and passes over the line feed. Answers whether there was one.
    fn take_piece(&mut self, raw: &mut Vec<u8>) -> Result<bool, LineFault>
        ensures ok { IfOk result (λ found.
            TakesPiece found self.old self.new raw.old.items raw.new.items) }
        ensures fits { OnOk result (length raw.new.items ≤ LINE_LIMIT) }
        ensures cause { IfErr result (λ e. HasNoFeed raw.old.items → (rest : List ℕ) →
            IsGivenUp e (raw.old.items ++ (self.old ++ rest))) }
    {
        match take_to_feed(self.pending(), raw)? {
            Some(place) => {
                self.pass(place + 1);
                Ok(true)
            }
            None => {
                self.pass(self.end - self.at);
                Ok(false)
            }
        }
    }
}

// The place of the first line feed.
fn feed_place(bytes: &[u8]) -> Option<usize>
    ensures { result ≡ position (λ byte. byte == 10) bytes.now }
{
    bytes.iter().position(|byte| *byte == b'\n')
}

// How many bytes stand before the first line feed: all where there is none.
fn prefix_length(bytes: &[u8]) -> usize
    ensures within { result ≤ length bytes.now }
    ensures clean { HasNoFeed (take result bytes.now) }
    ensures feed { result < length bytes.now →
        bytes.now ≡ take result bytes.now ++ 10 ∷ drop (result + 1) bytes.now }
{
    feed_place(bytes).unwrap_or(bytes.len())
}

// Whether a line of so many bytes may have so many more.
fn has_room(length: usize, more: usize) -> bool
    ensures { MatchBool result (length + more ≤ LINE_LIMIT) (LINE_LIMIT < length + more) }
{
    more <= LINE_LIMIT && length <= LINE_LIMIT - more
}

// Adds the bytes before the first line feed, or all where there is none, to what a line has. Answers
// the line feed's place.
fn take_to_feed(pending: &[u8], raw: &mut Vec<u8>) -> Result<Option<usize>, LineFault>
    ensures ok { IfOk result (λ found.
        TakesToFeed found pending.now raw.old.items raw.new.items) }
    ensures fits { OnOk result (length raw.new.items ≤ LINE_LIMIT) }
    ensures cause { IfErr result (λ e. HasNoFeed raw.old.items → (rest : List ℕ) →
        IsGivenUp e (raw.old.items ++ (pending.now ++ rest))) }
{
    let length = prefix_length(pending);
    if !has_room(raw.len(), length) {
        return Err(LineFault::TooLong {
            length: LINE_LIMIT as u64 + 1,
        });
    }
    raw.extend_from_slice(&pending[..length])?;
    if length < pending.len() {
        return Ok(Some(length));
    }
    Ok(None)
}

fn without_return(mut raw: Vec<u8>) -> Vec<u8>
    ensures { result.items ≡ without_return raw.items }
{
    let length = raw.len();
    if length == 0 {
        return raw;
    }
    if raw[length - 1] != b'\r' {
        return raw;
    }
    raw.truncate(length - 1);
    raw
}

// The next line of the source, behind a chunk that was read of it. Its bytes go to `raw`.
fn chunk_line<I: Source>(
    input: &mut I,
    lines: &mut Chunk,
    mut raw: Vec<u8>,
) -> Result<Option<Bytes>, LineFault>
    requires empty { raw.items ≡ [] }
    ensures line { IfOk result (λ found. IfSome found (TakesLine
        (ahead lines.old (I.left input.old)) (ahead lines.new (I.left input.new)))) }
    ensures end { IfOk result (λ found.
        IfNone found (IsAtEnd (ahead lines.old (I.left input.old)))) }
    ensures stays { IfOk result (λ found.
        IfNone found (IsAtEnd (ahead lines.new (I.left input.new)))) }
    ensures read { LosesSome (ahead lines.old (I.left input.old)) (I.left input.new) }
    ensures later { I.faults input.old ≤ I.faults input.new }
    ensures cause { IfErr result (λ e. HasLineCause e (ahead lines.old (I.left input.old))
        (I.left input.new) (Rose (I.faults input.old) (I.faults input.new))) }
{
    'pieces: while lines.has_more(input)? {
        if lines.take_piece(&mut raw)? {
            return Ok(Some(Bytes::from_vec(without_return(raw))));
        }
    }
    if raw.is_empty() {
        return Ok(None);
    }
    Ok(Some(Bytes::from_vec(raw)))
}

/// The next line of the source.
///
/// - `line`: it is the first line ahead: what the reader had read, and then what the source has left.
///   With its ending it is ahead no longer, and it has at most `LINE_LIMIT` bytes before its line feed.
///   The carriage return before the line feed counts there, and isn't handed out. The last line may
///   lack a line feed, and then keeps a carriage return at its end.
/// - `end`: None comes exactly at the end of the input.
/// - `stays`: after None the input is at its end still.
/// - `read`: what the source has left is an end of what was ahead, also after an error.
/// - `later`: the source's count of faults doesn't fall.
/// - `cause`: `Failed` comes only at a counted fault of the source, and then what was read of the bytes
///   ahead has no line feed. `TooLong` comes only where the first line ahead is too long; it is given up
///   at its first byte too many, and that is the length. `Memory(Memory::Want)` may come at any time.
///
/// Where the source tells nothing of its bytes, `line`, `end` and `cause` say nothing of them. After an
/// error the reader isn't used again.
pub fn next_line<I: Source>(
    alloc: Global,
    input: &mut I,
    lines: &mut Lines,
) -> Result<Option<Bytes>, LineFault>
    ensures line { IfOk result (λ found. IfSome found (TakesLine
        (ahead lines.old (I.left input.old)) (ahead lines.new (I.left input.new)))) }
    ensures end { IfOk result (λ found.
        IfNone found (IsAtEnd (ahead lines.old (I.left input.old)))) }
    ensures stays { IfOk result (λ found.
        IfNone found (IsAtEnd (ahead lines.new (I.left input.new)))) }
    ensures read { LosesSome (ahead lines.old (I.left input.old)) (I.left input.new) }
    ensures later { I.faults input.old ≤ I.faults input.new }
    ensures cause { IfErr result (λ e. HasLineCause e (ahead lines.old (I.left input.old))
        (I.left input.new) (Rose (I.faults input.old) (I.faults input.new))) }
{
    let mut chunk = match lines.chunk.take() {
        Some(chunk) => chunk,
        None => Chunk::new(alloc)?,
    };
    let raw = lines.take_spare(alloc);
    let line = chunk_line(input, &mut chunk, raw);
    lines.chunk = Some(chunk);
    line
}

/// A law: the lines of bytes are their first line and the lines of what is behind it.
pub fn lines_law()
    ensures { (bytes : List ℕ) → FirstLineLeads bytes (first_line bytes) }
{}
