ghost use Rattle.std.specs.Prelude.{◌≡◌, ◌<◌, ◌≤◌, ◌+◌, ◌-◌, ◌++◌, IfOk, OnErr, length, take, min};
ghost use Rattle.std.specs.Io.KnownBytes.{Appends, Consumes, Keeps, IsAtEnd};
ghost use Rattle.qq_base.specs.Causes.{HasCause, Rose};
ghost use Rattle.qq_ports.specs.Faults.{IsCaused};
ghost use Rattle.qq_ports.specs.Memory.{left_of, written_of, read_fails, write_fails, Counts};

use crate::sink::Sink;
use crate::source::{Failed, Source, count_fault};
use qq_base::Memory;
use std::alloc::Global;
use std::io::Read;

/// A source in memory. The calls of a list, counted from 1, fail.
#[derive(Debug, Drop)]
pub struct MemSource {
    bytes: Vec<u8>,
    at: usize,
    calls: u64,
    faults: u64,
    fails: Vec<u64>,
}

/// A sink in memory, with room for so many bytes. The calls of a list, counted from 1, fail, and so does
/// a write that doesn't fit.
#[derive(Debug, Drop)]
pub struct MemSink {
    // As many bytes as there is room for, of which the first `length` were written.
    bytes: Vec<u8>,
    length: usize,
    calls: u64,
    faults: u64,
    fails: Vec<u64>,
}

impl MemSource {
    ghost use Rattle.std.specs.Prelude.{◌≡◌, Some};
    ghost use Rattle.qq_ports.specs.Memory.{left_of};

    /// A source of these bytes. It takes no memory.
    pub fn new(bytes: Vec<u8>, fails: Vec<u64>) -> Self
        ensures left { left_of result ≡ Some bytes.items }
        ensures faults { result.faults ≡ 0 }
        ensures calls { result.calls ≡ 0 }
        ensures fails { result.fails.items ≡ fails.items }
    {
        MemSource {
            bytes,
            at: 0,
            calls: 0,
            faults: 0,
            fails,
        }
    }
}

impl Source for MemSource {
    ghost use Rattle.qq_ports.specs.Memory.{left_of};

    ghost left = { left_of };

    ghost faults = { λ source. source.faults };

    /// As `Source` has it, and besides:
    ///
    /// - `counts`: it fails exactly at the calls that are listed.
    /// - `as_many`: else it gives as many bytes as `buf` takes and it has left.
    fn read(&mut self, buf: &mut [u8]) -> Result<usize, Failed>
        ensures within { IfOk result (λ n. n ≤ length buf.old) }
        ensures ok { IfOk result (λ n.
            Consumes (left_of self.old) (left_of self.new) (take n buf.new)) }
        ensures end { IfOk result (λ n.
            n ≡ 0 → 0 < length buf.old → IsAtEnd (left_of self.new)) }
        ensures err { OnErr result (Keeps (left_of self.old) (left_of self.new)) }
        ensures cause { HasCause IsCaused self.old.faults self.new.faults result }
        ensures counts { Counts (read_fails self.old) self.old.calls self.new.calls
            self.old.faults self.new.faults result }
        ensures fails { self.new.fails ≡ self.old.fails }
        ensures as_many { IfOk result (λ n.
            n ≡ min (length buf.old) (length self.old.bytes.items - self.old.at)) }
    {
        self.calls = self.calls.saturating_add(1);
        if self.fails.contains(&self.calls) {
            return Err(count_fault(&mut self.faults));
        }
        if self.at >= self.bytes.len() {
            return Ok(0);
        }
        let mut rest = &self.bytes[self.at..];
        let count = rest.read(buf).unwrap_or(0);
        self.at += count;
        Ok(count)
    }
}

impl MemSink {
    ghost use Rattle.std.specs.Prelude.{◌≡◌, [], IfOk, IsOkUnless, Some, length};
    ghost use Rattle.qq_ports.specs.Memory.{written_of};

    /// A sink with room for so many bytes, which it takes now.
    pub fn new(alloc: Global, room: usize, fails: Vec<u64>) -> Result<Self, Memory>
        ensures written { IfOk result (λ sink. written_of sink ≡ Some []) }
        ensures room { IfOk result (λ sink. length sink.bytes.items ≡ room) }
        ensures faults { IfOk result (λ sink. sink.faults ≡ 0) }
        ensures calls { IfOk result (λ sink. sink.calls ≡ 0) }
        ensures fails { IfOk result (λ sink. sink.fails.items ≡ fails.items) }
        ensures want { IsOkUnless result Memory.Want }
    {
        Ok(MemSink {
            bytes: vec![in alloc; 0; room]?,
            length: 0,
            calls: 0,
            faults: 0,
            fails,
        })
    }

    /// What was written.
    pub fn bytes(&self) -> &[u8]
        ensures { Some result.now ≡ written_of self.now }
    {
        front(&self.bytes, self.length)
    }
}

// The first bytes, as many as there are.
fn front(bytes: &[u8], count: usize) -> &[u8]
    ensures { result.now ≡ take count bytes.now }
{
    let (front, _) = bytes.split_at(bytes.len().min(count));
    front
}

// Puts a piece at a place of a buffer that has room for it there.
fn put(buffer: &mut [u8], place: usize, piece: &[u8])
    requires { place + length piece.now ≤ length buffer.old }
    ensures front { take (place + length piece.now) buffer.new
        ≡ take place buffer.old ++ piece.now }
    ensures length { length buffer.new ≡ length buffer.old }
{
    let (_, rest) = buffer.split_at_mut(place);
    let (target, _) = rest.split_at_mut(piece.len());
    target.copy_from_slice(piece);
}

impl Sink for MemSink {
    ghost use Rattle.qq_ports.specs.Memory.{written_of};

    ghost written = { written_of };

    ghost faults = { λ sink. sink.faults };

    /// As `Sink` has it, and besides:
    ///
    /// - `counts`: it fails exactly at the calls that are listed, and where the bytes don't fit.
    /// - `whole`: else it takes all of them.
    fn write(&mut self, bytes: &[u8]) -> Result<usize, Failed>
        ensures within { IfOk result (λ n. n ≤ length bytes.now) }
        ensures ok { IfOk result (λ n.
            Appends (written_of self.old) (written_of self.new) (take n bytes.now)) }
        ensures none { IfOk result (λ n.
            n ≡ 0 → 0 < length bytes.now → Rose self.old.faults self.new.faults) }
        ensures err { OnErr result (Keeps (written_of self.old) (written_of self.new)) }
        ensures cause { HasCause IsCaused self.old.faults self.new.faults result }
        ensures counts { Counts (write_fails self.old (length bytes.now))
            self.old.calls self.new.calls self.old.faults self.new.faults result }
        ensures fails { self.new.fails ≡ self.old.fails }
        ensures room { length self.new.bytes.items ≡ length self.old.bytes.items }
        ensures whole { IfOk result (λ n. n ≡ length bytes.now) }
    {
        self.calls = self.calls.saturating_add(1);
        if self.fails.contains(&self.calls)
            || self.bytes.len().saturating_sub(self.length) < bytes.len()
        {
            return Err(count_fault(&mut self.faults));
        }
        if bytes.is_empty() {
            return Ok(0);
        }
        put(&mut self.bytes, self.length, bytes);
        self.length += bytes.len();
        Ok(bytes.len())
    }
}
