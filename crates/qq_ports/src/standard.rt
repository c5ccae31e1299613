ghost use Rattle.std.specs.Prelude.{◌≡◌, None};

use crate::sink::Sink;
use crate::source::{Failed, Source, count_fault};
use std::io::{Read, Stdin, Stdout, Write};

/// The process's standard input. It tells nothing of its bytes.
#[derive(Drop)]
pub struct StdSource {
    input: Stdin,
    faults: u64,
}

/// The process's standard output. It tells nothing of its bytes.
#[derive(Drop)]
pub struct StdSink {
    output: Stdout,
    faults: u64,
}

impl StdSource {
    /// The input, which has not failed yet.
    pub fn new(input: Stdin) -> Self
        ensures { result.faults ≡ 0 }
    {
        StdSource { input, faults: 0 }
    }
}

impl Source for StdSource {
    ghost left = { λ _. None };

    ghost faults = { λ source. source.faults };

    fn read(&mut self, buf: &mut [u8]) -> Result<usize, Failed> {
        match self.input.read(buf) {
            Ok(count) => Ok(count),
            Err(_) => Err(count_fault(&mut self.faults)),
        }
    }
}

impl StdSink {
    /// The output, which has not failed yet.
    pub fn new(output: Stdout) -> Self
        ensures { result.faults ≡ 0 }
    {
        StdSink { output, faults: 0 }
    }
}

impl Sink for StdSink {
    ghost written = { λ _. None };

    ghost faults = { λ sink. sink.faults };

    fn write(&mut self, bytes: &[u8]) -> Result<usize, Failed> {
        match self.output.write(bytes) {
            Ok(count) => {
                if count == 0 && !bytes.is_empty() {
                    count_fault(&mut self.faults);
                }
                Ok(count)
            }
            Err(_) => Err(count_fault(&mut self.faults)),
        }
    }
}
