//! The doctor as a program: it hands its words, a shelf and a yard over the system's files, and its standard output on.
#![tactic(auto)]

use qq_cluster_run::status;
use qq_doctor::run_doctor;
use qq_ports::{FolderShelf, FolderYard, StdSink, write_all};
use std::process::ExitCode;
use std::rt::Env;
use std::{env, io};

// The words behind the program's name.
fn words(rt: &(impl Env + AllocGlobal)) -> io::Result<Vec<String>> {
    let mut words = Vec::new(rt.alloc());
    for word in env::args(rt)?.skip(1) {
        words.push(word)?;
    }
    Ok(words)
}

// There is no memory to begin with.
fn no_memory(output: &mut StdSink) -> u8 {
    match write_all(output, b"memory\n") {
        Ok(()) => status::NO_MEMORY,
        Err(_) => status::WRITE_FAULT,
    }
}

fn main(rt: HostRuntime) -> ExitCode {
    let mut output = StdSink::new(rt.stdout());
    let mut shelf = FolderShelf::new(rt, String::new(rt.alloc()));
    let mut yard = FolderYard::new(rt, rt.alloc());
    let status = match words(&rt) {
        Ok(words) => run_doctor(&rt, &words, &mut output, &mut shelf, &mut yard),
        Err(error) if error.kind() == io::ErrorKind::OutOfMemory => no_memory(&mut output),
        // Words that aren't text are none of the doctor's.
        Err(_) => run_doctor(&rt, &[], &mut output, &mut shelf, &mut yard),
    };
    ExitCode::from(status)
}
