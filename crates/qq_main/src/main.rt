//! The program `qq`: it hands its words, a shelf and a yard over the system's files, its standard input and its
//! standard output to the broker.
#![tactic(auto)]

use qq_broker::run;
use qq_cluster_run::status;
use qq_ports::{FolderShelf, FolderYard, StdSink, StdSource, write_all};
use qq_taker::{Desk, FixedTaker, Memory, Verdict};
use std::alloc::Global;
use std::process::ExitCode;
use std::rt::Env;
use std::{env, io};

// The words behind the program's name.
fn words(rt: &(impl Env + AllocGlobal)) -> io::Result<Vec<String>> {
    let mut words = Vec::new(rt.alloc());
    for word in env::args(rt)?.skip(1) {
        words.push(word)?;
    }
    Ok(words)
}

// The takers that a script may give to consumers: 1 settles each delivery, 2 returns it, 3 discards it, and 4 keeps it.
fn takers(alloc: Global) -> Result<Desk<FixedTaker>, Memory> {
    let mut desk = Desk::new(alloc);
    desk.add(FixedTaker::new(Verdict::Settle))?;
    desk.add(FixedTaker::new(Verdict::Return))?;
    desk.add(FixedTaker::new(Verdict::Discard))?;
    desk.add(FixedTaker::new(Verdict::Keep))?;
    Ok(desk)
}

// There is no memory to begin with.
fn no_memory(output: &mut StdSink) -> u8 {
    match write_all(output, b"memory\n") {
        Ok(()) => status::NO_MEMORY,
        Err(_) => status::WRITE_FAULT,
    }
}

fn main(rt: HostRuntime) -> ExitCode {
    let mut input = StdSource::new(rt.stdin());
    let mut output = StdSink::new(rt.stdout());
    let mut shelf = FolderShelf::new(rt, String::new(rt.alloc()));
    let mut yard = FolderYard::new(rt, rt.alloc());
    let Ok(mut desk) = takers(rt.alloc()) else {
        return ExitCode::from(no_memory(&mut output));
    };
    let status = match words(&rt) {
        Ok(words) => run(
            &rt,
            &words,
            &mut input,
            &mut output,
            &mut shelf,
            &mut yard,
            &mut desk,
        ),
        Err(error) if error.kind() == io::ErrorKind::OutOfMemory => no_memory(&mut output),
        // Words that aren't text are no command.
        Err(_) => run(
            &rt,
            &[],
            &mut input,
            &mut output,
            &mut shelf,
            &mut yard,
            &mut desk,
        ),
    };
    ExitCode::from(status)
}
