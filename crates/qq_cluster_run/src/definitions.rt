//! The setup of a script, by its words and by the export that they name.
ghost use Rattle.std.specs.Prelude.{◌≡◌, ◌⊎◌, ◌≤◌, Some, IfOk, IfErr, IsOkUnless, OnOk, ◌++◌};
ghost use Rattle.qq_defs.specs.Runnable.{IsRunnable};
ghost use Rattle.qq_ports.specs.Streams.{Writes, shelf_state, sink_state};
ghost use Rattle.qq_route.specs.Setup.{state_of, plain_setup};
ghost use Rattle.qq_cluster_run.specs.Definitions.{HasMadeCause, IsMadeBy, IsSetupOver, MayNotBegin, MayNotRead, counted, made_counts, made_text, skipped_counts};
ghost use Rattle.qq_cluster_run.specs.Endings.{no_memory};

use crate::ending::Ending;
use crate::stop::PrintFault;
use qq_base::Memory;
use qq_defs::{read, setups_may_be_run};
use qq_ports::{Shelf, ShelfFault, Sink, write_all};
use qq_route::{Made, Setup};
use qq_script::{push_number, push_text};
use qq_words::Options;
use std::alloc::Global;

// So many queues without arguments.
fn plain_setup(alloc: Global, options: &Options) -> Result<Setup, Memory>
    ensures ok { IfOk result (λ setup. state_of setup ≡ plain_setup options.now.nodes
        options.now.group options.now.queues options.now.log_bytes) }
    ensures runs { IfOk result (λ setup. IsRunnable (state_of setup)) }
    ensures want { IsOkUnless result Memory.Want }
{
    setups_may_be_run();
    Setup::plain(
        alloc,
        options.nodes.number(),
        options.group.number(),
        options.queues.number(),
        options.log_bytes,
    )
}

// What the file of this name is read as.
fn read_setup<S: Shelf>(
    alloc: Global,
    options: &Options,
    name: &str,
    shelf: &mut S,
) -> Result<Setup, Ending>
    ensures ok { IfOk result (λ setup.
        IsMadeBy (Some name.now) (S.files shelf.old) options.now (state_of setup)) }
    ensures runs { IfOk result (λ setup. IsRunnable (state_of setup)) }
    ensures cause { IfErr result (λ ending. (ending ≡ no_memory)
        ⊎ MayNotRead (Some name.now) (shelf_state S.files S.faults shelf.old)
        (shelf_state S.files S.faults shelf.new) options.now ending) }
    ensures later { S.faults shelf.old ≤ S.faults shelf.new }
{
    setups_may_be_run();
    let bytes = match shelf.fetch(alloc, name) {
        Ok(bytes) => bytes,
        Err(ShelfFault::Failed) => return Err(Ending::read_fault()),
        Err(ShelfFault::Memory(_)) => return Err(Ending::no_memory()),
    };
    match read(
        alloc,
        bytes.as_slice(),
        options.ignore_policies,
        options.nodes.number(),
        options.log_bytes,
    ) {
        Ok(setup) => Ok(setup),
        Err(fault) => Err(Ending::refused_export(fault)),
    }
}

/// The setup of a script: queues without arguments, or what the shelf's file is read as that the words name.
///
/// - `ok`, `runs`: it is that, and may be run.
/// - `cause`: there was no memory, the shelf has failed, or the export is refused.
pub fn set_up<S: Shelf>(alloc: Global, options: &Options, shelf: &mut S) -> Result<Setup, Ending>
    ensures ok { IfOk result (IsSetupOver (S.files shelf.old) options.now) }
    ensures runs { IfOk result (λ setup. IsRunnable (state_of setup)) }
    ensures cause { IfErr result (MayNotBegin (shelf_state S.files S.faults shelf.old)
        (shelf_state S.files S.faults shelf.new) options.now) }
    ensures later { S.faults shelf.old ≤ S.faults shelf.new }
{
    match &options.definitions {
        None => match plain_setup(alloc, options) {
            Ok(setup) => Ok(setup),
            Err(_) => Err(Ending::no_memory()),
        },
        Some(name) => read_setup(alloc, options, name.as_str(), shelf),
    }
}

/// A count behind its name.
pub(crate) fn push_count(line: &mut Vec<u8>, name: &str, count: u64) -> Result<(), Memory>
    ensures ok { OnOk result (line.new.items ≡ line.old.items ++ counted name.now count) }
    ensures want { IsOkUnless result Memory.Want }
{
    push_text(line, name)?;
    push_number(line, count)
}

fn push_made(line: &mut Vec<u8>, made: &Made) -> Result<(), Memory>
    ensures ok { OnOk result (line.new.items ≡ line.old.items ++ made_counts made.now) }
    ensures want { IsOkUnless result Memory.Want }
{
    push_count(line, "made queues ", made.queues)?;
    push_count(line, " exchanges ", made.exchanges)?;
    push_count(line, " bindings ", made.bindings)
}

fn push_skipped(line: &mut Vec<u8>, made: &Made) -> Result<(), Memory>
    ensures ok { OnOk result (line.new.items ≡ line.old.items ++ skipped_counts made.now) }
    ensures want { IsOkUnless result Memory.Want }
{
    push_count(line, " skipped queues ", made.skipped_queues)?;
    push_count(line, " bindings ", made.skipped_bindings)?;
    push_count(line, " other-vhosts ", made.other_vhosts)?;
    push_text(line, "\n")
}

fn made_line(alloc: Global, made: &Made) -> Result<Vec<u8>, Memory>
    ensures ok { IfOk result (λ line. line.items ≡ made_text (Some made.now)) }
    ensures want { IsOkUnless result Memory.Want }
{
    let mut line = Vec::new(alloc);
    push_made(&mut line, made)?;
    push_skipped(&mut line, made)?;
    Ok(line)
}

/// Writes the line of what was made of an export, which stands before all else. Without an export there is none.
pub fn write_made<O: Sink>(
    alloc: Global,
    made: &Option<Made>,
    output: &mut O,
) -> Result<(), PrintFault>
    ensures ok { OnOk result (Writes (sink_state O.written O.faults output.old)
        (sink_state O.written O.faults output.new) (made_text made.now)) }
    ensures cause { IfErr result (λ fault. HasMadeCause fault made.now
        (sink_state O.written O.faults output.old) (sink_state O.written O.faults output.new)) }
    ensures later { O.faults output.old ≤ O.faults output.new }
{
    let Some(counts) = made else {
        return Ok(());
    };
    let line = match made_line(alloc, counts) {
        Ok(line) => line,
        Err(_) => return Err(PrintFault::NoMemory),
    };
    match write_all(output, line.as_slice()) {
        Ok(()) => Ok(()),
        Err(_) => Err(PrintFault::Failed),
    }
}
