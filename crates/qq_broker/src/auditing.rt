//! The audits of a run's queues.
ghost use Rattle.std.specs.Prelude.{◌≤◌, IfErr, OnErr, OnOk};
ghost use Rattle.qq_base.specs.Causes.{HasCause};
ghost use Rattle.qq_ports.specs.Faults.{IsCaused};
ghost use Rattle.qq_ports.specs.Streams.{Writes, sink_state};
ghost use Rattle.qq_cluster_model.specs.Texts.{audits_text};
ghost use Rattle.qq_cluster_run.specs.Pieces.{HasPrefix, HasPrintCause, HasSomePrefix};
ghost use Rattle.qq_cluster_run.specs.Serving.{Run, cluster_in, setup_in};
ghost use Rattle.qq_broker.specs.Lives.{Giving};
ghost use Rattle.qq_broker.specs.Nodes.{Holds, MayRun};

use qq_cluster::Nodes;
use qq_cluster_run::PrintFault;
use qq_disk::NodeDisk;
use qq_ports::{Failed, Sink, write_all};
use qq_route::Setup;
use std::alloc::Global;

// How long a text becomes before it is written.
const PIECE: usize = 32_768;

// Writes the text where it has become long, and empties it.
fn drain<O: Sink>(text: &mut Vec<u8>, output: &mut O) -> Result<(), Failed>
    ensures ok { OnOk result (HasPrefix (sink_state O.written O.faults output.old)
        (sink_state O.written O.faults output.new) text.old.items text.new.items) }
    ensures err { OnErr result (HasSomePrefix (sink_state O.written O.faults output.old)
        (sink_state O.written O.faults output.new) text.old.items) }
    ensures cause { HasCause IsCaused (O.faults output.old) (O.faults output.new) result }
{
    if text.len() < PIECE {
        return Ok(());
    }
    match write_all(output, text) {
        Ok(()) => {
            text.clear();
            Ok(())
        }
        Err(failed) => Err(failed),
    }
}

/// Writes the audits of all queues. `text` is room for their pieces.
pub fn write_audits<D: NodeDisk, O: Sink>(
    alloc: Global,
    setup: &Setup,
    nodes: &Nodes<D>,
    text: &mut Vec<u8>,
    output: &mut O,
) -> Result<(), PrintFault>
    requires may { MayRun setup.now }
    requires holds { (given : Giving D) × ((run : Run)
        × Holds given D.facts setup.now nodes.now run) }
    ensures ok { (given : Giving D) (run : Run) →
        Holds given D.facts setup.now nodes.now run →
        OnOk result (Writes (sink_state O.written O.faults output.old)
        (sink_state O.written O.faults output.new)
        (audits_text (setup_in setup.now run) (cluster_in setup.now run))) }
    ensures err { (given : Giving D) (run : Run) →
        Holds given D.facts setup.now nodes.now run →
        OnErr result (HasSomePrefix (sink_state O.written O.faults output.old)
        (sink_state O.written O.faults output.new)
        (audits_text (setup_in setup.now run) (cluster_in setup.now run))) }
    ensures cause { IfErr result (λ fault.
        HasPrintCause fault (sink_state O.written O.faults output.old)
        (sink_state O.written O.faults output.new)) }
    ensures later { O.faults output.old ≤ O.faults output.new }
{
    text.clear();
    let rows = setup.queues.as_slice();
    for row in rows {
        // A number of the queue that stands at its end is no other than want of memory here: the rows are printed
        // by a machine of their own.
        if let Err(_) = nodes.audit_text(alloc, row.args.queue, text) {
            return Err(PrintFault::NoMemory);
        }
        if let Err(_) = drain(text, output) {
            return Err(PrintFault::Failed);
        }
    }
    match write_all(output, text) {
        Ok(()) => Ok(()),
        Err(_) => Err(PrintFault::Failed),
    }
}
