//! The log of a node is listed.
ghost use Rattle.std.specs.Prelude.{◌≡◌, ◌≤◌, List, Some, IsTrue};
ghost use Rattle.qq_base.specs.Causes.{Rose};
ghost use Rattle.qq_ports.specs.Streams.{SourceState, beside, sink_state};
ghost use Rattle.qq_dump.specs.Files.{AreShown, LogFile};
ghost use Rattle.qq_broker.specs.Dumping.{DumpEnds, HasDumped};
ghost use Rattle.qq_broker.specs.Lives.{under};

use crate::opening::yard_ending;
use crate::program::close;
use qq_base::NodeId;
use qq_cluster_run::Ending;
use qq_cluster_run::status::{DONE, WRITE_FAULT};
use qq_disk::NodeDisk;
use qq_dump::{DumpFault, dump};
use qq_ports::{Sink, Yard};
use std::alloc::Global;

// Writes the text of the log files that a disk shows, and says with which status the run ends.
fn dump_disk<D: NodeDisk, O: Sink>(alloc: Global, disk: &mut D, output: &mut O) -> u8
    ensures ends { (files : List LogFile) × AreShown D.facts disk.old files
        × HasDumped result (Rose (D.facts.faults disk.old) (D.facts.faults disk.new)) files
        (sink_state O.written O.faults output.old) (sink_state O.written O.faults output.new) }
    ensures same { IsTrue (D.facts.tells disk.old) → D.facts.past disk.new ≡ D.facts.past disk.old }
    ensures told { D.facts.tells disk.new ≡ D.facts.tells disk.old }
    ensures later { O.faults output.old ≤ O.faults output.new }
{
    match dump(alloc, disk, output) {
        Ok(()) => DONE,
        Err(DumpFault::Disk) => close(output, Ending::yard_fault()),
        Err(DumpFault::Sink) => WRITE_FAULT,
        Err(DumpFault::NoMemory) => close(output, Ending::no_memory()),
    }
}

/// Writes the text of the log files that a node's disk under a root shows, and says with which status the run ends.
///
/// - `ends`: the yard has given no disk for the node, or one with that text, on which nothing was changed. No input is
///   read.
pub fn dump_node<Y: Yard, O: Sink>(
    alloc: Global,
    root: &str,
    node: NodeId,
    yard: &mut Y,
    output: &mut O,
) -> u8
    ensures ends { (source : SourceState) →
        DumpEnds (under Y.is_given (Some root.now)) Y.Disk.facts result node
        (beside source O.written O.faults output.old)
        (beside source O.written O.faults output.new) (Y.faults yard.old) (Y.faults yard.new) }
    ensures sink_later { O.faults output.old ≤ O.faults output.new }
    ensures yard_later { Y.faults yard.old ≤ Y.faults yard.new }
{
    let mut disk = match yard.disk(alloc, Some(root), node) {
        Ok(disk) => disk,
        Err(fault) => return close(output, yard_ending(fault)),
    };
    dump_disk(alloc, &mut disk, output)
}
