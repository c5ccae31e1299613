//! The doctor, from its words to a status.
ghost use Rattle.std.specs.Prelude.{◌≡◌, ◌≤◌, ℕ, List, length, map, string_bytes, IfErr, IfOk, Some};
ghost use Rattle.qq_ports.specs.Streams.{Writes, shelf_state, sink_state};
ghost use Rattle.qq_cluster_run.specs.Endings.{no_memory};
ghost use Rattle.qq_cluster_run.specs.Runs.{Closes};
ghost use Rattle.qq_defs.specs.Runnable.{IsRunnable};
ghost use Rattle.qq_route.specs.Setup.{state_of};
ghost use Rattle.qq_doctor.specs.Lanes.{Found as FoundLane};
ghost use Rattle.qq_doctor.specs.Report.{DoctorEnds, IsReported, MayNotSay, MayStop, OfSetup, Says, usage};
ghost use Rattle.qq_doctor.specs.Sorted.{AreSorted};
ghost use Rattle.qq_doctor.specs.Words.{read_request};

use crate::found::Found;
use crate::reading::read_nodes;
use crate::report::Report;
use crate::words::{Request, read_request};
use qq_cluster_run::status::{USAGE, WRITE_FAULT};
use qq_cluster_run::{Ending, set_up};
use qq_ports::{Shelf, Sink, Yard, write_all};
use qq_route::Setup;
use std::alloc::Global;

// Writes the closing line, and says with which status the run ends.
fn close<O: Sink>(output: &mut O, ending: Ending) -> u8
    ensures closes { Closes result ending (sink_state O.written O.faults output.old)
        (sink_state O.written O.faults output.new)
        (Writes (sink_state O.written O.faults output.old)
        (sink_state O.written O.faults output.new)) }
    ensures later { O.faults output.old ≤ O.faults output.new }
{
    match ending.write(output) {
        Ok(()) => ending.status(),
        Err(_) => WRITE_FAULT,
    }
}

// The words are none of the doctor's.
fn close_usage<O: Sink>(output: &mut O) -> u8
    ensures closes { Closes result usage (sink_state O.written O.faults output.old)
        (sink_state O.written O.faults output.new)
        (Writes (sink_state O.written O.faults output.old)
        (sink_state O.written O.faults output.new)) }
    ensures later { O.faults output.old ≤ O.faults output.new }
{
    match write_all(output, b"usage: doctor\n") {
        Ok(()) => USAGE,
        Err(_) => WRITE_FAULT,
    }
}

// What is said of the lanes that were found.
fn say(alloc: Global, setup: &Setup, found: &Found) -> Result<Report, Ending>
    requires runs { IsRunnable (state_of setup.now) }
    requires count { length found.now.rows.items ≡ length setup.now.queues }
    ensures ok { IfOk result (λ report. (count : ℕ) (lanes : List FoundLane) →
        AreSorted count lanes found.now.rows.items → Says setup.now.queues lanes report) }
    ensures memory { IfErr result (λ ending. ending ≡ no_memory) }
{
    let mut report = Report::new(alloc);
    match report.add_all(setup, found) {
        Ok(()) => Ok(report),
        Err(_) => Err(Ending::no_memory()),
    }
}

// What is said of a cluster's queues, or why nothing is.
fn examine_nodes<Y: Yard>(
    alloc: Global,
    setup: &Setup,
    root: &str,
    yard: &mut Y,
) -> Result<Report, Ending>
    requires { IsRunnable (state_of setup.now) }
    ensures ok { IfOk result (IsReported (Y.is_given (Some root.now)) Y.Disk.facts setup.now) }
    ensures cause { IfErr result (MayNotSay (Y.is_given (Some root.now)) Y.Disk.facts setup.now
        (Y.faults yard.old) (Y.faults yard.new)) }
    ensures later { Y.faults yard.old ≤ Y.faults yard.new }
{
    let mut found = match Found::new(alloc, setup.queues.len()) {
        Ok(found) => found,
        Err(_) => return Err(Ending::no_memory()),
    };
    match read_nodes(alloc, setup, root, yard, &mut found) {
        Ok(()) => say(alloc, setup, &found),
        Err(ending) => Err(ending),
    }
}

// The same of the cluster that the words name.
fn examine<S: Shelf, Y: Yard>(
    alloc: Global,
    request: &Request,
    shelf: &mut S,
    yard: &mut Y,
) -> Result<Report, Ending>
    ensures ok { IfOk result (λ report. OfSetup request.now.options
        (shelf_state S.files S.faults shelf.old)
        (λ setup. IsReported (Y.is_given (Some request.now.root)) Y.Disk.facts setup report)) }
    ensures cause { IfErr result (MayStop (Y.is_given (Some request.now.root)) Y.Disk.facts
        request.now.options (shelf_state S.files S.faults shelf.old)
        (shelf_state S.files S.faults shelf.new) (Y.faults yard.old) (Y.faults yard.new)) }
    ensures shelf_later { S.faults shelf.old ≤ S.faults shelf.new }
    ensures yard_later { Y.faults yard.old ≤ Y.faults yard.new }
{
    let setup = match set_up(alloc, &request.options, shelf) {
        Ok(setup) => setup,
        Err(ending) => return Err(ending),
    };
    examine_nodes(alloc, &setup, request.root.as_str(), yard)
}

// Writes what is said of a cluster's queues.
fn run_request<O: Sink, S: Shelf, Y: Yard>(
    alloc: Global,
    request: &Request,
    output: &mut O,
    shelf: &mut S,
    yard: &mut Y,
) -> u8
    ensures ends { DoctorEnds Y.is_given Y.Disk.facts result (Some request.now)
        (shelf_state S.files S.faults shelf.old) (shelf_state S.files S.faults shelf.new)
        (sink_state O.written O.faults output.old) (sink_state O.written O.faults output.new)
        (Y.faults yard.old) (Y.faults yard.new) }
    ensures later { O.faults output.old ≤ O.faults output.new }
    ensures shelf_later { S.faults shelf.old ≤ S.faults shelf.new }
    ensures yard_later { Y.faults yard.old ≤ Y.faults yard.new }
{
    let report = match examine(alloc, request, shelf, yard) {
        Ok(report) => report,
        Err(ending) => return close(output, ending),
    };
    match write_all(output, report.text.as_slice()) {
        Ok(()) => report.status(),
        Err(_) => WRITE_FAULT,
    }
}

/// Says of each queue of a stopped cluster, whose nodes' folders stand under a root, up to which place of its log a
/// majority of its members agrees, or where two of them differ. No disk is changed.
///
/// The nodes are read in order, each as recovery would read it, up to the first that isn't read.
///
/// - `ends`: what a run has done that ends with this status. 0, `agree QUEUE K` was written of each queue; or 17, of one
///   or more `differ QUEUE INDEX A:TERM B:TERM`. 2, the words are no request. 3, 5 and 11, the export is refused, the
///   shelf has failed, or the export has too many queues. 7, the yard or a disk has failed. 8, a node's files break the
///   rules of the log at the printed place. 20, a node's log can have no file more. 12, there was no memory. 6, the sink
///   has failed.
/// - `later`, `shelf_later`, `yard_later`: the counts of faults don't fall.
pub fn run_doctor<R: AllocGlobal, O: Sink, S: Shelf, Y: Yard>(
    rt: &R,
    words: &[String],
    output: &mut O,
    shelf: &mut S,
    yard: &mut Y,
) -> u8
    ensures ends { DoctorEnds Y.is_given Y.Disk.facts result
        (read_request (map string_bytes words.now))
        (shelf_state S.files S.faults shelf.old) (shelf_state S.files S.faults shelf.new)
        (sink_state O.written O.faults output.old) (sink_state O.written O.faults output.new)
        (Y.faults yard.old) (Y.faults yard.new) }
    ensures later { O.faults output.old ≤ O.faults output.new }
    ensures shelf_later { S.faults shelf.old ≤ S.faults shelf.new }
    ensures yard_later { Y.faults yard.old ≤ Y.faults yard.new }
{
    let alloc = rt.alloc();
    match read_request(alloc, words) {
        Ok(Some(request)) => run_request(alloc, &request, output, shelf, yard),
        Ok(None) => close_usage(output),
        Err(_) => close(output, Ending::no_memory()),
    }
}
