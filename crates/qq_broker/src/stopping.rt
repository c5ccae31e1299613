//! How a run ends whose nodes can't go on.
ghost use Rattle.std.specs.Prelude.{◌≡◌, nat_eq};
ghost use Rattle.std.specs.Option.{option_copied};
ghost use Rattle.qq_cluster_run.specs.Setup.{place_of, row_at};
ghost use Rattle.qq_broker.specs.Faults.{IsStepStopOf};
ghost use Rattle.qq_broker.specs.Serving.{IsStopOf, memory_stop};

use crate::faults::StepFault;
use qq_base::{Duplicate, Memory, QueueId};
use qq_cluster_run::{AskStop, Ending};
use qq_opening::RestartFault;
use qq_route::{QueueRow, Setup};
use qq_script_lines::ScriptFault;
use std::alloc::Global;

// There is no memory, or a number stands at its end.
fn memory_stop(memory: Memory) -> AskStop
    ensures { result ≡ memory_stop memory }
{
    match memory {
        Memory::Want => AskStop::NoMemory,
        Memory::Spent { number } => AskStop::Ended(Ending::spent(number)),
    }
}

fn is_row(row: &QueueRow, queue: QueueId) -> bool
    ensures { result ≡ nat_eq (place_of row.now) queue.0 }
{
    row.args.queue.0 == queue.0
}

// The row of a queue.
fn row_at(rows: &[QueueRow], queue: QueueId) -> Option<&QueueRow>
    ensures { option_copied result ≡ row_at rows.now queue.0 }
{
    for row in rows {
        if is_row(row, queue) {
            return Some(row);
        }
    }
    None
}

/// A node isn't restarted.
pub fn restart_stop(alloc: Global, setup: &Setup, fault: RestartFault) -> AskStop
    ensures { IsStopOf setup.now fault result }
{
    match fault {
        RestartFault::Damaged { node, file, place } => {
            AskStop::Ended(Ending::damaged(node, file.number, place))
        }
        RestartFault::Version { node, file, byte } => {
            AskStop::Ended(Ending::other_version(node, file.number, byte))
        }
        RestartFault::Lost {
            node,
            queue,
            noticed,
            found,
        } => {
            let Some(row) = row_at(setup.queues.as_slice(), queue) else {
                return AskStop::NoMemory;
            };
            match row.name.copy(alloc) {
                Ok(name) => AskStop::Ended(Ending::lost(node, name, noticed, found)),
                Err(_) => AskStop::NoMemory,
            }
        }
        RestartFault::Memory(memory) => memory_stop(memory),
    }
}

/// The line of this number isn't served.
pub fn step_stop(alloc: Global, setup: &Setup, number: u64, fault: StepFault) -> AskStop
    ensures { IsStepStopOf setup.now number fault result }
{
    match fault {
        StepFault::NoSuch => AskStop::Ended(Ending::refusal(number, ScriptFault::NoSuch)),
        StepFault::Yard => AskStop::Ended(Ending::yard_fault()),
        StepFault::Nodes(fault) => restart_stop(alloc, setup, fault),
    }
}
