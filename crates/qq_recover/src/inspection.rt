//! The lanes, without a change of the disk.
ghost use Rattle.std.specs.Prelude.{◌≡◌, ◌≤◌, ◌<◌, ℕ, List, Ok, IsTrue, IfOk, IfErr, OnOk, IsOkUnless};
ghost use Rattle.qq_base.specs.declared.memory.TheConstants.{NUMBER_END};
ghost use Rattle.qq_base.specs.Causes.{HasCause, SpentOnlyWhere};
ghost use Rattle.qq_disk.specs.declared.name.FileKind.TheVariants.{Log as OfLog};
ghost use Rattle.qq_disk.specs.Disk.{IsListed, now};
ghost use Rattle.qq_disk.specs.Image.{log_of};
ghost use Rattle.qq_wal.specs.Numbers.{greatest_number};
ghost use Rattle.qq_wal_chain.specs.Lanes.{Lanes};
ghost use Rattle.qq_recover.specs.Answer.{Fails};
ghost use Rattle.qq_recover.specs.Lanes.{AreLanes, AddsLane};
ghost use Rattle.qq_recover.specs.Reading.{shown, lanes_read};
ghost use Rattle.qq_recover.specs.ReadOnly.{OnlyReads};
ghost use Rattle.qq_recover.specs.Recovered.{IsRecoverCaused, IsSpentOn};
ghost use Rattle.qq_recover.specs.Table.{lanes_of};

use crate::fault::RecoverFault;
use crate::log::{Log, read_log};
use crate::start::next_number;
use crate::table::Table;
use qq_base::{Memory, QueueId};
use qq_disk::{FileName, NodeDisk};
use qq_log::Lane;
use std::alloc::Global;

/// Adds the lane of a queue, if it has ops.
fn add_lane(
    alloc: Global,
    table: &mut Table,
    queue: QueueId,
    lanes: &mut Vec<Lane>,
) -> Result<(), Memory>
    ensures ok { OnOk result (AddsLane queue (lanes_of table.old) (lanes_of table.new)
        lanes.old.items lanes.new.items) }
    ensures want { IsOkUnless result Memory.Want }
{
    match table.take(queue) {
        Some(state) => {
            lanes.push(state.into_lane(alloc, queue))?;
            Ok(())
        }
        None => Ok(()),
    }
}

/// The lanes of the queues that have ops, in the order of the queues.
fn lanes_in(alloc: Global, queues: &[QueueId], table: Table) -> Result<Vec<Lane>, Memory>
    ensures ok { IfOk result (λ lanes. AreLanes queues.now (lanes_of table) lanes.items) }
    ensures want { IsOkUnless result Memory.Want }
{
    let mut table = table;
    let mut lanes = Vec::new(alloc);
    for i in 0..queues.len() {
        let queue = queues[i];
        add_lane(alloc, &mut table, queue, &mut lanes)?;
    }
    Ok(lanes)
}

/// The lanes of a log that was read, where a file could follow it.
fn lanes_of_log(
    alloc: Global,
    queues: &[QueueId],
    names: &[FileName],
    log: Log,
) -> Result<Vec<Lane>, Memory>
    ensures ok { IfOk result (λ lanes. AreLanes queues.now (lanes_of log.table) lanes.items) }
    ensures end { OnOk result (greatest_number OfLog names.now < NUMBER_END) }
    ensures cause { IfErr result (λ e. SpentOnlyWhere e (greatest_number OfLog names.now)
        (NUMBER_END ≤ greatest_number OfLog names.now)) }
{
    next_number(names)?;
    lanes_in(alloc, queues, log.table)
}

/// The lanes that `recover` would give, of each queue that has ops, in the order of the queues; or why it
/// would give none. It makes no call that changes the disk.
///
/// `Damaged` and `Version` come exactly where the log files that the disk shows break the rules of the log,
/// and tell the first place. `Disk` comes only where the disk's count of faults rose, `Spent` exactly where a
/// listed log file's number is 2^63 or more, with the greatest, as `recover` answers it, and `Want` where there
/// was no memory.
pub fn inspect<D: NodeDisk>(
    disk: &mut D,
    alloc: Global,
    queues: &[QueueId],
) -> Result<Vec<Lane>, RecoverFault>
    ensures ok { IsTrue (D.facts.tells disk.old) → IfOk result (λ lanes. (read : Lanes)
        × (lanes_read queues.now (shown (now (D.facts.past disk.old))) ≡ Ok read)
        × AreLanes queues.now read lanes.items) }
    ensures err { IsTrue (D.facts.tells disk.old) →
        IfErr result (λ e. Fails e (lanes_read queues.now (shown (now (D.facts.past disk.old))))) }
    ensures spent { IsTrue (D.facts.tells disk.old) →
        IfErr result (IsSpentOn (now (D.facts.past disk.old))) }
    ensures end { IsTrue (D.facts.tells disk.old) → (number : ℕ) → NUMBER_END ≤ number →
        IsListed (now (D.facts.past disk.old)) (log_of number) → OnOk result ⊥ }
    ensures reads { OnlyReads D.facts disk.old disk.new }
    ensures cause { HasCause IsRecoverCaused
        (D.facts.faults disk.old) (D.facts.faults disk.new) result }
{
    let names = disk.names(alloc)?;
    match read_log(disk, alloc, names.as_slice(), queues) {
        Ok(log) => Ok(lanes_of_log(alloc, queues, names.as_slice(), log)?),
        Err(fault) => Err(fault),
    }
}
