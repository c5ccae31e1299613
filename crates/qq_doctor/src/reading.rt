//! The nodes' disks are read, one after the other.
ghost use Rattle.std.specs.Prelude.{◌≡◌, ◌≤◌, ◌++◌, ℕ, List, Some, map, IfErr, IfOk, IsOkUnless, OnOk};
ghost use Rattle.std.specs.List.{range_with_len};
ghost use Rattle.qq_log.specs.declared.lane.Lane.{Lane as LaneOf};
ghost use Rattle.qq_doctor.specs.Lanes.{Found as FoundLane};
ghost use Rattle.qq_doctor.specs.Reading.{AreRead, IsRead, MayNotRead, StopsAtFirst, is_member, memory_ending, queues_on, refusal_of, yard_ending};
ghost use Rattle.qq_doctor.specs.Sorted.{AreSorted, of_node};

use crate::found::Found;
use qq_base::{Memory, NodeId, QueueId};
use qq_cluster_run::Ending;
use qq_ports::{Yard, YardFault};
use qq_recover::{RecoverFault, inspect};
use qq_route::{QueueRow, Setup};
use std::alloc::Global;

fn is_member(node: NodeId, nodes: &[NodeId]) -> bool
    ensures { result ≡ is_member node.0 nodes.now }
{
    nodes.iter().any(|own| own.0 == node.0)
}

// The queues of which a node is a member.
fn queues_on(alloc: Global, rows: &[QueueRow], node: NodeId) -> Result<Vec<QueueId>, Memory>
    ensures ok { IfOk result (λ queues. queues.items ≡ queues_on rows.now node.0) }
    ensures want { IsOkUnless result Memory.Want }
{
    let mut queues = Vec::new(alloc);
    'rows: for row in rows {
        let here = is_member(node, row.members.as_slice());
        if here {
            queues.push(row.args.queue)?;
        }
    }
    Ok(queues)
}

fn memory_ending(memory: Memory) -> Ending
    ensures { result ≡ memory_ending memory }
{
    match memory {
        Memory::Want => Ending::no_memory(),
        Memory::Spent { number } => Ending::spent(number),
    }
}

fn yard_ending(fault: YardFault) -> Ending
    ensures { result ≡ yard_ending fault }
{
    match fault {
        YardFault::Failed => Ending::yard_fault(),
        YardFault::Memory(_) => Ending::no_memory(),
    }
}

// Why a node's log isn't read.
fn refusal_of(node: NodeId, fault: RecoverFault) -> Ending
    ensures { result ≡ refusal_of node.0 fault }
{
    match fault {
        RecoverFault::Disk => Ending::yard_fault(),
        RecoverFault::Damaged { file, place } => Ending::damaged(node, file.number, place),
        RecoverFault::Version { file, byte } => Ending::other_version(node, file.number, byte),
        RecoverFault::Memory(memory) => memory_ending(memory),
    }
}

// Reads the log on a node's disk under a root, which isn't changed.
fn read_node<Y: Yard>(
    alloc: Global,
    rows: &[QueueRow],
    root: &str,
    node: NodeId,
    yard: &mut Y,
    found: &mut Found,
) -> Result<(), Ending>
    ensures ok { OnOk result ((lanes : List LaneOf)
        × IsRead (Y.is_given (Some root.now)) Y.Disk.facts rows.now node.0 lanes
        × ((count : ℕ) (before : List FoundLane) → AreSorted count before found.old.rows.items →
        AreSorted count (before ++ map (of_node node.0) lanes) found.new.rows.items)) }
    ensures cause { IfErr result (MayNotRead (Y.is_given (Some root.now)) Y.Disk.facts rows.now
        node.0 (Y.faults yard.old) (Y.faults yard.new)) }
    ensures later { Y.faults yard.old ≤ Y.faults yard.new }
{
    let queues = match queues_on(alloc, rows, node) {
        Ok(queues) => queues,
        Err(_) => return Err(Ending::no_memory()),
    };
    let mut disk = match yard.disk(alloc, Some(root), node) {
        Ok(disk) => disk,
        Err(fault) => return Err(yard_ending(fault)),
    };
    let lanes = match inspect(&mut disk, alloc, queues.as_slice()) {
        Ok(lanes) => lanes,
        Err(fault) => return Err(refusal_of(node, fault)),
    };
    match found.add_all(node, lanes) {
        Ok(()) => Ok(()),
        Err(_) => Err(Ending::no_memory()),
    }
}

/// Reads the logs on all nodes' disks under a root, in the order of the nodes, up to the first that isn't read. No disk
/// is changed.
pub(crate) fn read_nodes<Y: Yard>(
    alloc: Global,
    setup: &Setup,
    root: &str,
    yard: &mut Y,
    found: &mut Found,
) -> Result<(), Ending>
    ensures ok { OnOk result ((lanes : List FoundLane)
        × AreRead (Y.is_given (Some root.now)) Y.Disk.facts setup.now.queues
        (range_with_len 1 setup.now.nodes) lanes
        × ((count : ℕ) (before : List FoundLane) → AreSorted count before found.old.rows.items →
        AreSorted count (before ++ lanes) found.new.rows.items)) }
    ensures cause { IfErr result (StopsAtFirst (Y.is_given (Some root.now)) Y.Disk.facts
        setup.now.queues setup.now.nodes (Y.faults yard.old) (Y.faults yard.new)) }
    ensures later { Y.faults yard.old ≤ Y.faults yard.new }
{
    let rows = setup.queues.as_slice();
    'nodes: for before in 0..setup.nodes {
        match read_node(alloc, rows, root, NodeId(before + 1), yard, found) {
            Ok(()) => (),
            Err(ending) => return Err(ending),
        }
    }
    Ok(())
}
