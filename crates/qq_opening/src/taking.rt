//! A node's members go on with what was found of them.
ghost use Rattle.std.specs.Prelude.{◌≡◌, ◌<◌, All, IfErr, IfSome, None, OnOk, Option, length, true};
ghost use Rattle.std.specs.Bool.{Decides};
ghost use Rattle.std.specs.List.{AllByRecursion};
ghost use Rattle.qq_log.specs.Stable.{no_snapshot};
ghost use Rattle.qq_log.specs.declared.lane.Lane.{Lane as LaneOf};
ghost use Rattle.qq_group.specs.Group.{server_at};
ghost use Rattle.qq_raft_model.specs.Group.{has_node};
ghost use Rattle.qq_raft_msg.specs.Rpc.{IsNode};
ghost use Rattle.qq_recover.specs.State.{IsWithinEnds};
ghost use Rattle.qq_queue.specs.ClusterQueue.{IsSameQueue};
ghost use Rattle.qq_queue.specs.Members.{AreSound};
ghost use Rattle.qq_node_log.specs.Found.{AreDistinct};
ghost use Rattle.qq_opening.specs.declared.taking.Handed.TheVariants.{AsFound, Known};
ghost use Rattle.qq_opening.specs.Taking.{AllChange, ChangesAt, IsFindCaused, IsTakeCaused, IsTakeCausedAt, IsTakeEachCaused, IsUnused, MayBeHanded, MayFind, MayTakeAt, MayTakeEach, TakesUp, TakesUpOne, handed_of, index_of, log_found, pair_index, pairs};

use crate::restarting::RestartFault;
use qq_base::{Memory, NodeId, QueueId};
use qq_group::RestartFault as TakeFault;
use qq_log::{Lane, Log};
use qq_queue::ClusterQueue;
use std::alloc::Global;

/// What is known of what a member's log was handed.
#[derive(Clone, Copy)]
pub(crate) enum Handed {
    /// What is found of it, as its node is opened.
    AsFound,
    /// Nothing.
    Nothing,
    /// The member knows.
    Known,
}

// What is known of the logs of a node, by whether it is opened, and whether it is known that they are empty.
pub(crate) fn handed_of(opens: bool, empty: bool) -> Handed
    ensures { result ≡ handed_of opens empty }
{
    if opens {
        return Handed::AsFound;
    }
    if empty {
        return Handed::Nothing;
    }
    Handed::Known
}

// The log that a lane makes.
fn log_of_lane(alloc: Global, id: QueueId, lane: Option<Lane>) -> Log
    requires { IfSome lane IsWithinEnds }
    ensures { result ≡ log_found id lane result.room }
{
    match lane {
        Some(lane) => Log::from_lane(lane),
        None => Log::from_lane(Lane::empty(alloc, id)),
    }
}

fn has_no_snapshot(log: &Log) -> bool
    ensures { Decides result (log.now.base ≡ no_snapshot) }
{
    let base = log.base();
    base.index.0 == 0 && base.term.0 == 0 && base.through.0 == 0
}

fn is_unused(log: &Log) -> bool
    requires { log.now.base ≡ no_snapshot }
    ensures { Decides result (IsUnused log.now) }
{
    let (op, term, vote) = log.start();
    op == 0 && term.0 == 0 && vote.is_none() && log.last().0 == 0
}

// Whether a log may be what a member's log was handed, which the member doesn't know itself.
fn may_be_handed(handed: Handed, log: &Log) -> bool
    requires { log.now.base ≡ no_snapshot }
    ensures { Decides result (MayBeHanded handed log.now) }
{
    let (op, _, _) = log.start();
    let unused = is_unused(log);
    match handed {
        Handed::AsFound => op != 0 || unused,
        Handed::Nothing => unused,
        Handed::Known => false,
    }
}

// What a node that is opened was handed isn't known.
fn is_as_found(handed: Handed) -> bool
    ensures { Decides result (handed ≡ AsFound) }
{
    match handed {
        Handed::AsFound => true,
        Handed::Nothing | Handed::Known => false,
    }
}

fn is_known(handed: Handed) -> bool
    ensures { Decides result (handed ≡ Known) }
{
    match handed {
        Handed::Known => true,
        Handed::AsFound | Handed::Nothing => false,
    }
}

// Whether a member may be given a log, as far as it isn't known what its own was handed.
fn check_log(queue: &ClusterQueue, node: NodeId, handed: Handed, log: &Log) -> Result<(), TakeFault>
    ensures ok { OnOk result (MayFind node.0 handed log.now queue.now) }
    ensures cause { IfErr result (IsFindCaused node.0 handed log.now queue.now) }
{
    let (found, _, _) = log.start();
    let plain = has_no_snapshot(log);
    match queue.last_noticed(node) {
        Some(noticed) => {
            let opens = is_as_found(handed);
            // No member knows it before its node was opened.
            if opens {
                return Err(TakeFault::Memory(Memory::Want));
            }
            if !plain {
                return Err(TakeFault::Lost { noticed, found });
            }
            Ok(())
        }
        None => {
            let known = is_known(handed);
            // Each member does once its node was opened, but for those whose log is empty.
            if known {
                return Err(TakeFault::Memory(Memory::Want));
            }
            if !plain {
                return Err(TakeFault::Lost { noticed: 0, found });
            }
            let fits = may_be_handed(handed, log);
            if !fits {
                return Err(TakeFault::Lost { noticed: 0, found });
            }
            Ok(())
        }
    }
}

// A member that is down goes on with what was found.
fn take_up(
    queue: &mut ClusterQueue,
    alloc: Global,
    node: NodeId,
    handed: Handed,
    id: QueueId,
    lane: Option<Lane>,
) -> Result<(), TakeFault>
    requires sound { AreSound queue.old.group }
    requires node { IsNode node }
    requires member { has_node node.0 queue.old.group.nodes.items ≡ true }
    requires down { server_at node.0 queue.old.group ≡ None }
    requires ends { IfSome lane IsWithinEnds }
    ensures sound { AreSound queue.new.group }
    ensures same { IsSameQueue queue.old queue.new }
    ensures ok { OnOk result (TakesUp node.0 handed lane queue.old queue.new) }
    ensures cause { IfErr result (IsTakeCaused node.0 handed lane queue.old) }
{
    let log = log_of_lane(alloc, id, lane);
    check_log(queue, node, handed, &log)?;
    queue.find(alloc, node, log)?;
    Ok(())
}

// The same of the queue at an index.
fn take_up_at(
    queues: &mut [ClusterQueue],
    alloc: Global,
    node: NodeId,
    handed: Handed,
    id: QueueId,
    lane: Option<Lane>,
) -> Result<(), TakeFault>
    requires sound { All (λ (d : ClusterQueue). AreSound d.group) queues.old }
    requires node { IsNode node }
    requires may { MayTakeAt node.0 queues.old id }
    requires ends { IfSome lane IsWithinEnds }
    ensures ok { OnOk result (ChangesAt (TakesUpOne node.0 handed (id, lane)) (index_of id)
        queues.old queues.new) }
    ensures cause { IfErr result (IsTakeCausedAt node.0 handed lane (index_of id) queues.old) }
{
    take_up(
        &mut queues[id.0 as usize - 1],
        alloc,
        node,
        handed,
        id,
        lane,
    )
}

// The same of all of them.
fn take_up_in(
    queues: &mut Vec<ClusterQueue>,
    alloc: Global,
    node: NodeId,
    handed: Handed,
    id: QueueId,
    lane: Option<Lane>,
) -> Result<(), TakeFault>
    requires sound { All (λ (d : ClusterQueue). AreSound d.group) queues.old.items }
    requires node { IsNode node }
    requires may { MayTakeAt node.0 queues.old.items id }
    requires ends { IfSome lane IsWithinEnds }
    ensures ok { OnOk result (ChangesAt (TakesUpOne node.0 handed (id, lane)) (index_of id)
        queues.old.items queues.new.items) }
    ensures cause { IfErr result (IsTakeCausedAt node.0 handed lane (index_of id) queues.old.items) }
{
    take_up_at(queues, alloc, node, handed, id, lane)
}

// The members of these queues on a node that is down go on with what was found of each, in order.
pub(crate) fn take_up_each(
    queues: &mut Vec<ClusterQueue>,
    alloc: Global,
    node: NodeId,
    handed: Handed,
    ids: &[QueueId],
    lanes: Vec<Option<Lane>>,
) -> Result<(), RestartFault>
    requires sound { All (λ (d : ClusterQueue). AreSound d.group) queues.old.items }
    requires node { IsNode node }
    requires may { MayTakeEach node.0 queues.old.items ids.now }
    requires apart { AreDistinct ids.now }
    requires count { length lanes.items ≡ length ids.now }
    requires ends { AllByRecursion (λ (lane : Option LaneOf). IfSome lane IsWithinEnds) lanes.items }
    ensures ok { OnOk result (AllChange pair_index (TakesUpOne node.0 handed)
        (pairs ids.now lanes.items) queues.old.items queues.new.items) }
    ensures cause { IfErr result
        (IsTakeEachCaused node.0 handed (pairs ids.now lanes.items) queues.old.items) }
{
    let mut at = 0;
    'lanes: for lane in lanes {
        let queue = ids[at];
        match take_up_in(queues, alloc, node, handed, queue, lane) {
            Ok(()) => {}
            Err(TakeFault::Lost { noticed, found }) => {
                return Err(RestartFault::Lost {
                    node,
                    queue,
                    noticed,
                    found,
                });
            }
            Err(TakeFault::Memory(memory)) => return Err(RestartFault::Memory(memory)),
        }
        at += 1;
    }
    Ok(())
}
