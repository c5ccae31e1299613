//! The nodes of a cluster are opened over their disks.
ghost use Rattle.std.specs.Prelude.{◌≡◌, ◌<◌, ◌||◌, List, IfErr, IfOk, length};
ghost use Rattle.qq_cluster.specs.Setting.{AreNew};
ghost use Rattle.qq_opening.specs.Opened.{IsMarked, OpenedTo};
ghost use Rattle.qq_opening.specs.Opening.{MayNotOpen, OpensOver};
ghost use Rattle.qq_route.specs.declared.queue_row.QueueRow.{QueueRow as Row};

use crate::agreeing::{first_lost, lost};
use crate::marking::mark_in;
use crate::restarting::RestartFault;
use crate::stepping::recover_node;
use qq_base::NodeId;
use qq_cluster::{Nodes, Told};
use qq_cluster_model::a_queue_may_begin_with_new_logs;
use qq_disk::NodeDisk;
use qq_taker::Taker;
use std::alloc::Global;

// Whether the node at an index is up. If its disk has failed, its log counts as empty from here on.
fn settle<D: NodeDisk>(nodes: &mut Nodes<D>, at: usize) -> bool
    requires { at < length nodes.old.nodes.items }
    ensures { IsMarked at result nodes.old nodes.new }
{
    let up = nodes.nodes[at].up;
    if up {
        return true;
    }
    mark_in(&mut nodes.nodes, at, false);
    false
}

// Whether some node is up, this one or one before it.
fn has_opened(some: bool, up: bool) -> bool
    ensures { result ≡ (some || up) }
{
    some || up
}

// Each node is recovered, in order, and its members go on with what was found of them, whatever that is.
fn open_each<D: NodeDisk, T: Taker>(
    nodes: &mut Nodes<D>,
    alloc: Global,
    told: &mut Told<T>,
) -> Result<bool, RestartFault>
    requires { (rows : List Row) × AreNew D.facts rows nodes.old }
    ensures ok { IfOk result (λ some. (rows : List Row) → AreNew D.facts rows nodes.old →
        OpenedTo D.facts rows (length nodes.old.nodes.items) some nodes.old nodes.new
        told.old told.new) }
    ensures err { IfErr result (λ fault. (rows : List Row) → AreNew D.facts rows nodes.old →
        MayNotOpen D.facts rows nodes.old nodes.new fault) }
{
    let mut some = false;
    let count = nodes.nodes.len();
    'nodes: for at in 0..count {
        let node = NodeId(at as u8 + 1);
        recover_node(nodes, alloc, node, true, told)?;
        let up = settle(nodes, at);
        some = has_opened(some, up);
    }
    Ok(some)
}

/// Opens nodes that are new: each is recovered, in order, and its members go on with what was found of them. Then time
/// passes at each queue's first member, and a pump follows. It answers whether some node is up after its recovery; else
/// each of their disks has failed. After an error the run ends.
///
/// - `ok`: the disks held logs that support an audit, and the cluster over these logs was opened. A node whose disk has
///   failed counts as one with empty logs, and so does its disk: it may be restarted only with empty logs.
/// - `err`: a node's files break the rules of a log; the logs of a queue support no audit, so that they aren't of one
///   run (`Lost`, where nothing counts as noticed); there was no memory, or a number stands at its end.
pub fn open<D: NodeDisk, T: Taker>(
    nodes: &mut Nodes<D>,
    alloc: Global,
    told: &mut Told<T>,
) -> Result<bool, RestartFault>
    requires { (rows : List Row) × AreNew D.facts rows nodes.old }
    ensures ok { IfOk result (λ some. (rows : List Row) → AreNew D.facts rows nodes.old →
        OpensOver D.facts rows some nodes.old nodes.new told.old told.new) }
    ensures err { IfErr result (λ fault. (rows : List Row) → AreNew D.facts rows nodes.old →
        MayNotOpen D.facts rows nodes.old nodes.new fault) }
{
    a_queue_may_begin_with_new_logs();
    let some = open_each(nodes, alloc, told)?;
    if let Some(at) = first_lost(nodes) {
        return Err(lost(nodes, at));
    }
    if let Err(memory) = nodes.tick_each(alloc, told) {
        return Err(RestartFault::Memory(memory));
    }
    if let Err(memory) = nodes.pump(alloc, told) {
        return Err(RestartFault::Memory(memory));
    }
    Ok(some)
}
