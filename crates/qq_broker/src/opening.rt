//! The nodes of a run are opened over disks of its yard.
ghost use Rattle.std.specs.Prelude.{◌≡◌, ◌≤◌, [], All, IfErr, IfOk, IsOkUnless, OnErr, OnOk, length, option_map, vec_capacity};
ghost use Rattle.qq_cluster_run.specs.Runs.{MayNotOpen, ending_of, stop_of};
ghost use Rattle.qq_cluster_run.specs.Service.{HasOpened};
ghost use Rattle.qq_cluster.specs.Setting.{HaveDisks, IsWhole};
ghost use Rattle.qq_broker.specs.Lives.{Giving, under};
ghost use Rattle.qq_broker.specs.Nodes.{Had, Holds, MayRun, Meets};
ghost use Rattle.qq_broker.specs.Serving.{AreGiven, AreUnopened, IsYardEnding, yard_ending};

use crate::stopping::restart_stop;
use qq_base::{Memory, NodeId, Text};
use qq_cluster::{Nodes, Told};
use qq_cluster_run::{Ending, Stop, clusters_begin_with_new_logs};
use qq_disk::NodeDisk;
use qq_opening::open as open_nodes;
use qq_ports::{Yard, YardFault};
use qq_recover::these_disks_may_be_recovered;
use qq_route::Setup;
use qq_taker::Taker;
use std::alloc::Global;

/// How a run ends whose yard gives no disk.
pub fn yard_ending(fault: YardFault) -> Ending
    ensures { result ≡ yard_ending fault }
{
    match fault {
        YardFault::Failed => Ending::yard_fault(),
        YardFault::Memory(_) => Ending::no_memory(),
    }
}

// Disks that the yard gives under a root for the first nodes, one each, in order.
fn disks_of<Y: Yard>(
    alloc: Global,
    count: u8,
    root: Option<&str>,
    yard: &mut Y,
) -> Result<Vec<Y::Disk>, Ending>
    ensures count { IfOk result (λ disks. length disks.items ≡ count) }
    ensures given { IfOk result (λ disks. AreGiven
        (under Y.is_given (option_map (λ text. text.now) root.entry))
        Y.Disk.facts disks.items) }
    ensures whole { IfOk result (λ disks. All (IsWhole Y.Disk.facts) disks.items) }
    ensures cause { IfErr result (IsYardEnding (Y.faults yard.old) (Y.faults yard.new)) }
    ensures later { Y.faults yard.old ≤ Y.faults yard.new }
{
    these_disks_may_be_recovered();
    let mut disks = Vec::new(alloc);
    'nodes: for before in 0..count {
        let disk = match yard.disk(alloc, root, NodeId(before + 1)) {
            Ok(disk) => disk,
            Err(fault) => return Err(yard_ending(fault)),
        };
        if let Err(_) = disks.push(disk) {
            return Err(Ending::no_memory());
        }
    }
    Ok(disks)
}

// The path of a root, if there is one.
fn path_of(root: &Option<Text>) -> Option<&str>
    ensures { option_map (λ text. text.now) result ≡ root.now }
{
    match root {
        Some(text) => Some(text.as_str()),
        None => None,
    }
}

/// Nodes over these disks, all of them down, and the queues of a setup. It moves the disks once there is memory for all
/// else. The only error is `Memory::Want`, out of memory.
///
/// - `ok`: nothing has happened, and each node has its disk, however it was given.
/// - `empty`, `room`: the disks' list is room for them.
/// - `err`: after an error the disks are in their list as before.
pub fn begin_over<D: NodeDisk>(
    alloc: Global,
    setup: &Setup,
    disks: &mut Vec<D>,
) -> Result<Nodes<D>, Memory>
    requires may { MayRun setup.now }
    requires count { length disks.old.items ≡ setup.now.nodes }
    requires whole { All (IsWhole D.facts) disks.old.items }
    ensures ok { (given : Giving D) → AreGiven given D.facts disks.old.items →
        IfOk result (AreUnopened given D.facts setup.now) }
    ensures disks { IfOk result (HaveDisks D.facts disks.old.items) }
    ensures empty { OnOk result (disks.new.items ≡ []) }
    ensures room { vec_capacity disks.new ≡ vec_capacity disks.old }
    ensures err { OnErr result (disks.new ≡ disks.old) }
    ensures want { IsOkUnless result Memory.Want }
{
    clusters_begin_with_new_logs();
    match Nodes::new(alloc, setup.queues.as_slice(), disks, setup.log_bytes) {
        Ok(nodes) => Ok(nodes),
        Err(memory) => Err(memory),
    }
}

// Nodes over disks of the yard.
fn begin<Y: Yard>(
    alloc: Global,
    setup: &Setup,
    root: &Option<Text>,
    yard: &mut Y,
) -> Result<Nodes<Y::Disk>, Ending>
    requires { MayRun setup.now }
    ensures ok { IfOk result (AreUnopened (under Y.is_given root.now)
        Y.Disk.facts setup.now) }
    ensures cause { IfErr result (IsYardEnding (Y.faults yard.old) (Y.faults yard.new)) }
    ensures later { Y.faults yard.old ≤ Y.faults yard.new }
{
    let mut disks = disks_of(alloc, setup.nodes, path_of(root), yard)?;
    match begin_over(alloc, setup, &mut disks) {
        Ok(nodes) => Ok(nodes),
        Err(_) => Err(Ending::no_memory()),
    }
}

/// Opens nodes with the queues of a setup over the disks that the yard gives under a root, new ones without a root,
/// and tells what that prints.
///
/// - `ok`: each node is recovered, some of them without a fault, and its members begin with what its disk holds of
///   their queues. Each queue's first member has stood for election, and a pump has followed.
/// - `cause`: the yard has failed or each node's disk has, a node's files break the rules, what is read of a queue
///   supports no audit, there was no memory, or a number stands at its end.
pub fn open<Y: Yard, T: Taker>(
    alloc: Global,
    setup: &Setup,
    root: &Option<Text>,
    yard: &mut Y,
    told: &mut Told<T>,
) -> Result<Nodes<Y::Disk>, Ending>
    requires { MayRun setup.now }
    ensures ok { IfOk result (λ nodes. HasOpened
        (Had (under Y.is_given root.now) Y.Disk.facts) setup.now
        (Holds (under Y.is_given root.now) Y.Disk.facts setup.now nodes) told.old told.new) }
    ensures cause { IfErr result (MayNotOpen
        (Meets (under Y.is_given root.now) Y.Disk.facts (Y.faults yard.old)
        (Y.faults yard.new)) setup.now) }
    ensures later { Y.faults yard.old ≤ Y.faults yard.new }
{
    clusters_begin_with_new_logs();
    let mut nodes = begin(alloc, setup, root, yard)?;
    match open_nodes(&mut nodes, alloc, told) {
        Ok(some) => {
            if some {
                return Ok(nodes);
            }
            drop(nodes);
            Err(Ending::yard_fault())
        }
        Err(fault) => {
            drop(nodes);
            Err(Stop::from(restart_stop(alloc, setup, fault)).ending())
        }
    }
}
