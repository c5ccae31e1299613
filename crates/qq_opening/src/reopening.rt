//! The nodes of a cluster that was opened before are opened again, all of them.
ghost use Rattle.std.specs.Prelude.{◌≡◌, IfErr, IfOk};
ghost use Rattle.std.specs.List.{list_any};
ghost use Rattle.qq_cluster_model.specs.Cluster.{Cluster, Setup};
ghost use Rattle.qq_cluster_model.specs.Rules.{IsOpening};
ghost use Rattle.qq_cluster.specs.Nodes.{CanServe, Served, Stands};
ghost use Rattle.qq_opening.specs.Restarting.{IsReopening, Refuses, all_nodes};

use crate::restarting::{RestartFault, restart_each};
use qq_cluster::{Nodes, Told};
use qq_disk::NodeDisk;
use qq_taker::Taker;
use std::alloc::Global;

// Whether some node is up.
fn has_up<D: NodeDisk>(nodes: &Nodes<D>) -> bool
    requires { CanServe D.facts nodes.now }
    ensures { (setup : Setup) (c : Cluster) → Stands D.facts setup nodes.now c →
        result ≡ list_any c.up setup.nodes }
{
    let count = nodes.nodes.len();
    'nodes: for at in 0..count {
        let node = nodes.node_id(at);
        let up = nodes.is_up(node);
        if up {
            return true;
        }
    }
    false
}

/// Restarts each node, in order. Then time passes at each queue's first member, and a pump follows. It answers whether
/// some node is up after the restarts. After an error the run ends.
pub fn reopen<D: NodeDisk, T: Taker>(
    nodes: &mut Nodes<D>,
    alloc: Global,
    told: &mut Told<T>,
) -> Result<bool, RestartFault>
    requires { CanServe D.facts nodes.old }
    ensures ok { IfOk result (λ some. Served D.facts (IsReopening some) nodes.old nodes.new
        told.old told.new) }
    ensures err { IfErr result (Refuses D.facts all_nodes IsOpening nodes.old nodes.new told.old) }
{
    restart_each(nodes, alloc, told)?;
    let some = has_up(nodes);
    if let Err(memory) = nodes.tick_each(alloc, told) {
        return Err(RestartFault::Memory(memory));
    }
    if let Err(memory) = nodes.pump(alloc, told) {
        return Err(RestartFault::Memory(memory));
    }
    Ok(some)
}
