//! All nodes stop.
ghost use Rattle.std.specs.Prelude.{◌≡◌, ℕ};
ghost use Rattle.qq_cluster_model.specs.Cluster.{Cluster, Setup, cluster_after};
ghost use Rattle.qq_disk.specs.declared.image.Image.{Image};
ghost use Rattle.qq_cluster.specs.Nodes.{CanServe, Stands, seen};
ghost use Rattle.qq_cluster.specs.Stopping.{crashes_with};

use crate::nodes::Nodes;
use qq_disk::NodeDisk;
use std::alloc::Global;

impl<D: NodeDisk> Nodes<D> {
    /// Each node stops, in order, one that is down too: its members stop, and its disk is as it was. It prints nothing.
    ///
    /// - `stands`: these stand for the cluster after a crash of each node, whatever the crashes leave of the disks.
    /// - `disks`: each disk is as it was.
    pub fn stop_each(&mut self, alloc: Global)
        requires { CanServe D.facts self.old }
        ensures stands { (setup : Setup) (c : Cluster) (images : ℕ → Image) →
            Stands D.facts setup self.old c → Stands D.facts setup self.new
            (cluster_after c (crashes_with images setup.nodes)) }
        ensures disks { (k : ℕ) → seen D.facts self.new k ≡ seen D.facts self.old k }
    {
        let count = self.nodes.len();
        'nodes: for at in 0..count {
            let node = self.node_id(at);
            self.stop(alloc, node);
        }
    }
}
