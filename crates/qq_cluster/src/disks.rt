//! Nodes get their disks, and give them up.
ghost use Rattle.std.specs.Prelude.{◌≡◌, ◌<◌, ◌≤◌, [], Some, length, slice_get, vec_capacity};
ghost use Rattle.qq_cluster.specs.Crashing.{HasOwn};
ghost use Rattle.qq_cluster.specs.Disks.{GetDisks, GetsDisk, GiveDisks, GivesDisk};
ghost use Rattle.qq_cluster.specs.Logs.{NodeTurns};
ghost use Rattle.qq_cluster.specs.Nodes.{EachHasLog};
ghost use Rattle.qq_cluster.specs.declared.node.Node.{Node as NodeOf};

use crate::node::Node;
use crate::nodes::Nodes;
use qq_disk::NodeDisk;
use qq_node_log::NodeLog;

fn put_own<D: NodeDisk>(node: &mut Node<D>, disk: D)
    ensures { GetsDisk disk node.old node.new }
{
    node.log = Some(NodeLog::Closed(disk));
}

fn put_at<D: NodeDisk>(nodes: &mut [Node<D>], at: usize, disk: D)
    requires { at < length nodes.old }
    ensures { NodeTurns (GetsDisk disk) at nodes.old nodes.new }
{
    put_own(&mut nodes[at], disk);
}

fn put_in<D: NodeDisk>(nodes: &mut Vec<Node<D>>, at: usize, disk: D)
    requires { at < length nodes.old.items }
    ensures { NodeTurns (GetsDisk disk) at nodes.old.items nodes.new.items }
{
    put_at(nodes, at, disk);
}

fn take_own<D: NodeDisk>(node: &mut Node<D>) -> D
    requires { HasOwn node.old }
    ensures { GivesDisk node.old node.new result }
{
    let Some(log) = node.log.take() else {
        unreachable!()
    };
    log.into_disk()
}

fn take_at<D: NodeDisk>(nodes: &mut [Node<D>], at: usize) -> D
    requires place { at < length nodes.old }
    requires own { (node : NodeOf D) → slice_get nodes.old at ≡ Some node → HasOwn node }
    ensures { NodeTurns (λ old new. GivesDisk old new result) at nodes.old nodes.new }
{
    take_own(&mut nodes[at])
}

fn take_in<D: NodeDisk>(nodes: &mut Vec<Node<D>>, at: usize) -> D
    requires place { at < length nodes.old.items }
    requires own { (node : NodeOf D) → slice_get nodes.old.items at ≡ Some node → HasOwn node }
    ensures { NodeTurns (λ old new. GivesDisk old new result) at nodes.old.items nodes.new.items }
{
    take_at(nodes, at)
}

impl<D: NodeDisk> Nodes<D> {
    /// Each node gets its disk of a list, in order, and the list is emptied. It takes no memory.
    ///
    /// - `room`: the list has room for as many as before.
    pub fn put_disks(&mut self, disks: &mut Vec<D>)
        requires { length disks.old.items ≡ length self.old.nodes.items }
        ensures same { self.new ≡ record self.old { nodes = self.new.nodes } }
        ensures disks { GetDisks disks.old.items self.old.nodes.items self.new.nodes.items }
        ensures empty { disks.new.items ≡ [] }
        ensures room { vec_capacity disks.new ≡ vec_capacity disks.old }
    {
        let count = self.nodes.len();
        // From the end, so that none of them is moved.
        'disks: for put in 0..count {
            let Some(disk) = disks.pop() else {
                return;
            };
            put_in(&mut self.nodes, count - 1 - put, disk);
        }
    }

    /// Each node gives up its disk, in order, as it is. It takes no memory.
    pub fn take_disks(&mut self, disks: &mut Vec<D>)
        requires own { EachHasLog self.old.nodes.items }
        requires empty { disks.old.items ≡ [] }
        requires room { length self.old.nodes.items ≤ vec_capacity disks.old }
        ensures same { self.new ≡ record self.old { nodes = self.new.nodes } }
        ensures disks { GiveDisks self.old.nodes.items self.new.nodes.items disks.new.items }
    {
        let count = self.nodes.len();
        'nodes: for at in 0..count {
            let disk = take_in(&mut self.nodes, at);
            disks.push_reserved(disk);
        }
    }
}
