//! Nodes are marked as up, or as empty.
ghost use Rattle.std.specs.Prelude.{◌≡◌, ◌<◌, length, not};
ghost use Rattle.qq_cluster.specs.Logs.{NodeTurns};

use qq_cluster::Node;
use qq_disk::NodeDisk;

fn mark<D: NodeDisk>(node: &mut Node<D>, up: bool)
    ensures { node.new ≡ record node.old { up = up; empty = not up } }
{
    node.up = up;
    node.empty = !up;
}

fn mark_at<D: NodeDisk>(nodes: &mut [Node<D>], at: usize, up: bool)
    requires { at < length nodes.old }
    ensures { NodeTurns (λ old new. new ≡ record old { up = up; empty = not up }) at
        nodes.old nodes.new }
{
    mark(&mut nodes[at], up);
}

// The node at an index is up from here on, or down with nothing in its log.
pub(crate) fn mark_in<D: NodeDisk>(nodes: &mut Vec<Node<D>>, at: usize, up: bool)
    requires { at < length nodes.old.items }
    ensures { NodeTurns (λ old new. new ≡ record old { up = up; empty = not up }) at
        nodes.old.items nodes.new.items }
{
    mark_at(nodes, at, up);
}
