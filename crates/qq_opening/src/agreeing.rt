//! Whether the logs that were found of each queue may be those of one group.
ghost use Rattle.std.specs.Prelude.{◌≡◌, ◌<◌, ◌+◌, All, Contains, IfNone, IfSome, Some, length, slice_get};
ghost use Rattle.qq_queue.specs.Members.{AreSound};
ghost use Rattle.qq_queue.specs.declared.cluster_queue.ClusterQueue.{ClusterQueue as QueueOf};
ghost use Rattle.qq_opening.specs.Opened.{Agrees, Disagrees, TellsLost};

use crate::restarting::RestartFault;
use qq_base::{Memory, QueueId};
use qq_cluster::Nodes;
use qq_disk::NodeDisk;

/// The first queue whose members' logs support no audit, by its index.
pub(crate) fn first_lost<D: NodeDisk>(nodes: &Nodes<D>) -> Option<usize>
    requires { All (λ (d : QueueOf). AreSound d.group) nodes.now.queues.items }
    ensures none { IfNone result (All Agrees nodes.now.queues.items) }
    ensures some { IfSome result (λ at. (at < length nodes.now.queues.items)
        × ((d : QueueOf) → slice_get nodes.now.queues.items at ≡ Some d → Disagrees d)) }
{
    let count = nodes.queues.len();
    'queues: for at in 0..count {
        let queue = &nodes.queues[at];
        let agree = queue.logs_agree();
        if !agree {
            return Some(at);
        }
    }
    None
}

// The one of these queues that stands at an index of all queues.
fn queue_at(queues: &[QueueId], at: usize) -> Option<QueueId>
    ensures { IfSome result (λ queue. Contains queues.now queue × (queue.0 ≡ at + 1)) }
{
    'queues: for queue in queues {
        if queue.0 == 0 {
            continue;
        }
        if queue.0 as usize - 1 == at {
            return Some(*queue);
        }
    }
    None
}

// What is told of a queue that is lost by the node at an index, where that is up and has a member of it.
fn lost_on<D: NodeDisk>(nodes: &Nodes<D>, index: usize, at: usize) -> Option<RestartFault>
    requires index { index < length nodes.now.nodes.items }
    requires place { at < length nodes.now.queues.items }
    ensures { IfSome result (TellsLost at nodes.now) }
{
    let own = &nodes.nodes[index];
    if !own.up {
        return None;
    }
    let Some(queue) = queue_at(&own.queues, at) else {
        return None;
    };
    let Some(found) = nodes.queues[at].last_noticed(own.id) else {
        return None;
    };
    Some(RestartFault::Lost {
        node: own.id,
        queue,
        noticed: 0,
        found,
    })
}

/// What is told of a queue that is lost, by the first node that is up and has a member of it.
pub(crate) fn lost<D: NodeDisk>(nodes: &Nodes<D>, at: usize) -> RestartFault
    requires { at < length nodes.now.queues.items }
    ensures { TellsLost at nodes.now result }
{
    'nodes: for index in 0..nodes.nodes.len() {
        if let Some(fault) = lost_on(nodes, index, at) {
            return fault;
        }
    }
    // Logs without ops agree, so some member has a log.
    RestartFault::Memory(Memory::Want)
}
