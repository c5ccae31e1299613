//! How many ops of each node's log are synced.
ghost use Rattle.std.specs.Prelude.{◌≡◌, ◌<◌, ◌≤◌, ℕ};
ghost use Rattle.qq_base.specs.Fronts.{put};
ghost use Rattle.qq_log.specs.declared.limits.TheConstants.{NODE_LIMIT};
ghost use Rattle.qq_queue.specs.ClusterQueue.{count_at};

use qq_base::NodeId;
use qq_log::NODE_LIMIT;

// A count for each number of a node, from 0 on.
const COUNTS: usize = NODE_LIMIT as usize + 1;

/// A number for each node.
#[derive(Drop)]
pub struct Counts {
    pub each: [u64; COUNTS],
}

impl Counts {
    /// All are 0.
    pub fn new() -> Self
        ensures { (k : ℕ) → count_at result.each k ≡ 0 }
    {
        Counts { each: [0; COUNTS] }
    }

    /// A node's number, 0 where there is no such node.
    pub fn at(&self, node: NodeId) -> u64
        ensures { result ≡ count_at self.now.each node.0 }
    {
        match self.each.get(node.0 as usize) {
            None => 0,
            Some(count) => *count,
        }
    }

    /// Sets a node's number.
    pub fn set(&mut self, node: NodeId, count: u64)
        requires { node.0 ≤ NODE_LIMIT }

        ensures { (k : ℕ) → count_at self.new.each k ≡ put node.0 count (count_at self.old.each) k }
    {
        self.each[node.0 as usize] = count;
    }
}
