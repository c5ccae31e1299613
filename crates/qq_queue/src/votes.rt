//! The vote of each node's log, as it was found.
ghost use Rattle.std.specs.Prelude.{◌≡◌, ◌≤◌, None, ℕ};
ghost use Rattle.qq_base.specs.Fronts.{put};
ghost use Rattle.qq_log.specs.declared.limits.TheConstants.{NODE_LIMIT};
ghost use Rattle.qq_queue.specs.Agreeing.{found_vote};

use qq_base::NodeId;
use qq_log::NODE_LIMIT;

// A vote for each number of a node, from 0 on.
const VOTES: usize = NODE_LIMIT as usize + 1;

/// A vote for each node, if it gave one.
#[derive(Drop)]
pub struct Votes {
    pub each: [Option<NodeId>; VOTES],
}

impl Votes {
    /// Nobody gave one.
    pub fn new() -> Self
        ensures { (k : ℕ) → found_vote result.each k ≡ None }
    {
        Votes {
            each: [None; VOTES],
        }
    }

    /// A node's vote, none where there is no such node.
    pub fn at(&self, node: NodeId) -> Option<NodeId>
        ensures { result ≡ found_vote self.now.each node.0 }
    {
        match self.each.get(node.0 as usize) {
            None => None,
            Some(vote) => *vote,
        }
    }

    /// Sets a node's vote.
    pub fn set(&mut self, node: NodeId, vote: Option<NodeId>)
        requires { node.0 ≤ NODE_LIMIT }

        ensures { (k : ℕ) →
            found_vote self.new.each k ≡ put node.0 vote (found_vote self.old.each) k }
    {
        self.each[node.0 as usize] = vote;
    }
}
