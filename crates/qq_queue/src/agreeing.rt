//! Whether the logs that the members went on with may be those of one group.
ghost use Rattle.std.specs.Prelude.{◌≡◌, [], false, true, List};
ghost use Rattle.qq_entry.specs.declared.command.Entry.{Entry as EntryOf};
ghost use Rattle.qq_raft_model.specs.Group.{Group as GroupState};
ghost use Rattle.qq_raft_model.specs.Promises.{IsOpened};
ghost use Rattle.qq_queue.specs.Agreeing.{HasItsLogs};
ghost use Rattle.qq_queue.specs.Members.{AreSound};

use crate::cluster_queue::ClusterQueue;
use qq_agree::{Holder, support_audit};
use qq_base::{NodeId, Term};
use qq_entry::Entry;

impl Holder for ClusterQueue {
    ghost use Rattle.qq_queue.specs.Agreeing.{lane_of};
    ghost use Rattle.qq_queue.specs.Members.{AreSound};

    ghost is_sound = { λ d. AreSound d.group };

    ghost lane = { lane_of };

    fn term(&self, node: NodeId) -> Term {
        match self.group.member(node) {
            None => Term(0),
            Some(state) => state.term,
        }
    }

    fn vote(&self, node: NodeId) -> Option<NodeId> {
        let up = self.is_up(node);
        if !up {
            return None;
        }
        self.votes.at(node)
    }

    fn count(&self, node: NodeId) -> u64 {
        match self.group.member(node) {
            None => 0,
            Some(state) => state.last.0,
        }
    }

    fn entry(&self, node: NodeId, place: u64) -> Option<&Entry> {
        self.group.entry(node, place)
    }
}

impl ClusterQueue {
    /// Whether the logs that the members went on with may be those of one group: whether they support an audit.
    /// Those that are down have none.
    pub fn logs_agree(&self) -> bool
        requires { AreSound self.now.group }

        ensures agree { (g : GroupState) → HasItsLogs self.now g → result ≡ true → IsOpened g [] }
        ensures refuse { (g : GroupState) (whole : List EntryOf) → HasItsLogs self.now g →
            result ≡ false → IsOpened g whole → ⊥ }
    {
        support_audit(self, self.group.members())
    }
}
