//! What is read of a queue: its leader's counts, and its audit's rows.
ghost use Rattle.std.specs.Prelude.{◌≡◌, false, IfErr, OnOk};
ghost use Rattle.qq_base.specs.Causes.{SpentOnlyWhere};
ghost use Rattle.qq_base.specs.declared.memory.TheConstants.{NUMBER_END};
ghost use Rattle.qq_cluster_model.specs.Cluster.{Cluster, Setup};
ghost use Rattle.qq_cluster_model.specs.Counts.{counts};
ghost use Rattle.qq_cluster_model.specs.Queue.{audit_rows, has_leader};
ghost use Rattle.qq_queue.specs.Tally.{count_rows};
ghost use Rattle.qq_model.specs.Audit.{stays_within};
ghost use Rattle.qq_model.specs.State.{empty_queue};
ghost use Rattle.qq_cluster.specs.Nodes.{CanServe, IsQueueAt, Stands};

use crate::nodes::Nodes;
use qq_base::{Memory, QueueId};
use qq_disk::NodeDisk;
use qq_queue::Tally;
use std::alloc::Global;

impl<D: NodeDisk> Nodes<D> {
    /// Whether a queue has a member that leads and takes commands.
    pub fn has_leader(&self, queue: QueueId) -> bool
        requires serve { CanServe D.facts self.now }
        requires queue { IsQueueAt queue self.now }
        ensures { (setup : Setup) (c : Cluster) → Stands D.facts setup self.now c →
            result ≡ has_leader (c.queue queue.0) }
    {
        self.queues[queue.0 as usize - 1].leader().is_some()
    }

    /// How many messages are ready at a queue's leader, and how many of its consumers weren't
    /// cancelled, as far as 32 bits count. None exactly where no member leads and takes commands.
    pub fn counts(&self, queue: QueueId) -> Option<(u64, u32)>
        requires serve { CanServe D.facts self.now }
        requires queue { IsQueueAt queue self.now }
        ensures { (setup : Setup) (c : Cluster) → Stands D.facts setup self.now c →
            result ≡ counts (c.queue queue.0) }
    {
        self.queues[queue.0 as usize - 1].counts()
    }

    /// The rows of a queue's audit are counted too. `Spent` comes only where a number of the queue that the audit
    /// makes would be past its end.
    pub fn count_rows(&self, alloc: Global, queue: QueueId, tally: &mut Tally) -> Result<(), Memory>
        requires { IsQueueAt queue self.now }
        ensures ok { OnOk result ((setup : Setup) (c : Cluster) →
            Stands D.facts setup self.now c →
            tally.new ≡ count_rows (audit_rows (c.queue queue.0)) tally.old) }
        ensures cause { IfErr result (λ e. (setup : Setup) (c : Cluster) →
            Stands D.facts setup self.now c → SpentOnlyWhere e NUMBER_END
            (stays_within (empty_queue (c.queue queue.0).args) (c.queue queue.0).group.audit
            ≡ false)) }
    {
        self.queues[queue.0 as usize - 1].count_rows(alloc, tally)
    }
}
