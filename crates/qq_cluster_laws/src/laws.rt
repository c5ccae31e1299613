//! What the logs of a cluster's nodes keep of its queues: the functions do nothing, and their contracts
//! are the laws.
ghost use Rattle.std.specs.Prelude.{List, ℕ};
ghost use Rattle.qq_raft_protocol.specs.Facts.{In};
ghost use Rattle.qq_disk.specs.Disk.{Disk};
ghost use Rattle.qq_cluster_model.specs.Cluster.{ClusterEvent, Setup, cluster_after, new_cluster};
ghost use Rattle.qq_cluster_model.specs.ClusterLaws.{HasGroups};
ghost use Rattle.qq_cluster_laws.specs.Held.{Supports};
ghost use Rattle.qq_cluster_laws.specs.Linked.{IsPromised};

use qq_lots::whatever_is_left_lies_between;
use qq_raft_model::the_disks_support_the_audit;

/// A law: where each node's disk keeps what the node's log promised, whatever crashes leave of the
/// disks is read, and supports the audit of each queue. So a row of an audit is on a majority of the
/// disks, among these such as have crashed, and in each log with an entry of a later term than the one
/// that carries it.
pub fn disks_support_the_audits()
    ensures { (setup : Setup) (groups : HasGroups setup) (events : List ClusterEvent)
        (disks : ℕ → Disk) →
        ((k : ℕ) → In k setup.nodes →
        IsPromised setup (cluster_after (new_cluster setup) events) k (disks k)) →
        Supports setup groups (cluster_after (new_cluster setup) events) disks }
{
    the_disks_support_the_audit();
    whatever_is_left_lies_between();
}
