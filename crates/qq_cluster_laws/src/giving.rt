//! What waits at a node for its write.
ghost use Rattle.std.specs.Prelude.{◌≡◌, ℕ, List, Some, true, All, IsSome};
ghost use Rattle.std.specs.List.{AllByRecursion};
ghost use Rattle.qq_log.specs.Carries.{is_listed};
ghost use Rattle.qq_log.specs.declared.op.Op.{Op};
ghost use Rattle.qq_log.specs.Op.{queue};
ghost use Rattle.qq_log.specs.Stable.{Stable, stable};
ghost use Rattle.qq_lots.specs.Lots.{give, give_batch, ids_of};
ghost use Rattle.qq_cluster_model.specs.Cluster.{Cluster, Setup};
ghost use Rattle.qq_cluster_model.specs.ClusterLaws.{HasGroups};
ghost use Rattle.qq_cluster_model.specs.Queue.{Queue, Writes, happens};
ghost use Rattle.qq_cluster_laws.specs.Linked.{IsReached, lot_of, part_at, parts_at};
ghost use Rattle.qq_cluster_laws.specs.Waiting.{AllWait, AreApart, HasOwnGroups, IsChangeOf, all_waiting, ops_waiting, ops_with_waiting};

use qq_raft_model::the_disks_support_the_audit;

/// A law: the ops of a queue that a node's log was given, and those that wait to follow them.
///
/// - `own`: all of it are changes of that queue.
/// - `gives`: a write gives the log what waits of each queue.
/// - `waits`: what waits of all queues, one queue's behind another's, is each queue's own.
/// - `comes`, `sound`: together it comes to a state, so the log can go on with it.
/// - `listed`: each op that waits is of a queue of the log.
pub fn what_waits_goes_on()
    ensures own { (setup : Setup) (c : Cluster) (place k : ℕ) → HasGroups setup →
        HasOwnGroups setup → IsReached setup c → AllByRecursion
        (IsChangeOf (setup.args place).queue) (ops_with_waiting k (c.queue place)) }
    ensures gives { (k : ℕ) (q : Queue) →
        part_at k (happens q (Writes k)) ≡ give (ops_waiting k q) (part_at k q) }
    ensures waits { (setup : Setup) (c : Cluster) (k : ℕ) → HasGroups setup →
        HasOwnGroups setup → IsReached setup c → AreApart setup setup.places →
        AllWait setup c k (all_waiting setup c k) }
    ensures comes { (setup : Setup) (c : Cluster) (place k : ℕ) → HasGroups setup →
        IsReached setup c → (state : Stable)
        × (stable (ops_with_waiting k (c.queue place)) ≡ Some state) }
    ensures sound { (setup : Setup) (c : Cluster) (k : ℕ) (ops : List Op) → HasGroups setup →
        IsReached setup c → AllWait setup c k ops → AllByRecursion (λ (place : ℕ).
        IsSome (stable (give_batch (lot_of setup k) ops (parts_at c k) place).ops))
        (lot_of setup k).places }
    ensures listed { (setup : Setup) (c : Cluster) (k : ℕ) → HasGroups setup →
        HasOwnGroups setup → IsReached setup c →
        All (λ (op : Op). is_listed (ids_of (lot_of setup k)) (queue op) ≡ true)
        (all_waiting setup c k) }
{
    the_disks_support_the_audit();
}
