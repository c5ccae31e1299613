//! The cluster of a script's setup, as laws: the functions do nothing, and their contracts are the laws.
ghost use Rattle.std.specs.Prelude.{◌≡◌, ◌<◌, ◌-◌, ◌+◌, ◌++◌, ◌∷◌, [], ℕ, List, Some, None, codes, map, min};
ghost use Rattle.std.specs.List.{range_with_len};
ghost use Rattle.std.specs.Fmt.{decimal};
ghost use Rattle.qq_base.specs.declared.ids.QueueId.{QueueId};
ghost use Rattle.qq_entry.specs.Queue.{default_args};
ghost use Rattle.qq_raft_model.specs.Group.{new_group};
ghost use Rattle.qq_route.specs.Routes.{targets};
ghost use Rattle.qq_route.specs.declared.setup.Setup.{Setup};
ghost use Rattle.qq_route.specs.Members.{members};
ghost use Rattle.qq_route.specs.Setup.{plain_setup, state_of};
ghost use Rattle.qq_cluster_model.specs.ClusterLaws.{HasGroups};
ghost use Rattle.qq_cluster_run.specs.Setup.{cluster_of, cluster_setup, new_logs};
ghost use Rattle.qq_defs.specs.Runnable.{IsRunnable};

use qq_raft_model::groups_are_opened;

/// A law: a setup of queues without arguments is a cluster of the nodes 1, 2 and so on. Its queues have the
/// places 1, 2 and so on; each has its name, the arguments that a queue has by default, and a new group of its
/// members.
pub fn a_cluster_has_the_queues_of_its_setup()
    ensures nodes { (nodes group count log_bytes : ℕ) →
        (cluster_of (plain_setup nodes group count log_bytes) new_logs).nodes
        ≡ range_with_len 1 nodes }
    ensures places { (nodes group count log_bytes : ℕ) →
        (cluster_of (plain_setup nodes group count log_bytes) new_logs).places
        ≡ range_with_len 1 count }
    ensures first { (nodes group count log_bytes : ℕ) → 0 < count →
        (cluster_of (plain_setup nodes group count log_bytes) new_logs).first ≡ 1 }
    ensures name { (nodes group count log_bytes before : ℕ) → before < count →
        (cluster_of (plain_setup nodes group count log_bytes) new_logs).name (before + 1)
        ≡ codes "q" ++ decimal (before + 1) }
    ensures args { (nodes group count log_bytes before : ℕ) → before < count →
        (cluster_of (plain_setup nodes group count log_bytes) new_logs).args (before + 1)
        ≡ default_args (record { 0 = before + 1 }) (min group nodes) }
    ensures group { (nodes group count log_bytes before : ℕ) → before < count →
        (cluster_of (plain_setup nodes group count log_bytes) new_logs).group (before + 1)
        ≡ new_group (record { 0 = before + 1 }) (members nodes group before) }
{}

/// A law: what a message is routed to is what the setup's routes give, as the queues' places in order; to an
/// exchange that isn't there it is routed to no queue.
pub fn a_cluster_routes_by_its_setup()
    ensures none { (s : Setup) (exchange key : List ℕ) →
        targets (state_of s).table exchange key ≡ None →
        (cluster_setup s).targets exchange key ≡ [] }
    ensures some { (s : Setup) (exchange key : List ℕ) (queues : List QueueId) →
        targets (state_of s).table exchange key ≡ Some queues →
        (cluster_setup s).targets exchange key ≡ map (λ (queue : QueueId). queue.0) queues }
    ensures by_name { (nodes log_bytes : ℕ) →
        (cluster_of (plain_setup nodes 3 2 log_bytes) new_logs).targets [] (codes "q2")
        ≡ 2 ∷ [] }
    ensures unknown { (nodes log_bytes : ℕ) →
        (cluster_of (plain_setup nodes 3 2 log_bytes) new_logs).targets [] (codes "q3") ≡ [] }
{}

/// A law: the queues of a run's setup begin with new logs: no node has two members of a group, and no member has an
/// entry. So each law of a cluster's queues holds.
pub fn clusters_begin_with_new_logs()
    ensures { (s : Setup) → IsRunnable (state_of s) → HasGroups (cluster_setup s) }
{
    groups_are_opened();
}
