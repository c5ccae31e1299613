//! The laws of a cluster with several queues.
ghost use Rattle.std.specs.Prelude.{◌≡◌, List};
ghost use Rattle.qq_base.specs.declared.ids.NodeId.{NodeId};
ghost use Rattle.qq_script_lines.specs.declared.line.ScriptLine.{ScriptLine};
ghost use Rattle.qq_cluster_model.specs.Cluster.{Cluster, ClusterEvent, Setup, new_cluster};
ghost use Rattle.qq_cluster_model.specs.ClusterLaws.{HasGroups, HasItsQueues, IsServedBy, LeavesNoChoice, MakesNoRound, PrintsOfItsQueues, PrintsWhatIsTrue, SayTheyAreDown};
ghost use Rattle.qq_cluster_model.specs.Lines.{IsLine, IsRun};
ghost use Rattle.qq_cluster_model.specs.Rules.{most_rounds};
ghost use Rattle.qq_cluster_model.specs.Serving.{all_given, run};

use qq_consuming::what_is_out_was_delivered_as_it_is;
use qq_laws::commands_count_by_one;
use qq_raft_model::what_a_group_committed_stays;
use qq_session::commands_are_answered_once;

/// A law: each queue of a cluster is a queue to which its own part of the cluster's events happened,
/// and what is printed of it is what that shows. So each law of one queue is one of each.
pub fn each_queue_is_its_own()
    ensures queues { (setup : Setup) (events : List ClusterEvent) → HasItsQueues setup events }
    ensures prints { (setup : Setup) (events : List ClusterEvent) →
        PrintsOfItsQueues setup events }
{}

/// A law: each answer that is printed at a queue is that of a row of its audit, what is printed as
/// `confirmed` has exactly one publish of its session and number there, and each delivery that is
/// printed is an effect of an entry of it.
pub fn a_cluster_prints_what_is_true()
    ensures { (setup : Setup) (events : List ClusterEvent) → HasGroups setup →
        PrintsWhatIsTrue setup events }
{
    what_a_group_committed_stays();
    commands_count_by_one();
    commands_are_answered_once();
    what_is_out_was_delivered_as_it_is();
}

/// A law: where no call of a disk fails, a line leaves no choice of events, and a whole run none,
/// but for what restarts have found and takers have answered.
pub fn lines_settle()
    ensures line { (setup : Setup) (line : ScriptLine) (c : Cluster) →
        LeavesNoChoice (IsLine setup line) c }
    ensures run { (setup : Setup) (lines : List ScriptLine) →
        LeavesNoChoice (IsRun setup lines) (new_cluster setup) }
{}

/// A law: each script may be served to its end with no failure of a disk, whatever its lines crash
/// and restart: by these events, where each restart finds all that its node's log was given, and each
/// taker keeps what it is offered.
pub fn scripts_may_be_served()
    ensures { (setup : Setup) (lines : List ScriptLine) → HasGroups setup →
        IsServedBy setup lines (run setup all_given lines (new_cluster setup)) }
{}

/// A law: a line that writes, syncs, notices or ticks at a node that is down says so, and nothing
/// happens.
pub fn a_node_that_is_down_says_so()
    ensures { (setup : Setup) (node : NodeId) (c : Cluster) → SayTheyAreDown setup node c }
{}

/// A law: a pump makes 10,000 rounds at most, and none where nothing waits.
pub fn pumps_end()
    ensures most { most_rounds ≡ 10000 }
    ensures idle { (setup : Setup) (c : Cluster) → MakesNoRound setup c }
{}
