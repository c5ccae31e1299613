//! How a cluster serves lines, as laws: the functions do nothing, and their contracts are the laws.
ghost use Rattle.std.specs.Prelude.{◌≡◌, ◌++◌, [], List, true, false, codes};
ghost use Rattle.std.specs.Fmt.{decimal};
ghost use Rattle.qq_base.specs.declared.ids.NodeId.{NodeId};
ghost use Rattle.qq_base.specs.declared.ids.QueueId.{QueueId};
ghost use Rattle.qq_defs.specs.Runnable.{IsRunnable};
ghost use Rattle.qq_route.specs.Setup.{state_of};
ghost use Rattle.qq_route.specs.declared.setup.Setup.{Setup};
ghost use Rattle.qq_script_lines.specs.declared.line.ScriptLine.{ScriptLine};
ghost use Rattle.qq_script_lines.specs.declared.line.ScriptLine.TheVariants.{Pump, Write, Sync, Notice, Tick};
ghost use Rattle.qq_cluster_model.specs.Cluster.{Setup as ClusterSetup, Cluster, ClusterEvent};
ghost use Rattle.qq_cluster_model.specs.ClusterLaws.{has_failure, findings};
ghost use Rattle.qq_cluster_model.specs.Lines.{IsLine};
ghost use Rattle.qq_cluster_model.specs.Rules.{is_idle};
ghost use Rattle.qq_cluster_model.specs.Texts.{text_of};
ghost use Rattle.qq_cluster_run.specs.Inputs.{Input};
ghost use Rattle.qq_cluster_run.specs.Reading.{AskFor};
ghost use Rattle.qq_cluster_run.specs.Serving.{AnyDisks, Behind};
ghost use Rattle.qq_cluster_run.specs.Setup.{CanBegin, Logs, new_logs};

use crate::setups::clusters_begin_with_new_logs;
use qq_cluster_model::{a_node_that_is_down_says_so, pumps_end, scripts_may_be_served};

/// A law: where each line asks for something, they may all be served, with no call of a disk that fails.
///
/// - `new`: over new logs;
/// - `over`: over whatever logs a cluster may begin with.
pub fn lines_may_be_served()
    ensures new { (s : Setup) (all : List Input) (lines : List ScriptLine) →
        IsRunnable (state_of s) → AskFor s 0 all lines →
        (b : Behind AnyDisks s all []) × (b.logs ≡ new_logs) × (has_failure b.events ≡ false) }
    ensures over { (s : Setup) (logs : Logs) (all : List Input) (lines : List ScriptLine) →
        IsRunnable (state_of s) → CanBegin s logs → AskFor s 0 all lines →
        (b : Behind AnyDisks s all []) × (b.logs ≡ logs) × (has_failure b.events ≡ false) }
{
    clusters_begin_with_new_logs();
    scripts_may_be_served();
}

/// A law: a run goes on only where some node was recovered at its opening.
pub fn runs_have_a_node()
    ensures { (s : Setup) (all left : List Input) (b : Behind AnyDisks s all left) →
        findings b.events ≡ [] → ⊥ }
{}

/// A law: what a line prints that has nothing to do. One that writes, syncs, notices or ticks at a node that is
/// down prints that it is; a pump prints nothing where no op waits and no message is on its way.
pub fn idle_lines_print_that()
    ensures write { (setup : ClusterSetup) (c : Cluster) (node : NodeId)
        (events : List ClusterEvent) → c.up node.0 ≡ false → IsLine setup (Write node) c events →
        text_of setup c events ≡ codes "down " ++ decimal node.0 ++ codes "\n" }
    ensures sync { (setup : ClusterSetup) (c : Cluster) (node : NodeId)
        (events : List ClusterEvent) → c.up node.0 ≡ false → IsLine setup (Sync node) c events →
        text_of setup c events ≡ codes "down " ++ decimal node.0 ++ codes "\n" }
    ensures notice { (setup : ClusterSetup) (c : Cluster) (node : NodeId) (queue : QueueId)
        (events : List ClusterEvent) → c.up node.0 ≡ false →
        IsLine setup (Notice node queue) c events →
        text_of setup c events ≡ codes "down " ++ decimal node.0 ++ codes "\n" }
    ensures tick { (setup : ClusterSetup) (c : Cluster) (node : NodeId) (queue : QueueId)
        (events : List ClusterEvent) → c.up node.0 ≡ false →
        IsLine setup (Tick node queue) c events →
        text_of setup c events ≡ codes "down " ++ decimal node.0 ++ codes "\n" }
    ensures pump { (setup : ClusterSetup) (c : Cluster) (events : List ClusterEvent) →
        is_idle setup c ≡ true → IsLine setup Pump c events → text_of setup c events ≡ [] }
{
    a_node_that_is_down_says_so();
    pumps_end();
}
