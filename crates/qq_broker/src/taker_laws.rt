//! What becomes of the takers of a run, as laws: the functions do nothing, and their contracts are the laws.
ghost use Rattle.std.specs.Prelude.{◌≡◌, ◌++◌, ◌∷◌, ℕ, List, false, true};
ghost use Rattle.qq_route.specs.declared.setup.Setup.{Setup as ScriptSetup};
ghost use Rattle.qq_taker.specs.Takers.{Takers, is_free};
ghost use Rattle.qq_cluster_model.specs.Cluster.{At, ClusterEvent, Setup, new_cluster};
ghost use Rattle.qq_cluster_model.specs.Outcome.{takers_after};
ghost use Rattle.qq_cluster_model.specs.Queue.{Attaches};
ghost use Rattle.qq_cluster_run.specs.Inputs.{Input};
ghost use Rattle.qq_cluster_run.specs.Serving.{Behind, setup_behind};
ghost use Rattle.qq_cluster_run.specs.Troubles.{TakerIsGone};
ghost use Rattle.qq_broker.specs.Lives.{Giving};
ghost use Rattle.qq_broker.specs.Takers.{RunClaims, RunHad, RunMeets};

use qq_disk::NodeDisk;

/// A law: the takers of a run, which were the first at its beginning and the last in its end.
///
/// - `free`: each that a line gives to a consumer is free then: the events before it didn't give it away.
/// - `gone`: that one isn't there is met only where it isn't free after the events so far.
/// - `seen`: what is claimed in the end is that they have seen what the run's events show.
pub fn takers_of_a_run_see_what_it_shows<D: NodeDisk>()
    ensures free { (given : Giving D) (first : Takers) (s : ScriptSetup) (all left : List Input)
        (b : Behind (RunHad given D.facts first) s all left) (before since : List ClusterEvent)
        (place session tag number : ℕ) →
        b.events ≡ before ++ At place (Attaches session tag number) ∷ since →
        is_free number (takers_after (setup_behind b) (new_cluster (setup_behind b)) before first)
        ≡ true }
    ensures gone { (given : Giving D) (first : Takers) (yard_before yard_after : ℕ) (setup : Setup)
        (events : List ClusterEvent) (number : ℕ) →
        RunMeets given D.facts first yard_before yard_after (TakerIsGone setup events number) →
        is_free number (takers_after setup (new_cluster setup) events first) ≡ false }
    ensures seen { (given : Giving D) (first last : Takers) (setup : Setup)
        (events : List ClusterEvent) →
        (RunClaims given D.facts first last).finally setup events →
        last ≡ takers_after setup (new_cluster setup) events first }
{}
