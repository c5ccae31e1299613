//! The law of a drill's statuses.
ghost use Rattle.std.specs.Prelude.{◌≡◌, ◌⊎◌, ℕ, List, codes};
ghost use Rattle.std.specs.Io.KnownBytes.{Appends, Keeps};
ghost use Rattle.qq_base.specs.Causes.{Rose};
ghost use Rattle.qq_log.specs.Stable.{Stable};
ghost use Rattle.qq_ports.specs.Streams.{Streams};
ghost use Rattle.qq_route.specs.Setup.{state_of};
ghost use Rattle.qq_route.specs.declared.setup.Setup.{Setup};
ghost use Rattle.qq_cluster_model.specs.Cluster.{ClusterEvent, Setup as ClusterSetup};
ghost use Rattle.qq_cluster_run.specs.Drilling.{drill_setup, drill_text, parts};
ghost use Rattle.qq_cluster_run.specs.Drills.{DrillEnds, Drilled, cluster_drilled, setup_drilled};
ghost use Rattle.qq_cluster_run.specs.Endings.{lost, spent};
ghost use Rattle.qq_cluster_run.specs.Serving.{IsAtEnd};
ghost use Rattle.qq_cluster_run.specs.Troubles.{Damage, damage_ending};
ghost use Rattle.qq_broker.specs.Lives.{Giving, IsGiven};
ghost use Rattle.qq_broker.specs.Nodes.{Had, HasNumber, HoldsQueue, IsBroken, Meets};

use qq_disk::NodeDisk;

/// A law: what the status of a drill tells.
///
/// - `statuses`: it is 0, 6, 7, 8, 9, 12 or 20.
/// - `unread`: nothing was read.
/// - `done`: with 0 a cluster of the drill's setup was opened, all its parts were done, by events that its disks had,
///   and the whole line of its summary was written.
/// - `cut`: with 6 the sink has failed.
/// - `failed`: with 7 the yard has failed, or a disk that it gave.
/// - `broken`: with 8 a node's log breaks its rules, at the place that was written.
/// - `lost`: with 9 what was written was found of a queue on a node.
/// - `starved`: with 12 there was no memory.
/// - `spent`: with 20 the number that was written stands at its end.
pub fn a_drill_tells_what_was_done<D: NodeDisk>()
    ensures statuses { (given : Giving D) (status number nodes : ℕ) (before later : Streams)
        (yard yard' : ℕ) → DrillEnds status number nodes before later
        (Meets given D.facts yard yard') (Had given D.facts) →
        (status ≡ 0) ⊎ ((status ≡ 6) ⊎ ((status ≡ 7) ⊎ ((status ≡ 8) ⊎ ((status ≡ 9)
        ⊎ ((status ≡ 12) ⊎ (status ≡ 20)))))) }
    ensures unread { (given : Giving D) (status number nodes : ℕ) (before later : Streams)
        (yard yard' : ℕ) → DrillEnds status number nodes before later
        (Meets given D.facts yard yard') (Had given D.facts) →
        Keeps before.source.left later.source.left }
    ensures done { (given : Giving D) (number nodes : ℕ) (before later : Streams)
        (yard yard' : ℕ) → DrillEnds 0 number nodes before later
        (Meets given D.facts yard yard') (Had given D.facts) →
        (s : Setup) × (state_of s ≡ drill_setup nodes)
        × ((whole : Drilled (Had given D.facts) s number (parts s.nodes))
        × Appends before.sink.written later.sink.written
        (drill_text number (setup_drilled whole) (cluster_drilled whole) whole.known)) }
    ensures cut { (given : Giving D) (number nodes : ℕ) (before later : Streams)
        (yard yard' : ℕ) → DrillEnds 6 number nodes before later
        (Meets given D.facts yard yard') (Had given D.facts) →
        Rose before.sink.faults later.sink.faults }
    ensures failed { (given : Giving D) (number nodes : ℕ) (before later : Streams)
        (yard yard' : ℕ) → DrillEnds 7 number nodes before later
        (Meets given D.facts yard yard') (Had given D.facts) →
        (Rose yard yard' ⊎ ((node : ℕ) × ((disk : D) × IsGiven given D.facts node disk
        × ((last : D) × Rose (D.facts.faults disk) (D.facts.faults last)))))
        × Appends before.sink.written later.sink.written (codes "yard fault\n") }
    ensures broken { (given : Giving D) (number nodes : ℕ) (before later : Streams)
        (yard yard' : ℕ) → DrillEnds 8 number nodes before later
        (Meets given D.facts yard yard') (Had given D.facts) →
        (setup : ClusterSetup) × ((events : List ClusterEvent) × ((node : ℕ) × ((damage : Damage)
        × IsBroken given D.facts setup events node damage
        × Appends before.sink.written later.sink.written (damage_ending node damage).text))) }
    ensures lost { (given : Giving D) (number nodes : ℕ) (before later : Streams)
        (yard yard' : ℕ) → DrillEnds 9 number nodes before later
        (Meets given D.facts yard yard') (Had given D.facts) →
        (setup : ClusterSetup) × ((events : List ClusterEvent) × ((node : ℕ) × ((place : ℕ)
        × ((lane : Stable) × ((noticed : ℕ)
        × HoldsQueue given D.facts setup events node place lane
        × Appends before.sink.written later.sink.written
        (lost node (setup.name place) noticed lane.op).text))))) }
    ensures starved { (given : Giving D) (number nodes : ℕ) (before later : Streams)
        (yard yard' : ℕ) → DrillEnds 12 number nodes before later
        (Meets given D.facts yard yard') (Had given D.facts) →
        Appends before.sink.written later.sink.written (codes "memory\n") }
    ensures spent { (given : Giving D) (number nodes : ℕ) (before later : Streams)
        (yard yard' : ℕ) → DrillEnds 20 number nodes before later
        (Meets given D.facts yard yard') (Had given D.facts) →
        (setup : ClusterSetup) × ((events : List ClusterEvent) × ((most : ℕ)
        × HasNumber given D.facts setup events most × IsAtEnd most
        × Appends before.sink.written later.sink.written (spent most).text)) }
{}
