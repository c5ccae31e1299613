//! Laws of runs over nodes: the functions do nothing, and their contracts are the laws.
ghost use Rattle.std.specs.Prelude.{◌≡◌, ◌⊎◌, ℕ, Bool, IsTrue, List, None, Option};
ghost use Rattle.std.specs.Io.KnownBytes.{Appends, Keeps};
ghost use Rattle.qq_base.specs.Causes.{Rose};
ghost use Rattle.qq_base.specs.declared.ids.NodeId.{NodeId};
ghost use Rattle.qq_defs.specs.Runnable.{IsRunnable};
ghost use Rattle.qq_disk.specs.Disk.{now};
ghost use Rattle.qq_dump.specs.Files.{dump_text, log_files};
ghost use Rattle.qq_ports.specs.Streams.{Streams};
ghost use Rattle.qq_route.specs.Setup.{state_of};
ghost use Rattle.qq_route.specs.declared.setup.Setup.{Setup};
ghost use Rattle.qq_cluster_run.specs.Inputs.{Input};
ghost use Rattle.qq_cluster_run.specs.Serving.{Behind};
ghost use Rattle.qq_cluster_run.specs.Setup.{new_logs};
ghost use Rattle.qq_broker.specs.Dumping.{DumpEnds};
ghost use Rattle.qq_broker.specs.Lives.{Giving, IsGiven, under};
ghost use Rattle.qq_broker.specs.Takers.{RunHad};
ghost use Rattle.qq_taker.specs.Takers.{Takers};

use qq_disk::NodeDisk;
use qq_recover::a_promised_disk_is_read;
use qq_wal_chain::an_empty_disk_keeps_the_promise;

/// A law: without a root a run begins with new logs, where all of its disks show their contents.
pub fn a_run_without_a_root_begins_with_new_logs<D: NodeDisk>()
    ensures { (is_given : Option (List ℕ) → ℕ → D → Bool) (first : Takers) (s : Setup)
        (all left : List Input)
        (b : Behind (RunHad (under is_given None) D.facts first) s all left) →
        IsRunnable (state_of s) → ((disk : D) → IsTrue (D.facts.tells disk)) → b.logs ≡ new_logs }
{
    a_promised_disk_is_read();
    an_empty_disk_keeps_the_promise();
}

/// A law: what the status of a dump tells.
///
/// - `statuses`: it is 0, 6, 7 or 12.
/// - `done`: with 0 nothing was read, and the text of the log files was written that stand on the disk which the yard
///   gave for the node under this root, where that shows its contents.
/// - `failed`: with 7 the yard has failed, or such a disk.
pub fn a_dump_tells_what_was_done<D: NodeDisk>()
    ensures statuses { (given : Giving D) (status : ℕ) (node : NodeId) (before later : Streams)
        (yard yard' : ℕ) →
        DumpEnds given D.facts status node before later yard yard' →
        (status ≡ 0) ⊎ ((status ≡ 6) ⊎ ((status ≡ 7) ⊎ (status ≡ 12))) }
    ensures done { (given : Giving D) (node : NodeId) (before later : Streams) (yard yard' : ℕ) →
        DumpEnds given D.facts 0 node before later yard yard' →
        (disk : D) × IsGiven given D.facts node.0 disk × Keeps before.source.left later.source.left
        × (IsTrue (D.facts.tells disk) → Appends before.sink.written later.sink.written
        (dump_text (log_files (now (D.facts.past disk))))) }
    ensures failed { (given : Giving D) (node : NodeId) (before later : Streams) (yard yard' : ℕ) →
        DumpEnds given D.facts 7 node before later yard yard' →
        Rose yard yard' ⊎ ((disk : D) × IsGiven given D.facts node.0 disk
        × ((last : D) × Rose (D.facts.faults disk) (D.facts.faults last))) }
{}
