//! What a broker's stop hands back keeps what its run has answered, as a law.
ghost use Rattle.std.specs.Prelude.{◌≡◌, ◌∷◌, [], ℕ, List, None, IsTrue};
ghost use Rattle.qq_disk.specs.declared.image.Image.{Image};
ghost use Rattle.qq_disk.specs.Disk.{now};
ghost use Rattle.qq_raft_protocol.specs.Facts.{In};
ghost use Rattle.qq_route.specs.Setup.{SetupState};
ghost use Rattle.qq_wal_chain.specs.Image.{HasNoJunk};
ghost use Rattle.qq_cluster_model.specs.Cluster.{Crashes};
ghost use Rattle.qq_cluster_model.specs.ClusterLaws.{HasGroups};
ghost use Rattle.qq_cluster_laws.specs.Answers.{KeepsAnswers};
ghost use Rattle.qq_cluster_laws.specs.Held.{Supports};
ghost use Rattle.qq_cluster_run.specs.Serving.{Run};
ghost use Rattle.qq_broker.specs.Broker.{Rests, cluster_at, seen_among, setup_at};
ghost use Rattle.qq_broker.specs.Lives.{Giving, IsGiven};
ghost use Rattle.qq_broker.specs.declared.broker.Audits.{Audits};

use qq_cluster_laws::{disks_support_the_audits, what_was_answered_is_kept};
use qq_disk::NodeDisk;
use qq_recover::a_promised_disk_is_read;
use qq_wal_chain::{a_crash_without_junk_keeps_the_promise, an_empty_disk_keeps_the_promise};

/// A law: the disks that a stopped broker hands back keep what its run has answered, whatever
/// further crashes leave of them. They show their contents, each disk that was given was new, and
/// no crash of the run named an image with junk.
///
/// - `groups`: the run's queues may begin with their groups.
/// - `audits`: what is left supports the audit of each queue.
/// - `answers`: the entry of each answer that was printed is in the logs of a majority.
pub fn a_stopped_broker_keeps_what_it_has_answered<D: NodeDisk>()
    ensures groups { (given : Giving D) (t : SetupState) (disks : List D) (a : Audits D)
        (run : Run) → Rests given D.facts t disks a run → HasGroups (setup_at t run) }
    ensures audits { (given : Giving D) (t : SetupState) (disks : List D) (a : Audits D)
        (run : Run) (groups : HasGroups (setup_at t run)) → Rests given D.facts t disks a run →
        ((k : ℕ) (disk : D) → IsGiven given D.facts k disk → IsTrue (D.facts.tells disk) →
        D.facts.past disk ≡ (λ file. None) ∷ []) →
        ((k : ℕ) → In k (setup_at t run).nodes → IsTrue (seen_among D.facts disks k).tells) →
        ((k : ℕ) (image : Image) → In (Crashes k image) run.events → HasNoJunk image) →
        Supports (setup_at t run) groups (cluster_at t run)
        (λ k. now (seen_among D.facts disks k).past) }
    ensures answers { (given : Giving D) (t : SetupState) (disks : List D) (a : Audits D)
        (run : Run) → Rests given D.facts t disks a run →
        ((k : ℕ) (disk : D) → IsGiven given D.facts k disk → IsTrue (D.facts.tells disk) →
        D.facts.past disk ≡ (λ file. None) ∷ []) →
        ((k : ℕ) → In k (setup_at t run).nodes → IsTrue (seen_among D.facts disks k).tells) →
        ((k : ℕ) (image : Image) → In (Crashes k image) run.events → HasNoJunk image) →
        KeepsAnswers (setup_at t run) run.events (λ k. now (seen_among D.facts disks k).past) }
{
    an_empty_disk_keeps_the_promise();
    a_promised_disk_is_read();
    a_crash_without_junk_keeps_the_promise();
    disks_support_the_audits();
    what_was_answered_is_kept();
}
