//! What a node's log goes on with: the functions do nothing, and their contracts are the laws.
ghost use Rattle.std.specs.Prelude.{◌≡◌, ℕ, IsTrue, List, Option};
ghost use Rattle.std.specs.List.{AllByRecursion};
ghost use Rattle.qq_base.specs.declared.ids.QueueId.{QueueId};
ghost use Rattle.qq_disk.specs.Disk.{Disk, now};
ghost use Rattle.qq_disk.specs.Moments.{Adds};
ghost use Rattle.qq_disk.specs.declared.image.Image.{Image};
ghost use Rattle.qq_log.specs.declared.lane.Lane.{Lane};
ghost use Rattle.qq_lots.specs.Kept.{IsTied, KeepsPromised};
ghost use Rattle.qq_lots.specs.Left.{AllBetween, state_in};
ghost use Rattle.qq_lots.specs.Lots.{Lot, Parts, new_part};
ghost use Rattle.qq_ports.specs.Yard.{IsAfterCrash, IsNew};
ghost use Rattle.qq_recover.specs.Recovered.{IsLaneFor};
ghost use Rattle.qq_wal_chain.specs.Image.{HasNoJunk};
ghost use Rattle.qq_wal_chain.specs.Lanes.{Lanes};
ghost use Rattle.qq_node_log.specs.declared.node_log.NodeLog.{NodeLog as LogOf};
ghost use Rattle.qq_node_log.specs.Ends.{end_of, lane_end};
ghost use Rattle.qq_node_log.specs.Found.{AllEnd, MeetsPremise};
ghost use Rattle.qq_node_log.specs.Log.{IsRunningIn, IsWhole};

use qq_disk::NodeDisk;
use qq_wal_chain::a_crash_without_junk_keeps_the_promise;

/// A law: where the log goes on.
///
/// - `same`: it knows nothing of a part but its ops.
/// - `between`: where what recovery found of each queue lies between what was synced and what was given, its
///   ops end where its lane does.
/// - `lane`: a lane tells where that is.
pub fn the_log_goes_on_where_its_ops_end<D: NodeDisk>()
    ensures same { (lot : Lot) (parts later : Parts) (log : LogOf D) →
        AllByRecursion (λ (place : ℕ). (later place).ops ≡ (parts place).ops) lot.places →
        IsRunningIn D.facts lot parts log → IsRunningIn D.facts lot later log }
    ensures between { (lot : Lot) (parts : Parts) (lanes : Lanes) → AllBetween lot parts lanes →
        AllEnd lot parts lanes }
    ensures lane { (id : QueueId) (lanes : Lanes) (lane : Option Lane) →
        IsLaneFor id (lanes id.0) lane → lane_end lane ≡ end_of (state_in lanes id) }
{}

/// A law: what is said of parts is said of others that are equal at the places of the lot.
pub fn parts_are_compared_at_their_places()
    ensures promised { (lot : Lot) (parts later : Parts) (d : Disk) →
        AllByRecursion (λ (place : ℕ). later place ≡ parts place) lot.places →
        KeepsPromised lot parts d → KeepsPromised lot later d }
    ensures moments { (lot : Lot) (parts later : Parts) (old new : List Disk) →
        AllByRecursion (λ (place : ℕ). later place ≡ parts place) lot.places →
        Adds (KeepsPromised lot parts) old new → Adds (KeepsPromised lot later) old new }
    ensures tied { (lot : Lot) (parts later : Parts) (d : Disk) →
        AllByRecursion (λ (place : ℕ). later place ≡ parts place) lot.places →
        IsTied lot parts d → IsTied lot later d }
{}

/// A law: a disk on which nothing ever was may be recovered, and has promised nothing.
pub fn a_new_disk_holds_nothing<D: NodeDisk>()
    ensures whole { (queues : List QueueId) (disk : D) →
        (IsTrue (D.facts.tells disk) → IsNew (D.facts.past disk)) → IsWhole D.facts queues disk }
    ensures promised { (lot : Lot) (past : List Disk) → IsNew past →
        KeepsPromised lot (λ place. new_part) (now past) }
{}

/// A law: what was promised stays promised of what a crash leaves, if the image that it names meets the
/// log's premise. An image without junk does.
pub fn what_is_left_after_a_crash_is_promised()
    ensures promised { (lot : Lot) (parts : Parts) (image : Image) (old new : List Disk) →
        KeepsPromised lot parts (now old) → IsAfterCrash image old new →
        MeetsPremise lot image (now old) → KeepsPromised lot parts (now new) }
    ensures honest { (lot : Lot) (image : Image) (d : Disk) → HasNoJunk image →
        MeetsPremise lot image d }
{
    a_crash_without_junk_keeps_the_promise();
}
