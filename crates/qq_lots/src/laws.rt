//! What the calls of a log make of its queues' parts: the functions do nothing, and their contracts are
//! the laws.
ghost use Rattle.std.specs.Prelude.{◌≡◌, ◌≤◌, ◌++◌, [], ℕ, List, Some, length, take};
ghost use Rattle.std.specs.List.{AllByRecursion};
ghost use Rattle.qq_base.specs.Fronts.{IsFront};
ghost use Rattle.qq_disk.specs.Crash.{Remains, IsImage, reopen};
ghost use Rattle.qq_disk.specs.Disk.{Disk, now};
ghost use Rattle.qq_disk.specs.Moments.{Adds};
ghost use Rattle.qq_log.specs.declared.op.Op.{Op};
ghost use Rattle.qq_log.specs.Stable.{stable};
ghost use Rattle.qq_recover.specs.Recovery.{SettlesLanes};
ghost use Rattle.qq_wal.specs.Running.{top, HoldsAlso, MayNotice, StaysGiving, StillHolds, Stays};
ghost use Rattle.qq_wal_chain.specs.Lanes.{Lanes};
ghost use Rattle.qq_wal_chain.specs.Laws.{HoldsOps, IsHonestImage, KeepsPromise, lanes_read};
ghost use Rattle.qq_lots.specs.Kept.{AllPromised, IsTied, KeepsPromised, LacksRest};
ghost use Rattle.qq_lots.specs.Left.{AllBetween, LeavesBetween, ops_found, state_in};
ghost use Rattle.qq_lots.specs.Lots.{Lot, Parts, find_each, give_batch, ids_of, keep_all, new_part};

/// A law: where a disk keeps what the log promised, whatever a crash leaves gives each queue a state
/// between the last op that a sync has kept and the last one that was given to an append.
///
/// - `now`, `moments`: so it is of the disk as it is, and of each moment since.
/// - `words`: recovery reads what is left, and each queue's state is what as many of its first ops give as
///   the state says. These are no fewer than are synced, and no more than were given.
pub fn whatever_is_left_lies_between()
    ensures now { (lot : Lot) (parts : Parts) (d : Disk) → KeepsPromised lot parts d →
        LeavesBetween lot parts d }
    ensures moments { (lot : Lot) (parts : Parts) (old new : List Disk) →
        Adds (KeepsPromised lot parts) old new → Adds (LeavesBetween lot parts) old new }
    ensures words { (lot : Lot) (parts : Parts) (d : Disk) (image : Remains) →
        KeepsPromised lot parts d → IsImage d image → IsHonestImage (ids_of lot) d image →
        (lanes : Lanes) × (lanes_read (ids_of lot) top image ≡ Some lanes)
        × AllByRecursion (λ (place : ℕ). ((parts place).synced ≤ (state_in lanes (lot.id place)).op)
        × ((state_in lanes (lot.id place)).op ≤ length (parts place).ops)
        × (stable (take (state_in lanes (lot.id place)).op (parts place).ops)
        ≡ Some (state_in lanes (lot.id place)))) lot.places }
{}

/// A law: what a log promised of its parts it has promised of more of them, and with less synced. A log
/// that goes on has promised what it holds.
pub fn promises_of_a_part_are_of_more()
    ensures more { (lot : Lot) (parts later : Parts) (d : Disk) →
        ((place : ℕ) → IsFront (parts place).ops (later place).ops
        × ((later place).synced ≤ (parts place).synced)) →
        KeepsPromised lot parts d → KeepsPromised lot later d }
    ensures tied { (lot : Lot) (parts : Parts) (d : Disk) → IsTied lot parts d →
        KeepsPromised lot parts d }
{}

/// A law: where nothing was given to a log yet, it has promised nothing and holds nothing.
pub fn a_new_log_has_no_ops()
    ensures promised { (lot : Lot) (d : Disk) → KeepsPromise (ids_of lot) top [] [] d →
        KeepsPromised lot (λ place. new_part) d }
    ensures tied { (lot : Lot) (d : Disk) → HoldsOps (ids_of lot) top [] d →
        KeepsPromise (ids_of lot) top [] [] d → IsTied lot (λ place. new_part) d }
{}

/// A law: a write gives its ops to the log batch by batch.
///
/// - `append`: while one batch is appended, and where that fails, an image has at most the ops that were
///   given before it and those of this batch.
/// - `first`, `moments`, `batch`, `done`: the same of a whole write, in the words of the parts after it. Before
///   the first batch the log lacks all that is to be written, after each of them what is left, and in the end
///   nothing.
pub fn a_write_gives_its_batches()
    ensures append { (lot : Lot) (parts : Parts) (batch : List Op) (old new : List Disk) →
        IsTied lot parts (now old) → StaysGiving (ids_of lot) batch old new →
        Adds (KeepsPromised lot (give_batch lot batch parts)) old new
        × KeepsPromised lot (give_batch lot batch parts) (now new) }
    ensures appended { (lot : Lot) (parts : Parts) (batch : List Op) (old new : List Disk) →
        IsTied lot parts (now old) → StaysGiving (ids_of lot) batch old new →
        HoldsAlso (ids_of lot) batch (now old) (now new) →
        IsTied lot (give_batch lot batch parts) (now new) }
    ensures first { (lot : Lot) (parts : Parts) (rest : List Op) (d : Disk) → IsTied lot parts d →
        LacksRest lot (give_batch lot rest parts) rest d }
    ensures moments { (lot : Lot) (parts : Parts) (batch rest : List Op) (old new : List Disk) →
        LacksRest lot parts (batch ++ rest) (now old) → StaysGiving (ids_of lot) batch old new →
        Adds (KeepsPromised lot parts) old new × KeepsPromised lot parts (now new) }
    ensures batch { (lot : Lot) (parts : Parts) (batch rest : List Op) (old new : List Disk) →
        LacksRest lot parts (batch ++ rest) (now old) → StaysGiving (ids_of lot) batch old new →
        HoldsAlso (ids_of lot) batch (now old) (now new) → LacksRest lot parts rest (now new) }
    ensures done { (lot : Lot) (parts : Parts) (d : Disk) → LacksRest lot parts [] d →
        IsTied lot parts d }
{}

/// A law: at each moment of a sync and of a new file the log keeps what it promised, also where it fails.
/// Once a sync is done all that was given is synced, and a new file changes nothing of that.
pub fn a_sync_keeps_all_that_was_given()
    ensures moments { (lot : Lot) (parts : Parts) (old new : List Disk) →
        KeepsPromised lot parts (now old) → Stays (ids_of lot) old new →
        Adds (KeepsPromised lot parts) old new × KeepsPromised lot parts (now new) }
    ensures synced { (lot : Lot) (parts : Parts) (d e : Disk) → IsTied lot parts d →
        MayNotice (ids_of lot) d e → StillHolds (ids_of lot) d e → IsTied lot (keep_all parts) e }
    ensures rolled { (lot : Lot) (parts : Parts) (old new : List Disk) → IsTied lot parts (now old) →
        Stays (ids_of lot) old new → StillHolds (ids_of lot) (now old) (now new) →
        IsTied lot parts (now new) }
{}

/// A law: the disk that a crash leaves keeps what was promised, if what is left meets the log's premise.
pub fn a_crash_keeps_what_was_promised()
    ensures { (lot : Lot) (parts : Parts) (d : Disk) (image : Remains) → KeepsPromised lot parts d →
        IsImage d image → IsHonestImage (ids_of lot) d image →
        KeepsPromised lot parts (reopen image) }
{}

/// A law: what recovery settles on of each queue lies between what was synced and what was given. Then the
/// log holds exactly that, and all of it is synced.
pub fn a_log_goes_on_with_what_recovery_found()
    ensures between { (lot : Lot) (parts : Parts) (noticed given : List Op) (lanes : Lanes)
        (d : Disk) → AllPromised lot parts noticed given →
        SettlesLanes (ids_of lot) noticed given lanes d → AllBetween lot parts lanes }
    ensures tied { (lot : Lot) (parts : Parts) (noticed given : List Op) (lanes : Lanes) (d : Disk) →
        AllPromised lot parts noticed given → SettlesLanes (ids_of lot) noticed given lanes d →
        IsTied lot (find_each (ops_found lot lanes) parts) d }
{}
