//! Laws of the moments of calls: the functions do nothing, and their contracts are the laws.
ghost use Rattle.std.specs.Prelude.{◌≡◌, ◌⊎◌, ◌++◌, ℕ, List, take, None, Some};
ghost use Rattle.qq_base.specs.Causes.{Rose};
ghost use Rattle.qq_base.specs.declared.memory.Memory.{Memory};
ghost use Rattle.qq_base.specs.declared.memory.Memory.TheVariants.{Want};
ghost use Rattle.qq_disk.specs.declared.fault.DiskFault.TheVariants.{Failed, Memory as OfMemory};
ghost use Rattle.qq_disk.specs.declared.name.FileName.{FileName};
ghost use Rattle.qq_disk.specs.Disk.{Disk, append, sync, remove, contents, content, IsListed};
ghost use Rattle.qq_disk.specs.Moments.{IsAppending, IsSyncing, IsRemoving, StaysAtWant};
ghost use Rattle.qq_disk.specs.Fault.{IsCaused};
ghost use Rattle.qq_disk.specs.Crash.{Remains, IsImage};
ghost use Rattle.qq_disk.specs.Calls.{Call, apply, Spares};
ghost use Rattle.qq_disk_pins.specs.Images.{AddsFirstPart, KeepsOthers};
ghost use Rattle.qq_disk_pins.specs.Runs.{MayHold, MayHoldAfter, IsAfterSome};

/// While bytes are appended, the file may have each first part of them, and nothing else is changed.
pub fn an_append_adds_a_first_part()
    ensures each { (d : Disk) (file : FileName) (bytes : List ℕ) (count : ℕ) →
        IsAppending d file bytes (append d file (take count bytes)) }
    ensures none { (d : Disk) (file : FileName) (bytes : List ℕ) → IsAppending d file bytes d }
    ensures only { (d : Disk) (file : FileName) (bytes : List ℕ) (e : Disk) →
        IsAppending d file bytes e → AddsFirstPart d file bytes e }
{}

/// While a file is synced, the disk may be as before or as after, and reads the same.
///
/// `images`: each image of such a moment is an image of the disk as it was.
pub fn a_sync_changes_no_reading()
    ensures before { (d : Disk) (file : FileName) → IsSyncing d file d }
    ensures after { (d : Disk) (file : FileName) → IsSyncing d file (sync d file) }
    ensures reads { (d : Disk) (file other : FileName) (e : Disk) →
        IsSyncing d file e → contents e other ≡ contents d other }
    ensures images { (d : Disk) (file : FileName) (e : Disk) (i : Remains) →
        IsSyncing d file e → IsImage e i → IsImage d i }
{}

/// While a file is removed, the disk may be as before or as after: the file is there as it was, or it
/// isn't there, and all others stay.
pub fn a_removal_takes_one_file()
    ensures before { (d : Disk) (file : FileName) → IsRemoving d file d }
    ensures after { (d : Disk) (file : FileName) → IsRemoving d file (remove d file) }
    ensures reads { (d : Disk) (file : FileName) (e : Disk) → IsRemoving d file e →
        (contents e file ≡ None) ⊎ (contents e file ≡ contents d file) }
    ensures others { (d : Disk) (file : FileName) (e : Disk) →
        IsRemoving d file e → KeepsOthers file d e }
{}

/// What a fault tells.
///
/// - `stays`: where there was no memory, the disk did nothing.
/// - `memory`: no other want of memory is told than that there is none.
/// - `failed`: a disk that failed has counted it.
pub fn out_of_memory_changes_nothing()
    ensures stays { (old new : List Disk) (memory : Memory) →
        StaysAtWant old new (OfMemory memory) → new ≡ old }
    ensures memory { (before now : ℕ) (memory : Memory) →
        IsCaused before now (OfMemory memory) → memory ≡ Want }
    ensures failed { (before now : ℕ) → IsCaused before now Failed → Rose before now }
{}

/// A bridge from the clauses of a disk's calls to calls in a row.
///
/// - `ok`: what a call makes of the disk is what the disk may hold in it.
/// - `each`: what a disk may hold after calls of which any failed is what other calls make of it that
///   don't fail. They remove no file that the first ones spare.
pub fn calls_that_fail_are_calls()
    ensures ok { (d : Disk) (call : Call) → MayHold d call (apply d call) }
    ensures each { (d : Disk) (calls : List Call) (e : Disk) →
        MayHoldAfter d calls e → IsAfterSome d calls e }
{}

/// What a sync has kept stands at the front of the file in every image, whatever is called from then on,
/// and whichever of these calls fail, as long as the file isn't removed.
pub fn synced_bytes_stay_whatever_fails()
    ensures { (d : Disk) (file : FileName) (calls : List Call) (e : Disk) (i : Remains) →
        IsListed d file → Spares file calls → MayHoldAfter (sync d file) calls e → IsImage e i →
        (more : List ℕ) × (i file ≡ Some (content d file ++ more)) }
{}
