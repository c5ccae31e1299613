//! Laws of the disk in memory: the functions do nothing, and their contracts are the laws.
ghost use Rattle.std.specs.Prelude.{◌≡◌, ◌∷◌, [], ℕ, Option, Some, None, Result, Err, false};
ghost use Rattle.std.specs.Global.{Vec};
ghost use Rattle.qq_disk.specs.declared.fault.DiskFault.{DiskFault};
ghost use Rattle.qq_disk.specs.declared.fault.DiskFault.TheVariants.{Failed};
ghost use Rattle.qq_disk.specs.declared.image.Image.{Image};
ghost use Rattle.qq_disk.specs.declared.name.FileName.{FileName};
ghost use Rattle.qq_disk.specs.Crash.{reopen};
ghost use Rattle.qq_disk.specs.Disk.{Disk};
ghost use Rattle.qq_disk.specs.Image.{IsNewestLog, image_of};
ghost use Rattle.qq_mem_disk.specs.declared.counter.Counter.{Counter};
ghost use Rattle.qq_mem_disk.specs.Counter.{Counts, IsFresh, count_call, will_fail};
ghost use Rattle.qq_mem_disk.specs.Crashed.{IsCrash};

/// A crash leaves the image that is named, by the word for whichever log file is the newest, and all that is
/// left is kept.
pub fn a_crash_in_memory_leaves_the_named_image()
    ensures { (image : Image) (old new : Disk) (newest : Option FileName) →
        IsCrash image old new → IsNewestLog old image.removed_back newest →
        new ≡ reopen (image_of image newest old) }
{}

/// A new disk has counted no call and no fault, and its first call doesn't fail: that is then the one call
/// that is counted.
pub fn a_new_disk_in_memory_counts_from_nothing()
    ensures calls { (c : Counter) → IsFresh c → (count_call c).calls ≡ 1 }
    ensures faults { (c : Counter) → IsFresh c → (count_call c).faults ≡ 0 }
    ensures works { (c : Counter) → IsFresh c → will_fail c ≡ false }
{}

/// A disk in memory fails the calls whose numbers are listed, from 1, and all calls from the end of a fuse on. It
/// counts its calls and its failures.
///
/// - `first`, `second`: where the second call alone is listed, the first one hasn't failed and the second has.
/// - `fuse`: where one call may pass, that one hasn't failed, and the next has.
pub fn listed_calls_of_a_disk_fail()
    ensures first { (fails : Vec ℕ) (new : Counter) (result : Result ℕ DiskFault) →
        fails.items ≡ 2 ∷ [] →
        Counts (record { calls = 0; faults = 0; fails = fails; fuse = None }) new result →
        (new.calls ≡ 1) × (new.faults ≡ 0) × (result ≡ Err Failed → ⊥) }
    ensures second { (fails : Vec ℕ) (mid new : Counter) (first second : Result ℕ DiskFault) →
        fails.items ≡ 2 ∷ [] →
        Counts (record { calls = 0; faults = 0; fails = fails; fuse = None }) mid first →
        Counts mid new second →
        (new.calls ≡ 2) × (new.faults ≡ 1) × (second ≡ Err Failed) }
    ensures fuse { (fails : Vec ℕ) (mid new : Counter) (first second : Result ℕ DiskFault) →
        fails.items ≡ [] →
        Counts (record { calls = 0; faults = 0; fails = fails; fuse = Some 1 }) mid first →
        Counts mid new second →
        (first ≡ Err Failed → ⊥) × (new.faults ≡ 1) × (second ≡ Err Failed) }
{}
