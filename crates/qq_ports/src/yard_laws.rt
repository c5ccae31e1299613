//! What follows for every yard, as laws: the functions do nothing, and their contracts are the laws.
ghost use Rattle.std.specs.Prelude.{◌≡◌, ◌<◌, ◌+◌, ◌-◌, ◌^◌, ◌∷◌, [], false, ℕ, List, None, Result, nat_eq};
ghost use Rattle.std.specs.List.{list_any};
ghost use Rattle.qq_disk.specs.declared.image.Image.{Image};
ghost use Rattle.qq_disk.specs.Disk.{Disk, now, contents};
ghost use Rattle.qq_disk.specs.declared.name.FileName.{FileName};
ghost use Rattle.qq_disk.specs.Crash.{IsImage, Remains};
ghost use Rattle.qq_mem_disk.specs.declared.mem_disk.MemDisk.{MemDisk};
ghost use Rattle.qq_mem_disk.specs.MemDisk.{past_of, counter_of};
ghost use Rattle.qq_mem_disk.specs.Counter.{will_fail};
ghost use Rattle.qq_base.specs.declared.memory.Memory.TheVariants.{Want};
ghost use Rattle.qq_ports.specs.declared.yard_fault.YardFault.{YardFault};
ghost use Rattle.qq_ports.specs.declared.yard_fault.YardFault.TheVariants.{Memory as OfMemory};
ghost use Rattle.qq_ports.specs.declared.mem_yard.MemYard.{MemYard};
ghost use Rattle.qq_ports.specs.Yard.{IsYardCaused, IsNew, IsOpened, IsFreshDisk, IsAfterCrash};
ghost use Rattle.qq_ports.specs.MemYard.{CountsCall, has_failed, fault_count};

/// A disk on which nothing ever was holds nothing after a crash either.
pub fn a_new_disk_crashes_into_a_new_one()
    ensures { (image : Image) (past after : List Disk) → IsNew past
        → IsAfterCrash image past after → after ≡ (λ _. None) ∷ [] }
{}

/// After a crash the disk reads as one of the images that the crash might leave.
pub fn a_crash_leaves_an_image()
    ensures { (image : Image) (past after : List Disk) → IsAfterCrash image past after
        → IsImage (now past) (contents (now after)) }
{}

/// Of a disk that was just opened no moment came before, and whatever a crash leaves of it is what it shows.
pub fn an_opened_disk_loses_nothing()
    ensures alone { (past : List Disk) → IsOpened past → past ≡ now past ∷ [] }
    ensures kept { (past : List Disk) (left : Remains) (file : FileName) → IsOpened past →
        IsImage (now past) left → left file ≡ contents (now past) file }
{}

/// On a new disk in memory nothing ever was, and its first call doesn't fail.
pub fn a_new_disk_is_empty_and_works()
    ensures empty { (disk : MemDisk) → IsFreshDisk disk → past_of disk ≡ (λ _. None) ∷ [] }
    ensures works { (disk : MemDisk) → IsFreshDisk disk → will_fail (counter_of disk) ≡ false }
{}

/// Where a yard's count of faults stands still, short of its end, a call that answers an error had no memory.
pub fn a_failure_is_counted()
    ensures { (count : ℕ) (fault : YardFault) → count < 2 ^ 64 - 1
        → IsYardCaused count count fault → fault ≡ OfMemory Want }
{}

/// A yard in memory fails the calls whose numbers are listed, from 1, and counts its failures: so the second
/// call fails exactly where 2 is listed, and after it as many faults are counted as of the two calls failed.
pub fn listed_calls_fail()
    ensures failed { (old mid new : MemYard) (first second : Result MemDisk YardFault) →
        old.calls ≡ 0 → CountsCall old mid first → CountsCall mid new second
        → has_failed second ≡ list_any (λ n. nat_eq n 2) old.fails.items }
    ensures counted { (old mid new : MemYard) (first second : Result MemDisk YardFault) →
        old.faults ≡ 0 → CountsCall old mid first → CountsCall mid new second
        → new.faults ≡ fault_count first + fault_count second }
{}
