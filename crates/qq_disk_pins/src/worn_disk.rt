ghost use Rattle.std.specs.Prelude.{◌≡◌, ◌≤◌, ◌∷◌, ℕ, true, false, length, IsTrue, IfOk, IfErr, OnOk, OnErr};
ghost use Rattle.qq_base.specs.Causes.{HasCause, raise};
ghost use Rattle.qq_disk.specs.Disk.{now, append, sync, remove, content, IsListing, IsRead};
ghost use Rattle.qq_disk.specs.Fault.{IsCaused};
ghost use Rattle.qq_disk.specs.Moments.{Adds, IsAppending, IsSyncing, IsRemoving, StaysAtWant};
ghost use Rattle.qq_mem_disk.specs.Counter.{Counts};
ghost use Rattle.qq_mem_disk.specs.MemDisk as disks;
ghost use Rattle.qq_disk_pins.specs.WornDisk.{past_of, is_worn, is_broken, first_half, HasFailed};

use qq_base::Memory;
use qq_disk::{DiskFault, FileName, NodeDisk};
use qq_mem_disk::MemDisk;
use std::alloc::Global;

/// A disk in memory whose calls fail halfway, for tests of what stands on a disk. At a call that fails an
/// append has added the first half of its bytes, and a removal has removed the file: a disk may do that, and
/// `MemDisk`, whose failed calls do nothing, doesn't.
#[derive(Drop)]
pub struct WornDisk {
    disk: MemDisk,
    calls: u64,
    faults: u64,
    fails: Vec<u64>,
}

impl WornDisk {
    /// A disk over this one. The calls with these numbers, counted from 1, fail halfway.
    pub fn new(disk: MemDisk, fails: Vec<u64>) -> Self
        ensures past { past_of result ≡ disks.past_of disk }
        ensures calls { result.calls ≡ 0 }
        ensures faults { result.faults ≡ 0 }
        ensures fails { result.fails.items ≡ fails.items }
    {
        WornDisk {
            disk,
            calls: 0,
            faults: 0,
            fails,
        }
    }

    /// The disk in memory, as it is now.
    pub fn into_disk(self) -> MemDisk
        ensures { disks.past_of result ≡ past_of self }
    {
        self.disk
    }

    // Counts a call. Answers whether it is to fail.
    fn count_call(&mut self) -> bool
        ensures worn { result ≡ is_worn self.old }
        ensures calls { self.new.calls ≡ raise self.old.calls }
        ensures faults { self.new.faults ≡ self.old.faults }
        ensures disk { self.new.disk ≡ self.old.disk }
    {
        self.calls = self.calls.saturating_add(1);
        self.fails.contains(&self.calls)
    }

    // Counts a fault.
    fn fail(&mut self) -> DiskFault
        ensures failed { result ≡ DiskFault.Failed }
        ensures disk { self.new.disk ≡ self.old.disk }
        ensures caused { IsCaused self.old.faults self.new.faults result }
        ensures later { self.old.faults ≤ self.new.faults }
    {
        self.faults = self.faults.saturating_add(1);
        DiskFault::Failed
    }
}

// Adds the first half of the bytes.
fn append_half(
    disk: &mut MemDisk,
    alloc: Global,
    file: FileName,
    bytes: &[u8],
) -> Result<(), DiskFault>
    ensures ok { OnOk result (disks.past_of disk.new ≡
        append (now (disks.past_of disk.old)) file (first_half bytes.now)
        ∷ disks.past_of disk.old) }
    ensures err { OnErr result (disks.past_of disk.new ≡ disks.past_of disk.old) }
    ensures counts { Counts (disks.counter_of disk.old) (disks.counter_of disk.new) result }
{
    let (half, _) = bytes.split_at(bytes.len() / 2);
    disk.append(alloc, file, half)
}

impl NodeDisk for WornDisk {
    ghost use Rattle.std.specs.Prelude.{true};
    ghost use Rattle.qq_disk_pins.specs.WornDisk.{past_of};

    ghost facts = { record { tells = λ _. true; past = past_of; faults = λ worn. worn.faults } };

    fn names(&mut self, alloc: Global) -> Result<Vec<FileName>, DiskFault> {
        if self.count_call() {
            return Err(self.fail());
        }
        match self.disk.names(alloc) {
            Ok(names) => Ok(names),
            Err(DiskFault::Failed) => Err(self.fail()),
            Err(DiskFault::Memory(_)) => Err(DiskFault::Memory(Memory::Want)),
        }
    }

    fn size(&mut self, alloc: Global, file: FileName) -> Result<u64, DiskFault> {
        if self.count_call() {
            return Err(self.fail());
        }
        match self.disk.size(alloc, file) {
            Ok(size) => Ok(size),
            Err(DiskFault::Failed) => Err(self.fail()),
            Err(DiskFault::Memory(_)) => Err(DiskFault::Memory(Memory::Want)),
        }
    }

    fn read(
        &mut self,
        alloc: Global,
        file: FileName,
        place: u64,
        buf: &mut [u8],
    ) -> Result<usize, DiskFault> {
        if self.count_call() {
            return Err(self.fail());
        }
        match self.disk.read(alloc, file, place, buf) {
            Ok(count) => Ok(count),
            Err(DiskFault::Failed) => Err(self.fail()),
            Err(DiskFault::Memory(_)) => Err(DiskFault::Memory(Memory::Want)),
        }
    }

    fn append(&mut self, alloc: Global, file: FileName, bytes: &[u8]) -> Result<(), DiskFault>
        ensures ok { OnOk result
            (now (past_of self.new) ≡ append (now (past_of self.old)) file bytes.now) }
        ensures err { OnErr result
            (IsAppending (now (past_of self.old)) file bytes.now (now (past_of self.new))) }
        ensures moments { Adds (IsAppending (now (past_of self.old)) file bytes.now)
            (past_of self.old) (past_of self.new) }
        ensures want { IfErr result (StaysAtWant (past_of self.old) (past_of self.new)) }
        ensures cause { HasCause IsCaused self.old.faults self.new.faults result }
        ensures half { is_worn self.old ≡ true → is_broken self.old ≡ false → HasFailed result
            (now (past_of self.new) ≡
            append (now (past_of self.old)) file (first_half bytes.now)) }
    {
        if self.count_call() {
            return match append_half(&mut self.disk, alloc, file, bytes) {
                Ok(()) => Err(self.fail()),
                Err(DiskFault::Failed) => Err(self.fail()),
                Err(DiskFault::Memory(_)) => Err(DiskFault::Memory(Memory::Want)),
            };
        }
        match self.disk.append(alloc, file, bytes) {
            Ok(()) => Ok(()),
            Err(DiskFault::Failed) => Err(self.fail()),
            Err(DiskFault::Memory(_)) => Err(DiskFault::Memory(Memory::Want)),
        }
    }

    fn sync(&mut self, alloc: Global, file: FileName) -> Result<(), DiskFault> {
        if self.count_call() {
            return Err(self.fail());
        }
        match self.disk.sync(alloc, file) {
            Ok(()) => Ok(()),
            Err(DiskFault::Failed) => Err(self.fail()),
            Err(DiskFault::Memory(_)) => Err(DiskFault::Memory(Memory::Want)),
        }
    }

    fn remove(&mut self, alloc: Global, file: FileName) -> Result<(), DiskFault>
        ensures ok { OnOk result (now (past_of self.new) ≡ remove (now (past_of self.old)) file) }
        ensures err { OnErr result
            (IsRemoving (now (past_of self.old)) file (now (past_of self.new))) }
        ensures moments { Adds (IsRemoving (now (past_of self.old)) file)
            (past_of self.old) (past_of self.new) }
        ensures want { IfErr result (StaysAtWant (past_of self.old) (past_of self.new)) }
        ensures cause { HasCause IsCaused self.old.faults self.new.faults result }
        ensures done { is_worn self.old ≡ true → is_broken self.old ≡ false → HasFailed result
            (now (past_of self.new) ≡ remove (now (past_of self.old)) file) }
    {
        let worn = self.count_call();
        match self.disk.remove(alloc, file) {
            Ok(()) => {
                if worn {
                    return Err(self.fail());
                }
                Ok(())
            }
            Err(DiskFault::Failed) => Err(self.fail()),
            Err(DiskFault::Memory(_)) => Err(DiskFault::Memory(Memory::Want)),
        }
    }
}
