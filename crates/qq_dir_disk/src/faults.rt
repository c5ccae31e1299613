ghost use Rattle.std.specs.Prelude.{◌≡◌, ◌≤◌, true, false};
ghost use Rattle.std.specs.IoError.{error_kind};
ghost use Rattle.qq_base.specs.Causes.{Rose, raise};
ghost use Rattle.qq_disk.specs.Fault.{IsCaused};
ghost use Rattle.qq_dir_disk.specs.Faults.{counted, IsRefusal};

use qq_base::Memory;
use qq_disk::DiskFault;
use std::io;
use std::io::ErrorKind;

/// The faults of a disk so far.
#[derive(Debug, Drop)]
pub struct Faults {
    /// How many. At the end of its range it stands still.
    pub count: u64,
    /// Whether an append or a sync has failed. The system may have dropped what it couldn't write and
    /// answer the next sync with success, so from then on no sync is believed.
    pub stopped: bool,
}

impl Faults {
    /// None so far.
    pub fn new() -> Self
        ensures count { result.count ≡ 0 }
        ensures stopped { result.stopped ≡ false }
    {
        Faults {
            count: 0,
            stopped: false,
        }
    }

    /// None so far of the same disk, opened again. Where it was stopped it stays so.
    pub fn begin_again(&self) -> Self
        ensures count { result.count ≡ 0 }
        ensures stopped { result.stopped ≡ self.now.stopped }
    {
        Faults {
            count: 0,
            stopped: self.stopped,
        }
    }

    /// Counts a fault, once.
    pub fn count(&mut self) -> DiskFault
        ensures failed { result ≡ DiskFault.Failed }
        ensures count { self.new.count ≡ raise self.old.count }
        ensures later { self.old.count ≤ self.new.count }
        ensures rose { Rose self.old.count self.new.count }
        ensures stopped { self.new.stopped ≡ self.old.stopped }
    {
        self.count = self.count.saturating_add(1);
        DiskFault::Failed
    }

    /// Counts a failed append or sync.
    pub fn stop(&mut self) -> DiskFault
        ensures failed { result ≡ DiskFault.Failed }
        ensures count { self.new.count ≡ raise self.old.count }
        ensures later { self.old.count ≤ self.new.count }
        ensures rose { Rose self.old.count self.new.count }
        ensures stopped { self.new.stopped ≡ true }
    {
        self.stopped = true;
        self.count()
    }

    /// What a failed read of the folder answers. It is counted, but for want of memory.
    pub fn refuse(&mut self, error: &io::Error) -> DiskFault
        ensures refusal { IsRefusal (error_kind error.now) result }
        ensures count { self.new.count ≡ counted result self.old.count }
        ensures later { self.old.count ≤ self.new.count }
        ensures cause { IsCaused self.old.count self.new.count result }
        ensures stopped { self.new.stopped ≡ self.old.stopped }
    {
        if error.kind() == ErrorKind::OutOfMemory {
            return DiskFault::Memory(Memory::Want);
        }
        self.count()
    }
}
