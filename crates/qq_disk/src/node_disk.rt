ghost use Rattle.std.specs.Prelude.{◌≡◌, ◌≤◌, length, IsTrue, IfOk, IfErr, OnOk, OnErr};
ghost use Rattle.qq_disk.specs.Disk.{now, append, sync, remove, content, IsListing, IsRead};
ghost use Rattle.qq_disk.specs.Facts.{DiskFacts};
ghost use Rattle.qq_disk.specs.Moments.{Adds, IsAppending, IsSyncing, IsRemoving, StaysAtWant};
ghost use Rattle.qq_base.specs.Causes.{HasCause};
ghost use Rattle.qq_disk.specs.Fault.{IsCaused};

use crate::{DiskFault, FileName};
use std::alloc::Global;

/// A node's disk: files that only grow, each with kept bytes and pending ones.
///
/// A sync keeps what is pending. A crash, at any moment of a call or between two, leaves of each file
/// its kept bytes and then any bytes no longer than the pending ones; a file that was never synced or
/// was removed may be absent. Clauses on contents hold where the disk tells them.
pub trait NodeDisk: Drop {
    /// What contracts say of the disk. Each call leaves as it is whether the disk tells its contents.
    ghost facts: { DiskFacts Self };

    /// The names of the files, in strictly rising order.
    fn names(&mut self, alloc: Global) -> Result<Vec<FileName>, DiskFault>
        ensures ok { IsTrue (facts.tells self.old) →
            IfOk result (λ names. IsListing (now (facts.past self.old)) names.items) }
        ensures same { IsTrue (facts.tells self.old) → facts.past self.new ≡ facts.past self.old }
        ensures told { facts.tells self.new ≡ facts.tells self.old }
        ensures cause { HasCause IsCaused (facts.faults self.old) (facts.faults self.new) result };

    /// How many bytes a file has, pending ones too. An absent file has none.
    fn size(&mut self, alloc: Global, file: FileName) -> Result<u64, DiskFault>
        ensures ok { IsTrue (facts.tells self.old) →
            IfOk result (λ size. size ≡ length (content (now (facts.past self.old)) file)) }
        ensures same { IsTrue (facts.tells self.old) → facts.past self.new ≡ facts.past self.old }
        ensures told { facts.tells self.new ≡ facts.tells self.old }
        ensures cause { HasCause IsCaused (facts.faults self.old) (facts.faults self.new) result };

    /// Reads into a buffer from a place of a file on, and answers how many bytes were read: as many as
    /// the buffer takes and the file has. An absent file has none.
    fn read(
        &mut self,
        alloc: Global,
        file: FileName,
        place: u64,
        buf: &mut [u8],
    ) -> Result<usize, DiskFault>
        ensures within { IfOk result (λ count. count ≤ length buf.old) }
        ensures ok { IsTrue (facts.tells self.old) →
            IfOk result (λ count.
            IsRead (content (now (facts.past self.old)) file) place count buf.old buf.new) }
        ensures err { IsTrue (facts.tells self.old) → OnErr result (buf.new ≡ buf.old) }
        ensures same { IsTrue (facts.tells self.old) → facts.past self.new ≡ facts.past self.old }
        ensures told { facts.tells self.new ≡ facts.tells self.old }
        ensures cause { HasCause IsCaused (facts.faults self.old) (facts.faults self.new) result };

    /// Adds bytes to a file's pending ones. A file that is absent or removed begins anew, empty and
    /// never synced. Where the call fails a first part of the bytes may have been added.
    fn append(&mut self, alloc: Global, file: FileName, bytes: &[u8]) -> Result<(), DiskFault>
        ensures ok { IsTrue (facts.tells self.old) →
            OnOk result (now (facts.past self.new)
            ≡ append (now (facts.past self.old)) file bytes.now) }
        ensures err { IsTrue (facts.tells self.old) →
            OnErr result (IsAppending (now (facts.past self.old)) file
            bytes.now (now (facts.past self.new))) }
        ensures moments { IsTrue (facts.tells self.old) →
            Adds (IsAppending (now (facts.past self.old)) file bytes.now)
            (facts.past self.old) (facts.past self.new) }
        ensures want { IsTrue (facts.tells self.old) →
            IfErr result (StaysAtWant (facts.past self.old) (facts.past self.new)) }
        ensures told { facts.tells self.new ≡ facts.tells self.old }
        ensures cause { HasCause IsCaused (facts.faults self.old) (facts.faults self.new) result };

    /// Keeps a file's pending bytes: from then on each crash leaves them. A file that is absent or
    /// removed stays as it is. Where the call fails nothing is changed.
    fn sync(&mut self, alloc: Global, file: FileName) -> Result<(), DiskFault>
        ensures ok { IsTrue (facts.tells self.old) →
            OnOk result (now (facts.past self.new) ≡ sync (now (facts.past self.old)) file) }
        ensures err { IsTrue (facts.tells self.old) →
            OnErr result (now (facts.past self.new) ≡ now (facts.past self.old)) }
        ensures moments { IsTrue (facts.tells self.old) →
            Adds (IsSyncing (now (facts.past self.old)) file)
            (facts.past self.old) (facts.past self.new) }
        ensures want { IsTrue (facts.tells self.old) →
            IfErr result (StaysAtWant (facts.past self.old) (facts.past self.new)) }
        ensures told { facts.tells self.new ≡ facts.tells self.old }
        ensures cause { HasCause IsCaused (facts.faults self.old) (facts.faults self.new) result };

    /// Removes a file, which is then neither listed nor read; a crash may bring it back. A file that is
    /// absent or removed stays as it is. Where the call fails it may have removed the file: a folder can
    /// do its work and then fail.
    fn remove(&mut self, alloc: Global, file: FileName) -> Result<(), DiskFault>
        ensures ok { IsTrue (facts.tells self.old) →
            OnOk result (now (facts.past self.new) ≡ remove (now (facts.past self.old)) file) }
        ensures err { IsTrue (facts.tells self.old) →
            OnErr result (IsRemoving (now (facts.past self.old)) file (now (facts.past self.new))) }
        ensures moments { IsTrue (facts.tells self.old) →
            Adds (IsRemoving (now (facts.past self.old)) file)
            (facts.past self.old) (facts.past self.new) }
        ensures want { IsTrue (facts.tells self.old) →
            IfErr result (StaysAtWant (facts.past self.old) (facts.past self.new)) }
        ensures told { facts.tells self.new ≡ facts.tells self.old }
        ensures cause { HasCause IsCaused (facts.faults self.old) (facts.faults self.new) result };
}
