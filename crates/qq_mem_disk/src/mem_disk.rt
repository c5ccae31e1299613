ghost use Rattle.std.specs.Prelude.{◌≡◌, ◌≤◌, ◌∷◌, [], None, Some, length, IsTrue, IfOk, IfErr, IsOkUnless, OnOk, OnErr};
ghost use Rattle.qq_base.specs.declared.memory.Memory.TheVariants.{Want};
ghost use Rattle.qq_disk.specs.Disk.{now, append, sync, remove, content, contents, IsListing, IsRead};
ghost use Rattle.qq_disk.specs.Crash.{IsImage};
ghost use Rattle.qq_base.specs.Causes.{HasCause};
ghost use Rattle.qq_disk.specs.Fault.{IsCaused};
ghost use Rattle.qq_disk.specs.Moments.{Adds, IsAppending, IsSyncing, IsRemoving, StaysAtWant};
ghost use Rattle.qq_mem_disk.specs.Counter.{Counts, IsFresh};
ghost use Rattle.qq_mem_disk.specs.Crashed.{IsCrash};

use crate::counter::Counter;
use crate::crash::crash_files;
use crate::reading::read_into;
use crate::store::Store;
use crate::{files, listing};
use qq_base::Memory;
use qq_disk::{DiskFault, FileName, Image, NodeDisk};
use std::alloc::Global;
use std::collections::BTreeMap;

/// A node's disk in memory, which tells its contents. It can be made to fail, to stop and to crash.
///
/// Up to a crash it keeps what each change led from: a few words for a call, and the bytes of a file
/// that was removed and then begun anew. Who asks for no earlier moment lets go of that by `forget`.
#[derive(Drop)]
pub struct MemDisk {
    store: Store,
    counter: Counter,
}

impl MemDisk {
    ghost use Rattle.qq_mem_disk.specs.MemDisk.{past_of, counter_of};

    /// An empty disk. It takes no memory.
    pub fn new(alloc: Global) -> MemDisk
        ensures past { past_of result ≡ (λ _. None) ∷ [] }
        ensures counter { IsFresh (counter_of result) }
    {
        MemDisk {
            store: Store::new(alloc, BTreeMap::new(alloc)),
            counter: Counter::new(alloc),
        }
    }

    /// The calls with these numbers are to fail, counted from 1, and no others by their number.
    pub fn fail_calls(&mut self, calls: Vec<u64>)
        ensures counter { counter_of self.new ≡ record (counter_of self.old) { fails = calls } }
        ensures past { past_of self.new ≡ past_of self.old }
    {
        self.counter.fails = calls;
    }

    /// So many calls more pass, and then all fail.
    pub fn fuse(&mut self, k: u64)
        ensures counter { counter_of self.new ≡ record (counter_of self.old) { fuse = Some k } }
        ensures past { past_of self.new ≡ past_of self.old }
    {
        self.counter.fuse = Some(k);
    }

    /// How many calls were made, those that failed too. At the end of its range it stands still.
    pub fn calls(&self) -> u64
        ensures { result ≡ (counter_of self.now).calls }
    {
        self.counter.calls
    }

    /// Drops the moments before this one, with the memory that they took: what the disk holds, its counts
    /// and the calls that are to fail stay. It takes no memory.
    ///
    /// A long run that asks for no earlier moment calls it now and then, since a change of the disk is
    /// remembered in some 160 bytes.
    pub fn forget(&mut self, alloc: Global)
        ensures past { past_of self.new ≡ now (past_of self.old) ∷ [] }
        ensures counter { counter_of self.new ≡ counter_of self.old }
    {
        self.store.forget(alloc);
    }

    /// The disk after a crash. What the image leaves is kept, and nothing is pending; calls are counted
    /// anew, and none is to fail.
    pub fn crash(self, alloc: Global, image: &Image) -> Result<MemDisk, Memory>
        ensures ok { IfOk result (λ disk.
            IsCrash image.now (now (past_of self)) (now (past_of disk))) }
        ensures image { IfOk result (λ disk.
            IsImage (now (past_of self)) (contents (now (past_of disk)))) }
        ensures past { IfOk result (λ disk. past_of disk ≡ now (past_of disk) ∷ []) }
        ensures counter { IfOk result (λ disk. IsFresh (counter_of disk)) }
        ensures want { IsOkUnless result Want }
    {
        let store = self.store;
        let files = crash_files(store.files, alloc, image)?;
        Ok(MemDisk {
            store: Store::new(alloc, files),
            counter: Counter::new(alloc),
        })
    }
}

impl NodeDisk for MemDisk {
    ghost use Rattle.std.specs.Prelude.{true};
    ghost use Rattle.qq_mem_disk.specs.MemDisk.{past_of, counter_of};

    ghost facts = { record {
      tells = λ _. true;
      past = past_of;
      faults = λ disk. (counter_of disk).faults;
    } };

    fn names(&mut self, alloc: Global) -> Result<Vec<FileName>, DiskFault>
        ensures ok { IfOk result (λ names. IsListing (now (past_of self.old)) names.items) }
        ensures same { past_of self.new ≡ past_of self.old }
        ensures cause { HasCause IsCaused
            (counter_of self.old).faults (counter_of self.new).faults result }
        ensures counts { Counts (counter_of self.old) (counter_of self.new) result }
    {
        self.counter.count_call()?;
        Ok(listing::names(&self.store.files, alloc)?)
    }

    fn size(&mut self, _alloc: Global, file: FileName) -> Result<u64, DiskFault>
        ensures ok { IfOk result (λ size. size ≡ length (content (now (past_of self.old)) file)) }
        ensures same { past_of self.new ≡ past_of self.old }
        ensures cause { HasCause IsCaused
            (counter_of self.old).faults (counter_of self.new).faults result }
        ensures counts { Counts (counter_of self.old) (counter_of self.new) result }
    {
        self.counter.count_call()?;
        Ok(files::content(&self.store.files, file).len() as u64)
    }

    fn read(
        &mut self,
        _alloc: Global,
        file: FileName,
        place: u64,
        buf: &mut [u8],
    ) -> Result<usize, DiskFault>
        ensures within { IfOk result (λ count. count ≤ length buf.old) }
        ensures ok { IfOk result (λ count.
            IsRead (content (now (past_of self.old)) file) place count buf.old buf.new) }
        ensures err { OnErr result (buf.new ≡ buf.old) }
        ensures same { past_of self.new ≡ past_of self.old }
        ensures cause { HasCause IsCaused
            (counter_of self.old).faults (counter_of self.new).faults result }
        ensures counts { Counts (counter_of self.old) (counter_of self.new) result }
    {
        self.counter.count_call()?;
        Ok(read_into(files::content(&self.store.files, file), place, buf))
    }

    fn append(&mut self, alloc: Global, file: FileName, bytes: &[u8]) -> Result<(), DiskFault>
        ensures ok { OnOk result
            (now (past_of self.new) ≡ append (now (past_of self.old)) file bytes.now) }
        ensures err { OnErr result
            (IsAppending (now (past_of self.old)) file bytes.now (now (past_of self.new))) }
        ensures moments { Adds (IsAppending (now (past_of self.old)) file bytes.now)
            (past_of self.old) (past_of self.new) }
        ensures want { IfErr result (StaysAtWant (past_of self.old) (past_of self.new)) }
        ensures cause { HasCause IsCaused
            (counter_of self.old).faults (counter_of self.new).faults result }
        ensures counts { Counts (counter_of self.old) (counter_of self.new) result }
        ensures one_more { OnOk result
            (past_of self.new ≡ append (now (past_of self.old)) file bytes.now ∷ past_of self.old) }
        ensures unchanged { OnErr result (past_of self.new ≡ past_of self.old) }
    {
        self.counter.count_call()?;
        Ok(self.store.append(alloc, file, bytes)?)
    }

    fn sync(&mut self, _alloc: Global, file: FileName) -> Result<(), DiskFault>
        ensures ok { OnOk result (now (past_of self.new) ≡ sync (now (past_of self.old)) file) }
        ensures err { OnErr result (now (past_of self.new) ≡ now (past_of self.old)) }
        ensures moments { Adds (IsSyncing (now (past_of self.old)) file)
            (past_of self.old) (past_of self.new) }
        ensures want { IfErr result (StaysAtWant (past_of self.old) (past_of self.new)) }
        ensures cause { HasCause IsCaused
            (counter_of self.old).faults (counter_of self.new).faults result }
        ensures counts { Counts (counter_of self.old) (counter_of self.new) result }
        ensures one_more { OnOk result
            (past_of self.new ≡ sync (now (past_of self.old)) file ∷ past_of self.old) }
        ensures unchanged { OnErr result (past_of self.new ≡ past_of self.old) }
    {
        self.counter.count_call()?;
        Ok(self.store.sync(file)?)
    }

    fn remove(&mut self, _alloc: Global, file: FileName) -> Result<(), DiskFault>
        ensures ok { OnOk result (now (past_of self.new) ≡ remove (now (past_of self.old)) file) }
        ensures err { OnErr result
            (IsRemoving (now (past_of self.old)) file (now (past_of self.new))) }
        ensures moments { Adds (IsRemoving (now (past_of self.old)) file)
            (past_of self.old) (past_of self.new) }
        ensures want { IfErr result (StaysAtWant (past_of self.old) (past_of self.new)) }
        ensures cause { HasCause IsCaused
            (counter_of self.old).faults (counter_of self.new).faults result }
        ensures counts { Counts (counter_of self.old) (counter_of self.new) result }
        ensures one_more { OnOk result
            (past_of self.new ≡ remove (now (past_of self.old)) file ∷ past_of self.old) }
        ensures unchanged { OnErr result (past_of self.new ≡ past_of self.old) }
    {
        self.counter.count_call()?;
        Ok(self.store.remove(file)?)
    }
}
