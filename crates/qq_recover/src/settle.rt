//! What is read is kept first.
ghost use Rattle.std.specs.Prelude.{◌≡◌, List, IsTrue, OnOk};
ghost use Rattle.qq_base.specs.declared.ids.QueueId.{QueueId};
ghost use Rattle.qq_base.specs.Causes.{HasCause};
ghost use Rattle.qq_disk.specs.Disk.{now, sync};
ghost use Rattle.qq_disk.specs.Fault.{IsCaused};
ghost use Rattle.qq_wal_chain.specs.Promise.{sync_all};
ghost use Rattle.qq_wal.specs.Running.{Stays, StillMayRecover};
ghost use Rattle.qq_recover.specs.Recovery.{StaysSyncing};

use qq_disk::{DiskFault, FileName, NodeDisk};
use qq_wal_chain::the_log_has_a_format;
use std::alloc::Global;

/// Syncs a file.
fn sync_one<D: NodeDisk>(disk: &mut D, alloc: Global, file: FileName) -> Result<(), DiskFault>
    ensures ok { IsTrue (D.facts.tells disk.old) →
        OnOk result (now (D.facts.past disk.new) ≡ sync (now (D.facts.past disk.old)) file) }
    ensures stays { IsTrue (D.facts.tells disk.old) → (queues : List QueueId) →
        Stays queues (D.facts.past disk.old) (D.facts.past disk.new) }
    ensures only { IsTrue (D.facts.tells disk.old) →
        StaysSyncing (D.facts.past disk.old) (D.facts.past disk.new) }
    ensures may { IsTrue (D.facts.tells disk.old) → (queues : List QueueId) →
        StillMayRecover queues (D.facts.past disk.old) (D.facts.past disk.new) }
    ensures told { D.facts.tells disk.new ≡ D.facts.tells disk.old }
    ensures cause { HasCause IsCaused (D.facts.faults disk.old) (D.facts.faults disk.new) result }
{
    the_log_has_a_format();
    disk.sync(alloc, file)
}

/// Syncs files, so that from then on each crash leaves of them what the disk shows.
pub(crate) fn settle_all<D: NodeDisk>(
    disk: &mut D,
    alloc: Global,
    names: &[FileName],
) -> Result<(), DiskFault>
    ensures ok { IsTrue (D.facts.tells disk.old) →
        OnOk result (now (D.facts.past disk.new)
        ≡ sync_all (now (D.facts.past disk.old)) names.now) }
    ensures stays { IsTrue (D.facts.tells disk.old) → (queues : List QueueId) →
        Stays queues (D.facts.past disk.old) (D.facts.past disk.new) }
    ensures only { IsTrue (D.facts.tells disk.old) →
        StaysSyncing (D.facts.past disk.old) (D.facts.past disk.new) }
    ensures may { IsTrue (D.facts.tells disk.old) → (queues : List QueueId) →
        StillMayRecover queues (D.facts.past disk.old) (D.facts.past disk.new) }
    ensures told { D.facts.tells disk.new ≡ D.facts.tells disk.old }
    ensures cause { HasCause IsCaused (D.facts.faults disk.old) (D.facts.faults disk.new) result }
{
    for name in names {
        sync_one(disk, alloc, *name)?;
    }
    Ok(())
}
