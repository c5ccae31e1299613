//! Files that no queue's log needs any more.
ghost use Rattle.std.specs.Prelude.{◌≡◌, ℕ, List, Ok, Err, All, true, false, IsTrue, OnOk, OnErr};
ghost use Rattle.qq_base.specs.Causes.{HasCause};
ghost use Rattle.qq_disk.specs.Disk.{now, remove};
ghost use Rattle.qq_disk.specs.Image.{log_of};
ghost use Rattle.qq_disk.specs.Moments.{Adds, IsRemoving};
ghost use Rattle.qq_disk.specs.declared.name.FileName.{FileName};
ghost use Rattle.qq_log.specs.declared.op.Op.{Op};
ghost use Rattle.qq_log.specs.Writable.{IsChange};
ghost use Rattle.qq_wal.specs.Fault.{IsCaused, stops_at};
ghost use Rattle.qq_wal.specs.Running.{IsOutside, Stays, StaysBeside, StillHolds, StillMayRecover};
ghost use Rattle.qq_wal.specs.Sweep.{IsReplaced};
ghost use Rattle.qq_wal.specs.Wal.{IsSound};

use crate::fault::{WalFault, fault_of, is_failure};
use crate::wal::Wal;
use qq_disk::{FileKind, FileName, NodeDisk};
use qq_wal_chain::the_log_has_a_format;
use std::alloc::Global;

impl<D: NodeDisk> Wal<D> {
    /// Removes the snapshot and segment files that a queue's log named at an earlier synced op and names no
    /// more. As long as a log takes changes alone no file is replaced (`changes_replace_no_file`), so it
    /// makes no call of the disk, and all stays as it is.
    pub fn sweep(&mut self) -> Result<(), WalFault>
        ensures same { self.new ≡ self.old }
        ensures ok { self.old.stopped ≡ false → result ≡ Ok tt }
        ensures stopped { self.old.stopped ≡ true → result ≡ Err WalFault.Stopped }
    {
        if self.stopped {
            return Err(WalFault::Stopped);
        }
        Ok(())
    }

    /// Removes a log file that isn't read: neither the one to which the log is written, nor one of the chain
    /// behind it. A crash may bring it back, and it isn't read then either. After an error the log is as it was,
    /// and the file may be gone; the log is stopped only where the disk failed.
    pub fn remove_log(&mut self, alloc: Global, number: u64) -> Result<(), WalFault>
        requires sound { IsSound D.facts self.old }
        requires outside { IsTrue (D.facts.tells self.old.disk) →
            self.old.stopped ≡ false → IsOutside
            self.old.queues.items self.old.header (now (D.facts.past self.old.disk)) number }
        ensures sound { IsSound D.facts self.new }
        ensures ok { IsTrue (D.facts.tells self.old.disk) → OnOk result
            (now (D.facts.past self.new.disk) ≡ remove (now (D.facts.past self.old.disk))
            (log_of number)) }
        ensures removes { IsTrue (D.facts.tells self.old.disk) →
            Adds (IsRemoving (now (D.facts.past self.old.disk)) (log_of number))
            (D.facts.past self.old.disk) (D.facts.past self.new.disk) }
        ensures same { self.new ≡ record self.old {
          disk = self.new.disk;
          stopped = self.new.stopped;
        } }
        ensures outside { IsTrue (D.facts.tells self.old.disk) →
            self.old.stopped ≡ false → (m : ℕ) →
            IsOutside self.old.queues.items self.old.header (now (D.facts.past self.old.disk)) m →
            IsOutside self.old.queues.items self.old.header (now (D.facts.past self.new.disk)) m }
        ensures stays { IsTrue (D.facts.tells self.old.disk) →
            Stays self.old.queues.items (D.facts.past self.old.disk) (D.facts.past self.new.disk) }
        ensures holds { IsTrue (D.facts.tells self.old.disk) → OnOk result (StillHolds
            self.old.queues.items (now (D.facts.past self.old.disk))
            (now (D.facts.past self.new.disk))) }
        ensures may { IsTrue (D.facts.tells self.old.disk) → StillMayRecover self.old.queues.items
            (D.facts.past self.old.disk) (D.facts.past self.new.disk) }
        ensures beside { IsTrue (D.facts.tells self.old.disk) → StaysBeside (log_of number)
            (D.facts.past self.old.disk) (D.facts.past self.new.disk) }
        ensures stops { self.new.stopped ≡ stops_at self.old.stopped result }
        ensures moments { IsTrue (D.facts.tells self.old.disk) →
            OnErr result (self.new.stopped ≡ false →
            D.facts.past self.new.disk ≡ D.facts.past self.old.disk) }
        ensures stopped { self.old.stopped ≡ true →
            (self.new ≡ self.old) × (result ≡ Err WalFault.Stopped) }
        ensures told { D.facts.tells self.new.disk ≡ D.facts.tells self.old.disk }
        ensures cause { HasCause (IsCaused self.old.stopped)
            (D.facts.faults self.old.disk) (D.facts.faults self.new.disk) result }
    {
        the_log_has_a_format();
        if self.stopped {
            return Err(WalFault::Stopped);
        }
        let file = FileName {
            kind: FileKind::Log,
            number,
        };
        if let Err(fault) = self.disk.remove(alloc, file) {
            self.stopped = is_failure(fault);
            return Err(fault_of(fault));
        }
        Ok(())
    }
}

/// A law: ops that are changes name no file beside the log, so none of them is ever replaced.
pub fn changes_replace_no_file()
    ensures { (ops : List Op) → All IsChange ops → (file : FileName) → IsReplaced ops file → ⊥ }
{}
