//! New files of the log, and the numbers of files.
ghost use Rattle.std.specs.Prelude.{◌≡◌, ◌≤◌, ◌+◌, Err, true, false, IsTrue, IfOk, IfErr, OnOk, OnErr};
ghost use Rattle.qq_base.specs.declared.memory.TheConstants.{NUMBER_END};
ghost use Rattle.qq_base.specs.Causes.{HasCause};
ghost use Rattle.qq_disk.specs.Disk.{now};
ghost use Rattle.qq_disk.specs.Image.{log_of};
ghost use Rattle.qq_wal.specs.Fault.{IsRollCaused, StopsAtRoll};
ghost use Rattle.qq_wal.specs.Numbers.{number_of, raise};
ghost use Rattle.qq_wal.specs.Running.{Stays, StaysBeside, StillHolds, StillMayRecover};
ghost use Rattle.qq_wal.specs.Wal.{IsSound, IsRolled, carries_ahead, is_full};

use crate::begin::first_bytes;
use crate::fault::{WalFault, fault_of};
use crate::file::begin_file;
use crate::numbers::{next_number, raise};
use crate::wal::Wal;
use qq_base::Memory;
use qq_disk::{FileKind, NodeDisk};
use qq_log::carries_restate;
use qq_wal_chain::the_log_has_a_format;
use qq_wal_record::Header;
use std::alloc::Global;

impl<D: NodeDisk> Wal<D> {
    /// Whether so much came behind the bytes with which the file was begun that it is full. So a file isn't full
    /// at once, however many queues it restates.
    pub fn full(&self) -> bool
        ensures { result ≡ is_full self.now }
    {
        self.log_bytes <= self.size.saturating_sub(self.first)
    }

    /// Begins a new file with the carries of the queues that have one, in one append, and syncs it; it
    /// answers the file's number. Nothing that was appended may wait for a sync: else a crash could leave
    /// the old file cut and the new header whole, which names more of the old file. What was gathered
    /// waits on. `Spent` comes exactly where the greatest number of a log file is at its end. After an error
    /// the log is as it was. It is stopped only where the disk failed, or had no memory to sync the file that
    /// was begun.
    pub fn roll(&mut self, alloc: Global) -> Result<u64, WalFault>
        requires sound { IsSound D.facts self.old }
        requires synced { self.old.dirty ≡ false }
        ensures sound { IsSound D.facts self.new }
        ensures number { IfOk result (λ number. number ≡ self.old.numbers.log + 1) }
        ensures ok { OnOk result (IsRolled self.old self.new) }
        ensures stays { IsTrue (D.facts.tells self.old.disk) →
            Stays self.old.queues.items (D.facts.past self.old.disk) (D.facts.past self.new.disk) }
        ensures holds { IsTrue (D.facts.tells self.old.disk) → OnOk result (StillHolds
            self.old.queues.items (now (D.facts.past self.old.disk))
            (now (D.facts.past self.new.disk))) }
        ensures queues { self.new.queues ≡ self.old.queues }
        ensures ahead { carries_ahead self.new ≡ carries_ahead self.old }
        ensures err { OnErr result (self.new ≡ record self.old {
          disk = self.new.disk;
          stopped = self.new.stopped;
        }) }
        ensures stops { IsTrue (D.facts.tells self.old.disk) →
            StopsAtRoll (self.old.numbers.log + 1)
            self.old.stopped result self.new.stopped (now (D.facts.past self.new.disk)) }
        ensures failed { result ≡ Err WalFault.Disk → self.new.stopped ≡ true }
        ensures moments { IsTrue (D.facts.tells self.old.disk) →
            OnErr result (self.new.stopped ≡ false →
            D.facts.past self.new.disk ≡ D.facts.past self.old.disk) }
        ensures stopped { self.old.stopped ≡ true →
            (self.new ≡ self.old) × (result ≡ Err WalFault.Stopped) }
        ensures spent { self.old.stopped ≡ false → NUMBER_END ≤ self.old.numbers.log →
            result ≡ Err (WalFault.Memory (Memory.Spent self.old.numbers.log)) }
        ensures beside { IsTrue (D.facts.tells self.old.disk) →
            StaysBeside (log_of (self.old.numbers.log + 1))
            (D.facts.past self.old.disk) (D.facts.past self.new.disk) }
        ensures may { IsTrue (D.facts.tells self.old.disk) → StillMayRecover self.old.queues.items
            (D.facts.past self.old.disk) (D.facts.past self.new.disk) }
        ensures told { D.facts.tells self.new.disk ≡ D.facts.tells self.old.disk }
        ensures cause { HasCause (IsRollCaused self.old.stopped self.old.numbers.log)
            (D.facts.faults self.old.disk) (D.facts.faults self.new.disk) result }
    {
        carries_restate();
        the_log_has_a_format();
        if self.stopped {
            return Err(WalFault::Stopped);
        }
        let number = match next_number(self.numbers.log) {
            Ok(number) => number,
            Err(memory) => return Err(WalFault::Memory(memory)),
        };
        let header = Header {
            file: number,
            previous: self.header.file,
            good: self.size,
        };
        let bytes = match first_bytes(alloc, header, self.marks.as_slice()) {
            Ok(bytes) => bytes,
            Err(memory) => return Err(WalFault::Memory(memory)),
        };
        let ranges = match self.ranges.begin_files(alloc, &self.queues, number) {
            Ok(ranges) => ranges,
            Err(memory) => return Err(WalFault::Memory(memory)),
        };
        if let Err((fault, half)) = begin_file(&mut self.disk, alloc, header, bytes.as_slice()) {
            self.stopped = half;
            return Err(fault_of(fault));
        }
        self.header = header;
        let size = bytes.len() as u64;
        self.size = size;
        self.first = size;
        self.numbers.log = number;
        self.ranges = ranges;
        Ok(number)
    }

    /// A number for a new file: above all of its kind that the disk listed when the log was begun, and
    /// above all that the log has given or begun since. `Spent` comes exactly where the greatest of these
    /// is at its end.
    pub fn fresh(&mut self, kind: FileKind) -> Result<u64, Memory>
        requires { IsSound D.facts self.old }
        ensures sound { IsSound D.facts self.new }
        ensures number { IfOk result (λ number. number ≡ number_of kind self.old.numbers + 1) }
        ensures ok { OnOk result
            (self.new ≡ record self.old { numbers = raise kind self.old.numbers }) }
        ensures spent { NUMBER_END ≤ number_of kind self.old.numbers →
            result ≡ Err (Memory.Spent (number_of kind self.old.numbers)) }
        ensures err { OnErr result
            ((NUMBER_END ≤ number_of kind self.old.numbers) × (self.new ≡ self.old)) }
    {
        let (numbers, number) = raise(self.numbers, kind)?;
        self.numbers = numbers;
        Ok(number)
    }
}
