//! Log files that aren't read go, once the new file stands.
ghost use Rattle.std.specs.Prelude.{◌≡◌, ◌<◌, List, Contains, true, false, IsTrue, IfErr, OnOk};
ghost use Rattle.qq_disk.specs.declared.name.FileKind.TheVariants.{Log as OfLog};
ghost use Rattle.qq_disk.specs.declared.name.FileName.{FileName};
ghost use Rattle.qq_disk.specs.Disk.{now};
ghost use Rattle.qq_wal.specs.Fault.{IsCaused};
ghost use Rattle.qq_wal.specs.Numbers.{greatest_number};
ghost use Rattle.qq_wal.specs.Running.{StillHolds};
ghost use Rattle.qq_wal.specs.Wal.{IsSound};
ghost use Rattle.qq_recover.specs.Clearing.{AreOutside, Clears, has_end, is_unread, remove_one, remove_unread};

use crate::walk::FileEnd;
use qq_disk::{FileKind, FileName, NodeDisk};
use qq_wal::{Wal, WalFault};
use std::alloc::Global;

fn has_end(chain: &[FileEnd], number: u64) -> bool
    ensures { result ≡ has_end chain.now number }
{
    for end in chain {
        if end.number() == number {
            return true;
        }
    }
    false
}

/// Whether a file is a log file, and not one of the chain.
fn is_unread(chain: &[FileEnd], file: FileName) -> bool
    ensures { result ≡ is_unread chain.now file }
{
    match file.kind {
        FileKind::Log => !has_end(chain, file.number),
        FileKind::Segment => false,
        FileKind::Snapshot => false,
    }
}

/// Removes a file that isn't read.
fn remove_one<D: NodeDisk>(
    wal: &mut Wal<D>,
    alloc: Global,
    chain: &[FileEnd],
    file: FileName,
) -> Result<(), WalFault>
    requires sound { IsSound D.facts wal.old }
    requires going { wal.old.stopped ≡ false }
    requires older { file.kind ≡ OfLog → file.number < wal.old.header.file }
    requires outside { IsTrue (D.facts.tells wal.old.disk) → AreOutside wal.old.queues.items
        wal.old.header chain.now (now (D.facts.past wal.old.disk)) }
    ensures clears { (names : List FileName) → Contains names file →
        Clears D.facts names chain.now wal.old wal.new }
    ensures ok { IsTrue (D.facts.tells wal.old.disk) → OnOk result (now (D.facts.past wal.new.disk)
        ≡ remove_one chain.now (now (D.facts.past wal.old.disk)) file) }
    ensures holds { IsTrue (D.facts.tells wal.old.disk) → OnOk result (StillHolds
        wal.old.queues.items (now (D.facts.past wal.old.disk)) (now (D.facts.past wal.new.disk))) }
    ensures going { OnOk result (wal.new.stopped ≡ false) }
    ensures cause { IfErr result (IsCaused false
        (D.facts.faults wal.old.disk) (D.facts.faults wal.new.disk)) }
{
    if !is_unread(chain, file) {
        return Ok(());
    }
    wal.remove_log(alloc, file.number)
}

/// Removes those of the files that aren't read.
pub(crate) fn remove_unread<D: NodeDisk>(
    wal: &mut Wal<D>,
    alloc: Global,
    chain: &[FileEnd],
    names: &[FileName],
) -> Result<(), WalFault>
    requires sound { IsSound D.facts wal.old }
    requires going { wal.old.stopped ≡ false }
    requires older { greatest_number OfLog names.now < wal.old.header.file }
    requires outside { IsTrue (D.facts.tells wal.old.disk) → AreOutside wal.old.queues.items
        wal.old.header chain.now (now (D.facts.past wal.old.disk)) }
    ensures clears { Clears D.facts names.now chain.now wal.old wal.new }
    ensures ok { IsTrue (D.facts.tells wal.old.disk) → OnOk result (now (D.facts.past wal.new.disk)
        ≡ remove_unread chain.now (now (D.facts.past wal.old.disk)) names.now) }
    ensures holds { IsTrue (D.facts.tells wal.old.disk) → OnOk result (StillHolds
        wal.old.queues.items (now (D.facts.past wal.old.disk)) (now (D.facts.past wal.new.disk))) }
    ensures going { OnOk result (wal.new.stopped ≡ false) }
    ensures cause { IfErr result (IsCaused false
        (D.facts.faults wal.old.disk) (D.facts.faults wal.new.disk)) }
{
    for name in names {
        if let Err(fault) = remove_one(wal, alloc, chain, *name) {
            return Err(fault);
        }
    }
    Ok(())
}
