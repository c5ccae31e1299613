//! What a disk holds of a log file.
ghost use Rattle.std.specs.Prelude.{◌≡◌, List, IsTrue, IfOk, option_map, is_some};
ghost use Rattle.qq_base.specs.declared.ids.QueueId.{QueueId};
ghost use Rattle.qq_base.specs.Causes.{HasCause};
ghost use Rattle.qq_disk.specs.Disk.{now, content, IsListing};
ghost use Rattle.qq_disk.specs.Fault.{IsCaused};
ghost use Rattle.qq_wal_chain.specs.Wal.{read_whole_header};
ghost use Rattle.qq_recover.specs.Newest.{has_log, is_among, newer_log, newer};
ghost use Rattle.qq_recover.specs.Reading.{shown, newest_file};
ghost use Rattle.qq_recover.specs.ReadOnly.{OnlyReads};

use crate::file::log_of;
use qq_disk::{DiskFault, FileKind, FileName, NodeDisk};
use qq_wal_chain::the_log_has_a_format;
use qq_wal_record::{NoHeader, read_header};
use std::alloc::Global;

/// Whether a whole header stands at the front, one of another version too.
fn is_whole_header(bytes: &[u8]) -> bool
    ensures { result ≡ is_some (read_whole_header bytes.now) }
{
    match read_header(bytes) {
        Ok(_) | Err(NoHeader::Version { .. }) => true,
        Err(_) => false,
    }
}

/// Whether a log file has a whole header.
pub(crate) fn has_whole_header<D: NodeDisk>(
    disk: &mut D,
    alloc: Global,
    number: u64,
) -> Result<bool, DiskFault>
    ensures ok { IsTrue (D.facts.tells disk.old) → IfOk result (λ has.
        has ≡ has_log (shown (now (D.facts.past disk.old))) number) }
    ensures reads { OnlyReads D.facts disk.old disk.new }
    ensures cause { HasCause IsCaused (D.facts.faults disk.old) (D.facts.faults disk.new) result }
{
    the_log_has_a_format();
    let mut front = [0; 38];
    let count = disk.read(alloc, log_of(number), 0, &mut front)?;
    Ok(is_whole_header(front.as_slice().split_at(count).0))
}

/// All bytes of a file.
pub(crate) fn read_file<D: NodeDisk>(
    disk: &mut D,
    alloc: Global,
    file: FileName,
) -> Result<Vec<u8>, DiskFault>
    ensures ok { IsTrue (D.facts.tells disk.old) → IfOk result (λ bytes.
        bytes.items ≡ content (now (D.facts.past disk.old)) file) }
    ensures reads { OnlyReads D.facts disk.old disk.new }
    ensures cause { HasCause IsCaused (D.facts.faults disk.old) (D.facts.faults disk.new) result }
{
    let size = disk.size(alloc, file)?;
    let mut bytes = vec![in alloc; 0; size as usize]?;
    let count = disk.read(alloc, file, 0, &mut bytes)?;
    bytes.truncate(count);
    Ok(bytes)
}

fn is_among(names: &[FileName], file: FileName) -> bool
    ensures { result ≡ is_among names.now file }
{
    for name in names {
        if name.cmp(&file).is_eq() {
            return true;
        }
    }
    false
}

/// All bytes of a log file, None where it isn't listed.
pub(crate) fn read_listed<D: NodeDisk>(
    disk: &mut D,
    alloc: Global,
    names: &[FileName],
    number: u64,
) -> Result<Option<Vec<u8>>, DiskFault>
    ensures ok { IsTrue (D.facts.tells disk.old) →
        IsListing (now (D.facts.past disk.old)) names.now →
        IfOk result (λ bytes.
        option_map (λ b. b.items) bytes ≡ shown (now (D.facts.past disk.old)) number) }
    ensures reads { OnlyReads D.facts disk.old disk.new }
    ensures cause { HasCause IsCaused (D.facts.faults disk.old) (D.facts.faults disk.new) result }
{
    let file = log_of(number);
    if is_among(names, file) {
        return Ok(Some(read_file(disk, alloc, file)?));
    }
    Ok(None)
}

/// The newer one of a log file and another, which is newer where its number is greater and it has a whole
/// header.
fn newer_log<D: NodeDisk>(
    disk: &mut D,
    alloc: Global,
    newest: u64,
    number: u64,
) -> Result<u64, DiskFault>
    ensures ok { IsTrue (D.facts.tells disk.old) → IfOk result (λ n.
        n ≡ newer_log (has_log (shown (now (D.facts.past disk.old)))) newest number) }
    ensures reads { OnlyReads D.facts disk.old disk.new }
    ensures cause { HasCause IsCaused (D.facts.faults disk.old) (D.facts.faults disk.new) result }
{
    if number <= newest {
        return Ok(newest);
    }
    if has_whole_header(disk, alloc, number)? {
        return Ok(number);
    }
    Ok(newest)
}

fn newer<D: NodeDisk>(
    disk: &mut D,
    alloc: Global,
    newest: u64,
    file: FileName,
) -> Result<u64, DiskFault>
    ensures ok { IsTrue (D.facts.tells disk.old) → IfOk result (λ n.
        n ≡ newer (has_log (shown (now (D.facts.past disk.old)))) newest file) }
    ensures reads { OnlyReads D.facts disk.old disk.new }
    ensures cause { HasCause IsCaused (D.facts.faults disk.old) (D.facts.faults disk.new) result }
{
    match file.kind {
        FileKind::Log => newer_log(disk, alloc, newest, file.number),
        FileKind::Segment => Ok(newest),
        FileKind::Snapshot => Ok(newest),
    }
}

/// The newest log file that has a whole header, 0 where none has.
pub(crate) fn newest_file<D: NodeDisk>(
    disk: &mut D,
    alloc: Global,
    names: &[FileName],
) -> Result<u64, DiskFault>
    ensures ok { IsTrue (D.facts.tells disk.old) →
        IsListing (now (D.facts.past disk.old)) names.now →
        (queues : List QueueId) →
        IfOk result (λ n. n ≡ newest_file queues (shown (now (D.facts.past disk.old)))) }
    ensures reads { OnlyReads D.facts disk.old disk.new }
    ensures cause { HasCause IsCaused (D.facts.faults disk.old) (D.facts.faults disk.new) result }
{
    let mut newest = 0;
    for name in names {
        newest = newer(disk, alloc, newest, *name)?;
    }
    Ok(newest)
}
