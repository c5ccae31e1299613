//! The way back along the chain.
ghost use Rattle.std.specs.Prelude.{◌≡◌, ◌<◌, List, IsTrue};
ghost use Rattle.qq_base.specs.declared.ids.QueueId.{QueueId};
ghost use Rattle.qq_base.specs.Causes.{HasCause};
ghost use Rattle.qq_disk.specs.Disk.{now, IsListing};
ghost use Rattle.qq_wal_chain.specs.Chain.{good_length};
ghost use Rattle.qq_wal_chain.specs.Wal.{wal};
ghost use Rattle.qq_recover.specs.Answer.{Gives};
ghost use Rattle.qq_recover.specs.Ends.{chain_ends};
ghost use Rattle.qq_recover.specs.Fault.{IsCaused};
ghost use Rattle.qq_wal.specs.Running.{top};
ghost use Rattle.qq_recover.specs.Reading.{shown};
ghost use Rattle.qq_recover.specs.ReadOnly.{OnlyReads};

use crate::fault::RecoverFault;
use crate::file::file_at;
use crate::read::read_listed;
use qq_disk::{FileName, NodeDisk};
use qq_wal_chain::the_log_has_a_format;
use std::alloc::Global;
use std::marker::Model;

/// A file of the chain, by where its records end. They aren't kept: no more than one file's are held at once.
#[derive(Drop)]
pub(crate) struct FileEnd {
    number: u64,
    end: u64,
}

impl Model for FileEnd {
    ghost use Rattle.std.specs.Prelude.{◌<◌};
    ghost use Rattle.qq_recover.specs.Ends.{End};

    ghost Value = { End };

    ghost view = { λ f. record { number = f.number; end = f.end } };

    ghost invariant = { λ f. 0 < f.number };
}

impl FileEnd {
    fn new(number: u64, end: u64) -> Self
        requires { 0 < number }
        ensures { result ≡ record { number = number; end = end } }
    {
        FileEnd { number, end }
    }

    pub(crate) fn number(&self) -> u64
        ensures value { result ≡ self.now.number }
        ensures some { 0 < result }
    {
        self.number
    }

    pub(crate) fn end(&self) -> u64
        ensures { result ≡ self.now.end }
    {
        self.end
    }
}

/// Where the files of the chain end, from one back, the newest first.
pub(crate) fn chain_ends<D: NodeDisk>(
    disk: &mut D,
    alloc: Global,
    names: &[FileName],
    newest: u64,
) -> Result<Vec<FileEnd>, RecoverFault>
    ensures gives { IsTrue (D.facts.tells disk.old) →
        IsListing (now (D.facts.past disk.old)) names.now →
        (queues : List QueueId) → let logs = shown (now (D.facts.past disk.old)) in
        Gives (λ ends. ends.items) result
        (chain_ends queues top logs newest (good_length (wal queues) newest (logs newest))) }
    ensures reads { OnlyReads D.facts disk.old disk.new }
    ensures cause { HasCause IsCaused (D.facts.faults disk.old) (D.facts.faults disk.new) result }
{
    the_log_has_a_format();
    let mut ends = Vec::new(alloc);
    let mut number = newest;
    let mut good = None;
    'files: while number != 0 {
        let Some(bytes) = read_listed(disk, alloc, names, number)? else {
            return Ok(ends);
        };
        match file_at(alloc, number, good, &bytes) {
            Ok((header, file)) => {
                ends.push(FileEnd::new(number, file.end))?;
                number = header.previous;
                good = Some(header.good);
            }
            Err(fault) => return Err(fault),
        }
    }
    Ok(ends)
}
