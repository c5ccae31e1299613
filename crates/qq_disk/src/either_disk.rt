ghost use Rattle.qq_disk.specs.Either.{either_facts};

use crate::{DiskFault, FileName, NodeDisk};
use std::alloc::Global;

/// A disk that is one of two, as a node's disk in memory or in a folder.
#[derive(Drop)]
pub enum EitherDisk<A, B> {
    First(A),
    Second(B),
}

impl<A: NodeDisk, B: NodeDisk> NodeDisk for EitherDisk<A, B> {
    ghost facts = { either_facts A.facts B.facts };

    fn names(&mut self, alloc: Global) -> Result<Vec<FileName>, DiskFault> {
        match self {
            EitherDisk::First(disk) => disk.names(alloc),
            EitherDisk::Second(disk) => disk.names(alloc),
        }
    }

    fn size(&mut self, alloc: Global, file: FileName) -> Result<u64, DiskFault> {
        match self {
            EitherDisk::First(disk) => disk.size(alloc, file),
            EitherDisk::Second(disk) => disk.size(alloc, file),
        }
    }

    fn read(
        &mut self,
        alloc: Global,
        file: FileName,
        place: u64,
        buf: &mut [u8],
    ) -> Result<usize, DiskFault> {
        match self {
            EitherDisk::First(disk) => disk.read(alloc, file, place, buf),
            EitherDisk::Second(disk) => disk.read(alloc, file, place, buf),
        }
    }

    fn append(&mut self, alloc: Global, file: FileName, bytes: &[u8]) -> Result<(), DiskFault> {
        match self {
            EitherDisk::First(disk) => disk.append(alloc, file, bytes),
            EitherDisk::Second(disk) => disk.append(alloc, file, bytes),
        }
    }

    fn sync(&mut self, alloc: Global, file: FileName) -> Result<(), DiskFault> {
        match self {
            EitherDisk::First(disk) => disk.sync(alloc, file),
            EitherDisk::Second(disk) => disk.sync(alloc, file),
        }
    }

    fn remove(&mut self, alloc: Global, file: FileName) -> Result<(), DiskFault> {
        match self {
            EitherDisk::First(disk) => disk.remove(alloc, file),
            EitherDisk::Second(disk) => disk.remove(alloc, file),
        }
    }
}
