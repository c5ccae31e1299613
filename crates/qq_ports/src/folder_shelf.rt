ghost use Rattle.std.specs.Prelude.{◌≡◌, None, IfErr};
ghost use Rattle.qq_base.specs.declared.memory.Memory.TheVariants.{Want};

use crate::shelf::{Shelf, ShelfFault};
use qq_base::Memory;
use std::alloc::Global;
use std::fs;
use std::io::ErrorKind;
use std::rt::Files;

/// The files of a folder of the operating system. It tells nothing of them.
#[derive(Drop)]
pub struct FolderShelf<R> {
    rt: R,
    folder: String,
    faults: u64,
}

impl<R> FolderShelf<R> {
    /// The files of this folder. A name that begins with `/` is one of the whole machine, and with no folder
    /// each name is as the process reads it.
    pub fn new(rt: R, folder: String) -> Self
        ensures faults { result.faults ≡ 0 }
    {
        FolderShelf {
            rt,
            folder,
            faults: 0,
        }
    }
}

fn path(alloc: Global, folder: &str, name: &str) -> Result<String, ShelfFault>
    ensures want { IfErr result (λ e. e ≡ ShelfFault.Memory Want) }
{
    let mut path = String::new(alloc);
    if !folder.is_empty() && !name.starts_with('/') {
        path.push_str(folder)?;
        path.push('/')?;
    }
    path.push_str(name)?;
    Ok(path)
}

impl<R: Files + AllocGlobal> Shelf for FolderShelf<R> {
    ghost files = { λ _. None };

    ghost faults = { λ shelf. shelf.faults };

    fn fetch(&mut self, alloc: Global, name: &str) -> Result<Vec<u8>, ShelfFault> {
        let path = path(alloc, self.folder.as_str(), name)?;
        match fs::read(&self.rt, path.as_str()) {
            Ok(bytes) => Ok(bytes),
            Err(e) if e.kind() == ErrorKind::OutOfMemory => Err(ShelfFault::Memory(Memory::Want)),
            Err(_) => {
                self.faults = self.faults.saturating_add(1);
                Err(ShelfFault::Failed)
            }
        }
    }
}
