ghost use Rattle.std.specs.Prelude.{◌≡◌, ◌<◌, ◌++◌, ◌∷◌, [], vec_len, vec_capacity, OnOk, OnErr};
ghost use Rattle.qq_disk.specs.Disk.{now, append, sync, remove};

use crate::change::{Before, Change};
use crate::files::{self, Files};
use qq_disk::FileName;
use std::alloc::{AllocError, Global};
use std::collections::BTreeMap;

/// Files, and what leads back from them to each moment before.
#[derive(Drop)]
pub struct Store {
    pub files: Files,
    /// The changes so far, the oldest first.
    pub changes: Vec<Change>,
}

impl Store {
    ghost use Rattle.qq_mem_disk.specs.Files.{disk_of};
    ghost use Rattle.qq_mem_disk.specs.Store.{past_of};

    /// Files with no moment before them.
    pub fn new(alloc: Global, files: Files) -> Store
        ensures { past_of result ≡ disk_of files ∷ [] }
    {
        Store {
            files,
            changes: Vec::new(alloc),
        }
    }

    /// Drops what leads back to the moments before, with the memory that it took.
    pub fn forget(&mut self, alloc: Global)
        ensures { past_of self.new ≡ now (past_of self.old) ∷ [] }
    {
        self.changes = Vec::new(alloc);
    }

    pub fn append(&mut self, alloc: Global, name: FileName, bytes: &[u8]) -> Result<(), AllocError>
        ensures ok { OnOk result
            (past_of self.new ≡ append (now (past_of self.old)) name bytes.now ∷ past_of self.old) }
        ensures err { OnErr result (past_of self.new ≡ past_of self.old) }
    {
        self.changes.reserve(1)?;
        let before = files::append(&mut self.files, alloc, name, bytes)?;
        note(&mut self.changes, name, before);
        Ok(())
    }

    pub fn sync(&mut self, name: FileName) -> Result<(), AllocError>
        ensures ok { OnOk result
            (past_of self.new ≡ sync (now (past_of self.old)) name ∷ past_of self.old) }
        ensures err { OnErr result (past_of self.new ≡ past_of self.old) }
    {
        self.changes.reserve(1)?;
        let before = files::sync(&mut self.files, name);
        note(&mut self.changes, name, before);
        Ok(())
    }

    pub fn remove(&mut self, name: FileName) -> Result<(), AllocError>
        ensures ok { OnOk result
            (past_of self.new ≡ remove (now (past_of self.old)) name ∷ past_of self.old) }
        ensures err { OnErr result (past_of self.new ≡ past_of self.old) }
    {
        self.changes.reserve(1)?;
        let before = files::remove(&mut self.files, name);
        note(&mut self.changes, name, before);
        Ok(())
    }
}

fn note(changes: &mut Vec<Change>, file: FileName, before: Before)
    requires { vec_len changes.old < vec_capacity changes.old }
    ensures { changes.new.items
        ≡ changes.old.items ++ record { file = file; before = before } ∷ [] }
{
    changes.push(Change { file, before }).unwrap();
}
