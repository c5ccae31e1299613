ghost use Rattle.std.specs.Prelude.{◌≡◌, ◌≤◌, ◌++◌, Some, length, take, drop, IfOk, OnOk, OnErr};
ghost use Rattle.qq_disk.specs.Disk.{new_file, append_target, grow, keep, mark_removed, whole};
ghost use Rattle.qq_disk.specs.Image.{tail_of};
ghost use Rattle.qq_mem_disk.specs.Change.{mark_of, before_of};

use crate::change::{Before, Mark};
use qq_disk::Tail;
use std::alloc::{AllocError, Global};
use std::marker::Model;
use std::mem;

/// A file: its bytes, of which the first are kept, in one buffer.
#[derive(Drop)]
pub struct File {
    bytes: Vec<u8>,
    kept: usize,
    synced: bool,
    removed: bool,
}

impl Model for File {
    ghost use Rattle.std.specs.Prelude.{◌≤◌, length, take, drop};
    ghost use Rattle.qq_disk.specs.Disk.{FileState};

    ghost Value = { FileState };

    ghost view = { λ f. record {
      kept = take f.kept f.bytes.items;
      pending = drop f.kept f.bytes.items;
      synced = f.synced;
      removed = f.removed;
    } };

    ghost invariant = { λ f. f.kept ≤ length f.bytes.items };
}

impl File {
    /// A file that was never synced.
    pub fn new(bytes: Vec<u8>) -> File
        ensures { result ≡ grow new_file bytes.items }
    {
        File {
            bytes,
            kept: 0,
            synced: false,
            removed: false,
        }
    }

    pub fn is_removed(&self) -> bool
        ensures { result ≡ self.now.removed }
    {
        self.removed
    }

    /// All its bytes, pending ones too.
    pub fn bytes(&self) -> &[u8]
        ensures { result.now ≡ self.now.kept ++ self.now.pending }
    {
        self.bytes.as_slice()
    }

    /// What leads back to the file as it is from what it becomes.
    pub fn mark(&self) -> Mark
        ensures { result ≡ mark_of self.now }
    {
        Mark {
            length: self.bytes.len(),
            kept: self.kept,
            synced: self.synced,
            removed: self.removed,
        }
    }

    fn grow(&mut self, bytes: &[u8]) -> Result<(), AllocError>
        ensures ok { OnOk result (self.new ≡ grow self.old bytes.now) }
        ensures err { OnErr result (self.new ≡ self.old) }
    {
        self.bytes.extend_from_slice(bytes)
    }

    /// Adds bytes to the pending ones, of a removed file to an empty file in its place.
    pub fn append(&mut self, alloc: Global, bytes: &[u8]) -> Result<Before, AllocError>
        ensures ok { OnOk result (self.new ≡ grow (append_target (Some self.old)) bytes.now) }
        ensures before { IfOk result (λ before. before_of before (Some self.new) ≡ Some self.old) }
        ensures err { OnErr result (self.new ≡ self.old) }
    {
        if self.removed {
            let anew = File::new(Vec::from_slice(alloc, bytes)?);
            return Ok(Before::Other(mem::replace(self, anew)));
        }
        let mark = self.mark();
        self.grow(bytes)?;
        Ok(Before::Earlier(mark))
    }

    /// Keeps all its bytes, unless it is removed.
    pub fn keep(&mut self)
        ensures { self.new ≡ keep self.old }
    {
        if !self.removed {
            self.kept = self.bytes.len();
            self.synced = true;
        }
    }

    pub fn mark_removed(&mut self)
        ensures { self.new ≡ mark_removed self.old }
    {
        self.removed = true;
    }

    /// The file after a crash: the kept bytes and a tail, all of them kept.
    pub fn tear(self, tail: &Tail) -> Result<File, AllocError>
        ensures { IfOk result (λ file. file ≡ whole (self.kept ++ tail_of tail.now self.pending)) }
    {
        let mut bytes = self.bytes;
        tear_bytes(&mut bytes, self.kept, tail)?;
        Ok(File {
            kept: bytes.len(),
            bytes,
            synced: true,
            removed: false,
        })
    }
}

/// Cuts or replaces what stands behind the kept bytes.
fn tear_bytes(bytes: &mut Vec<u8>, kept: usize, tail: &Tail) -> Result<(), AllocError>
    requires { kept ≤ length bytes.old.items }
    ensures { OnOk result
        (bytes.new.items ≡ take kept bytes.old.items
        ++ tail_of tail.now (drop kept bytes.old.items)) }
{
    match tail {
        Tail::Cut(count) => {
            let pending = bytes.len() - kept;
            if *count < pending as u64 {
                bytes.truncate(kept + *count as usize);
            }
            Ok(())
        }
        Tail::Junk(junk) => {
            let pending = bytes.len() - kept;
            let junk = junk.as_slice();
            let (front, _) = junk.split_at(junk.len().min(pending));
            bytes.truncate(kept);
            bytes.extend_from_slice(front)
        }
        Tail::Whole => Ok(()),
    }
}
