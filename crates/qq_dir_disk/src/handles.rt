ghost use Rattle.std.specs.Prelude.{◌≡◌, ◌<◌, ◌≤◌, ◌++◌, ◌∷◌, [], IfErr, IfSome, OnOk, OnErr, vec_len};
ghost use Rattle.std.specs.List.{position};
ghost use Rattle.qq_disk.specs.Name.{same_name};
ghost use Rattle.qq_dir_disk.specs.Handles.{handle_of, without, oldest, without_oldest};

use qq_disk::FileName;
use std::alloc::Global;

/// How many handles stay open.
const MOST: usize = 16;

/// What a handle serves for.
#[derive(Clone, Copy, Debug, PartialEq, Eq)]
pub enum Access {
    /// For reads alone.
    Read,
    /// For appends, and reads.
    Append,
}

/// An open file.
#[derive(Drop)]
pub struct Handle<F> {
    /// The file's name.
    pub name: FileName,
    /// What it was opened for.
    pub access: Access,
    /// The file, as the system has it.
    pub file: F,
}

/// The open files, the one that was used last at the end.
#[derive(Drop)]
pub struct Handles<F> {
    files: Vec<Handle<F>>,
    ghost bounded: { vec_len files ≤ 16 },
}

impl<F: Drop> Handles<F> {
    /// None is open.
    pub fn new(alloc: Global) -> Self
        ensures { result.files.items ≡ [] }
    {
        Handles {
            files: Vec::new(alloc),
        }
    }

    fn place(&self, name: FileName) -> Option<usize>
        ensures place { result
            ≡ position (λ handle. same_name handle.name name) self.now.files.items }
        ensures within { IfSome result (λ place. place < vec_len self.now.files) }
    {
        self.files
            .iter()
            .position(|handle| handle.name.cmp(&name).is_eq())
    }

    /// Takes a file's handle out, where it is open.
    pub fn take(&mut self, name: FileName) -> Option<Handle<F>>
        ensures handle { result ≡ handle_of name self.old.files.items }
        ensures left { self.new.files.items ≡ without name self.old.files.items }
        ensures name { IfSome result (λ handle. handle.name ≡ name) }
    {
        let place = self.place(name)?;
        Some(self.files.remove(place))
    }

    /// Takes out the handle that was used longest ago, where there are as many as may stay. Then there is room
    /// for another.
    pub fn take_oldest(&mut self) -> Option<Handle<F>>
        ensures handle { result ≡ oldest self.old.files.items }
        ensures left { self.new.files.items ≡ without_oldest self.old.files.items }
        ensures room { vec_len self.new.files < 16 }
    {
        if self.files.len() < MOST {
            return None;
        }
        Some(self.files.remove(0))
    }

    /// Puts a handle in, as the last one used. Without memory it is given back, and none is put in.
    pub fn put(&mut self, handle: Handle<F>) -> Result<(), Handle<F>>
        requires { vec_len self.old.files < 16 }
        ensures ok { OnOk result (self.new.files.items ≡ self.old.files.items ++ handle ∷ []) }
        ensures back { IfErr result (λ back. back ≡ handle) }
        ensures err { OnErr result (self.new.files.items ≡ self.old.files.items) }
    {
        match self.files.push(handle) {
            Ok(()) => Ok(()),
            Err(failed) => Err(failed.value),
        }
    }
}
