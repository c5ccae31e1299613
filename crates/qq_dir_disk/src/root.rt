ghost use Rattle.std.specs.Prelude.{◌≡◌, true, IfOk, IfSome};
ghost use Rattle.std.specs.Str.{bytes_eq};

use crate::disk_file::DiskFile;
use crate::folder::Folder;
use std::alloc::Global;
use std::fs::OpenOptions;
use std::io;
use std::rt::Files;

/// A root whose file `lock` this process has locked. Another process that would lock it is refused, until this
/// value or this process ends.
#[derive(Drop)]
pub struct LockedRoot<F> {
    path: String,
    file: F,
}

impl<F> LockedRoot<F> {
    /// Whether it is the root of this path.
    pub fn is_at(&self, path: &str) -> bool
        ensures { result ≡ bytes_eq self.now.path.bytes.items path.now }
    {
        self.path.as_str() == path
    }
}

/// Locks a root, and makes it where it is absent. None where another has it locked.
pub fn lock_root<R: Files>(
    rt: &R,
    alloc: Global,
    path: &str,
) -> io::Result<Option<LockedRoot<R::File>>>
where
    R::File: DiskFile,
    ensures path { IfOk result (λ found.
        IfSome found (λ root. root.path.bytes.items ≡ path.now)) }
    ensures locked { IfOk result (λ found.
        IfSome found (λ root. R.File.is_locked root.file ≡ true)) }
{
    let folder = Folder::new(String::from_str(alloc, path)?);
    folder.make(rt)?;
    let mut name = String::from_str(alloc, folder.path())?;
    name.push_str("/lock")?;
    let file = OpenOptions::new()
        .write(true)
        .create(true)
        .open(rt, name.as_str())?;
    if !file.lock_file()? {
        return Ok(None);
    }
    Ok(Some(LockedRoot {
        path: String::from_str(alloc, path)?,
        file,
    }))
}
