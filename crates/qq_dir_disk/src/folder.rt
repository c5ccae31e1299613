ghost use Rattle.std.specs.Prelude.{◌≡◌, ◌++◌, ◌∷◌, true, IfOk, IfSome, IsOkUnless};
ghost use Rattle.qq_dir_disk.specs.Name.{file_text};
ghost use Rattle.qq_dir_disk.specs.Folder.{folder_path};

use crate::disk_file::DiskFile;
use crate::name::file_text;
use qq_base::Memory;
use qq_disk::FileName;
use std::alloc::Global;
use std::fs::File;
use std::io::ErrorKind;
use std::rt::Files;
use std::{fs, io};

/// A folder of the operating system.
#[derive(Debug, Drop)]
pub struct Folder {
    path: String,
}

// The folder that a path's last name stands in.
fn parent(path: &str) -> &str {
    match path.trim_end_matches('/').rsplit_once('/') {
        Some(("", _)) => "/",
        Some((above, _)) => above,
        None => ".",
    }
}

// Syncs a file or a folder, and answers it.
fn sync_path<R: Files>(rt: &R, path: &str) -> io::Result<R::File>
where
    R::File: DiskFile,
    ensures { IfOk result (λ file. R.File.is_synced file ≡ true) }
{
    let file = File::open(rt, path)?;
    file.sync_whole()?;
    Ok(file)
}

// Syncs the name of a folder that was found, and answers the folder above. Where that may not be read, nobody
// could have made and synced the name from here, and there is nothing to catch up on.
fn sync_found<R: Files>(rt: &R, path: &str) -> io::Result<Option<R::File>>
where
    R::File: DiskFile,
    ensures { IfOk result (λ above. IfSome above (λ file. R.File.is_synced file ≡ true)) }
{
    match sync_path(rt, parent(path)) {
        Ok(above) => Ok(Some(above)),
        Err(e) if e.kind() == ErrorKind::PermissionDenied => Ok(None),
        Err(e) => Err(e),
    }
}

// Makes a folder that is absent, and syncs its name into the folder above, which it answers.
fn make_level<R: Files>(rt: &R, path: &str) -> io::Result<R::File>
where
    R::File: DiskFile,
    ensures { IfOk result (λ above. R.File.is_synced above ≡ true) }
{
    fs::create_dir(rt, path)?;
    sync_path(rt, parent(path))
}

impl Folder {
    /// The folder of this path, which needn't be there.
    pub fn new(path: String) -> Self
        ensures { result.path ≡ path }
    {
        Folder { path }
    }

    /// Its path. No text is the folder that the process is in.
    pub fn path(&self) -> &str
        ensures { result.now ≡ folder_path self.now }
    {
        if self.path.is_empty() {
            return ".";
        }
        self.path.as_str()
    }

    /// The path of a file in it.
    pub fn path_of(&self, alloc: Global, file: FileName) -> Result<String, Memory>
        ensures path { IfOk result (λ path.
            path.bytes.items ≡ folder_path self.now ++ 47 ∷ file_text file) }
        ensures want { IsOkUnless result Memory.Want }
    {
        let mut path = String::from_str(alloc, self.path())?;
        path.push('/')?;
        path.push_str(file_text(alloc, file)?.as_str())?;
        Ok(path)
    }

    /// Syncs its entries, so that the names of its files survive, and answers it as it is open.
    pub fn sync<R: Files>(&self, rt: &R) -> io::Result<R::File>
    where
        R::File: DiskFile,
        ensures { IfOk result (λ folder. R.File.is_synced folder ≡ true) }
    {
        sync_path(rt, self.path())
    }

    /// Makes the folder and those above it, as far as they are absent, from the top down. A folder's own
    /// name is synced before anything is made in it, also that of one that was found, since who made it
    /// may have ended before that. Answers the folder above, into which its name was synced, None where that
    /// may not be read.
    pub fn make<R: Files>(&self, rt: &R) -> io::Result<Option<R::File>>
    where
        R::File: DiskFile,
        ensures { IfOk result (λ above. IfSome above (λ file. R.File.is_synced file ≡ true)) }
    {
        let path = self.path();
        let mut found = None;
        for end in 1..path.len() {
            match path.split_at_checked(end) {
                Some((level, rest)) if rest.starts_with('/') => found = step(rt, found, level)?.0,
                _ => {}
            }
        }
        let (found, above) = step(rt, found, path)?;
        match found {
            Some(folder) => sync_found(rt, folder),
            None => Ok(above),
        }
    }
}

// Makes one level below the one that was found. Answers the level, where it was found with its name not synced,
// and else the folder above it, with its name synced there.
fn step<'a, R: Files>(
    rt: &R,
    found: Option<&'a str>,
    level: &'a str,
) -> io::Result<(Option<&'a str>, Option<R::File>)>
where
    R::File: DiskFile,
    ensures { IfOk result (λ done. IfSome done.1 (λ file. R.File.is_synced file ≡ true)) }
{
    if fs::exists(rt, level)? {
        return Ok((Some(level), None));
    }
    if let Some(above) = found {
        sync_found(rt, above)?;
    }
    Ok((None, Some(make_level(rt, level)?)))
}
