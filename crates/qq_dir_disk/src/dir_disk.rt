ghost use Rattle.std.specs.Prelude.{◌≡◌, ◌≤◌, true, false, Err, None, IfOk, IfErr, IfNone, IfSome, OnOk, OnErr, length};
ghost use Rattle.std.specs.List.Sorted.{IsStrictlySortedBy};
ghost use Rattle.qq_disk.specs.Name.{name_cmp};
ghost use Rattle.qq_base.specs.Causes.{HasCause};
ghost use Rattle.qq_disk.specs.Fault.{IsCaused};
ghost use Rattle.qq_dir_disk.specs.Faults.{StopsWhereFailed};
ghost use Rattle.qq_dir_disk.specs.Handles.{handle_of, without, HasSynced, KeepsOpen};

use crate::disk_file::DiskFile;
use crate::faults::Faults;
use crate::folder::Folder;
use crate::handles::{Access, Handle, Handles};
use crate::listing::list;
use qq_base::Memory;
use qq_disk::{DiskFault, FileName, NodeDisk};
use std::alloc::Global;
use std::fs::{OpenFile, OpenOptions};
use std::io::{ErrorKind, Read, Seek, SeekFrom, Write};
use std::rt::Files;
use std::{fs, io};

/// A node's disk in a folder of the operating system. It tells nothing of its contents.
///
/// Nobody else may write the folder's files. What the disk shows of a file that it found in the folder was
/// synced before, so that it survives even where its writer had ended before its own sync.
#[derive(Drop)]
pub struct DirDisk<R: Files> {
    rt: R,
    folder: Folder,
    handles: Handles<R::File>,
    faults: Faults,
    /// Whether the folder is known to be there, with its name synced.
    is_made: bool,
    /// Whether the folder was synced since it was last changed.
    is_synced: bool,
}

impl<R: Files> DirDisk<R>
where
    R::File: DiskFile,
{
    /// The disk in this folder, which needn't be there: the first append makes it. Nothing is opened.
    pub fn new(rt: R, alloc: Global, folder: String) -> Self
        ensures faults { result.faults.count ≡ 0 }
        ensures stopped { result.faults.stopped ≡ false }
        ensures folder { result.folder.path ≡ folder }
    {
        DirDisk {
            rt,
            folder: Folder::new(folder),
            handles: Handles::new(alloc),
            faults: Faults::new(),
            is_made: false,
            is_synced: false,
        }
    }

    /// The disk in the same folder, opened again: the files are closed, and all that was known of the folder is
    /// forgotten. What was pending is whatever the system has taken. A disk that was stopped stays so, since
    /// what it shows may be in the system's memory alone.
    pub fn reopen(self, alloc: Global) -> Self
        ensures faults { result.faults.count ≡ 0 }
        ensures stopped { result.faults.stopped ≡ self.faults.stopped }
        ensures folder { result.folder ≡ self.folder }
    {
        DirDisk {
            rt: self.rt,
            folder: self.folder,
            handles: Handles::new(alloc),
            faults: self.faults.begin_again(),
            is_made: false,
            is_synced: false,
        }
    }

    // Closes a handle. One for appends is synced first, so that no fault of its pending bytes is missed.
    fn close(&mut self, handle: Handle<R::File>)
        ensures handles { self.new.handles ≡ self.old.handles }
        ensures later { self.old.faults.count ≤ self.new.faults.count }
        ensures stopped { self.old.faults.stopped ≡ true → self.new.faults.stopped ≡ true }
    {
        if handle.access == Access::Append && handle.file.sync_whole().is_err() {
            self.faults.stop();
        }
    }

    // Keeps a handle open for the calls to come.
    fn keep_open(&mut self, handle: Handle<R::File>)
        ensures handles { KeepsOpen handle self.old.handles.files.items
            self.new.handles.files.items }
        ensures later { self.old.faults.count ≤ self.new.faults.count }
        ensures stopped { self.old.faults.stopped ≡ true → self.new.faults.stopped ≡ true }
    {
        let oldest = self.handles.take_oldest();
        let refused = self.handles.put(handle);
        if let Some(oldest) = oldest {
            self.close(oldest);
        }
        if let Err(handle) = refused {
            self.close(handle);
        }
    }

    // Syncs the folder, where it was changed since it was last synced.
    fn sync_folder(&mut self) -> Result<(), DiskFault>
        ensures handles { self.new.handles ≡ self.old.handles }
        ensures failed { OnErr result (self.new.faults.stopped ≡ true) }
        ensures stopped { self.old.faults.stopped ≡ true → self.new.faults.stopped ≡ true }
        ensures cause { HasCause IsCaused self.old.faults.count self.new.faults.count result }
    {
        if self.faults.stopped {
            return Err(self.faults.count());
        }
        if self.is_synced {
            return Ok(());
        }
        if self.folder.sync(&self.rt).is_err() {
            return Err(self.faults.stop());
        }
        self.is_synced = true;
        Ok(())
    }

    // Syncs a file that was found in the folder, and its name, before any of it is shown.
    fn settle(&mut self, file: &R::File) -> Result<(), DiskFault>
        ensures handles { self.new.handles ≡ self.old.handles }
        ensures stopped { self.old.faults.stopped ≡ true → self.new.faults.stopped ≡ true }
        ensures cause { HasCause IsCaused self.old.faults.count self.new.faults.count result }
    {
        if file.sync_whole().is_err() {
            return Err(self.faults.stop());
        }
        self.sync_folder()
    }

    // A file's handle, None where the file is absent. Where it was open it is taken out.
    fn open(
        &mut self,
        alloc: Global,
        name: FileName,
        access: Access,
    ) -> Result<Option<Handle<R::File>>, DiskFault>
        ensures name { IfOk result (λ found. IfSome found (λ handle. handle.name ≡ name)) }
        ensures closed { access ≡ Access.Read → IfOk result (λ found. IfNone found
            (handle_of name self.old.handles.files.items ≡ None)) }
        ensures handles { self.new.handles.files.items ≡ without name self.old.handles.files.items }
        ensures stopped { self.old.faults.stopped ≡ true → self.new.faults.stopped ≡ true }
        ensures cause { HasCause IsCaused self.old.faults.count self.new.faults.count result }
    {
        if let Some(handle) = self.handles.take(name) {
            if access == Access::Read || handle.access == Access::Append {
                return Ok(Some(handle));
            }
        }
        let path = self.folder.path_of(alloc, name)?;
        match open_options(access).open(&self.rt, path.as_str()) {
            Ok(file) => {
                self.settle(&file)?;
                Ok(Some(Handle { name, access, file }))
            }
            Err(e) if e.kind() == ErrorKind::NotFound => Ok(None),
            Err(_) => Err(self.faults.count()),
        }
    }

    // Makes the folder, where it is absent, before the first file that this disk makes.
    fn make_folder(&mut self) -> Result<(), DiskFault>
        ensures handles { self.new.handles ≡ self.old.handles }
        ensures stopped { self.old.faults.stopped ≡ true → self.new.faults.stopped ≡ true }
        ensures cause { HasCause IsCaused self.old.faults.count self.new.faults.count result }
    {
        if self.is_made {
            return Ok(());
        }
        if self.folder.make(&self.rt).is_err() {
            return Err(self.faults.count());
        }
        self.is_made = true;
        Ok(())
    }

    // Makes a file that is absent, and the folder where it is absent too.
    fn create(&mut self, alloc: Global, name: FileName) -> Result<Handle<R::File>, DiskFault>
        ensures handles { self.new.handles ≡ self.old.handles }
        ensures stopped { self.old.faults.stopped ≡ true → self.new.faults.stopped ≡ true }
        ensures cause { HasCause IsCaused self.old.faults.count self.new.faults.count result }
    {
        let path = self.folder.path_of(alloc, name)?;
        self.make_folder()?;
        self.is_synced = false;
        let made = open_options(Access::Append)
            .create_new(true)
            .open(&self.rt, path.as_str());
        match made {
            Ok(file) => Ok(Handle {
                name,
                access: Access::Append,
                file,
            }),
            Err(_) => Err(self.faults.count()),
        }
    }

    // Writes bytes at a file's end.
    fn write(&mut self, alloc: Global, name: FileName, bytes: &[u8]) -> Result<(), DiskFault>
        ensures stopped { self.old.faults.stopped ≡ true → self.new.faults.stopped ≡ true }
        ensures cause { HasCause IsCaused self.old.faults.count self.new.faults.count result }
    {
        let mut handle = match self.open(alloc, name, Access::Append)? {
            Some(handle) => handle,
            None => self.create(alloc, name)?,
        };
        let written = handle.file.write_all(bytes);
        self.keep_open(handle);
        if written.is_err() {
            return Err(self.faults.count());
        }
        Ok(())
    }

    // Syncs a file's bytes and its name, where it is there.
    fn flush(&mut self, alloc: Global, name: FileName) -> Result<(), DiskFault>
        ensures synced { OnOk result (HasSynced (λ file. R.File.is_synced file) name
            self.old.handles.files.items self.new.handles.files.items) }
        ensures stopped { self.old.faults.stopped ≡ true → self.new.faults.stopped ≡ true }
        ensures cause { HasCause IsCaused self.old.faults.count self.new.faults.count result }
    {
        let Some(handle) = self.open(alloc, name, Access::Read)? else {
            return Ok(());
        };
        let synced = handle.file.sync_bytes();
        self.keep_open(handle);
        if synced.is_err() {
            return Err(self.faults.count());
        }
        self.sync_folder()?;
        Ok(())
    }
}

fn open_options(access: Access) -> OpenOptions {
    let mut options = OpenOptions::new();
    options.read(true).append(access == Access::Append);
    options
}

// How many bytes a file has. What isn't a file, as a folder, has none to tell.
fn size_of<F: OpenFile>(file: &F) -> io::Result<u64> {
    let metadata = file.metadata()?;
    if !metadata.is_file() {
        return Err(io::Error::from(ErrorKind::InvalidInput));
    }
    Ok(metadata.len())
}

// Reads into a buffer from a place on: as many bytes as it takes and the file has.
fn read_from<F: Read + Seek + OpenFile>(
    file: &mut F,
    place: u64,
    buf: &mut [u8],
) -> io::Result<usize>
    ensures within { IfOk result (λ count. count ≤ length buf.old) }
{
    let ahead = size_of(file)?.saturating_sub(place);
    let count = usize::try_from(ahead).unwrap_or(usize::MAX).min(buf.len());
    if count == 0 {
        return Ok(0);
    }
    file.seek(SeekFrom::Start(place))?;
    file.read_exact(&mut buf[..count])?;
    Ok(count)
}

impl<R: Files + AllocGlobal + Clone + Drop> NodeDisk for DirDisk<R>
where
    R::File: DiskFile,
{
    ghost use Rattle.std.specs.Prelude.{false, []};

    ghost facts = { record {
      tells = λ _. false;
      past = λ _. [];
      faults = λ disk. disk.faults.count;
    } };

    fn names(&mut self, alloc: Global) -> Result<Vec<FileName>, DiskFault>
        ensures rising { IfOk result (λ names. IsStrictlySortedBy name_cmp names.items) }
        ensures stopped { self.old.faults.stopped ≡ true → self.new.faults.stopped ≡ true }
        ensures cause { HasCause IsCaused self.old.faults.count self.new.faults.count result }
    {
        let entries = match fs::read_dir(&self.rt, self.folder.path()) {
            Ok(entries) => entries,
            Err(e) if e.kind() == ErrorKind::NotFound => return Ok(Vec::new(alloc)),
            Err(e) => return Err(self.faults.refuse(&e)),
        };
        self.sync_folder()?;
        match list(alloc, entries) {
            Ok(names) => Ok(names),
            Err(e) => Err(self.faults.refuse(&e)),
        }
    }

    fn size(&mut self, alloc: Global, file: FileName) -> Result<u64, DiskFault>
        ensures stopped { self.old.faults.stopped ≡ true → self.new.faults.stopped ≡ true }
        ensures cause { HasCause IsCaused self.old.faults.count self.new.faults.count result }
    {
        let Some(handle) = self.open(alloc, file, Access::Read)? else {
            return Ok(0);
        };
        let size = size_of(&handle.file);
        self.keep_open(handle);
        match size {
            Ok(size) => Ok(size),
            Err(_) => Err(self.faults.count()),
        }
    }

    fn read(
        &mut self,
        alloc: Global,
        file: FileName,
        place: u64,
        buf: &mut [u8],
    ) -> Result<usize, DiskFault>
        ensures within { IfOk result (λ count. count ≤ length buf.old) }
        ensures stopped { self.old.faults.stopped ≡ true → self.new.faults.stopped ≡ true }
        ensures cause { HasCause IsCaused self.old.faults.count self.new.faults.count result }
    {
        let Some(mut handle) = self.open(alloc, file, Access::Read)? else {
            return Ok(0);
        };
        let count = read_from(&mut handle.file, place, buf);
        self.keep_open(handle);
        match count {
            Ok(count) => Ok(count),
            Err(_) => Err(self.faults.count()),
        }
    }

    fn append(&mut self, alloc: Global, file: FileName, bytes: &[u8]) -> Result<(), DiskFault>
        ensures failed { IfErr result (StopsWhereFailed self.new.faults.stopped) }
        ensures stopped { self.old.faults.stopped ≡ true → self.new.faults.stopped ≡ true }
        ensures cause { HasCause IsCaused self.old.faults.count self.new.faults.count result }
    {
        let done = self.write(alloc, file, bytes);
        if let Err(DiskFault::Failed) = done {
            self.faults.stopped = true;
        }
        done
    }

    fn sync(&mut self, alloc: Global, file: FileName) -> Result<(), DiskFault>
        ensures synced { OnOk result (HasSynced (λ file. R.File.is_synced file) file
            self.old.handles.files.items self.new.handles.files.items) }
        ensures still { self.old.faults.stopped ≡ true → result ≡ Err DiskFault.Failed }
        ensures failed { IfErr result (StopsWhereFailed self.new.faults.stopped) }
        ensures stopped { self.old.faults.stopped ≡ true → self.new.faults.stopped ≡ true }
        ensures cause { HasCause IsCaused self.old.faults.count self.new.faults.count result }
    {
        if self.faults.stopped {
            return Err(self.faults.count());
        }
        let done = self.flush(alloc, file);
        if let Err(DiskFault::Failed) = done {
            self.faults.stopped = true;
        }
        done
    }

    fn remove(&mut self, alloc: Global, file: FileName) -> Result<(), DiskFault>
        ensures stopped { self.old.faults.stopped ≡ true → self.new.faults.stopped ≡ true }
        ensures cause { HasCause IsCaused self.old.faults.count self.new.faults.count result }
    {
        let path = self.folder.path_of(alloc, file)?;
        match fs::remove_file(&self.rt, path.as_str()) {
            Ok(()) => {
                self.handles.take(file);
                self.is_synced = false;
                self.sync_folder()
            }
            Err(e) if e.kind() == ErrorKind::NotFound => Ok(()),
            Err(_) => Err(self.faults.count()),
        }
    }
}
