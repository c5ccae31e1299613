ghost use Rattle.std.specs.Prelude.{◌≡◌, ◌++◌, List, length, IfOk, OnOk, OnErr};
ghost use Rattle.qq_disk.specs.Disk.{append, sync, remove, content};
ghost use Rattle.qq_mem_disk.specs.Files.{disk_of, IsUndone};

use crate::change::Before;
use crate::file::File;
use qq_disk::FileName;
use std::alloc::{AllocError, Global};
use std::collections::BTreeMap;

/// Files by their names.
pub type Files = BTreeMap<FileName, File>;

/// A file's bytes, none where it is absent or removed.
pub fn content(files: &Files, name: FileName) -> &[u8]
    ensures { result.now ≡ content (disk_of files.now) name }
{
    match files.get(&name) {
        Some(file) => { if file.is_removed() { &[] } else { file.bytes() } }
        None => &[],
    }
}

/// Adds bytes to a file, and answers what stood there before.
pub fn append(
    files: &mut Files,
    alloc: Global,
    name: FileName,
    bytes: &[u8],
) -> Result<Before, AllocError>
    ensures ok { OnOk result (disk_of files.new ≡ append (disk_of files.old) name bytes.now) }
    ensures before { IfOk result (λ before.
        IsUndone name before (disk_of files.old) (disk_of files.new)) }
    ensures err { OnErr result (disk_of files.new ≡ disk_of files.old) }
{
    if let Some(file) = files.get_mut(&name) {
        return file.append(alloc, bytes);
    }
    let file = File::new(Vec::from_slice(alloc, bytes)?);
    files.insert(name, file)?;
    Ok(Before::Absent)
}

/// Keeps a file's bytes, and answers what stood there before.
pub fn sync(files: &mut Files, name: FileName) -> Before
    ensures is { disk_of files.new ≡ sync (disk_of files.old) name }
    ensures before { IsUndone name result (disk_of files.old) (disk_of files.new) }
{
    match files.get_mut(&name) {
        Some(file) => {
            let mark = file.mark();
            file.keep();
            Before::Earlier(mark)
        }
        None => Before::Absent,
    }
}

/// Marks a file as removed, and answers what stood there before.
pub fn remove(files: &mut Files, name: FileName) -> Before
    ensures is { disk_of files.new ≡ remove (disk_of files.old) name }
    ensures before { IsUndone name result (disk_of files.old) (disk_of files.new) }
{
    match files.get_mut(&name) {
        Some(file) => {
            let mark = file.mark();
            file.mark_removed();
            Before::Earlier(mark)
        }
        None => Before::Absent,
    }
}
