ghost use Rattle.std.specs.Prelude.{◌≡◌, IfOk};
ghost use Rattle.qq_disk.specs.Disk.{IsListing};
ghost use Rattle.qq_disk.specs.Image.{IsNewestLog};
ghost use Rattle.qq_mem_disk.specs.Files.{disk_of};

use crate::files::Files;
use qq_disk::{FileKind, FileName};
use std::alloc::{AllocError, Global};

/// The names of the files that are not removed, in their order.
pub fn names(files: &Files, alloc: Global) -> Result<Vec<FileName>, AllocError>
    ensures { IfOk result (λ names. IsListing (disk_of files.now) names.items) }
{
    let mut names = Vec::new(alloc);
    for (name, file) in files {
        if !file.is_removed() {
            names.push(*name)?;
        }
    }
    Ok(names)
}

/// The log file of greatest number among those that a crash leaves.
pub fn newest_log(files: &Files, removed_back: bool) -> Option<FileName>
    ensures { IsNewestLog (disk_of files.now) removed_back result }
{
    let mut newest = None;
    for (name, file) in files {
        if name.kind == FileKind::Log && (removed_back || !file.is_removed()) {
            newest = Some(*name);
        }
    }
    newest
}
