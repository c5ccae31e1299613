ghost use Rattle.std.specs.Prelude.{IfOk};
ghost use Rattle.std.specs.List.Sorted.{IsStrictlySortedBy};
ghost use Rattle.qq_disk.specs.Name.{name_cmp};

use crate::name::file_name;
use qq_disk::FileName;
use std::alloc::{AllocError, Global};
use std::collections::BTreeSet;
use std::fs::ReadDir;
use std::io;
use std::io::ErrorKind;
use std::rt::Files;

fn in_order(alloc: Global, names: &BTreeSet<FileName>) -> Result<Vec<FileName>, AllocError>
    ensures { IfOk result (λ list. IsStrictlySortedBy name_cmp list.items) }
{
    let mut list = Vec::new(alloc);
    for name in names {
        list.push(*name)?;
    }
    Ok(list)
}

/// The names of a disk's files in a folder, in their order. Files of other names are passed over.
pub fn list<R: Files + Clone + Drop>(
    alloc: Global,
    entries: ReadDir<R, Global>,
) -> io::Result<Vec<FileName>>
    ensures { IfOk result (λ list. IsStrictlySortedBy name_cmp list.items) }
{
    let mut names = BTreeSet::new(alloc);
    for entry in entries {
        match entry {
            Ok(entry) => {
                if let Some(name) = file_name(entry.file_name()) {
                    names.insert(name)?;
                }
            }
            // A name that isn't text is none of the disk's.
            Err(e) if e.kind() == ErrorKind::InvalidFilename => {}
            Err(e) => return Err(e),
        }
    }
    Ok(in_order(alloc, &names)?)
}
