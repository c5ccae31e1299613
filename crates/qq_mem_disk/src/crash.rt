ghost use Rattle.std.specs.Prelude.{◌≡◌, Some, if◌then◌else◌, IfOk, OnOk};
ghost use Rattle.qq_disk.specs.Image.{is_file, remainder};
ghost use Rattle.qq_mem_disk.specs.Files.{disk_of};
ghost use Rattle.qq_mem_disk.specs.Crashed.{put_remainder, IsCrash};

use crate::file::File;
use crate::files::Files;
use crate::listing::newest_log;
use qq_disk::{FileName, Image, Tail};
use std::alloc::{AllocError, Global};
use std::collections::BTreeMap;

/// The files after a crash.
pub fn crash_files(files: Files, alloc: Global, image: &Image) -> Result<Files, AllocError>
    ensures { IfOk result (λ after. IsCrash image.now (disk_of files) (disk_of after)) }
{
    let newest = newest_log(&files, image.removed_back);
    let mut rest = files;
    let mut after = BTreeMap::new(alloc);
    while let Some((name, file)) = rest.pop_first() {
        put_remainder(&mut after, name, file, image, newest)?;
    }
    Ok(after)
}

/// Adds what is left of a file.
fn put_remainder(
    after: &mut Files,
    name: FileName,
    file: File,
    image: &Image,
    newest: Option<FileName>,
) -> Result<(), AllocError>
    ensures { let left = remainder image.now (is_file newest name) (Some file) in
        OnOk result (disk_of after.new ≡ put_remainder (disk_of after.old) name left) }
{
    if !image.removed_back && file.is_removed() {
        return Ok(());
    }
    let tail = tail(image, is_file(newest, name));
    after.insert(name, file.tear(tail)?)?;
    Ok(())
}

fn is_file(newest: Option<FileName>, name: FileName) -> bool
    ensures { result ≡ is_file newest name }
{
    match newest {
        Some(newest) => newest.cmp(&name).is_eq(),
        None => false,
    }
}

fn tail(image: &Image, newest: bool) -> &Tail
    ensures { result.now ≡ (if newest then image.now.newest_log else image.now.others) }
{
    if newest {
        &image.newest_log
    } else {
        &image.others
    }
}
