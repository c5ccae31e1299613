//! What follows for every disk, as laws: the functions do nothing, and their contracts are the laws.
ghost use Rattle.std.specs.Prelude.{◌≡◌, ◌++◌, ℕ, List, Option, Some};
ghost use Rattle.qq_disk.specs.declared.name.FileName.{FileName};
ghost use Rattle.qq_disk.specs.Disk.{Disk, sync, content, contents, IsListed};
ghost use Rattle.qq_disk.specs.Crash.{Remains, IsImage, reopen};
ghost use Rattle.qq_disk.specs.declared.image.Image.{Image};
ghost use Rattle.qq_disk.specs.Image.{image_of};
ghost use Rattle.qq_disk.specs.Calls.{Call, after, Spares};

/// A disk as it reads is one of the images that a crash may leave.
pub fn a_disk_shows_an_image()
    ensures { (d : Disk) → IsImage d (contents d) }
{}

/// What a sync kept stands at the front of the file in every image, whatever is called from then on,
/// as long as the file isn't removed.
pub fn synced_bytes_stay()
    ensures { (d : Disk) (file : FileName) (calls : List Call) (i : Remains) →
        IsListed d file → Spares file calls → IsImage (after (sync d file) calls) i →
        (more : List ℕ) × (i file ≡ Some (content d file ++ more)) }
{}

/// A crash settles what is on the disk: an image that is opened again reads as it is, and is its own
/// only image.
pub fn a_crash_settles()
    ensures reads { (i : Remains) (file : FileName) → contents (reopen i) file ≡ i file }
    ensures same { (i : Remains) → IsImage (reopen i) i }
    ensures alone { (i j : Remains) (file : FileName) → IsImage (reopen i) j → j file ≡ i file }
{}

/// What a named image leaves is one of the images that a crash may leave.
pub fn a_named_image_is_one()
    ensures { (image : Image) (newest : Option FileName) (d : Disk) →
        IsImage d (image_of image newest d) }
{}
