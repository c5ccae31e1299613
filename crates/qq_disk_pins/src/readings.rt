//! Laws of what a disk's calls read: the functions do nothing, and their contracts are the laws.
ghost use Rattle.std.specs.Prelude.{◌≡◌, ◌-◌, ◌↔◌, ℕ, List, min, length, take, drop, Contains};
ghost use Rattle.std.specs.List.Sorted.{IsStrictlySortedBy};
ghost use Rattle.qq_disk.specs.declared.name.FileName.{FileName};
ghost use Rattle.qq_disk.specs.Name.{name_cmp};
ghost use Rattle.qq_disk.specs.Disk.{Disk, IsListed, IsListing, IsRead};

/// A listing has exactly the files that are there, in strictly rising order.
pub fn a_listing_has_each_file_once()
    ensures each { (d : Disk) (names : List FileName) (file : FileName) →
        IsListing d names → Contains names file ↔ IsListed d file }
    ensures rising { (d : Disk) (names : List FileName) →
        IsListing d names → IsStrictlySortedBy name_cmp names }
{}

/// A read puts the bytes from its place on at the buffer's front, as many as there are and fit, and leaves
/// the rest of the buffer.
pub fn a_read_fills_the_front()
    ensures as_many { (bytes : List ℕ) (place count : ℕ) (old new : List ℕ) →
        IsRead bytes place count old new → count ≡ min (length old) (length bytes - place) }
    ensures front { (bytes : List ℕ) (place count : ℕ) (old new : List ℕ) →
        IsRead bytes place count old new → take count new ≡ take count (drop place bytes) }
    ensures rest { (bytes : List ℕ) (place count : ℕ) (old new : List ℕ) →
        IsRead bytes place count old new → drop count new ≡ drop count old }
{}
