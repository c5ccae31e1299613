use crate::file::File;
use qq_disk::FileName;

/// How much of a file's bytes there was, and how it was marked.
#[derive(Clone, Copy)]
pub struct Mark {
    pub length: usize,
    pub kept: usize,
    pub synced: bool,
    pub removed: bool,
}

/// What stood under a name before a call.
#[derive(Drop)]
pub enum Before {
    /// No file.
    Absent,
    /// The same file, with fewer bytes or other marks.
    Earlier(Mark),
    /// A removed file, in whose place an empty one began.
    Other(File),
}

/// A call that changed the disk, by what leads back to the disk before it.
#[derive(Drop)]
pub struct Change {
    pub file: FileName,
    pub before: Before,
}
