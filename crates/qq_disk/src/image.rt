use qq_base::Bytes;

/// What a crash leaves of a file's pending bytes.
#[derive(Debug, Drop, PartialEq)]
pub enum Tail {
    /// So many of the first of them, or all where they are fewer.
    Cut(u64),
    /// These bytes in their place, cut to their length.
    Junk(Bytes),
    /// All of them.
    Whole,
}

/// What a crash leaves of a disk: of each file its kept bytes and a tail.
#[derive(Debug, Drop, PartialEq)]
pub struct Image {
    /// Of the log file of greatest number among the files that are left.
    pub newest_log: Tail,
    /// Of every other file.
    pub others: Tail,
    /// Whether the files that were removed are back.
    pub removed_back: bool,
}
