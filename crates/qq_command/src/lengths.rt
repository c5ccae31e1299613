//! How many bytes the parts of an entry have.

/// An entry's term and its length.
pub const HEAD_LEN: usize = 12;

/// The lengths of a content's body, key and deaths.
pub const CONTENT_LEN: usize = 7;

/// A death.
pub const DEATH_LEN: usize = 5;

/// An id of a delivery.
pub const ID_LEN: usize = 8;

/// A target.
pub const TARGET_LEN: usize = 4;

/// A dead letter without targets.
pub const DEAD_DONE_LEN: usize = 10;

/// The least bytes of an entry: its term, its length, its time and its kind.
pub const ENTRY_LEN: usize = 21;
