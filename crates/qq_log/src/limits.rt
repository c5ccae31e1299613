//! The limits of what is written.

/// The greatest number of a node.
pub const NODE_LIMIT: u8 = 7;

/// The most bytes of an op's payload. Only a carry may have more.
pub const PAYLOAD_LIMIT: usize = 4_194_304;

/// The most bytes of an op's record in a log file, its head and its mark counted: as many as one batch has
/// at most.
pub const RECORD_LIMIT: usize = 4_194_304;
