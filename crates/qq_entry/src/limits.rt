//! The limits of an entry's bytes.

/// The version of the machine that a first entry names.
pub const MACHINE_VERSION: u8 = 1;

/// The most bytes that stand behind an entry's length.
pub const LENGTH_LIMIT: usize = 262_144;

/// The most bytes of a message's body.
pub const BODY_LIMIT: usize = 65_536;

/// The most bytes of a routing key.
pub const KEY_LIMIT: usize = 255;

/// The most deaths of a message.
pub const DEATHS_LIMIT: usize = 1_025;

/// The most ids of one settle, return or discard.
pub const IDS_LIMIT: usize = 4_096;

/// The most dead letters that one command settles.
pub const DEAD_DONE_LIMIT: usize = 32;

/// The most targets of a dead letter.
pub const TARGETS_LIMIT: usize = 1_024;

/// The greatest term of a dead-letter worker.
pub const TERM_LIMIT: u64 = 9_223_372_036_854_775_808;
