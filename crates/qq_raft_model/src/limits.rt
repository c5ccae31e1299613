/// The most entries of one message.
pub const BATCH_ENTRIES: u64 = 256;

/// The most bytes of one message's encoded entries, where it has more than one entry.
pub const BATCH_BYTES: u64 = 1 << 20;
