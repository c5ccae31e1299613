//! The exit statuses.

/// The input was read to its end, and all was written.
pub const DONE: u8 = 0;
/// The words are no command.
pub const USAGE: u8 = 2;
/// The export is refused.
pub const DEFINITIONS: u8 = 3;
/// A line was refused.
pub const REFUSED: u8 = 4;
/// The source failed, or the shelf.
pub const READ_FAULT: u8 = 5;
/// The sink failed.
pub const WRITE_FAULT: u8 = 6;
/// The yard failed, or each node's disk did as the cluster was opened.
pub const YARD_FAULT: u8 = 7;
/// The files of a node's log break their rules.
pub const DAMAGED: u8 = 8;
/// A queue's ops on a node aren't those that its member was noticed of.
pub const LOST: u8 = 9;
/// A body, the number of lines, or the number of queues of an export, passes its limit.
pub const LIMIT: u8 = 11;
/// There was no memory.
pub const NO_MEMORY: u8 = 12;
/// A number stands at its end.
pub const SPENT: u8 = 20;
