//! The numbers of the kinds of commands.

pub const NOOP: u8 = 0;

pub const ENQUEUE: u8 = 1;

pub const GET: u8 = 2;

pub const SUBSCRIBE: u8 = 3;

pub const CANCEL: u8 = 4;

pub const CREDIT: u8 = 5;

pub const SETTLE: u8 = 6;

pub const RETURN: u8 = 7;

pub const DISCARD: u8 = 8;

pub const PURGE: u8 = 9;

pub const DOWN: u8 = 10;

pub const DEAD_ATTACH: u8 = 11;

pub const DEAD_SETTLE: u8 = 12;
