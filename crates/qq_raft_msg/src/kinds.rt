//! The numbers of the kinds of messages.

pub const VOTE: u8 = 1;

pub const VOTED: u8 = 2;

pub const APPEND: u8 = 3;

pub const APPENDED: u8 = 4;

pub const INSTALL: u8 = 5;

pub const INSTALLED: u8 = 6;
