//! The numbers of the reasons of deaths.

pub const REJECTED: u8 = 1;

pub const EXPIRED: u8 = 2;

pub const MAX_LEN: u8 = 3;

pub const DELIVERY_LIMIT: u8 = 4;
