//! The numbers of frames (AMQP 0-9-1, sections 4.2.2 and 4.2.3).

/// What a client writes first (AMQP 0-9-1, section 4.2.2).
pub const PROTOCOL: [u8; 8] = [b'A', b'M', b'Q', b'P', 0, 0, 9, 1];

/// A frame of a method.
pub const METHOD: u8 = 1;

/// A frame of a content's header.
pub const HEADER: u8 = 2;

/// A frame of a content's body.
pub const BODY: u8 = 3;

/// A heartbeat.
pub const HEARTBEAT: u8 = 8;

/// The last byte of a frame.
pub const END: u8 = 206;
