use crate::method::Method;
use qq_base::Bytes;

/// A frame (AMQP 0-9-1, section 4.2.3), or what stands before the first.
#[derive(Drop)]
pub enum Frame {
    /// `AMQP` 0 0 9 1, with which a client begins.
    Protocol,
    /// A method.
    Method {
        /// The channel, 0 for the connection.
        channel: u16,
        /// The method.
        method: Method,
    },
    /// The header of a content.
    Header {
        /// The channel.
        channel: u16,
        /// The class of the method whose content it is.
        class: u16,
        /// How many bytes the bodies of the content have together.
        size: u64,
        /// The content's properties, which aren't read.
        properties: Bytes,
    },
    /// A part of a content.
    Body {
        /// The channel.
        channel: u16,
        /// The part.
        bytes: Bytes,
    },
    /// A sign of life.
    Heartbeat {
        /// The channel.
        channel: u16,
    },
}
