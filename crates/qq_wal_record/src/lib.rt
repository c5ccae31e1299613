//! The records of a node's shared log, as bytes: one encoding for each header and each record, read again
//! whatever follows it. A mark tells bytes that were written from others.
#![tactic(auto)]

mod ahead;
mod fields;
mod header;
mod laws;
mod mark;
mod marking;
mod reading;
mod record;
mod writing;

pub use ahead::marks_ahead;
pub use header::{Header, NoHeader, read_header, write_header};
pub use laws::{
    encodings_have_lengths, headers_read_back, no_record_begins_another, records_read_back,
};
pub use mark::MARK_LEN;
pub use marking::{MarkRoom, write_marked};
pub use reading::{read_record, read_record_with};
pub use record::{LogRecord, NoRecord};
pub use writing::{put_op_body, write_carry};
