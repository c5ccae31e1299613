//! AMQP 0-9-1 as bytes: a reader of the frames that come in pieces, and a writer.
#![tactic(auto)]

mod basic;
mod channel;
mod connection;
mod fault;
mod fields;
mod frame;
mod head;
mod kinds;
mod laws;
mod method;
mod put;
mod put_basic;
mod put_connection;
mod put_method;
mod put_queue;
mod queue;
mod reader;
mod reading;
mod worked;
mod writing;

pub use fault::WireFault;
pub use frame::Frame;
pub use laws::{
    a_fault_is_answered_from_then_on, bytes_have_one_reading, frames_are_one_list,
    frames_read_back, spellings_differ_in_what_is_reserved, what_is_found_stands_there,
};
pub use method::Method;
pub use reader::Reader;
pub use worked::{
    basic_methods_have_these_bytes, channel_and_queue_methods_have_these_bytes,
    connection_methods_have_these_bytes, worked_calls_hand_out_frames, worked_faults_are_found,
    worked_frames_are_found,
};
pub use writing::write_frame;
