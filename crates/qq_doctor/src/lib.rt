//! Whether the nodes' files of a stopped cluster agree, queue by queue. Nothing is changed.
#![tactic(auto)]

mod checking;
mod doctor;
mod found;
mod lanes;
mod laws;
mod reading;
mod report;
mod verdict;
mod words;

pub use checking::check;
pub use doctor::run_doctor;
pub use laws::{other_requests_are_refused, requests_are_read, verdicts_are_printed};
pub use report::DIFFERS;
pub use verdict::Verdict;
pub use words::{Request, read_request};
