//! The text of answers, of deliveries, of all else that queues show, and of audits, as it is printed.
#![tactic(auto)]

mod answer;
mod audit;
mod delivery;
mod piece;
mod shown;
mod words;

pub use answer::{answer_text, session_line};
pub use audit::{audit_head_text, row_text};
pub use delivery::delivery_text;
pub use shown::shown_text;
pub use words::{push_number, push_text};
