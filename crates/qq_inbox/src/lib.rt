//! What passes between the threads of a node: ops to the writer of its log, and marks of what is synced.
//!
//! `docs/THREADS.md` has the rule of each structure.
#![tactic(auto)]

mod inbox;
mod laws;
mod marks;
mod pass;
mod relay;
mod seat;
mod watch;

pub use inbox::{Inbox, InboxPass};
pub use laws::{a_full_inbox_holds_its_capacity, no_seat_forgets, ops_in_order_count_on};
pub use marks::{MarkSeat, Marks, new_marks};
pub use pass::{PassView, Start};
pub use relay::{Relay, hand_over};
pub use seat::SeatView;
pub use watch::{Sighting, Watch, wait_for_op};
