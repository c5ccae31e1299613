//! Laws of a queue's numbers and parts in words of their own, so that none of the definitions that say them can be
//! weakened alone.
#![tactic(auto)]

mod changes;
mod client;
mod gone;
mod moves;
mod queue;
mod reads;
mod turns;

pub use changes::{
    consumers_change_in_the_parts, deliveries_begin_and_end, messages_leave_the_parts,
};
pub use client::{a_client_has_one_low_mark, what_is_open_was_handed_out};
pub use gone::a_queue_goes_on_without_what_is_gone;
pub use moves::entries_move_what_is_live;
pub use queue::{consumers_have_turns, messages_have_numbers, sessions_have_numbers};
pub use reads::{counts_are_lengths, dead_letters_are_found};
pub use turns::{checkouts_are_those_of_the_queue, the_first_that_waits_is_next};
