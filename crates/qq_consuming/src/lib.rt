//! A consumer's deliveries at its client: each once and in order, whatever is lost on the way or comes again.
#![tactic(auto)]

mod consumers;
mod consuming;
mod laws;
mod numerals;

pub use consumers::{Consumers, Gap};
pub use consuming::{ClaimFault, Consuming};
pub use laws::{
    arrivals_are_remembered, claims_are_of_what_was_handed_out,
    consumers_are_handed_their_deliveries, deliveries_are_handed_out_in_order,
    the_least_id_is_missing, the_next_delivery_is_there_once_it_arrives, what_is_out_is_fetched,
    what_is_out_was_delivered_as_it_is,
};
pub use numerals::{
    claims_name_the_first_id_that_is_not_taken, deliveries_wait_for_those_below_them,
    repeats_are_handed_out_once, the_first_gap_is_missing,
};
pub use qq_base::{ConsumerId, Memory};
pub use qq_entry::Delivery;
