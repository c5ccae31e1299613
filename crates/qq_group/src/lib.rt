//! A group of Raft servers with their queues (Ongaro's dissertation, chapter 3): its servers, what their logs
//! were handed, the messages between them, and one audit of what was committed. Whatever happens in it is an
//! event of the definition of a group (`qq_group_model`).
#![tactic(auto)]

mod agreeing;
mod entries;
mod event;
mod events;
mod feeding;
mod group;
mod handing;
mod input;
mod laws;
mod leading;
mod logs;
mod messages;
mod opening;
mod outcome;
mod reads;
mod restart;
mod seat;
mod steps;

pub use event::Event;
pub use group::Group;
pub use laws::{
    an_answered_command_is_in_the_audit, an_idle_group_has_nothing_open,
    an_opened_group_is_reached, each_entry_was_submitted, events_reach_groups, logs_may_be_found,
    one_server_leads_a_term, the_logs_support_the_audit, the_term_of_a_server_does_not_fall,
    what_is_committed_stays_in_the_audit,
};
pub use opening::GroupFault;
pub use outcome::{Outcome, Shown};
pub use restart::RestartFault;
