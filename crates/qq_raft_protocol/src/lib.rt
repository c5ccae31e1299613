//! Raft among servers whose disks are durable late: what a group may do, and what holds of it whatever it
//! does. It has no code.
#![tactic(auto)]

mod laws;

pub use laws::{
    a_group_may_commit, a_leader_has_all_of_its_term, a_leader_only_appends,
    an_audit_that_may_be_replaced_is_refused, an_entry_was_appended, disks_are_a_start,
    fewer_lanes_support_the_audit, servers_agree, what_is_committed_stays,
};
