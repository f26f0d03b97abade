//! Laws of policies: what it promises that the parts of a layout keep to one, and that no line tells of a breach.
#![tactic(auto)]

mod laws;

pub use laws::{
    larger_parts_hold_no_less, least_parts_keep_what_larger_keep, no_answer_leads_out,
    no_grant_leads_out, what_audit_policy_promises, what_is_joined_is_closed, what_is_kept_is_held,
    what_is_not_told_is_kept, what_is_not_told_is_not_taken_by_a_group, what_is_told_is_broken,
    what_status_0_promises, what_ways_let_is_delivered,
};
