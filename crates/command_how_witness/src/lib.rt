//! What calls show: that a message passes from one thread to another, or that the one holds the other or takes something from it;
//! the test of a text that is to be a set-up of such calls; and what says that there are none.
#![tactic(auto)]

mod asked;
mod by_flow;
mod callers;
mod excluded;
mod laws;
mod shown;
mod text;

pub use asked::{Asked, Happening};
pub use by_flow::is_excluded_by_flow;
pub use callers::may_call;
pub use excluded::is_excluded;
pub use laws::{
    still_parts_are_decided, still_parts_are_decided_with_badge, still_parts_can_pass,
    still_parts_change_no_slot, what_a_flow_excludes_has_no_witness,
    what_is_excluded_has_no_witness, what_is_excluded_is_decided, what_is_told_decided_is_shown,
};
pub use shown::{is_message, is_shown};
pub use text::is_witness_text;
