//! The command that holds a set-up's layout to a policy, with what standard error tells of it.
#![tactic(auto)]

mod command;
mod judging;
mod notes;

pub use command::{HeldTo, Judging};
pub use judging::{Judged, Sources, judge};
