//! Flows: a bound on what may ever stand in each set of slots, if threads fill only slots that they can name.
#![tactic(auto)]

mod excluded;
mod laws;
mod listed;
mod search;

pub use excluded::{changes_none, keeps_apart, names_none, passes_none};
pub use laws::flows_stay_held;
pub use listed::{Caller, Flows, MayStand, Standing, is_flow};
pub use search::flow_of;
