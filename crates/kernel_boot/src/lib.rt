//! What a kernel is booted from: the sizes of a simulation and its untyped regions, laid out, and the store with their
//! capabilities.
#![tactic(auto)]

pub mod plan;
mod store;

pub use plan::{BootPlan, PlanDefect};
pub use store::booted_store;
