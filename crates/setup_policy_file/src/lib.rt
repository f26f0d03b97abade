//! The file of a policy: what it says, why it is refused, and where in its text an entry stands. What a file that is taken says
//! is proved (`IsPolicyText`); its faults are tested.
#![tactic(auto)]

mod arrays;
mod expanded;
mod fault;
mod faults;
mod file;
mod near;
mod reader;
mod reading;
mod tables;
mod values;

pub use fault::{Fault, Place, Spot, line_and_column};
pub use faults::{Note, Refusal};
pub use file::{GroupEntry, PolicyFile, TakeEntry, UseEntry, WayEntry, Word};
pub use near::did_you_mean;
pub use reading::read_policy;
