//! The policy that a layout keeps now, as the text of a policy file. It is read and judged as `policy` does it before it is
//! written.
#![tactic(auto)]

mod command;
mod entries;
mod groups;
mod judged;
mod reasons;
mod tables;

pub use command::Draft;
