//! A policy as it was read and understood, in lines: what it lets groups hold and send, by the names of a set-up.
#![tactic(auto)]

mod command;
mod laws;
mod listing;

pub use command::Listing;
pub use laws::listings_tell_policies;
