//! How the program ends: its exit status, and what it says on standard error. That what is said first equals its definition
//! is proved; the other lines are tested.
#![tactic(auto)]

mod absent;
mod calls;
mod ended;
mod kinds;
mod layouts;
mod messages;
mod origins;
mod quoting;
mod sizes;
mod words;

pub use ended::{CheckedFiles, Done, Ended, Unknown, Unread};
pub use messages::{complain, tell, tell_of_file};
