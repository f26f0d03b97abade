//! The command that writes the calls by which a breach of a policy happens, as a set-up.
#![tactic(auto)]

mod asking;
mod breach;
mod command;
mod question;

pub use command::BreachHow;
