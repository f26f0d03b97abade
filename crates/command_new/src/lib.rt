//! A set-up to start from, whose addresses are computed.
#![tactic(auto)]

mod asked;
mod example;
pub mod laws;
mod making;
mod names;
mod planning;
mod text;

pub use asked::NewSetup;
pub use making::Maker;
