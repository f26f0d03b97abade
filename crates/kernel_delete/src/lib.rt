//! Deletion and revocation: what leaves the derivation forest with a slot that is cleared.
#![tactic(auto)]

pub mod chain;
pub mod deletion;
pub mod laws;

pub use chain::SlotChain;
pub use deletion::{Finalise, clear, revoke};
