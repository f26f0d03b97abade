//! What a revoke takes along if it ends no object that has slots: what stands below its slot, and nothing else.
#![tactic(auto)]

mod index;
mod keyed;
mod numbers;
mod revoked;
mod run;

pub use index::{DerivationIndex, NamedObjects};
pub use revoked::Revoked;
