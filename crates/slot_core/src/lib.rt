//! The capability store: which slot holds which capability, and the forest of their derivation.
#![tactic(auto)]

pub mod derivations;
mod derived;
pub mod linked;
pub mod rows;
pub mod slot;
pub mod store;

pub use derivations::{Derivation, DerivationStore};
pub use linked::{Link, LinkedStore};
pub use rows::RowStore;
pub use slot::Slot;
pub use store::{CapStore, MakeStore, SaveStore};
