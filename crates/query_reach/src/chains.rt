//! Chains of slots: through which slots a thread comes to an object.

mod chain;
mod layers;

pub use self::chain::{Target, shortest_chain};
