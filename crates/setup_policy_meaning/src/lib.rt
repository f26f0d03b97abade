//! What the words of a policy mean in a set-up's state, and what its objects are called.
#![tactic(auto)]

mod objects;
mod regions;
mod resolve;

pub use objects::{Meaning, Object, Objects, object_of, root_slots};
pub use resolve::{Resolver, table_spot};
