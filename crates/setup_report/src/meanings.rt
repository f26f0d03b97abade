//! What a word of a command line or of a policy stands for: a thread, an endpoint or a region, by its address, by its name, or by
//! a slot of the root CNode.

mod absent;
mod meant;
mod slots;
mod words;

pub use absent::{absent_object, absent_slot};
pub use meant::{ObjectKind, are_meant, object_meant, objects_meant};
pub use slots::slot_meant;
pub use words::number_meant;
