//! The lines of a trace: what it tells of a kernel's state, and how two states differ.

mod between;
mod changes;
mod derived;
mod foreseen;
mod messages;
mod names;
mod rows;
mod siblings;
mod slots;
mod state;
mod text;
mod told;

pub use between::add_changes_between;
pub use foreseen::{DerivedCap, Foreseen, foresee, tell_made};
pub use names::add_names;
pub use text::OfferText;
pub use told::{Told, tell};
