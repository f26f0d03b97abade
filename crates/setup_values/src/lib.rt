//! What the values of a set-up's keys are read as: the kinds of value, and what is wrong with any other. And how deep they
//! nest.
#![tactic(auto)]

mod depth;
pub mod kinds;
pub mod limits;
pub mod names;
pub mod operations;
mod told;
pub mod values;

pub use depth::table_is_within;
pub use kinds::Kind;
pub use names::{KnownNames, Name};
pub use operations::OpName;
pub use told::{ThreadName, profile_text, thread_name};
pub use values::{Words, Wrong};
