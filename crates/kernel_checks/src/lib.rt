//! The checks of a call that a ready thread makes, over any capability store: each once, generic in what it answers where it
//! fails. A step of the kernel is answered the refusal alone, `reason_op` the reason for it, with what was found.
#![tactic(auto)]

mod cnodes;
mod deletion;
mod failure;
pub mod hints;
pub mod laws;
mod lookup;
mod messages;
mod operation;
mod paths;
mod retyping;
mod threads;
mod walk;

pub use hints::{Hint, depth_hint, index_hint, word_hint};
pub use operation::{decode_op, reason_in, reason_op};
pub use paths::path;
