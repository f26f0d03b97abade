//! Where a key of a set-up, or its value, stands in its text: its line, its column, and that line with the key or the value
//! underlined. What is shown is tested, and no clause says what it is.
#![tactic(auto)]

mod excerpt;
mod search;
mod steps;

pub use excerpt::{Excerpt, NamedText};
pub use search::{Part, SoughtKey, array_of, span_at, span_in};
