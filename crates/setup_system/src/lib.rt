//! Layouts as `.system` files, which become capDL texts, and the languages of layouts. What is read is tested, and no clause says what
//! it is but in which language a layout is.
#![tactic(auto)]

mod elements;
mod languages;
mod machines;
mod making;
mod system;

pub use languages::{Language, capdl_text, language_of, read_any_layout, reading_of};
