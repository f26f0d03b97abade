//! The command line of the program `sel4sim`: what its words ask for, or why they are not taken.
#![tactic(auto)]

mod arguments;
mod built;
mod conflicts;
mod reading;
mod table;

pub use arguments::{Job, Line, LineFault, Options};
pub use reading::{line, refused_line_words};
