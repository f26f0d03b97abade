//! The command that writes calls after which a message passes from one thread to another, or the one holds the other or takes
//! something from it, as a set-up. It searches for such calls over copies of a kernel (`finding`), and tests what it found.
#![tactic(auto)]

mod asking;
mod finding;
mod line;
mod table;
mod telling;

pub use asking::{How, flows_absent, most_of};
pub use command_how_witness::Happening;
pub use line::NoWitness;
pub use telling::{Outcome, outcome_of};
