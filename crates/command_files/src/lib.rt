//! What is written of several files, from their names and bytes to a line for each; and the check of them, with a summary, or of one.
#![tactic(auto)]

mod checking;
mod inputs;
mod lines;
mod reading;
mod strict;
mod tally;
mod telling;

pub use checking::check_files;
pub use inputs::{Inputs, Listener, Used};
pub use strict::{FileCheck, NamedCheck};
pub use tally::{Tally, status_is_the_greatest, status_of_files};
pub use telling::{FileAnswer, Telling, tell_files};
