//! The trace of a set-up's run as text: what the boot gives, what each call changes, and why calls are refused. Its lines (`lines`) tell
//! of a kernel's state, and how two states differ.
#![tactic(auto)]

mod bits;
mod calls;
mod command;
mod head;
mod laws;
mod lines;
mod run;
mod ways;
mod words;

pub use command::Trace;
pub use laws::{calls_are_those_of_the_report, reasons_stand_below_refused_calls};
pub use lines::{OfferText, add_changes_between, add_names};
pub use run::trace;
