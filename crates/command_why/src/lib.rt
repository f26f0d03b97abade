//! Why the calls of a set-up are refused, as text: of each refused call the check that failed, and what was found there, in words
//! (`reasons`).
#![tactic(auto)]

mod calls;
mod command;
mod explaining;
mod laws;
mod reasons;
mod run;
mod tables;
mod threads;

pub use command::Why;
pub use explaining::explain;
pub use laws::names_mean_the_values_beside_them;
pub use reasons::{
    Asked, KeyWord, KeyWords, key_words, reasons_have_one_to_four_lines, sent,
    threads_told_are_those_of_the_definitions,
};
pub use run::{naming_after, why};
pub use tables::call_table;
