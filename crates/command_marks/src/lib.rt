//! The marks of a set-up's answers, as text: of each call that expects something whether its reply is as expected. No reply
//! is shown. And set-ups that are written anew: the one of which each call expects the reply that it gets, and the one of format 2
//! that stands for one of format 1.
#![tactic(auto)]

mod against;
mod answers;
mod command;
mod differences;
mod field;
mod laws;
mod mark;
mod marking;
mod migrating;
mod recording;
mod table;
mod text;

pub use answers::mark_answers;
pub use command::Marks;
pub use laws::{
    another_set_up_has_a_place, answers_are_right_where_they_say_enough,
    marks_are_those_of_the_report, status_0_says_that_all_is_right,
};
pub use mark::Mark;
pub use migrating::{Migrator, migrate_run};
pub use recording::Record;
pub use table::mark_files;
