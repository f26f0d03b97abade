//! What the program does with the words of its command line, with the inputs that they name and with standard output. Who wants to
//! run a set-up from another program finds here, under one name, the runs of the commands `check`, `threads` and `migrate` over a
//! source and a sink, how they end, and how a command line is read.
#![tactic(auto)]

mod commas;
mod host;
mod jobs;
mod lines;
mod marks;
mod new_setup;
mod witness;
mod work;

pub use command_check::check;
pub use command_core::{RunFault, Sink, Source, Verdict, status_of};
pub use command_files::{Inputs, Listener, Used};
pub use command_line::{Job, Line, LineFault, line};
pub use command_marks::migrate_run;
pub use command_threads::threads_run;
pub use host::run;
pub use jobs::run_job;
pub use lines::run_words;
pub use program_messages::{CheckedFiles, Done, Ended, Unknown};
