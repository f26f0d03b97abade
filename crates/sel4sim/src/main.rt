//! The program `sel4sim`: does what the words of its command line ask for, with the files that they name or with standard input, and
//! writes the text of that command.
//!
//! The exit status is 0 if all expectations are met, or if what is asked for holds or is found; 1 if not; 2 if the set-up, the policy
//! or the layout is refused; 3 if the program could not read, write, start a thread or get memory; and 4 if the command line is refused,
//! or names what the set-up does not have. `--help` says it of each command. For 3 and 4 the first line of standard error says what went
//! wrong, and more lines may follow it.
#![tactic(auto)]

use program::run;
use std::process::ExitCode;

fn main(rt: HostRuntime) -> ExitCode {
    ExitCode::from(run(&rt))
}
