//! How the program ends: its exit status, and what it says of a fault.
ghost use Rattle.std.specs.Prelude.{◌≡◌, option_map};

use command_core::{Found, RunFault, Verdict, status_of_found};
use command_files::{Tally, Used, status_of_files};
use command_line::Line;

/// What is said of a command line that is refused.
const REFUSED: &str = "command line refused";

/// A line that was taken, and what came of it.
#[derive(Drop)]
pub struct Done<'a, S, F, E> {
    /// What was asked for.
    pub line: Line<'a>,
    /// The input, after the job.
    pub input: Used<S, F, E>,
    /// What the job found.
    pub answer: Result<Found, RunFault>,
}

/// A line whose files were checked or marked, and what came of it.
#[derive(Drop)]
pub struct CheckedFiles<'a> {
    /// What was asked for.
    pub line: Line<'a>,
    /// How many of the files are met, unmet, refused and unread, or why the run ended.
    pub answer: Result<Tally, RunFault>,
}

/// A policy, or an exercise, that could not be read.
#[derive(Drop)]
pub struct Unread<'a, S, F, E> {
    /// The name of its file.
    pub name: &'a str,
    /// The file, after the read.
    pub input: Used<S, F, E>,
    /// Why it could not be read.
    pub fault: RunFault,
}

/// A word that is no command, and no file that can be opened.
#[derive(Drop)]
pub struct Unknown<'a, E> {
    /// The word.
    pub word: &'a str,
    /// Why no file of that name could be opened.
    pub fault: E,
}

/// How the program ends.
#[derive(Drop)]
pub enum Ended<'a, S, F, E> {
    /// The line was taken, and its job done.
    Did(Done<'a, S, F, E>),
    /// The line was taken, and the files that it lists checked or marked.
    Checked(CheckedFiles<'a>),
    /// The line calls for help, whose text was written, or a front of it.
    Helped(Result<(), RunFault>),
    /// The line is none that the program takes.
    Refused,
    /// Words of the line do not go together; the text says which.
    Conflict(&'static str),
    /// The line names no command, and its first word is no file that can be opened.
    Unknown(Unknown<'a, E>),
    /// Memory ran out while the line was read.
    NoMemory,
    /// The line was taken, and the policy or the exercise that it names could not be read.
    NoPolicy(Unread<'a, S, F, E>),
}

impl<S, F, E> Ended<'_, S, F, E> {
    ghost use Rattle.program_messages.specs.Statuses.{end_status, end_text};

    /// The exit status: that of the job, or the greatest of those of several files, 0 after help, 4 after a refusal, a conflict or an unknown word, 3 where a write failed or memory ran out. The
    /// job's is 4 too where the options name what the set-up does not have.
    pub fn status(&self) -> u8
        ensures { result ≡ end_status self.now }
    {
        match self {
            Ended::Did(done) => status_of_found(&done.answer),
            Ended::Checked(checked) => status_of_files(&checked.answer),
            Ended::Helped(Ok(())) => 0,
            Ended::Helped(Err(_)) => 3,
            Ended::Refused => 4,
            Ended::Conflict(_) => 4,
            Ended::Unknown(_) => 4,
            Ended::NoMemory => 3,
            Ended::NoPolicy(_) => 3,
        }
    }

    /// What the first line of standard error says, where there is a fault. Of several files it says what ended the run; what
    /// there is to say of each file was said before.
    pub fn fault_text(&self) -> Option<&'static str>
        ensures { option_map (λ s. s.now) result ≡ end_text self.now }
    {
        match self {
            Ended::Did(
                Done {
                    answer: Ok(
                        Found {
                            verdict: Verdict::Absent,
                            ..
                        },
                    ),
                    ..
                },
            ) => Some(REFUSED),
            Ended::Did(Done { answer: Ok(_), .. }) => None,
            Ended::Did(
                Done {
                    answer: Err(fault),
                    ..
                },
            ) => Some(fault.text()),
            Ended::Checked(CheckedFiles { answer: Ok(_), .. }) => None,
            Ended::Checked(
                CheckedFiles {
                    answer: Err(fault),
                    ..
                },
            ) => Some(fault.text()),
            Ended::Helped(Ok(())) => None,
            Ended::Helped(Err(fault)) => Some(fault.text()),
            Ended::Refused => Some(REFUSED),
            Ended::Conflict(_) => Some(REFUSED),
            Ended::Unknown(_) => Some(REFUSED),
            Ended::NoMemory => Some("out of memory"),
            Ended::NoPolicy(unread) => Some(unread.fault.text()),
        }
    }
}
