//! How a run of the program ends.
ghost use Rattle.std.specs.Prelude.{◌≡◌};
ghost use Rattle.command_core.specs.Runs.{verdict_of};
ghost use Rattle.command_core.specs.Statuses.{run_status};

use crate::answer::Found;
use thiserror::Error;

/// What a run found.
#[derive(Clone, Copy, Drop)]
pub enum Verdict {
    /// The set-up was run, and each expectation is met.
    AllMet,
    /// The set-up was run, and an expectation is not met.
    NotMet,
    /// The set-up is refused, and nothing was run.
    Refused,
    /// The command line names a call, a slot or an order that the set-up does not have.
    Absent,
}

impl Verdict {
    ghost use Rattle.command_core.specs.Statuses.{verdict_status};

    /// The program's exit status: 0 if all expectations are met, 1 if one is not, 2 if the set-up is refused, 4 if it
    /// does not have what the command line names.
    pub fn status(self) -> u8
        ensures { result ≡ verdict_status self }
    {
        match self {
            Verdict::AllMet => 0,
            Verdict::NotMet => 1,
            Verdict::Refused => 2,
            Verdict::Absent => 4,
        }
    }
}

/// Why a run came to no verdict. It is shown as its `text`.
#[derive(Clone, Copy, Debug, Drop, Error)]
#[error("{}", self.text())]
pub enum RunFault {
    /// A read failed, or the input has too many bytes.
    Reading,
    /// A write failed, or took no byte.
    Writing,
    /// Memory ran out.
    Memory,
    /// A thread could not be started, or a client that shares a kernel came to no end of its calls.
    Thread,
}

impl RunFault {
    ghost use Rattle.command_core.specs.Statuses.{run_fault_text};

    /// What the program says of the fault.
    pub fn text(self) -> &'static str
        ensures { result.now ≡ run_fault_text self }
    {
        match self {
            RunFault::Reading => "reading failed",
            RunFault::Writing => "writing failed",
            RunFault::Memory => "out of memory",
            RunFault::Thread => "thread not started",
        }
    }
}

/// The program's exit status: that of the verdict, 3 after a fault.
pub fn status_of(answer: &Result<Verdict, RunFault>) -> u8
    ensures { result ≡ run_status answer.now }
{
    match answer {
        Ok(verdict) => verdict.status(),
        Err(_) => 3,
    }
}

/// The program's exit status by what a run found: that of its verdict, 3 after a fault.
pub fn status_of_found(answer: &Result<Found, RunFault>) -> u8
    ensures { result ≡ run_status (verdict_of answer.now) }
{
    match answer {
        Ok(found) => found.verdict.status(),
        Err(_) => 3,
    }
}
