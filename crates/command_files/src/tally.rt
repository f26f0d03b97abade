//! How many of several files are met, and the exit status of their check.
ghost use Rattle.std.specs.Prelude.{◌≡◌, ◌+◌, ◌<◌, ◌^◌, ℕ, Bool, List, [], Option, map};
ghost use Rattle.command_core.specs.declared.fault.Verdict.{Verdict as VerdictOf};
ghost use Rattle.command_files.specs.Files.{IsNeverAbsent, files_status, greatest, status_alone, tally_of, tally_status};
ghost use Rattle.command_files.specs.Private.{found_status, tally_size, with_status};
ghost use Rattle.command_files.specs.Strict.{check_verdict};

use command_core::{RunFault, Verdict};

/// How many of several files are met, unmet, refused and unread.
#[derive(Clone, Copy)]
pub struct Tally {
    /// Files that were run, of which each expectation is met; also those that have none. If the check is strict, no call of theirs
    /// is refused that has no expectation. Of answers to an exercise: files in which all that is asked is right.
    pub met: usize,
    /// All other files that were run.
    pub unmet: usize,
    /// Files whose set-up is refused.
    pub refused: usize,
    /// Files that could not be read.
    pub unread: usize,
}

impl Tally {
    /// The tally of no files.
    pub(crate) fn new() -> Tally
        ensures { (verdict : List ℕ → VerdictOf) → result ≡ tally_of verdict [] }
    {
        Tally {
            met: 0,
            unmet: 0,
            refused: 0,
            unread: 0,
        }
    }

    /// Counts a file with that verdict; without one, a file that could not be read.
    pub(crate) fn count(&mut self, found: Option<Verdict>)
        requires room { tally_size self.old + 1 < 2 ^ 64 }
        ensures { self.new ≡ with_status (found_status found) self.old }
    {
        match found {
            None => self.unread += 1,
            Some(Verdict::AllMet) => self.met += 1,
            Some(Verdict::NotMet) => self.unmet += 1,
            Some(Verdict::Refused) => self.refused += 1,
            Some(Verdict::Absent) => {}
        }
    }

    /// The exit status: 3 if a file could not be read, else 2 if a set-up is refused, else 1 if a file is unmet, else 0.
    pub fn status(&self) -> u8
        ensures { result ≡ tally_status self.now }
    {
        if self.unread > 0 {
            3
        } else if self.refused > 0 {
            2
        } else if self.unmet > 0 {
            1
        } else {
            0
        }
    }
}

/// The exit status of a run over several files: that of the tally, 3 after a fault.
pub fn status_of_files(answer: &Result<Tally, RunFault>) -> u8
    ensures { result ≡ files_status answer.now }
{
    match answer {
        Ok(tally) => tally.status(),
        Err(_) => 3,
    }
}

/// A law: the exit status of a tally is the greatest of those of each of the files alone, of any verdict that is never `Absent`; that of
/// `check`, strict or not, is such a verdict.
pub fn status_is_the_greatest()
    ensures status { (verdict : List ℕ → VerdictOf) (files : List (Option (List ℕ))) → IsNeverAbsent verdict
        → tally_status (tally_of verdict files) ≡ greatest (map (status_alone verdict) files) }
    ensures check { (strict : Bool) → IsNeverAbsent (check_verdict strict) }
{}
