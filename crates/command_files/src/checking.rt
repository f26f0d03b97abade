//! The check of several files.
ghost use Rattle.std.specs.Prelude.{◌≡◌, [], false, map};
ghost use Rattle.setup_format.specs.Setups.{setup_of_bytes};
ghost use Rattle.command_check.specs.Notes.{unexpected_in};
ghost use Rattle.command_check.specs.Program.{IsTextOfSetup};
ghost use Rattle.command_files.specs.Files.{IsCheckOf, IsInput, file_line, tally_line};
ghost use Rattle.command_files.specs.Strict.{check_verdict};

use crate::inputs::{Inputs, Listener};
use crate::lines::{add_line, summary};
use crate::strict::strict_verdict;
use crate::tally::Tally;
use crate::telling::{FileAnswer, Telling, tell_files};
use command_check::{CountedText, checked_text};
use command_core::{RunFault, Sink};
use std::alloc::{AllocError, Global};

/// Of each file the last line of its report, and a summary.
#[derive(Clone, Copy)]
struct Summary {
    strict: bool,
}

impl Telling for Summary {
    ghost verdict = { λ summary. check_verdict summary.strict };

    ghost is_made = { λ summary bytes made. IsTextOfSetup (setup_of_bytes bytes) made };

    ghost tells = { λ summary bytes notes. notes.refused.items ≡ unexpected_in (setup_of_bytes bytes) };

    ghost head = { λ summary. [] };

    ghost line = { λ summary. file_line };

    ghost last = { λ summary. tally_line };

    #[tactic(auto, using(crate::proofs::Tallies::judged))]
    fn make(&self, alloc: Global, bytes: &[u8]) -> Result<FileAnswer, AllocError> {
        let told = checked_text(alloc, bytes)?;
        let verdict = strict_verdict(self.strict, told.notes.refused.as_slice(), told.verdict());
        Ok(FileAnswer { told, verdict })
    }

    fn add_head(&self, out: &mut Vec<u8>) -> Result<(), AllocError> {
        Ok(())
    }

    fn add_line(
        &self,
        alloc: Global,
        out: &mut Vec<u8>,
        name: &str,
        found: Option<&CountedText>,
    ) -> Result<(), AllocError> {
        add_line(alloc, out, name, found)
    }

    fn add_last(
        &self,
        alloc: Global,
        out: &mut Vec<u8>,
        files: usize,
        tally: Tally,
    ) -> Result<(), AllocError> {
        let last = summary(alloc, files, tally)?;
        out.extend_from_slice(last.as_bytes())
    }
}

/// Runs the set-up in each of the files, of which `-` is standard input, and writes a line for each to the sink, and a
/// summary. A file that cannot be read has its line too, and the others are still run. The listener hears of each file in
/// turn; the lines are written at the end. If `strict` is set, a file with a call that is refused, and of which nothing was
/// expected, counts as one that is not met.
///
/// # Errors
/// `Writing` if a write failed or took no byte; a front of the text was written then. `Memory`; nothing is written
/// then, and the files after it are not run.
pub fn check_files<I: Inputs, L: Listener<I::Standard, I::File, I::Fault>, K: Sink>(
    alloc: Global,
    inputs: &I,
    listener: &L,
    strict: bool,
    names: &[&str],
    sink: &mut K,
) -> Result<Tally, RunFault>
    requires sink { K.failed sink.old ≡ false }
    ensures { IsCheckOf strict (IsInput (I.is_standard inputs.now) (I.is_file inputs.now) (I.is_fault inputs.now) I.Standard.Source I.File.Source)
        K.Sink (map (λ s. s.now) names.now) sink.old sink.new result }
{
    tell_files(alloc, inputs, listener, &Summary { strict }, names, sink)
}
