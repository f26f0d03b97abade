//! What is said about several files: a text with a line for each.
ghost use Rattle.std.specs.Prelude.{◌≡◌, ◌++◌, false, map, option_map, IfOk, OnOk, List, ℕ, Option};
ghost use Rattle.command_files.specs.Files.{Each, IsInput, IsToldOf, lines_of, tally_of, told_text};
ghost use Rattle.command_files.specs.Private as spec;

use crate::inputs::{Inputs, Listener};
use crate::reading::make_file;
use crate::tally::Tally;
use command_check::CountedText;
use command_core::{RunFault, Sink, Verdict, write_all};
use std::alloc::{AllocError, Global};

/// What is made of a file that was read.
#[derive(Drop)]
pub struct FileAnswer {
    /// What is said about it, with the count of its expectations.
    pub told: CountedText,
    /// Whether all is as it is to be, something is not, or the set-up is refused.
    pub verdict: Verdict,
}

/// What is said about a file, if it could be read.
pub(crate) fn told_in(found: &Option<FileAnswer>) -> Option<&CountedText>
    ensures { option_map (λ m. m.now) result ≡ spec.told_in found.now }
{
    match found {
        Some(answer) => Some(&answer.told),
        None => None,
    }
}

/// The verdict on a file, if it could be read.
fn verdict_found(found: &Option<FileAnswer>) -> Option<Verdict>
    ensures { result ≡ spec.verdict_found found.now }
{
    match found {
        Some(answer) => Some(answer.verdict),
        None => None,
    }
}

/// What is said about several files.
pub trait Telling {
    ghost use Rattle.std.specs.Prelude.{◌≡◌, ◌++◌, ℕ, List, Option, option_map, IfOk, OnOk};
    ghost use Rattle.setup_format.specs.Setups.{setup_of_bytes};
    ghost use Rattle.command_check.specs.declared.run.CountedText.{CountedText};
    ghost use Rattle.command_core.specs.declared.answer.Notes.{Notes};
    ghost use Rattle.command_core.specs.declared.fault.Verdict.{Verdict};
    ghost use Rattle.command_files.specs.declared.tally.Tally.{Tally};
    ghost use Rattle.command_files.specs.Files.{HasCountOf, IsFoundFile};

    /// The verdict on a file with these bytes.
    ghost verdict: { Self → List ℕ → Verdict };

    /// It is what is made of these bytes.
    ghost is_made: { Self → List ℕ → CountedText → Type 0 };

    /// Standard error says this of a file with these bytes.
    ghost tells: { Self → List ℕ → Notes → Type 0 } = { λ _ _ _. Unit {0} };

    /// What stands before the lines.
    ghost head: { Self → List ℕ };

    /// The line of the file of that name, with these contents.
    ghost line: { Self → List ℕ → Option (List ℕ) → List ℕ };

    /// What stands after the lines of so many files, with that tally.
    ghost last: { Self → ℕ → Tally → List ℕ };

    /// What is made of the bytes of a file, with the count of its expectations, and the verdict.
    fn make(&self, alloc: Global, bytes: &[u8]) -> Result<FileAnswer, AllocError>
        ensures made { IfOk result (λ answer. is_made self.now bytes.now answer.told) }
        ensures count { IfOk result (λ answer. HasCountOf (setup_of_bytes bytes.now) answer.told.count) }
        ensures verdict { IfOk result (λ answer. answer.verdict ≡ verdict self.now bytes.now) }
        ensures tells { IfOk result (λ answer. tells self.now bytes.now answer.told.notes) };

    /// Adds what stands before the lines.
    fn add_head(&self, out: &mut Vec<u8>) -> Result<(), AllocError>
        ensures { OnOk result (out.new.items ≡ out.old.items ++ head self.now) };

    /// Adds the line of the file of that name, by what was made of it; if nothing was, it could not be read.
    fn add_line(
        &self,
        alloc: Global,
        out: &mut Vec<u8>,
        name: &str,
        found: Option<&CountedText>,
    ) -> Result<(), AllocError>
        ensures { OnOk result ((contents : Option (List ℕ)) → IsFoundFile (is_made self.now) contents (option_map (λ m. m.now) found.entry)
            → out.new.items ≡ out.old.items ++ line self.now name.now contents) };

    /// Adds what stands after the lines.
    fn add_last(
        &self,
        alloc: Global,
        out: &mut Vec<u8>,
        files: usize,
        tally: Tally,
    ) -> Result<(), AllocError>
        ensures { OnOk result (out.new.items ≡ out.old.items ++ last self.now files tally) };
}

/// The head and a line for each of the files, and their tally.
fn tell_each<I: Inputs, L: Listener<I::Standard, I::File, I::Fault>, T: Telling>(
    alloc: Global,
    inputs: &I,
    listener: &L,
    telling: &T,
    names: &[&str],
) -> Result<(Vec<u8>, Tally), AllocError>
    ensures { IfOk result (λ made. (files : List (Option (List ℕ)))
        × Each (IsInput (I.is_standard inputs.now) (I.is_file inputs.now) (I.is_fault inputs.now) I.Standard.Source I.File.Source) (map (λ s. s.now) names.now) files
        × (made.0.items ≡ T.head telling.now ++ lines_of (T.line telling.now) (map (λ s. s.now) names.now) files)
        × (made.1 ≡ tally_of (T.verdict telling.now) files)) }
{
    let mut out = Vec::new(alloc);
    telling.add_head(&mut out)?;
    let mut tally = Tally::new();
    for name in names {
        let found = make_file(alloc, inputs, listener, telling, *name)?;
        telling.add_line(alloc, &mut out, *name, told_in(&found))?;
        tally.count(verdict_found(&found));
    }
    Ok((out, tally))
}

/// What is written of the files, and their tally.
fn tell_all<I: Inputs, L: Listener<I::Standard, I::File, I::Fault>, T: Telling>(
    alloc: Global,
    inputs: &I,
    listener: &L,
    telling: &T,
    names: &[&str],
) -> Result<(Vec<u8>, Tally), AllocError>
    ensures { IfOk result (λ made. (files : List (Option (List ℕ)))
        × Each (IsInput (I.is_standard inputs.now) (I.is_file inputs.now) (I.is_fault inputs.now) I.Standard.Source I.File.Source) (map (λ s. s.now) names.now) files
        × (made.0.items ≡ told_text (T.verdict telling.now) (T.head telling.now) (T.line telling.now) (T.last telling.now) (map (λ s. s.now) names.now) files)
        × (made.1 ≡ tally_of (T.verdict telling.now) files)) }
{
    let (lines, tally) = tell_each(alloc, inputs, listener, telling, names)?;
    let mut out = lines;
    telling.add_last(alloc, &mut out, names.len(), tally)?;
    Ok((out, tally))
}

/// Makes what is said about each of the files, of which `-` is standard input, and writes a text with a line for each to the sink.
/// A file that cannot be read has its line too, and the others are still read. The listener hears of each file in turn; the
/// text is written at the end.
///
/// # Errors
/// `Writing` if a write failed or took no byte; a front of the text was written then. `Memory`; nothing is written
/// then, and the files after it are not read.
pub fn tell_files<I: Inputs, L: Listener<I::Standard, I::File, I::Fault>, T: Telling, K: Sink>(
    alloc: Global,
    inputs: &I,
    listener: &L,
    telling: &T,
    names: &[&str],
    sink: &mut K,
) -> Result<Tally, RunFault>
    requires sink { K.failed sink.old ≡ false }
    ensures { IsToldOf (T.verdict telling.now) (told_text (T.verdict telling.now) (T.head telling.now) (T.line telling.now) (T.last telling.now))
        (IsInput (I.is_standard inputs.now) (I.is_file inputs.now) (I.is_fault inputs.now) I.Standard.Source I.File.Source)
        K.Sink (map (λ s. s.now) names.now) sink.old sink.new result }
{
    match tell_all(alloc, inputs, listener, telling, names) {
        Ok((text, tally)) => {
            write_all(sink, text.as_slice())?;
            Ok(tally)
        }
        Err(_) => Err(RunFault::Memory),
    }
}
