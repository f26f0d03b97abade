//! The marks of answers that were handed in, as a table: a row for each file.
ghost use Rattle.std.specs.Prelude.{◌≡◌, ◌++◌, [], codes, false, map, option_map, IfOk, Some, length};
ghost use Rattle.kernel_abstract.specs.Plan.{IsPlan};
ghost use Rattle.setup_format.specs.Laws.{setup_in};
ghost use Rattle.setup_format.specs.Read.{read_view};
ghost use Rattle.setup_format.specs.Setups.{read_of_bytes};
ghost use Rattle.command_check.specs.Program.{HasCounts, replies_to};
ghost use Rattle.command_files.specs.Files.{HasCountOf, IsInput};
ghost use Rattle.command_marks.specs.Answers as spec;
ghost use Rattle.command_marks.specs.Differences as differences;

use crate::against::{is_same, marks_by};
use crate::differences::differs_text;
use crate::field::add_field;
use crate::mark::{Mark, is_mark, numbers_of};
use crate::table::ListText;
use cap_core::{Narrow, Profile, ProfileName, Wide};
use command_check::{CountedText, run_calls};
use command_core::{Notes, RunFault, Sink, Verdict};
use command_files::{FileAnswer, Inputs, Listener, Tally, Telling, tell_files};
use ipc_core::{LinkedWaiters, MakeWaiters};
use kernel_core::Reply;
use setup_format::{ReadSetup, SetupFault, read};
use setup_report::expectations;
use slot_core::{LinkedStore, MakeStore};
use std::alloc::{AllocError, Global};
use std::fmt::Write;

/// The first row, which names the columns.
const HEAD: &[u8] = b"file,right,of,wrong,too short,open,note\n";

/// What stands behind the name of a file of which nothing is marked, and why.
const EXERCISE_REFUSED: &[u8] = b",,,,,exercise refused";

const DIFFERS: &[u8] = b",,,,,";

const REFUSED: &[u8] = b",,,,,refused";

const UNREAD: &[u8] = b",,,,,cannot be read";

/// How many calls are right.
fn right_count(marks: &[Mark]) -> usize
    ensures { result ≡ spec.right_count marks.now }
{
    let mut count = 0;
    for mark in marks {
        if is_mark(*mark, Mark::Right) {
            count += 1;
        }
    }
    count
}

/// Of how many calls something is asked.
fn asked_count(marks: &[Mark]) -> usize
    ensures { result ≡ spec.asked_count marks.now }
{
    let mut count = 0;
    for mark in marks {
        if !is_mark(*mark, Mark::Nothing) {
            count += 1;
        }
    }
    count
}

/// What stands behind the name of a file whose answers were marked.
fn cells(alloc: Global, marks: &[Mark]) -> Result<Vec<u8>, AllocError>
    ensures { IfOk result (λ text. text.items ≡ spec.answer_cells_of marks.now) }
{
    let right = right_count(marks);
    let asked = asked_count(marks);
    let wrong = numbers_of(alloc, marks, Mark::Wrong)?;
    let short = numbers_of(alloc, marks, Mark::Short)?;
    let open = numbers_of(alloc, marks, Mark::Open)?;
    let wrong = ListText(wrong.as_slice());
    let short = ListText(short.as_slice());
    let open = ListText(open.as_slice());
    let mut out = String::new(alloc);
    write!(out, "{right},{asked},{wrong},{short},{open},")?;
    Ok(out.into_bytes())
}

/// The verdict on the marks of a file's answers.
fn marks_verdict(marks: &[Mark]) -> Verdict
    ensures { result ≡ spec.marks_verdict marks.now }
{
    if right_count(marks) == asked_count(marks) {
        Verdict::AllMet
    } else {
        Verdict::NotMet
    }
}

/// What stands behind the name of a file whose set-up is another one.
fn differing_cells(
    alloc: Global,
    exercise: &ReadSetup,
    read: &ReadSetup,
) -> Result<Vec<u8>, AllocError>
    ensures { IfOk result (λ text. text.items ≡ codes ",,,,," ++ differences.differs_text (read_view exercise.now) (read_view read.now)) }
{
    let mut cells = Vec::from_slice(alloc, DIFFERS)?;
    cells.extend_from_slice(differs_text(alloc, exercise, read)?.as_slice())?;
    Ok(cells)
}

/// What stands behind the name of a file whose set-up was run, given the replies to its calls, and the verdict.
#[tactic(auto, using(crate::proofs::Same::same_lengths))]
fn cells_by(
    alloc: Global,
    exercise: Option<&ReadSetup>,
    read: &ReadSetup,
    replies: &[Reply],
) -> Result<(Vec<u8>, Verdict), AllocError>
    requires { length replies.now ≡ length read.now.setup.calls }
    ensures cells { IfOk result (λ made. made.0.items ≡ spec.cells_by (option_map (λ s. read_view s.now) exercise.entry) (read_view read.now) replies.now) }
    ensures verdict { IfOk result (λ made. made.1 ≡ spec.verdict_by (option_map (λ s. read_view s.now) exercise.entry) (read_view read.now) replies.now) }
{
    let Some(exercise) = exercise else {
        let cells = Vec::from_slice(alloc, EXERCISE_REFUSED)?;
        return Ok((cells, Verdict::Refused));
    };
    if !is_same(&exercise.setup, &read.setup) {
        let cells = differing_cells(alloc, exercise, read)?;
        return Ok((cells, Verdict::NotMet));
    }
    let marks = marks_by(alloc, &exercise.setup, &read.setup, replies)?;
    let cells = cells(alloc, marks.as_slice())?;
    Ok((cells, marks_verdict(marks.as_slice())))
}

/// Runs the set-up in a profile: what stands behind the name of its file, how many of its expectations are met, and the verdict.
#[tactic(auto, using(crate::proofs::Sequences::replies_length))]
fn run_setup<P: Profile, S: MakeStore<P>, W: MakeWaiters<P>>(
    alloc: Global,
    exercise: Option<&ReadSetup>,
    read: &ReadSetup,
) -> Result<FileAnswer, AllocError>
    requires { IsPlan P.profile read.now.setup.plan }
    ensures text { IfOk result (λ made. made.told.text.items ≡ spec.answer_cells_in P.profile (option_map (λ s. read_view s.now) exercise.entry) (read_view read.now)) }
    ensures count { IfOk result (λ made. HasCounts P.profile read.now.setup made.told.count) }
    ensures verdict { IfOk result (λ made. made.verdict ≡ spec.verdict_by (option_map (λ s. read_view s.now) exercise.entry) (read_view read.now) (replies_to P.profile read.now.setup)) }
{
    let (_, replies) = run_calls::<P, S, W>(alloc, &read.setup)?;
    let count = expectations(alloc, &read.setup, replies.as_slice())?;
    let (text, verdict) = cells_by(alloc, exercise, read, replies.as_slice())?;
    let told = CountedText {
        text,
        count: Some(count),
        notes: Notes::none(alloc),
    };
    Ok(FileAnswer { told, verdict })
}

/// What stands behind the name of a file with these bytes, how many of its expectations are met, and the verdict.
fn run_bytes(
    alloc: Global,
    exercise: Option<&ReadSetup>,
    bytes: &[u8],
) -> Result<FileAnswer, AllocError>
    ensures text { IfOk result (λ made. made.told.text.items ≡ spec.answer_cells_for (option_map (λ s. read_view s.now) exercise.entry) (read_of_bytes bytes.now)) }
    ensures count { IfOk result (λ made. HasCountOf (setup_in (read_of_bytes bytes.now)) made.told.count) }
    ensures verdict { IfOk result (λ made. made.verdict ≡ spec.verdict_for (option_map (λ s. read_view s.now) exercise.entry) (read_of_bytes bytes.now)) }
{
    match read(alloc, bytes) {
        Ok(read) => match read.setup.profile() {
            ProfileName::Wide => {
                run_setup::<Wide, LinkedStore<Wide>, LinkedWaiters<Wide>>(alloc, exercise, &read)
            }
            ProfileName::Narrow => {
                run_setup::<Narrow, LinkedStore<Narrow>, LinkedWaiters<Narrow>>(
                    alloc, exercise, &read,
                )
            }
        },
        Err(SetupFault::Memory) => Err(AllocError),
        Err(_) => Ok(FileAnswer {
            told: CountedText {
                text: Vec::from_slice(alloc, REFUSED)?,
                count: None,
                notes: Notes::none(alloc),
            },
            verdict: Verdict::Refused,
        }),
    }
}

/// A row for each file, by the questions of an exercise; of one that is refused there is no set-up.
#[derive(Clone, Copy)]
struct Answers<'a> {
    exercise: Option<&'a ReadSetup>,
}

impl Telling for Answers<'_> {
    ghost verdict = { λ table bytes. spec.verdict_for (option_map (λ s. read_view s.now) table.exercise) (read_of_bytes bytes) };

    ghost is_made = { λ table bytes made. made.text.items ≡ spec.answer_cells_for (option_map (λ s. read_view s.now) table.exercise) (read_of_bytes bytes) };

    ghost head = { λ table. spec.answer_head };

    ghost line = { λ table. spec.answer_row (option_map (λ s. read_view s.now) table.exercise) };

    ghost last = { λ table files tally. [] };

    #[tactic(auto, using(crate::proofs::Counted::counted))]
    fn make(&self, alloc: Global, bytes: &[u8]) -> Result<FileAnswer, AllocError> {
        run_bytes(alloc, self.exercise, bytes)
    }

    fn add_head(&self, out: &mut Vec<u8>) -> Result<(), AllocError> {
        out.extend_from_slice(HEAD)
    }

    fn add_line(
        &self,
        _alloc: Global,
        out: &mut Vec<u8>,
        name: &str,
        found: Option<&CountedText>,
    ) -> Result<(), AllocError> {
        add_field(out, name)?;
        out.extend_from_slice(b",")?;
        match found {
            None => out.extend_from_slice(UNREAD)?,
            Some(made) => out.extend_from_slice(made.text.as_slice())?,
        }
        out.extend_from_slice(b"\n")
    }

    fn add_last(
        &self,
        _alloc: Global,
        _out: &mut Vec<u8>,
        _files: usize,
        _tally: Tally,
    ) -> Result<(), AllocError> {
        Ok(())
    }
}

/// The set-up of an exercise, where it is not refused.
fn exercise_in(alloc: Global, bytes: &[u8]) -> Result<Option<ReadSetup>, AllocError>
    ensures { IfOk result (λ found. option_map read_view found ≡ spec.exercise_in (read_of_bytes bytes.now)) }
{
    match read(alloc, bytes) {
        Ok(read) => Ok(Some(read)),
        Err(SetupFault::Memory) => Err(AllocError),
        Err(_) => Ok(None),
    }
}

/// Runs the set-up in each of the files, as `mark_files` does, and writes a table to the sink in which they are marked by the
/// questions of the exercise whose set-up these bytes are, or by its key: how many answers are right, of how many, and the
/// numbers of the calls whose answers are wrong, say less than is asked for, or are not given. Nothing is marked of a set-up that
/// is another one in more than what its calls expect; its row says where it differs first. Nothing is marked either where the
/// exercise is refused.
///
/// A file counts as met if it is the exercise's set-up and all that is asked is right, and as refused if its set-up or the exercise is
/// refused; any other file that was read counts as unmet. What the file itself expects does not count.
///
/// # Errors
/// As of `mark_files`.
pub fn mark_answers<I: Inputs, L: Listener<I::Standard, I::File, I::Fault>, K: Sink>(
    alloc: Global,
    inputs: &I,
    listener: &L,
    exercise: &[u8],
    names: &[&str],
    sink: &mut K,
) -> Result<Tally, RunFault>
    requires sink { K.failed sink.old ≡ false }
    ensures { spec.AreMarkedBy exercise.now (IsInput (I.is_standard inputs.now) (I.is_file inputs.now) (I.is_fault inputs.now) I.Standard.Source I.File.Source)
        K.Sink (map (λ s. s.now) names.now) sink.old sink.new result }
{
    match exercise_in(alloc, exercise) {
        Ok(found) => {
            let table = Answers {
                exercise: found.as_ref(),
            };
            tell_files(alloc, inputs, listener, &table, names, sink)
        }
        Err(_) => Err(RunFault::Memory),
    }
}
