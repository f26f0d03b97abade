//! The marks of several files, as a table: a row for each.
ghost use Rattle.std.specs.Prelude.{◌≡◌, [], false, map, IfOk, Some};
ghost use Rattle.kernel_abstract.specs.Plan.{IsPlan};
ghost use Rattle.setup_format.specs.Setups.{setup_of_bytes};
ghost use Rattle.command_check.specs.Program.{HasCounts};
ghost use Rattle.command_files.specs.Files.{HasCountOf, IsInput};
ghost use Rattle.command_files.specs.Strict.{check_verdict};
ghost use Rattle.command_marks.specs.Table as spec;

use crate::field::add_field;
use crate::mark::{Mark, numbers_of};
use crate::marking::{Marked, mark_setup};
use cap_core::{Narrow, Profile, ProfileName, Wide};
use command_check::CountedText;
use command_core::{Notes, RunFault, Sink};
use command_files::{FileAnswer, Inputs, Listener, Tally, Telling, tell_files};
use ipc_core::{LinkedWaiters, MakeWaiters};
use setup_format::{Setup, SetupFault, read_setup};
use setup_report::NumbersText;
use slot_core::{LinkedStore, MakeStore};
use std::alloc::{AllocError, Global};
use std::fmt::{self, Write};

/// The first row, which names the columns.
const HEAD: &[u8] = b"file,right,of,wrong,open,note\n";

/// What stands behind the name of a file whose set-up is refused, and of one that cannot be read.
const REFUSED: &[u8] = b",,,,refused";

const UNREAD: &[u8] = b",,,,cannot be read";

/// Numbers, with a space between them.
#[derive(Clone, Copy)]
pub(crate) struct ListText<'a>(pub(crate) &'a [u64]);

impl fmt::Display for ListText<'_> {
    ghost output = { λ l. Some (spec.list_text l.0.now) };

    fn fmt<W: fmt::Write>(&self, f: &mut fmt::Formatter<W>) -> fmt::Result {
        match self.0 {
            [] => Ok(()),
            [first, rest @ ..] => {
                let rest = NumbersText(rest);
                write!(f, "{first}{rest}")
            }
        }
    }
}

/// What stands behind the name of a file whose set-up was run: how many calls are right, of how many, and the numbers of those that
/// are wrong and of those that are open.
fn cells(alloc: Global, made: &Marked) -> Result<Vec<u8>, AllocError>
    ensures { IfOk result (λ text. text.items ≡ spec.cells_of made.now.count.met made.now.count.expected made.now.marks.items) }
{
    let wrong = numbers_of(alloc, made.marks.as_slice(), Mark::Wrong)?;
    let asked = numbers_of(alloc, made.marks.as_slice(), Mark::Open)?;
    let right = made.count.met;
    let expected = made.count.expected;
    let wrong = ListText(wrong.as_slice());
    let asked = ListText(asked.as_slice());
    let mut out = String::new(alloc);
    write!(out, "{right},{expected},{wrong},{asked},")?;
    Ok(out.into_bytes())
}

/// Runs the set-up in a profile: its cells, and how many of its expectations are met.
fn run_setup<P: Profile, S: MakeStore<P>, W: MakeWaiters<P>>(
    alloc: Global,
    setup: &Setup,
) -> Result<CountedText, AllocError>
    requires { IsPlan P.profile setup.now.plan }
    ensures text { IfOk result (λ made. made.text.items ≡ spec.cells_in P.profile setup.now) }
    ensures count { IfOk result (λ made. HasCounts P.profile setup.now made.count) }
{
    let made = mark_setup::<P, S, W>(alloc, setup)?;
    Ok(CountedText {
        text: cells(alloc, &made)?,
        count: Some(made.count),
        notes: Notes::none(alloc),
    })
}

/// The cells of a file with these bytes, and how many of its expectations are met.
fn run_bytes(alloc: Global, bytes: &[u8]) -> Result<CountedText, AllocError>
    ensures text { IfOk result (λ made. made.text.items ≡ spec.cells_for (setup_of_bytes bytes.now)) }
    ensures count { IfOk result (λ made. HasCountOf (setup_of_bytes bytes.now) made.count) }
{
    match read_setup(alloc, bytes) {
        Ok(setup) => match setup.profile() {
            ProfileName::Wide => {
                run_setup::<Wide, LinkedStore<Wide>, LinkedWaiters<Wide>>(alloc, &setup)
            }
            ProfileName::Narrow => {
                run_setup::<Narrow, LinkedStore<Narrow>, LinkedWaiters<Narrow>>(alloc, &setup)
            }
        },
        Err(SetupFault::Memory) => Err(AllocError),
        Err(_) => Ok(CountedText {
            text: Vec::from_slice(alloc, REFUSED)?,
            count: None,
            notes: Notes::none(alloc),
        }),
    }
}

/// A row for each file.
#[derive(Clone, Copy)]
struct Table;

impl Telling for Table {
    ghost verdict = { λ table. check_verdict false };

    ghost is_made = { λ table bytes made. made.text.items ≡ spec.cells_for (setup_of_bytes bytes) };

    ghost head = { λ table. spec.head };

    ghost line = { λ table. spec.row };

    ghost last = { λ table files tally. [] };

    #[tactic(auto, using(crate::proofs::Counted::judged))]
    fn make(&self, alloc: Global, bytes: &[u8]) -> Result<FileAnswer, AllocError> {
        let told = run_bytes(alloc, bytes)?;
        let verdict = told.verdict();
        Ok(FileAnswer { told, verdict })
    }

    fn add_head(&self, out: &mut Vec<u8>) -> Result<(), AllocError> {
        out.extend_from_slice(HEAD)
    }

    fn add_line(
        &self,
        _alloc: Global,
        out: &mut Vec<u8>,
        name: &str,
        found: Option<&CountedText>,
    ) -> Result<(), AllocError> {
        add_field(out, name)?;
        out.extend_from_slice(b",")?;
        match found {
            None => out.extend_from_slice(UNREAD)?,
            Some(made) => out.extend_from_slice(made.text.as_slice())?,
        }
        out.extend_from_slice(b"\n")
    }

    fn add_last(
        &self,
        _alloc: Global,
        _out: &mut Vec<u8>,
        _files: usize,
        _tally: Tally,
    ) -> Result<(), AllocError> {
        Ok(())
    }
}

/// Runs the set-up in each of the files, of which `-` is standard input, and writes a table to the sink with a row for each: its
/// name, how many of its expectations are met, of how many, and the numbers of the calls that are wrong and of those that are
/// open. A file that cannot be read has its row too, and the others are still run. The listener hears of each file in turn; the
/// table is written at the end. The lines are those of CSV (RFC 4180, but that they end with a line feed alone).
///
/// # Errors
/// `Writing` where a write failed or took no byte; a front of the text was written then. `Memory`; nothing is written
/// then, and the files behind are not run.
pub fn mark_files<I: Inputs, L: Listener<I::Standard, I::File, I::Fault>, K: Sink>(
    alloc: Global,
    inputs: &I,
    listener: &L,
    names: &[&str],
    sink: &mut K,
) -> Result<Tally, RunFault>
    requires sink { K.failed sink.old ≡ false }
    ensures { spec.IsMarksOf (IsInput (I.is_standard inputs.now) (I.is_file inputs.now) (I.is_fault inputs.now) I.Standard.Source I.File.Source)
        K.Sink (map (λ s. s.now) names.now) sink.old sink.new result }
{
    tell_files(alloc, inputs, listener, &Table, names, sink)
}
