//! What is told of a call, and the calls with a mark.
ghost use Rattle.std.specs.Prelude.{◌≡◌, IfOk, option_copied};
ghost use Rattle.setup_report.specs.Text.{reply_text};
ghost use Rattle.command_marks.specs.Marks as spec;

use kernel_core::{Call, Reply};
use setup_format::asks;
use setup_report::{Naming, add_call};
use std::alloc::{AllocError, Global};

/// What is told of a call: whether its reply is as expected, and nothing else of it.
#[derive(Clone, Copy, PartialEq, Eq, Debug)]
pub enum Mark {
    /// Nothing is expected.
    Nothing,
    /// The reply is as expected: the report says `[met]`.
    Right,
    /// The reply is as expected, and the expectation says less of it than is asked for.
    Short,
    /// The expectation asks: it begins with `?`.
    Open,
    /// The reply is another.
    Wrong,
}

/// The mark of a call that expects something.
fn mark_by(is_met: bool, asks: bool) -> Mark
    ensures { result ≡ spec.mark_by is_met asks }
{
    if is_met {
        Mark::Right
    } else if asks {
        Mark::Open
    } else {
        Mark::Wrong
    }
}

/// The mark of a call, by what the report counts of its expectation.
#[tactic(auto, using(crate::proofs::Marked::met_is))]
pub(crate) fn mark_of(
    alloc: Global,
    number: usize,
    call: &Call,
    expected: Option<&str>,
    reply: Reply,
) -> Result<Mark, AllocError>
    ensures { IfOk result (λ mark. mark ≡ spec.mark_of (option_copied expected.entry) (reply_text reply)) }
{
    let Some(text) = expected else {
        return Ok(Mark::Nothing);
    };
    let mut line = String::new(alloc);
    let count = add_call(
        alloc,
        &mut line,
        &Naming::plain(),
        number,
        call,
        expected,
        reply,
    )?;
    Ok(mark_by(count.met == 1, asks(text)))
}

/// Whether a mark is the other.
pub(crate) fn is_mark(mark: Mark, other: Mark) -> bool
    ensures { result ≡ spec.is_mark mark other }
{
    mark == other
}

/// The numbers, from 1 on, of the calls with that mark.
pub(crate) fn numbers_of(
    alloc: Global,
    marks: &[Mark],
    wanted: Mark,
) -> Result<Vec<u64>, AllocError>
    ensures { IfOk result (λ numbers. numbers.items ≡ spec.numbers_of wanted 1 marks.now) }
{
    let mut numbers = Vec::new(alloc);
    for (i, mark) in marks.iter().enumerate() {
        if is_mark(*mark, wanted) {
            numbers.push(i as u64 + 1)?;
        }
    }
    Ok(numbers)
}
