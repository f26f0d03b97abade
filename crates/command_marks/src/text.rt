//! The lines of the marks.
ghost use Rattle.std.specs.Prelude.{◌≡◌, ◌++◌, IfOk, OnOk, Some, length, option_copied, string_bytes};
ghost use Rattle.command_marks.specs.Text as spec;

use crate::mark::{Mark, numbers_of};
use kernel_core::Call;
use setup_format::{Setup, op_name};
use setup_report::ExpectationCount;
use std::alloc::{AllocError, Global};
use std::fmt::{self, Write};

/// A mark, of a call that expects that text.
#[derive(Clone, Copy)]
struct MarkText<'a> {
    mark: Mark,
    expected: &'a str,
}

impl fmt::Display for MarkText<'_> {
    ghost output = { λ m. Some (spec.mark_text m.expected.now m.mark) };

    fn fmt<W: fmt::Write>(&self, f: &mut fmt::Formatter<W>) -> fmt::Result {
        let expected = self.expected;
        match self.mark {
            Mark::Nothing => Ok(()),
            Mark::Right => write!(f, "right"),
            Mark::Short => write!(f, "too short"),
            Mark::Open => write!(f, "open"),
            Mark::Wrong => write!(f, "not {expected}"),
        }
    }
}

/// Adds the line of a call, with its number from 1 on, where something is expected.
fn add_line(
    out: &mut String,
    number: usize,
    call: &Call,
    expected: Option<&str>,
    mark: Mark,
) -> Result<(), AllocError>
    ensures { OnOk result (string_bytes out.new ≡ string_bytes out.old
        ++ spec.mark_line number call.now (option_copied expected.entry) mark) }
{
    let Some(expected) = expected else {
        return Ok(());
    };
    let thread = call.thread;
    let op = op_name(&call.op).text();
    let mark = MarkText { mark, expected };
    writeln!(out, "{number} {thread} {op}: {mark}")
}

/// Adds a line for each call that expects something.
fn add_lines(out: &mut String, setup: &Setup, marks: &[Mark]) -> Result<(), AllocError>
    requires { length marks.now ≡ length setup.now.calls }
    ensures { OnOk result (string_bytes out.new ≡ string_bytes out.old ++ spec.mark_lines 1 setup.now.calls marks.now) }
{
    for (i, call) in setup.calls().iter().enumerate() {
        add_line(out, i + 1, call, setup.expect(i), marks[i])?;
    }
    Ok(())
}

/// A line for each call that expects something, and how many are right, of how many, and how many are open.
pub(crate) fn marks_text(
    alloc: Global,
    setup: &Setup,
    marks: &[Mark],
    count: ExpectationCount,
) -> Result<Vec<u8>, AllocError>
    requires { length marks.now ≡ length setup.now.calls }
    ensures { IfOk result (λ text. text.items ≡ spec.text_with setup.now.calls marks.now count.met count.expected) }
{
    let mut out = String::new(alloc);
    add_lines(&mut out, setup, marks)?;
    let asked = numbers_of(alloc, marks, Mark::Open)?.len();
    let met = count.met;
    let expected = count.expected;
    writeln!(out, "marks {met} of {expected} open {asked}")?;
    Ok(out.into_bytes())
}
