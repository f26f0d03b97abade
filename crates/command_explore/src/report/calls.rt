//! The calls of a set-up, each with what it comes to in the orders.
ghost use Rattle.std.specs.Prelude.{◌≡◌, ◌++◌, ◌<◌, IfOk, OnOk, Some, length, option_copied, slice_get, string_bytes};
ghost use Rattle.query_orders.specs.Found.{answers_of};
ghost use Rattle.setup_format.specs.Views.{CallView};
ghost use Rattle.setup_report.specs.Naming.{naming_view};
ghost use Rattle.command_explore.specs.Numbers.{numbers_in};
ghost use Rattle.command_explore.specs.Text as spec;

use crate::report::answers::{add_answers, judge};
use crate::report::marks::MarkText;
use crate::report::rows::{answer_rows, row_of};
use kernel_core::Call;
use query_orders::FoundAnswer;
use setup_format::{Setup, op_name};
use setup_report::{ExpectationCount, Naming, Object};
use std::alloc::{AllocError, Global};
use std::fmt::Write;

/// Adds the beginning of a call's line: its number, its client, its thread and its operation.
fn add_head(
    out: &mut String,
    naming: &Naming<'_>,
    number: usize,
    client: u32,
    call: &Call,
) -> Result<(), AllocError>
    ensures { OnOk result (string_bytes out.new ≡ string_bytes out.old ++ spec.call_head (naming_view naming.now) number client call.now) }
{
    let thread = naming.object(Object::Thread(call.thread));
    let op = op_name(&call.op).text();
    write!(out, "{number} client {client}: {thread} {op}")
}

/// Adds what is said of an expectation, and counts it: where all orders are explored, it is met where each answer meets it.
fn add_mark(
    alloc: Global,
    out: &mut String,
    numbers: &[Vec<usize>],
    number: usize,
    expected: Option<&str>,
    is_whole: bool,
    answers: &[FoundAnswer],
) -> Result<ExpectationCount, AllocError>
    ensures text { OnOk result (string_bytes out.new ≡ string_bytes out.old
        ++ spec.expected_in_orders (numbers_in numbers.now) number (option_copied expected.entry) is_whole (answers_of answers.now)) }
    ensures met { IfOk result (λ e. e.met ≡ spec.met_one (numbers_in numbers.now) number (option_copied expected.entry) is_whole (answers_of answers.now)) }
    ensures expected { IfOk result (λ e. e.expected ≡ spec.expected_one (option_copied expected.entry)) }
{
    let Some(expected) = expected else {
        return Ok(ExpectationCount {
            met: 0,
            expected: 0,
        });
    };
    let judged = judge(alloc, numbers, number, expected, answers)?;
    let mark = MarkText {
        is_whole,
        judged,
        expected,
    };
    write!(out, "{mark}")?;
    let is_met = is_whole && judged.met && !judged.missed;
    Ok(ExpectationCount {
        met: if is_met { 1 } else { 0 },
        expected: 1,
    })
}

/// Adds the line of the call at place `i`, 0 the first, with its number, and one for each of its answers. Answers of other calls
/// may stand between these.
fn add_call(
    alloc: Global,
    out: &mut String,
    naming: &Naming<'_>,
    setup: &Setup,
    i: usize,
    number: usize,
    numbers: &[Vec<usize>],
    is_whole: bool,
    answers: &[FoundAnswer],
) -> Result<ExpectationCount, AllocError>
    requires { i < length setup.now.calls }
    ensures lines { IfOk result (λ e. (call : CallView) → slice_get setup.now.calls i ≡ Some call → string_bytes out.new ≡ string_bytes out.old
        ++ spec.call_block (naming_view naming.now) (numbers_in numbers.now) number is_whole (answers_of answers.now) call) }
    ensures met { IfOk result (λ e. (call : CallView) → slice_get setup.now.calls i ≡ Some call
        → e.met ≡ spec.met_one (numbers_in numbers.now) number call.expect is_whole (answers_of answers.now)) }
    ensures expected { IfOk result (λ e. (call : CallView) → slice_get setup.now.calls i ≡ Some call → e.expected ≡ spec.expected_one call.expect) }
{
    let expected = setup.expect(i);
    add_head(out, naming, number, setup.client_of(i), &setup.calls()[i])?;
    let count = add_mark(alloc, out, numbers, number, expected, is_whole, answers)?;
    writeln!(out)?;
    add_answers(alloc, out, naming, numbers, number, expected, answers)?;
    Ok(count)
}

/// Adds the lines of all calls, and counts the expectations, and those that are met in every order.
pub fn add_calls(
    alloc: Global,
    out: &mut String,
    naming: &Naming<'_>,
    setup: &Setup,
    numbers: &[Vec<usize>],
    is_whole: bool,
    answers: &[FoundAnswer],
) -> Result<ExpectationCount, AllocError>
    ensures lines { OnOk result (string_bytes out.new ≡ string_bytes out.old
        ++ spec.call_blocks (naming_view naming.now) (numbers_in numbers.now) 1 is_whole (answers_of answers.now) setup.now.calls) }
    ensures met { IfOk result (λ e. e.met ≡ spec.met_in_orders (numbers_in numbers.now) 1 is_whole (answers_of answers.now) setup.now.calls) }
    ensures expected { IfOk result (λ e. e.expected ≡ spec.expectations_of_calls setup.now.calls) }
{
    let rows = answer_rows(alloc, numbers, setup.calls().len() + 1, answers)?;
    let mut met = 0;
    let mut expected = 0;
    for i in 0..setup.calls().len() {
        let row = row_of(rows.as_slice(), i + 1, answers);
        let one = add_call(alloc, out, naming, setup, i, i + 1, numbers, is_whole, row)?;
        met += one.met;
        expected += one.expected;
    }
    Ok(ExpectationCount { met, expected })
}
