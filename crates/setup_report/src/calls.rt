//! The calls of a set-up with their replies, a line for each, and how many of their expectations are met.
ghost use Rattle.std.specs.Prelude.{◌≡◌, ◌++◌, ◌+◌, ◌<◌, length, IfOk, OnOk, string_bytes, option_copied};
ghost use Rattle.setup_report.specs.Naming.{naming_view};
ghost use Rattle.setup_report.specs.Text as text;
ghost use Rattle.setup_report.specs.Report as spec;
ghost use Rattle.setup_report.specs.Private.Expectations.{text_of_expectation, met_of_expectation, expected_of_expectation};

use crate::lines::ExpectationText;
use crate::naming::Naming;
use crate::text::{AnsweredText, ReplyText};
use kernel_core::{Call, Reply};
use setup_format::Setup;
use std::alloc::{AllocError, Global};
use std::fmt::Write;

/// How many calls have an expectation, and how many of these are met.
#[derive(Clone, Copy)]
pub struct ExpectationCount {
    pub met: usize,
    pub expected: usize,
}

/// Whether a text is the expected one, or begins with it followed by a space.
#[tactic(auto, using(crate::proofs::Sequences::Begins::begins_not, crate::proofs::Sequences::Begins::begins_whole, crate::proofs::Sequences::Begins::begins_first))]
fn is_met(shown: &str, expected: &str) -> bool
    ensures { result ≡ text.begins_as shown.now expected.now }
{
    match shown.as_bytes().strip_prefix(expected.as_bytes()) {
        None => false,
        Some([]) => true,
        Some([byte, ..]) => *byte == b' ',
    }
}

/// What is said of an expectation, by the text of the reply. If nothing is expected no memory is taken.
fn compared(
    alloc: Global,
    expected: Option<&str>,
    reply: Reply,
) -> Result<ExpectationText<'_>, AllocError>
    ensures text { IfOk result (λ v. text_of_expectation v
        ≡ text.expectation_text (option_copied expected.entry) (text.reply_text reply)) }
    ensures met { IfOk result (λ v. met_of_expectation v
        ≡ spec.one_met (option_copied expected.entry) (text.reply_text reply)) }
    ensures expected { IfOk result (λ v. expected_of_expectation v ≡ spec.one_expected (option_copied expected.entry)) }
{
    let Some(expected) = expected else {
        return Ok(ExpectationText::None);
    };
    let naming = &Naming::plain();
    let shown = ReplyText { naming, reply }.to_string(alloc)?;
    if is_met(shown.as_str(), expected) {
        Ok(ExpectationText::Met)
    } else {
        Ok(ExpectationText::NotMet(expected))
    }
}

fn count(expectation: ExpectationText<'_>) -> ExpectationCount
    ensures met { result.met ≡ met_of_expectation expectation.entry }
    ensures expected { result.expected ≡ expected_of_expectation expectation.entry }
{
    match expectation {
        ExpectationText::None => ExpectationCount {
            met: 0,
            expected: 0,
        },
        ExpectationText::Met => ExpectationCount {
            met: 1,
            expected: 1,
        },
        ExpectationText::NotMet(_) => ExpectationCount {
            met: 0,
            expected: 1,
        },
    }
}

/// Adds the line of a call, with its number from 1 on and its reply, as a naming writes them, and counts its expectation, which
/// is compared with the reply by addresses.
pub fn add_call(
    alloc: Global,
    out: &mut String,
    naming: &Naming<'_>,
    number: usize,
    call: &Call,
    expected: Option<&str>,
    reply: Reply,
) -> Result<ExpectationCount, AllocError>
    ensures line { OnOk result (string_bytes out.new ≡ string_bytes out.old
        ++ spec.terminated (spec.call_text (naming_view naming.now) number call.now reply (option_copied expected.entry))) }
    ensures met { IfOk result (λ e. e.met ≡ spec.one_met (option_copied expected.entry) (text.reply_text reply)) }
    ensures expected { IfOk result (λ e. e.expected ≡ spec.one_expected (option_copied expected.entry)) }
{
    let expectation = compared(alloc, expected, reply)?;
    let answered = AnsweredText {
        naming,
        call,
        reply,
    };
    writeln!(out, "{number} {answered}{expectation}")?;
    Ok(count(expectation))
}

/// Adds a line for each call of a set-up, and counts the expectations.
pub fn add_calls(
    alloc: Global,
    out: &mut String,
    naming: &Naming<'_>,
    setup: &Setup,
    replies: &[Reply],
) -> Result<ExpectationCount, AllocError>
    requires { length replies.now ≡ length setup.now.calls }
    ensures lines { OnOk result (string_bytes out.new ≡ string_bytes out.old
        ++ spec.call_lines (naming_view naming.now) 1 setup.now.calls replies.now) }
    ensures met { IfOk result (λ e. e.met ≡ spec.met_count setup.now.calls replies.now) }
    ensures expected { IfOk result (λ e. e.expected ≡ spec.expectation_count setup.now.calls replies.now) }
{
    let mut met = 0;
    let mut expected = 0;
    for (i, call) in setup.calls().iter().enumerate() {
        let one = add_call(alloc, out, naming, i + 1, call, setup.expect(i), replies[i])?;
        met += one.met;
        expected += one.expected;
    }
    Ok(ExpectationCount { met, expected })
}

fn counted_expectation(
    alloc: Global,
    expected: Option<&str>,
    reply: Reply,
) -> Result<ExpectationCount, AllocError>
    ensures met { IfOk result (λ e. e.met ≡ spec.one_met (option_copied expected.entry) (text.reply_text reply)) }
    ensures expected { IfOk result (λ e. e.expected ≡ spec.one_expected (option_copied expected.entry)) }
{
    Ok(count(compared(alloc, expected, reply)?))
}

/// Counts the expectations of a set-up's calls, given the reply to each.
pub fn expectations(
    alloc: Global,
    setup: &Setup,
    replies: &[Reply],
) -> Result<ExpectationCount, AllocError>
    requires { length replies.now ≡ length setup.now.calls }
    ensures met { IfOk result (λ e. e.met ≡ spec.met_count setup.now.calls replies.now) }
    ensures expected { IfOk result (λ e. e.expected ≡ spec.expectation_count setup.now.calls replies.now) }
{
    let mut met = 0;
    let mut expected = 0;
    for (i, reply) in replies.iter().enumerate() {
        let one = counted_expectation(alloc, setup.expect(i), *reply)?;
        met += one.met;
        expected += one.expected;
    }
    Ok(ExpectationCount { met, expected })
}
