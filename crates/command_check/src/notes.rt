//! What standard error says about a run: which calls were refused and had no expectation, and whose expectation is not met.
ghost use Rattle.std.specs.Prelude.{◌≡◌, ◌++◌, length, option_copied, IfOk, OnOk};
ghost use Rattle.setup_report.specs.Text.{begins_as};
ghost use Rattle.command_check.specs.Notes as spec;

use command_core::{CallNote, Notes};
use kernel_core::Reply;
use setup_format::{Setup, asks};
use setup_report::{ExpectationCount, Naming, ReplyText};
use std::alloc::{AllocError, Global};

/// Adds the number of a call, if it was refused and nothing was expected of it.
fn add_unexpected(
    numbers: &mut Vec<usize>,
    number: usize,
    expected: Option<&str>,
    reply: Reply,
) -> Result<(), AllocError>
    ensures { OnOk result (numbers.new.items ≡ numbers.old.items ++ spec.unexpected_at number (option_copied expected.entry) reply) }
{
    match (expected, reply) {
        (None, Reply::Refused(_)) => {
            numbers.push(number)?;
            Ok(())
        }
        _ => Ok(()),
    }
}

/// The numbers of the calls of a set-up that were refused and of which nothing was expected, given the reply to each.
fn unexpected_refusals(
    alloc: Global,
    setup: &Setup,
    replies: &[Reply],
) -> Result<Vec<usize>, AllocError>
    requires { length replies.now ≡ length setup.now.calls }
    ensures { IfOk result (λ v. v.items ≡ spec.unexpected_from 1 setup.now.calls replies.now) }
{
    let mut numbers = Vec::new(alloc);
    for (i, reply) in replies.iter().enumerate() {
        add_unexpected(&mut numbers, i + 1, setup.expect(i), *reply)?;
    }
    Ok(numbers)
}

/// Whether a reply meets an expectation: it is the expected text, or begins with it followed by a space.
#[tactic(auto, using(setup_report::proofs::Sequences::Begins::begins_not, setup_report::proofs::Sequences::Begins::begins_whole, setup_report::proofs::Sequences::Begins::begins_first))]
fn is_met(shown: &str, expected: &str) -> bool
    ensures { result ≡ begins_as shown.now expected.now }
{
    match shown.as_bytes().strip_prefix(expected.as_bytes()) {
        None => false,
        Some([]) => true,
        Some([byte, ..]) => *byte == b' ',
    }
}

/// Adds what is said about a call, if its reply is not the expected one. Nothing is said about an expectation that asks.
pub fn add_unmet(
    alloc: Global,
    unmet: &mut Vec<CallNote>,
    call: usize,
    expected: Option<&str>,
    reply: Reply,
) -> Result<(), AllocError>
    ensures { OnOk result (spec.noted unmet.new.items ≡ spec.noted unmet.old.items ++ spec.unmet_at call (option_copied expected.entry) reply) }
{
    let Some(expected) = expected else {
        return Ok(());
    };
    let naming = &Naming::plain();
    let shown = ReplyText { naming, reply }.to_string(alloc)?;
    if !asks(expected) && !is_met(shown.as_str(), expected) {
        let text = format!(in alloc; "{shown}, and not {expected}")?;
        unmet.push(CallNote { call, text })?;
    }
    Ok(())
}

/// The calls of a set-up whose expectation is not met, given the reply to each and the count of their expectations.
pub fn unmet_calls(
    alloc: Global,
    setup: &Setup,
    replies: &[Reply],
    count: ExpectationCount,
) -> Result<Vec<CallNote>, AllocError> {
    let mut unmet = Vec::new(alloc);
    if count.met == count.expected {
        return Ok(unmet);
    }
    for i in 0..setup.calls().len() {
        if let Some(reply) = replies.get(i) {
            add_unmet(alloc, &mut unmet, i + 1, setup.expect(i), *reply)?;
        }
    }
    Ok(unmet)
}

/// The numbers of the calls of a set-up whose expectation asks what the reply is.
fn asking_calls(alloc: Global, setup: &Setup) -> Result<Vec<usize>, AllocError> {
    let mut numbers = Vec::new(alloc);
    for i in 0..setup.calls().len() {
        if let Some(expected) = setup.expect(i)
            && asks(expected)
        {
            numbers.push(i + 1)?;
        }
    }
    Ok(numbers)
}

/// What standard error says about the calls of a set-up, given the reply to each and the count of their expectations: which were
/// refused if nothing was expected, whose expectation is not met, and which ask what the reply is.
pub fn notes_on(
    alloc: Global,
    setup: &Setup,
    replies: &[Reply],
    count: ExpectationCount,
) -> Result<Notes, AllocError>
    requires { length replies.now ≡ length setup.now.calls }
    ensures { IfOk result (λ notes. notes.refused.items ≡ spec.unexpected_from 1 setup.now.calls replies.now) }
{
    let refused = unexpected_refusals(alloc, setup, replies)?;
    let unmet = unmet_calls(alloc, setup, replies, count)?;
    let asking = asking_calls(alloc, setup)?;
    Ok(Notes {
        refused,
        unmet,
        asking,
        ..Notes::none(alloc)
    })
}
