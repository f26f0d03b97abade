//! The marks of answers by the questions of an exercise, or by its key.
ghost use Rattle.std.specs.Prelude.{◌≡◌, IfOk, length, option_copied};
ghost use Rattle.setup_report.specs.Text.{reply_text};
ghost use Rattle.command_marks.specs.Against as spec;

use crate::mark::{Mark, mark_of};
use kernel_boot::BootPlan;
use kernel_core::{Call, Reply};
use setup_format::{Setup, asks};
use setup_report::{Naming, ReplyText};
use std::alloc::{AllocError, Global};

/// Whether two plans boot the same.
fn is_same_plan(plan: &BootPlan, other: &BootPlan) -> bool
    ensures { result ≡ spec.same_plan plan.now other.now }
{
    plan.memory_bits() == other.memory_bits()
        && plan.root_radix() == other.root_radix()
        && plan.threads() == other.threads()
        && plan.endpoints() == other.endpoints()
        && plan.untypeds() == other.untypeds()
}

/// Whether a set-up is the exercise in all but what its calls expect.
pub(crate) fn is_same(exercise: &Setup, setup: &Setup) -> bool
    ensures { result ≡ spec.is_same exercise.now setup.now }
{
    exercise.profile() == setup.profile()
        && is_same_plan(exercise.plan(), setup.plan())
        && exercise.calls() == setup.calls()
}

/// How many spaces a text has.
fn spaces(text: &str) -> usize
    ensures { result ≡ spec.spaces text.now }
{
    let bytes = text.as_bytes();
    let mut count = 0;
    for byte in bytes {
        if *byte == b' ' {
            count += 1;
        }
    }
    count
}

/// How many spaces there are in what a question asks for of a delivery.
fn asked_of_delivery(question: &str, reply: &str) -> usize
    ensures { result ≡ spec.asked_of_delivery question.now reply.now }
{
    if question == "? from" {
        3
    } else if question == "? to" {
        5
    } else if question == "? badge" {
        7
    } else if question == "? label" {
        9
    } else if question == "? words" {
        spaces(reply)
    } else {
        0
    }
}

/// How many spaces there are in what a question or a key asks for of a reply, whose text this is.
fn asked(question: &str, reply: Reply, text: &str) -> usize
    requires { text.now ≡ reply_text reply }
    ensures { result ≡ spec.asked question.now reply }
{
    if !asks(question) {
        return spaces(question);
    }
    match reply {
        Reply::Delivered { .. } => asked_of_delivery(question, text),
        _ => spaces(text),
    }
}

/// Whether an answer says less of a reply than is asked for.
fn is_short(alloc: Global, question: &str, answer: &str, reply: Reply) -> Result<bool, AllocError>
    ensures { IfOk result (λ short. short ≡ spec.is_short question.now answer.now reply) }
{
    let naming = &Naming::plain();
    let text = ReplyText { naming, reply }.to_string(alloc)?;
    Ok(spaces(answer) < asked(question, reply, text.as_str()))
}

/// A mark of a call whose answer is too short, or is not.
fn shortened(mark: Mark, is_short: bool) -> Mark
    ensures { result ≡ spec.shortened mark is_short }
{
    match mark {
        Mark::Right if is_short => Mark::Short,
        other => other,
    }
}

/// The mark of a call, by what the exercise asks, and what is answered in its place.
fn mark_by_question(
    alloc: Global,
    number: usize,
    call: &Call,
    question: Option<&str>,
    answer: Option<&str>,
    reply: Reply,
) -> Result<Mark, AllocError>
    ensures { IfOk result (λ mark. mark ≡ spec.mark_by_question (option_copied question.entry) (option_copied answer.entry) reply) }
{
    let Some(question) = question else {
        return Ok(Mark::Nothing);
    };
    let Some(text) = answer else {
        return Ok(Mark::Open);
    };
    let mark = mark_of(alloc, number, call, Some(text), reply)?;
    Ok(shortened(mark, is_short(alloc, question, text, reply)?))
}

/// The marks of a set-up's calls by the questions of an exercise with as many, given the reply to each.
pub(crate) fn marks_by(
    alloc: Global,
    exercise: &Setup,
    setup: &Setup,
    replies: &[Reply],
) -> Result<Vec<Mark>, AllocError>
    requires exercise { length exercise.now.calls ≡ length setup.now.calls }
    requires replies { length replies.now ≡ length setup.now.calls }
    ensures { IfOk result (λ marks. marks.items ≡ spec.marks_by exercise.now.calls setup.now.calls replies.now) }
{
    let mut marks = Vec::new(alloc);
    for (i, call) in setup.calls().iter().enumerate() {
        let (question, answer) = (exercise.expect(i), setup.expect(i));
        let mark = mark_by_question(alloc, i + 1, call, question, answer, replies[i])?;
        marks.push(mark)?;
    }
    Ok(marks)
}
