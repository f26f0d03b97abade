//! Answers that do not meet the expectation of their call, as standard error tells them.
use crate::report::answers::{AnswerText, misses};
use crate::report::numbers::add_order;
use command_check::{expected_of, number_at};
use command_core::CallNote;
use query_orders::FoundAnswer;
use setup_format::{Setup, asks};
use setup_report::Naming;
use std::alloc::{AllocError, Global};

/// Adds what is told of an answer, where it does not meet the expectation of its call: also the first order with it. Both are
/// told by addresses, by which they are compared. Of an expectation that asks nothing is told.
fn add_unmet(
    alloc: Global,
    unmet: &mut Vec<CallNote>,
    setup: &Setup,
    numbers: &[Vec<usize>],
    answer: &FoundAnswer,
) -> Result<(), AllocError> {
    let call = number_at(numbers, answer.client, answer.place);
    let Some(expected) = expected_of(setup, call) else {
        return Ok(());
    };
    if asks(expected) || !misses(alloc, answer.answer, Some(expected))? {
        return Ok(());
    }
    let shown = AnswerText {
        naming: &Naming::plain(),
        answer: answer.answer,
    };
    let mut text = format!(in alloc; "{shown}, and not {expected},")?;
    add_order(alloc, &mut text, numbers, "in the order", &answer.order)?;
    unmet.push(CallNote { call, text })?;
    Ok(())
}

/// What standard error tells of the answers that do not meet the expectation of their call.
pub fn unmet_answers(
    alloc: Global,
    setup: &Setup,
    numbers: &[Vec<usize>],
    answers: &[FoundAnswer],
) -> Result<Vec<CallNote>, AllocError> {
    let mut unmet = Vec::new(alloc);
    for answer in answers {
        add_unmet(alloc, &mut unmet, setup, numbers, answer)?;
    }
    Ok(unmet)
}
