//! What a call comes to, as text, and whether that meets an expectation.
ghost use Rattle.std.specs.Prelude.{◌≡◌, ◌++◌, ◌||◌, Some, IfOk, OnOk, option_copied, string_bytes};
ghost use Rattle.setup_report.specs.Naming.{naming_view, plain};
ghost use Rattle.setup_report.specs.Text.{begins_as};
ghost use Rattle.query_orders.specs.Found.{answer_of, answers_of};
ghost use Rattle.command_explore.specs.Numbers.{numbers_in};
ghost use Rattle.command_explore.specs.Text as spec;

use crate::report::numbers::add_order;
use command_check::number_at;
use kernel_core::Reply;
use query_orders::{Answer, FoundAnswer};
use setup_report::{Naming, ReplyText};
use std::alloc::{AllocError, Global};
use std::fmt::{self, Write};

/// What a call comes to in an order.
#[derive(Clone, Copy)]
pub struct AnswerText<'a> {
    pub naming: &'a Naming<'a>,
    pub answer: Answer,
}

impl fmt::Display for AnswerText<'_> {
    ghost output = { λ a. Some (spec.call_answer_text (naming_view a.naming.now) a.answer) };

    fn fmt<W: fmt::Write>(&self, f: &mut fmt::Formatter<W>) -> fmt::Result {
        let naming = self.naming;
        match self.answer {
            Answer::Replied(reply) => {
                let reply = ReplyText { naming, reply };
                write!(f, "{reply}")
            }
            Answer::Served(reply) => {
                let reply = ReplyText { naming, reply };
                write!(f, "waiting then {reply}")
            }
            Answer::Cancelled => write!(f, "waiting then cancelled"),
            Answer::Waits => write!(f, "waiting"),
            Answer::NotMade => write!(f, "not made"),
        }
    }
}

/// Whether a text is the expected one, or begins with it followed by a space.
#[tactic(auto, using(setup_report::proofs::Sequences::Begins::begins_not, setup_report::proofs::Sequences::Begins::begins_whole, setup_report::proofs::Sequences::Begins::begins_first))]
fn begins_as(shown: &str, expected: &str) -> bool
    ensures { result ≡ begins_as shown.now expected.now }
{
    match shown.as_bytes().strip_prefix(expected.as_bytes()) {
        None => false,
        Some([]) => true,
        Some([byte, ..]) => *byte == b' ',
    }
}

/// Whether a reply's text by addresses is the expected one, or begins with it followed by a space.
fn reply_meets(alloc: Global, reply: Reply, expected: &str) -> Result<bool, AllocError>
    ensures { IfOk result (λ met. met ≡ spec.reply_meets expected.now reply) }
{
    let naming = &Naming::plain();
    let text = ReplyText { naming, reply }.to_string(alloc)?;
    Ok(begins_as(text.as_str(), expected))
}

/// Whether the text of an answer by addresses is the expected one, or begins with it followed by a space.
fn text_meets(alloc: Global, answer: Answer, expected: &str) -> Result<bool, AllocError>
    ensures { IfOk result (λ met. met ≡ begins_as (spec.call_answer_text plain answer) expected.now) }
{
    let naming = &Naming::plain();
    let text = AnswerText { naming, answer }.to_string(alloc)?;
    Ok(begins_as(text.as_str(), expected))
}

/// Whether what a call comes to meets an expectation: by its text, or, where it waited, by what the wait came to.
fn meets(alloc: Global, answer: Answer, expected: &str) -> Result<bool, AllocError>
    ensures { IfOk result (λ met. met ≡ spec.meets_expectation expected.now answer) }
{
    let is_met = text_meets(alloc, answer, expected)?;
    match answer {
        Answer::Served(reply) => Ok(is_met || reply_meets(alloc, reply, expected)?),
        Answer::Cancelled => Ok(is_met || begins_as("cancelled", expected)),
        Answer::Replied(_) | Answer::Waits | Answer::NotMade => Ok(is_met),
    }
}

/// Whether some answer of a call meets its expectation, and whether some does not.
#[derive(Clone, Copy)]
pub struct Judged {
    pub met: bool,
    pub missed: bool,
}

/// Whether an answer is one of the call with this number.
pub fn is_of(numbers: &[Vec<usize>], number: usize, answer: &FoundAnswer) -> bool
    ensures { result ≡ spec.is_answer_of (numbers_in numbers.now) number (answer_of answer.now) }
{
    number_at(numbers, answer.client, answer.place) == number
}

/// Judges the answers of the call with this number.
pub fn judge(
    alloc: Global,
    numbers: &[Vec<usize>],
    number: usize,
    expected: &str,
    answers: &[FoundAnswer],
) -> Result<Judged, AllocError>
    ensures met { IfOk result (λ judged. judged.met ≡ spec.some_met (numbers_in numbers.now) number expected.now (answers_of answers.now)) }
    ensures missed { IfOk result (λ judged. judged.missed ≡ spec.some_missed (numbers_in numbers.now) number expected.now (answers_of answers.now)) }
{
    let mut met = false;
    let mut missed = false;
    let mut rest = answers;
    while let Some((answer, later)) = rest.split_first() {
        if is_of(numbers, number, answer) {
            let is_met = meets(alloc, answer.answer, expected)?;
            met = met || is_met;
            missed = missed || !is_met;
        }
        rest = later;
    }
    Ok(Judged { met, missed })
}

/// Whether there is an expectation that an answer does not meet.
pub fn misses(alloc: Global, answer: Answer, expected: Option<&str>) -> Result<bool, AllocError>
    ensures { IfOk result (λ missed. missed ≡ spec.misses (option_copied expected.entry) answer) }
{
    match expected {
        None => Ok(false),
        Some(expected) => Ok(!meets(alloc, answer, expected)?),
    }
}

/// Adds the line of an answer: the number of its call, its place among the call's answers, and, where it does not meet the
/// expectation, the first order with it.
fn add_answer(
    alloc: Global,
    out: &mut String,
    naming: &Naming<'_>,
    numbers: &[Vec<usize>],
    number: usize,
    place: usize,
    expected: Option<&str>,
    answer: &FoundAnswer,
) -> Result<(), AllocError>
    ensures { OnOk result (string_bytes out.new ≡ string_bytes out.old
        ++ spec.call_answer_line (naming_view naming.now) (numbers_in numbers.now) number place (option_copied expected.entry) (answer_of answer.now)) }
{
    let text = AnswerText {
        naming,
        answer: answer.answer,
    };
    write!(out, "  {number}.{place} {text}")?;
    if misses(alloc, answer.answer, expected)? {
        write!(out, " [not met]")?;
        add_order(alloc, out, numbers, "by", &answer.order)?;
    }
    writeln!(out)
}

/// Adds a line for each answer of the call with this number.
pub fn add_answers(
    alloc: Global,
    out: &mut String,
    naming: &Naming<'_>,
    numbers: &[Vec<usize>],
    number: usize,
    expected: Option<&str>,
    answers: &[FoundAnswer],
) -> Result<(), AllocError>
    ensures { OnOk result (string_bytes out.new ≡ string_bytes out.old
        ++ spec.answer_lines (naming_view naming.now) (numbers_in numbers.now) number 1 (option_copied expected.entry) (answers_of answers.now)) }
{
    let mut place = 0;
    for answer in answers {
        if is_of(numbers, number, answer) {
            place += 1;
            add_answer(alloc, out, naming, numbers, number, place, expected, answer)?;
        }
    }
    Ok(())
}
