//! Witnesses: the orders that a report tells.
ghost use Rattle.std.specs.Prelude.{◌≡◌, option_copied, option_map};
ghost use Rattle.query_orders.specs.Found.{answer_of, answers_of, stuck_of};
ghost use Rattle.query_orders.specs.Ends.{stuck_end};
ghost use Rattle.command_explore.specs.Numbers.{numbers_in};
ghost use Rattle.command_explore.specs.Views.{explored_view};
ghost use Rattle.command_explore.specs.Witnesses as spec;

use crate::report::answers::is_of;
use query_orders::{Explored, FoundAnswer, FoundStuck, Order};

/// What an order is a witness of.
#[derive(Clone, Copy, Drop)]
pub enum Witness {
    /// That the call with a number comes to an answer, by the place of the answer among that call's; both count from 1, as the
    /// report does.
    Answer { call: usize, place: usize },
    /// That orders end stuck in one way, by the place of that way, from 1 on.
    Stuck { place: usize },
}

/// The answer of a call at a place among its answers, from 1 on.
fn answer_numbered<'a>(
    numbers: &[Vec<usize>],
    number: usize,
    wanted: usize,
    answers: &'a [FoundAnswer],
) -> Option<&'a FoundAnswer>
    ensures { option_map (λ a. answer_of a.now) result ≡ spec.answer_numbered (numbers_in numbers.now) number wanted 1 (answers_of answers.now) }
{
    let mut place = 0;
    for answer in answers {
        if is_of(numbers, number, answer) {
            place += 1;
            if place == wanted {
                return Some(answer);
            }
        }
    }
    None
}

/// The way to end stuck at a place among these ways, from 1 on.
fn stuck_numbered(wanted: usize, stuck: &[FoundStuck]) -> Option<&FoundStuck>
    ensures { option_map (λ s. stuck_end s.now.order s.now.left.items) result ≡ spec.stuck_numbered wanted 1 (stuck_of stuck.now) }
{
    for (i, end) in stuck.iter().enumerate() {
        if i + 1 == wanted {
            return Some(end);
        }
    }
    None
}

/// The first order that tells what a witness is of.
pub fn named_order<'a>(
    numbers: &[Vec<usize>],
    explored: &'a Explored,
    witness: Witness,
) -> Option<&'a Order>
    ensures { option_copied result ≡ spec.named_order (numbers_in numbers.now) (explored_view explored.now) witness }
{
    match witness {
        Witness::Answer { call, place } => {
            let answers = explored.found.answers.answers();
            let answer = answer_numbered(numbers, call, place, answers)?;
            Some(&answer.order)
        }
        Witness::Stuck { place } => {
            let end = stuck_numbered(place, explored.found.stuck.as_slice())?;
            Some(&end.order)
        }
    }
}

/// The number of the call whose expectation stays in the witness; 0, the number of none, for an order that ends stuck.
pub fn expecting(witness: Witness) -> usize
    ensures { result ≡ spec.expecting witness }
{
    match witness {
        Witness::Answer { call, .. } => call,
        Witness::Stuck { .. } => 0,
    }
}
