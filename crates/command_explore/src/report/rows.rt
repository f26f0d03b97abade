//! The answers of each call, found by the call's number.
ghost use Rattle.std.specs.Prelude.{◌≡◌, ℕ, ◌++◌, ◌∷◌, [], ◌==◌, IfOk, OnOk, cond, filter, slice_get};
ghost use Rattle.query_orders.specs.Found.{answer_of, answers_of};
ghost use Rattle.command_explore.specs.Numbers.{numbers_in};
ghost use Rattle.command_explore.specs.Rows.{AreEmptyRows, AreRows, HasMore};
ghost use Rattle.command_explore.specs.Text.{is_answer_of};

use command_check::number_at;
use query_orders::FoundAnswer;
use std::alloc::{AllocError, Global};

/// So many rows with nothing in them.
fn empty_rows(alloc: Global, count: usize) -> Result<Vec<Vec<FoundAnswer>>, AllocError>
    ensures { IfOk result (λ rows. AreEmptyRows rows.items) }
{
    let mut rows = Vec::new(alloc);
    for _i in 0..count {
        rows.push(Vec::new(alloc))?;
    }
    Ok(rows)
}

/// Puts an answer at the end of a row.
fn add_answer(row: &mut Vec<FoundAnswer>, answer: &FoundAnswer) -> Result<(), AllocError>
    ensures { OnOk result (answers_of row.new.items ≡ answers_of row.old.items ++ answer_of answer.now ∷ []) }
{
    row.push(answer.share()?)?;
    Ok(())
}

/// Puts an answer at the end of the row with a number, where there is one.
fn add_to_row(
    rows: &mut Vec<Vec<FoundAnswer>>,
    number: usize,
    answer: &FoundAnswer,
) -> Result<(), AllocError>
    ensures { OnOk result ((n : ℕ) → HasMore (slice_get rows.old.items n) (slice_get rows.new.items n) (cond (number == n) (answer_of answer.now ∷ []) [])) }
{
    if let Some(row) = rows.get_mut(number) {
        add_answer(row, answer)?;
    }
    Ok(())
}

/// For each number below `count` the answers of the call that has it, in the order in which they were found: a look at each
/// answer tells all rows.
pub fn answer_rows(
    alloc: Global,
    numbers: &[Vec<usize>],
    count: usize,
    answers: &[FoundAnswer],
) -> Result<Vec<Vec<FoundAnswer>>, AllocError>
    ensures { IfOk result (λ rows. AreRows (numbers_in numbers.now) (answers_of answers.now) rows.items) }
{
    let mut rows = empty_rows(alloc, count)?;
    let mut rest = answers;
    while let Some((answer, later)) = rest.split_first() {
        let number = number_at(numbers, answer.client, answer.place);
        add_to_row(&mut rows, number, answer)?;
        rest = later;
    }
    Ok(rows)
}

/// The row with a number; all answers where there is none.
pub fn row_of<'a>(
    rows: &'a [Vec<FoundAnswer>],
    number: usize,
    answers: &'a [FoundAnswer],
) -> &'a [FoundAnswer]
    ensures { (numbers : _) → AreRows numbers (answers_of answers.now) rows.now
        → filter (is_answer_of numbers number) (answers_of result.now) ≡ filter (is_answer_of numbers number) (answers_of answers.now) }
{
    match rows.get(number) {
        Some(row) => row.as_slice(),
        None => answers,
    }
}
