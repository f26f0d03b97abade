//! The order that `--witness` names.
ghost use Rattle.program.specs.WitnessWords.{NamesWitness, Numbers};

use crate::marks::{around, number_said};
use command_explore::Witness;

/// The number that a text says; 0, the number of none, if it says none.
fn number_in(text: &str) -> usize
    ensures { Numbers text.now result }
{
    number_said(text).unwrap_or(0) as usize
}

/// What a text names: `I.J` the answer J of call I, and `stuck.J` the J-th way to end stuck. For any other text it is a witness
/// that no report has, since reports count from 1 on.
pub(crate) fn witness_named(which: &str) -> Witness
    ensures { NamesWitness which.now result }
{
    let (before, behind) = around(which, '.');
    let place = number_in(behind);
    if before == "stuck" {
        Witness::Stuck { place }
    } else {
        Witness::Answer {
            call: number_in(before),
            place,
        }
    }
}
