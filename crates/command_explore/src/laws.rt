//! A law of the text that is written for a witness. Nothing is done.
ghost use Rattle.std.specs.Prelude.{ℕ, List};
ghost use Rattle.command_explore.specs.Replayed.{IsWitnessReplay};

use crate::report::Witness;
use command_core::Verdict;

/// A text that is written for a witness is a set-up, which `check` takes. It makes the calls of the order that is told, and the
/// replies that `check` writes come to what is told.
pub fn texts_of_witnesses_come_to_what_is_told()
    ensures { (first states : ℕ) (witness : Witness) (input text : List ℕ) (verdict : Verdict) → IsWitnessReplay first states witness input text verdict }
{}
