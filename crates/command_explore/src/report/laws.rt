//! Laws of a report on every order. Nothing is done.
ghost use Rattle.std.specs.Prelude.{ℕ, List};
ghost use Rattle.toml.specs.Data.{Members};
ghost use Rattle.cap_core.specs.declared.profile.ProfileName.{ProfileName};
ghost use Rattle.setup_format.specs.Views.{SetupView};
ghost use Rattle.command_explore.specs.Laws.{EndsAtItsLimit, IsOnAllOrders};
ghost use Rattle.command_explore.specs.Replays.{IsWitnessAccepted, IsWitnessReplayed};

use crate::report::witness::Witness;

/// A report is on all orders, or the limit on states was reached: where it is whole, there are no longer orders; and where it
/// is not, the states of one call more are more than the limit leaves.
pub fn reports_are_whole_or_reach_their_limit()
    ensures whole { (p : ProfileName) (setup : SetupView) (first limit : ℕ) → IsOnAllOrders p setup first limit }
    ensures limit { (p : ProfileName) (setup : SetupView) (first limit : ℕ) → EndsAtItsLimit p setup first limit }
{}

/// The table of a witness is that of a set-up, which makes the calls of the order that is told. A run of such a set-up by the
/// abstract kernel comes to what is told.
pub fn witnesses_come_to_what_is_told()
    ensures accepted { (setup : SetupView) (first limit : ℕ) (witness : Witness) (document table : Members) → IsWitnessAccepted setup first limit witness document table }
    ensures replayed { (setup : SetupView) (first limit : ℕ) (witness : Witness) (order : List ℕ) (made : SetupView) → IsWitnessReplayed setup first limit witness order made }
{}
