//! A law of a forest's lines, over the definitions alone. Nothing is done.
ghost use Rattle.std.specs.Prelude.{◌≡◌, ℕ, false, List, Option};
ghost use Rattle.cap_core.specs.declared.profile.ProfileName.{ProfileName};
ghost use Rattle.kernel_abstract.specs.Reached.{IsReached};
ghost use Rattle.kernel_abstract.specs.State.{State};
ghost use Rattle.setup_values.specs.Names.{Names};
ghost use Rattle.setup_report.specs.Naming.{by_addresses};
ghost use Rattle.setup_format.specs.Setups.{read_of_bytes};
ghost use Rattle.setup_format.specs.Views.{SetupView};
ghost use Rattle.command_check.specs.Commands.{IsAnswerTo, IsStateAnswer};
ghost use Rattle.command_core.specs.declared.fault.Verdict.TheVariants.{AllMet};
ghost use Rattle.command_tree.specs.declared.form.Form.TheVariants.{Lines};
ghost use Rattle.command_tree.specs.Tree.{forest_text};
ghost use Rattle.command_tree.specs.Trees.{IsTree};
ghost use Rattle.command_tree.specs.Laws.{AreSetUpNames, held_in, held_when_read};

/// The lines of a forest tell the whole of it, each full slot in its place with its capability: of two states that runs
/// reach, of whatever set-ups, the forests are the same, if the texts are. And two inputs of which the same text is written
/// have the same forest after the calls that are asked for. What the text does not tell is which capabilities are original.
pub fn lines_tell_the_forest()
    ensures states { (p q : ProfileName) (A B : State) (names others : Names) (setup other : SetupView) (made after : ℕ)
        → IsReached p A → IsReached q B → AreSetUpNames names → AreSetUpNames others
        → forest_text (by_addresses names) setup made A.derivations ≡ forest_text (by_addresses others) other after B.derivations
        → held_in A.derivations ≡ held_in B.derivations }
    ensures inputs { (after until : Option ℕ) (bytes others text : List ℕ)
        → IsAnswerTo (IsStateAnswer (IsTree Lines false) after) bytes text AllMet → IsAnswerTo (IsStateAnswer (IsTree Lines false) until) others text AllMet
        → held_when_read after (read_of_bytes bytes) ≡ held_when_read until (read_of_bytes others) }
{}
