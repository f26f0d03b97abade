//! Laws of a report's texts, over the definitions alone. Nothing is done.
ghost use Rattle.std.specs.Prelude.{◌≡◌, All};
ghost use Rattle.cap_core.specs.declared.capability.Cap.{Cap};
ghost use Rattle.cap_core.specs.declared.profile.ProfileName.{ProfileName};
ghost use Rattle.kernel_forest.specs.Entries.{caps};
ghost use Rattle.kernel_abstract.specs.Reached.{IsReached};
ghost use Rattle.kernel_abstract.specs.State.{State};
ghost use Rattle.setup_report.specs.Naming.{plain};
ghost use Rattle.setup_report.specs.Text.{cap_text};
ghost use Rattle.setup_report_laws.specs.Laws.{EndByThemselves, IsOneLine, IsWithinWords};

/// Where the text of a capability ends is told by the text: of two texts that begin with those of capabilities, and go on
/// with no digit, the capabilities' texts are equal if the whole is, and so is what stands behind them.
pub fn texts_of_capabilities_end_by_themselves()
    ensures { (a b : Cap) → EndByThemselves a b }
{}

/// The text of a capability has no line feed.
pub fn capabilities_are_told_in_one_line()
    ensures { (cap : Cap) → IsOneLine (cap_text plain cap) }
{}

/// In each state that a run reaches, each number of a capability has at most 64 bits, and the rights of one of an endpoint
/// are among the four.
pub fn capabilities_are_within_words()
    ensures { (p : ProfileName) (A : State) → IsReached p A → All IsWithinWords (caps A.derivations) }
{}

/// Of such capabilities the text tells the capability: two of them are the same, if their texts are.
pub fn texts_tell_capabilities()
    ensures { (a b : Cap) → IsWithinWords a → IsWithinWords b → cap_text plain a ≡ cap_text plain b → a ≡ b }
{}
