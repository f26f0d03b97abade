//! What the text of parts does not say cannot happen. Nothing is done.
ghost use Rattle.std.specs.Prelude.{ℕ, List};
ghost use Rattle.kernel_forest.specs.Forest.{Forest};
ghost use Rattle.kernel_forest.specs.Entries.{Entry};
ghost use Rattle.query_parts.specs.declared.listed.PartMemory.{PartMemory};
ghost use Rattle.query_parts.specs.declared.listed.PartUse.{PartUse};
ghost use Rattle.cap_core.specs.declared.profile.ProfileName.{ProfileName};
ghost use Rattle.kernel_abstract.specs.Shown.{Shown};
ghost use Rattle.command_parts.specs.NotTaken.{TakesNone};
ghost use Rattle.command_parts.specs.Alone.{KeepsWhatItHas, SendsByTold};

/// If no line says that a part may take slots from another, no full slot of the other stands below a slot of the part. So, while
/// both are closed, no call of the part empties a slot of the other, and this stays so (`revokes_take_what_stands_below`).
pub fn what_is_not_told_is_not_taken()
    ensures { (memory : List PartMemory) (uses : List PartUse) (f : Forest Entry) (i j : ℕ) → TakesNone memory uses f i j }
{}

/// What the line `only messages` promises of a part: whatever calls the threads of parts make, and whatever messages others send and
/// receive, each slot of the part holds what it held, or nothing. And what its threads send on the way they send by a use that is listed
/// of the part, with its badge.
pub fn parts_of_messages_keep_to_their_uses()
    ensures slots { (p : ProfileName) (memory : List PartMemory) (uses : List PartUse) (v : Shown) (i : ℕ) → KeepsWhatItHas p memory uses v i }
    ensures sends { (p : ProfileName) (memory : List PartMemory) (uses : List PartUse) (v : Shown) (i : ℕ) → SendsByTold p memory uses v i }
{}
