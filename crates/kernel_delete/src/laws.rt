//! Laws of the definitions.
ghost use Rattle.std.specs.Prelude.{◌≡◌, ℕ, List, Bool, None};
ghost use Rattle.cap_core.specs.declared.profile.ProfileName.{ProfileName};
ghost use Rattle.kernel_forest.specs.Forest.{Forest};
ghost use Rattle.kernel_forest.specs.Entries.{Entry, first_child};
ghost use Rattle.kernel_delete.specs.Least.{IsLeast, cleared};
ghost use Rattle.kernel_delete.specs.Revoke.{revoke};
ghost use Rattle.kernel_delete.specs.Laws.{IsTheOnly, LeaveInOrder, StaysInItself, GoesOnFrom};

/// What a cleared slot takes along is the least closed set of full slots that has it, and no other set is. In whatever
/// order its slots are emptied, the forest that is left is the same. An object with a capability in one of its own slots
/// stays, where this is not the slot that is cleared.
pub fn clear_takes_the_least_set()
    ensures least { (p : ProfileName) (l : List Entry) (s : ℕ) → IsLeast p l s (cleared p l s) }
    ensures only { (p : ProfileName) (l : List Entry) (s : ℕ) (X : ℕ → Bool) → IsTheOnly p l s X }
    ensures order { (p : ProfileName) (f : Forest Entry) (s : ℕ) (ns : List ℕ) → LeaveInOrder p f s ns }
    ensures selfheld { (p : ProfileName) (size : ℕ) (l : List Entry) (s : ℕ) (b : Entry) → StaysInItself p size l s b }
{}

/// A slot with no child is revoked as it is; of another the first child is cleared, and then it is revoked. In the end
/// the slot has no child.
pub fn revoke_clears_first_children()
    ensures childless { (p : ProfileName) (s : ℕ) (f : Forest Entry) → first_child s f ≡ None → revoke p s f ≡ f }
    ensures child { (p : ProfileName) (s : ℕ) (c : ℕ) (f : Forest Entry) → GoesOnFrom p s c f }
    ensures ends { (p : ProfileName) (s : ℕ) (f : Forest Entry) → first_child s (revoke p s f) ≡ None }
{}
