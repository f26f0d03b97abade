//! Laws of reasons, over the definitions alone. Nothing is done.
ghost use Rattle.std.specs.Prelude.{ℕ, List};
ghost use Rattle.cap_core.specs.declared.capability.Cap.{Cap};
ghost use Rattle.kernel_forest.specs.Forest.{Forest};
ghost use Rattle.kernel_forest.specs.Entries.{Entry};
ghost use Rattle.cap_core.specs.declared.profile.ProfileName.{ProfileName};
ghost use Rattle.kernel_abstract.specs.declared.call.Call.{Call};
ghost use Rattle.kernel_abstract.specs.Shown.{Shown};
ghost use Rattle.kernel_abstract.specs.declared.reason.Word.{Word};
ghost use Rattle.kernel_abstract.specs.State.{State};
ghost use Rattle.kernel_checks.specs.Laws.{IsResolution, IsTarget, IsReasonOfReply, IsToldTruly, EndsThere, IsDepthHint, IsNumberHint};

/// The lookups of a call are the resolution of capability spaces: they find the same slot, and the fault is the reason's.
pub fn lookups_resolve()
    ensures walk { (p : ProfileName) (cap_in : ℕ → Cap) (slot : ℕ) (bits : List ℕ) → IsResolution p cap_in slot bits }
    ensures index { (p : ProfileName) (cap_in : ℕ → Cap) (word : Word) (root index depth : ℕ) → IsTarget p cap_in word root index depth }
{}

/// A call has a reason exactly where the abstract step refuses it, and the refusal of the reason is the reply.
pub fn reason_stands_where_the_reply_is_a_refusal()
    ensures { (p : ProfileName) (A : State) (call : Call) → IsReasonOfReply p A call }
{}

/// Each slot that the reason of a call names holds the capability that the reason tells.
pub fn slots_hold_what_is_told()
    ensures { (p : ProfileName) (v : Shown) (call : Call) → IsToldTruly p v call }
{}

/// The way that is told of a lookup begins at the slot where the lookup begins, and ends at the slot where it ends: the one
/// that it finds, or the one where it fails.
pub fn ways_end_where_lookups_do()
    ensures { (p : ProfileName) (cap_in : ℕ → Cap) (slot : ℕ) (bits : List ℕ) → EndsThere p cap_in slot bits }
{}

/// What a hint tells is what the abstract kernel finds: the slot that the index names at the depth, and the slot that the
/// number leads to.
pub fn hints_are_true()
    ensures depth { (p : ProfileName) (cap_in : ℕ → Cap) (root index : ℕ) → IsDepthHint p cap_in root index }
    ensures number { (p : ProfileName) (f : Forest Entry) (thread word : ℕ) → IsNumberHint p f thread word }
{}
