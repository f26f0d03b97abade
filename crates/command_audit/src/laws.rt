//! Laws of audits. Nothing is done.
ghost use Rattle.std.specs.Prelude.{◌≡◌, ℕ, List, Ok};
ghost use Rattle.cap_core.specs.declared.profile.ProfileName.{ProfileName};
ghost use Rattle.kernel_abstract.specs.declared.call.Call.{Call};
ghost use Rattle.kernel_abstract.specs.declared.invocation.Invocation.TheVariants.{Revoke};
ghost use Rattle.kernel_abstract.specs.Decode.{decoded_call};
ghost use Rattle.kernel_abstract.specs.State.{State, shown};
ghost use Rattle.setup_report.specs.Naming.{Texts};
ghost use Rattle.command_trace.specs.Calls.{call_changes};
ghost use Rattle.command_audit.specs.Audit.{slot_changes};
ghost use Rattle.command_audit.specs.declared.threads.ThreadSlots.{ThreadSlots};
ghost use Rattle.command_audit.specs.Spaces.{IsToldRight, IsToldOnce};

/// Where a thread's call passes its checks and is a revoke that names a slot, a trace tells of it the changes that an audit
/// tells of a revoke of the slot.
pub fn a_revoke_does_this()
    ensures { (texts : Texts) (p : ProfileName) (A : State) (call : Call) (slot : ℕ) → decoded_call p (shown A) call ≡ Ok (Revoke slot)
        → call_changes texts p A call ≡ slot_changes texts p A slot }
{}

/// A thread that is told as another one can name just what that one can, by the same words; and of threads that can name the
/// same, and something, one alone is told in full.
pub fn told_as_is_the_same()
    ensures right { (list : List ThreadSlots) (t : ThreadSlots) (first : ℕ) → IsToldRight list t first }
    ensures once { (list : List ThreadSlots) (t u : ThreadSlots) → IsToldOnce list t u }
{}
