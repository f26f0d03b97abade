//! Laws of what a thread reaches. Nothing is done.
ghost use Rattle.std.specs.Prelude.{ℕ, Bool, List};
ghost use Rattle.cap_core.specs.declared.capability.Cap.{Cap};
ghost use Rattle.cap_core.specs.declared.profile.ProfileName.{ProfileName};
ghost use Rattle.kernel_forest.specs.Forest.{Forest};
ghost use Rattle.kernel_forest.specs.Entries.{Entry};
ghost use Rattle.kernel_abstract.specs.declared.call.Call.{Call};
ghost use Rattle.kernel_abstract.specs.State.{State};
ghost use Rattle.query_reach.specs.Laws.{IsRefusedSends, IsRefusedReceives, SendsElsewhere, ReceivesElsewhere, LeaveAllSlots};
ghost use Rattle.query_reach.specs.Listed.{IsEnough};
ghost use Rattle.query_reach.specs.OneCall.{AreAllThatAreNamed};
ghost use Rattle.query_reach.specs.declared.held.Held.{Held};
ghost use Rattle.query_reach.specs.declared.reached.Reached.{Reached};

/// A thread that reaches no endpoint capability with Write is refused every send, and one that reaches none with Read every
/// receive, by whatever word.
pub fn unreached_is_refused()
    ensures sends { (p : ProfileName) (A : State) (thread : ℕ) → IsRefusedSends p A thread }
    ensures receives { (p : ProfileName) (A : State) (thread : ℕ) → IsRefusedReceives p A thread }
{}

/// Of one endpoint: a thread that reaches no capability of it with Write has no send accepted that is one to it, and one
/// that reaches none with Read no receive.
pub fn unreached_endpoint_is_not_served()
    ensures sends { (p : ProfileName) (f : Forest Entry) (thread e : ℕ) → SendsElsewhere p f thread e }
    ensures receives { (p : ProfileName) (f : Forest Entry) (thread e : ℕ) → ReceivesElsewhere p f thread e }
{}

/// If no entry of a thread's list of reached slots holds a capability that passes a test, no word leads to one that does.
pub fn listed_is_enough()
    ensures { (p : ProfileName) (f : Forest Entry) (thread : ℕ) (list : List Reached) (test : Cap → Bool) → IsEnough p f thread list test }
{}

/// Each full slot that one call of a thread names, by a word or by an index and a depth, is in the thread's list of reached
/// slots or in that of its held slots: a slot in neither is used, copied, moved, deleted or revoked by no single call of the
/// thread. It may be emptied by one, if what it was derived from goes, or what it lies in ends.
pub fn one_call_names_these()
    ensures { (p : ProfileName) (f : Forest Entry) (thread : ℕ) (reached : List Reached) (held : List Held) → AreAllThatAreNamed p f thread reached held }
{}

/// Whatever calls threads make that reach no capability but endpoints', no slot changes: they can only send and receive, by just
/// the capabilities that they reach now.
pub fn endpoints_alone_change_no_slot()
    ensures { (p : ProfileName) (A : State) (calls : List Call) → LeaveAllSlots p A calls }
{}
