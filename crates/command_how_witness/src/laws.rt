//! What excludes a witness. Nothing is done.
ghost use Rattle.std.specs.Prelude.{ℕ, List};
ghost use Rattle.cap_core.specs.declared.profile.ProfileName.{ProfileName};
ghost use Rattle.cap_core.specs.declared.capability.Badge.{Badge};
ghost use Rattle.cap_core.specs.declared.message.Message.{Message};
ghost use Rattle.kernel_abstract.specs.declared.call.Call.{Call};
ghost use Rattle.kernel_abstract.specs.State.{State};
ghost use Rattle.query_parts.specs.declared.listed.PartUse.{PartUse};
ghost use Rattle.query_parts.specs.Parts.{Parts};
ghost use Rattle.command_how_witness.specs.Witness.{Asking};
ghost use Rattle.command_how_witness.specs.Excluded.{HasNoWitness, HasNoWitnessByFlow, IsOnlyOne};
ghost use Rattle.command_how_witness.specs.Still.{ChangesNoSlot, CanPass};
ghost use Rattle.command_how_witness.specs.StillDecided.{IsDecided, IsDecidedWithBadge, IsToldDecided};

/// If it is excluded, no calls show it: there is never a witness and *excluded* of one question.
pub fn what_is_excluded_has_no_witness()
    ensures { (p : ProfileName) (q : Asking) (uses : List PartUse) (A : State) (calls : List Call) → HasNoWitness p q uses A calls }
{}

/// If a flow excludes it, no calls show it: there is never a witness and *excluded by flow* of one question.
pub fn what_a_flow_excludes_has_no_witness()
    ensures { (p : ProfileName) (q : Asking) (A : State) (calls : List Call) → HasNoWitnessByFlow p q A calls }
{}

/// What is excluded is never not excluded as well, of whatever parts that may be listed: so a line says *excluded* exactly if it is.
pub fn what_is_excluded_is_decided()
    ensures { (p : ProfileName) (q : Asking) (uses : List PartUse) (A : State) → IsOnlyOne p q uses A }
{}

/// Whatever calls the threads of still parts make, every slot stays as it is: they can do nothing but send and receive.
pub fn still_parts_change_no_slot()
    ensures { (p : ProfileName) (parts : Parts) (A : State) (calls : List Call) → ChangesNoSlot p parts A calls }
{}

/// What can happen between still parts: of two threads that are ready to pass, as all live threads of still parts are, each
/// message passes from the one to the other, by any endpoint to which the one's CNode holds a capability with Write and the other's
/// one with Read. It passes by sends of the one and receives of the other alone, whoever waits there before, and with that badge.
pub fn still_parts_can_pass()
    ensures { (p : ProfileName) (A : State) (endpoint from to : ℕ) (badge other : Badge) (message : Message) → CanPass p A endpoint from to badge other message }
{}

/// Between two still parts the answer of a message is exact: of two live threads that are not trusted, of two still ones of parts
/// that may be listed, a message is excluded, so that no calls show it; or sends of the one and receives of the other are enough to
/// show it.
pub fn still_parts_are_decided()
    ensures { (p : ProfileName) (q : Asking) (uses : List PartUse) (A : State) → IsDecided p q uses A }
{}

/// The same of a message with a badge that is asked for: no calls of threads that are not trusted show it, or sends of the one and
/// receives of the other are enough to show it.
pub fn still_parts_are_decided_with_badge()
    ensures { (p : ProfileName) (q : Asking) (uses : List PartUse) (A : State) → IsDecidedWithBadge p q uses A }
{}

/// If `never` answers `possible decided`, such a message happens: sends of the one thread and receives of the other are enough to show it.
pub fn what_is_told_decided_is_shown()
    ensures { (p : ProfileName) (q : Asking) (uses : List PartUse) (A : State) → IsToldDecided p q uses A }
{}
