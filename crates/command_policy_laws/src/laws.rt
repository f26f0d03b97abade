//! What it promises that a layout keeps to a policy. Nothing is done.
ghost use Rattle.std.specs.Prelude.{◌≡◌, ℕ, ◌==◌, true, false, List};
ghost use Rattle.cap_core.specs.declared.profile.ProfileName.{ProfileName};
ghost use Rattle.kernel_abstract.specs.declared.call.Reply.{Reply};
ghost use Rattle.kernel_abstract.specs.Shown.{Shown};
ghost use Rattle.kernel_abstract.specs.State.{State};
ghost use Rattle.query_parts.specs.declared.listed.PartMemory.{PartMemory};
ghost use Rattle.query_parts.specs.declared.listed.PartUse.{PartUse};
ghost use Rattle.query_parts.specs.Parts.{Parts};
ghost use Rattle.query_parts.specs.Ever.{AreConfinedEver};
ghost use Rattle.setup_format.specs.Views.{SetupView};
ghost use Rattle.command_parts.specs.declared.ways.Way.{Way};
ghost use Rattle.setup_policy.specs.declared.policy.Labels.{Labels};
ghost use Rattle.command_policy_breaches.specs.declared.held.Layout.{Layout};
ghost use Rattle.setup_policy.specs.declared.policy.Policy.{Policy};
ghost use Rattle.command_policy_text.specs.declared.told.Told.{Told};
ghost use Rattle.std.specs.Prelude.{Option};
ghost use Rattle.setup_format.specs.Views.{ReadView};
ghost use Rattle.command_policy_laws.specs.Audits.{WhatAuditPolicyPromises};
ghost use Rattle.command_policy_laws.specs.Broken.{WhatIsToldIsBroken};
ghost use Rattle.command_policy_laws.specs.Grants.{WhatIsJoinedIsClosed};
ghost use Rattle.command_policy_laws.specs.GrantsMet.{are_answered, are_given, AreAnswersKeptEver, AreGrantsKeptEver};
ghost use Rattle.command_policy_laws.specs.Held.{are_passages_let, AreWaysHeldEver};
ghost use Rattle.command_policy_laws.specs.Keeps.{LeastKeepMost, WhatIsKeptIsHeld};
ghost use Rattle.command_policy_laws.specs.Larger.{HoldNoLess};
ghost use Rattle.command_policy_laws.specs.Unbroken.{IsPromised, WhatIsNotToldIsKept, WhatIsNotToldIsNotTaken};

/// Where parts are confined, and ways let pass all that the one part may send and the other receive, then, whatever calls the threads
/// of the parts make, and whatever messages other threads send and receive: each message of a thread of the one that is delivered
/// to a thread of the other passes by an endpoint and with a badge that a way lets pass.
pub fn what_ways_let_is_delivered()
    ensures { (p : ProfileName) (memory : List PartMemory) (uses : List PartUse) (v : Shown) (ways : List Way) (i j : ℕ) →
        AreConfinedEver p memory uses v → (i == j) ≡ false → are_passages_let p memory uses v ways i j ≡ true →
        AreWaysHeldEver p memory uses v ways i j }
{}

/// Where Grant hands over capabilities, what it joins is closed: a part that can be given some by another one, by a message or by an
/// answer, has its number, also by way of third parts. So, whatever calls the threads of the parts make, and whatever messages other
/// threads send and receive: no slot of a part ever holds a capability with Grant by which something could be handed to a part with
/// another number.
pub fn what_is_joined_is_closed()
    ensures { (p : ProfileName) (c : Policy) (l : Layout) (v : Shown) → WhatIsJoinedIsClosed p c l v }
{}

/// Where parts are confined, and the one part could hand nothing to the other by an endpoint with Grant, then, whatever calls the
/// threads of the parts make: no slot of the one ever holds a capability with Write and Grant to an endpoint on which the other
/// may receive.
pub fn no_grant_leads_out()
    ensures { (p : ProfileName) (memory : List PartMemory) (uses : List PartUse) (v : Shown) (i j : ℕ) →
        are_given p memory uses v i j ≡ false → AreConfinedEver p memory uses v → AreGrantsKeptEver p memory uses v i j }
{}

/// Where parts are confined, and the one part could hand nothing to the other by an answer with Grant, then, whatever calls the threads
/// of the parts make: no slot of the one ever holds a capability with Read and Grant to an endpoint by which the other may call.
pub fn no_answer_leads_out()
    ensures { (p : ProfileName) (memory : List PartMemory) (uses : List PartUse) (v : Shown) (i j : ℕ) →
        are_answered p memory uses v i j ≡ false → AreConfinedEver p memory uses v → AreAnswersKeptEver p memory uses v i j }
{}

/// What may stand in a part may stand in each part in which it lies, and by what endpoint and badge it may send or receive, that part
/// may. So what is told of the least parts is so of all that are closed around the same threads.
pub fn larger_parts_hold_no_less()
    ensures { (p : ProfileName) (parts : Parts) (i : ℕ) (others : Parts) (j : ℕ) → HoldNoLess p parts i others j }
{}

/// Where some parts that are closed around the threads keep to a policy, the least parts do. So a breach that is told of the least
/// parts is one of every such family, and no smaller bound of this kind tells less. Where no slot of such parts stands below one of a
/// group that may not take from its own, none of the least parts does.
pub fn least_parts_keep_what_larger_keep()
    ensures { (p : ProfileName) (threads : List ℕ) (memory : List PartMemory) (uses : List PartUse) (v : Shown) →
        LeastKeepMost p threads memory uses v }
{}

/// What is told as a breach is one of all parts that are closed around the threads which the policy does not trust, and no smaller bound
/// of this kind is without it: where a line tells of a use in the part of a group's thread, of an endpoint in no part of this group, of
/// threads of two groups in one part, or of a way by a use to send and a use to receive, no such parts keep the policy, whatever groups
/// other threads have. Where one tells of a take, in all such parts a slot stands below one of a group that may not take from its own.
pub fn what_is_told_is_broken()
    ensures { (p : ProfileName) (c : Policy) (l : Layout) (A : State) → WhatIsToldIsBroken p c l A }
{}

/// Where confined parts keep to a policy, it is held to, whatever calls the threads of the parts make, and whatever messages other threads
/// send and receive: each slot of a thread's part holds what the thread's group may hold, and each delivery between threads of parts
/// that are of two groups is one that may pass.
pub fn what_is_kept_is_held()
    ensures { (p : ProfileName) (memory : List PartMemory) (uses : List PartUse) (v : Shown) → WhatIsKeptIsHeld p memory uses v }
{}

/// Where no line of the text tells of a breach, threads are of the groups that name them, and the parts keep the policy: this is the
/// premise of `what_is_kept_is_held`.
pub fn what_is_not_told_is_kept()
    ensures { (p : ProfileName) (c : Policy) (l : Layout) (n : Labels) (A : State) → WhatIsNotToldIsKept p c l n A }
{}

/// Where no line of the text tells of a breach of a policy of version 2, then, whatever calls the threads of the parts made before, and
/// whatever messages other threads sent and received: no call of a thread of a group changes what a slot of another group holds, unless
/// an entry of `take` is from the one to the other.
pub fn what_is_not_told_is_not_taken_by_a_group()
    ensures { (p : ProfileName) (c : Policy) (l : Layout) (n : Labels) (A : State) → WhatIsNotToldIsNotTaken p c l n A }
{}

/// Status 0 of `policy`. Where the verdict on a layout and a policy is `AllMet`, then, whatever calls the threads of the parts
/// make, and whatever messages other threads send and receive: each capability to an endpoint in a slot of a group's part is one that
/// the group's entries allow, with its badge and all its rights, or is to an endpoint in a region of the group or in its part's memory;
/// each message that is delivered between threads of two groups passes by an endpoint and with a badge that a way allows; and each
/// untyped region in a slot of a group's part lies in one of the group's regions. The threads that the policy names are of the groups that
/// name them; threads, CNodes and regions in a group's slots are its own, and its threads name no slot of another group. Where Grant
/// hands over capabilities, by no slot of a group's part can one be handed to the part of a thread of another group. In version 2 no call
/// of a thread of a group changes what a slot of another group holds, unless an entry of `take` is from the one to the other.
pub fn what_status_0_promises()
    ensures { (p : ProfileName) (c : Policy) (l : Layout) (n : Labels) (setup : SetupView) (replies : List Reply) (places : Told → List ℕ) (text : List ℕ) →
        IsPromised p c l n setup replies places text }
{}

/// `policy` with the verdict `AllMet`, which is status 0: the text is held to the policy that its bytes say, by the state behind as
/// many calls as are asked for, and what `what_status_0_promises` says is so of that state.
pub fn what_audit_policy_promises()
    ensures { (policy : List ℕ) (after : Option ℕ) (p : ProfileName) (read : ReadView) (text : List ℕ) →
        WhatAuditPolicyPromises policy after p read text }
{}
