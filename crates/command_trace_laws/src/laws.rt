//! Laws of a trace's lines, however objects and slots are told. Nothing is done.
ghost use Rattle.std.specs.Prelude.{◌≡◌, ℕ, List, [], ◌∷◌, map};
ghost use Rattle.std.specs.List.{flat_map};
ghost use Rattle.cap_core.specs.declared.profile.ProfileName.{ProfileName};
ghost use Rattle.cap_core.specs.declared.refusal.Refusal.{Refusal};
ghost use Rattle.kernel_abstract.specs.declared.call.Call.{Call};
ghost use Rattle.kernel_abstract.specs.declared.call.Reply.TheVariants.{Dropped, Empty, Refused};
ghost use Rattle.kernel_abstract.specs.Boot.{boot};
ghost use Rattle.kernel_abstract.specs.Plan.{IsPlan, Plan};
ghost use Rattle.kernel_abstract.specs.Reached.{IsReached};
ghost use Rattle.kernel_abstract.specs.Shown.{Shown};
ghost use Rattle.kernel_abstract.specs.State.{State, shown};
ghost use Rattle.kernel_abstract.specs.Step.{state_after, step};
ghost use Rattle.kernel_forest.specs.Forest.{Forest, children, tops};
ghost use Rattle.kernel_forest.specs.Entries.{Entry, is_at, slot_of};
ghost use Rattle.setup_report.specs.Naming.{Texts, plain};
ghost use Rattle.command_trace.specs.Lines.{Lines};
ghost use Rattle.command_trace.specs.Siblings.{sibling_lines};
ghost use Rattle.command_trace.specs.Changes.{StateLines, changes, line_changes, no_lines, lines_of_state};
ghost use Rattle.command_trace_laws.specs.Laws.{Rise, all_changes, applied, backwards, boot_differences, differences, flipped, of_slots, order_differences, order_in, replayed, run_differences, state_applied, state_differences, state_flipped, state_told, difference_text, TellsTheOrder, TellsTheThreads, TellsTheEndpoints, TellsTheSlots, TellsTheSlotLines, TellsTheCapabilities, TellsTheSelfheld};
ghost use Rattle.command_trace.specs.Calls.{call_changes, lines_in};

/// The changes that are told of lines, applied to the old ones, give the new ones; and so with all lines of two states.
/// The changes of boot and of any calls behind it, applied one after another to nothing, give the lines of the state
/// after those calls.
pub fn changes_give_the_lines_after()
    ensures told { (old new : Lines) → line_changes old new ≡ flat_map difference_text (differences old new) }
    ensures applied { (old new : Lines) → Rise old → Rise new → applied old (differences old new) ≡ new }
    ensures told_of_states { (old new : StateLines) → changes old new ≡ state_told (state_differences old new) }
    ensures applied_to_states { (texts : Texts) (p : ProfileName) (v w : Shown)
        → state_applied (lines_of_state texts p v) (state_differences (lines_of_state texts p v) (lines_of_state texts p w)) ≡ lines_of_state texts p w }
    ensures replayed { (texts : Texts) (p : ProfileName) (plan : Plan) (calls : List Call)
        → replayed no_lines (boot_differences texts p plan ∷ run_differences texts p (boot p plan) calls)
        ≡ lines_in texts p (state_after p (boot p plan) calls) }
{}

/// The changes lead back as well: turned round, and applied to the new lines, they give the old ones; and so with all
/// lines of two states. Those of any calls and of the boot before them, turned round and applied one after another, the
/// last one first, to the lines of the state after the calls, leave no lines.
pub fn changes_lead_back()
    ensures applied { (old new : Lines) → Rise old → Rise new → applied new (map flipped (differences old new)) ≡ old }
    ensures applied_to_states { (texts : Texts) (p : ProfileName) (v w : Shown)
        → state_applied (lines_of_state texts p w) (state_flipped (state_differences (lines_of_state texts p v) (lines_of_state texts p w)))
        ≡ lines_of_state texts p v }
    ensures replayed { (texts : Texts) (p : ProfileName) (plan : Plan) (calls : List Call)
        → replayed (lines_in texts p (state_after p (boot p plan) calls))
        (backwards (boot_differences texts p plan ∷ run_differences texts p (boot p plan) calls))
        ≡ no_lines }
{}

/// What a trace tells of a state that a run reaches is what the report tells of it: the lines of endpoints and of
/// CNodes that hold themselves are the report's, and the lines of threads and of slots are of the same threads and
/// slots. The report's line of a slot tells no more of it than the trace's: its `children` stands where some slot is
/// under it. It tells the capability that the slot holds, and whether the slot has a child.
pub fn lines_are_those_of_the_report()
    ensures threads { (texts : Texts) (p : ProfileName) (A : State) → IsReached p A → TellsTheThreads texts p (shown A) }
    ensures endpoints { (texts : Texts) (p : ProfileName) (A : State) → IsReached p A → TellsTheEndpoints texts p (shown A) }
    ensures slots { (texts : Texts) (p : ProfileName) (A : State) → IsReached p A → TellsTheSlots texts (shown A) }
    ensures slot_lines { (texts : Texts) (p : ProfileName) (A : State) → IsReached p A → TellsTheSlotLines texts (shown A) }
    ensures capabilities { (texts : Texts) (p : ProfileName) (A : State) → IsReached p A → TellsTheCapabilities texts (shown A) }
    ensures selfheld { (texts : Texts) (p : ProfileName) (A : State) → IsReached p A → TellsTheSelfheld texts p (shown A) }
{}

/// A call that is refused changes nothing, nor does a send that is dropped, nor a receive that finds nothing.
pub fn calls_without_effect_change_nothing()
    ensures refused { (texts : Texts) (p : ProfileName) (A : State) (call : Call) (refusal : Refusal)
        → (step p A call).reply ≡ Refused refusal → call_changes texts p A call ≡ [] }
    ensures dropped { (texts : Texts) (p : ProfileName) (A : State) (call : Call)
        → (step p A call).reply ≡ Dropped → call_changes texts p A call ≡ [] }
    ensures empty { (texts : Texts) (p : ProfileName) (A : State) (call : Call)
        → (step p A call).reply ≡ Empty → call_changes texts p A call ≡ [] }
{}

/// The order of siblings is told as the lines of a state are: its changes, applied to the order before them, give the one
/// after them, and they lead back. Those of boot and of any calls behind it, applied one after another to none, give the
/// order after those calls. With the order too, a call that is refused changes nothing, nor does a send that is dropped, nor
/// a receive that finds nothing.
pub fn order_is_told_as_lines_are()
    ensures applied { (texts : Texts) (f g : Forest Entry)
        → applied (sibling_lines texts f) (differences (sibling_lines texts f) (sibling_lines texts g)) ≡ sibling_lines texts g }
    ensures back { (texts : Texts) (f g : Forest Entry)
        → applied (sibling_lines texts g) (map flipped (differences (sibling_lines texts f) (sibling_lines texts g))) ≡ sibling_lines texts f }
    ensures replayed { (texts : Texts) (p : ProfileName) (plan : Plan) (calls : List Call)
        → applied [] (order_differences texts p plan calls) ≡ order_in texts (state_after p (boot p plan) calls) }
    ensures refused { (texts : Texts) (p : ProfileName) (A : State) (call : Call) (refusal : Refusal)
        → (step p A call).reply ≡ Refused refusal → all_changes texts p A call ≡ [] }
    ensures dropped { (texts : Texts) (p : ProfileName) (A : State) (call : Call)
        → (step p A call).reply ≡ Dropped → all_changes texts p A call ≡ [] }
    ensures empty { (texts : Texts) (p : ProfileName) (A : State) (call : Call)
        → (step p A call).reply ≡ Empty → all_changes texts p A call ≡ [] }
{}

/// In each state that a run reaches, the order of siblings is the kernel's: the children of a slot, the first of which a
/// revoke of the slot clears first, stand one behind another, and so do the slots that stand below none.
pub fn siblings_stand_in_the_kernels_order()
    ensures children { (p : ProfileName) (A : State) → IsReached p A → (slot : ℕ)
        → TellsTheOrder (shown A).derivations (map slot_of (children (is_at slot) (shown A).derivations)) }
    ensures trees { (p : ProfileName) (A : State) → IsReached p A
        → TellsTheOrder (shown A).derivations (map slot_of (tops (shown A).derivations)) }
{}

/// The lines of slots and those of siblings, by addresses, tell the whole derivation forest, each full slot in its place with
/// what it holds: two states that runs reach have the same forest, if these lines are the same; and so it is with two runs,
/// if what boot and the calls change of these lines is the same.
pub fn lines_tell_the_forest()
    ensures states { (p : ProfileName) (A B : State) → IsReached p A → IsReached p B
        → (lines_in plain p A).slots ≡ (lines_in plain p B).slots → order_in plain A ≡ order_in plain B
        → (shown A).derivations ≡ (shown B).derivations }
    ensures runs { (p : ProfileName) (plan other : Plan) (calls others : List Call) → IsPlan p plan → IsPlan p other
        → of_slots (boot_differences plain p plan ∷ run_differences plain p (boot p plan) calls)
        ≡ of_slots (boot_differences plain p other ∷ run_differences plain p (boot p other) others)
        → order_differences plain p plan calls ≡ order_differences plain p other others
        → (shown (state_after p (boot p plan) calls)).derivations
        ≡ (shown (state_after p (boot p other) others)).derivations }
{}
