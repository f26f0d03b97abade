//! Laws of the abstract kernel, for each state that runs reach. Nothing is done.
ghost use Rattle.std.specs.Prelude.{◌≤◌, List};
ghost use Rattle.cap_core.specs.declared.profile.ProfileName.{ProfileName};
ghost use Rattle.kernel_delete.specs.Housed.{IsHoused};
ghost use Rattle.ipc_core.specs.Records.{Instance};
ghost use Rattle.kernel_abstract.specs.declared.call.Call.{Call};
ghost use Rattle.kernel_abstract.specs.State.{State};
ghost use Rattle.kernel_abstract.specs.Step.{replies_of};
ghost use Rattle.kernel_abstract.specs.Deliveries.{DeliversPairs, IsUnused};
ghost use Rattle.kernel_abstract.specs.Reached.{IsReached};
ghost use Rattle.kernel_abstract.specs.Laws.{HasNobodyWaiting, StaysEnded, KeepsItsPairs, WaitsWhereOpen, TellsItsSenders, TellsItsReceivers, HasLiveSenders, HasLiveReceivers};

/// What an endpoint delivers in a run is one delivery for each pair that it gains of an accepted send and the accepted receive
/// at its place, in the order of the pairs.
pub fn each_pair_is_delivered_once()
    ensures { (p : ProfileName) (A : State) (calls : List Call) → IsReached p A → DeliversPairs p A calls (replies_of p A calls) }
{}

/// An endpoint that is made by the last call, or later, starts with no sends and no receives, whatever stood at its
/// address before.
pub fn new_endpoint_starts_empty()
    ensures { (p : ProfileName) (A : State) (e : Instance) → IsReached p A → A.count ≤ e.birth → IsUnused A e }
{}

/// On an endpoint that is not live nobody waits. One that was made at some time is never live again, and its pairs stay as
/// they are, whatever is called.
pub fn ended_endpoint_delivers_no_more()
    ensures nobody { (p : ProfileName) (A : State) (e : Instance) → HasNobodyWaiting p A e }
    ensures ended { (p : ProfileName) (A : State) (calls : List Call) (e : Instance) → StaysEnded p A calls e }
    ensures pairs { (p : ProfileName) (A : State) (calls : List Call) (e : Instance) → KeepsItsPairs p A calls e }
{}

/// What waits on an endpoint are its open records, and the state of each one's thread tells so. No open record is left out
/// by a search of the live endpoints alone.
pub fn waiting_threads_are_told()
    ensures waiting { (p : ProfileName) (A : State) (e : Instance) → WaitsWhereOpen p A e }
    ensures senders { (p : ProfileName) (A : State) (e : Instance) → TellsItsSenders p A e }
    ensures receivers { (p : ProfileName) (A : State) (e : Instance) → TellsItsReceivers p A e }
    ensures live_senders { (p : ProfileName) (A : State) (e : Instance) → HasLiveSenders p A e }
    ensures live_receivers { (p : ProfileName) (A : State) (e : Instance) → HasLiveReceivers p A e }
{}

/// Each full slot is a slot of a live CNode, or the root slot of a live thread.
pub fn full_slots_lie_in_live_objects()
    ensures { (p : ProfileName) (A : State) → IsReached p A → IsHoused p A.derivations }
{}
