//! The law of flows, for each state that runs reach. Nothing is done.
ghost use Rattle.std.specs.Prelude.{List};
ghost use Rattle.cap_core.specs.declared.profile.ProfileName.{ProfileName};
ghost use Rattle.kernel_abstract.specs.declared.call.Call.{Call};
ghost use Rattle.kernel_abstract.specs.State.{State};
ghost use Rattle.query_flow.specs.Flow.{Flow};
ghost use Rattle.query_flow.specs.Laws.{StayHeld, TellFlow};

/// Whatever calls threads make that are not trusted, and whatever others send and receive: by a settled flow each slot of a set
/// holds what may stand in the set. And each delivery that a reply shows is of a thread that may send so, to one that may
/// receive there, or of one that waited before these calls.
pub fn flows_stay_held()
    ensures held { (p : ProfileName) (flow : Flow) (A : State) (calls : List Call) → StayHeld p flow A calls }
    ensures deliveries { (p : ProfileName) (flow : Flow) (A : State) (calls : List Call) → TellFlow p flow A calls }
{}
