//! Laws of confinement, for each state that runs reach. Nothing is done.
ghost use Rattle.std.specs.Prelude.{ℕ, List};
ghost use Rattle.cap_core.specs.declared.profile.ProfileName.{ProfileName};
ghost use Rattle.kernel_abstract.specs.declared.call.Call.{Call};
ghost use Rattle.kernel_abstract.specs.State.{State};
ghost use Rattle.kernel_forest.specs.Forest.{Forest};
ghost use Rattle.kernel_forest.specs.Entries.{Entry};
ghost use Rattle.kernel_abstract.specs.Shown.{Shown};
ghost use Rattle.query_parts.specs.declared.listed.PartMemory.{PartMemory};
ghost use Rattle.query_parts.specs.declared.listed.PartUse.{PartUse};
ghost use Rattle.query_parts.specs.Parts.{Parts};
ghost use Rattle.query_parts.specs.Laws.{StaysClosed, LeavesOthers, TakesOnlyNear, NamesItsOwn, StayClosed, SendWithin, ReceiveWithin, SendByParts, ReceiveByParts, LiveThreadsAreAddressed, JoinedAreClosed};
ghost use Rattle.query_parts.specs.Least.{LieInEachOther};
ghost use Rattle.query_parts.specs.Below.{TakesNothing, TakesNothingOutside, StayNoneBelow, StayOwnBelow};
ghost use Rattle.query_parts.specs.Delivered.{DeliverWithin, TellWithin};
ghost use Rattle.query_parts.specs.Passing.{GetsNothing, SendsByHeld};
ghost use Rattle.query_parts.specs.Regions.{RegionsStayWithin};

/// A call of a thread of a closed part leaves the part closed, and each slot outside it as it was, or empty. It
/// empties none outside but of an object of the part, or of an endpoint that the part may use.
pub fn calls_keep_within_their_part()
    ensures closed { (p : ProfileName) (parts : Parts) (i : ℕ) (A : State) (call : Call) → StaysClosed p parts i A call }
    ensures others { (p : ProfileName) (parts : Parts) (i : ℕ) (A : State) (call : Call) → LeavesOthers p parts i A call }
    ensures taken { (p : ProfileName) (parts : Parts) (i : ℕ) (A : State) (call : Call) → TakesOnlyNear p parts i A call }
{}

/// Whatever calls the threads of closed parts make, in whatever order, every part stays closed. What they send they may
/// send, by that endpoint and with that badge, and what they receive they may receive. If all calls are of threads that lie
/// in the parts, each new send and each new receive is of such a thread.
pub fn closed_parts_stay_closed()
    ensures closed { (p : ProfileName) (parts : Parts) (A : State) (calls : List Call) → StayClosed p parts A calls }
    ensures sends { (p : ProfileName) (parts : Parts) (A : State) (calls : List Call) → SendWithin p parts A calls }
    ensures receives { (p : ProfileName) (parts : Parts) (A : State) (calls : List Call) → ReceiveWithin p parts A calls }
    ensures sends_by_parts { (p : ProfileName) (parts : Parts) (A : State) (calls : List Call) → SendByParts p parts A calls }
    ensures receives_by_parts { (p : ProfileName) (parts : Parts) (A : State) (calls : List Call) → ReceiveByParts p parts A calls }
{}

/// Whatever calls the threads of closed parts make, each delivery that a reply shows is of a send that the part of its
/// thread may make, by that endpoint and with that badge, or that waited before these calls; and it is to a thread whose
/// part may receive on that endpoint, or that waited to receive there before these calls.
pub fn deliveries_stay_within_uses()
    ensures records { (p : ProfileName) (parts : Parts) (A : State) (calls : List Call) → DeliverWithin p parts A calls }
    ensures replies { (p : ProfileName) (parts : Parts) (A : State) (calls : List Call) → TellWithin p parts A calls }
{}

/// A thread of a closed part names no slot outside the part: neither by a word, nor by an index and a depth from the capability
/// that a word leads to. So what may not stand in the part no call of its threads can use.
pub fn threads_name_slots_of_their_part()
    ensures { (p : ProfileName) (parts : Parts) (i : ℕ) (f : Forest Entry) (thread : ℕ) → NamesItsOwn p parts i f thread }
{}

/// The least parts around some threads are the only ones, but for how they are listed: two such families lie in each other.
pub fn least_parts_are_the_same()
    ensures { (p : ProfileName) (threads : List ℕ) (v : Shown) (memory : List PartMemory) (uses : List PartUse) (memory' : List PartMemory) (uses' : List PartUse) →
        LieInEachOther p threads v memory uses memory' uses' }
{}

/// Each address of a live thread's control block is a word. So `parts_around` answers no `Block` if it is asked of live
/// threads.
pub fn live_threads_are_addressed()
    ensures { (p : ProfileName) (memory : ℕ) (v : Shown) → LiveThreadsAreAddressed p memory v }
{}

/// If no full slot of part j stands below a slot of part i in the derivation forest, a call of part i leaves each slot of
/// part j as it is: no revoke and no delete takes from it. And whatever calls the threads of closed parts make, it stays so.
/// The same holds of all slots outside part i, if only slots of part i stand below its slots.
pub fn revokes_take_what_stands_below()
    ensures taken { (p : ProfileName) (parts : Parts) (i j : ℕ) (A : State) (call : Call) → TakesNothing p parts i j A call }
    ensures outside { (p : ProfileName) (parts : Parts) (i : ℕ) (A : State) (call : Call) → TakesNothingOutside p parts i A call }
    ensures stays { (p : ProfileName) (parts : Parts) (i j : ℕ) (A : State) (calls : List Call) → StayNoneBelow p parts i j A calls }
    ensures stays_outside { (p : ProfileName) (parts : Parts) (i : ℕ) (A : State) (calls : List Call) → StayOwnBelow p parts i A calls }
{}

/// If each slot of a part's CNodes holds an endpoint's capability or none, the part only passes messages. Whatever calls the
/// threads of closed parts make, of whatever parts, and whatever messages others send and receive: each slot of such a part holds
/// what it held, or nothing, if a revoke or a delete in another part has emptied it. And what its threads send they send by a
/// capability that a slot of the part held in the beginning, with its badge.
pub fn parts_that_pass_messages_get_nothing()
    ensures slots { (p : ProfileName) (parts : Parts) (i : ℕ) (A : State) (calls : List Call) → GetsNothing p parts i A calls }
    ensures sends { (p : ProfileName) (parts : Parts) (i : ℕ) (A : State) (calls : List Call) → SendsByHeld p parts i A calls }
{}

/// Whatever calls the threads of closed parts make, and whatever messages others send and receive: each capability in a slot of a part
/// is to an object that a slot of the part named before, or that lies in an untyped region which a slot of the part held before. So the
/// untyped regions of a part stay within those that it held.
pub fn regions_stay_within()
    ensures { (p : ProfileName) (parts : Parts) (i : ℕ) (A : State) (calls : List Call) → RegionsStayWithin p parts i A calls }
{}

/// If parts are closed, and several of them are joined into one, which has the memory of each and may use what each of them may, the
/// joined parts are closed, too. So all that holds of closed parts holds of joined ones.
pub fn joined_parts_are_closed()
    ensures { (p : ProfileName) (to : ℕ → ℕ) (parts joined : Parts) (A : State) → JoinedAreClosed p to parts joined A }
{}
