//! The kernel.
ghost use Rattle.std.specs.Prelude.{◌≡◌, ◌==◌, ℕ, false, Some, None, IfOk, option_map, slice_get, All, vec_len, vec_capacity, length, drop, map, ◌≤◌, ◌<◌, ◌+◌, ◌++◌};
ghost use Rattle.kernel_forest.specs.Entries.{slots, caps, cap_at as cap_held, derivations_of, first_child};
ghost use Rattle.std.specs.List.{IsDistinct};
ghost use Rattle.cap_core.specs.Objects.{is_null};
ghost use Rattle.cap_core.specs.declared.capability.Cap.{Cap};
ghost use Rattle.slot_core.specs.Calls.{derivation_view};
ghost use Rattle.kernel_delete.specs.Housed.{IsHoused};
ghost use Rattle.ipc_core.specs.Waits.{thread_of};
ghost use Rattle.kernel_abstract.specs.Shown.{state_at, inbox_at, waiting_at, has_child};
ghost use Rattle.kernel_abstract.specs.Decode.{decoded_call};
ghost use Rattle.kernel_abstract.specs.Private.Effects.{send_effect, receive_effect, effect_of, performed_effect, rearranged, objects_shown, IsReady, IsLiveEndpoint};
ghost use Rattle.kernel_abstract.specs.CNodes.{with_derived, with_moved};
ghost use Rattle.kernel_abstract.specs.Waiting.{AreStatesAndLists, IsNextWaiting, offer_at};
ghost use Rattle.kernel_abstract.specs.Memory.{IsInMemory, IsAligned};
ghost use Rattle.kernel_abstract.specs.Regions.{AreObjectsApart, IsForest};
ghost use Rattle.kernel_abstract.specs.Private.Invocations.{IsInvocation, IsRetype, IsDerivation, IsMove};
ghost use Rattle.cap_core.specs.declared.refusal.Refusal.{Refusal};
ghost use Rattle.kernel_abstract.specs.declared.call.Reply.TheVariants.{Done, Refused};
ghost use Rattle.kernel_abstract.specs.State.{State, shown};
ghost use Rattle.kernel_abstract.specs.Deliveries.{DeliversPairs};
ghost use Rattle.kernel_abstract.specs.Step.{replies_of, state_after};
ghost use Rattle.kernel_abstract.specs.Reached.{IsReached, StepsTo};

use crate::addresses::{is_endpoint_address, slot_within};
use crate::ending::Threads;
use crate::objects::{add_threads, make_objects};
use crate::placements::{derive_in, move_in};
use crate::rows::ThreadRow;
use cap_core::{Cap, Kind, Message, Profile, Refusal};
use ipc_core::{Offer, Received, Sent, Waiters};
use kernel_abstract::call::{Call, Inbox, Reply, ThreadState};
use kernel_abstract::invocation::{CapPlacement, Invocation, NewObjects, Service};
use kernel_checks::decode_op;
use kernel_delete::SlotChain;
use slot_core::{CapStore, Derivation, DerivationStore, Slot};
use std::alloc::{AllocError, Global};
use std::marker::Model;

/// The capability part of a kernel, over a store of capabilities and a store of waiting threads.
///
/// Contracts see a kernel as what it shows of its state: the derivation forest with its capabilities, what each live
/// thread does and received last, and the waiting list of each live endpoint.
#[derive(Drop)]
pub struct Kernel<P: Profile, S: CapStore<P>, W: Waiters<P>> {
    pub(crate) store: S,
    pub(crate) threads: Threads<P, W>,
    /// For slots that are cleared: a link for each slot of the memory, and no slot in it between calls.
    pub(crate) chain: SlotChain<P>,
}

impl<P: Profile, S: CapStore<P>, W: Waiters<P>> Model for Kernel<P, S, W> {
    ghost use Rattle.kernel_abstract.specs.Shown.{Shown};
    ghost use Rattle.std.specs.Coded.{codes};
    ghost use Rattle.std.specs.FinMap.{code as coded_map};
    ghost use Rattle.kernel_forest.specs.Evidence.Spelled.{coded_forest};

    ghost Value = { Shown };

    ghost coded = { Prim.hlevel (codes, coded_map, coded_forest) };

    ghost use Rattle.kernel_core.specs.Rows.{kernel_shown, IsBetweenCalls};

    ghost view = { λ a. kernel_shown P.profile (S.forest a.store) a.threads.rows (W.waits a.threads.waiters) };

    ghost invariant = { λ a. IsBetweenCalls P.profile a.threads.memory_bits (S.memory_bits a.store)
        (W.memory_bits a.threads.waiters) (S.forest a.store) a.threads.rows (W.waits a.threads.waiters) a.chain };
}

impl<P: Profile, S: CapStore<P>, W: Waiters<P>> Kernel<P, S, W> {
    /// Makes one call of one thread, whole (seL4 Reference Manual, on system calls and IPC), and answers it. It is
    /// refused, and nothing changes, by the first of these that fails:
    ///
    /// - `NoThread` where no live thread control block is at the address, `NotReady` where the thread is not ready;
    /// - `FailedLookup` with its kind where the word `cap`, all its bits, leads to no slot of the thread's capability
    ///   space;
    /// - `InvalidCapability` where that slot is empty, `IllegalOperation` where it holds a capability of another kind
    ///   than the operation asks for: an endpoint's to send and to receive, an untyped one to retype, a thread's to set
    ///   its space, to suspend and to resume it, a CNode's for the others;
    /// - `InvalidCapability` where an endpoint's capability lacks the right: to write for a send, to read for a receive.
    ///
    /// Those of a retype: `FailedLookup` where `root` leads to no slot; `InvalidArgument` where no kind has the number, and
    /// for a CNode without slots or an untyped region below the least size; `RangeError` where the size is beyond the profile
    /// or, with a depth, the depth is; `FailedLookup` where the CNode is not found, and `MissingCapability` where it is none;
    /// `RangeError` for slots that it does not have, and for no object or too many; `DeleteFirst` where a slot is full;
    /// `NotEnoughMemory` where the objects do not fit.
    ///
    /// Those of a copy, a mint, a move and a mutate: `FailedLookup` where `src_root` leads to no slot; `RangeError` for a
    /// depth beyond the profile, or `FailedLookup`, where the slot to fill is not found, and `DeleteFirst` where it is full;
    /// the same two where the source is not found, and `MissingCapability` where it is empty; `IllegalOperation` where its
    /// data cannot be set, `RevokeFirst` where an untyped one has children and is derived from.
    ///
    /// Those of a delete, a revoke and a cancelling of badged sends: `RangeError` for a depth beyond the profile, or
    /// `FailedLookup`, where the slot is not found; of the last `IllegalOperation` where the slot does not hold an
    /// endpoint's capability with all rights. Those of the setting of a space: `FailedLookup` where `root` leads to no
    /// slot, `IllegalOperation` where that does not hold a CNode's capability or its guard cannot be set. A thread may
    /// end itself by a call: it is answered `Done`.
    ///
    /// For a kernel that stands for a state that runs reach, the reply and what is shown after are those of the abstract
    /// step. It takes no memory.
    pub fn step(&mut self, call: Call) -> Reply
        ensures stands { (A : State) → IsReached P.profile A → self.old ≡ shown A → StepsTo P.profile A call result self.new }
        ensures refused { (refusal : Refusal) → result ≡ Refused refusal → self.new ≡ self.old }
        ensures within { (memory : ℕ) → IsInMemory P.profile memory self.old → IsInMemory P.profile memory self.new }
    {
        self.perform(&call)
    }

    /// Makes calls in order, and appends the reply to each to `replies`, which has room for them.
    ///
    /// For a kernel that stands for a state that runs reach, the replies and what is shown after are those of the abstract
    /// run. By these replies each endpoint, while it is live, delivers one message for each pair that it gains of an accepted
    /// send and the accepted receive at its place, in the order of the pairs, with the badge that the send kept; after boot
    /// there are no pairs. Whatever the calls, the live objects are disjoint, or one is an untyped region around the other, and
    /// what is made in an untyped region ends within what is used of it; and each full slot is a slot of a live CNode, or the
    /// root slot of a live thread. It takes no memory.
    #[tactic(auto, unfolding(kernel_abstract::specs::Step::replies_of, kernel_abstract::specs::Step::state_after))]
    pub fn run(&mut self, calls: &[Call], replies: &mut Vec<Reply>)
        requires room { vec_len replies.old + length calls.now ≤ vec_capacity replies.old }
        ensures replies { (A : State) → IsReached P.profile A → self.old ≡ shown A → replies.new.items ≡ replies.old.items ++ replies_of P.profile A calls.now }
        ensures stands { (A : State) → IsReached P.profile A → self.old ≡ shown A → self.new ≡ shown (state_after P.profile A calls.now) }
        ensures in_order { (A : State) → IsReached P.profile A → self.old ≡ shown A → DeliversPairs P.profile A calls.now (drop (length replies.old.items) replies.new.items) }
        ensures apart { AreObjectsApart P.profile self.new.derivations }
        ensures housed { IsHoused P.profile self.new.derivations }
        ensures within { (memory : ℕ) → IsInMemory P.profile memory self.old → IsInMemory P.profile memory self.new }
    {
        for call in calls {
            let reply = self.step(*call);
            replies.push_reserved(reply);
        }
        self.keeps_objects();
    }

    /// What each kernel keeps: its objects lie apart, and each of its full slots lies in a live CNode or thread. Nothing is
    /// done; a caller of `step` learns it by this call.
    pub fn keeps_objects(&self)
        ensures apart { AreObjectsApart P.profile self.now.derivations }
        ensures housed { IsHoused P.profile self.now.derivations }
    {
        let _ = &self.store;
    }

    fn perform(&mut self, call: &Call) -> Reply
        ensures reply { result ≡ (effect_of P.profile self.old call.now).reply }
        ensures after { self.new ≡ (effect_of P.profile self.old call.now).after }
        ensures within { (memory : ℕ) → IsInMemory P.profile memory self.old → IsInMemory P.profile memory self.new }
    {
        match self.decode_call(call) {
            Err(refusal) => Reply::Refused(refusal),
            Ok(invocation) => self.perform_invocation(call.thread, invocation),
        }
    }

    /// Does what a call whose checks passed asks for.
    fn perform_invocation(&mut self, thread: u64, invocation: Invocation) -> Reply
        requires ready { IsReady self.old thread }
        requires invocation { IsInvocation P.profile self.old invocation }
        requires forest { IsForest P.profile self.old.derivations }
        ensures reply { result ≡ (performed_effect P.profile self.old thread invocation).reply }
        ensures after { self.new ≡ (performed_effect P.profile self.old thread invocation).after }
        ensures within { (memory : ℕ) → IsInMemory P.profile memory self.old → IsInMemory P.profile memory self.new }
    {
        match invocation {
            Invocation::Send {
                service,
                message,
                block,
            } => self.send(thread, service, message, block),
            Invocation::Receive { service, block } => self.recv(thread, service, block),
            Invocation::Retype(new) => self.retype(new),
            Invocation::Derive(placement) => self.derive(placement),
            Invocation::Move(placement) => self.relocate(placement),
            Invocation::Delete(slot) => self.delete(slot),
            Invocation::Revoke(slot) => self.revoke(slot),
            Invocation::CancelBadged(service) => self.cancel_badged(service),
            Invocation::SetSpace(new) => self.set_space(new),
            Invocation::Suspend(tcb) => self.suspend(tcb),
            Invocation::Resume(tcb) => self.resume(tcb),
        }
    }

    /// The first check that fails, or what the call does.
    fn decode_call(&self, call: &Call) -> Result<Invocation, Refusal>
        ensures invocation { result ≡ decoded_call P.profile self.now call.now }
        ensures lawful { IfOk result (IsInvocation P.profile self.now) }
        ensures ready { IfOk result (λ (t : Invocation). IsReady self.now call.now.thread) }
        ensures forest { IfOk result (λ (t : Invocation). IsForest P.profile self.now.derivations) }
    {
        match self.thread_state(call.thread).ok_or(Refusal::NoThread)? {
            ThreadState::Ready => decode_op::<P, S>(&self.store, call.thread, &call.op),
            _ => Err(Refusal::NotReady),
        }
    }

    /// Makes objects in an untyped region, and puts their capabilities.
    fn retype(&mut self, new: NewObjects) -> Reply
        requires { IsRetype P.profile self.old.derivations new }
        ensures reply { result ≡ Done }
        ensures after { self.new ≡ objects_shown P.profile self.old new }
    {
        make_objects::<P, S>(&mut self.store, new);
        match new.shape.kind {
            Kind::Tcb => add_threads::<P>(&mut self.threads.rows, new.placed, new.count),
            Kind::Untyped | Kind::Endpoint | Kind::CNode => {}
        }
        Reply::Done
    }

    /// Derives a capability from the one in a slot. An untyped region is used up where it is handed on.
    fn derive(&mut self, placement: CapPlacement) -> Reply
        requires { IsDerivation P.profile self.old.derivations placement }
        ensures reply { result ≡ Done }
        ensures after { self.new ≡ rearranged self.old (with_derived P.profile placement self.old.derivations) }
    {
        derive_in::<P, S>(&mut self.store, placement);
        Reply::Done
    }

    /// Moves a capability from one slot to another.
    fn relocate(&mut self, placement: CapPlacement) -> Reply
        requires { IsMove P.profile self.old.derivations placement }
        ensures reply { result ≡ Done }
        ensures after { self.new ≡ rearranged self.old (with_moved placement self.old.derivations) }
    {
        move_in::<P, S>(&mut self.store, placement);
        Reply::Done
    }

    /// Sends, and where no receiver waits either waits, with `block`, or is dropped.
    fn send(&mut self, thread: u64, service: Service, message: Message, block: bool) -> Reply
        requires ready { IsReady self.old thread }
        requires live { IsLiveEndpoint self.old service.endpoint }
        ensures reply { result ≡ (send_effect self.old thread service message block (waiting_at self.old service.endpoint)).reply }
        ensures after { self.new ≡ (send_effect self.old thread service message block (waiting_at self.old service.endpoint)).after }
    {
        let Service { endpoint, badge } = service;
        match self
            .threads
            .waiters
            .send(endpoint, thread, badge, message, block)
        {
            Sent::Delivered { to } => {
                let inbox = Some(Inbox { badge, message });
                let row = ThreadRow {
                    inactive: false,
                    inbox,
                };
                self.threads.rows.set_row::<P>(to, row);
                Reply::Delivered {
                    endpoint,
                    from: thread,
                    to,
                    badge,
                    message,
                }
            }
            Sent::Waiting => Reply::Waiting,
            Sent::Dropped => Reply::Dropped,
        }
    }

    /// Receives, and where no sender waits either waits, with `block`, or gets nothing.
    fn recv(&mut self, thread: u64, service: Service, block: bool) -> Reply
        requires ready { IsReady self.old thread }
        requires live { IsLiveEndpoint self.old service.endpoint }
        ensures reply { result ≡ (receive_effect self.old thread service block (waiting_at self.old service.endpoint)).reply }
        ensures after { self.new ≡ (receive_effect self.old thread service block (waiting_at self.old service.endpoint)).after }
    {
        let endpoint = service.endpoint;
        match self.threads.waiters.recv(endpoint, thread, block) {
            Received::Delivered {
                from,
                badge,
                message,
            } => {
                let inbox = Some(Inbox { badge, message });
                let row = ThreadRow {
                    inactive: false,
                    inbox,
                };
                self.threads.rows.set_row::<P>(thread, row);
                Reply::Delivered {
                    endpoint,
                    from,
                    to: thread,
                    badge,
                    message,
                }
            }
            Received::Waiting => Reply::Waiting,
            Received::Empty => Reply::Empty,
        }
    }

    /// What a thread does, or `None` where no live thread control block is at the address. It takes no memory.
    pub fn thread_state(&self, tcb: u64) -> Option<ThreadState>
        ensures { result ≡ state_at self.now tcb }
    {
        let row = self.threads.rows.row_at::<P>(tcb)?;
        Some(row.state(self.threads.waiters.role(tcb)))
    }

    /// The last message that was delivered to a thread since it was made, with its badge; `None` where there is none, and
    /// where no live thread control block is at the address. It takes no memory.
    pub fn inbox(&self, tcb: u64) -> Option<Inbox>
        ensures { result ≡ inbox_at self.now tcb }
    {
        self.threads.rows.row_at::<P>(tcb)?.inbox
    }

    /// What a thread sends that waits to send, with the badge that it kept; `None` where it does not wait to send, and
    /// where no live thread control block is at the address. It takes no memory.
    pub fn offer(&self, tcb: u64) -> Option<Offer>
        ensures { result ≡ offer_at self.now tcb }
    {
        self.threads.rows.row_at::<P>(tcb)?;
        self.threads.waiters.offer(tcb)
    }

    /// The capability that the slot at an address holds: `Null` where the slot is empty, and where no slot can stand at
    /// the address. Each full slot of a kernel stands at a multiple of a slot's size. It takes no memory.
    pub fn cap_at(&self, slot: u64) -> Cap
        ensures cap { result ≡ cap_held self.now.derivations slot }
        ensures aligned { All (IsAligned P.profile) (slots self.now.derivations) }
    {
        match slot_within::<P>(self.threads.memory_bits, slot) {
            Some(slot) => self.store.get(slot),
            None => Cap::Null,
        }
    }

    /// The slot whose capability was derived last from the one in the slot at an address, of those that still stand. It takes
    /// no memory.
    pub fn first_child(&self, slot: u64) -> Option<u64>
        ensures { result ≡ first_child slot self.now.derivations }
    {
        let slot = slot_within::<P>(self.threads.memory_bits, slot)?;
        let child = self.store.first_child(slot)?;
        Some(child.address::<P>())
    }

    /// Whether a capability was derived from the one in the slot at an address, and still stands. It takes no memory.
    pub fn has_children(&self, slot: u64) -> bool
        ensures { result ≡ has_child slot self.now.derivations }
    {
        self.first_child(slot).is_some()
    }

    /// The thread that waits at a place of an endpoint's waiting list, 0 the first; `None` past its end, and where no
    /// live endpoint is at the address. Of each kernel, who waits on an endpoint is shown to do there what the list has it
    /// do, once, a thread that is shown to wait is in the list, and all in one list send, or all receive. It takes no memory.
    pub fn waiting(&self, endpoint: u64, place: u64) -> Option<u64>
        ensures thread { result ≡ option_map thread_of (slice_get (waiting_at self.now endpoint) place) }
        ensures agree { AreStatesAndLists self.now }
    {
        if is_endpoint_address::<P>(self.threads.memory_bits, endpoint) {
            self.threads.waiters.waiting(endpoint, place)
        } else {
            None
        }
    }

    /// The thread that waits behind another one, on the same endpoint: a waiting list is read from its first thread on,
    /// each thread in turn. `None` where that thread is the last, or waits nowhere. It takes no memory.
    pub fn next_waiting(&self, tcb: u64) -> Option<u64>
        ensures { IsNextWaiting self.now tcb result }
    {
        self.threads.rows.row_at::<P>(tcb)?;
        self.threads.waiters.next_waiting(tcb)
    }
}

impl<P: Profile, S: DerivationStore<P>, W: Waiters<P>> Kernel<P, S, W> {
    /// All full slots, each with its capability, whether that is original, and the slot that it is derived from, found in
    /// one walk; each comes before those that are derived from it. It takes memory for them.
    pub fn derivations(&self, alloc: Global) -> Result<Vec<Derivation>, AllocError>
        ensures list { IfOk result (λ d. map (derivation_view P.profile) d.items ≡ derivations_of self.now.derivations) }
        ensures apart { IsDistinct (λ (a b : ℕ). a == b) (slots self.now.derivations) }
        ensures full { All (λ (cap : Cap). is_null cap ≡ false) (caps self.now.derivations) }
    {
        self.store.derivations(alloc)
    }
}
