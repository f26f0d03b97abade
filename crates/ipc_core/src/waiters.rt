//! What holds the threads that wait.
ghost use Rattle.std.specs.Prelude.{◌≡◌, ℕ, true, false, List, ◌≤◌, None, IfOk, option_map, slice_get};
ghost use Rattle.ipc_core.specs.Records.{SendRecord, ReceiveRecord, waiting_list};
ghost use Rattle.ipc_core.specs.Waits.{Waits, no_waits, IsEndpointAddress, IsThreadAddress, sent, after_send, received, after_receive, thread_of, IsNextBehind};
ghost use Rattle.ipc_core.specs.Offers.{offer_of};
ghost use Rattle.ipc_core.specs.Agreement.{AreRolesAndQueues};
ghost use Rattle.ipc_core.specs.Pairing.{SendsBy, ReceivesBy};
ghost use Rattle.ipc_core.specs.Cancelled.{after_cancel_thread, after_cancel_badge, after_cancel_endpoint, waiting_less, is_sent_by, is_received_by, is_sent_with};

use crate::waiter::{Offer, Received, Role, Sent};
use cap_core::limits::{MAX_MEMORY_BITS, MIN_MEMORY_BITS};
use cap_core::{Badge, Message, Profile};
use std::alloc::{AllocError, Global};

/// The threads that wait on endpoints (seL4 Reference Manual, on endpoints), by the addresses of both.
///
/// Contracts see who waits where, in what order, and the bits of the memory's size. No call takes memory. Whoever waits on an
/// endpoint has the role of waiting there, once, and a thread with a role waits where the role says. All that wait on one
/// endpoint send, or all receive.
/// An endpoint's address is a multiple of its size within the memory, and a thread's likewise.
pub trait Waiters<P: Profile> {
    ghost waits: { Self → Waits };

    ghost memory_bits: { Self → ℕ };

    /// Sends by a thread that waits nowhere: to the receiver that waited first, and where none does the sender waits,
    /// with `block`, or nothing happens.
    fn send(
        &mut self,
        endpoint: u64,
        thread: u64,
        badge: Badge,
        message: Message,
        block: bool,
    ) -> Sent
        requires endpoint { IsEndpointAddress P.profile (memory_bits self.old) endpoint }
        requires thread { IsThreadAddress P.profile (memory_bits self.old) thread }
        requires free { (waits self.old).role thread ≡ None }
        ensures answer { result ≡ sent block endpoint (waits self.old) }
        ensures waits { waits self.new ≡ after_send block endpoint thread badge message (waits self.old) }
        ensures histories { (s : SendRecord) (sends : List SendRecord) (receives : List ReceiveRecord) → s.thread.base ≡ thread → s.badge ≡ badge → s.message ≡ message → (waits self.old).queue endpoint ≡ waiting_list sends receives → SendsBy block s sends receives result ((waits self.new).queue endpoint) }
        ensures memory { memory_bits self.new ≡ memory_bits self.old };

    /// Receives by a thread that waits nowhere: from the sender that waited first, and where none does the receiver
    /// waits, with `block`, or nothing happens.
    fn recv(&mut self, endpoint: u64, thread: u64, block: bool) -> Received
        requires endpoint { IsEndpointAddress P.profile (memory_bits self.old) endpoint }
        requires thread { IsThreadAddress P.profile (memory_bits self.old) thread }
        requires free { (waits self.old).role thread ≡ None }
        ensures answer { result ≡ received block endpoint (waits self.old) }
        ensures waits { waits self.new ≡ after_receive block endpoint thread (waits self.old) }
        ensures histories { (a : ReceiveRecord) (sends : List SendRecord) (receives : List ReceiveRecord) → a.thread.base ≡ thread → (waits self.old).queue endpoint ≡ waiting_list sends receives → ReceivesBy block a sends receives result ((waits self.new).queue endpoint) }
        ensures memory { memory_bits self.new ≡ memory_bits self.old };

    /// A thread waits no more, wherever it did; one that waits nowhere is no error.
    fn cancel_thread(&mut self, thread: u64)
        requires { IsThreadAddress P.profile (memory_bits self.old) thread }
        ensures waits { waits self.new ≡ after_cancel_thread thread (waits self.old) }
        ensures histories { (endpoint : ℕ) (sends : List SendRecord) (receives : List ReceiveRecord) → (waits self.old).queue endpoint ≡ waiting_list sends receives → (waits self.new).queue endpoint ≡ waiting_less (is_sent_by thread) (is_received_by thread) sends receives }
        ensures memory { memory_bits self.new ≡ memory_bits self.old };

    /// The senders that wait on an endpoint with a badge, whichever that is, wait no more. The others keep their order, and
    /// receivers go on waiting.
    fn cancel_badge(&mut self, endpoint: u64, badge: Badge)
        requires { IsEndpointAddress P.profile (memory_bits self.old) endpoint }
        ensures waits { waits self.new ≡ after_cancel_badge endpoint badge (waits self.old) }
        ensures histories { (sends : List SendRecord) (receives : List ReceiveRecord) → (waits self.old).queue endpoint ≡ waiting_list sends receives → (waits self.new).queue endpoint ≡ waiting_less (is_sent_with badge) (λ _. false) sends receives }
        ensures memory { memory_bits self.new ≡ memory_bits self.old };

    /// Nobody waits on an endpoint any more.
    fn cancel_endpoint(&mut self, endpoint: u64)
        requires { IsEndpointAddress P.profile (memory_bits self.old) endpoint }
        ensures waits { waits self.new ≡ after_cancel_endpoint endpoint (waits self.old) }
        ensures histories { (sends : List SendRecord) (receives : List ReceiveRecord) → (waits self.old).queue endpoint ≡ waiting_list sends receives → (waits self.new).queue endpoint ≡ waiting_less (λ _. true) (λ _. true) sends receives }
        ensures memory { memory_bits self.new ≡ memory_bits self.old };

    /// How a thread waits, if it does.
    fn role(&self, thread: u64) -> Option<Role>
        requires { IsThreadAddress P.profile (memory_bits self.now) thread }
        ensures { result ≡ (waits self.now).role thread };

    /// What a thread sends that waits to send, and with which badge; `None` where it does not wait to send.
    fn offer(&self, thread: u64) -> Option<Offer>
        requires { IsThreadAddress P.profile (memory_bits self.now) thread }
        ensures { result ≡ offer_of (waits self.now) thread };

    /// The thread that waits at a place of an endpoint's waiting list, 0 the first.
    fn waiting(&self, endpoint: u64, place: u64) -> Option<u64>
        requires { IsEndpointAddress P.profile (memory_bits self.now) endpoint }
        ensures { result ≡ option_map thread_of (slice_get ((waits self.now).queue endpoint) place) };

    /// The thread that waits behind another one, on the same endpoint: a waiting list is read from its first thread on, each
    /// thread in turn. None: that thread is the last, or waits nowhere.
    fn next_waiting(&self, thread: u64) -> Option<u64>
        requires { IsThreadAddress P.profile (memory_bits self.now) thread }
        ensures behind { IsNextBehind (waits self.now) thread result }
        ensures nowhere { (waits self.now).role thread ≡ None → result ≡ None };

    ghost agree: { (w : Self) → AreRolesAndQueues (waits w) };
}

/// Waiting threads that can be made.
pub trait MakeWaiters<P: Profile>: Waiters<P> + Drop {
    /// Nobody waits, with room for every thread that a memory of 2^`memory_bits` bytes can hold.
    fn new(alloc: Global, memory_bits: u32) -> Result<Self, AllocError>
        requires least { MIN_MEMORY_BITS ≤ memory_bits }
        requires most { memory_bits ≤ MAX_MEMORY_BITS }
        ensures nobody { IfOk result (λ w. Self.waits w ≡ no_waits) }
        ensures memory { IfOk result (λ w. Self.memory_bits w ≡ memory_bits) };

    /// The same threads wait in the copy, in the same order, and it has room of its own for every thread.
    fn copy(&self, alloc: Global) -> Result<Self, AllocError>
        ensures waits { IfOk result (λ w. Self.waits w ≡ Self.waits self.now) }
        ensures memory { IfOk result (λ w. Self.memory_bits w ≡ Self.memory_bits self.now) };
}

/// Waiting threads that are copied into the room of others, and that are kept in no more room than they take.
pub trait SaveWaiters<P: Profile>: MakeWaiters<P> {
    /// Who waits, without the room for more.
    type Saved: Drop;

    ghost saved_waits: { Self.Saved → Waits };

    ghost saved_memory: { Self.Saved → ℕ };

    /// The same, in the room of others that are given up. It takes memory only where they have too little room.
    fn copy_into(&self, spare: Self) -> Result<Self, AllocError>
        ensures waits { IfOk result (λ w. Self.waits w ≡ Self.waits self.now) }
        ensures memory { IfOk result (λ w. Self.memory_bits w ≡ Self.memory_bits self.now) };

    /// Who waits, in no more room than that takes.
    fn save(&self, alloc: Global) -> Result<Self::Saved, AllocError>
        ensures waits { IfOk result (λ w. Self.saved_waits w ≡ Self.waits self.now) }
        ensures memory { IfOk result (λ w. Self.saved_memory w ≡ Self.memory_bits self.now) };

    /// The threads wait that were saved, in the room of others that are given up. It takes memory only where they have too
    /// little room.
    fn restore(saved: &Self::Saved, spare: Self) -> Result<Self, AllocError>
        ensures waits { IfOk result (λ w. Self.waits w ≡ Self.saved_waits saved.now) }
        ensures memory { IfOk result (λ w. Self.memory_bits w ≡ Self.saved_memory saved.now) };
}
