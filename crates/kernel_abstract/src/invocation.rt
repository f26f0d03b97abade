//! What a call whose checks passed does.
use cap_core::{Badge, Cap, Message, Rights};
use mem_core::{Placed, Shape};

/// An endpoint that a call may use, and the badge of the capability by which it does.
#[derive(Clone, Copy)]
pub struct Service {
    pub endpoint: u64,
    pub badge: Badge,
}

/// The words of a retype beside the one that names the untyped.
#[derive(Clone, Copy)]
pub struct RetypeArguments {
    pub kind: u64,
    pub size_bits: u64,
    pub root: u64,
    pub index: u64,
    pub depth: u64,
    pub offset: u64,
    pub count: u64,
}

/// The words by which a copy or a move names its slots: `index` and `depth` from the CNode that is invoked the one that is
/// filled, the others the source.
#[derive(Clone, Copy)]
pub struct SlotArguments {
    pub index: u64,
    pub depth: u64,
    pub src_root: u64,
    pub src_index: u64,
    pub src_depth: u64,
}

/// What becomes of the source's capability on its way: a copy keeps the rights given, a mint also sets its data by a word, a
/// move leaves it as it is, and a mutate sets its data.
#[derive(Clone, Copy)]
pub enum Change {
    Copy(Rights),
    Mint(Rights, u64),
    Move,
    Mutate(u64),
}

/// The objects that a retype makes: the address of the slot that holds their untyped, their shape, where they are placed,
/// the address of the slot that the first one's capability goes into, and how many they are.
#[derive(Clone, Copy)]
pub struct NewObjects {
    pub untyped: u64,
    pub shape: Shape,
    pub placed: Placed,
    pub first_slot: u64,
    pub count: u64,
}

/// A capability that is derived from the one in the slot at `source`, or moved from it, to the empty slot at `slot`, as `cap`.
#[derive(Clone, Copy)]
pub struct CapPlacement {
    pub source: u64,
    pub slot: u64,
    pub cap: Cap,
}

/// The root of a thread's capability space: the address of the thread's control block, which is that of its root slot; the
/// addresses of the slot that was invoked and of the slot that holds the CNode's capability; and that capability as it is put.
#[derive(Clone, Copy)]
pub struct NewSpace {
    pub tcb: u64,
    pub invoked: u64,
    pub source: u64,
    pub cap: Cap,
}

/// What a call whose checks passed does: one variant for each effect that calls have.
#[derive(Clone, Copy)]
pub enum Invocation {
    /// Sends a message, and where no receiver waits either waits, with `block`, or drops it.
    Send {
        service: Service,
        message: Message,
        block: bool,
    },
    /// Receives a message, and where no sender waits either waits, with `block`, or gets nothing.
    Receive {
        service: Service,
        block: bool,
    },
    /// Makes objects, and puts their capabilities.
    Retype(NewObjects),
    /// Derives a capability.
    Derive(CapPlacement),
    /// Moves a capability.
    Move(CapPlacement),
    /// Clears the slot at an address.
    Delete(u64),
    /// Clears what was derived from the capability in the slot at an address.
    Revoke(u64),
    /// Cancels the sends that wait on an endpoint with a badge.
    CancelBadged(Service),
    /// Gives a thread another root of its capability space.
    SetSpace(NewSpace),
    /// Suspends the thread whose control block stands at an address.
    Suspend(u64),
    /// Resumes the thread whose control block stands at an address.
    Resume(u64),
}
