//! Calls, replies, and what is seen of a thread.
use cap_core::{Badge, Message, Refusal, Rights};

/// What a thread asks of the kernel (seL4 Reference Manual, on system calls and on the methods of its objects). `cap` is
/// the address, in the thread's capability space, of the capability that it uses; `root` and `src_root` are addresses there
/// too. An index names the slot that its low bits, as many as the depth, lead to from a CNode.
#[derive(Clone, Copy, Debug, PartialEq, Eq)]
pub enum Op {
    /// Makes `count` objects in an untyped region, of the kind with a number and of a size in bits, and puts their
    /// capabilities into the slots of a CNode from `offset` on. The CNode is the one that `root` names at depth 0, and else
    /// the one in the slot that `index` and `depth` name from it.
    Retype {
        cap: u64,
        kind: u64,
        size_bits: u64,
        root: u64,
        index: u64,
        depth: u64,
        offset: u64,
        count: u64,
    },
    /// Derives a capability from the one in a slot, with no rights but those given, into an empty slot.
    CapCopy {
        cap: u64,
        index: u64,
        depth: u64,
        src_root: u64,
        src_index: u64,
        src_depth: u64,
        rights: Rights,
    },
    /// Derives a capability as a copy does, with its data set by a word: the badge of an endpoint's, the guard of a CNode's.
    CapMint {
        cap: u64,
        index: u64,
        depth: u64,
        src_root: u64,
        src_index: u64,
        src_depth: u64,
        rights: Rights,
        word: u64,
    },
    /// Moves a capability from one slot to an empty one.
    CapMove {
        cap: u64,
        index: u64,
        depth: u64,
        src_root: u64,
        src_index: u64,
        src_depth: u64,
    },
    /// Moves a capability, with its data set by a word: the guard of a CNode's.
    CapMutate {
        cap: u64,
        index: u64,
        depth: u64,
        src_root: u64,
        src_index: u64,
        src_depth: u64,
        word: u64,
    },
    /// Clears a slot of a CNode (`seL4_CNode_Delete`): it is emptied, and where its capability was the last of its object, that
    /// ends, with what lay in it.
    CapDelete {
        cap: u64,
        index: u64,
        depth: u64,
    },
    /// Clears each capability that was derived from the one in a slot of a CNode (`seL4_CNode_Revoke`).
    CapRevoke {
        cap: u64,
        index: u64,
        depth: u64,
    },
    /// Cancels the sends that wait on an endpoint and were sent with the badge of the capability in a slot of a CNode
    /// (`seL4_CNode_CancelBadgedSends`).
    CancelBadged {
        cap: u64,
        index: u64,
        depth: u64,
    },
    /// Sends a message through an endpoint, and waits where no receiver does.
    Send {
        cap: u64,
        message: Message,
    },
    /// Sends a message through an endpoint where a receiver waits, and is dropped where none does.
    NbSend {
        cap: u64,
        message: Message,
    },
    /// Receives a message from an endpoint, and waits where no sender does.
    Recv {
        cap: u64,
    },
    /// Receives a message from an endpoint where a sender waits, and nothing where none does.
    NbRecv {
        cap: u64,
    },
    /// Gives a thread the CNode that `root` names as the root of its capability space (`seL4_TCB_SetSpace`, for this alone), with
    /// the guard that `word` holds, where it is not 0.
    SetSpace {
        cap: u64,
        root: u64,
        word: u64,
    },
    /// Suspends a thread (`seL4_TCB_Suspend`): it waits no more, and is inactive.
    Suspend {
        cap: u64,
    },
    /// Resumes a thread (`seL4_TCB_Resume`): it waits no more, and is ready.
    Resume {
        cap: u64,
    },
}

/// One call of one thread, named by the address of its thread control block.
#[derive(Clone, Copy, Debug, PartialEq, Eq)]
pub struct Call {
    pub thread: u64,
    pub op: Op,
}

/// What a call is answered. That a sender is told of a delivery is this project's profile: seL4 tells a sender nothing.
#[derive(Clone, Copy, Debug, PartialEq, Eq)]
pub enum Reply {
    /// The operation was done.
    Done,
    /// A message went from one thread to another, with the badge of the capability by which it was sent.
    Delivered {
        endpoint: u64,
        from: u64,
        to: u64,
        badge: Badge,
        message: Message,
    },
    /// The thread waits.
    Waiting,
    /// A send that does not wait found no receiver.
    Dropped,
    /// A receive that does not wait found no sender.
    Empty,
    /// The call is refused, and changed nothing.
    Refused(Refusal),
}

/// What a live thread does.
#[derive(Clone, Copy, Debug, PartialEq, Eq)]
pub enum ThreadState {
    /// It can make calls.
    Ready,
    /// It was made and not resumed, or it was suspended.
    Inactive,
    /// It waits to send on the endpoint at this address.
    Sending(u64),
    /// It waits to receive on the endpoint at this address.
    Receiving(u64),
}

/// The last message that was delivered to a thread, with its badge.
#[derive(Clone, Copy, Debug, PartialEq, Eq)]
pub struct Inbox {
    pub badge: Badge,
    pub message: Message,
}
