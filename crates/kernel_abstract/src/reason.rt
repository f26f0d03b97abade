//! Why a call is refused, as data: the first check that fails, with what was found there.
ghost use Rattle.std.specs.Prelude.{◌≡◌};
ghost use Rattle.kernel_abstract.specs.Reasons.{fault_of, refusal_of};

use crate::call::ThreadState;
use cap_core::{Cap, Kind, LookupFault, Refusal};

/// The word of a call that a check is about.
#[derive(Clone, Copy)]
pub enum Word {
    /// The word that names the invoked capability.
    Invoked,
    /// The extra word of a retype and of the setting of a space.
    Root,
    /// The extra word of a copy, a mint, a move and a mutate.
    SourceRoot,
    /// The index of the slot that is named, with its depth.
    Index,
    /// The index of the source, with its depth.
    SourceIndex,
}

/// A slot, by its address, with the capability in it, which is `Null` where the slot is empty.
#[derive(Clone, Copy)]
pub struct Held {
    pub slot: u64,
    pub cap: Cap,
}

/// The right that a send or a receive needs.
#[derive(Clone, Copy)]
pub enum Right {
    Write,
    Read,
}

/// Why a lookup ends without the slot that was asked for (seL4 Reference Manual, on lookup failures).
#[derive(Clone, Copy)]
pub enum Miss {
    /// It begins at no CNode.
    NoRoot,
    /// At this CNode `left` bits are left, and they do not begin with its guard: the first of them, as many as the guard
    /// has or all where they are fewer, are `read` as a number.
    OtherGuard { node: Held, left: u32, read: u64 },
    /// Behind the guard of this CNode `left` bits are left, fewer than its radix.
    TooFewBits { node: Held, left: u32 },
    /// This slot holds no CNode, and `left` bits are left over.
    BitsLeft { found: Held, left: u32 },
}

/// The first check of a call that fails, with what was found there.
#[derive(Clone, Copy)]
pub enum Reason {
    /// No live thread is at the address of the caller.
    NoThread,
    /// The calling thread is in this state, which is not ready.
    NotReady(ThreadState),
    /// The lookup of a word, from a slot on, fails.
    NotFound {
        word: Word,
        from: Held,
        miss: Miss,
    },
    /// The depth of an index, which is looked up from a slot on, is not from 1 to the bits of a word, `most`.
    NoDepth {
        word: Word,
        from: Held,
        most: u32,
    },
    /// The slot of the invoked capability is empty.
    NoCapability {
        slot: u64,
        wanted: Kind,
    },
    /// The invoked capability is of another kind.
    OtherKind {
        found: Held,
        wanted: Kind,
    },
    /// The invoked endpoint's capability lacks the right.
    NoRight {
        found: Held,
        needed: Right,
    },
    /// The slot to fill is full.
    IsFull(Held),
    /// The source is empty.
    IsEmpty {
        slot: u64,
    },
    /// The badge of the source, an endpoint's capability, can't be set.
    HasBadge(Held),
    /// The guard that the data word holds, of `size` bits, and the radix of this CNode are together more than `most`, the
    /// bits of a word.
    LongGuard {
        word: Word,
        node: Held,
        size: u64,
        most: u32,
    },
    /// An untyped capability has children, the one in the slot `child` the first of them.
    HasChildren {
        source: Held,
        child: u64,
    },
    /// It is no endpoint's capability with all rights.
    NotAllRights(Held),
    /// It is no CNode's capability, where a thread's capability space would begin.
    NoSpace(Held),
    /// No kind of objects has the number.
    NoKind,
    /// The size that is asked for is not below the bits of a word, `below`.
    NoSize {
        below: u32,
    },
    /// The object would have 2^`bits` bytes, and the largest has 2^`most`.
    TooLarge {
        kind: Kind,
        bits: u32,
        most: u32,
    },
    /// The size that is asked for is below `least`, the least of its kind.
    TooSmall {
        kind: Kind,
        least: u32,
    },
    /// What holds the slots to fill is no CNode. The word names it.
    NoNode {
        word: Word,
        found: Held,
    },
    /// The offset is past the slots of the CNode.
    NoOffset {
        word: Word,
        node: Held,
    },
    /// The number of objects is not from 1 to `most`.
    NoCount {
        most: u64,
    },
    /// From the offset on the CNode has fewer slots than there are objects.
    FewSlots {
        word: Word,
        node: Held,
    },
    /// Of the slots to fill this one, which has the number `number` in its CNode, is the first that is full.
    SomeFull {
        word: Word,
        node: Held,
        number: u64,
        full: Held,
    },
    /// The untyped region has room for `room` objects of 2^`bits` bytes, which are fewer than are asked for. `start` bytes
    /// of it count as used: none, where it has no children.
    NoRoom {
        untyped: Held,
        has_children: bool,
        start: u64,
        bits: u32,
        room: u64,
    },
}

/// The kind of a lookup's failure.
#[inline(always)]
fn fault(miss: &Miss) -> LookupFault
    ensures { result ≡ fault_of miss.now }
{
    match miss {
        Miss::NoRoot => LookupFault::InvalidRoot,
        Miss::OtherGuard { .. } => LookupFault::GuardMismatch,
        Miss::TooFewBits { .. } | Miss::BitsLeft { .. } => LookupFault::DepthMismatch,
    }
}

impl Reason {
    /// The refusal that the call is answered: a function of the reason alone.
    #[inline(always)]
    pub fn refusal(&self) -> Refusal
        ensures { result ≡ refusal_of self.now }
    {
        match self {
            Reason::NoThread => Refusal::NoThread,
            Reason::NotReady(_) => Refusal::NotReady,
            Reason::NotFound { miss, .. } => Refusal::FailedLookup(fault(miss)),
            Reason::NoDepth { .. } => Refusal::RangeError,
            Reason::NoCapability { .. } => Refusal::InvalidCapability,
            Reason::OtherKind { .. } => Refusal::IllegalOperation,
            Reason::NoRight { .. } => Refusal::InvalidCapability,
            Reason::IsFull(_) => Refusal::DeleteFirst,
            Reason::IsEmpty { .. } => Refusal::FailedLookup(LookupFault::MissingCapability),
            Reason::HasBadge(_) => Refusal::IllegalOperation,
            Reason::LongGuard { .. } => Refusal::IllegalOperation,
            Reason::HasChildren { .. } => Refusal::RevokeFirst,
            Reason::NotAllRights(_) => Refusal::IllegalOperation,
            Reason::NoSpace(_) => Refusal::IllegalOperation,
            Reason::NoKind => Refusal::InvalidArgument,
            Reason::NoSize { .. } => Refusal::RangeError,
            Reason::TooLarge { .. } => Refusal::RangeError,
            Reason::TooSmall { .. } => Refusal::InvalidArgument,
            Reason::NoNode { .. } => Refusal::FailedLookup(LookupFault::MissingCapability),
            Reason::NoOffset { .. } => Refusal::RangeError,
            Reason::NoCount { .. } => Refusal::RangeError,
            Reason::FewSlots { .. } => Refusal::RangeError,
            Reason::SomeFull { .. } => Refusal::DeleteFirst,
            Reason::NoRoom { .. } => Refusal::NotEnoughMemory,
        }
    }
}
