//! Capabilities, and what they hold.
use crate::rights::Rights;

/// The number that a capability of an endpoint carries and that each message sent by it shows; 0 is none.
#[derive(Clone, Copy, PartialEq, Eq, Debug)]
pub struct Badge(pub u64);

/// The bits that an address has to go on with at a CNode: the low `size` bits of `value`.
#[derive(Clone, Copy, PartialEq, Eq, Debug)]
pub struct Guard {
    pub value: u64,
    pub size: u32,
}

/// What an object is.
#[derive(Clone, Copy, PartialEq, Eq, Debug)]
pub enum Kind {
    Untyped,
    Tcb,
    Endpoint,
    CNode,
}

/// A capability, or `Null` in an empty slot (seL4 Reference Manual, on capability spaces and kernel memory).
/// An object is named by its kind, the address `base` of its first byte, and its size.
#[derive(Clone, Copy, PartialEq, Eq, Debug)]
pub enum Cap {
    /// No capability.
    Null,
    /// A region of 2^`bits` bytes, of which the first `free` bytes were given to objects.
    Untyped {
        base: u64,
        bits: u32,
        free: u64,
    },
    /// An endpoint, with what the capability allows.
    Endpoint {
        base: u64,
        badge: Badge,
        rights: Rights,
    },
    /// A table of 2^`radix` slots, with the guard that stands before it.
    CNode {
        base: u64,
        radix: u32,
        guard: Guard,
    },
    /// A thread control block.
    Tcb {
        base: u64,
    },
}
