//! The capabilities that the tests speak of.
use cap_core::{Badge, Cap, Guard, Rights};

/// An untyped region of which nothing is used.
pub fn untyped(base: u64, bits: u32) -> Cap {
    Cap::Untyped {
        base,
        bits,
        free: 0,
    }
}

/// The endpoint at 6144, with a badge and rights.
pub fn endpoint(badge: u64, rights: u8) -> Cap {
    Cap::Endpoint {
        base: 6144,
        badge: Badge(badge),
        rights: Rights(rights),
    }
}

/// The CNode at 16384, with a guard.
pub fn cnode(radix: u32, value: u64, size: u32) -> Cap {
    Cap::CNode {
        base: 16384,
        radix,
        guard: Guard { value, size },
    }
}
