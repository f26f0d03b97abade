//! What a retype makes, and where.
use cap_core::Kind;

/// The objects that a retype asks for: their kind, the size that was asked for, and the bits of each one's size in bytes.
#[derive(Clone, Copy, PartialEq, Eq, Debug)]
pub struct Shape {
    pub kind: Kind,
    pub size_bits: u32,
    pub bits: u32,
}

/// Where the objects of a retype are placed: the address of the first one, the bytes from each one's address to the next
/// one's, and the untyped region's free index afterwards, in bytes from its base.
#[derive(Clone, Copy, PartialEq, Eq, Debug)]
pub struct Placed {
    pub first: u64,
    pub step: u64,
    pub free: u64,
}
