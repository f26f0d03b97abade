//! Objects: the kinds that a number names, their sizes, their ranges, and the capability of a new one.
ghost use Rattle.std.specs.Prelude.{◌≡◌, ℕ, ◌+◌, ◌^◌, ◌↔◌, ◌&&◌, nat_le, IsTrue};
ghost use Rattle.cap_core.specs.declared.profile.ProfileName.{ProfileName};
ghost use Rattle.cap_core.specs.Kinds.{number_of, kind_numbered, size_within, size_of, kind_named, new_cap};
ghost use Rattle.cap_core.specs.Objects.{same_object as is_same_object, in_region as is_in_region, base_of, bits_of};
ghost use Rattle.cap_core.specs.Ranges.{range_named, IsAddressOf};

use crate::capability::{Badge, Cap, Guard, Kind};
use crate::profile::Profile;
use crate::rights::Rights;

/// The addresses of an object: 2^`bits` from `first` on. `bits` is wide enough for every radix that a capability can hold,
/// also one that no kernel makes.
#[derive(Clone, Copy, PartialEq, Eq, Debug)]
pub struct Range {
    pub first: u64,
    pub bits: u64,
}

/// The kind that a number names: 0 an untyped region, 1 a thread control block, 2 an endpoint, 4 a CNode (seL4 Reference
/// Manual, on the types of objects). None: no other number names a kind that this kernel has.
pub fn kind_of(number: u64) -> Option<Kind>
    ensures value { result ≡ kind_numbered number }
    ensures numbered { (kind : Kind) → (result ≡ Some kind) ↔ (number ≡ number_of kind) }
{
    match number {
        0 => Some(Kind::Untyped),
        1 => Some(Kind::Tcb),
        2 => Some(Kind::Endpoint),
        4 => Some(Kind::CNode),
        _ => None,
    }
}

/// The bits of an object's size in bytes, where `size_bits` is asked for: of a CNode the radix, of an untyped region the
/// bits of its size. A thread control block and an endpoint have one size each, but what is asked for has to be within
/// the profile for them too. None: `size_bits` is not below the bits of a word, or the object is larger than a retype makes
/// (seL4 Reference Manual, on `seL4_Untyped_Retype`; the numbers are this project's profile).
pub fn object_bits<P: Profile>(kind: Kind, size_bits: u64) -> Option<u32>
    ensures { result ≡ size_within P.profile kind size_bits }
{
    if size_bits >= P::WORD_BITS as u64 {
        return None;
    }
    let size_bits = size_bits as u32;
    let bits = match kind {
        Kind::Untyped => size_bits,
        Kind::Tcb => P::TCB_BITS,
        Kind::Endpoint => P::ENDPOINT_BITS,
        Kind::CNode => P::SLOT_BITS + size_bits,
    };
    if bits <= P::MAX_OBJECT_BITS {
        Some(bits)
    } else {
        None
    }
}

/// The capability of a new object at `base`: with no badge, all rights, no guard, and nothing of an untyped region used
/// (seL4 Reference Manual, on `seL4_Untyped_Retype`). `size_bits` is what the object's size was asked for.
pub fn fresh(kind: Kind, base: u64, size_bits: u32) -> Cap
    ensures value { result ≡ new_cap kind base size_bits }
    ensures kind { kind_named result ≡ Some kind }
    ensures base { base_of result ≡ base }
    ensures bits { (p : ProfileName) → bits_of p result ≡ size_of p kind size_bits }
{
    match kind {
        Kind::Untyped => Cap::Untyped {
            base,
            bits: size_bits,
            free: 0,
        },
        Kind::Tcb => Cap::Tcb { base },
        Kind::Endpoint => Cap::Endpoint {
            base,
            badge: Badge(0),
            rights: Rights::ALL,
        },
        Kind::CNode => Cap::CNode {
            base,
            radix: size_bits,
            guard: Guard { value: 0, size: 0 },
        },
    }
}

/// The range of the object that a capability names. None: `Null` names no object.
pub fn range_of<P: Profile>(cap: Cap) -> Option<Range>
    ensures { result ≡ range_named P.profile cap }
{
    match cap {
        Cap::Null => None,
        Cap::Untyped { base, bits, .. } => Some(Range {
            first: base,
            bits: bits as u64,
        }),
        Cap::Endpoint { base, .. } => Some(Range {
            first: base,
            bits: P::ENDPOINT_BITS as u64,
        }),
        Cap::CNode { base, radix, .. } => Some(Range {
            first: base,
            bits: P::SLOT_BITS as u64 + radix as u64,
        }),
        Cap::Tcb { base } => Some(Range {
            first: base,
            bits: P::TCB_BITS as u64,
        }),
    }
}

/// Whether both capabilities name one object. An untyped region is never the same object, not even as itself: it is told
/// by ranges (`in_region`). Two CNodes are one where their radixes are equal too.
pub fn same_object(a: Cap, b: Cap) -> bool
    ensures { result ≡ is_same_object a b }
{
    match (a, b) {
        (Cap::Endpoint { base, .. }, Cap::Endpoint { base: other, .. }) => base == other,
        (Cap::Tcb { base }, Cap::Tcb { base: other }) => base == other,
        (
            Cap::CNode { base, radix, .. },
            Cap::CNode {
                base: other,
                radix: others,
                ..
            },
        ) => base == other && radix == others,
        _ => false,
    }
}

/// Whether `b` lies in the region of `a` (seL4 abstract specification, on the capability derivation tree): where `a` is
/// untyped, whether the range of b's object lies within that of `a`; otherwise, whether both name one object. `Null` lies
/// in no region.
pub fn in_region<P: Profile>(a: Cap, b: Cap) -> bool
    ensures value { result ≡ is_in_region P.profile a b }
    ensures addresses { IsTrue result → (address : ℕ) → IsAddressOf P.profile b address → IsAddressOf P.profile a address }
{
    match a {
        Cap::Untyped { base, bits, .. } => match range_of::<P>(b) {
            Some(range) => contains(
                Range {
                    first: base,
                    bits: bits as u64,
                },
                range,
            ),
            None => false,
        },
        other => same_object(other, b),
    }
}

/// Whether the second range lies within the first.
fn contains(a: Range, b: Range) -> bool
    ensures { result ≡ (nat_le a.first b.first && nat_le (b.first + 2 ^ b.bits) (a.first + 2 ^ a.bits)) }
{
    if b.first < a.first || b.bits > a.bits {
        return false;
    }
    let offset = b.first - a.first;
    if a.bits > u64::BITS as u64 {
        return offset == 0 || b.bits < a.bits;
    }
    offset as u128 + (1u128 << b.bits) <= 1u128 << a.bits
}
