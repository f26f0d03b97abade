//! The places of derivations by their slots, and by the objects that they name.
ghost use Rattle.std.specs.Prelude.{◌≡◌, ◌^◌, ◌<◌, IfOk, All, map};
ghost use Rattle.slot_core.specs.Places.{address_of};
ghost use Rattle.query_revoke.specs.Keyed.{keyed_by_place, AreKeyed};
ghost use Rattle.query_revoke.specs.Index.{AreByObject};
ghost use Rattle.query_revoke.specs.Objects as spec;

use crate::keyed::{Keyed, put_in_order};
use cap_core::{Cap, Profile};
use slot_core::Derivation;
use std::alloc::{AllocError, Global};

/// The number of the object, or of the untyped region, that a capability names: no other one has it.
pub fn object_number(cap: Cap) -> u128
    ensures number { result ≡ spec.object_number cap }
    ensures small { spec.size_in cap < 2 ^ 32 }
{
    let (base, kind, size) = match cap {
        Cap::Null => (0, 0, 0),
        Cap::Untyped { base, bits, .. } => (base, 1, bits),
        Cap::Endpoint { base, .. } => (base, 2, 0),
        Cap::CNode { base, radix, .. } => (base, 3, radix),
        Cap::Tcb { base } => (base, 4, 0),
    };
    u128::from(base) * 0x1_0000_0000_0000_0000 + kind * 0x1_0000_0000 + u128::from(size)
}

fn addresses<P: Profile>(alloc: Global, list: &[Derivation]) -> Result<Vec<Keyed>, AllocError>
    ensures { IfOk result (λ keyed. keyed.items ≡ keyed_by_place 0 (map (λ d. address_of P.profile d.slot) list.now)) }
{
    let mut keyed = Vec::with_capacity(alloc, list.len())?;
    for place in 0..list.len() {
        keyed.push(Keyed {
            key: u128::from(list[place].slot.address::<P>()),
            place,
        })?;
    }
    Ok(keyed)
}

fn numbers(alloc: Global, list: &[Derivation]) -> Result<Vec<Keyed>, AllocError>
    ensures numbers { IfOk result (λ keyed. keyed.items ≡ keyed_by_place 0 (map (λ d. spec.object_number d.cap) list.now)) }
    ensures small { IfOk result (λ keyed. All (λ d. spec.size_in d.cap < 2 ^ 32) list.now) }
{
    let mut keyed = Vec::with_capacity(alloc, list.len())?;
    for place in 0..list.len() {
        keyed.push(Keyed {
            key: object_number(list[place].cap),
            place,
        })?;
    }
    Ok(keyed)
}

/// The places of derivations by rising addresses of their slots.
pub fn by_address<P: Profile>(alloc: Global, list: &[Derivation]) -> Result<Vec<Keyed>, AllocError>
    ensures { IfOk result (λ keyed. AreKeyed (map (λ d. address_of P.profile d.slot) list.now) keyed.items) }
{
    let mut keyed = addresses::<P>(alloc, list)?;
    put_in_order(&mut keyed)?;
    Ok(keyed)
}

/// The places of derivations by the objects that their capabilities name: those of one object are together, in their order.
pub fn by_object(alloc: Global, list: &[Derivation]) -> Result<Vec<Keyed>, AllocError>
    ensures { IfOk result (λ keyed. AreByObject list.now keyed.items) }
{
    let mut keyed = numbers(alloc, list)?;
    put_in_order(&mut keyed)?;
    Ok(keyed)
}
