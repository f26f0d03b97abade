//! The objects that slots name.
ghost use Rattle.std.specs.Prelude.{◌≡◌, ◌^◌, IfOk, map, nat_lt};
ghost use Rattle.std.specs.BTreeSet.{difference};
ghost use Rattle.std.specs.Ordering.{nat_cmp};
ghost use Rattle.slot_core.specs.Calls.{derivation_view};
ghost use Rattle.setup_report.specs.State as spec;

use cap_core::{Cap, Profile};
use slot_core::Derivation;
use std::alloc::{AllocError, Global};
use std::collections::BTreeSet;

/// Which objects a slot is asked for that its capability may name.
#[derive(Clone, Copy)]
pub enum NamedObject {
    /// A thread.
    Thread,
    /// An endpoint.
    Endpoint,
    /// A CNode that has the slot itself.
    OwnNode,
    /// A CNode that does not have the slot.
    OtherNode,
}

#[tactic(auto, using(crate::proofs::Addresses::Slots::word_below))]
fn is_below_power(word: u64, bits: u32) -> bool
    ensures { result ≡ nat_lt word (2 ^ bits) }
{
    if bits >= u64::BITS {
        return true;
    }
    word < 1u64 << bits
}

fn is_slot_of<P: Profile>(base: u64, radix: u32, slot: u64) -> bool
    ensures { result ≡ spec.is_slot_of P.profile base radix slot }
{
    slot >= base && is_below_power((slot - base) >> P::SLOT_BITS, radix)
}

/// The base of the object that the capability in a slot, at its address in bytes, names, if that is asked for.
pub fn base_named<P: Profile>(naming: NamedObject, slot: u64, cap: Cap) -> Option<u64>
    ensures { result ≡ spec.base_named P.profile naming slot cap }
{
    match (naming, cap) {
        (NamedObject::Thread, Cap::Tcb { base }) => Some(base),
        (NamedObject::Endpoint, Cap::Endpoint { base, .. }) => Some(base),
        (NamedObject::OwnNode, Cap::CNode { base, radix, .. }) => {
            if is_slot_of::<P>(base, radix, slot) {
                Some(base)
            } else {
                None
            }
        }
        (NamedObject::OtherNode, Cap::CNode { base, radix, .. }) => {
            if is_slot_of::<P>(base, radix, slot) {
                None
            } else {
                Some(base)
            }
        }
        _ => None,
    }
}

/// The objects that full slots name with their capabilities. They are collected first: of all at once a set is made in a
/// small part of the time that inserting them one by one takes.
pub fn named<P: Profile>(
    alloc: Global,
    naming: NamedObject,
    list: &[Derivation],
) -> Result<BTreeSet<u64>, AllocError>
    ensures { IfOk result (λ s. s.keys ≡ spec.rising (spec.named P.profile naming (map (derivation_view P.profile) list.now))) }
{
    list.iter()
        .filter_map(|d| base_named::<P>(naming, d.slot.address::<P>(), d.cap))
        .collect(alloc)
}

/// The addresses of a set that are not of another one, in their order.
fn only_in(
    alloc: Global,
    own: &BTreeSet<u64>,
    others: &BTreeSet<u64>,
) -> Result<Vec<u64>, AllocError>
    ensures { IfOk result (λ v. v.items ≡ difference nat_cmp own.now others.now) }
{
    let mut only = Vec::new(alloc);
    for address in own.difference(others) {
        only.push(*address)?;
    }
    Ok(only)
}

/// The CNodes that slots of their own name and no other slots, by rising address.
pub fn selfheld<P: Profile>(alloc: Global, list: &[Derivation]) -> Result<Vec<u64>, AllocError>
    ensures { IfOk result (λ v. v.items
        ≡ spec.rising (spec.holding_themselves P.profile (map (derivation_view P.profile) list.now))) }
{
    let own = named::<P>(alloc, NamedObject::OwnNode, list)?;
    let others = named::<P>(alloc, NamedObject::OtherNode, list)?;
    only_in(alloc, &own, &others)
}
