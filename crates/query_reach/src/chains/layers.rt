//! The full slots that a root slot leads to, by how many slots are between.
ghost use Rattle.std.specs.Prelude.{◌≡◌, ◌==◌, ◌&&◌, ◌+◌, ◌^◌, nat_le, nat_lt, not, IfOk, map};
ghost use Rattle.std.specs.List.{filter};
ghost use Rattle.query_reach.specs.Chain as spec;
ghost use Rattle.query_reach.specs.Private.Layers.{leads_to_layer, is_next, next_layer, others_of, IsLaid};

use crate::FullSlot;
use cap_core::{Cap, Profile, Range, range_of};
use std::alloc::{AllocError, Global};

/// Whether a range has an address.
pub fn has(range: Range, address: u64) -> bool
    ensures { result ≡ (nat_le range.first address && nat_lt address (range.first + 2 ^ range.bits)) }
{
    range.first <= address && (range.bits >= 64 || address - range.first < 1u64 << range.bits)
}

fn has_address<P: Profile>(cap: Cap, address: u64) -> bool
    ensures { result ≡ spec.has_address P.profile cap address }
{
    match range_of::<P>(cap) {
        Some(range) => has(range, address),
        None => false,
    }
}

/// Whether a capability gives hold of the slot at an address.
fn gives<P: Profile>(cap: Cap, slot: u64) -> bool
    ensures { result ≡ spec.gives P.profile cap slot }
{
    match cap {
        Cap::Null | Cap::Endpoint { .. } => false,
        Cap::Untyped { .. } | Cap::CNode { .. } | Cap::Tcb { .. } => has_address::<P>(cap, slot),
    }
}

/// Whether a slot leads to another one.
pub fn leads_to<P: Profile>(from: &FullSlot, slot: &FullSlot) -> bool
    ensures { result ≡ leads_to_layer P.profile from.now slot.now }
{
    gives::<P>(from.cap, slot.address)
}

fn is_behind<P: Profile>(layer: &[FullSlot], slot: &FullSlot) -> bool
    ensures { result ≡ is_next P.profile layer.now slot.now }
{
    for from in layer {
        if leads_to::<P>(from, slot) {
            return true;
        }
    }
    false
}

/// Those of the rest to which some slot of a layer leads.
fn next_layer<P: Profile>(
    alloc: Global,
    layer: &[FullSlot],
    rest: &[FullSlot],
) -> Result<Vec<FullSlot>, AllocError>
    ensures { IfOk result (λ v. v.items ≡ next_layer P.profile layer.now rest.now) }
{
    let mut next = Vec::new(alloc);
    for slot in rest {
        if is_behind::<P>(layer, slot) {
            next.push(*slot)?;
        }
    }
    Ok(next)
}

/// Those of the rest to which no slot of a layer leads.
fn others<P: Profile>(
    alloc: Global,
    layer: &[FullSlot],
    rest: &[FullSlot],
) -> Result<Vec<FullSlot>, AllocError>
    ensures { IfOk result (λ v. v.items ≡ others_of P.profile layer.now rest.now) }
{
    let mut others = Vec::new(alloc);
    for slot in rest {
        if !is_behind::<P>(layer, slot) {
            others.push(*slot)?;
        }
    }
    Ok(others)
}

fn slots_at(alloc: Global, filled: &[FullSlot], root: u64) -> Result<Vec<FullSlot>, AllocError>
    ensures { IfOk result (λ v. v.items ≡ filter (λ s. s.address == root) filled.now) }
{
    let mut slots = Vec::new(alloc);
    for slot in filled {
        if slot.address == root {
            slots.push(*slot)?;
        }
    }
    Ok(slots)
}

fn slots_elsewhere(
    alloc: Global,
    filled: &[FullSlot],
    root: u64,
) -> Result<Vec<FullSlot>, AllocError>
    ensures { IfOk result (λ v. v.items ≡ filter (λ s. not (s.address == root)) filled.now) }
{
    let mut slots = Vec::new(alloc);
    for slot in filled {
        if slot.address != root {
            slots.push(*slot)?;
        }
    }
    Ok(slots)
}

/// The layers from one on: each has those of the rest to which the layer before it leads, and none is empty.
fn layers_from<P: Profile>(
    alloc: Global,
    first: Vec<FullSlot>,
    elsewhere: Vec<FullSlot>,
) -> Result<Vec<Vec<FullSlot>>, AllocError>
    ensures { IfOk result (λ v. IsLaid P.profile first.items elsewhere.items (map (λ l. l.items) v.items)) }
{
    let mut layer = first;
    let mut rest = elsewhere;
    let mut layers = Vec::new(alloc);
    while !layer.is_empty() {
        let next = next_layer::<P>(alloc, layer.as_slice(), rest.as_slice())?;
        rest = others::<P>(alloc, layer.as_slice(), rest.as_slice())?;
        layers.push(layer)?;
        layer = next;
    }
    Ok(layers)
}

/// The slots that the root slot leads to, in layers.
pub fn layers<P: Profile>(
    alloc: Global,
    filled: &[FullSlot],
    root: u64,
) -> Result<Vec<Vec<FullSlot>>, AllocError>
    ensures { IfOk result (λ v. IsLaid P.profile (filter (λ s. s.address == root) filled.now) (filter (λ s. not (s.address == root)) filled.now) (map (λ l. l.items) v.items)) }
{
    let first = slots_at(alloc, filled, root)?;
    let elsewhere = slots_elsewhere(alloc, filled, root)?;
    layers_from::<P>(alloc, first, elsewhere)
}
