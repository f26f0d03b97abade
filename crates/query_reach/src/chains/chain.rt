//! The shortest chain of slots.
ghost use Rattle.std.specs.Prelude.{◌≡◌, true, false, IfOk, IfSome, IfNone, map, find, reverse, length, ◌<◌, ◌+◌, ◌^◌, ◌&&◌, nat_lt};
ghost use Rattle.kernel_delete.specs.Members.{In};
ghost use Rattle.kernel_forest.specs.Forest.{Forest};
ghost use Rattle.kernel_forest.specs.Entries.{Entry};
ghost use Rattle.query_reach.specs.declared.chains.chain.Target.{Target as TargetOf};
ghost use Rattle.query_reach.specs.FullSlots.{AreFullSlots};
ghost use Rattle.query_reach.specs.Chain as spec;
ghost use Rattle.query_reach.specs.Private.Layers.{leads_to_layer, is_next, is_sought_at, is_sought_in, IsFirstLayer, HasNoneSought, AreStepped, IsRunFrom, layer_at};

use crate::FullSlot;
use crate::chains::layers::{has, layers, leads_to};
use bitflags::Flags;
use cap_core::{Cap, Profile, Range, Rights, range_of};
use std::alloc::{AllocError, Global};

/// What a chain is to come to: a capability whose object has some of `size` addresses from `first` on, and if `to_send` is
/// set, one by which its holder may send, as an endpoint's with the Write right.
#[derive(Clone, Copy)]
pub struct Target {
    pub first: u64,
    pub size: u64,
    pub to_send: bool,
}

/// Whether a range has some of `size` addresses from `first` on.
fn overlaps(range: Range, first: u64, size: u64) -> bool
    ensures { result ≡ (nat_lt range.first (first + size) && nat_lt first (range.first + 2 ^ range.bits)) }
{
    if range.first < first {
        has(range, first)
    } else {
        range.first - first < size
    }
}

fn has_some_of<P: Profile>(cap: Cap, first: u64, size: u64) -> bool
    ensures { result ≡ spec.has_some_of P.profile first size cap }
{
    match range_of::<P>(cap) {
        Some(range) => overlaps(range, first, size),
        None => false,
    }
}

fn may_send_by(cap: Cap) -> bool
    ensures { result ≡ spec.may_send_by cap }
{
    match cap {
        Cap::Endpoint { rights, .. } => rights.contains(Rights::WRITE),
        _ => true,
    }
}

fn is_sought<P: Profile>(cap: Cap, target: &Target) -> bool
    ensures { result ≡ spec.is_sought P.profile target.now cap }
{
    has_some_of::<P>(cap, target.first, target.size) && (!target.to_send || may_send_by(cap))
}

/// A slot of a layer, with the place of the layer.
#[derive(Clone, Copy)]
struct Place {
    depth: usize,
    slot: FullSlot,
}

fn first_in<P: Profile>(layer: &[FullSlot], target: &Target) -> Option<FullSlot>
    ensures { result ≡ find (λ s. is_sought_at P.profile target.now s) layer.now }
{
    for slot in layer {
        if is_sought::<P>(slot.cap, target) {
            return Some(*slot);
        }
    }
    None
}

/// The first slot of a layer that holds what is sought.
fn sought_in<P: Profile>(layer: &[FullSlot], target: &Target) -> Option<FullSlot>
    ensures some { IfSome result (λ s. In s layer.now × (is_sought_at P.profile target.now s ≡ true)) }
    ensures none { IfNone result (is_sought_in P.profile target.now layer.now ≡ false) }
{
    first_in::<P>(layer, target)
}

fn first_before<P: Profile>(layer: &[FullSlot], slot: &FullSlot) -> Option<FullSlot>
    ensures { result ≡ find (λ s. leads_to_layer P.profile s slot.now) layer.now }
{
    for from in layer {
        if leads_to::<P>(from, slot) {
            return Some(*from);
        }
    }
    None
}

/// The first slot of a layer that leads to a slot.
fn before<P: Profile>(layer: &[FullSlot], slot: &FullSlot) -> Option<FullSlot>
    ensures some { IfSome result (λ s. In s layer.now × (leads_to_layer P.profile s slot.now ≡ true)) }
    ensures none { IfNone result (is_next P.profile layer.now slot.now ≡ false) }
{
    first_before::<P>(layer, slot)
}

/// The first layer in which some slot holds what is sought, by its place, with the first such slot.
fn first_sought<P: Profile>(layers: &[Vec<FullSlot>], target: &Target) -> Option<Place>
    ensures some { IfSome result (λ r. IsFirstLayer P.profile target.now (map (λ l. l.items) layers.now) r.depth r.slot) }
    ensures none { IfNone result (HasNoneSought P.profile target.now (map (λ l. l.items) layers.now) (length layers.now)) }
{
    for (depth, layer) in layers.iter().enumerate() {
        if let Some(slot) = sought_in::<P>(layer.as_slice(), target) {
            return Some(Place { depth, slot });
        }
    }
    None
}

/// The way back from a slot of a layer: from each layer before that one a slot that leads to the one before.
fn back_from<P: Profile>(
    alloc: Global,
    layers: &[Vec<FullSlot>],
    depth: usize,
    end: FullSlot,
) -> Result<Vec<FullSlot>, AllocError>
    requires within { depth < length layers.now }
    requires in_layer { In end (layer_at (map (λ l. l.items) layers.now) depth) }
    requires stepped { AreStepped P.profile (map (λ l. l.items) layers.now) }
    ensures { IfOk result (λ back. (target : TargetOf) → is_sought_at P.profile target end ≡ true → IsRunFrom P.profile target (map (λ l. l.items) layers.now) 0 depth (reverse back.items)) }
{
    let mut head = end;
    let mut back = Vec::new(alloc);
    back.push(end)?;
    for k in 0..depth {
        let Some(slot) = before::<P>(layers[depth - 1 - k].as_slice(), &head) else {
            unreachable!();
        };
        head = slot;
        back.push(slot)?;
    }
    Ok(back)
}

fn turned_round(alloc: Global, slots: &[FullSlot]) -> Result<Vec<FullSlot>, AllocError>
    ensures { IfOk result (λ v. v.items ≡ reverse slots.now) }
{
    slots.iter().rev().copied().collect(alloc)
}

/// A chain to a slot of a layer.
fn chain_to<P: Profile>(
    alloc: Global,
    layers: &[Vec<FullSlot>],
    depth: usize,
    end: FullSlot,
) -> Result<Vec<FullSlot>, AllocError>
    requires within { depth < length layers.now }
    requires in_layer { In end (layer_at (map (λ l. l.items) layers.now) depth) }
    requires stepped { AreStepped P.profile (map (λ l. l.items) layers.now) }
    ensures { IfOk result (λ chain. (target : TargetOf) → is_sought_at P.profile target end ≡ true → IsRunFrom P.profile target (map (λ l. l.items) layers.now) 0 depth chain.items) }
{
    let back = back_from::<P>(alloc, layers, depth, end)?;
    turned_round(alloc, back.as_slice())
}

/// A shortest chain of full slots from the one at `root` to a capability that is sought; no slots if there is no chain.
pub fn shortest_chain<P: Profile>(
    alloc: Global,
    filled: &[FullSlot],
    root: u64,
    target: &Target,
) -> Result<Vec<FullSlot>, AllocError>
    ensures { IfOk result (λ chain. (f : Forest Entry) → AreFullSlots f filled.now → spec.IsShortest P.profile f target.now root chain.items) }
{
    let layers = layers::<P>(alloc, filled, root)?;
    match first_sought::<P>(layers.as_slice(), target) {
        None => Ok(Vec::new(alloc)),
        Some(found) => chain_to::<P>(alloc, layers.as_slice(), found.depth, found.slot),
    }
}
