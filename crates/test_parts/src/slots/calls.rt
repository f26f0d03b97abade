//! Calls of a store, each made only if it is lawful.
ghost use Rattle.std.specs.Prelude.{◌≡◌, ◌<◌, ◌*◌, ◌+◌, ◌≤◌, ◌%◌, ◌⊎◌, true, false, IfSome, IfOk, None};
ghost use Rattle.std.specs.List.{AllByRecursion as Each};
ghost use Rattle.cap_core.specs.Numbers.{slot_size};
ghost use Rattle.cap_core.specs.Objects.{IsLawful, is_null as is_null_in, is_untyped as is_untyped_in, badge_of};
ghost use Rattle.cap_core.specs.Objects.{base_of, end_of, contains, are_apart};
ghost use Rattle.cap_core.specs.declared.capability.Cap.TheVariants.{Null};
ghost use Rattle.kernel_forest.specs.Forest.{preorder};
ghost use Rattle.kernel_forest.specs.Entries.{Entry, is_full, first_child};
ghost use Rattle.kernel_forest.specs.Derivation.{names_same};
ghost use Rattle.slot_core.specs.Places.{address_of};
ghost use Rattle.slot_core.specs.Calls.{IsChildless};
ghost use Rattle.test_parts.specs.TestForests.{HasRoom, IsTestForest, is_clear as is_clear_in};
ghost use Rattle.test_parts.specs.TestForests.{leaves_room as leaves_room_in};

use cap_core::{Badge, Cap, Guard, Profile, Rights, in_region, range_of};
use slot_core::{CapStore, MakeStore, Slot};
use std::alloc::{AllocError, Global};

pub fn slot<P: Profile>(index: u64) -> Slot
    requires { index < 16 }
    ensures { address_of P.profile result ≡ index * slot_size P.profile }
{
    Slot::of_node::<P>(0, index)
}

pub fn is_null(cap: Cap) -> bool
    ensures { result ≡ is_null_in cap }
{
    match cap {
        Cap::Null => true,
        _ => false,
    }
}

/// Whether a slot is empty.
pub fn is_empty<P: Profile, S: CapStore<P>>(store: &S, slot: Slot) -> bool
    requires forest { IsTestForest P.profile (S.forest store.now) }
    ensures { result ≡ true → is_full (address_of P.profile slot) (S.forest store.now) ≡ false }
{
    is_null(store.get(slot))
}

pub fn is_untyped(cap: Cap) -> bool
    ensures { result ≡ is_untyped_in cap }
{
    match cap {
        Cap::Untyped { .. } => true,
        _ => false,
    }
}

/// A new object at an address: an untyped region of 2^6 or, if it fits, of 2^8 or 2^10 bytes, a CNode or an
/// endpoint.
pub fn object<P: Profile>(base: u64, choice: u64) -> Cap
    requires aligned { base % 64 ≡ 0 }
    requires end { base + 64 ≤ 4096 }
    ensures { IsLawful P.profile 12 result }
{
    match choice {
        0 => Cap::Untyped {
            base,
            bits: 6,
            free: 0,
        },
        1 if base % 256 == 0 => Cap::Untyped {
            base,
            bits: 8,
            free: 0,
        },
        2 if base % 1024 == 0 => Cap::Untyped {
            base,
            bits: 10,
            free: 0,
        },
        3 => Cap::CNode {
            base,
            radix: 1,
            guard: Guard { value: 0, size: 0 },
        },
        _ => Cap::Endpoint {
            base,
            badge: Badge(0),
            rights: Rights::ALL,
        },
    }
}

/// The first address past an object.
pub fn end<P: Profile>(cap: Cap) -> u64
    requires { IsLawful P.profile 12 cap }
    ensures { result ≡ end_of P.profile cap }
{
    match range_of::<P>(cap) {
        Some(range) => range.first + (1 << range.bits),
        None => 0,
    }
}

pub fn base<P: Profile>(cap: Cap) -> u64
    requires { IsLawful P.profile 12 cap }
    ensures { result ≡ base_of cap }
{
    match range_of::<P>(cap) {
        Some(range) => range.first,
        None => 0,
    }
}

/// Whether what a slot holds is apart from a capability's object.
pub fn is_clear<P: Profile>(cap: Cap, held: Cap) -> bool
    requires cap { IsLawful P.profile 12 cap }
    requires held { (held ≡ Null) ⊎ IsLawful P.profile 12 held }
    ensures { result ≡ is_clear_in P.profile cap held }
{
    is_null(held) || end::<P>(held) <= base::<P>(cap) || end::<P>(cap) <= base::<P>(held)
}

/// Whether what a slot holds lies outside a region, or ends in front of a capability's object.
pub fn leaves_room<P: Profile>(region: Cap, cap: Cap, held: Cap) -> bool
    requires region { IsLawful P.profile 12 region }
    requires cap { IsLawful P.profile 12 cap }
    requires held { (held ≡ Null) ⊎ IsLawful P.profile 12 held }
    ensures { result ≡ leaves_room_in P.profile region cap held }
{
    is_null(held)
        || !(base::<P>(region) <= base::<P>(held) && end::<P>(held) <= end::<P>(region))
        || end::<P>(held) <= base::<P>(cap)
}

/// Whether a capability's object is apart from all that the store holds.
pub fn is_apart<P: Profile, S: CapStore<P>>(store: &S, cap: Cap) -> bool
    requires cap { IsLawful P.profile 12 cap }
    requires memory { S.memory_bits store.now ≡ 12 }
    requires forest { IsTestForest P.profile (S.forest store.now) }
    ensures { result ≡ true → Each (λ (e : Entry). are_apart P.profile e.cap cap ≡ true) (preorder (S.forest store.now)) }
{
    for i in 0..16 {
        if !is_clear::<P>(cap, store.get(slot::<P>(i))) {
            return false;
        }
    }
    true
}

/// Whether all else that lies in the region of a slot ends in front of a capability's object.
pub fn has_room<P: Profile, S: CapStore<P>>(store: &S, parent: u64, region: Cap, cap: Cap) -> bool
    requires region { IsLawful P.profile 12 region }
    requires cap { IsLawful P.profile 12 cap }
    requires memory { S.memory_bits store.now ≡ 12 }
    requires forest { IsTestForest P.profile (S.forest store.now) }
    ensures { result ≡ true → HasRoom P.profile parent region cap (S.forest store.now) }
{
    for i in 0..16 {
        if i != parent && !leaves_room::<P>(region, cap, store.get(slot::<P>(i))) {
            return false;
        }
    }
    true
}

/// Puts a capability that is derived from none into a slot, if the slot is empty and the object is apart from all
/// others.
pub fn put_root<P: Profile, S: CapStore<P>>(store: &mut S, target: u64, cap: Cap)
    requires target { target < 16 }
    requires lawful { IsLawful P.profile 12 cap }
    requires memory { S.memory_bits store.old ≡ 12 }
    requires forest { IsTestForest P.profile (S.forest store.old) }
    ensures memory { S.memory_bits store.new ≡ 12 }
    ensures forest { IsTestForest P.profile (S.forest store.new) }
{
    let at = slot::<P>(target);
    if !is_empty::<P, S>(store, at) || !is_apart::<P, S>(store, cap) {
        return;
    }
    store.put_root(at, cap);
}

/// Sets the free index of a slot's capability, if that is untyped and its region as long.
pub fn set_free<P: Profile, S: CapStore<P>>(store: &mut S, source: u64, free: u64)
    requires source { source < 16 }
    requires memory { S.memory_bits store.old ≡ 12 }
    requires forest { IsTestForest P.profile (S.forest store.old) }
    ensures memory { S.memory_bits store.new ≡ 12 }
    ensures forest { IsTestForest P.profile (S.forest store.new) }
{
    let at = slot::<P>(source);
    let cap = store.get(at);
    if !is_untyped(cap) || end::<P>(cap) - base::<P>(cap) < free {
        return;
    }
    store.set_free(at, free);
}

/// The capability of a new object at the first free byte of an untyped region, if that is a multiple of 64 and the
/// object lies in the region.
pub fn next_object<P: Profile>(region: Cap, choice: u64) -> Option<Cap>
    requires { (region ≡ Null) ⊎ IsLawful P.profile 12 region }
    ensures lawful { IfSome result (λ cap. IsLawful P.profile 12 cap) }
    ensures untyped { IfSome result (λ cap. is_untyped_in region ≡ true) }
    ensures contains { IfSome result (λ cap. contains P.profile region cap ≡ true) }
{
    match region {
        Cap::Untyped { base, free, .. } if (base + free) % 64 == 0 && base + free < 4096 => {
            let cap = object::<P>(base + free, choice);
            if in_region::<P>(region, cap) {
                Some(cap)
            } else {
                None
            }
        }
        _ => None,
    }
}

/// Puts a new object's capability into an empty slot, below an untyped one, if there is room, and counts that as
/// used.
pub fn put_new<P: Profile, S: CapStore<P>>(store: &mut S, source: u64, target: u64, choice: u64)
    requires source { source < 16 }
    requires target { target < 16 }
    requires memory { S.memory_bits store.old ≡ 12 }
    requires forest { IsTestForest P.profile (S.forest store.old) }
    ensures memory { S.memory_bits store.new ≡ 12 }
    ensures forest { IsTestForest P.profile (S.forest store.new) }
{
    let from = slot::<P>(source);
    let to = slot::<P>(target);
    let region = store.get(from);
    if let Some(cap) = next_object::<P>(region, choice) {
        if !is_empty::<P, S>(store, to) || !has_room::<P, S>(store, source, region, cap) {
            return;
        }
        let used = end::<P>(cap) - base::<P>(region);
        store.put_new(from, to, cap);
        set_free::<P, S>(store, source, (used + 63) / 64 * 64);
    }
}

/// The same capability, with a badge if it is an endpoint's without one.
pub fn rebadged<P: Profile>(cap: Cap, badge: u64) -> Cap
    requires { IsLawful P.profile 12 cap }
    ensures lawful { IsLawful P.profile 12 result }
    ensures same { names_same cap result ≡ true }
    ensures badge { (badge_of result ≡ badge_of cap) ⊎ (badge_of cap ≡ 0) }
{
    match cap {
        Cap::Endpoint {
            base,
            badge: Badge(0),
            rights,
        } => Cap::Endpoint {
            base,
            badge: Badge(badge),
            rights,
        },
        _ => cap,
    }
}

/// Whether a capability may be derived from the one in a slot: an untyped one only if the slot has no child.
pub fn may_derive<P: Profile, S: CapStore<P>>(store: &S, source: Slot, cap: Cap) -> bool
    ensures { result ≡ true → IsChildless P.profile source cap (S.forest store.now) }
{
    !is_untyped(cap) || store.first_child(source).is_none()
}

/// Derives a capability, if the source is full, the slot is empty and nothing else forbids it.
pub fn derive<P: Profile, S: CapStore<P>>(store: &mut S, source: u64, target: u64, badge: u64)
    requires source { source < 16 }
    requires target { target < 16 }
    requires memory { S.memory_bits store.old ≡ 12 }
    requires forest { IsTestForest P.profile (S.forest store.old) }
    ensures memory { S.memory_bits store.new ≡ 12 }
    ensures forest { IsTestForest P.profile (S.forest store.new) }
{
    let from = slot::<P>(source);
    let to = slot::<P>(target);
    let held = store.get(from);
    if is_null(held) || !is_empty::<P, S>(store, to) {
        return;
    }
    let cap = rebadged::<P>(held, badge);
    if may_derive::<P, S>(store, from, cap) {
        store.derive(from, to, cap);
    }
}

/// Moves a capability, if the source is full and the slot is empty.
pub fn relocate<P: Profile, S: CapStore<P>>(store: &mut S, source: u64, target: u64)
    requires source { source < 16 }
    requires target { target < 16 }
    requires memory { S.memory_bits store.old ≡ 12 }
    requires forest { IsTestForest P.profile (S.forest store.old) }
    ensures memory { S.memory_bits store.new ≡ 12 }
    ensures forest { IsTestForest P.profile (S.forest store.new) }
{
    let from = slot::<P>(source);
    let to = slot::<P>(target);
    let cap = store.get(from);
    if is_null(cap) || !is_empty::<P, S>(store, to) {
        return;
    }
    store.relocate(from, to, cap);
}

/// Empties a slot, if it is full.
pub fn remove<P: Profile, S: CapStore<P>>(store: &mut S, source: u64)
    requires source { source < 16 }
    requires memory { S.memory_bits store.old ≡ 12 }
    requires forest { IsTestForest P.profile (S.forest store.old) }
    ensures memory { S.memory_bits store.new ≡ 12 }
    ensures forest { IsTestForest P.profile (S.forest store.new) }
{
    let at = slot::<P>(source);
    if !is_null(store.get(at)) {
        store.remove(at);
    }
}

/// An empty store for a memory of 2^12 bytes.
pub fn new_store<P: Profile, S: MakeStore<P>>(alloc: Global) -> Result<S, AllocError>
    ensures memory { IfOk result (λ s. S.memory_bits s ≡ 12) }
    ensures forest { IfOk result (λ s. IsTestForest P.profile (S.forest s)) }
{
    let store = S::new(alloc, 12)?;
    Ok(store)
}

/// Whether the capability in a slot is the last of its object, if the slot is full.
pub fn is_last<P: Profile, S: CapStore<P>>(store: &S, slot: Slot) -> bool {
    !is_null(store.get(slot)) && store.is_last(slot)
}
