//! Whether a state is laid out as a layout.
ghost use Rattle.std.specs.Prelude.{◌≡◌, ◌≤◌, ◌<◌, ◌+◌, ◌*◌, ◌^◌, ◌&&◌, ℕ, IfOk, IsTrue, true, map};
ghost use Rattle.std.specs.List.{list_all, list_any};
ghost use Rattle.cap_core.specs.Numbers.{slot_size};
ghost use Rattle.kernel_abstract.specs.Plan.{IsWithinLimits};
ghost use Rattle.kernel_forest.specs.Entries.{derivations_of};
ghost use Rattle.slot_core.specs.Calls.{derivation_view};
ghost use Rattle.command_import.specs.Laid as spec;
ghost use Rattle.command_import.specs.Private.{passes};

use cap_core::{Cap, Kind, Profile};
use ipc_core::MakeWaiters;
use kernel_core::{BootPlan, Kernel, ThreadState};
use setup_layout::{Layout, Object, Slot};
use slot_core::{Derivation, DerivationStore, MakeStore};
use std::alloc::{AllocError, Global};

/// A number for each kind of object.
fn kind_number(kind: Kind) -> u8
    ensures { result ≡ spec.kind_number kind }
{
    match kind {
        Kind::Untyped => 0,
        Kind::Endpoint => 1,
        Kind::CNode => 2,
        Kind::Tcb => 3,
    }
}

/// Whether two objects of a layout are one object.
pub fn is_same(one: &Object, other: &Object) -> bool
    ensures { result ≡ spec.are_same_object one.now other.now }
{
    kind_number(one.kind) == kind_number(other.kind)
        && (one.place == other.place && one.bits == other.bits)
}

/// Whether an object of a layout is one of these.
fn is_among(object: &Object, others: &[Object]) -> bool
    ensures { result ≡ list_any (spec.are_same_object object.now) others.now }
{
    for other in others {
        if is_same(object, other) {
            return true;
        }
    }
    false
}

/// Whether no two objects of a layout are one.
fn are_apart(objects: &[Object]) -> bool
    ensures { result ≡ spec.are_objects_apart objects.now }
{
    let mut rest = objects;
    while let Some((object, others)) = rest.split_first() {
        if is_among(object, others) {
            return false;
        }
        rest = others;
    }
    true
}

/// Whether a capability is of an object.
fn is_of(object: &Object, cap: Cap) -> bool
    ensures { result ≡ spec.is_capability_of object.now.kind cap object.now }
{
    let place = u64::from(object.place);
    match (object.kind, cap) {
        (Kind::Untyped, Cap::Untyped { base, bits, .. }) => base == place && bits == object.bits,
        (Kind::Endpoint, Cap::Endpoint { base, .. }) => base == place,
        (Kind::CNode, Cap::CNode { base, radix, .. }) => base == place && radix == object.bits,
        (Kind::Tcb, Cap::Tcb { base }) => base == place,
        _ => false,
    }
}

/// Whether one of these capabilities is of an object.
fn is_held_in<P: Profile>(object: &Object, rows: &[Derivation]) -> bool
    ensures { result ≡ list_any (λ d. spec.is_capability_of object.now.kind (derivation_view P.profile d).0.cap object.now) rows.now }
{
    for row in rows {
        if is_of(object, row.cap) {
            return true;
        }
    }
    false
}

/// Whether some slot holds a capability of an object.
fn is_live<P: Profile>(object: &Object, rows: &[Derivation]) -> bool
    ensures { result ≡ spec.is_object_live (map (derivation_view P.profile) rows.now) object.now }
{
    is_held_in::<P>(object, rows)
}

/// Whether each object of a layout is live.
fn are_live<P: Profile>(objects: &[Object], rows: &[Derivation]) -> bool
    ensures { result ≡ list_all (spec.is_object_live (map (derivation_view P.profile) rows.now)) objects.now }
{
    for object in objects {
        if !is_live::<P>(object, rows) {
            return false;
        }
    }
    true
}

/// Whether the state of a thread is that of one which makes calls, or of one which makes none.
fn is_state(is_inactive: bool, state: Option<ThreadState>) -> bool
    ensures { result ≡ spec.is_state is_inactive state }
{
    match (is_inactive, state) {
        (true, Some(ThreadState::Inactive)) | (false, Some(ThreadState::Ready)) => true,
        _ => false,
    }
}

/// Whether a thread is as a layout says, with no message, and nobody waits on an endpoint.
fn stands<P: Profile, S: DerivationStore<P> + MakeStore<P>, W: MakeWaiters<P>>(
    object: &Object,
    kernel: &Kernel<P, S, W>,
) -> bool
    ensures { result ≡ spec.stands kernel.now object.now }
{
    let place = u64::from(object.place);
    match object.kind {
        Kind::Tcb => {
            is_state(object.is_inactive, kernel.thread_state(place))
                && kernel.inbox(place).is_none()
        }
        Kind::Endpoint => kernel.waiting(place, 0).is_none(),
        _ => true,
    }
}

/// Whether the threads and endpoints of a layout are as it says.
fn all_stand<P: Profile, S: DerivationStore<P> + MakeStore<P>, W: MakeWaiters<P>>(
    objects: &[Object],
    kernel: &Kernel<P, S, W>,
) -> bool
    ensures { result ≡ list_all (spec.stands kernel.now) objects.now }
{
    for object in objects {
        if !stands(object, kernel) {
            return false;
        }
    }
    true
}

/// Whether a capability of an object has the badge and the rights, or the guard, of a slot of a layout.
fn is_cap_with(kind: Kind, cap: Cap, slot: &Slot) -> bool
    ensures { result ≡ spec.is_cap_with kind cap slot.now }
{
    match (kind, cap) {
        (Kind::Endpoint, Cap::Endpoint { badge, rights, .. }) => {
            badge.0 == slot.badge && rights.0 == slot.rights.0
        }
        (Kind::CNode, Cap::CNode { guard, .. }) => {
            guard.value == slot.guard.value && guard.size == slot.guard.size
        }
        _ => true,
    }
}

/// How far a slot of an object stands behind the first.
fn slot_offset<P: Profile>(index: u32) -> u64
    ensures offset { result ≡ slot_size P.profile * index }
    ensures small { result < 2 ^ 38 }
{
    u64::from(index) << P::SLOT_BITS
}

/// The address of a slot of the object at a place.
fn slot_address<P: Profile>(place: u32, index: u32) -> u64
    ensures { result ≡ place + slot_size P.profile * index }
{
    u64::from(place) + slot_offset::<P>(index)
}

/// The address of a slot of a layout.
fn address_of<P: Profile>(objects: &[Object], slot: &Slot) -> Option<u64>
    ensures { result ≡ spec.layout_slot_address P.profile objects.now slot.now }
{
    match objects.get(slot.holder) {
        None => None,
        Some(holder) => Some(slot_address::<P>(holder.place, slot.index)),
    }
}

/// Whether a capability is that of a slot of a layout.
fn is_held(object: &Object, cap: Cap, slot: &Slot) -> bool
    ensures { result ≡ (spec.is_capability_of object.now.kind cap object.now && spec.is_cap_with object.now.kind cap slot.now) }
{
    is_of(object, cap) && is_cap_with(object.kind, cap, slot)
}

/// Whether a slot of a layout holds what the layout says.
fn is_filled<P: Profile, S: DerivationStore<P> + MakeStore<P>, W: MakeWaiters<P>>(
    objects: &[Object],
    slot: &Slot,
    kernel: &Kernel<P, S, W>,
) -> bool
    ensures { result ≡ spec.is_slot_filled P.profile objects.now kernel.now.derivations slot.now }
{
    match (address_of::<P>(objects, slot), objects.get(slot.object)) {
        (Some(address), Some(object)) => is_held(object, kernel.cap_at(address), slot),
        _ => false,
    }
}

/// Whether each slot of a layout holds what the layout says.
fn are_filled<P: Profile, S: DerivationStore<P> + MakeStore<P>, W: MakeWaiters<P>>(
    objects: &[Object],
    slots: &[Slot],
    kernel: &Kernel<P, S, W>,
) -> bool
    ensures { result ≡ list_all (spec.is_slot_filled P.profile objects.now kernel.now.derivations) slots.now }
{
    for slot in slots {
        if !is_filled(objects, slot, kernel) {
            return false;
        }
    }
    true
}

/// Whether an address is this number.
fn is_number(number: u64, address: Option<u64>) -> bool
    ensures { result ≡ spec.is_number number address }
{
    match address {
        None => false,
        Some(address) => address == number,
    }
}

/// Whether a layout fills the slot at an address.
fn is_said<P: Profile>(objects: &[Object], slots: &[Slot], address: u64) -> bool
    ensures { result ≡ list_any (λ slot. spec.is_number address (spec.layout_slot_address P.profile objects.now slot)) slots.now }
{
    for slot in slots {
        if is_number(address, address_of::<P>(objects, slot)) {
            return true;
        }
    }
    false
}

/// How many slots the root CNode has.
fn slot_count<P: Profile>(plan: &BootPlan) -> u64
    requires { IsWithinLimits P.profile plan.now }
    ensures count { result ≡ 2 ^ plan.now.root_radix }
    ensures small { result ≤ 4096 }
{
    1 << plan.root_radix()
}

/// The first address behind the root CNode.
fn root_end<P: Profile>(plan: &BootPlan) -> u64
    requires { IsWithinLimits P.profile plan.now }
    ensures { result ≡ slot_size P.profile * 2 ^ plan.now.root_radix }
{
    slot_count::<P>(plan) << P::SLOT_BITS
}

/// Whether a full slot is one of the root CNode, which ends at an address, the loader's, or one that a layout fills.
fn is_known<P: Profile>(
    end: u64,
    loader: u64,
    objects: &[Object],
    slots: &[Slot],
    address: u64,
) -> bool
    ensures { result ≡ spec.is_known P.profile end loader objects.now slots.now address }
{
    address < end || (address == loader || is_said::<P>(objects, slots, address))
}

/// Whether each of these slots is so.
fn all_known<P: Profile>(
    end: u64,
    loader: u64,
    objects: &[Object],
    slots: &[Slot],
    rows: &[Derivation],
) -> bool
    ensures { result ≡ list_all (λ d. spec.is_known P.profile end loader objects.now slots.now (derivation_view P.profile d).0.slot) rows.now }
{
    for row in rows {
        if !is_known::<P>(end, loader, objects, slots, row.slot.address::<P>()) {
            return false;
        }
    }
    true
}

/// Whether no slots are full but those.
fn are_known<P: Profile>(
    plan: &BootPlan,
    objects: &[Object],
    slots: &[Slot],
    rows: &[Derivation],
) -> bool
    requires { IsWithinLimits P.profile plan.now }
    ensures { result ≡ spec.are_slots_known P.profile plan.now objects.now slots.now (map (derivation_view P.profile) rows.now) }
{
    let end = root_end::<P>(plan);
    let loader = plan.first_tcb::<P>();
    all_known::<P>(end, loader, objects, slots, rows)
}

/// The address of a slot of a layout, by its place among the slots.
fn address_at<P: Profile>(objects: &[Object], slots: &[Slot], number: usize) -> Option<u64>
    ensures { result ≡ spec.address_at P.profile objects.now slots.now number }
{
    match slots.get(number) {
        None => None,
        Some(slot) => address_of::<P>(objects, slot),
    }
}

/// Whether a full slot stands at one address, and is derived from that at another.
fn is_pair<P: Profile>(above: u64, below: u64, row: &Derivation) -> bool
    ensures { result ≡ spec.is_pair above below (derivation_view P.profile row.now) }
{
    let parent = match row.parent {
        None => None,
        Some(parent) => Some(parent.address::<P>()),
    };
    row.slot.address::<P>() == below && is_number(above, parent)
}

/// Whether one of these slots is so.
fn is_pair_in<P: Profile>(above: u64, below: u64, rows: &[Derivation]) -> bool
    ensures { result ≡ list_any (λ d. spec.is_pair above below (derivation_view P.profile d)) rows.now }
{
    for row in rows {
        if is_pair::<P>(above, below, row) {
            return true;
        }
    }
    false
}

/// Whether some full slot is so.
fn has_pair<P: Profile>(above: u64, below: u64, rows: &[Derivation]) -> bool
    ensures { result ≡ list_any (spec.is_pair above below) (map (derivation_view P.profile) rows.now) }
{
    is_pair_in::<P>(above, below, rows)
}

/// Whether the second of two slots of a layout is derived from the first.
fn is_derived<P: Profile>(
    objects: &[Object],
    slots: &[Slot],
    rows: &[Derivation],
    pair: (usize, usize),
) -> bool
    ensures { result ≡ spec.is_derived P.profile objects.now slots.now (map (derivation_view P.profile) rows.now) pair }
{
    let above = address_at::<P>(objects, slots, pair.0);
    let below = address_at::<P>(objects, slots, pair.1);
    match (above, below) {
        (Some(above), Some(below)) => has_pair::<P>(above, below, rows),
        _ => false,
    }
}

/// Whether each slot is derived from the one from which a layout says that it is.
fn are_derived<P: Profile>(
    objects: &[Object],
    slots: &[Slot],
    rows: &[Derivation],
    derived: &[(usize, usize)],
) -> bool
    ensures { result ≡ list_all (spec.is_derived P.profile objects.now slots.now (map (derivation_view P.profile) rows.now)) derived.now }
{
    for pair in derived {
        if !is_derived::<P>(objects, slots, rows, *pair) {
            return false;
        }
    }
    true
}

/// Whether a kernel with these full slots passes all of these tests.
fn passes<P: Profile, S: DerivationStore<P> + MakeStore<P>, W: MakeWaiters<P>>(
    plan: &BootPlan,
    objects: &[Object],
    slots: &[Slot],
    derived: &[(usize, usize)],
    kernel: &Kernel<P, S, W>,
    rows: &[Derivation],
) -> bool
    requires { IsWithinLimits P.profile plan.now }
    ensures { result ≡ passes P.profile plan.now objects.now slots.now derived.now kernel.now (map (derivation_view P.profile) rows.now) }
{
    are_apart(objects)
        && (are_live::<P>(objects, rows)
            && (all_stand(objects, kernel)
                && (are_filled(objects, slots, kernel)
                    && (are_known::<P>(plan, objects, slots, rows)
                        && are_derived::<P>(objects, slots, rows, derived)))))
}

/// Whether a kernel that was booted from a plan is laid out as a layout.
pub fn is_laid_out<P: Profile, S: DerivationStore<P> + MakeStore<P>, W: MakeWaiters<P>>(
    alloc: Global,
    plan: &BootPlan,
    layout: &Layout,
    kernel: &Kernel<P, S, W>,
) -> Result<bool, AllocError>
    requires { IsWithinLimits P.profile plan.now }
    ensures { IfOk result (λ is. IsTrue is → spec.IsLaidOut P.profile plan.now layout.now kernel.now) }
{
    let rows = kernel.derivations(alloc)?;
    let (objects, slots) = (layout.objects.as_slice(), layout.slots.as_slice());
    let derived = layout.derived.as_slice();
    Ok(passes(plan, objects, slots, derived, kernel, rows.as_slice()))
}
