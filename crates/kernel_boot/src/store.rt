//! The store of a kernel at boot.
ghost use Rattle.std.specs.Prelude.{◌≡◌, ◌++◌, IfOk, OnOk};
ghost use Rattle.kernel_forest.specs.Forest.{none};
ghost use Rattle.kernel_abstract.specs.Plan.{IsPlan, IsWithinLimits};
ghost use Rattle.kernel_abstract.specs.Boot.{root_cap, tcb_caps, endpoint_caps, untyped_caps, boot_caps, with_roots, boot_forest};

use crate::plan::BootPlan;
use cap_core::{Badge, Cap, Guard, Profile, Rights};
use slot_core::{CapStore, MakeStore, Slot};
use std::alloc::{AllocError, Global};

/// A store with the capabilities of a plan's objects: all of them in the root CNode, and the root CNode's derived into
/// the root slot of each thread.
pub fn booted_store<P: Profile, S: MakeStore<P>>(
    alloc: Global,
    plan: &BootPlan,
) -> Result<S, AllocError>
    requires { IsPlan P.profile plan.now }
    ensures forest { IfOk result (λ store. S.forest store ≡ boot_forest P.profile plan.now) }
    ensures memory { IfOk result (λ store. S.memory_bits store ≡ plan.now.memory_bits) }
{
    let caps = root_capabilities::<P>(alloc, plan)?;
    let mut store = S::new(alloc, plan.memory_bits())?;
    put_all::<P, S>(&mut store, plan, caps.as_slice());
    derive_spaces::<P, S>(&mut store, plan);
    Ok(store)
}

/// The capability of the root CNode, which stands at address 0: its guard and its radix take a whole word.
fn root_capability<P: Profile>(plan: &BootPlan) -> Cap
    requires { IsWithinLimits P.profile plan.now }
    ensures { result ≡ root_cap P.profile plan.now }
{
    Cap::CNode {
        base: 0,
        radix: plan.root_radix(),
        guard: Guard {
            value: 0,
            size: P::WORD_BITS - plan.root_radix(),
        },
    }
}

/// The capabilities of the root CNode's slots, from slot 1 on: its own, the thread control blocks, the endpoints with all
/// rights, and the untyped regions.
fn root_capabilities<P: Profile>(alloc: Global, plan: &BootPlan) -> Result<Vec<Cap>, AllocError>
    requires { IsWithinLimits P.profile plan.now }
    ensures { IfOk result (λ caps. caps.items ≡ boot_caps P.profile plan.now) }
{
    let mut caps = Vec::new(alloc);
    caps.push(root_capability::<P>(plan))?;
    add_tcbs::<P>(&mut caps, plan)?;
    add_endpoints::<P>(&mut caps, plan)?;
    add_untypeds(&mut caps, plan)?;
    Ok(caps)
}

fn add_tcbs<P: Profile>(caps: &mut Vec<Cap>, plan: &BootPlan) -> Result<(), AllocError>
    requires { IsWithinLimits P.profile plan.now }
    ensures { OnOk result (caps.new.items ≡ caps.old.items ++ tcb_caps P.profile plan.now) }
{
    for i in 0..plan.threads() {
        caps.push(Cap::Tcb {
            base: plan.tcb_place::<P>(i),
        })?;
    }
    Ok(())
}

fn add_endpoints<P: Profile>(caps: &mut Vec<Cap>, plan: &BootPlan) -> Result<(), AllocError>
    requires { IsWithinLimits P.profile plan.now }
    ensures { OnOk result (caps.new.items ≡ caps.old.items ++ endpoint_caps P.profile plan.now) }
{
    for j in 0..plan.endpoints() {
        caps.push(Cap::Endpoint {
            base: plan.endpoint_place::<P>(j),
            badge: Badge(0),
            rights: Rights::ALL,
        })?;
    }
    Ok(())
}

fn add_untypeds(caps: &mut Vec<Cap>, plan: &BootPlan) -> Result<(), AllocError>
    ensures { OnOk result (caps.new.items ≡ caps.old.items ++ untyped_caps plan.now) }
{
    for untyped in plan.untypeds() {
        caps.push(Cap::Untyped {
            base: untyped.0,
            bits: untyped.1,
            free: 0,
        })?;
    }
    Ok(())
}

/// Puts the capabilities into the root CNode's slots from slot 1 on, each a tree of its own.
fn put_all<P: Profile, S: CapStore<P>>(store: &mut S, plan: &BootPlan, caps: &[Cap])
    requires plan { IsPlan P.profile plan.now }
    requires caps { caps.now ≡ boot_caps P.profile plan.now }
    requires memory { S.memory_bits store.old ≡ plan.now.memory_bits }
    requires empty { S.forest store.old ≡ none }
    ensures forest { S.forest store.new ≡ with_roots P.profile 1 (boot_caps P.profile plan.now) none }
    ensures memory { S.memory_bits store.new ≡ S.memory_bits store.old }
{
    for (i, cap) in caps.iter().enumerate() {
        store.put_root(Slot::of_node::<P>(0, i as u64 + 1), *cap);
    }
}

/// Derives the root CNode's capability into the root slot of each thread control block, which stands at its own address.
fn derive_spaces<P: Profile, S: CapStore<P>>(store: &mut S, plan: &BootPlan)
    requires plan { IsPlan P.profile plan.now }
    requires memory { S.memory_bits store.old ≡ plan.now.memory_bits }
    requires roots { S.forest store.old ≡ with_roots P.profile 1 (boot_caps P.profile plan.now) none }
    ensures forest { S.forest store.new ≡ boot_forest P.profile plan.now }
    ensures memory { S.memory_bits store.new ≡ S.memory_bits store.old }
{
    let cap = root_capability::<P>(plan);
    for i in 0..plan.threads() {
        let root_slot = Slot::of_node::<P>(plan.tcb_place::<P>(i), 0);
        store.derive(Slot::of_node::<P>(0, 1), root_slot, cap);
    }
}
