//! The full slots of a kernel.
ghost use Rattle.std.specs.Prelude.{◌≡◌, ◌==◌, true, ℕ, IfOk, OnOk, All, map};
ghost use Rattle.std.specs.Ordering.{nat_cmp};
ghost use Rattle.std.specs.List.{Contains, Any, IsDistinct};
ghost use Rattle.std.specs.List.Sorted.{IsStrictlySortedBy};
ghost use Rattle.cap_core.specs.Objects.{IsLawful};
ghost use Rattle.kernel_forest.specs.Forest.{Forest};
ghost use Rattle.kernel_forest.specs.Entries.{Entry, slots, caps, derivations_of};
ghost use Rattle.slot_core.specs.Calls.{derivation_view};
ghost use Rattle.query_reach.specs.declared.filled.FullSlot.{FullSlot as FullSlotOf};
ghost use Rattle.query_reach.specs.FullSlots.{AreFullSlots, AreLawful, AreRising};
ghost use Rattle.query_reach.specs.Private.Rows.{full_slot};

use cap_core::{Cap, Profile};
use slot_core::Derivation;
use std::alloc::{AllocError, Global};

/// A full slot, by its address, and the capability that it holds.
#[derive(Clone, Copy)]
pub struct FullSlot {
    pub address: u64,
    pub cap: Cap,
}

/// The slots of some derivations, each with what it holds.
fn slots_of<P: Profile>(
    alloc: Global,
    derivations: &[Derivation],
) -> Result<Vec<FullSlot>, AllocError>
    ensures { IfOk result (λ filled. filled.items ≡ map (full_slot P.profile) derivations.now) }
{
    let mut filled = Vec::new(alloc);
    for derivation in derivations {
        filled.push(FullSlot {
            address: derivation.slot.address::<P>(),
            cap: derivation.cap,
        })?;
    }
    Ok(filled)
}

/// Puts slots into the order of their addresses, each once.
fn put_in_order(filled: &mut Vec<FullSlot>) -> Result<(), AllocError>
    ensures rising { OnOk result (IsStrictlySortedBy (λ u v. nat_cmp u.address v.address) filled.new.items) }
    ensures only { OnOk result ((u : FullSlotOf) → Contains filled.new.items u → Contains filled.old.items u) }
    ensures all { OnOk result ((u : FullSlotOf) → Contains filled.old.items u → Any (λ v. (u.address == v.address) ≡ true) filled.new.items) }
{
    filled.sort_by_key(|slot| slot.address)?;
    filled.dedup_by_key(|slot| slot.address);
    Ok(())
}

/// All full slots, each with what it holds, in the order of their addresses, by the derivations that a store or a kernel
/// tells. What threads reach is looked up in this list, which is made once for all of them.
pub fn full_slots<P: Profile>(
    alloc: Global,
    derivations: &[Derivation],
) -> Result<Vec<FullSlot>, AllocError>
    ensures slots { IfOk result (λ filled. (f : Forest Entry) → map (derivation_view P.profile) derivations.now ≡ derivations_of f
        → IsDistinct (λ (a b : ℕ). a == b) (slots f) → AreFullSlots f filled.items) }
    ensures lawful { IfOk result (λ filled. (memory : ℕ) (f : Forest Entry) → map (derivation_view P.profile) derivations.now ≡ derivations_of f
        → All (IsLawful P.profile memory) (caps f) → AreLawful P.profile filled.items) }
    ensures rising { IfOk result (λ filled. AreRising filled.items) }
{
    let mut filled = slots_of::<P>(alloc, derivations)?;
    put_in_order(&mut filled)?;
    Ok(filled)
}
