//! Capabilities that are derived and moved.
ghost use Rattle.std.specs.Prelude.{◌≡◌, true};
ghost use Rattle.kernel_forest.specs.Entries.{is_full};
ghost use Rattle.cspace_core.specs.Resolution.{is_cnode};
ghost use Rattle.kernel_abstract.specs.Memory.{IsSlotAddress};
ghost use Rattle.kernel_core.specs.Private.Spaces.{space_placement, with_root};
ghost use Rattle.kernel_abstract.specs.Private.Stores.{IsKernelStore};
ghost use Rattle.kernel_abstract.specs.Private.Invocations.{IsDerivation, IsMove};
ghost use Rattle.kernel_abstract.specs.CNodes.{with_derived, with_moved};

use cap_core::{Cap, Profile};
use kernel_abstract::invocation::{CapPlacement, NewSpace};
use slot_core::{CapStore, Slot};

/// Derives a capability from the one in a slot. An untyped region is used up where it is handed on.
#[inline(always)]
pub fn derive_in<P: Profile, S: CapStore<P>>(store: &mut S, placement: CapPlacement)
    requires store { IsKernelStore P.profile (S.memory_bits store.old) (S.forest store.old) }
    requires derivation { IsDerivation P.profile (S.forest store.old) placement }
    ensures forest { S.forest store.new ≡ with_derived P.profile placement (S.forest store.old) }
    ensures memory { S.memory_bits store.new ≡ S.memory_bits store.old }
{
    let source = Slot::of_node::<P>(placement.source, 0);
    let slot = Slot::of_node::<P>(placement.slot, 0);
    store.derive(source, slot, placement.cap);
    if let Cap::Untyped { bits, .. } = placement.cap {
        store.set_free(source, 1 << bits);
    }
}

/// Moves a capability from one slot to another.
pub fn move_in<P: Profile, S: CapStore<P>>(store: &mut S, placement: CapPlacement)
    requires store { IsKernelStore P.profile (S.memory_bits store.old) (S.forest store.old) }
    requires moved { IsMove P.profile (S.forest store.old) placement }
    ensures forest { S.forest store.new ≡ with_moved placement (S.forest store.old) }
    ensures memory { S.memory_bits store.new ≡ S.memory_bits store.old }
{
    let source = Slot::of_node::<P>(placement.source, 0);
    let slot = Slot::of_node::<P>(placement.slot, 0);
    store.relocate(source, slot, placement.cap);
}

/// Derives the capability of a thread's new space into its root slot, where the invoked slot and the source are full.
pub fn set_root<P: Profile, S: CapStore<P>>(store: &mut S, new: NewSpace)
    requires store { IsKernelStore P.profile (S.memory_bits store.old) (S.forest store.old) }
    requires source { IsSlotAddress P.profile (S.memory_bits store.old) new.source }
    requires invoked { IsSlotAddress P.profile (S.memory_bits store.old) new.invoked }
    requires node { is_cnode new.cap ≡ true }
    requires derivation { is_full new.source (S.forest store.old) ≡ true →
        is_full new.invoked (S.forest store.old) ≡ true → IsDerivation P.profile (S.forest store.old) (space_placement new) }
    ensures forest { S.forest store.new ≡ with_root new (S.forest store.old) }
    ensures memory { S.memory_bits store.new ≡ S.memory_bits store.old }
{
    if is_filled::<P, S>(store, new.source) && is_filled::<P, S>(store, new.invoked) {
        let placement = CapPlacement {
            source: new.source,
            slot: new.tcb,
            cap: new.cap,
        };
        derive_in::<P, S>(store, placement);
    }
}

/// Whether the slot at an address is full.
fn is_filled<P: Profile, S: CapStore<P>>(store: &S, slot: u64) -> bool
    requires store { IsKernelStore P.profile (S.memory_bits store.now) (S.forest store.now) }
    requires slot { IsSlotAddress P.profile (S.memory_bits store.now) slot }
    ensures { result ≡ is_full slot (S.forest store.now) }
{
    match store.get(Slot::of_node::<P>(slot, 0)) {
        Cap::Null => false,
        _ => true,
    }
}
