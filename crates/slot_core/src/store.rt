//! What a capability store does.
ghost use Rattle.std.specs.Prelude.{◌≡◌, ℕ, ◌^◌, ◌<◌, ◌≤◌, true, false, IfOk, option_map, ◌⊎◌};
ghost use Rattle.cap_core.specs.Objects.{IsLawful, is_untyped, badge_of, contains};
ghost use Rattle.cap_core.specs.declared.capability.Cap.TheVariants.{Null};
ghost use Rattle.slot_core.specs.Places.{address_of};
ghost use Rattle.slot_core.specs.Calls.{held, is_filled, newest_child, rooted_at, retyped_at, derived_at, moved_at};
ghost use Rattle.slot_core.specs.Calls.{freed_at, emptied_at};
ghost use Rattle.slot_core.specs.Calls.{KeepsBadge, IsChildless};
ghost use Rattle.kernel_forest.specs.Forest.{Forest, none};
ghost use Rattle.kernel_forest.specs.Entries.{Entry};
ghost use Rattle.kernel_forest.specs.Derivation.{with_free, names_same, is_named, is_last as is_last_of};
ghost use Rattle.kernel_forest.specs.Disjoint.{IsDisjoint};

use crate::slot::Slot;
use cap_core::limits::{MAX_MEMORY_BITS, MIN_MEMORY_BITS};
use cap_core::{Cap, Profile};
use std::alloc::{AllocError, Global};

/// Slots with capabilities, and the forest of their derivation (seL4 Reference Manual, on the capability derivation
/// tree).
///
/// Contracts see a store as its derivation forest, whose entries are the full slots with their capabilities and
/// whether each is original, and as the bits of its memory's size. No call takes memory.
pub trait CapStore<P: Profile> {
    ghost forest: { Self → Forest Entry };

    ghost memory_bits: { Self → ℕ };

    /// The capability in a slot: `Null` in an empty slot and past the end of the memory.
    fn get(&self, slot: Slot) -> Cap
        ensures cap { result ≡ held P.profile slot (forest self.now) }
        ensures lawful { (result ≡ Null) ⊎ IsLawful P.profile (memory_bits self.now) result }
        ensures past { 2 ^ memory_bits self.now ≤ address_of P.profile slot → result ≡ Null };

    /// Puts a capability that is derived from none into an empty slot: a tree of its own, original, the last one.
    fn put_root(&mut self, slot: Slot, cap: Cap)
        requires within { address_of P.profile slot < 2 ^ memory_bits self.old }
        requires empty { is_filled P.profile slot (forest self.old) ≡ false }
        requires lawful { IsLawful P.profile (memory_bits self.old) cap }
        requires unnamed { is_named cap (forest self.old) ≡ false }
        requires disjoint { IsDisjoint P.profile (rooted_at P.profile slot cap (forest self.old)) }
        ensures forest { forest self.new ≡ rooted_at P.profile slot cap (forest self.old) }
        ensures memory { memory_bits self.new ≡ memory_bits self.old };

    /// Puts the capability of a new object into an empty slot: the first child of the untyped in `parent`, and
    /// original.
    fn put_new(&mut self, parent: Slot, slot: Slot, cap: Cap)
        requires parent { is_untyped (held P.profile parent (forest self.old)) ≡ true }
        requires contains { contains P.profile (held P.profile parent (forest self.old)) cap ≡ true }
        requires within { address_of P.profile slot < 2 ^ memory_bits self.old }
        requires empty { is_filled P.profile slot (forest self.old) ≡ false }
        requires lawful { IsLawful P.profile (memory_bits self.old) cap }
        requires unnamed { is_named cap (forest self.old) ≡ false }
        requires disjoint { IsDisjoint P.profile (retyped_at P.profile parent slot cap (forest self.old)) }
        ensures forest { forest self.new ≡ retyped_at P.profile parent slot cap (forest self.old) }
        ensures memory { memory_bits self.new ≡ memory_bits self.old };

    /// Puts a capability that is derived from the one in `source` into the empty slot `slot`: the first child of an
    /// original source, and the next sibling of another. It is original where it is untyped or has another badge.
    fn derive(&mut self, source: Slot, slot: Slot, cap: Cap)
        requires source { is_filled P.profile source (forest self.old) ≡ true }
        requires within { address_of P.profile slot < 2 ^ memory_bits self.old }
        requires empty { is_filled P.profile slot (forest self.old) ≡ false }
        requires lawful { IsLawful P.profile (memory_bits self.old) cap }
        requires same { names_same (held P.profile source (forest self.old)) cap ≡ true }
        requires badge { KeepsBadge (held P.profile source (forest self.old)) cap }
        requires childless { IsChildless P.profile source cap (forest self.old) }
        requires disjoint { IsDisjoint P.profile (derived_at P.profile source slot cap (forest self.old)) }
        ensures forest { forest self.new ≡ derived_at P.profile source slot cap (forest self.old) }
        ensures memory { memory_bits self.new ≡ memory_bits self.old };

    /// Moves a capability from `source` to the empty slot `slot`, as `cap`, which names the same object with the same
    /// badge. It keeps its place in the forest and whether it is original; `source` is empty afterwards.
    fn relocate(&mut self, source: Slot, slot: Slot, cap: Cap)
        requires source { is_filled P.profile source (forest self.old) ≡ true }
        requires within { address_of P.profile slot < 2 ^ memory_bits self.old }
        requires empty { is_filled P.profile slot (forest self.old) ≡ false }
        requires lawful { IsLawful P.profile (memory_bits self.old) cap }
        requires same { names_same (held P.profile source (forest self.old)) cap ≡ true }
        requires badge { badge_of cap ≡ badge_of (held P.profile source (forest self.old)) }
        requires disjoint { IsDisjoint P.profile (moved_at P.profile source slot cap (forest self.old)) }
        ensures forest { forest self.new ≡ moved_at P.profile source slot cap (forest self.old) }
        ensures memory { memory_bits self.new ≡ memory_bits self.old };

    /// Sets the free index, in bytes, of the untyped capability in a slot.
    fn set_free(&mut self, slot: Slot, free: u64)
        requires untyped { is_untyped (held P.profile slot (forest self.old)) ≡ true }
        requires lawful { IsLawful P.profile (memory_bits self.old) (with_free free (held P.profile slot (forest self.old))) }
        ensures forest { forest self.new ≡ freed_at P.profile slot free (forest self.old) }
        ensures memory { memory_bits self.new ≡ memory_bits self.old };

    /// Empties a full slot; its children take its place in the forest, in their order.
    fn remove(&mut self, slot: Slot)
        requires full { is_filled P.profile slot (forest self.old) ≡ true }
        ensures forest { forest self.new ≡ emptied_at P.profile slot (forest self.old) }
        ensures memory { memory_bits self.new ≡ memory_bits self.old };

    /// The newest child of a slot; an empty slot has none.
    fn first_child(&self, slot: Slot) -> Option<Slot>
        ensures { option_map (address_of P.profile) result ≡ newest_child P.profile slot (forest self.now) };

    /// Whether the capability in a full slot is the last of its object: it is untyped, or no other slot names the
    /// object.
    fn is_last(&self, slot: Slot) -> bool
        requires full { is_filled P.profile slot (forest self.now) ≡ true }
        ensures { result ≡ is_last_of (address_of P.profile slot) (forest self.now) };
}

/// A store that can be made.
pub trait MakeStore<P: Profile>: CapStore<P> + Drop {
    /// An empty store for a memory of 2^`memory_bits` bytes, with all the room that it will ever need.
    fn new(alloc: Global, memory_bits: u32) -> Result<Self, AllocError>
        requires least { MIN_MEMORY_BITS ≤ memory_bits }
        requires most { memory_bits ≤ MAX_MEMORY_BITS }
        ensures empty { IfOk result (λ s. Self.forest s ≡ none) }
        ensures memory { IfOk result (λ s. Self.memory_bits s ≡ memory_bits) };

    /// A store of its own with the same contents, and all the room that it will ever need.
    fn copy(&self, alloc: Global) -> Result<Self, AllocError>
        ensures forest { IfOk result (λ s. Self.forest s ≡ Self.forest self.now) }
        ensures memory { IfOk result (λ s. Self.memory_bits s ≡ Self.memory_bits self.now) };
}

/// A store that is copied into the room of another one, and whose contents are kept in no more room than they take.
pub trait SaveStore<P: Profile>: MakeStore<P> {
    /// What a store holds, without the room for more.
    type Saved: Drop;

    ghost saved_forest: { Self.Saved → Forest Entry };

    ghost saved_memory: { Self.Saved → ℕ };

    /// The same, in the room of a store that is given up. It takes memory only where that has too little room.
    fn copy_into(&self, spare: Self) -> Result<Self, AllocError>
        ensures forest { IfOk result (λ s. Self.forest s ≡ Self.forest self.now) }
        ensures memory { IfOk result (λ s. Self.memory_bits s ≡ Self.memory_bits self.now) };

    /// What a store holds, in no more room than that takes.
    fn save(&self, alloc: Global) -> Result<Self::Saved, AllocError>
        ensures forest { IfOk result (λ s. Self.saved_forest s ≡ Self.forest self.now) }
        ensures memory { IfOk result (λ s. Self.saved_memory s ≡ Self.memory_bits self.now) };

    /// A store that holds what was saved, in the room of one that is given up. It takes memory only where that has too little
    /// room.
    fn restore(saved: &Self::Saved, spare: Self) -> Result<Self, AllocError>
        ensures forest { IfOk result (λ s. Self.forest s ≡ Self.saved_forest saved.now) }
        ensures memory { IfOk result (λ s. Self.memory_bits s ≡ Self.saved_memory saved.now) };
}
