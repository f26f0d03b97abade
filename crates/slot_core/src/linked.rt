//! The capability store as one doubly linked list of slots, with two marks a slot and no tree.
ghost use Rattle.std.specs.Prelude.{◌≡◌};

mod table;
mod walk;

pub use self::table::Link;
use self::table::{
    EMPTY, append, free_from, insert_after, is_parent, names, replace, row, row_within, unlink,
};
use crate::derived::is_new_original;
use crate::slot::Slot;
use crate::store::{CapStore, MakeStore, SaveStore};
use cap_core::{Cap, Profile};
use std::alloc::{AllocError, Global};
use std::marker::{Model, PhantomData};

/// The linked form of a capability store: a row for each slot of the memory, and the first and the last slot of the
/// list.
#[derive(Drop)]
pub struct LinkedStore<P: Profile> {
    links: Vec<Link>,
    first: Option<Slot>,
    last: Option<Slot>,
    profile: PhantomData<P>,
}

impl<P: Profile> Model for LinkedStore<P> {
    ghost use Rattle.std.specs.Prelude.{ℕ, List};
    ghost use Rattle.kernel_forest.specs.Marked.{Marked};

    ghost Value = { List Marked × ℕ };

    ghost use Rattle.slot_core.specs.Links.{place_in, rows_of, memory_of, IsLinkedStore};

    ghost view = { λ s. (rows_of s.links.items (place_in s.first), memory_of P.profile s.links.items) };

    ghost invariant = { λ s. IsLinkedStore P.profile s.links.items (place_in s.first) (place_in s.last) };
}

impl<P: Profile> CapStore<P> for LinkedStore<P> {
    ghost use Rattle.std.specs.Prelude.{◌^◌, ◌<◌, true, false};
    ghost use Rattle.cap_core.specs.Objects.{IsLawful, is_untyped, badge_of, contains};
    ghost use Rattle.slot_core.specs.Places.{address_of};
    ghost use Rattle.slot_core.specs.Calls.{held, is_filled, rooted_at, retyped_at, derived_at, moved_at, freed_at};
    ghost use Rattle.slot_core.specs.Calls.{emptied_at};
    ghost use Rattle.slot_core.specs.Calls.{KeepsBadge, IsChildless};
    ghost use Rattle.kernel_forest.specs.Derivation.{with_free, names_same, is_named};
    ghost use Rattle.kernel_forest.specs.Disjoint.{IsDisjoint};
    ghost use Rattle.kernel_forest.specs.Marked.{forest_of};
    ghost use Rattle.kernel_forest.specs.MarkedEdits.{appended, object_behind, derived_behind, moved_to};
    ghost use Rattle.kernel_forest.specs.MarkedEdits.{freed_at as freed_in, taken_out};

    ghost forest = { λ s. forest_of P.profile s.0 };

    ghost memory_bits = { λ s. s.1 };

    #[inline(always)]
    fn get(&self, slot: Slot) -> Cap {
        row(&self.links, slot).cap
    }

    fn put_root(&mut self, slot: Slot, cap: Cap)
        requires within { address_of P.profile slot < 2 ^ self.old.1 }
        requires empty { is_filled P.profile slot (forest_of P.profile self.old.0) ≡ false }
        requires lawful { IsLawful P.profile (self.old.1) cap }
        requires unnamed { is_named cap (forest_of P.profile self.old.0) ≡ false }
        requires disjoint { IsDisjoint P.profile (rooted_at P.profile slot cap (forest_of P.profile self.old.0)) }
        ensures list { self.new.0 ≡ appended slot.place cap self.old.0 }
        ensures forest { forest_of P.profile self.new.0 ≡ rooted_at P.profile slot cap (forest_of P.profile self.old.0) }
        ensures memory { self.new.1 ≡ self.old.1 }
    {
        append(&mut self.links, &mut self.first, &mut self.last, slot, cap);
    }

    #[inline(always)]
    fn derive(&mut self, source: Slot, slot: Slot, cap: Cap)
        requires source { is_filled P.profile source (forest_of P.profile self.old.0) ≡ true }
        requires within { address_of P.profile slot < 2 ^ self.old.1 }
        requires empty { is_filled P.profile slot (forest_of P.profile self.old.0) ≡ false }
        requires lawful { IsLawful P.profile (self.old.1) cap }
        requires same { names_same (held P.profile source (forest_of P.profile self.old.0)) cap ≡ true }
        requires badge { KeepsBadge (held P.profile source (forest_of P.profile self.old.0)) cap }
        requires childless { IsChildless P.profile source cap (forest_of P.profile self.old.0) }
        requires disjoint { IsDisjoint P.profile (derived_at P.profile source slot cap (forest_of P.profile self.old.0)) }
        ensures list { self.new.0 ≡ derived_behind source.place slot.place cap self.old.0 }
        ensures forest { forest_of P.profile self.new.0 ≡ derived_at P.profile source slot cap (forest_of P.profile self.old.0) }
        ensures memory { self.new.1 ≡ self.old.1 }
    {
        let marks = is_new_original(row_within(&self.links, source).cap, cap);
        insert_after(
            &mut self.links,
            &mut self.first,
            &mut self.last,
            source,
            slot,
            cap,
            marks,
        );
    }

    fn put_new(&mut self, parent: Slot, slot: Slot, cap: Cap)
        requires parent { is_untyped (held P.profile parent (forest_of P.profile self.old.0)) ≡ true }
        requires contains { contains P.profile (held P.profile parent (forest_of P.profile self.old.0)) cap ≡ true }
        requires within { address_of P.profile slot < 2 ^ self.old.1 }
        requires empty { is_filled P.profile slot (forest_of P.profile self.old.0) ≡ false }
        requires lawful { IsLawful P.profile (self.old.1) cap }
        requires unnamed { is_named cap (forest_of P.profile self.old.0) ≡ false }
        requires disjoint { IsDisjoint P.profile (retyped_at P.profile parent slot cap (forest_of P.profile self.old.0)) }
        ensures list { self.new.0 ≡ object_behind parent.place slot.place cap self.old.0 }
        ensures forest { forest_of P.profile self.new.0 ≡ retyped_at P.profile parent slot cap (forest_of P.profile self.old.0) }
        ensures memory { self.new.1 ≡ self.old.1 }
    {
        let marks = true;
        insert_after(
            &mut self.links,
            &mut self.first,
            &mut self.last,
            parent,
            slot,
            cap,
            marks,
        );
    }

    #[inline(always)]
    fn relocate(&mut self, source: Slot, slot: Slot, cap: Cap)
        requires source { is_filled P.profile source (forest_of P.profile self.old.0) ≡ true }
        requires within { address_of P.profile slot < 2 ^ self.old.1 }
        requires empty { is_filled P.profile slot (forest_of P.profile self.old.0) ≡ false }
        requires lawful { IsLawful P.profile (self.old.1) cap }
        requires same { names_same (held P.profile source (forest_of P.profile self.old.0)) cap ≡ true }
        requires badge { badge_of cap ≡ badge_of (held P.profile source (forest_of P.profile self.old.0)) }
        requires disjoint { IsDisjoint P.profile (moved_at P.profile source slot cap (forest_of P.profile self.old.0)) }
        ensures list { self.new.0 ≡ moved_to source.place slot.place cap self.old.0 }
        ensures forest { forest_of P.profile self.new.0 ≡ moved_at P.profile source slot cap (forest_of P.profile self.old.0) }
        ensures memory { self.new.1 ≡ self.old.1 }
    {
        replace(
            &mut self.links,
            &mut self.first,
            &mut self.last,
            source,
            slot,
            cap,
        );
    }

    fn set_free(&mut self, slot: Slot, free: u64)
        requires untyped { is_untyped (held P.profile slot (forest_of P.profile self.old.0)) ≡ true }
        requires lawful { IsLawful P.profile (self.old.1) (with_free free (held P.profile slot (forest_of P.profile self.old.0))) }
        ensures list { self.new.0 ≡ freed_in slot.place free self.old.0 }
        ensures forest { forest_of P.profile self.new.0 ≡ freed_at P.profile slot free (forest_of P.profile self.old.0) }
        ensures memory { self.new.1 ≡ self.old.1 }
    {
        free_from(&mut self.links, slot, free);
    }

    fn remove(&mut self, slot: Slot)
        requires full { is_filled P.profile slot (forest_of P.profile self.old.0) ≡ true }
        ensures list { self.new.0 ≡ taken_out slot.place self.old.0 }
        ensures forest { forest_of P.profile self.new.0 ≡ emptied_at P.profile slot (forest_of P.profile self.old.0) }
        ensures memory { self.new.1 ≡ self.old.1 }
    {
        unlink(&mut self.links, &mut self.first, &mut self.last, slot);
    }

    #[inline(always)]
    fn first_child(&self, slot: Slot) -> Option<Slot> {
        let link = row(&self.links, slot);
        let next = link.next?;
        if is_parent::<P>(link, row(&self.links, next)) {
            Some(next)
        } else {
            None
        }
    }

    fn is_last(&self, slot: Slot) -> bool {
        let link = row(&self.links, slot);
        match link.cap {
            Cap::Untyped { .. } => true,
            cap => !names(&self.links, link.previous, cap) && !names(&self.links, link.next, cap),
        }
    }
}

impl<P: Profile> MakeStore<P> for LinkedStore<P> {
    ghost use Rattle.std.specs.Prelude.{IfOk};
    ghost use Rattle.kernel_forest.specs.Marked.{forest_of};

    fn new(alloc: Global, memory_bits: u32) -> Result<LinkedStore<P>, AllocError> {
        Ok(LinkedStore {
            links: Vec::from_elem(alloc, EMPTY, 1 << (memory_bits - P::SLOT_BITS))?,
            first: None,
            last: None,
            profile: PhantomData,
        })
    }

    fn copy(&self, alloc: Global) -> Result<LinkedStore<P>, AllocError>
        ensures list { IfOk result (λ s. s ≡ self.now) }
        ensures forest { IfOk result (λ s. forest_of P.profile s.0 ≡ forest_of P.profile self.now.0) }
        ensures memory { IfOk result (λ s. s.1 ≡ self.now.1) }
    {
        // Each field is named and bound at its type, so a field more, of a tree or of further marks, would not
        // compile.
        let LinkedStore {
            links,
            first,
            last,
            profile,
        } = self;
        let links: &Vec<Link> = links;
        let first: &Option<Slot> = first;
        let last: &Option<Slot> = last;
        let _profile: &PhantomData<P> = profile;
        let mut copied = Vec::with_capacity(alloc, links.len())?;
        copied.extend_from_slice(links)?;
        Ok(LinkedStore {
            links: copied,
            first: *first,
            last: *last,
            profile: PhantomData,
        })
    }
}

impl<P: Profile> SaveStore<P> for LinkedStore<P> {
    ghost use Rattle.std.specs.Prelude.{IfOk};
    ghost use Rattle.kernel_forest.specs.Marked.{forest_of};

    type Saved = LinkedStore<P>;

    ghost saved_forest = { λ s. forest_of P.profile s.0 };

    ghost saved_memory = { λ s. s.1 };

    fn copy_into(&self, spare: LinkedStore<P>) -> Result<LinkedStore<P>, AllocError>
        ensures list { IfOk result (λ s. s ≡ self.now) }
        ensures forest { IfOk result (λ s. forest_of P.profile s.0 ≡ forest_of P.profile self.now.0) }
        ensures memory { IfOk result (λ s. s.1 ≡ self.now.1) }
    {
        let mut links = spare.links;
        links.clear();
        links.extend_from_slice(&self.links)?;
        Ok(LinkedStore {
            links,
            first: self.first,
            last: self.last,
            profile: PhantomData,
        })
    }

    fn save(&self, alloc: Global) -> Result<LinkedStore<P>, AllocError>
        ensures list { IfOk result (λ s. s ≡ self.now) }
        ensures forest { IfOk result (λ s. forest_of P.profile s.0 ≡ forest_of P.profile self.now.0) }
        ensures memory { IfOk result (λ s. s.1 ≡ self.now.1) }
    {
        self.copy(alloc)
    }

    fn restore(saved: &LinkedStore<P>, spare: LinkedStore<P>) -> Result<LinkedStore<P>, AllocError>
        ensures list { IfOk result (λ s. s ≡ saved.now) }
        ensures forest { IfOk result (λ s. forest_of P.profile s.0 ≡ forest_of P.profile saved.now.0) }
        ensures memory { IfOk result (λ s. s.1 ≡ saved.now.1) }
    {
        saved.copy_into(spare)
    }
}

impl<P: Profile> LinkedStore<P> {
    ghost use Rattle.std.specs.Prelude.{◌≡◌, ◌<◌, ◌^◌, None};
    ghost use Rattle.slot_core.specs.Places.{address_of};
    ghost use Rattle.slot_core.specs.Links.{place_in};
    ghost use Rattle.kernel_forest.specs.Marked.{row_in, previous_in, next_in, forest_of, StandsForEntries};
    ghost use Rattle.kernel_forest.specs.Marked.{HasRunsBelow, HasChildrenNext, HasLastsAlone, HasOthersBelow};
    ghost use Rattle.kernel_forest.specs.Forest.{Forest};
    ghost use Rattle.kernel_forest.specs.Entries.{Entry};

    /// A slot's row in the list; an empty slot's has no capability, no neighbours and no mark.
    pub fn link(&self, slot: Slot) -> Link
        requires within { address_of P.profile slot < 2 ^ self.now.1 }
        ensures cap { result.cap ≡ (row_in slot.place self.now.0).cap }
        ensures revocable { result.revocable ≡ (row_in slot.place self.now.0).revocable }
        ensures first_badged { result.first_badged ≡ (row_in slot.place self.now.0).first_badged }
        ensures previous { place_in result.previous ≡ previous_in slot.place None self.now.0 }
        ensures next { place_in result.next ≡ next_in slot.place self.now.0 }
    {
        row(&self.links, slot)
    }

    /// Derivation without a tree. Whatever calls a store has had, the rows that `link` answers stand for its forest,
    /// where revocable is originality, and for no other. The descendants of a slot are the longest run of the slots
    /// behind it that it is parent of, and its newest child is the next slot, where it is parent of that. A
    /// capability is the last of its object where it is untyped, or neither neighbour names the object. An original
    /// capability with no badge has all other capabilities of its object below it.
    pub fn stands_for_its_forest(&self)
        ensures stands { StandsForEntries P.profile self.now.0 (forest_of P.profile self.now.0) }
        ensures alone { (f : Forest Entry) → StandsForEntries P.profile self.now.0 f → f ≡ forest_of P.profile self.now.0 }
        ensures descendants { HasRunsBelow P.profile self.now.0 }
        ensures children { HasChildrenNext P.profile self.now.0 }
        ensures lasts { HasLastsAlone P.profile self.now.0 }
        ensures below { HasOthersBelow (forest_of P.profile self.now.0) }
    {
        // The type's promise is known once a field is read.
        let _first = self.first;
    }
}
