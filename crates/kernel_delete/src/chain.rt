//! The slots that are still to be looked at while a slot is cleared.
ghost use Rattle.std.specs.Prelude.{◌≡◌, ◌+◌, ◌*◌, ◌%◌, ◌^◌, ◌<◌, ◌≤◌, ◌∷◌, ◌++◌, [], IfOk};
ghost use Rattle.cap_core.specs.Numbers.{slot_size, word_bits};
ghost use Rattle.slot_core.specs.Places.{address_of};
ghost use Rattle.kernel_delete.specs.Members.{In, AreDistinct, AreBelow};
ghost use Rattle.kernel_forest.specs.Slots.{addresses};
ghost use Rattle.kernel_delete.specs.Chain.{IsTaken};

use cap_core::Profile;
use slot_core::Slot;
use std::alloc::{AllocError, Global};
use std::marker::{Model, PhantomData};

/// Slots in a chain, none of them twice: a link for each slot of the memory, and the first slot.
///
/// Contracts see a chain as the addresses of its slots, from the first on, and as the bytes of the memory whose slots
/// have links. After it is made no call takes memory.
#[derive(Drop)]
pub struct SlotChain<P: Profile> {
    links: Vec<Option<Slot>>,
    first: Option<Slot>,
    profile: PhantomData<P>,
}

impl<P: Profile> Model for SlotChain<P> {
    ghost use Rattle.std.specs.Prelude.{ℕ, List};

    ghost Value = { List ℕ × ℕ };

    ghost use Rattle.kernel_delete.specs.Chain.{place_in, chain_seen, IsChained};

    ghost view = { λ c. chain_seen P.profile c.links.items c.first };

    ghost invariant = { λ c. IsChained c.links.items (place_in c.first) };
}

impl<P: Profile> SlotChain<P> {
    /// A chain with no slot, and with links for the first `slots` slots of the memory.
    pub fn new(alloc: Global, slots: usize) -> Result<SlotChain<P>, AllocError>
        ensures { IfOk result (λ c. c ≡ ([], slots * slot_size P.profile)) }
    {
        Ok(SlotChain {
            links: Vec::from_elem(alloc, None, slots)?,
            first: None,
            profile: PhantomData,
        })
    }

    /// Puts a slot in front.
    pub fn push(&mut self, slot: Slot)
        requires absent { In (address_of P.profile slot) self.old.0 → ⊥ }
        requires within { address_of P.profile slot < self.old.1 }
        ensures { self.new ≡ (address_of P.profile slot ∷ self.old.0, self.old.1) }
    {
        let first = self.first;
        self.links[index_of::<P>(slot)] = first;
        self.first = Some(slot);
    }

    /// Takes the first slot out.
    pub fn pop(&mut self) -> Option<Slot>
        ensures slots { IsTaken P.profile self.old.0 self.new.0 result }
        ensures memory { self.new.1 ≡ self.old.1 }
    {
        let Some(slot) = self.first else {
            return None;
        };
        self.first = self.links[index_of::<P>(slot)];
        Some(slot)
    }

    /// Puts the first `count` slots of a CNode in front, whose object starts at the address `base`, by rising address.
    pub fn push_node(&mut self, base: u64, count: u64)
        requires aligned { base % slot_size P.profile ≡ 0 }
        requires end { base + count * slot_size P.profile ≤ 2 ^ word_bits P.profile }
        requires distinct { AreDistinct (addresses (slot_size P.profile) base count ++ self.old.0) }
        requires within { AreBelow self.old.1 (addresses (slot_size P.profile) base count) }
        ensures { self.new ≡ (addresses (slot_size P.profile) base count ++ self.old.0, self.old.1) }
    {
        let mut left = count;
        while left > 0 {
            left -= 1;
            self.push(Slot::of_node::<P>(base, left));
        }
    }
}

/// A slot's place in a table with one row a slot of the memory.
fn index_of<P: Profile>(slot: Slot) -> usize
    ensures { result ≡ slot.place }
{
    (slot.address::<P>() >> P::SLOT_BITS) as usize
}
