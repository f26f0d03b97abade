//! Slots, by their places in the simulated memory.
ghost use Rattle.std.specs.Prelude.{⊤, ◌==◌, ◌≡◌, ◌+◌, ◌*◌, ◌%◌, ◌^◌, ◌<◌, ◌≤◌, ◌⊎◌, IfSome, IfNone, ◌≢◌};
ghost use Rattle.std.proofs.Common.{rules};
ghost use Rattle.std.specs.Cmp.Rules.{comparing};
ghost use Rattle.cap_core.specs.Numbers.{slot_size, word_bits};

use cap_core::Profile;
use std::alloc::AllocError;

/// A slot: the `place`-th stretch of memory that has a slot's size. The type has no profile; its address has one.
pub struct Slot {
    place: u64,
    ghost small: { place < 2 ^ 59 },
}

impl Copy for Slot {}

impl Clone for Slot {
    ghost is_clone = { λ x y. y ≡ x };

    ghost is_infallible = { λ _. ⊤ };

    fn clone(&self) -> Result<Slot, AllocError> {
        Ok(*self)
    }
}

impl PartialEq for Slot {
    ghost eq = { λ x y. x.place == y.place };

    ghost laws = { Prim.search (comparing, rules) };

    fn eq(&self, other: &Slot) -> bool {
        self.place == other.place
    }
}

impl Slot {
    /// The slot at an address, or `None` where the address is no multiple of a slot's size, or no word of the
    /// profile.
    pub fn at<P: Profile>(address: u64) -> Option<Slot>
        ensures slot { IfSome result (λ s. s.place * slot_size P.profile ≡ address) }
        ensures word { IfSome result (λ s. address < 2 ^ word_bits P.profile) }
        ensures none { IfNone result ((address % slot_size P.profile ≢ 0) ⊎ (2 ^ word_bits P.profile ≤ address)) }
    {
        let is_word = P::WORD_BITS == u64::BITS || address >> P::WORD_BITS == 0;
        if is_word && address % (1 << P::SLOT_BITS) == 0 {
            Some(Slot {
                place: address >> P::SLOT_BITS,
            })
        } else {
            None
        }
    }

    /// Slot `index` of a CNode whose object starts at the address `base`.
    pub fn of_node<P: Profile>(base: u64, index: u64) -> Slot
        requires aligned { base % slot_size P.profile ≡ 0 }
        requires end { base + (index + 1) * slot_size P.profile ≤ 2 ^ word_bits P.profile }
        ensures { result.place * slot_size P.profile ≡ base + index * slot_size P.profile }
    {
        Slot {
            place: (base >> P::SLOT_BITS) + index,
        }
    }

    /// The slot's place in a table with one row a slot of the memory.
    pub fn index(self) -> usize
        ensures { result ≡ self.place }
    {
        self.place as usize
    }

    /// The slot's address in bytes.
    pub fn address<P: Profile>(self) -> u64
        ensures { result ≡ self.place * slot_size P.profile }
    {
        self.place << P::SLOT_BITS
    }
}
