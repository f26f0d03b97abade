//! All full slots of a store, each with the slot that it is derived from.
ghost use Rattle.std.specs.Prelude.{◌≡◌, IfOk, map};
ghost use Rattle.kernel_forest.specs.Entries.{derivations_of};
ghost use Rattle.slot_core.specs.Calls.{derivation_view};

use crate::slot::Slot;
use crate::store::CapStore;
use cap_core::{Cap, Profile};
use std::alloc::{AllocError, Global};

/// A full slot: its capability, whether that is original, and the slot that it is derived from, `None` where it is
/// derived from none (seL4 Reference Manual, on the capability derivation tree).
#[derive(Clone, Copy)]
pub struct Derivation {
    pub slot: Slot,
    pub cap: Cap,
    pub original: bool,
    pub parent: Option<Slot>,
}

/// A store that tells who is derived from whom.
pub trait DerivationStore<P: Profile>: CapStore<P> {
    /// All full slots, each before those that are derived from it, found in one walk. It takes memory for them.
    fn derivations(&self, alloc: Global) -> Result<Vec<Derivation>, AllocError>
        ensures { IfOk result (λ d. map (derivation_view P.profile) d.items ≡ derivations_of (Self.forest self.now)) };
}
