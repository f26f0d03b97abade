//! The derivations of full slots, with what is looked up in them.
ghost use Rattle.std.specs.Prelude.{◌≡◌, IfOk};

use crate::keyed::{Keyed, at_key};
use crate::numbers::{by_address, by_object, object_number};
use crate::revoked::{Revoked, revoked_alone};
use cap_core::{Cap, Profile};
use slot_core::Derivation;
use std::alloc::{AllocError, Global};
use std::marker::{Model, PhantomData};

/// Some derivations, with their places by what their capabilities name.
#[derive(Drop)]
pub struct NamedObjects {
    list: Vec<Derivation>,
    objects: Vec<Keyed>,
}

impl Model for NamedObjects {
    ghost use Rattle.std.specs.Prelude.{List};
    ghost use Rattle.slot_core.specs.declared.derivations.Derivation.{Derivation};
    ghost use Rattle.query_revoke.specs.Index.{AreByObject};

    ghost Value = { List Derivation };

    ghost view = { λ n. n.list.items };

    ghost invariant = { λ n. AreByObject n.list.items n.objects.items };
}

impl NamedObjects {
    ghost use Rattle.std.specs.Prelude.{◌≡◌, IfOk};
    ghost use Rattle.std.specs.List.{list_any};
    ghost use Rattle.kernel_forest.specs.Derivation.{names_same};

    /// What some derivations name.
    pub fn new(alloc: Global, list: Vec<Derivation>) -> Result<NamedObjects, AllocError>
        ensures { IfOk result (λ named. named ≡ list.items) }
    {
        let objects = by_object(alloc, list.as_slice())?;
        Ok(NamedObjects { list, objects })
    }

    /// Whether one of them names the object, or the untyped region, of a capability.
    ///
    /// Time: the logarithm of how many there are.
    pub fn contains(&self, cap: Cap) -> bool
        ensures { result ≡ list_any (λ d. names_same d.cap cap) self.now }
    {
        if let Cap::Null = cap {
            return false;
        }
        !at_key(self.objects.as_slice(), object_number(cap)).is_empty()
    }
}

/// The derivations of all full slots, as a store or a kernel gives them, with their places by their slots and by what their
/// capabilities name. It is made once for all slots that are asked for.
#[derive(Drop)]
pub struct DerivationIndex<P: Profile> {
    list: Vec<Derivation>,
    places: Vec<Keyed>,
    objects: Vec<Keyed>,
    profile: PhantomData<P>,
}

impl<P: Profile> Model for DerivationIndex<P> {
    ghost use Rattle.std.specs.Prelude.{List};
    ghost use Rattle.slot_core.specs.declared.derivations.Derivation.{Derivation};
    ghost use Rattle.query_revoke.specs.Index.{IsIndex};

    ghost Value = { List Derivation };

    ghost view = { λ x. x.list.items };

    ghost invariant = { λ x. IsIndex P.profile x.list.items x.places.items x.objects.items };
}

impl<P: Profile> DerivationIndex<P> {
    ghost use Rattle.std.specs.Prelude.{◌≡◌, IfOk, IfSome};
    ghost use Rattle.kernel_forest.specs.Forest.{Forest};
    ghost use Rattle.kernel_forest.specs.Entries.{Entry};
    ghost use Rattle.query_revoke.specs.Below.{TellBelow, IsRevokedAlone};

    /// The index of some derivations.
    pub fn new(alloc: Global, list: Vec<Derivation>) -> Result<DerivationIndex<P>, AllocError>
        ensures { IfOk result (λ index. index ≡ list.items) }
    {
        let places = by_address::<P>(alloc, list.as_slice())?;
        let objects = by_object(alloc, list.as_slice())?;
        Ok(DerivationIndex {
            list,
            places,
            objects,
            profile: PhantomData,
        })
    }

    /// What a revoke of the slot at an address clears and ends; `None` if no derivation is of the slot, and if an object
    /// that has slots ends with the revoke: more may be cleared then than what stands below the slot.
    ///
    /// Time: it grows with what stands below the slot, each with the logarithm of the full slots.
    pub fn revoked_alone(&self, alloc: Global, slot: u64) -> Result<Option<Revoked>, AllocError>
        ensures { IfOk result (λ found. IfSome found (λ r. (f : Forest Entry) → TellBelow P.profile self.now f → IsRevokedAlone P.profile f slot r)) }
    {
        revoked_alone::<P>(
            alloc,
            self.list.as_slice(),
            self.places.as_slice(),
            self.objects.as_slice(),
            slot,
        )
    }
}
