//! Who is derived from whom, in both forms and both profiles.
use crate::slots::calls::{derive, new_store, object, put_root};
use cap_core::{Narrow, Profile, Wide};
use slot_core::{DerivationStore, LinkedStore, MakeStore, RowStore, Slot};
use std::alloc::{AllocError, Global};
use std::test::Fail;

/// A slot by its place, the place of the slot that it is derived from, and whether it is original.
type Place = (u64, Option<u64>, bool);

// An endpoint's capability in slot 0. Below it, the newest first: a capability with a badge in slot 4, with a copy in
// slot 5 below it, then two copies of the first in slots 2 and 3.
const FAMILY: [Place; 5] = [
    (0, None, true),
    (4, Some(0), true),
    (5, Some(4), false),
    (2, Some(0), false),
    (3, Some(0), false),
];

fn place_of<P: Profile>(slot: Slot) -> u64 {
    slot.address::<P>() >> P::SLOT_BITS
}

fn stands_at<P: Profile>(slot: Option<Slot>, place: Option<u64>) -> bool {
    match (slot, place) {
        (Some(slot), Some(place)) => place_of::<P>(slot) == place,
        (None, None) => true,
        _ => false,
    }
}

// Whether a store with that family answers it.
fn answers_its_family<P: Profile, S: MakeStore<P> + DerivationStore<P>>(
    alloc: Global,
) -> Result<bool, AllocError> {
    let mut store = new_store::<P, S>(alloc)?;
    put_root::<P, S>(&mut store, 0, object::<P>(512, 4));
    derive::<P, S>(&mut store, 0, 2, 0);
    derive::<P, S>(&mut store, 2, 3, 0);
    derive::<P, S>(&mut store, 0, 4, 7);
    derive::<P, S>(&mut store, 4, 5, 7);
    let found = store.derivations(alloc)?;
    for (row, (place, parent, original)) in found.iter().zip(FAMILY.iter()) {
        if place_of::<P>(row.slot) != *place
            || !stands_at::<P>(row.parent, *parent)
            || row.original != *original
        {
            return Ok(false);
        }
    }
    Ok(found.len() == FAMILY.len())
}

#[test]
fn stores_tell_who_is_derived_from_whom(rt: HostRuntime) -> Result<(), Fail> {
    let alloc = rt.alloc();
    assert!(rt; answers_its_family::<Wide, RowStore<Wide>>(alloc)?);
    assert!(rt; answers_its_family::<Narrow, RowStore<Narrow>>(alloc)?);
    assert!(rt; answers_its_family::<Wide, LinkedStore<Wide>>(alloc)?);
    assert!(rt; answers_its_family::<Narrow, LinkedStore<Narrow>>(alloc)?);
    Ok(())
}
