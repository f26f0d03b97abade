//! Which slots a lookup leads to from a CNode: the full ones, and of the empty ones of each CNode the first.
use cap_core::{Cap, Profile};
use query_reach::FullSlot;
use std::alloc::{AllocError, Global};

/// How many slots a lookup is followed from at the most.
const MOST_PLACES: usize = 4_096;

/// A slot that a lookup leads to, in the CNode at `node`, with what it holds: `Null` if it is the first empty slot of that CNode.
/// `index` has the bits that are looked up, and `left` is how many are left of those that are given.
#[derive(Clone, Copy)]
pub struct Place {
    pub slot: u64,
    pub cap: Cap,
    pub node: u64,
    pub index: u64,
    pub left: u32,
}

/// A word with so many zero bits after it.
pub fn shifted(word: u64, bits: u32) -> u64 {
    if bits >= u64::BITS { 0 } else { word << bits }
}

/// The address of the CNode of a capability.
pub fn node_of(cap: Cap) -> Option<u64> {
    match cap {
        Cap::CNode { base, .. } => Some(base),
        _ => None,
    }
}

/// The number of the slot at an address in a CNode.
fn number_in<P: Profile>(base: u64, radix: u32, address: u64) -> Option<u64> {
    let offset = address.checked_sub(base)?;
    let number = offset.wrapping_shr(P::SLOT_BITS);
    if number < shifted(1, radix) {
        Some(number)
    } else {
        None
    }
}

/// Adds the slots of a CNode to which a lookup of so many bits leads, after the bits of `prefix`. `filled` has all full slots, by
/// rising addresses.
fn add_places<P: Profile>(
    places: &mut Vec<Place>,
    filled: &[FullSlot],
    cap: Cap,
    prefix: u64,
    bits: u32,
) -> Result<(), AllocError> {
    let Cap::CNode { base, radix, guard } = cap else {
        return Ok(());
    };
    let Some(after_guard) = bits.checked_sub(guard.size) else {
        return Ok(());
    };
    let Some(left) = after_guard.checked_sub(radix) else {
        return Ok(());
    };
    let front = shifted(shifted(prefix, guard.size) | guard.value, radix);
    let first = Place {
        slot: base,
        cap: Cap::Null,
        node: base,
        index: front,
        left,
    };
    let mut free = base;
    for full in filled {
        if let Some(number) = number_in::<P>(base, radix, full.address) {
            places.push(Place {
                slot: full.address,
                cap: full.cap,
                index: front | number,
                ..first
            })?;
        }
        if full.address == free {
            free = free.saturating_add(shifted(1, P::SLOT_BITS));
        }
    }
    if let Some(number) = number_in::<P>(base, radix, free) {
        places.push(Place {
            slot: free,
            index: front | number,
            ..first
        })?;
    }
    Ok(())
}

/// Whether a lookup goes on from a place, if it has bits left.
pub fn goes_on(place: &Place) -> bool {
    place.left > 0 && node_of(place.cap).is_some()
}

/// Whether a lookup goes on from a place, and went on so from none of those before it.
fn is_new(before: &[Place], place: &Place) -> bool {
    if !goes_on(place) {
        return false;
    }
    for other in before {
        if other.left == place.left && node_of(other.cap) == node_of(place.cap) {
            return false;
        }
    }
    true
}

/// The slots to which lookups of so many bits lead from a CNode's capability. Those in the CNode itself come first.
pub fn places<P: Profile>(
    alloc: Global,
    filled: &[FullSlot],
    cap: Cap,
    bits: u32,
) -> Result<Vec<Place>, AllocError> {
    let mut places = Vec::new(alloc);
    add_places::<P>(&mut places, filled, cap, 0, bits)?;
    for i in 0..MOST_PLACES {
        if i >= places.len() {
            break;
        }
        let place = places[i];
        if is_new(&places.as_slice()[..i], &place) {
            add_places::<P>(&mut places, filled, place.cap, place.index, place.left)?;
        }
    }
    Ok(places)
}
