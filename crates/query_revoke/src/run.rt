//! The derivations below a slot: they stand together, right behind its own.
ghost use Rattle.std.specs.Prelude.{◌≡◌, ◌+◌, ◌<◌, ◌≤◌, filter, length, map, option_map, slice_get};
ghost use Rattle.slot_core.specs.Places.{address_of};
ghost use Rattle.slot_core.specs.Calls.{derivation_view};
ghost use Rattle.query_revoke.specs.Keyed.{AreOrderedByKey, AreKeyed, is_keyed_by};
ghost use Rattle.query_revoke.specs.Runs.{part, is_below_one_of, run_behind, AreOnce};

use crate::keyed::{Keyed, at_key};
use cap_core::Profile;
use slot_core::Derivation;

/// The place of the slot at an address, if one of the derivations is of it.
pub fn place_at(places: &[Keyed], address: u64) -> Option<usize>
    requires { AreOrderedByKey places.now }
    ensures { result ≡ option_map (λ k. k.place) (slice_get (filter (is_keyed_by address) places.now) 0) }
{
    match at_key(places, u128::from(address)).get(0) {
        Some(keyed) => Some(keyed.place),
        None => None,
    }
}

/// Whether the slot that a derivation stands right below is that of one of those from a place on, and below a place.
fn is_below_one<P: Profile>(
    list: &[Derivation],
    places: &[Keyed],
    derivation: &Derivation,
    start: usize,
    end: usize,
) -> bool
    requires places { AreKeyed (map (λ d. address_of P.profile d.slot) list.now) places.now }
    requires end { end ≤ length list.now }
    ensures { AreOnce (map (λ d. address_of P.profile d.slot) list.now) → result ≡ is_below_one_of (part start end (map (derivation_view P.profile) list.now)) (derivation_view P.profile derivation.now) }
{
    let Some(parent) = derivation.parent else {
        return false;
    };
    match place_at(places, parent.address::<P>()) {
        Some(place) => start <= place && place < end,
        None => false,
    }
}

/// Where the derivations below the slot of the one at a place end: they are those behind it, and in front of this place.
pub fn run_end<P: Profile>(list: &[Derivation], places: &[Keyed], start: usize) -> usize
    requires places { AreKeyed (map (λ d. address_of P.profile d.slot) list.now) places.now }
    requires start { start < length list.now }
    ensures low { start < result }
    ensures high { result ≤ length list.now }
    ensures run { AreOnce (map (λ d. address_of P.profile d.slot) list.now) → part (start + 1) result (map (derivation_view P.profile) list.now) ≡ run_behind start (map (derivation_view P.profile) list.now) }
{
    let mut end = start + 1;
    while end < list.len() {
        if !is_below_one::<P>(list, places, &list[end], start, end) {
            return end;
        }
        end += 1;
    }
    end
}
