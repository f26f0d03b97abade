//! What a revoke clears and ends, if it ends no object that has slots.
ghost use Rattle.std.specs.Prelude.{◌≡◌, ℕ, ◌≤◌, IfOk, IfSome, filter, length, map};
ghost use Rattle.std.specs.List.{list_all, list_any};
ghost use Rattle.kernel_forest.specs.Forest.{Forest};
ghost use Rattle.kernel_forest.specs.Entries.{Entry};
ghost use Rattle.query_revoke.specs.Index.{IsIndex};
ghost use Rattle.query_revoke.specs.Keyed.{AreOrderedByKey, is_keyed_by};
ghost use Rattle.query_revoke.specs.Runs.{part};
ghost use Rattle.query_revoke.specs.Private.{lies_within, is_within_alone, is_node_or_thread as holds_slots, ends_slots as ends_some, AreAscending};
ghost use Rattle.query_revoke.specs.Below.{TellBelow, IsRevokedAlone};

use crate::keyed::{Keyed, at_key};
use crate::numbers::object_number;
use crate::run::{place_at, run_end};
use cap_core::{Cap, Profile};
use slot_core::Derivation;
use std::alloc::{AllocError, Global};

/// How many slots a revoke clears, and the capabilities in them whose objects, or untyped regions, end with it.
#[derive(Drop)]
pub struct Revoked {
    pub cleared: usize,
    pub ended: Vec<Cap>,
}

/// Whether all of some places that rise lie from a place on, and in front of another one.
fn are_within(group: &[Keyed], start: usize, end: usize) -> bool
    requires { AreAscending group.now }
    ensures { result ≡ list_all (lies_within start end) group.now }
{
    match (group.first(), group.last()) {
        (Some(first), Some(last)) => start <= first.place && last.place < end,
        _ => true,
    }
}

/// Whether all capabilities of the object of one stand from a place on, and in front of another one.
fn is_named_within(objects: &[Keyed], cap: Cap, start: usize, end: usize) -> bool
    requires order { AreOrderedByKey objects.now }
    requires ascending { (n : ℕ) → AreAscending (filter (is_keyed_by n) objects.now) }
    ensures { result ≡ is_within_alone objects.now start end cap }
{
    are_within(at_key(objects, object_number(cap)), start, end)
}

/// Whether the object that a capability names has slots.
fn has_slots(cap: Cap) -> bool
    ensures { result ≡ holds_slots cap }
{
    matches!(cap, Cap::CNode { .. } | Cap::Tcb { .. })
}

/// Whether an object that has slots ends if the derivations from a place on, and in front of another one, are cleared.
fn ends_slots(list: &[Derivation], objects: &[Keyed], start: usize, end: usize) -> bool
    requires order { AreOrderedByKey objects.now }
    requires ascending { (n : ℕ) → AreAscending (filter (is_keyed_by n) objects.now) }
    requires start { start ≤ end }
    requires end { end ≤ length list.now }
    ensures { result ≡ list_any (ends_some objects.now start end) (map (λ d. d.cap) (part start end list.now)) }
{
    for place in start..end {
        let cap = list[place].cap;
        if has_slots(cap) && is_named_within(objects, cap, start, end) {
            return true;
        }
    }
    false
}

/// The capabilities from a place on, and in front of another one, whose objects are named by these alone.
fn named_within(
    alloc: Global,
    list: &[Derivation],
    objects: &[Keyed],
    start: usize,
    end: usize,
) -> Result<Vec<Cap>, AllocError>
    requires order { AreOrderedByKey objects.now }
    requires ascending { (n : ℕ) → AreAscending (filter (is_keyed_by n) objects.now) }
    requires start { start ≤ end }
    requires end { end ≤ length list.now }
    ensures { IfOk result (λ caps. caps.items ≡ filter (is_within_alone objects.now start end) (map (λ d. d.cap) (part start end list.now))) }
{
    let mut caps = Vec::new(alloc);
    for place in start..end {
        let cap = list[place].cap;
        if is_named_within(objects, cap, start, end) {
            caps.push(cap)?;
        }
    }
    Ok(caps)
}

/// What a revoke of the slot at an address clears and ends, of derivations with their places by their slots and by what they
/// name: `DerivationIndex::revoked_alone`.
pub fn revoked_alone<P: Profile>(
    alloc: Global,
    list: &[Derivation],
    places: &[Keyed],
    objects: &[Keyed],
    slot: u64,
) -> Result<Option<Revoked>, AllocError>
    requires { IsIndex P.profile list.now places.now objects.now }
    ensures { IfOk result (λ found. IfSome found (λ r. (f : Forest Entry) → TellBelow P.profile list.now f → IsRevokedAlone P.profile f slot r)) }
{
    let Some(place) = place_at(places, slot) else {
        return Ok(None);
    };
    let end = run_end::<P>(list, places, place);
    if ends_slots(list, objects, place + 1, end) {
        return Ok(None);
    }
    let ended = named_within(alloc, list, objects, place + 1, end)?;
    Ok(Some(Revoked {
        cleared: end - place - 1,
        ended,
    }))
}
