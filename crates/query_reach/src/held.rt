//! The full slots that a thread names by an index and a depth alone.
ghost use Rattle.std.specs.Prelude.{◌≡◌, ℕ, ◌+◌, ◌<◌, IfOk, IfNone, IfSome, None, Some, length, map, replicate, slice_get, []};
ghost use Rattle.std.specs.List.{Contains};
ghost use Rattle.cap_core.specs.Numbers.{word_bits};
ghost use Rattle.kernel_forest.specs.Forest.{Forest};
ghost use Rattle.kernel_forest.specs.Entries.{Entry};
ghost use Rattle.query_reach.specs.declared.held.Held.{Held as HeldOf};
ghost use Rattle.query_reach.specs.declared.filled.FullSlot.{FullSlot as FullSlotOf};
ghost use Rattle.query_reach.specs.FullSlots.{AreFullSlots, AreLawful, AreRising};
ghost use Rattle.query_reach.specs.Lists.{AreReached};
ghost use Rattle.query_reach.specs.Holding.{AreHeldSlots};
ghost use Rattle.query_reach.specs.Private.Paths.{IsWide};
ghost use Rattle.query_reach.specs.Private.Exploring.{AreStarts};
ghost use Rattle.query_reach.specs.Private.Entries.{HasStarts, earlier, IsHeldAt, IsListed, HasEntry, AreDepths};

use crate::explore::explore;
use crate::filled::FullSlot;
use crate::paths::{Path, known_path, places_of, put_path};
use crate::reached::{Reached, put_in_order};
use crate::search::place_of;
use cap_core::Profile;
use std::alloc::{AllocError, Global};

/// A full slot, by its address, that no word leads to: the low `depth` bits of `index` name it from the CNode's capability
/// that `word` leads to.
#[derive(Clone, Copy, PartialEq, Eq, PartialOrd, Ord, Debug)]
pub struct Held {
    pub word: u64,
    pub depth: u32,
    pub index: u64,
    pub slot: u64,
}

/// A table with no paths.
fn empty_rows<P: Profile>(alloc: Global) -> Result<Vec<Vec<Option<Path>>>, AllocError>
    ensures { IfOk result (λ rows. map (λ r. r.items) rows.items ≡ replicate (word_bits P.profile + 1) []) }
{
    let mut rows = Vec::with_capacity(alloc, P::WORD_BITS as usize + 1)?;
    for read in 0..P::WORD_BITS + 1 {
        rows.push(Vec::new(alloc))?;
    }
    Ok(rows)
}

/// The table that a search starts from: a path that reads nothing for each slot that a word leads to.
fn start_rows<P: Profile>(
    alloc: Global,
    filled: &[FullSlot],
    reached: &[Reached],
) -> Result<Vec<Vec<Option<Path>>>, AllocError>
    requires { AreRising filled.now }
    ensures wide { IfOk result (λ rows. IsWide (word_bits P.profile + 1) (length filled.now) (map (λ r. r.items) rows.items)) }
    ensures starts { IfOk result (λ rows. AreStarts (map (λ r. r.items) rows.items)) }
    ensures of { IfOk result (λ rows. HasStarts filled.now reached.now (length reached.now) (map (λ r. r.items) rows.items)) }
{
    let mut rows = empty_rows::<P>(alloc)?;
    for r in reached {
        if let Some(place) = place_of(filled, r.slot) {
            let path = Path {
                word: r.word,
                index: 0,
            };
            put_path(alloc, &mut rows, 0, filled.len(), place, path)?;
        }
    }
    Ok(rows)
}

/// The earlier of an entry, if there is one, and one with a greater depth.
fn earlier_of(known: Option<Held>, next: Held) -> Held
    ensures { result ≡ earlier known next }
{
    match known {
        Some(held) if held.word <= next.word => held,
        _ => next,
    }
}

/// The numbers of bits, from 1 on, whose rows have places.
fn open_depths(alloc: Global, rows: &[Vec<Option<Path>>]) -> Result<Vec<usize>, AllocError>
    requires { 0 < length rows.now }
    ensures { IfOk result (λ depths. AreDepths (map (λ r. r.items) rows.now) depths.items) }
{
    let mut depths = Vec::new(alloc);
    for depth in 1..rows.len() {
        if places_of(rows, depth) > 0 {
            depths.push(depth)?;
        }
    }
    Ok(depths)
}

/// The entry for the slot at a place, if no word leads there and some path does. `depths` has the numbers of bits whose
/// rows have places.
fn held_at<P: Profile>(
    rows: &[Vec<Option<Path>>],
    depths: &[usize],
    place: usize,
    slot: u64,
) -> Option<Held>
    requires rows { length rows.now ≡ word_bits P.profile + 1 }
    requires depths { AreDepths (map (λ r. r.items) rows.now) depths.now }
    ensures some { IfSome result (λ h. IsHeldAt (map (λ r. r.items) rows.now) place slot h) }
    ensures none { IfNone result (HasEntry (map (λ r. r.items) rows.now) place slot []) }
{
    if known_path(rows, 0, place).is_some() {
        return None;
    }
    let mut best = None;
    for at in 0..depths.len() {
        let depth = depths[at];
        if let Some(path) = known_path(rows, depth, place) {
            let next = Held {
                word: path.word,
                depth: depth as u32,
                index: path.index,
                slot,
            };
            best = Some(earlier_of(best, next));
        }
    }
    best
}

/// The entries of all full slots that have one.
fn found<P: Profile>(
    alloc: Global,
    rows: &[Vec<Option<Path>>],
    filled: &[FullSlot],
) -> Result<Vec<Held>, AllocError>
    requires { length rows.now ≡ word_bits P.profile + 1 }
    ensures only { IfOk result (λ list. (h : HeldOf) → Contains list.items h → IsListed (map (λ r. r.items) rows.now) filled.now h) }
    ensures all { IfOk result (λ list. (place : ℕ) (u : FullSlotOf) → slice_get filled.now place ≡ Some u
        → HasEntry (map (λ r. r.items) rows.now) place u.address list.items) }
{
    let depths = open_depths(alloc, rows)?;
    let mut list = Vec::new(alloc);
    for place in 0..filled.len() {
        if let Some(held) = held_at::<P>(rows, depths.as_slice(), place, filled[place].address) {
            list.push(held)?;
        }
    }
    Ok(list)
}

/// The full slots that no word of a thread leads to, but an index and a depth from a CNode's capability that a word leads
/// to, also through further CNodes (seL4 Reference Manual, on capability space addressing). Each has the least such word,
/// of those with that word the least depth, and of those the least index; they rise in this order. `filled` has all full
/// slots, as `full_slots` gives them, and `reached` is the thread's list of `reached_slots`.
///
/// Time: one search from all capabilities in `reached` at once. Each full slot is followed at most once for each number of
/// bits read, to the full slots of its CNode; never each path.
pub fn held_slots<P: Profile>(
    alloc: Global,
    filled: &[FullSlot],
    reached: &[Reached],
) -> Result<Vec<Held>, AllocError>
    requires lawful { AreLawful P.profile filled.now }
    requires rising { AreRising filled.now }
    ensures { IfOk result (λ list. (f : Forest Entry) (thread : ℕ) → AreFullSlots f filled.now → AreReached P.profile f thread reached.now
        → AreHeldSlots P.profile f thread list.items) }
{
    let mut rows = start_rows::<P>(alloc, filled, reached)?;
    explore::<P>(alloc, filled, &mut rows)?;
    let mut list = found::<P>(alloc, rows.as_slice(), filled)?;
    put_in_order(&mut list)?;
    Ok(list)
}
