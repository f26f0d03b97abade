//! The search of a thread's capability space.
ghost use Rattle.std.specs.Prelude.{◌≡◌, ◌≢◌, ℕ, ◌+◌, ◌^◌, ◌<◌, ◌≤◌, ◌⊎◌, Some, IfSome, IfNone, OnOk, slice_get, length, map, vec_len};
ghost use Rattle.cap_core.specs.declared.capability.Cap.TheVariants.{Null};
ghost use Rattle.cap_core.specs.Numbers.{word_bits};
ghost use Rattle.cap_core.specs.Objects.{IsLawful};
ghost use Rattle.cspace_core.specs.Inside.{IsSlotOf};
ghost use Rattle.query_reach.specs.Private.Tables.{word_in, left_row, IsWideTable, SameShape};
ghost use Rattle.kernel_forest.specs.Forest.{Forest};
ghost use Rattle.kernel_forest.specs.Entries.{Entry, cap_at};
ghost use Rattle.query_reach.specs.declared.filled.FullSlot.{FullSlot as FullSlotOf};
ghost use Rattle.query_reach.specs.FullSlots.{AreLawful, AreRising, AreFullSlots};
ghost use Rattle.query_reach.specs.Private.Search.{Visits, Spreads, RowSpreads, IsBounded, IsSearch};

use crate::filled::FullSlot;
use crate::nodes::next_word;
use crate::table::note;
use cap_core::{Cap, Profile};
use std::alloc::{AllocError, Global};

/// Notes the next word of an entry at one full slot.
fn visit<P: Profile>(
    alloc: Global,
    from: Cap,
    left: u32,
    word: u64,
    filled: &[FullSlot],
    place: usize,
    rows: &mut Vec<Vec<Option<u64>>>,
) -> Result<(), AllocError>
    requires lawful { (from ≡ Null) ⊎ IsLawful P.profile (word_bits P.profile) from }
    requires left { left ≤ word_bits P.profile }
    requires word { word + 2 ^ left ≤ 2 ^ word_bits P.profile }
    requires some { 0 < left }
    requires rows { left ≤ vec_len rows.old }
    requires place { place < length filled.now }
    requires wide { IsWideTable (length filled.now) (map (λ r. r.items) rows.old.items) }
    ensures shape { OnOk result (SameShape (length filled.now) (map (λ r. r.items) rows.old.items) (map (λ r. r.items) rows.new.items)) }
    ensures visits { OnOk result (Visits P.profile from left word filled.now place (map (λ r. r.items) rows.old.items) (map (λ r. r.items) rows.new.items)) }
{
    if let Some((more, next)) = next_word::<P>(from, left, word, &filled[place]) {
        note(alloc, rows, more as usize, filled.len(), place, next)?;
    }
    Ok(())
}

/// How many slots, of the first ones, lie below an address.
fn count_below(filled: &[FullSlot], address: u64) -> usize
    requires { AreRising filled.now }
    ensures within { result ≤ length filled.now }
    ensures below { (k : ℕ) (u : FullSlotOf) → k < result → slice_get filled.now k ≡ Some u → u.address < address }
    ensures from { (k : ℕ) (u : FullSlotOf) → result ≤ k → slice_get filled.now k ≡ Some u → address ≤ u.address }
{
    let mut low = 0;
    let mut high = filled.len();
    while low < high {
        let middle = low + (high - low) / 2;
        if filled[middle].address < address {
            low = middle + 1;
        } else {
            high = middle;
        }
    }
    low
}

/// The places of the full slots of a CNode: from the first one on, and below the second one.
pub fn places_in<P: Profile>(filled: &[FullSlot], from: Cap) -> (usize, usize)
    requires lawful { (from ≡ Null) ⊎ IsLawful P.profile (word_bits P.profile) from }
    requires rising { AreRising filled.now }
    ensures within { result.1 ≤ length filled.now }
    ensures all { (k : ℕ) (u : FullSlotOf) → slice_get filled.now k ≡ Some u → IsSlotOf P.profile from u.address → (result.0 ≤ k) × (k < result.1) }
{
    let Cap::CNode { base, radix, .. } = from else {
        return (0, 0);
    };
    let last = base + (((1 << radix) - 1) << P::SLOT_BITS);
    let start = count_below(filled, base);
    if last == u64::MAX {
        (start, filled.len())
    } else {
        (start, count_below(filled, last + 1))
    }
}

/// Notes the next words of an entry at all full slots.
fn expand<P: Profile>(
    alloc: Global,
    filled: &[FullSlot],
    from: Cap,
    left: u32,
    word: u64,
    rows: &mut Vec<Vec<Option<u64>>>,
) -> Result<(), AllocError>
    requires rising { AreRising filled.now }
    requires lawful { (from ≡ Null) ⊎ IsLawful P.profile (word_bits P.profile) from }
    requires left { left ≤ word_bits P.profile }
    requires word { word + 2 ^ left ≤ 2 ^ word_bits P.profile }
    requires some { 0 < left }
    requires rows { left ≤ vec_len rows.old }
    requires wide { IsWideTable (length filled.now) (map (λ r. r.items) rows.old.items) }
    ensures shape { OnOk result (SameShape (length filled.now) (map (λ r. r.items) rows.old.items) (map (λ r. r.items) rows.new.items)) }
    ensures spreads { OnOk result (Spreads P.profile from left word filled.now (length filled.now) (map (λ r. r.items) rows.old.items) (map (λ r. r.items) rows.new.items)) }
{
    let (start, stop) = places_in::<P>(filled, from);
    for place in start..stop {
        visit::<P>(alloc, from, left, word, filled, place, rows)?;
    }
    Ok(())
}

/// Notes the next words of the entries of a row, which were entered with `left` bits.
fn expand_row<P: Profile>(
    alloc: Global,
    filled: &[FullSlot],
    row: &[Option<u64>],
    left: u32,
    rows: &mut Vec<Vec<Option<u64>>>,
) -> Result<(), AllocError>
    requires lawful { AreLawful P.profile filled.now }
    requires rising { AreRising filled.now }
    requires left { left ≤ word_bits P.profile }
    requires some { 0 < left }
    requires rows { left ≡ vec_len rows.old }
    requires width { length row.now ≤ length filled.now }
    requires words { (k w : ℕ) → word_in row.now k ≡ Some w → w + 2 ^ left ≤ 2 ^ word_bits P.profile }
    requires wide { IsWideTable (length filled.now) (map (λ r. r.items) rows.old.items) }
    ensures shape { OnOk result (SameShape (length filled.now) (map (λ r. r.items) rows.old.items) (map (λ r. r.items) rows.new.items)) }
    ensures spreads { OnOk result (RowSpreads P.profile row.now left filled.now (length filled.now) (map (λ r. r.items) rows.old.items) (map (λ r. r.items) rows.new.items)) }
{
    for place in 0..row.len() {
        if let Some(word) = row[place] {
            expand::<P>(alloc, filled, filled[place].cap, left, word, rows)?;
        }
    }
    Ok(())
}

/// Empties the rows of a table from the last one on, until the first one alone is left: whatever was entered with bits left
/// has then been followed to the slots that are found.
pub fn search<P: Profile>(
    alloc: Global,
    filled: &[FullSlot],
    rows: &mut Vec<Vec<Option<u64>>>,
) -> Result<(), AllocError>
    requires lawful { AreLawful P.profile filled.now }
    requires rising { AreRising filled.now }
    requires some { 0 < vec_len rows.old }
    requires rows { vec_len rows.old ≤ word_bits P.profile + 1 }
    requires bounded { IsBounded P.profile (map (λ r. r.items) rows.old.items) }
    requires wide { IsWideTable (length filled.now) (map (λ r. r.items) rows.old.items) }
    ensures one { OnOk result (vec_len rows.new ≡ 1) }
    ensures width { OnOk result (length (left_row (map (λ r. r.items) rows.new.items) 0) ≤ length filled.now) }
    ensures bounded { OnOk result (IsBounded P.profile (map (λ r. r.items) rows.new.items)) }
    ensures found { OnOk result ((memory : ℕ) (f : Forest Entry) (thread : ℕ) → ((s : ℕ) → (cap_at f s ≡ Null) ⊎ IsLawful P.profile memory (cap_at f s)) → AreFullSlots f filled.now
        → IsSearch P.profile f thread filled.now (map (λ r. r.items) rows.old.items) → IsSearch P.profile f thread filled.now (map (λ r. r.items) rows.new.items)) }
{
    while rows.len() > 1 {
        let Some(row) = rows.pop() else {
            unreachable!();
        };
        expand_row::<P>(alloc, filled, row.as_slice(), rows.len() as u32, rows)?;
    }
    Ok(())
}

/// The place of the slot at an address.
pub fn place_of(filled: &[FullSlot], address: u64) -> Option<usize>
    requires { AreRising filled.now }
    ensures some { IfSome result (λ k. (u : FullSlotOf) × ((slice_get filled.now k ≡ Some u) × (u.address ≡ address))) }
    ensures none { IfNone result ((k : ℕ) (u : FullSlotOf) → slice_get filled.now k ≡ Some u → u.address ≢ address) }
{
    let place = count_below(filled, address);
    if place < filled.len() && filled[place].address == address {
        Some(place)
    } else {
        None
    }
}
