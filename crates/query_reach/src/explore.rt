//! The search of what indexes and depths name, from many capabilities at once.
ghost use Rattle.std.specs.Prelude.{◌≡◌, ℕ, ◌+◌, ◌^◌, ◌<◌, ◌≤◌, ◌⊎◌, Some, IfSome, OnOk, length, map};
ghost use Rattle.cap_core.specs.declared.capability.Cap.TheVariants.{Null};
ghost use Rattle.cap_core.specs.Numbers.{word_bits};
ghost use Rattle.cap_core.specs.Objects.{IsLawful};
ghost use Rattle.kernel_forest.specs.Forest.{Forest};
ghost use Rattle.kernel_forest.specs.Entries.{Entry};
ghost use Rattle.query_reach.specs.declared.paths.Path.{Path as PathOf};
ghost use Rattle.query_reach.specs.FullSlots.{AreFullSlots, AreLawful, AreRising};
ghost use Rattle.query_reach.specs.Private.Paths.{path_at, IsWide, AreWithinBits};
ghost use Rattle.query_reach.specs.Private.Exploring.{IsStep, ExtendsExplored, ExtendsRow, IsSpaceExplored, AreStarts};

use crate::filled::FullSlot;
use crate::nodes::index_in;
use crate::paths::{Path, known_path, places_of, put_path};
use crate::search::places_in;
use cap_core::{Cap, Profile};
use std::alloc::{AllocError, Global};

/// Where a capability that a path of `read` bits leads to leads on, at the slot at an address: how many bits are read then,
/// and the path.
fn next_path<P: Profile>(from: Cap, read: u32, path: Path, slot: u64) -> Option<(u32, Path)>
    requires lawful { (from ≡ Null) ⊎ IsLawful P.profile (word_bits P.profile) from }
    requires read { read ≤ word_bits P.profile }
    requires index { path.index < 2 ^ read }
    ensures some { IfSome result (λ r. IsStep P.profile from read path slot r.0 r.1) }
    ensures each { (more : ℕ) (next : PathOf) → IsStep P.profile from read path slot more next → result ≡ Some (more, next) }
{
    let Cap::CNode { base, radix, guard } = from else {
        return None;
    };
    let more = read + guard.size + radix;
    if more > P::WORD_BITS {
        return None;
    }
    let number = index_in::<P>(base, radix, slot)?;
    let index = (((path.index << guard.size) + guard.value) << radix) + number;
    Some((
        more,
        Path {
            word: path.word,
            index,
        },
    ))
}

/// Puts the steps of a path to all full slots.
fn extend<P: Profile>(
    alloc: Global,
    filled: &[FullSlot],
    from: Cap,
    read: u32,
    path: Path,
    rows: &mut Vec<Vec<Option<Path>>>,
) -> Result<(), AllocError>
    requires rising { AreRising filled.now }
    requires lawful { (from ≡ Null) ⊎ IsLawful P.profile (word_bits P.profile) from }
    requires read { read ≤ word_bits P.profile }
    requires index { path.index < 2 ^ read }
    requires wide { IsWide (word_bits P.profile + 1) (length filled.now) (map (λ r. r.items) rows.old.items) }
    ensures wide { OnOk result (IsWide (word_bits P.profile + 1) (length filled.now) (map (λ r. r.items) rows.new.items)) }
    ensures extends { OnOk result (ExtendsExplored P.profile from read path filled.now (length filled.now) (map (λ r. r.items) rows.old.items) (map (λ r. r.items) rows.new.items)) }
{
    let (start, stop) = places_in::<P>(filled, from);
    for place in start..stop {
        if let Some((more, next)) = next_path::<P>(from, read, path, filled[place].address) {
            put_path(alloc, rows, more as usize, filled.len(), place, next)?;
        }
    }
    Ok(())
}

/// Puts the steps of the paths of a row, which have read `read` bits.
fn extend_row<P: Profile>(
    alloc: Global,
    filled: &[FullSlot],
    read: usize,
    rows: &mut Vec<Vec<Option<Path>>>,
) -> Result<(), AllocError>
    requires lawful { AreLawful P.profile filled.now }
    requires rising { AreRising filled.now }
    requires read { read ≤ word_bits P.profile }
    requires bits { AreWithinBits (map (λ r. r.items) rows.old.items) }
    requires wide { IsWide (word_bits P.profile + 1) (length filled.now) (map (λ r. r.items) rows.old.items) }
    ensures wide { OnOk result (IsWide (word_bits P.profile + 1) (length filled.now) (map (λ r. r.items) rows.new.items)) }
    ensures extends { OnOk result (ExtendsRow P.profile read filled.now (length filled.now) (map (λ r. r.items) rows.old.items) (map (λ r. r.items) rows.new.items)) }
{
    for place in 0..places_of(rows.as_slice(), read) {
        if let Some(path) = known_path(rows.as_slice(), read, place) {
            extend::<P>(alloc, filled, filled[place].cap, read as u32, path, rows)?;
        }
    }
    Ok(())
}

/// Follows the paths of a table, row by row: a CNode takes at least one bit, so a row is whole when its turn comes.
pub fn explore<P: Profile>(
    alloc: Global,
    filled: &[FullSlot],
    rows: &mut Vec<Vec<Option<Path>>>,
) -> Result<(), AllocError>
    requires lawful { AreLawful P.profile filled.now }
    requires rising { AreRising filled.now }
    requires starts { AreStarts (map (λ r. r.items) rows.old.items) }
    requires wide { IsWide (word_bits P.profile + 1) (length filled.now) (map (λ r. r.items) rows.old.items) }
    ensures wide { OnOk result (IsWide (word_bits P.profile + 1) (length filled.now) (map (λ r. r.items) rows.new.items)) }
    ensures bits { OnOk result (AreWithinBits (map (λ r. r.items) rows.new.items)) }
    ensures front { OnOk result ((place : ℕ) → path_at (map (λ r. r.items) rows.new.items) 0 place ≡ path_at (map (λ r. r.items) rows.old.items) 0 place) }
    ensures explored { OnOk result ((f : Forest Entry) → AreFullSlots f filled.now → IsSpaceExplored P.profile f filled.now (map (λ r. r.items) rows.old.items) (map (λ r. r.items) rows.new.items) (word_bits P.profile + 1)) }
{
    for read in 0..rows.len() {
        extend_row::<P>(alloc, filled, read, rows)?;
    }
    Ok(())
}
