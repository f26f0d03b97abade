//! The full slots that a thread's words lead to.
ghost use Rattle.std.specs.Prelude.{◌≡◌, ◌≤◌, IfOk, OnOk, length, true};
ghost use Rattle.std.specs.List.{Contains, Any};
ghost use Rattle.std.specs.List.Sorted.{IsStrictlySortedBy};
ghost use Rattle.query_reach.specs.declared.reached.Reached.{Reached as ReachedOf};
ghost use Rattle.kernel_forest.specs.Forest.{Forest};
ghost use Rattle.kernel_forest.specs.Entries.{Entry};
ghost use Rattle.query_reach.specs.FullSlots.{AreFullSlots, AreLawful, AreRising};
ghost use Rattle.query_reach.specs.Lists.{AreReached};
ghost use Rattle.query_reach.specs.Private.Rows.{IsFoundInRows};

use crate::filled::FullSlot;
use crate::search::{place_of, search};
use crate::table::first_rows;
use cap_core::Profile;
use std::alloc::{AllocError, Global};

/// A full slot, by its address, and the least word that leads there.
#[derive(Clone, Copy, PartialEq, Eq, PartialOrd, Ord, Debug)]
pub struct Reached {
    pub word: u64,
    pub slot: u64,
}

/// The words of a row with the slots at their places.
fn found(
    alloc: Global,
    row: &[Option<u64>],
    filled: &[FullSlot],
) -> Result<Vec<Reached>, AllocError>
    requires { length row.now ≤ length filled.now }
    ensures only { IfOk result (λ list. (r : ReachedOf) → Contains list.items r → IsFoundInRows row.now filled.now r) }
    ensures all { IfOk result (λ list. (r : ReachedOf) → IsFoundInRows row.now filled.now r → Contains list.items r) }
{
    let mut list = Vec::new(alloc);
    for place in 0..row.len() {
        if let Some(word) = row[place] {
            list.push(Reached {
                word,
                slot: filled[place].address,
            })?;
        }
    }
    Ok(list)
}

/// Puts the items into their order, each once.
pub fn put_in_order<T: Ord + Drop>(list: &mut Vec<T>) -> Result<(), AllocError>
    ensures kept { OnOk result ((x : T) → Contains list.old.items x → Any (λ y. T.eq x y ≡ true) list.new.items) }
    ensures only { OnOk result ((x : T) → Contains list.new.items x → Contains list.old.items x) }
    ensures order { OnOk result (IsStrictlySortedBy T.cmp list.new.items) }
{
    list.sort()?;
    list.dedup();
    Ok(())
}

/// The full slots that the words of the thread at an address lead to: each with the least word that leads there, by rising
/// words (seL4 Reference Manual, on capability space addressing). `filled` has all full slots, as `full_slots` gives them.
///
/// Time: the table has a place for each full slot and each number of bits that are ever left, besides none. Each place of a
/// CNode that is entered is followed once, by its least word, to the full slots of the CNode; never each path.
pub fn reached_slots<P: Profile>(
    alloc: Global,
    filled: &[FullSlot],
    thread: u64,
) -> Result<Vec<Reached>, AllocError>
    requires lawful { AreLawful P.profile filled.now }
    requires rising { AreRising filled.now }
    ensures { IfOk result (λ list. (f : Forest Entry) → AreFullSlots f filled.now → AreReached P.profile f thread list.items) }
{
    let Some(root) = place_of(filled, thread) else {
        return Ok(Vec::new(alloc));
    };
    let mut rows = first_rows::<P>(alloc, filled.len(), root)?;
    search::<P>(alloc, filled, &mut rows)?;
    let mut list = found(alloc, rows[0].as_slice(), filled)?;
    put_in_order(&mut list)?;
    Ok(list)
}
