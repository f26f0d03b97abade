//! What would lead to a slot where a lookup fails. Each hint is a fact of the state, and no guess.
ghost use Rattle.std.specs.Prelude.{◌≡◌, ◌^◌, ◌==◌, cond, nat_lt, Some, None};
ghost use Rattle.kernel_checks.specs.declared.hints.Hint.TheVariants.{Number};
ghost use Rattle.cap_core.specs.Numbers.{word_bits};
ghost use Rattle.kernel_forest.specs.Entries.{cap_at};
ghost use Rattle.slot_core.specs.Places.{address_of};
ghost use Rattle.kernel_checks.specs.Hints.{slot_at_depth as slot_at_depth_of, depth_hint as depth_hint_of, word_hint as word_hint_of, index_hint as index_hint_of};

use crate::walk::{walk_index, walk_word};
use cap_core::Profile;
use kernel_abstract::reason::Word;
use slot_core::{CapStore, Slot};

/// What would lead to a slot, where a lookup fails.
#[derive(Clone, Copy)]
pub enum Hint {
    /// At this depth the same index names this slot, and no lesser depth that cuts no bit of the index off does.
    Depth { depth: u32, slot: u64 },
    /// The word is the address of this slot, and this number leads to it.
    Number { number: u64, slot: u64 },
}

/// For a word that leads to no slot of the capability space whose root is in the slot `root`: the number of the slot whose
/// address the word is.
pub fn word_hint<P: Profile, S: CapStore<P>>(store: &S, root: Slot, word: u64) -> Option<Hint>
    ensures { result ≡ word_hint_of P.profile (S.forest store.now) (address_of P.profile root) word }
{
    let number = word >> P::SLOT_BITS;
    if word % (1 << P::SLOT_BITS) != 0 {
        return None;
    }
    match walk_word::<P, S>(store, Word::Invoked, root, number) {
        Ok(slot) => where_same::<P>(word, number, slot),
        Err(_) => None,
    }
}

/// For an index that names no slot from the slot `root` on: the depth at which it does, or the number of the slot whose
/// address the index is.
pub fn index_hint<P: Profile, S: CapStore<P>>(
    store: &S,
    root: Slot,
    index: u64,
    depth: u64,
) -> Option<Hint>
    ensures { result ≡ index_hint_of P.profile (cap_at (S.forest store.now)) (address_of P.profile root) index depth }
{
    if let Some(hint) = depth_hint::<P, S>(store, root, index) {
        return Some(hint);
    }
    let number = index >> P::SLOT_BITS;
    if index % (1 << P::SLOT_BITS) != 0 {
        return None;
    }
    match walk_index::<P, S>(store, Word::Index, root, number, depth) {
        Ok(slot) => where_same::<P>(index, number, slot),
        Err(_) => None,
    }
}

/// The least depth at which an index names a slot from the slot `root` on, of those that cut no bit of the index off.
pub fn depth_hint<P: Profile, S: CapStore<P>>(store: &S, root: Slot, index: u64) -> Option<Hint>
    ensures { result ≡ depth_hint_of P.profile (cap_at (S.forest store.now)) (address_of P.profile root) index }
{
    let most = greatest_depth::<P>();
    let mut depth = 1;
    while depth <= most {
        if let Some(slot) = slot_at_depth::<P, S>(store, root, index, depth) {
            return Some(Hint::Depth { depth, slot });
        }
        depth += 1;
    }
    None
}

/// The greatest depth of a lookup: the bits of a word.
fn greatest_depth<P: Profile>() -> u32
    ensures { result ≡ word_bits P.profile }
{
    P::WORD_BITS
}

/// The slot that an index names at a depth, where the depth cuts no bit of the index off.
fn slot_at_depth<P: Profile, S: CapStore<P>>(
    store: &S,
    root: Slot,
    index: u64,
    depth: u32,
) -> Option<u64>
    ensures { result ≡ slot_at_depth_of P.profile (cap_at (S.forest store.now)) (address_of P.profile root) index depth }
{
    if !is_below_power(index, depth) {
        return None;
    }
    match walk_index::<P, S>(store, Word::Index, root, index, depth as u64) {
        Ok(slot) => Some(slot.address::<P>()),
        Err(_) => None,
    }
}

/// Whether a number has no more than `bits` bits.
fn is_below_power(number: u64, bits: u32) -> bool
    ensures { result ≡ nat_lt number (2 ^ bits) }
{
    bits >= u64::BITS || number < 1 << bits
}

/// The hint of a number that leads to a slot, where that slot has the address.
fn where_same<P: Profile>(word: u64, number: u64, slot: Slot) -> Option<Hint>
    ensures { result ≡ cond (address_of P.profile slot == word) (Some (Number number word)) None }
{
    if slot.address::<P>() == word {
        Some(Hint::Number { number, slot: word })
    } else {
        None
    }
}
