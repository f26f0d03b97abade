//! The capability store as rows.
ghost use Rattle.std.specs.Prelude.{◌≡◌, ◌+◌, ◌^◌, ◌<◌};
ghost use Rattle.slot_core.specs.Rows.{place_of as place_in, derived_row, names_elsewhere, raised, is_deeper, slot_of_row};
ghost use Rattle.std.specs.List.{list_any};
ghost use Rattle.std.specs.Prelude.{reverse, option_map};
ghost use Rattle.kernel_forest.proofs.Trees.Parented.{still_above, innermost};

use crate::derivations::{Derivation, DerivationStore};
use crate::derived::{is_new_original, with_free};
use crate::slot::Slot;
use crate::store::{CapStore, MakeStore, SaveStore};
use cap_core::{Cap, Profile, same_object};
use std::alloc::{AllocError, Global};
use std::marker::{Model, PhantomData};

/// A full slot: its capability, whether that is original, and how many capabilities stand above it in its tree.
#[derive(Clone, Copy)]
struct Row {
    slot: Slot,
    cap: Cap,
    original: bool,
    depth: u64,
}

impl Row {
    /// The row of a capability that is derived from this one's: one deeper where this one is original.
    fn derived(&self, slot: Slot, cap: Cap) -> Row
        requires { self.now.depth + 1 < 2 ^ 64 }
        ensures { result ≡ derived_row self.now slot cap }
    {
        Row {
            slot,
            cap,
            original: is_new_original(self.cap, cap),
            depth: if self.original {
                self.depth + 1
            } else {
                self.depth
            },
        }
    }
}

/// The plain form of a capability store: the full slots in the preorder of their forest, with room for every slot of
/// the memory.
#[derive(Drop)]
pub struct RowStore<P: Profile> {
    rows: Vec<Row>,
    memory_bits: u32,
    profile: PhantomData<P>,
}

impl<P: Profile> Model for RowStore<P> {
    ghost use Rattle.std.specs.Prelude.{ℕ, List, vec_capacity};
    ghost use Rattle.slot_core.specs.declared.rows.Row.{Row};
    ghost use Rattle.slot_core.specs.Rows.{IsRowStore};

    ghost Value = { List Row × ℕ };

    ghost view = { λ s. (s.rows.items, s.memory_bits) };

    ghost invariant = { λ s. IsRowStore P.profile s.memory_bits (vec_capacity s.rows) s.rows.items };
}

/// The full slots of a store in the preorder of their forest, and how many the store has room for.
#[derive(Drop)]
pub struct SavedRows<P: Profile> {
    rows: Vec<Row>,
    room: usize,
    memory_bits: u32,
    profile: PhantomData<P>,
}

impl<P: Profile> Model for SavedRows<P> {
    ghost use Rattle.std.specs.Prelude.{ℕ, List};
    ghost use Rattle.slot_core.specs.declared.rows.Row.{Row};
    ghost use Rattle.slot_core.specs.Rows.{IsRowStore};

    ghost Value = { List Row × ℕ };

    ghost view = { λ s. (s.rows.items, s.memory_bits) };

    ghost invariant = { λ s. IsRowStore P.profile s.memory_bits s.room s.rows.items };
}

// The place of a slot's row, or the number of rows where the slot is empty.
fn place_of(rows: &[Row], slot: Slot) -> usize
    ensures { result ≡ place_in slot.place rows.now }
{
    for (i, row) in rows.iter().enumerate() {
        if row.slot == slot {
            return i;
        }
    }
    rows.len()
}

// Whether another slot's row names the object of a capability.
fn is_named_elsewhere(rows: &[Row], slot: Slot, cap: Cap) -> bool
    ensures { result ≡ list_any (names_elsewhere slot.place cap) rows.now }
{
    rows.iter()
        .any(|row| row.slot != slot && same_object(row.cap, cap))
}

// Raises the deeper rows in front, which stand below one that is taken out, by one.
fn raise(rows: &mut [Row], depth: u64)
    ensures { rows.new ≡ raised depth rows.old }
{
    for row in rows.iter_mut() {
        if row.depth <= depth {
            return;
        }
        row.depth -= 1;
    }
}

impl<P: Profile> CapStore<P> for RowStore<P> {
    ghost use Rattle.slot_core.specs.Rows.{forest_of};

    ghost forest = { λ s. forest_of P.profile s.0 };

    ghost memory_bits = { λ s. s.1 };

    fn get(&self, slot: Slot) -> Cap {
        match self.rows.get(place_of(&self.rows, slot)) {
            Some(row) => row.cap,
            None => Cap::Null,
        }
    }

    fn put_root(&mut self, slot: Slot, cap: Cap) {
        let row = Row {
            slot,
            cap,
            original: true,
            depth: 0,
        };
        match self.rows.push(row) {
            Ok(()) => {}
            Err(_) => unreachable!(),
        }
    }

    fn put_new(&mut self, parent: Slot, slot: Slot, cap: Cap) {
        let i = place_of(&self.rows, parent);
        let child = Row {
            slot,
            cap,
            original: true,
            depth: self.rows[i].depth + 1,
        };
        match self.rows.insert(i + 1, child) {
            Ok(()) => {}
            Err(_) => unreachable!(),
        }
    }

    fn derive(&mut self, source: Slot, slot: Slot, cap: Cap) {
        let i = place_of(&self.rows, source);
        let row = self.rows[i].derived(slot, cap);
        match self.rows.insert(i + 1, row) {
            Ok(()) => {}
            Err(_) => unreachable!(),
        }
    }

    fn relocate(&mut self, source: Slot, slot: Slot, cap: Cap) {
        let i = place_of(&self.rows, source);
        let row = &mut self.rows[i];
        row.slot = slot;
        row.cap = cap;
    }

    fn set_free(&mut self, slot: Slot, free: u64) {
        let i = place_of(&self.rows, slot);
        let row = &mut self.rows[i];
        row.cap = with_free(row.cap, free);
    }

    fn remove(&mut self, slot: Slot) {
        let i = place_of(&self.rows, slot);
        let row = self.rows.remove(i);
        raise(&mut self.rows[i..], row.depth);
    }

    fn first_child(&self, slot: Slot) -> Option<Slot> {
        let i = place_of(&self.rows, slot);
        let row = self.rows.get(i)?;
        let next = self.rows.get(i + 1)?;
        if row.depth < next.depth {
            Some(next.slot)
        } else {
            None
        }
    }

    fn is_last(&self, slot: Slot) -> bool {
        let cap = self.get(slot);
        match cap {
            Cap::Untyped { .. } => true,
            _ => !is_named_elsewhere(&self.rows, slot, cap),
        }
    }
}

impl<P: Profile> MakeStore<P> for RowStore<P> {
    fn new(alloc: Global, memory_bits: u32) -> Result<RowStore<P>, AllocError> {
        Ok(RowStore {
            rows: Vec::with_capacity(alloc, 1 << (memory_bits - P::SLOT_BITS))?,
            memory_bits,
            profile: PhantomData,
        })
    }

    fn copy(&self, alloc: Global) -> Result<RowStore<P>, AllocError> {
        let mut rows = Vec::with_capacity(alloc, self.rows.capacity())?;
        rows.extend_from_slice(&self.rows)?;
        Ok(RowStore {
            rows,
            memory_bits: self.memory_bits,
            profile: PhantomData,
        })
    }
}

impl<P: Profile> SaveStore<P> for RowStore<P> {
    ghost use Rattle.slot_core.specs.Rows.{forest_of};

    type Saved = SavedRows<P>;

    ghost saved_forest = { λ s. forest_of P.profile s.0 };

    ghost saved_memory = { λ s. s.1 };

    fn copy_into(&self, spare: RowStore<P>) -> Result<RowStore<P>, AllocError> {
        let mut rows = spare.rows;
        rows.clear();
        rows.reserve_exact(self.rows.capacity())?;
        rows.extend_from_slice(self.rows.as_slice())?;
        Ok(RowStore {
            rows,
            memory_bits: self.memory_bits,
            profile: PhantomData,
        })
    }

    fn save(&self, alloc: Global) -> Result<SavedRows<P>, AllocError> {
        Ok(SavedRows {
            rows: Vec::from_slice(alloc, &self.rows)?,
            room: self.rows.capacity(),
            memory_bits: self.memory_bits,
            profile: PhantomData,
        })
    }

    fn restore(saved: &SavedRows<P>, spare: RowStore<P>) -> Result<RowStore<P>, AllocError> {
        let mut rows = spare.rows;
        rows.clear();
        rows.reserve_exact(saved.room)?;
        rows.extend_from_slice(saved.rows.as_slice())?;
        Ok(RowStore {
            rows,
            memory_bits: saved.memory_bits,
            profile: PhantomData,
        })
    }
}

// Takes the rows off a stack that a row of this depth does not stand below, from the last on.
fn leave(above: &mut Vec<Row>, row: Row)
    ensures { reverse above.new.items ≡ still_above is_deeper row (reverse above.old.items) }
{
    while let Some(top) = above.last() {
        if top.depth < row.depth {
            return;
        }
        above.pop();
    }
}

impl<P: Profile> DerivationStore<P> for RowStore<P> {
    fn derivations(&self, alloc: Global) -> Result<Vec<Derivation>, AllocError> {
        let mut found = Vec::new(alloc);
        let mut above = Vec::new(alloc);
        for row in self.rows.iter() {
            leave(&mut above, *row);
            found.push(Derivation {
                slot: row.slot,
                cap: row.cap,
                original: row.original,
                parent: slot_of_last(&above),
            })?;
            above.push(*row)?;
        }
        Ok(found)
    }
}

// The slot of the last row.
fn slot_of_last(rows: &[Row]) -> Option<Slot>
    ensures { result ≡ option_map slot_of_row (innermost (reverse rows.now)) }
{
    let row = rows.last()?;
    Some(row.slot)
}
