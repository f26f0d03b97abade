//! The table of a search. A row has its places from the first word on that is noted in it: few numbers of bits are ever left.
ghost use Rattle.std.specs.Prelude.{◌≡◌, ◌+◌, ◌<◌, length, map, vec_len, IfOk, OnOk, None, replicate};
ghost use Rattle.cap_core.specs.Numbers.{word_bits};
ghost use Rattle.query_reach.specs.Private.Tables.{left_row, noted_in, noted, AreEmpty, IsWideTable, IsRowOpened, IsNoted, SameShape, IsFirstTable};

use cap_core::Profile;
use std::alloc::{AllocError, Global};

/// Notes a word at a place of a row, if none or a greater one stands.
fn note_in(row: &mut Vec<Option<u64>>, place: usize, word: u64)
    requires { place < vec_len row.old }
    ensures { row.new.items ≡ noted_in row.old.items place word }
{
    let least = match row[place] {
        None => word,
        Some(known) => known.min(word),
    };
    row[place] = Some(least);
}

/// Notes a word at a place of the row of a number of bits left, if the row has places.
fn note_at(rows: &mut Vec<Vec<Option<u64>>>, left: usize, place: usize, word: u64)
    requires left { left < vec_len rows.old }
    requires place { place < length (left_row (map (λ r. r.items) rows.old.items) left) }
    ensures { map (λ r. r.items) rows.new.items ≡ noted (map (λ r. r.items) rows.old.items) left place word }
{
    note_in(&mut rows[left], place, word);
}

/// A row with no words.
fn empty_row(alloc: Global, width: usize) -> Result<Vec<Option<u64>>, AllocError>
    ensures { IfOk result (λ row. row.items ≡ replicate width None) }
{
    vec![in alloc; None; width]
}

/// Gives the row of a number of bits left its places, if it has none.
fn open_row(
    alloc: Global,
    rows: &mut Vec<Vec<Option<u64>>>,
    left: usize,
    width: usize,
) -> Result<(), AllocError>
    requires left { left < vec_len rows.old }
    requires wide { IsWideTable width (map (λ r. r.items) rows.old.items) }
    ensures { OnOk result (IsRowOpened left width (map (λ r. r.items) rows.old.items) (map (λ r. r.items) rows.new.items)) }
{
    if rows[left].is_empty() {
        rows[left] = empty_row(alloc, width)?;
    }
    Ok(())
}

/// Notes a word at a place of the row of a number of bits left. Each row is to have `width` places.
pub fn note(
    alloc: Global,
    rows: &mut Vec<Vec<Option<u64>>>,
    left: usize,
    width: usize,
    place: usize,
    word: u64,
) -> Result<(), AllocError>
    requires left { left < vec_len rows.old }
    requires wide { IsWideTable width (map (λ r. r.items) rows.old.items) }
    requires place { place < width }
    ensures shape { OnOk result (SameShape width (map (λ r. r.items) rows.old.items) (map (λ r. r.items) rows.new.items)) }
    ensures noted { OnOk result (IsNoted left place word (map (λ r. r.items) rows.old.items) (map (λ r. r.items) rows.new.items)) }
{
    open_row(alloc, rows, left, width)?;
    note_at(rows, left, place, word);
    Ok(())
}

/// A table with no words.
fn empty_rows(alloc: Global, height: usize) -> Result<Vec<Vec<Option<u64>>>, AllocError>
    ensures height { IfOk result (λ rows. vec_len rows ≡ height) }
    ensures empty { IfOk result (λ rows. AreEmpty (map (λ r. r.items) rows.items)) }
{
    let mut rows = Vec::with_capacity(alloc, height)?;
    for left in 0..height {
        rows.push(Vec::new(alloc))?;
    }
    Ok(rows)
}

/// The table that a search starts from: the root's capability is entered with all bits of a word, by the word 0.
pub fn first_rows<P: Profile>(
    alloc: Global,
    width: usize,
    root: usize,
) -> Result<Vec<Vec<Option<u64>>>, AllocError>
    requires { root < width }
    ensures height { IfOk result (λ rows. vec_len rows ≡ word_bits P.profile + 1) }
    ensures first { IfOk result (λ rows. IsFirstTable (word_bits P.profile) width root (map (λ r. r.items) rows.items)) }
{
    let mut rows = empty_rows(alloc, P::WORD_BITS as usize + 1)?;
    note(alloc, &mut rows, P::WORD_BITS as usize, width, root, 0)?;
    Ok(rows)
}
