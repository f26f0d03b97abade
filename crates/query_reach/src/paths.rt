//! The table of a search by index and depth. A row has its places from the first path on that is put in it: few numbers of
//! bits are ever read.
ghost use Rattle.std.specs.Prelude.{◌≡◌, ℕ, ◌<◌, length, map, vec_len, IfOk, OnOk, None, replicate};
ghost use Rattle.query_reach.specs.Private.Paths.{path_row, path_in, path_at, lesser_path, put_in, put, IsWide, IsOpened, IsPut};

use std::alloc::{AllocError, Global};

/// A word that leads to a capability, and an index that is looked up from there.
#[derive(Clone, Copy)]
pub struct Path {
    pub word: u64,
    pub index: u64,
}

/// The first of two paths, by their words, and at one word by their indexes.
fn lesser(a: Path, b: Path) -> Path
    ensures { result ≡ lesser_path a b }
{
    if b.word < a.word || b.word == a.word && b.index < a.index {
        b
    } else {
        a
    }
}

/// Puts a path at a place of a row, if none or a later one stands.
fn put_in_row(row: &mut Vec<Option<Path>>, place: usize, path: Path)
    requires { place < vec_len row.old }
    ensures { row.new.items ≡ put_in row.old.items place path }
{
    let first = match row[place] {
        None => path,
        Some(known) => lesser(known, path),
    };
    row[place] = Some(first);
}

/// Puts a path at a place of the row of a number of bits read, if the row has places.
fn put_at(rows: &mut Vec<Vec<Option<Path>>>, read: usize, place: usize, path: Path)
    requires read { read < vec_len rows.old }
    requires place { place < length (path_row (map (λ r. r.items) rows.old.items) read) }
    ensures { map (λ r. r.items) rows.new.items ≡ put (map (λ r. r.items) rows.old.items) read place path }
{
    put_in_row(&mut rows[read], place, path);
}

/// A row with no paths.
fn empty_row(alloc: Global, width: usize) -> Result<Vec<Option<Path>>, AllocError>
    ensures { IfOk result (λ row. row.items ≡ replicate width None) }
{
    vec![in alloc; None; width]
}

/// Gives the row of a number of bits read its places, if it has none.
fn open_row(
    alloc: Global,
    rows: &mut Vec<Vec<Option<Path>>>,
    read: usize,
    width: usize,
) -> Result<(), AllocError>
    requires read { read < vec_len rows.old }
    requires wide { (height : ℕ) × IsWide height width (map (λ r. r.items) rows.old.items) }
    ensures { OnOk result (IsOpened read width (map (λ r. r.items) rows.old.items) (map (λ r. r.items) rows.new.items)) }
{
    if rows[read].is_empty() {
        rows[read] = empty_row(alloc, width)?;
    }
    Ok(())
}

/// Puts a path at a place of the row of a number of bits read. Each row is to have `width` places.
pub fn put_path(
    alloc: Global,
    rows: &mut Vec<Vec<Option<Path>>>,
    read: usize,
    width: usize,
    place: usize,
    path: Path,
) -> Result<(), AllocError>
    requires read { read < vec_len rows.old }
    requires wide { (height : ℕ) × IsWide height width (map (λ r. r.items) rows.old.items) }
    requires place { place < width }
    ensures wide { OnOk result ((height : ℕ) → IsWide height width (map (λ r. r.items) rows.old.items) → IsWide height width (map (λ r. r.items) rows.new.items)) }
    ensures put { OnOk result (IsPut (map (λ r. r.items) rows.old.items) read place path (map (λ r. r.items) rows.new.items)) }
{
    open_row(alloc, rows, read, width)?;
    put_at(rows, read, place, path);
    Ok(())
}

fn path_in_row(row: &[Option<Path>], place: usize) -> Option<Path>
    ensures { result ≡ path_in row.now place }
{
    match row.get(place) {
        Some(path) => *path,
        None => None,
    }
}

/// The path at a place of the row of a number of bits read.
pub fn known_path(rows: &[Vec<Option<Path>>], read: usize, place: usize) -> Option<Path>
    requires { read < length rows.now }
    ensures { result ≡ path_at (map (λ r. r.items) rows.now) read place }
{
    path_in_row(rows[read].as_slice(), place)
}

/// How many places the row of a number of bits read has.
pub fn places_of(rows: &[Vec<Option<Path>>], read: usize) -> usize
    requires { read < length rows.now }
    ensures { result ≡ length (path_row (map (λ r. r.items) rows.now) read) }
{
    rows[read].len()
}
