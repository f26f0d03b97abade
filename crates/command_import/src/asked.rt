//! Whether a layout was read as it is asked for.
ghost use Rattle.std.specs.Prelude.{◌≡◌, ◌<◌, ◌++◌, IfSome, IsTrue};
ghost use Rattle.std.specs.List.{list_all, list_any};
ghost use Rattle.command_import.specs.Asked as spec;

use crate::laid_out::is_same;
use cap_core::Kind;
use setup_layout::{Layout, Object, Reading, Remarks, Row};

/// Whether an object stands in a region, and is another one.
fn covers(region: &Object, other: &Object) -> bool
    requires { region.now.bits < 32 }
    ensures { result ≡ spec.covers region.now other.now }
{
    let (base, place) = (u64::from(region.place), u64::from(other.place));
    !is_same(region, other) && (base <= place && place < base + (1 << region.bits))
}

/// Whether some object stands in a region.
fn covers_some(region: &Object, objects: &[Object]) -> bool
    requires { region.now.bits < 32 }
    ensures { result ≡ list_any (spec.covers region.now) objects.now }
{
    for object in objects {
        if covers(region, object) {
            return true;
        }
    }
    false
}

/// Whether an object is no region of untyped memory, or has at most so many bits, or covers another one.
fn is_cut(most: u64, objects: &[Object], object: &Object) -> bool
    ensures { result ≡ spec.is_cut object.now.kind most objects.now object.now }
{
    match object.kind {
        Kind::Untyped => {
            u64::from(object.bits) <= most || (object.bits < 32 && covers_some(object, objects))
        }
        _ => true,
    }
}

/// Whether each object is so.
fn are_cut_to(most: u64, objects: &[Object]) -> bool
    ensures { result ≡ list_all (λ o. spec.is_cut o.kind most objects.now o) objects.now }
{
    for object in objects {
        if !is_cut(most, objects, object) {
            return false;
        }
    }
    true
}

/// Whether the regions are cut as it is asked for.
fn are_cut(shrink: Option<u64>, objects: &[Object]) -> bool
    ensures { result ≡ spec.are_cut shrink objects.now }
{
    match shrink {
        None => true,
        Some(most) => are_cut_to(most, objects),
    }
}

/// Whether nothing is said, and no more is counted.
fn are_none(remarks: &Remarks) -> bool
    ensures { result ≡ spec.are_none remarks.now }
{
    remarks.told.as_slice().is_empty() && remarks.more == 0
}

/// What stands behind the pair of a row, which is the first of these pairs of slots, or all of them if the row is not kept; none if the
/// first is another one.
fn behind(pairs: &[(usize, usize)], row: Row) -> Option<&[(usize, usize)]>
    ensures { IfSome result (λ rest. pairs.now ≡ spec.kept_pair row ++ rest.now) }
{
    let Some(pair) = row.pair() else {
        return Some(pairs);
    };
    match pairs.split_first() {
        Some((first, rest)) if first.0 == pair.0 && first.1 == pair.1 => Some(rest),
        _ => None,
    }
}

/// Whether these pairs of slots are those of the rows that are kept, in their order.
fn are_those_of(derived: &[(usize, usize)], rows: &[Row]) -> bool
    ensures { IsTrue result → derived.now ≡ spec.kept_pairs rows.now }
{
    let mut rest = derived;
    for row in rows {
        match behind(rest, *row) {
            Some(later) => rest = later,
            None => return false,
        }
    }
    rest.is_empty()
}

/// Whether each row is kept.
fn are_all_kept(rows: &[Row]) -> bool
    ensures { result ≡ list_all spec.is_kept rows.now }
{
    for row in rows {
        if row.pair().is_none() {
            return false;
        }
    }
    true
}

/// Whether a layout was read as it is asked for: each object counts in it or not, and its regions are cut; one slot is derived from
/// another one just as the rows of its `cdt` say that are kept, and each of them is if nothing was left out or assumed that may carry
/// authority, as it is strictly.
pub fn is_read_as(reading: Reading, layout: &Layout) -> bool
    ensures { IsTrue result → spec.IsReadAs reading layout.now }
{
    let rows = layout.rows.as_slice();
    layout.flows == reading.flows
        && are_cut(reading.shrink, layout.objects.as_slice())
        && are_those_of(layout.derived.as_slice(), rows)
        && (!are_none(&layout.gaps) || are_all_kept(rows))
        && (!reading.strict || are_none(&layout.gaps))
}
