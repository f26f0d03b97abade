//! What takes a fault out of a document that was read, so that the next one is found. The text stays as it is.
use crate::refused::text_of;
use cap_core::limits::{MAX_MEMORY_BITS, MAX_ROOT_RADIX, MIN_BOOT_THREADS};
use setup_format::{Place, SetupFault, Wrong};
use setup_positions::array_of;
use std::alloc::{AllocError, Global};
use toml::{Table, Value};

/// The sizes of a set-up, with those that can be laid out if there are no untyped regions.
const SIZES: [(&str, u32); 4] = [
    ("memory_bits", MAX_MEMORY_BITS),
    ("root_radix", MAX_ROOT_RADIX),
    ("threads", MIN_BOOT_THREADS),
    ("endpoints", 0),
];

/// A call that is accepted in every set-up.
const ANY_CALL: &str = "op = \"recv\"\nthread = 0\ncap = 0\n";

/// What was taken out of a document.
#[derive(Clone, Copy)]
pub enum Mended {
    /// Nothing: what stands behind the fault can't be read without what is at fault.
    Nothing,
    /// The fault.
    Fault,
    /// A size that was not accepted, with another one in its place. What the layout then lacks is no fault of the set-up.
    Size,
}

/// Puts a size that is accepted at a key, if the key is one of a size.
fn mend_size(alloc: Global, table: &mut Table, key: &str) -> Result<Mended, AllocError> {
    for (name, size) in SIZES {
        if name == key {
            table.insert(String::from_str(alloc, key)?, Value::from(size))?;
            return Ok(Mended::Size);
        }
    }
    Ok(Mended::Nothing)
}

/// Takes the untyped regions away, and makes all sizes fit.
fn mend_layout(alloc: Global, table: &mut Table) -> Result<Mended, AllocError> {
    table.remove("untyped");
    for (key, _) in SIZES {
        mend_size(alloc, table, key)?;
    }
    Ok(Mended::Fault)
}

/// The table at a place. The tables of an array count from 1.
fn table_at(table: &mut Table, place: Place) -> Option<&mut Table> {
    match array_of(place) {
        None => Some(table),
        Some((key, n)) => {
            let tables = table.get_mut(key)?.as_array_mut()?;
            tables.get_mut(n.wrapping_sub(1))?.as_table_mut()
        }
    }
}

/// Takes a fault out of a document. It can't be done for a key of the top table that has no size: what stands behind it is not
/// read without it. The names of a set-up stay, too: without them each use of one would be a fault.
pub fn mend(alloc: Global, table: &mut Table, fault: &SetupFault) -> Result<Mended, AllocError> {
    let (wrong, place, key) = match fault {
        SetupFault::At { wrong, place, key } => (*wrong, *place, text_of(key)),
        SetupFault::Layout(_) => return mend_layout(alloc, table),
        SetupFault::Text | SetupFault::Memory => return Ok(Mended::Nothing),
    };
    match (wrong, place, table_at(table, place)) {
        (Wrong::Unknown, _, Some(found)) if key != "names" => {
            found.remove(key);
        }
        (Wrong::Unknown, ..) | (_, Place::Call(_), None) => return Ok(Mended::Nothing),
        (_, Place::Top, _) => return mend_size(alloc, table, key),
        (_, Place::Untyped(_), _) => return mend_layout(alloc, table),
        (_, Place::Call(_), Some(call)) => {
            let Ok(any) = toml::table_from_str(alloc, ANY_CALL) else {
                return Err(AllocError);
            };
            *call = any;
        }
    }
    Ok(Mended::Fault)
}
