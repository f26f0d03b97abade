//! The names of objects in a set-up.
use setup_layout::Layout;
use setup_marks::{IMPORT_FLOWS, IMPORT_FLOWS_WORD};
use setup_places::{LOADER, Places, ReadLayout, SetupName};
use std::alloc::AllocError;
use std::fmt::Write;

/// Adds a comment for each object whose name has a tail: this name, and its own.
pub fn add_whole_names(
    out: &mut String,
    layout: &Layout,
    names: &[Option<SetupName>],
) -> Result<(), AllocError> {
    for (object, given) in layout.objects.as_slice().iter().zip(names) {
        if let Some(
            SetupName {
                text,
                is_own: false,
            },
        ) = given
        {
            write!(out, "\n# name {text}: {}", object.name)?;
        }
    }
    Ok(())
}

/// Adds the names, which stand for addresses: of the loader, and of the objects in the order in which they are made. Before them stands
/// the mark of a set-up in which each object counts.
pub fn add_names(out: &mut String, read: &ReadLayout, places: &Places) -> Result<(), AllocError> {
    if read.layout.flows {
        writeln!(out, "names.{IMPORT_FLOWS} = {IMPORT_FLOWS_WORD}")?;
    }
    writeln!(out, "names.{LOADER} = {}", places.loader)?;
    for number in places.order.as_slice() {
        if let (Some(object), Some(Some(name))) = (
            read.layout.objects.get(*number),
            read.names.list.get(*number),
        ) {
            writeln!(out, "names.{} = {}", name.text, object.place)?;
        }
    }
    Ok(())
}
