//! The placing of a layout that was read.
use crate::flows::add_flows;
use crate::names::{SetupNames, names_of};
use crate::places::{Places, places_of};
use setup_layout::Layout;
use std::alloc::{AllocError, Global};

/// A layout that was read, and the places of its objects where it has no fault.
#[derive(Drop)]
pub struct ReadLayout {
    pub layout: Layout,
    pub places: Option<Places>,
    /// The names of its objects in a set-up.
    pub names: SetupNames,
}

/// A layout with the places and the names of its objects. What is wrong with it is in its faults, and a layout with faults has no
/// places.
pub fn placed(alloc: Global, layout: Layout) -> Result<ReadLayout, AllocError> {
    let mut layout = layout;
    let declared = layout.objects.len();
    let (mut places, mut names) = (None, SetupNames::none(alloc));
    if layout.flows && layout.faults.told.is_empty() {
        add_flows(alloc, &mut layout)?;
    }
    if layout.faults.told.is_empty() {
        places = places_of(alloc, &mut layout)?;
    }
    if places.is_some() {
        names = names_of(alloc, &mut layout, declared)?;
    }
    if layout.faults.is_refused || layout.notes.is_refused || names.notes.is_refused {
        return Err(AllocError);
    }
    if !layout.faults.told.is_empty() {
        places = None;
    }
    Ok(ReadLayout {
        layout,
        places,
        names,
    })
}
