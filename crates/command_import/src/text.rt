//! The text of a set-up.
use crate::calls::Calls;
use crate::names::{add_names, add_whole_names};
use cap_core::ProfileName;
use setup_layout::{Layout, Remarks};
use setup_places::{Places, ReadLayout};
use std::alloc::{AllocError, Global};
use std::fmt::Write;

/// Adds what is said of the layout, as comments.
fn add_notes(out: &mut String, notes: &Remarks) -> Result<(), AllocError> {
    for remark in notes.told.as_slice() {
        write!(out, "\n# line {}: {remark}", remark.spot.line)?;
    }
    if notes.more > 0 {
        write!(out, "\n# and {} more", notes.more)?;
    }
    Ok(())
}

/// Adds the keys of a set-up behind its format.
fn add_sizes(out: &mut String, profile: ProfileName, places: &Places) -> Result<(), AllocError> {
    if profile == ProfileName::Narrow {
        writeln!(out, "profile = \"narrow\"")?;
    }
    writeln!(
        out,
        "memory_bits = {}\nroot_radix = {}",
        places.memory_bits, places.root_radix
    )?;
    writeln!(out, "threads = 1\nendpoints = 0\nuntyped = [")?;
    for region in places.regions.as_slice() {
        writeln!(
            out,
            "    {{ base = {}, bits = {} }},",
            region.base, region.bits
        )?;
    }
    writeln!(out, "]")
}

/// The calls of the loader, in their order.
fn calls_of<'a>(
    alloc: Global,
    layout: &'a Layout,
    places: &'a Places,
) -> Result<Calls<'a>, AllocError> {
    let mut calls = Calls::new(alloc, layout, places)?;
    calls.add_retypes(alloc)?;
    calls.add_spaces(alloc)?;
    calls.add_copies(alloc, false)?;
    calls.add_copies(alloc, true)?;
    calls.add_resumes()?;
    calls.add_moves(alloc, false)?;
    calls.add_moves(alloc, true)?;
    calls.add_suspend()?;
    Ok(calls)
}

/// The text of a set-up whose calls make a layout, in two parts.
#[derive(Drop)]
pub struct SetupText {
    /// What is said of the layout, as comments, without the end of the last line.
    pub notes: String,
    /// What stands behind the format. Its last line ends the list of the calls.
    pub rest: String,
}

/// The text of a set-up whose calls make the layout.
pub fn setup_text(
    alloc: Global,
    read: &ReadLayout,
    places: &Places,
) -> Result<SetupText, AllocError> {
    let layout = &read.layout;
    let calls = calls_of(alloc, layout, places)?;
    let (mut notes, mut rest) = (String::new(alloc), String::new(alloc));
    let (objects, count) = (layout.objects.len(), calls.count);
    write!(
        &mut notes,
        "#\n# The layout has {objects} objects. The first {count} calls are the loader's, which makes it: above stands what its slots hold then."
    )?;
    add_notes(&mut notes, &layout.gaps)?;
    add_notes(&mut notes, &layout.notes)?;
    add_whole_names(&mut notes, layout, read.names.list.as_slice())?;
    add_sizes(&mut rest, layout.profile, places)?;
    add_names(&mut rest, read, places)?;
    let calls = calls.text.as_str();
    writeln!(&mut rest, "call = [\n{calls}]")?;
    Ok(SetupText { notes, rest })
}
