//! What is said of a layout.
use setup_layout::{Reading, Remarks, Spot};
use setup_positions::NamedText;
use setup_system::read_any_layout;
use std::alloc::{AllocError, Global};
use std::fmt::Write;

/// Adds remarks, each with the line of the text where it stands, or with its place alone.
fn add_remarks(
    alloc: Global,
    out: &mut String,
    remarks: &Remarks,
    source: NamedText<'_>,
    has_lines: bool,
) -> Result<(), AllocError> {
    for remark in remarks.told.as_slice() {
        let Spot { start, length, .. } = remark.spot;
        let excerpt = source.excerpt(start..start.saturating_add(length));
        if has_lines {
            writeln!(out, "{remark}\n{excerpt}")?;
        } else {
            let shown = format!(in alloc; "{excerpt}")?;
            let place = shown.as_str().lines().next().unwrap_or("");
            writeln!(out, "{remark}\n{place}")?;
        }
    }
    match remarks.more {
        0 => Ok(()),
        more => writeln!(out, "{more} more"),
    }
}

/// What is said of a layout, each remark with the line of the text where it stands: its faults, or its notes where it has none.
/// `name` is the file's.
pub fn layout_words(
    alloc: Global,
    bytes: &[u8],
    reading: Reading,
    name: &str,
) -> Result<String, AllocError> {
    let read = read_any_layout(alloc, bytes, reading)?;
    let (layout, names) = (&read.layout, &read.names);
    let text = std::str::from_utf8(bytes).unwrap_or("");
    let (source, mut words) = (NamedText { name, text }, String::new(alloc));
    if layout.faults.told.is_empty() {
        add_remarks(alloc, &mut words, &layout.gaps, source, true)?;
        add_remarks(alloc, &mut words, &layout.notes, source, false)?;
        add_remarks(alloc, &mut words, &names.notes, source, false)?;
    } else {
        add_remarks(alloc, &mut words, &layout.faults, source, true)?;
    }
    Ok(words)
}
