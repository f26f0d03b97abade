//! The languages of layouts, and the reading of a layout in any of them.
ghost use Rattle.std.specs.Prelude.{◌≡◌, IfOk};
ghost use Rattle.std.specs.List.{find};
ghost use Rattle.setup_system.specs.Languages as spec;

use crate::system::system_text;
use setup_json::json_text;
use setup_layout::{AssumedRights, Layout, Reading, read_text};
use setup_places::{ReadLayout, placed};
use std::alloc::{AllocError, Global};

/// A language in which a layout is written.
#[derive(Clone, Copy)]
pub enum Language {
    /// capDL text.
    Capdl,
    /// A `.system` file of Microkit.
    SystemFile,
    /// capDL's JSON form.
    CapdlJson,
}

/// Whether a byte says nothing at the front of a layout: it is a blank, or one of those of the mark by which some programs know UTF-8.
fn is_front(byte: u8) -> bool
    ensures { result ≡ spec.is_front byte }
{
    byte.is_ascii_whitespace() || byte == 0xEF || byte == 0xBB || byte == 0xBF
}

/// The first byte that says something.
fn first_of(bytes: &[u8]) -> Option<u8>
    ensures { result ≡ find spec.is_inside bytes.now }
{
    for byte in bytes {
        if !is_front(*byte) {
            return Some(*byte);
        }
    }
    None
}

/// Whether a byte can be the first one behind the `{` of a comment of capDL text, which begins with `{-`, or of an object of JSON.
fn is_mark(byte: u8) -> bool
    ensures { result ≡ spec.is_mark byte }
{
    byte == b'"' || byte == b'-' || byte == b'}'
}

/// The first byte that tells a comment of capDL text from an object of JSON.
fn mark_of(bytes: &[u8]) -> Option<u8>
    ensures { result ≡ find spec.is_mark bytes.now }
{
    for byte in bytes {
        if is_mark(*byte) {
            return Some(*byte);
        }
    }
    None
}

/// The language of a layout with these bytes: a `.system` file begins with `<`, and capDL's JSON form with `{`.
pub fn language_of(bytes: &[u8]) -> Language
    ensures { result ≡ spec.language_of bytes.now }
{
    match (first_of(bytes), mark_of(bytes)) {
        (Some(b'<'), _) => Language::SystemFile,
        (Some(b'{'), Some(b'-')) => Language::Capdl,
        (Some(b'{'), _) => Language::CapdlJson,
        _ => Language::Capdl,
    }
}

/// How a layout with these bytes is read: each object counts in a `.system` file, if that is not to be read without those that a
/// kernel here lacks.
pub fn reading_of(reading: Reading, bytes: &[u8]) -> Reading
    ensures { result ≡ spec.reading_of reading bytes.now }
{
    let counts = match language_of(bytes) {
        Language::SystemFile => !reading.plain,
        Language::Capdl | Language::CapdlJson => false,
    };
    Reading {
        flows: reading.flows || counts,
        ..reading
    }
}

/// The text of a layout; none of bytes that are no text.
fn text_of(bytes: &[u8]) -> &str {
    std::str::from_utf8(bytes).unwrap_or("")
}

/// The capDL text that a layout becomes: what is written in another language and has no fault becomes such a text, and capDL text stays
/// as it is.
pub fn capdl_text(alloc: Global, bytes: &[u8], reading: Reading) -> Result<Vec<u8>, AllocError>
    ensures { spec.language_of bytes.now ≡ Language.Capdl → IfOk result (λ text. text.items ≡ bytes.now) }
{
    match language_of(bytes) {
        Language::Capdl => bytes.to_vec(alloc),
        Language::SystemFile => {
            let made = system_text(alloc, text_of(bytes), reading)?;
            Ok(made.lines.text.into_bytes())
        }
        Language::CapdlJson => {
            let made = json_text(alloc, text_of(bytes))?;
            Ok(made.lines.text.into_bytes())
        }
    }
}

/// Reads a `.system` file.
fn read_system(alloc: Global, text: &str, reading: Reading) -> Result<Layout, AllocError> {
    let mut layout = system_text(alloc, text, reading)?.read(alloc, reading)?;
    layout.assumed = if reading.all_rights {
        AssumedRights::AllRights
    } else {
        AssumedRights::LeastRights
    };
    Ok(layout)
}

/// Has a layout without faults be refused for what may carry authority, and was left out or assumed.
fn refuse_gaps(layout: &mut Layout) -> Result<(), AllocError> {
    if !layout.faults.told.is_empty() {
        return Ok(());
    }
    for gap in layout.gaps.told.as_slice() {
        layout.faults.say_again(gap.spot, gap);
    }
    layout.faults.more = layout.faults.more.saturating_add(layout.gaps.more);
    if layout.faults.is_refused {
        return Err(AllocError);
    }
    Ok(())
}

/// Reads a layout in any language. What is wrong with it is in its faults, and a layout with faults has no places.
pub fn read_any_layout(
    alloc: Global,
    bytes: &[u8],
    reading: Reading,
) -> Result<ReadLayout, AllocError> {
    let reading = reading_of(reading, bytes);
    let layout = match (language_of(bytes), std::str::from_utf8(bytes)) {
        (Language::SystemFile, Ok(text)) => read_system(alloc, text, reading)?,
        (Language::CapdlJson, Ok(text)) => json_text(alloc, text)?.read(alloc, reading)?,
        _ => read_text(alloc, bytes, reading)?,
    };
    let mut read = placed(alloc, layout)?;
    if reading.strict {
        refuse_gaps(&mut read.layout)?;
    }
    if !read.layout.faults.told.is_empty() {
        read.places = None;
    }
    Ok(read)
}
