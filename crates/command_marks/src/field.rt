//! A field of a table.
ghost use Rattle.std.specs.Prelude.{◌≡◌, ◌++◌, OnOk};
ghost use Rattle.command_marks.specs.Table as spec;

use std::alloc::AllocError;

/// Whether a field with this byte has to stand in quotation marks.
fn needs_marks(byte: u8) -> bool
    ensures { result ≡ spec.needs_marks byte }
{
    matches!(byte, b'\n' | b'\r' | b'"' | b',')
}

/// Whether a text has such a byte.
fn has_needs(bytes: &[u8]) -> bool
    ensures { result ≡ spec.has_needs bytes.now }
{
    for byte in bytes {
        if needs_marks(*byte) {
            return true;
        }
    }
    false
}

/// Adds a byte, a quotation mark twice.
fn add_letter(out: &mut Vec<u8>, byte: u8) -> Result<(), AllocError>
    ensures { OnOk result (out.new.items ≡ out.old.items ++ spec.letter byte) }
{
    if byte == b'"' {
        out.extend_from_slice(&[byte, byte])
    } else {
        out.extend_from_slice(&[byte])
    }
}

/// Adds bytes, each quotation mark of them twice.
fn add_doubled(out: &mut Vec<u8>, bytes: &[u8]) -> Result<(), AllocError>
    ensures { OnOk result (out.new.items ≡ out.old.items ++ spec.doubled bytes.now) }
{
    for byte in bytes {
        add_letter(out, *byte)?;
    }
    Ok(())
}

/// Whether a spreadsheet computes a cell with this text.
fn is_formula(bytes: &[u8]) -> bool
    ensures { result ≡ spec.is_formula bytes.now }
{
    matches!(bytes, [b'=' | b'+' | b'-' | b'@', _, ..])
}

/// Adds a file's name, in quotation marks if it needs them. If a spreadsheet would compute it, it is written as a path.
pub(crate) fn add_field(out: &mut Vec<u8>, name: &str) -> Result<(), AllocError>
    ensures { OnOk result (out.new.items ≡ out.old.items ++ spec.field name.now) }
{
    let bytes = name.as_bytes();
    let folder = if is_formula(bytes) { "./" } else { "" };
    if !has_needs(bytes) {
        out.extend_from_slice(folder.as_bytes())?;
        return out.extend_from_slice(bytes);
    }
    out.extend_from_slice(b"\"")?;
    out.extend_from_slice(folder.as_bytes())?;
    add_doubled(out, bytes)?;
    out.extend_from_slice(b"\"")
}
