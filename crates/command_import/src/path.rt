//! The line that tells the path of a layout's file.
ghost use Rattle.std.specs.Prelude.{◌≡◌, ◌++◌, OnOk, codes, option_map};
ghost use Rattle.command_import.specs.Import as spec;

use std::alloc::AllocError;

/// Adds a byte of a path: a quotation mark and a `\` behind a `\`, and `?` for a control character.
fn add_byte(out: &mut Vec<u8>, byte: u8) -> Result<(), AllocError>
    ensures { OnOk result (out.new.items ≡ out.old.items ++ spec.path_byte byte) }
{
    if byte == b'"' || byte == b'\\' {
        out.extend_from_slice(&[b'\\', byte])
    } else if byte < 32 || byte == 127 {
        out.extend_from_slice(b"?")
    } else {
        out.extend_from_slice(&[byte])
    }
}

/// Adds a path.
fn add_path(out: &mut Vec<u8>, path: &[u8]) -> Result<(), AllocError>
    ensures { OnOk result (out.new.items ≡ out.old.items ++ spec.path_text path.now) }
{
    for byte in path {
        add_byte(out, *byte)?;
    }
    Ok(())
}

/// Adds the line that tells the path of a layout's file, if it has one.
fn add_layout_line(out: &mut Vec<u8>, path: Option<&str>) -> Result<(), AllocError>
    ensures { OnOk result (out.new.items ≡ out.old.items ++ spec.layout_line (option_map (λ s. s.now) path.entry)) }
{
    let Some(path) = path else {
        return Ok(());
    };
    out.extend_from_slice(b"# layout \"")?;
    add_path(out, path.as_bytes())?;
    out.extend_from_slice(b"\"\n")
}

/// Adds the notes on a layout, the line that tells the path of its file, if it has one, and the format and the rest of a set-up.
pub fn add_setup(
    out: &mut Vec<u8>,
    notes: &str,
    path: Option<&str>,
    rest: &str,
) -> Result<(), AllocError>
    ensures { OnOk result (out.new.items ≡ out.old.items
        ++ (notes.now ++ (codes "\n" ++ (spec.layout_line (option_map (λ s. s.now) path.entry) ++ (codes "format = 2\n" ++ rest.now))))) }
{
    out.extend_from_slice(notes.as_bytes())?;
    out.extend_from_slice(b"\n")?;
    add_layout_line(out, path)?;
    out.extend_from_slice(b"format = 2\n")?;
    out.extend_from_slice(rest.as_bytes())
}
