//! The names of a set-up.
ghost use Rattle.std.specs.Prelude.{◌≡◌, ◌++◌, OnOk, string_bytes};
ghost use Rattle.setup_values.specs.Names.{names_view};
ghost use Rattle.command_trace.specs.Private.Listed.{name_view};
ghost use Rattle.command_trace.specs.Names as spec;

use setup_values::Name;
use std::alloc::AllocError;
use std::fmt::Write;

fn add_name(out: &mut String, name: &Name) -> Result<(), AllocError>
    ensures { OnOk result (string_bytes out.new ≡ string_bytes out.old ++ spec.name_line (name_view name.now)) }
{
    let text = name.text.as_str();
    let word = name.word;
    writeln!(out, "name {text} {word}")
}

/// Adds a line for each name of a set-up.
pub fn add_names(out: &mut String, names: &[Name]) -> Result<(), AllocError>
    ensures { OnOk result (string_bytes out.new ≡ string_bytes out.old ++ spec.name_lines (names_view names.now)) }
{
    for name in names {
        add_name(out, name)?;
    }
    Ok(())
}
