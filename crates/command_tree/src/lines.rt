//! The lines of a derivation forest.
ghost use Rattle.std.specs.Prelude.{◌≡◌, ◌==◌, ◌++◌, ℕ, OnOk, map, string_bytes};
ghost use Rattle.std.specs.List.{IsDistinct};
ghost use Rattle.kernel_forest.specs.Forest.{Forest};
ghost use Rattle.kernel_forest.specs.Entries.{Entry, slots, derivations_of};
ghost use Rattle.slot_core.specs.Calls.{derivation_view};
ghost use Rattle.setup_report.specs.Naming.{naming_view};
ghost use Rattle.command_tree.specs.Tree as spec;
ghost use Rattle.command_tree.specs.Private.Path.{kept, path_below};

use crate::path::keep_to;
use crate::slot::{parent_address, slot_text};
use cap_core::Profile;
use setup_report::Naming;
use slot_core::Derivation;
use std::alloc::{AllocError, Global};
use std::fmt::Write;

/// Adds two spaces for each of some slots.
fn add_indent(out: &mut String, above: &[u64]) -> Result<(), AllocError>
    ensures { OnOk result (string_bytes out.new ≡ string_bytes out.old ++ spec.indent above.now) }
{
    for _slot in above {
        write!(out, "  ")?;
    }
    Ok(())
}

/// Adds the line of a full slot, which stands below the slots `above`.
fn add_slot<P: Profile>(
    out: &mut String,
    naming: &Naming<'_>,
    row: &Derivation,
    above: &[u64],
) -> Result<(), AllocError>
    ensures { OnOk result (string_bytes out.new ≡ string_bytes out.old
        ++ spec.tree_slot_line (naming_view naming.now) (derivation_view P.profile row.now).0 above.now) }
{
    add_indent(out, above)?;
    let slot = slot_text::<P>(naming, row);
    writeln!(out, "{slot}")
}

/// Adds the line of the next full slot, and makes of `path` the path to what stands right below it.
fn add_next<P: Profile>(
    out: &mut String,
    naming: &Naming<'_>,
    row: &Derivation,
    path: &mut Vec<u64>,
) -> Result<(), AllocError>
    ensures line { OnOk result (string_bytes out.new ≡ string_bytes out.old
        ++ spec.tree_slot_line (naming_view naming.now) (derivation_view P.profile row.now).0 (kept (derivation_view P.profile row.now).1 path.old.items)) }
    ensures path { OnOk result (path.new.items ≡ path_below (derivation_view P.profile row.now) path.old.items) }
{
    keep_to(path, parent_address::<P>(row));
    add_slot::<P>(out, naming, row, path.as_slice())?;
    path.push(row.slot.address::<P>())?;
    Ok(())
}

/// Adds a line for each of the full slots of a forest. `rows` has them as a kernel tells them.
pub fn add_forest<P: Profile>(
    alloc: Global,
    out: &mut String,
    naming: &Naming<'_>,
    rows: &[Derivation],
) -> Result<(), AllocError>
    ensures { OnOk result ((f : Forest Entry) → IsDistinct (λ (a b : ℕ). a == b) (slots f) → map (derivation_view P.profile) rows.now ≡ derivations_of f
        → string_bytes out.new ≡ string_bytes out.old ++ spec.forest_lines (naming_view naming.now) f) }
{
    let mut path = Vec::new(alloc);
    for row in rows {
        add_next::<P>(out, naming, row, &mut path)?;
    }
    Ok(())
}
