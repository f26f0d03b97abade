//! A derivation forest as a graph.
ghost use Rattle.std.specs.Prelude.{◌≡◌, ◌++◌, OnOk, string_bytes};
ghost use Rattle.std.specs.List.{flat_map};
ghost use Rattle.slot_core.specs.Calls.{derivation_view};
ghost use Rattle.setup_report.specs.Naming.{naming_view};
ghost use Rattle.command_tree.specs.Tree as spec;

use crate::slot::{parent_address, slot_text};
use cap_core::Profile;
use setup_report::Naming;
use slot_core::Derivation;
use std::alloc::AllocError;
use std::fmt::Write;

/// Adds what stands before the nodes, with this label.
pub fn add_graph_head(out: &mut String, label: &str) -> Result<(), AllocError>
    ensures { OnOk result (string_bytes out.new ≡ string_bytes out.old ++ spec.graph_head label.now) }
{
    out.push_str("digraph derivation {\n  graph [label=\"")?;
    out.push_str(label)?;
    out.push_str("\" rankdir=LR ordering=out];\n  node [shape=box];\n")?;
    Ok(())
}

/// Adds the node of a full slot.
fn add_node<P: Profile>(
    out: &mut String,
    naming: &Naming<'_>,
    row: &Derivation,
) -> Result<(), AllocError>
    ensures { OnOk result (string_bytes out.new ≡ string_bytes out.old
        ++ spec.node_line (naming_view naming.now) (derivation_view P.profile row.now).0) }
{
    let text = slot_text::<P>(naming, row);
    let slot = text.slot;
    writeln!(out, "  {slot} [label=\"{text}\"];")
}

/// Adds the edge to a slot, if it is derived from another one.
fn add_edge(out: &mut String, parent: Option<u64>, slot: u64) -> Result<(), AllocError>
    ensures { OnOk result (string_bytes out.new ≡ string_bytes out.old ++ spec.edge_line parent slot) }
{
    match parent {
        None => Ok(()),
        Some(parent) => writeln!(out, "  {parent} -> {slot};"),
    }
}

/// Adds the node of a full slot, and the edge to it.
fn add_row<P: Profile>(
    out: &mut String,
    naming: &Naming<'_>,
    row: &Derivation,
) -> Result<(), AllocError>
    ensures { OnOk result (string_bytes out.new ≡ string_bytes out.old
        ++ spec.node_lines (naming_view naming.now) (derivation_view P.profile row.now)) }
{
    add_node::<P>(out, naming, row)?;
    add_edge(out, parent_address::<P>(row), row.slot.address::<P>())
}

/// Adds the nodes of all full slots and the edges between them, in the order of `rows`, which has them as a kernel tells them.
pub fn add_nodes<P: Profile>(
    out: &mut String,
    naming: &Naming<'_>,
    rows: &[Derivation],
) -> Result<(), AllocError>
    ensures { OnOk result (string_bytes out.new ≡ string_bytes out.old
        ++ flat_map (λ row. spec.node_lines (naming_view naming.now) (derivation_view P.profile row)) rows.now) }
{
    for row in rows {
        add_row::<P>(out, naming, row)?;
    }
    Ok(())
}
