//! The lines of full slots, and of CNodes that hold themselves.
ghost use Rattle.std.specs.Prelude.{◌≡◌, IfOk, IsTrue, OnOk, ◌++◌, ◌∷◌, [], map, option_map};
ghost use Rattle.std.specs.List.{flat_map};
ghost use Rattle.slot_core.specs.Calls.{derivation_view};
ghost use Rattle.slot_core.specs.Places.{address_of};
ghost use Rattle.setup_report.specs.Naming.{naming_view};
ghost use Rattle.command_trace.specs.Lines as spec;
ghost use Rattle.command_trace.specs.Views.{line_view};
ghost use Rattle.command_trace.specs.Private.Listed.{derivation_line};

use crate::lines::changes::StateLine;
use crate::lines::rows::Row;
use crate::lines::text::SlotText;
use cap_core::Profile;
use setup_report::{Naming, Object};
use slot_core::{Derivation, Slot};
use std::alloc::{AllocError, Global};

/// The line of a full slot.
fn slot_line<P: Profile>(
    alloc: Global,
    naming: &Naming<'_>,
    derivation: &Derivation,
) -> Result<StateLine, AllocError>
    ensures { IfOk result (λ l. line_view l ≡ derivation_line (naming_view naming.now) P.profile derivation.now) }
{
    let parent = match derivation.parent {
        Some(parent) => Some(parent.address::<P>()),
        None => None,
    };
    let address = derivation.slot.address::<P>();
    let text = SlotText {
        naming,
        address,
        cap: derivation.cap,
        parent,
        original: derivation.original,
    };
    Ok(StateLine {
        address,
        text: text.to_string(alloc)?,
    })
}

fn is_same_parent<P: Profile>(one: Option<Slot>, other: Option<Slot>) -> bool
    ensures { IsTrue result → option_map (address_of P.profile) one ≡ option_map (address_of P.profile) other }
{
    one == other
}

/// Whether two full slots are the same: their addresses, their capabilities, the slots right above them, and whether they are
/// original.
fn is_same_slot<P: Profile>(one: &Derivation, other: &Derivation) -> bool
    ensures { IsTrue result → derivation_view P.profile one.now ≡ derivation_view P.profile other.now }
{
    one.slot == other.slot
        && one.cap == other.cap
        && one.original == other.original
        && is_same_parent::<P>(one.parent, other.parent)
}

/// Whether two lists of full slots are the same.
pub fn are_same_slots<P: Profile>(old: &[Derivation], new: &[Derivation]) -> bool
    ensures { IsTrue result → map (derivation_view P.profile) old.now ≡ map (derivation_view P.profile) new.now }
{
    if old.len() != new.len() {
        return false;
    }
    for i in 0..old.len() {
        if !is_same_slot::<P>(&old[i], &new[i]) {
            return false;
        }
    }
    true
}

impl<P: Profile> Row<P> for Derivation {
    ghost lines = { λ texts d. derivation_line texts P.profile d ∷ [] };

    fn is_same(&self, other: &Derivation) -> bool {
        is_same_slot::<P>(self, other)
    }

    fn add_line(
        &self,
        alloc: Global,
        naming: &Naming<'_>,
        out: &mut Vec<StateLine>,
    ) -> Result<(), AllocError> {
        let line = slot_line::<P>(alloc, naming, self)?;
        out.push(line)?;
        Ok(())
    }
}

fn add_selfheld(
    alloc: Global,
    naming: &Naming<'_>,
    lines: &mut Vec<StateLine>,
    address: u64,
) -> Result<(), AllocError>
    ensures { OnOk result (map line_view lines.new.items
        ≡ map line_view lines.old.items ++ spec.line_at (spec.selfheld_at (naming_view naming.now)) address) }
{
    let node = naming.object(Object::CNode(address));
    let text = format!(in alloc; "selfheld {node}")?;
    lines.push(StateLine { address, text })?;
    Ok(())
}

/// A line for each of some CNodes that only slots of their own name.
pub fn selfheld_lines(
    alloc: Global,
    naming: &Naming<'_>,
    nodes: &[u64],
) -> Result<Vec<StateLine>, AllocError>
    ensures { IfOk result (λ v. map line_view v.items ≡ flat_map (spec.line_at (spec.selfheld_at (naming_view naming.now))) nodes.now) }
{
    let mut lines = Vec::new(alloc);
    for node in nodes {
        add_selfheld(alloc, naming, &mut lines, *node)?;
    }
    Ok(lines)
}
