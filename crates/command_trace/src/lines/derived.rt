//! What is told of a call that derives a capability of a thread or of an endpoint.
ghost use Rattle.std.specs.Prelude.{◌≡◌, ◌==◌, ◌++◌, IfOk, OnOk, not, string_bytes};
ghost use Rattle.std.specs.List.{filter};
ghost use Rattle.kernel_forest.specs.Forest.{Forest};
ghost use Rattle.kernel_forest.specs.Entries.{Entry, derivations_of};
ghost use Rattle.slot_core.specs.Places.{address_of};
ghost use Rattle.kernel_abstract.specs.Shown.{Shown};
ghost use Rattle.setup_report.specs.Naming.{naming_view};
ghost use Rattle.command_trace.specs.Changes.{line_changes};
ghost use Rattle.command_trace.specs.Lines.{traced_slot_lines};
ghost use Rattle.command_trace.specs.Siblings.{sibling_lines};
ghost use Rattle.command_trace.specs.Told.{told_changes, told_lines};
ghost use Rattle.command_trace.specs.Private.Derived.{AreRowsOf, IsDerivedStep, child_text, next_text};

use crate::lines::changes::{StateLine, add_added};
use crate::lines::foreseen::DerivedCap;
use crate::lines::rows::add_row_changes;
use crate::lines::siblings::{SiblingRow, siblings};
use crate::lines::text::SlotText;
use cap_core::Profile;
use ipc_core::Waiters;
use kernel_core::Kernel;
use kernel_core::invocation::CapPlacement;
use setup_report::Naming;
use slot_core::{Derivation, DerivationStore};
use std::alloc::{AllocError, Global};

/// Adds the line of the sibling right behind a slot, where there is one.
fn add_next(
    alloc: Global,
    out: &mut String,
    naming: &Naming<'_>,
    slot: u64,
    next: Option<u64>,
) -> Result<(), AllocError>
    ensures { OnOk result (string_bytes out.new ≡ string_bytes out.old ++ next_text (naming_view naming.now) slot next) }
{
    let Some(address) = next else {
        return Ok(());
    };
    let (next, slot) = (naming.slot(address), naming.slot(slot));
    let text = format!(in alloc; "sibling {next} after {slot}")?;
    add_added(out, &StateLine { address, text })
}

/// Adds what changes by a new first child: its slot is full, and stands in front of the one that was the first.
fn add_child(
    alloc: Global,
    out: &mut String,
    naming: &Naming<'_>,
    new: DerivedCap,
) -> Result<(), AllocError>
    ensures { OnOk result (string_bytes out.new ≡ string_bytes out.old
        ++ child_text (naming_view naming.now) new.placement new.original new.next) }
{
    let CapPlacement { source, slot, cap } = new.placement;
    let line = SlotText {
        naming,
        address: slot,
        cap,
        parent: Some(source),
        original: new.original,
    };
    let text = line.to_string(alloc)?;
    let address = slot;
    add_added(out, &StateLine { address, text })?;
    add_next(alloc, out, naming, slot, new.next)
}

/// Some full slots but the one at an address.
fn without<P: Profile>(
    alloc: Global,
    rows: &[Derivation],
    slot: u64,
) -> Result<Vec<Derivation>, AllocError>
    ensures { IfOk result (λ v. v.items ≡ filter (λ d. not (address_of P.profile d.slot == slot)) rows.now) }
{
    rows.iter()
        .filter(|row| row.slot.address::<P>() != slot)
        .copied()
        .collect(alloc)
}

/// Adds how full slots differ, in the kernel's order, and then the order of siblings.
fn add_slots_changes<P: Profile>(
    alloc: Global,
    out: &mut String,
    naming: &Naming<'_>,
    old: &[Derivation],
    new: &[Derivation],
) -> Result<(), AllocError>
    requires { (f : Forest Entry) × (g : Forest Entry) × AreRowsOf P.profile f old.now × AreRowsOf P.profile g new.now }
    ensures { OnOk result ((f g : Forest Entry) → AreRowsOf P.profile f old.now → AreRowsOf P.profile g new.now
        → string_bytes out.new ≡ string_bytes out.old
        ++ (line_changes (traced_slot_lines (naming_view naming.now) (derivations_of f)) (traced_slot_lines (naming_view naming.now) (derivations_of g))
        ++ line_changes (sibling_lines (naming_view naming.now) f) (sibling_lines (naming_view naming.now) g))) }
{
    add_row_changes::<P, Derivation>(alloc, out, naming, old, new)?;
    let before = siblings::<P>(alloc, old)?;
    let after = siblings::<P>(alloc, new)?;
    add_row_changes::<P, SiblingRow>(alloc, out, naming, before.as_slice(), after.as_slice())
}

/// Adds what changed by a call that derived a capability. A slot whose capability is derived from the source is its first
/// child: that and the next sibling are all that changed, and no other slot is looked at. Else it stands behind the source,
/// and the full slots are compared with the same ones but it.
pub fn add_derived<P: Profile, S: DerivationStore<P> + Drop, W: Waiters<P> + Drop>(
    alloc: Global,
    out: &mut String,
    naming: &Naming<'_>,
    new: DerivedCap,
    kernel: &Kernel<P, S, W>,
) -> Result<(), AllocError>
    requires { (v : Shown) × IsDerivedStep P.profile v kernel.now new }
    ensures { OnOk result ((v : Shown) → IsDerivedStep P.profile v kernel.now new → string_bytes out.new ≡ string_bytes out.old
        ++ told_changes (told_lines (naming_view naming.now) P.profile v) (told_lines (naming_view naming.now) P.profile kernel.now)) }
{
    let CapPlacement { source, slot, .. } = new.placement;
    if kernel.first_child(source) == Some(slot) {
        return add_child(alloc, out, naming, new);
    }
    let after = kernel.derivations(alloc)?;
    let before = without::<P>(alloc, after.as_slice(), slot)?;
    add_slots_changes::<P>(alloc, out, naming, before.as_slice(), after.as_slice())
}
