//! What revokes would do.
ghost use Rattle.std.specs.Prelude.{◌≡◌, ◌++◌, IfOk, OnOk, filter, flat_map, map, string_bytes, true};
ghost use Rattle.kernel_forest.specs.Entries.{is_full};
ghost use Rattle.slot_core.specs.Calls.{derivation_view};
ghost use Rattle.kernel_abstract.specs.Reached.{IsReached};
ghost use Rattle.kernel_abstract.specs.State.{State, shown};
ghost use Rattle.setup_report.specs.State.{slot_of, slot_rows};
ghost use Rattle.setup_report.specs.Naming.{naming_view};
ghost use Rattle.query_revoke.specs.Below.{TellBelow};
ghost use Rattle.command_audit.specs.Revokes as spec;
ghost use Rattle.command_audit.specs.Threads.{can_name as can_name_slot};
ghost use Rattle.std.specs.List.{list_any};

use crate::ends::{add_ends, ended_caps};
use crate::threads::{ThreadSlots, can_name};
use cap_core::{Cap, Profile};
use ipc_core::{MakeWaiters, Waiters};
use kernel_core::Kernel;
use query_revoke::{DerivationIndex, NamedObjects};
use setup_report::{HeldSlot, Naming};
use slot_core::{CapStore, Derivation, DerivationStore, MakeStore};
use std::alloc::{AllocError, Global};
use std::fmt::Write;

/// A kernel of its own that shows the state after a revoke of a full slot, by its address, whether or not a thread can name
/// it.
pub fn revoked<P: Profile, S: MakeStore<P>, W: MakeWaiters<P>>(
    alloc: Global,
    kernel: &Kernel<P, S, W>,
    slot: u64,
) -> Result<Kernel<P, S, W>, AllocError>
    requires { is_full slot kernel.now.derivations ≡ true }
    ensures { IfOk result (λ new. (A : State) → IsReached P.profile A → kernel.now ≡ shown A → new ≡ spec.shown_after_revoke P.profile A slot) }
{
    let mut copy = kernel.copy(alloc)?;
    copy.revoke_slot(slot);
    Ok(copy)
}

/// Whether the slot at an address is empty.
pub fn is_cleared<P: Profile, S: CapStore<P> + Drop, W: Waiters<P> + Drop>(
    slot: u64,
    kernel: &Kernel<P, S, W>,
) -> bool
    ensures { result ≡ spec.is_cleared kernel.now slot }
{
    matches!(kernel.cap_at(slot), Cap::Null)
}

/// How many of some full slots are empty in a later state.
fn count_cleared<P: Profile, S: CapStore<P> + Drop, W: Waiters<P> + Drop>(
    old: &[Derivation],
    new: &Kernel<P, S, W>,
) -> usize
    ensures { result ≡ spec.cleared_count (map (derivation_view P.profile) old.now) new.now }
{
    let mut count = 0;
    for derivation in old {
        if is_cleared(derivation.slot.address::<P>(), new) {
            count += 1;
        }
    }
    count
}

/// Adds how many slots a revoke of a slot empties, and the objects that end, by capabilities that name them.
fn add_lines(
    alloc: Global,
    out: &mut String,
    slot: HeldSlot<'_>,
    cleared: usize,
    caps: &[Cap],
) -> Result<(), AllocError>
    ensures { OnOk result (string_bytes out.new ≡ string_bytes out.old
        ++ spec.lines_of_revoke (naming_view slot.entry.naming.now) slot.entry.slot slot.entry.cap cleared caps.now) }
{
    writeln!(out, "revoke {slot} clears {cleared}")?;
    add_ends(alloc, out, slot.naming, caps)
}

/// Adds what a revoke of a slot does: how many slots it empties, and which objects end. `rows` has the full slots of the
/// kernel before it, and `new` is the one after it.
pub fn add_revoke<P: Profile, S: DerivationStore<P> + Drop, W: Waiters<P> + Drop>(
    alloc: Global,
    out: &mut String,
    naming: &Naming<'_>,
    rows: &[Derivation],
    slot: u64,
    old: &Kernel<P, S, W>,
    new: &Kernel<P, S, W>,
) -> Result<(), AllocError>
    requires { map (derivation_view P.profile) rows.now ≡ slot_rows old.now }
    ensures { OnOk result (string_bytes out.new ≡ string_bytes out.old
        ++ spec.revoke_lines (naming_view naming.now) old.now new.now slot) }
{
    let left = NamedObjects::new(alloc, new.derivations(alloc)?)?;
    let caps = ended_caps::<P, S, W>(alloc, rows, &left, new)?;
    let cleared = count_cleared::<P, S, W>(rows, new);
    let cap = old.cap_at(slot);
    let slot = HeldSlot {
        naming: &*naming,
        slot,
        cap,
    };
    add_lines(alloc, out, slot, cleared, caps.as_slice())
}

/// Adds what a revoke of a slot does, where it has children. A revoke is made, in a copy of the kernel, only where an object
/// that has slots ends with it. `rows` and `index` have the full slots.
fn add_revoke_at<P: Profile, S: MakeStore<P> + DerivationStore<P>, W: MakeWaiters<P>>(
    alloc: Global,
    out: &mut String,
    naming: &Naming<'_>,
    rows: &[Derivation],
    index: &DerivationIndex<P>,
    slot: u64,
    kernel: &Kernel<P, S, W>,
) -> Result<(), AllocError>
    requires rows { map (derivation_view P.profile) rows.now ≡ slot_rows kernel.now }
    requires told { TellBelow P.profile index.now kernel.now.derivations }
    ensures { OnOk result ((A : State) → IsReached P.profile A → kernel.now ≡ shown A → string_bytes out.new ≡ string_bytes out.old
        ++ spec.revoke_lines_at P.profile (naming_view naming.now) A slot) }
{
    if !kernel.has_children(slot) {
        return Ok(());
    }
    if let Some(alone) = index.revoked_alone(alloc, slot)? {
        let cap = kernel.cap_at(slot);
        let held = HeldSlot {
            naming: &*naming,
            slot,
            cap,
        };
        add_lines(alloc, out, held, alone.cleared, alone.ended.as_slice())?;
        return Ok(());
    }
    let new = revoked::<P, S, W>(alloc, kernel, slot)?;
    add_revoke::<P, S, W>(alloc, out, naming, rows, slot, kernel, &new)?;
    Ok(())
}

/// Whether one of some threads can name a slot.
fn can_one_name(others: &[ThreadSlots], slot: u64) -> bool
    ensures { result ≡ list_any (can_name_slot slot) others.now }
{
    for thread in others {
        if can_name(thread, slot) {
            return true;
        }
    }
    false
}

/// Whether a revoke of a slot is told: of each slot; where threads are trusted, of those alone that one of the others can name.
fn is_told(trusted: &[u64], others: &[ThreadSlots], slot: u64) -> bool
    ensures { result ≡ spec.is_revoke_told trusted.now others.now slot }
{
    match trusted {
        [] => true,
        [_, ..] => can_one_name(others, slot),
    }
}

/// Of the full slots those of which a revoke is told.
pub fn told_rows<P: Profile>(
    alloc: Global,
    trusted: &[u64],
    others: &[ThreadSlots],
    rows: &[Derivation],
) -> Result<Vec<Derivation>, AllocError>
    ensures { IfOk result (λ told. told.items ≡ filter (λ d. spec.is_revoke_told trusted.now others.now (slot_of (derivation_view P.profile d))) rows.now) }
{
    let mut told = Vec::new(alloc);
    for row in rows {
        if is_told(trusted, others, row.slot.address::<P>()) {
            told.push(*row)?;
        }
    }
    Ok(told)
}

/// Adds what a revoke of each of some full slots with children would do. `rows` has all full slots.
pub fn add_revokes<P: Profile, S: MakeStore<P> + DerivationStore<P>, W: MakeWaiters<P>>(
    alloc: Global,
    out: &mut String,
    naming: &Naming<'_>,
    rows: &[Derivation],
    told: &[Derivation],
    kernel: &Kernel<P, S, W>,
) -> Result<(), AllocError>
    requires { map (derivation_view P.profile) rows.now ≡ slot_rows kernel.now }
    ensures { OnOk result ((A : State) → IsReached P.profile A → kernel.now ≡ shown A → string_bytes out.new ≡ string_bytes out.old
        ++ flat_map (λ d. spec.revoke_lines_of P.profile (naming_view naming.now) A (derivation_view P.profile d)) told.now) }
{
    let list = kernel.derivations(alloc)?;
    let index = DerivationIndex::<P>::new(alloc, list)?;
    for row in told {
        let slot = row.slot.address::<P>();
        add_revoke_at::<P, S, W>(alloc, out, naming, rows, &index, slot, kernel)?;
    }
    Ok(())
}
