//! The audit of a state, and that of one slot.
ghost use Rattle.std.specs.Prelude.{◌≡◌, IfOk, ℕ, true};
ghost use Rattle.kernel_forest.specs.Entries.{is_full};
ghost use Rattle.kernel_abstract.specs.Memory.{IsInMemory};
ghost use Rattle.kernel_abstract.specs.Reached.{IsReached};
ghost use Rattle.kernel_abstract.specs.State.{State, shown};
ghost use Rattle.setup_values.specs.Names.{names_view};
ghost use Rattle.setup_report.specs.Naming.{naming_view};
ghost use Rattle.command_audit.specs.Audit as spec;

use crate::channels::{add_channels, channel_words};
use crate::head::add_head;
use crate::revokes::{add_revoke, add_revokes, revoked, told_rows};
use crate::threads::{add_opening, add_threads, others, thread_slots};
use cap_core::Profile;
use command_trace::add_changes_between;
use ipc_core::MakeWaiters;
use kernel_core::Kernel;
use query_reach::kernel_slots;
use setup_format::Setup;
use setup_report::{Naming, state_rows};
use setup_values::Name;
use slot_core::{DerivationStore, MakeStore};
use std::alloc::{AllocError, Global};

/// What of a state's audit does not come from its kernel alone.
#[derive(Clone, Copy)]
pub struct Heading<'a> {
    pub names: &'a [Name],
    pub naming: &'a Naming<'a>,
    /// The threads that are trusted to make no more calls.
    pub trusted: &'a [u64],
    pub setup: &'a Setup,
    /// How many of the set-up's calls are made.
    pub made: usize,
}

/// The audit of a kernel's state: the names by which it was spelt, who is trusted, what each other live thread can name, who of
/// them can send to whom, and what a revoke of each full slot with children would do; where threads are trusted, of each that one
/// of the others can name.
pub fn whole_audit<P: Profile, S: MakeStore<P> + DerivationStore<P>, W: MakeWaiters<P>>(
    alloc: Global,
    heading: Heading<'_>,
    kernel: &Kernel<P, S, W>,
) -> Result<Vec<u8>, AllocError>
    requires { (memory : ℕ) × IsInMemory P.profile memory kernel.now }
    ensures { IfOk result (λ text. (A : State) → IsReached P.profile A → kernel.now ≡ shown A
        → spec.IsWholeAudit P.profile (names_view heading.entry.names.now) (naming_view heading.entry.naming.now) heading.entry.trusted.now heading.entry.setup.now heading.entry.made A text.items) }
{
    let Heading {
        names,
        naming,
        trusted,
        setup,
        made,
    } = heading;
    let rows = state_rows::<P, S, W>(alloc, kernel)?;
    let filled = kernel_slots::<P, S, W>(alloc, kernel)?;
    let threads = others(alloc, &rows.threads, trusted)?;
    let list = thread_slots::<P>(alloc, filled.as_slice(), threads.as_slice())?;
    let words = channel_words(alloc, filled.as_slice(), list.as_slice())?;
    let told = told_rows::<P>(alloc, trusted, list.as_slice(), rows.slots.as_slice())?;
    let mut out = String::new(alloc);
    add_head(&mut out, naming, setup, made, None)?;
    add_opening(&mut out, names, naming, trusted)?;
    add_threads::<P, S, W>(&mut out, naming, list.as_slice(), kernel)?;
    add_channels(alloc, &mut out, naming, words.as_slice(), &rows.endpoints)?;
    add_revokes::<P, S, W>(
        alloc,
        &mut out,
        naming,
        rows.slots.as_slice(),
        told.as_slice(),
        kernel,
    )?;
    Ok(out.into_bytes())
}

/// What a revoke of one full slot, by its address, would do to a kernel's state behind so many calls of a set-up, with all
/// that it would change.
pub fn audit_of_slot<P: Profile, S: MakeStore<P> + DerivationStore<P>, W: MakeWaiters<P>>(
    alloc: Global,
    naming: &Naming<'_>,
    setup: &Setup,
    made: usize,
    slot: u64,
    kernel: &Kernel<P, S, W>,
) -> Result<Vec<u8>, AllocError>
    requires { is_full slot kernel.now.derivations ≡ true }
    ensures { IfOk result (λ text. (A : State) → IsReached P.profile A → kernel.now ≡ shown A
        → text.items ≡ spec.slot_audit P.profile (naming_view naming.now) setup.now made slot A) }
{
    let rows = state_rows::<P, S, W>(alloc, kernel)?;
    let new = revoked::<P, S, W>(alloc, kernel, slot)?;
    let mut out = String::new(alloc);
    add_head(&mut out, naming, setup, made, Some(slot))?;
    add_revoke::<P, S, W>(
        alloc,
        &mut out,
        naming,
        rows.slots.as_slice(),
        slot,
        kernel,
        &new,
    )?;
    add_changes_between::<P, S, W>(alloc, &mut out, naming, kernel, &new)?;
    Ok(out.into_bytes())
}
