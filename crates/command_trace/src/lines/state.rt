//! What a trace keeps of a kernel's state, to be compared with the next state.
ghost use Rattle.std.specs.Prelude.{◌≡◌, ◌==◌, ◌++◌, ℕ, IfOk, OnOk, map, string_bytes};
ghost use Rattle.std.specs.List.{IsDistinct};
ghost use Rattle.kernel_forest.specs.Entries.{derivations_of, slots as slots_in};
ghost use Rattle.slot_core.specs.Calls.{derivation_view};
ghost use Rattle.kernel_abstract.specs.Shown.{Shown};
ghost use Rattle.setup_report.specs.Naming.{Texts, naming_view};
ghost use Rattle.command_trace.specs.Changes.{changes};
ghost use Rattle.command_trace.specs.Views.{IsViewOf, ShowsMemory, ShowsMessages};
ghost use Rattle.command_trace.specs.Private.Kept.{IsApartMemory, IsApartMessages, IsApartView, memory_changes, message_changes, view_rows};

use crate::lines::changes::{StateLine, add_changes};
use crate::lines::messages::{
    EndpointRow, InboxRow, ThreadRow, endpoint_rows, inbox_rows, thread_rows,
};
use crate::lines::rows::add_row_changes;
use crate::lines::slots::selfheld_lines;
use cap_core::Profile;
use ipc_core::Waiters;
use kernel_core::Kernel;
use setup_report::{NamedObject, Naming, named, selfheld};
use slot_core::{Derivation, DerivationStore};
use std::alloc::{AllocError, Global};
use std::collections::BTreeSet;

/// What the capabilities show: the live threads and endpoints, the full slots in the kernel's order, and the lines of
/// selfheld CNodes.
#[derive(Drop)]
pub struct Memory {
    pub threads: BTreeSet<u64>,
    pub endpoints: BTreeSet<u64>,
    pub slots: Vec<Derivation>,
    pub selfheld: Vec<StateLine>,
}

/// What the messages show, by rising address: the threads, what was delivered to them, and the endpoints.
#[derive(Drop)]
pub struct Messages {
    pub threads: Vec<ThreadRow>,
    pub inboxes: Vec<InboxRow>,
    pub endpoints: Vec<EndpointRow>,
}

/// All that a trace tells of a state, but the order of siblings.
#[derive(Drop)]
pub struct View {
    pub memory: Memory,
    pub messages: Messages,
}

/// What the capabilities in some full slots show.
pub fn memory_of<P: Profile>(
    alloc: Global,
    naming: &Naming<'_>,
    slots: Vec<Derivation>,
) -> Result<Memory, AllocError>
    ensures { IfOk result (λ m. (v : Shown) → map (derivation_view P.profile) slots.items ≡ derivations_of v.derivations
        → IsDistinct (λ (a b : ℕ). a == b) (slots_in v.derivations) → ShowsMemory (naming_view naming.now) P.profile v m) }
{
    let threads = named::<P>(alloc, NamedObject::Thread, slots.as_slice())?;
    let endpoints = named::<P>(alloc, NamedObject::Endpoint, slots.as_slice())?;
    let nodes = selfheld::<P>(alloc, slots.as_slice())?;
    let selfheld = selfheld_lines(alloc, naming, nodes.as_slice())?;
    Ok(Memory {
        threads,
        endpoints,
        slots,
        selfheld,
    })
}

/// What a kernel's messages show, by the threads and endpoints that are live.
pub fn messages_of<P: Profile, S: DerivationStore<P> + Drop, W: Waiters<P> + Drop>(
    alloc: Global,
    memory: &Memory,
    kernel: &Kernel<P, S, W>,
) -> Result<Messages, AllocError>
    ensures { IfOk result (λ m. (texts : Texts) → ShowsMemory texts P.profile kernel.now memory.now → ShowsMessages texts P.profile kernel.now m) }
{
    Ok(Messages {
        threads: thread_rows::<P, S, W>(alloc, &memory.threads, kernel)?,
        inboxes: inbox_rows::<P, S, W>(alloc, &memory.threads, kernel)?,
        endpoints: endpoint_rows::<P, S, W>(alloc, &memory.endpoints, kernel)?,
    })
}

/// What a kernel shows, by its full slots.
pub fn view_of<P: Profile, S: DerivationStore<P> + Drop, W: Waiters<P> + Drop>(
    alloc: Global,
    naming: &Naming<'_>,
    slots: Vec<Derivation>,
    kernel: &Kernel<P, S, W>,
) -> Result<View, AllocError>
    requires list { map (derivation_view P.profile) slots.items ≡ derivations_of kernel.now.derivations }
    requires apart { IsDistinct (λ (a b : ℕ). a == b) (slots_in kernel.now.derivations) }
    ensures { IfOk result (IsViewOf (naming_view naming.now) P.profile kernel.now) }
{
    let memory = memory_of::<P>(alloc, naming, slots)?;
    let messages = messages_of::<P, S, W>(alloc, &memory, kernel)?;
    Ok(View { memory, messages })
}

fn add_memory_changes<P: Profile>(
    alloc: Global,
    out: &mut String,
    naming: &Naming<'_>,
    old: &Memory,
    new: &Memory,
) -> Result<(), AllocError>
    requires old { IsApartMemory (naming_view naming.now) P.profile old.now }
    requires new { IsApartMemory (naming_view naming.now) P.profile new.now }
    ensures { OnOk result (string_bytes out.new ≡ string_bytes out.old ++ memory_changes (naming_view naming.now) P.profile old.now new.now) }
{
    let (before, after) = (old.slots.as_slice(), new.slots.as_slice());
    add_row_changes::<P, Derivation>(alloc, out, naming, before, after)?;
    add_changes(out, old.selfheld.as_slice(), new.selfheld.as_slice())
}

/// Adds how messages differ.
pub fn add_message_changes<P: Profile>(
    alloc: Global,
    out: &mut String,
    naming: &Naming<'_>,
    old: &Messages,
    new: &Messages,
) -> Result<(), AllocError>
    requires old { IsApartMessages (naming_view naming.now) old.now }
    requires new { IsApartMessages (naming_view naming.now) new.now }
    ensures { OnOk result (string_bytes out.new ≡ string_bytes out.old ++ message_changes (naming_view naming.now) old.now new.now) }
{
    let (before, after) = (old.threads.as_slice(), new.threads.as_slice());
    add_row_changes::<P, ThreadRow>(alloc, out, naming, before, after)?;
    let (before, after) = (old.inboxes.as_slice(), new.inboxes.as_slice());
    add_row_changes::<P, InboxRow>(alloc, out, naming, before, after)?;
    let (before, after) = (old.endpoints.as_slice(), new.endpoints.as_slice());
    add_row_changes::<P, EndpointRow>(alloc, out, naming, before, after)
}

/// Adds how two states differ.
pub fn add_view_changes<P: Profile>(
    alloc: Global,
    out: &mut String,
    naming: &Naming<'_>,
    old: &View,
    new: &View,
) -> Result<(), AllocError>
    requires old { IsApartView (naming_view naming.now) P.profile old.now }
    requires new { IsApartView (naming_view naming.now) P.profile new.now }
    ensures { OnOk result (string_bytes out.new ≡ string_bytes out.old
        ++ changes (view_rows (naming_view naming.now) P.profile old.now) (view_rows (naming_view naming.now) P.profile new.now)) }
{
    add_message_changes::<P>(alloc, out, naming, &old.messages, &new.messages)?;
    add_memory_changes::<P>(alloc, out, naming, &old.memory, &new.memory)
}
