//! All that a trace tells of a kernel's state: its lines, and then the order of siblings.
ghost use Rattle.std.specs.Prelude.{◌≡◌, ◌==◌, ◌++◌, ℕ, IfOk, OnOk, map, string_bytes};
ghost use Rattle.std.specs.List.{IsDistinct};
ghost use Rattle.cap_core.specs.declared.profile.ProfileName.{ProfileName};
ghost use Rattle.kernel_forest.specs.Entries.{derivations_of, slots as slots_in};
ghost use Rattle.slot_core.specs.Calls.{derivation_view};
ghost use Rattle.kernel_abstract.specs.Shown.{Shown};
ghost use Rattle.setup_report.specs.Naming.{Texts, naming_view};
ghost use Rattle.command_trace.specs.Told.{nothing_told, told_changes, told_lines};
ghost use Rattle.command_trace.specs.Views.{FollowsReply, IsStateTold};
ghost use Rattle.command_trace.specs.Private.Kept.{HaveSameSlots, IsApartTold, told_rows};

use crate::lines::rows::add_row_changes;
use crate::lines::siblings::{SiblingRow, siblings};
use crate::lines::slots::are_same_slots;
use crate::lines::state::{
    Memory, Messages, View, add_message_changes, add_view_changes, messages_of, view_of,
};
use cap_core::Profile;
use ipc_core::Waiters;
use kernel_core::{Kernel, Reply};
use setup_report::Naming;
use slot_core::{Derivation, DerivationStore};
use std::alloc::{AllocError, Global};
use std::collections::BTreeSet;

/// What was told of a state, kept to be compared with the next one: the full slots are in the kernel's order, each with
/// the sibling in front of it.
#[derive(Drop)]
pub struct Told {
    pub view: View,
    pub siblings: Vec<SiblingRow>,
}

/// A state of which nothing is told.
fn nothing(alloc: Global) -> Told
    ensures { (texts : Texts) (p : ProfileName) → told_rows texts p result ≡ nothing_told }
{
    Told {
        view: View {
            memory: Memory {
                threads: BTreeSet::new(alloc),
                endpoints: BTreeSet::new(alloc),
                slots: Vec::new(alloc),
                selfheld: Vec::new(alloc),
            },
            messages: Messages {
                threads: Vec::new(alloc),
                inboxes: Vec::new(alloc),
                endpoints: Vec::new(alloc),
            },
        },
        siblings: Vec::new(alloc),
    }
}

/// What is told of a kernel's state, by its full slots.
pub fn told_of<P: Profile, S: DerivationStore<P> + Drop, W: Waiters<P> + Drop>(
    alloc: Global,
    naming: &Naming<'_>,
    slots: Vec<Derivation>,
    kernel: &Kernel<P, S, W>,
) -> Result<Told, AllocError>
    requires list { map (derivation_view P.profile) slots.items ≡ derivations_of kernel.now.derivations }
    requires apart { IsDistinct (λ (a b : ℕ). a == b) (slots_in kernel.now.derivations) }
    ensures { IfOk result (IsStateTold (naming_view naming.now) P.profile kernel.now) }
{
    let siblings = siblings::<P>(alloc, slots.as_slice())?;
    let view = view_of::<P, S, W>(alloc, naming, slots, kernel)?;
    Ok(Told { view, siblings })
}

/// Tells a kernel's state anew, by its full slots: adds how it differs from what was told before.
fn tell_anew<P: Profile, S: DerivationStore<P> + Drop, W: Waiters<P> + Drop>(
    alloc: Global,
    out: &mut String,
    naming: &Naming<'_>,
    old: &Told,
    slots: Vec<Derivation>,
    kernel: &Kernel<P, S, W>,
) -> Result<Told, AllocError>
    requires old { IsApartTold (naming_view naming.now) P.profile old.now }
    requires list { map (derivation_view P.profile) slots.items ≡ derivations_of kernel.now.derivations }
    requires apart { IsDistinct (λ (a b : ℕ). a == b) (slots_in kernel.now.derivations) }
    ensures text { IfOk result (λ told. string_bytes out.new ≡ string_bytes out.old
        ++ told_changes (told_rows (naming_view naming.now) P.profile old.now) (told_rows (naming_view naming.now) P.profile told)) }
    ensures told { IfOk result (IsStateTold (naming_view naming.now) P.profile kernel.now) }
{
    let told = told_of::<P, S, W>(alloc, naming, slots, kernel)?;
    add_view_changes::<P>(alloc, out, naming, &old.view, &told.view)?;
    let (before, after) = (old.siblings.as_slice(), told.siblings.as_slice());
    add_row_changes::<P, SiblingRow>(alloc, out, naming, before, after)?;
    Ok(told)
}

/// Tells a kernel's state where nothing was told before: adds all of its lines.
pub fn tell<P: Profile, S: DerivationStore<P> + Drop, W: Waiters<P> + Drop>(
    alloc: Global,
    out: &mut String,
    naming: &Naming<'_>,
    kernel: &Kernel<P, S, W>,
) -> Result<Told, AllocError>
    ensures text { OnOk result (string_bytes out.new ≡ string_bytes out.old
        ++ told_changes nothing_told (told_lines (naming_view naming.now) P.profile kernel.now)) }
    ensures told { IfOk result (IsStateTold (naming_view naming.now) P.profile kernel.now) }
{
    let slots = kernel.derivations(alloc)?;
    tell_anew::<P, S, W>(alloc, out, naming, &nothing(alloc), slots, kernel)
}

/// Tells the messages of a kernel's state anew: adds how they differ from what was told of a state with the same full
/// slots.
fn tell_messages<P: Profile, S: DerivationStore<P> + Drop, W: Waiters<P> + Drop>(
    alloc: Global,
    out: &mut String,
    naming: &Naming<'_>,
    old: Told,
    kernel: &Kernel<P, S, W>,
) -> Result<Told, AllocError>
    requires { (v : Shown) × IsStateTold (naming_view naming.now) P.profile v old × HaveSameSlots v kernel.now }
    ensures text { OnOk result ((v : Shown) → IsStateTold (naming_view naming.now) P.profile v old → HaveSameSlots v kernel.now
        → string_bytes out.new ≡ string_bytes out.old
        ++ told_changes (told_lines (naming_view naming.now) P.profile v) (told_lines (naming_view naming.now) P.profile kernel.now)) }
    ensures told { IfOk result (IsStateTold (naming_view naming.now) P.profile kernel.now) }
{
    let Told {
        view: View { memory, messages },
        siblings,
    } = old;
    let new = messages_of::<P, S, W>(alloc, &memory, kernel)?;
    add_message_changes::<P>(alloc, out, naming, &messages, &new)?;
    let view = View {
        memory,
        messages: new,
    };
    Ok(Told { view, siblings })
}

/// Adds what a call changed that was done: where the full slots are the same, the messages alone.
fn tell_done<P: Profile, S: DerivationStore<P> + Drop, W: Waiters<P> + Drop>(
    alloc: Global,
    out: &mut String,
    naming: &Naming<'_>,
    old: Told,
    kernel: &Kernel<P, S, W>,
) -> Result<Told, AllocError>
    requires { (v : Shown) × IsStateTold (naming_view naming.now) P.profile v old }
    ensures text { OnOk result ((v : Shown) → IsStateTold (naming_view naming.now) P.profile v old → string_bytes out.new ≡ string_bytes out.old
        ++ told_changes (told_lines (naming_view naming.now) P.profile v) (told_lines (naming_view naming.now) P.profile kernel.now)) }
    ensures told { IfOk result (IsStateTold (naming_view naming.now) P.profile kernel.now) }
{
    let slots = kernel.derivations(alloc)?;
    if are_same_slots::<P>(old.view.memory.slots.as_slice(), slots.as_slice()) {
        return tell_messages::<P, S, W>(alloc, out, naming, old, kernel);
    }
    tell_anew::<P, S, W>(alloc, out, naming, &old, slots, kernel)
}

/// Tells a kernel's state after a call, by the call's reply: adds what the call changed of a state of which `old` is what
/// was told. A call that is refused, dropped or finds nothing changes nothing, and a send or a receive changes no
/// capability.
pub fn tell_call<P: Profile, S: DerivationStore<P> + Drop, W: Waiters<P> + Drop>(
    alloc: Global,
    out: &mut String,
    naming: &Naming<'_>,
    old: Told,
    kernel: &Kernel<P, S, W>,
    reply: Reply,
) -> Result<Told, AllocError>
    requires { (v : Shown) × IsStateTold (naming_view naming.now) P.profile v old × FollowsReply reply v kernel.now }
    ensures text { OnOk result ((v : Shown) → IsStateTold (naming_view naming.now) P.profile v old → FollowsReply reply v kernel.now
        → string_bytes out.new ≡ string_bytes out.old
        ++ told_changes (told_lines (naming_view naming.now) P.profile v) (told_lines (naming_view naming.now) P.profile kernel.now)) }
    ensures told { IfOk result (IsStateTold (naming_view naming.now) P.profile kernel.now) }
{
    match reply {
        Reply::Done => tell_done::<P, S, W>(alloc, out, naming, old, kernel),
        Reply::Waiting | Reply::Delivered { .. } => {
            tell_messages::<P, S, W>(alloc, out, naming, old, kernel)
        }
        Reply::Dropped | Reply::Empty | Reply::Refused(_) => Ok(old),
    }
}
