//! What each thread can name.
ghost use Rattle.std.specs.Prelude.{◌≡◌, ◌++◌, ◌==◌, IfOk, OnOk, All, filter, flat_map, map, not, string_bytes};
ghost use Rattle.std.specs.List.{list_any};
ghost use Rattle.setup_report.specs.State.{is_in as is_in_list};
ghost use Rattle.kernel_forest.specs.Forest.{Forest};
ghost use Rattle.kernel_forest.specs.Entries.{Entry};
ghost use Rattle.query_reach.specs.FullSlots.{AreFullSlots, AreLawful, AreRising};
ghost use Rattle.setup_values.specs.Names.{names_view};
ghost use Rattle.setup_report.specs.Naming.{naming_view};
ghost use Rattle.command_audit.specs.Threads as spec;

use crate::spaces::told_as;
use cap_core::Profile;
use command_trace::{OfferText, add_names};
use ipc_core::Waiters;
use kernel_core::Kernel;
use query_reach::{FullSlot, Held, Reached, held_slots, reached_slots};
use setup_report::{HeldSlot, Naming, Object, StateText};
use setup_values::Name;
use slot_core::CapStore;
use std::alloc::{AllocError, Global};
use std::collections::BTreeSet;
use std::fmt::Write;

/// A live thread, and all full slots that it can name: those that its words lead to, and those that it names by an index
/// and a depth alone.
#[derive(Drop)]
pub struct ThreadSlots {
    pub thread: u64,
    pub reached: Vec<Reached>,
    pub held: Vec<Held>,
}

fn slots_of_thread<P: Profile>(
    alloc: Global,
    filled: &[FullSlot],
    thread: u64,
) -> Result<ThreadSlots, AllocError>
    requires lawful { AreLawful P.profile filled.now }
    requires rising { AreRising filled.now }
    ensures thread { IfOk result (λ t. t.thread ≡ thread) }
    ensures slots { IfOk result (λ t. (f : Forest Entry) → AreFullSlots f filled.now → spec.AreSlotsOf P.profile f t) }
{
    let reached = reached_slots::<P>(alloc, filled, thread)?;
    let held = held_slots::<P>(alloc, filled, reached.as_slice())?;
    Ok(ThreadSlots {
        thread,
        reached,
        held,
    })
}

fn reaches(list: &[Reached], slot: u64) -> bool
    ensures { result ≡ list_any (λ r. r.slot == slot) list.now }
{
    for reached in list {
        if reached.slot == slot {
            return true;
        }
    }
    false
}

fn holds(list: &[Held], slot: u64) -> bool
    ensures { result ≡ list_any (λ h. h.slot == slot) list.now }
{
    for held in list {
        if held.slot == slot {
            return true;
        }
    }
    false
}

/// Whether a thread can name a slot.
pub fn can_name(thread: &ThreadSlots, slot: u64) -> bool
    ensures { result ≡ spec.can_name slot thread.now }
{
    reaches(thread.reached.as_slice(), slot) || holds(thread.held.as_slice(), slot)
}

/// What each of some threads can name. `filled` has all full slots, as `full_slots` of `query_reach` gives them.
pub fn thread_slots<P: Profile>(
    alloc: Global,
    filled: &[FullSlot],
    threads: &[u64],
) -> Result<Vec<ThreadSlots>, AllocError>
    requires lawful { AreLawful P.profile filled.now }
    requires rising { AreRising filled.now }
    ensures threads { IfOk result (λ list. map (λ t. t.thread) list.items ≡ threads.now) }
    ensures slots { IfOk result (λ list. (f : Forest Entry) → AreFullSlots f filled.now → All (spec.AreSlotsOf P.profile f) list.items) }
{
    let mut list = Vec::new(alloc);
    for thread in threads {
        let slots = slots_of_thread::<P>(alloc, filled, *thread)?;
        list.push(slots)?;
    }
    Ok(list)
}

fn add_thread<P: Profile, S: CapStore<P> + Drop, W: Waiters<P> + Drop>(
    out: &mut String,
    naming: &Naming<'_>,
    address: u64,
    kernel: &Kernel<P, S, W>,
) -> Result<(), AllocError>
    ensures { OnOk result (string_bytes out.new ≡ string_bytes out.old
        ++ spec.live_thread_line (naming_view naming.now) kernel.now address) }
{
    let Some(state) = kernel.thread_state(address) else {
        return Ok(());
    };
    let thread = naming.about(address);
    let state = StateText {
        naming: &*naming,
        state,
    };
    let offer = OfferText(kernel.offer(address));
    writeln!(out, "thread {thread} {state}{offer}")
}

fn add_reached<P: Profile, S: CapStore<P> + Drop, W: Waiters<P> + Drop>(
    out: &mut String,
    naming: &Naming<'_>,
    thread: u64,
    list: &[Reached],
    kernel: &Kernel<P, S, W>,
) -> Result<(), AllocError>
    ensures { OnOk result (string_bytes out.new ≡ string_bytes out.old
        ++ flat_map (spec.reach_line (naming_view naming.now) kernel.now.derivations thread) list.now) }
{
    for reached in list {
        let told = naming.object(Object::Thread(thread));
        let word = reached.word;
        let slot = HeldSlot {
            naming: &*naming,
            slot: reached.slot,
            cap: kernel.cap_at(reached.slot),
        };
        writeln!(out, "  reach {told} {word} slot {slot}")?;
    }
    Ok(())
}

fn add_held<P: Profile, S: CapStore<P> + Drop, W: Waiters<P> + Drop>(
    out: &mut String,
    naming: &Naming<'_>,
    thread: u64,
    list: &[Held],
    kernel: &Kernel<P, S, W>,
) -> Result<(), AllocError>
    ensures { OnOk result (string_bytes out.new ≡ string_bytes out.old
        ++ flat_map (spec.hold_line (naming_view naming.now) kernel.now.derivations thread) list.now) }
{
    for held in list {
        let told = naming.object(Object::Thread(thread));
        let word = held.word;
        let index = held.index;
        let depth = held.depth;
        let slot = HeldSlot {
            naming: &*naming,
            slot: held.slot,
            cap: kernel.cap_at(held.slot),
        };
        writeln!(
            out,
            "  hold {told} {word} index {index} depth {depth} slot {slot}"
        )?;
    }
    Ok(())
}

/// Adds what a thread can name; where the thread is told as another one, a line that says so.
fn add_named<P: Profile, S: CapStore<P> + Drop, W: Waiters<P> + Drop>(
    out: &mut String,
    naming: &Naming<'_>,
    slots: &ThreadSlots,
    first: Option<u64>,
    kernel: &Kernel<P, S, W>,
) -> Result<(), AllocError>
    ensures { OnOk result (string_bytes out.new ≡ string_bytes out.old
        ++ spec.named_lines (naming_view naming.now) kernel.now slots.now first) }
{
    if let Some(first) = first {
        let first = naming.about(first);
        return writeln!(out, "  as {first}");
    }
    let thread = slots.thread;
    add_reached::<P, S, W>(out, naming, thread, slots.reached.as_slice(), kernel)?;
    add_held::<P, S, W>(out, naming, thread, slots.held.as_slice(), kernel)
}

/// Adds what a thread does, and what it can name.
fn add_one<P: Profile, S: CapStore<P> + Drop, W: Waiters<P> + Drop>(
    out: &mut String,
    naming: &Naming<'_>,
    list: &[ThreadSlots],
    slots: &ThreadSlots,
    kernel: &Kernel<P, S, W>,
) -> Result<(), AllocError>
    ensures { OnOk result (string_bytes out.new ≡ string_bytes out.old
        ++ spec.slots_lines (naming_view naming.now) kernel.now list.now slots.now) }
{
    add_thread::<P, S, W>(out, naming, slots.thread, kernel)?;
    let first = told_as(list, slots);
    add_named::<P, S, W>(out, naming, slots, first, kernel)
}

/// Adds what threads do, and below each thread a line for each full slot that it can name, or one that says which of them can
/// name just that.
pub fn add_threads<P: Profile, S: CapStore<P> + Drop, W: Waiters<P> + Drop>(
    out: &mut String,
    naming: &Naming<'_>,
    list: &[ThreadSlots],
    kernel: &Kernel<P, S, W>,
) -> Result<(), AllocError>
    ensures { OnOk result (string_bytes out.new ≡ string_bytes out.old
        ++ flat_map (spec.slots_lines (naming_view naming.now) kernel.now list.now) list.now) }
{
    for slots in list {
        add_one::<P, S, W>(out, naming, list, slots, kernel)?;
    }
    Ok(())
}

/// Adds what the names are the addresses of, and a line for each trusted thread.
pub fn add_opening(
    out: &mut String,
    names: &[Name],
    naming: &Naming<'_>,
    trusted: &[u64],
) -> Result<(), AllocError>
    ensures { OnOk result (string_bytes out.new ≡ string_bytes out.old
        ++ spec.opening (names_view names.now) (naming_view naming.now) trusted.now) }
{
    add_naming(out, names, naming)?;
    add_trusted(out, naming, trusted)
}

/// Adds a line for each name of the set-up, with what it is the address of; none, where addresses are told by names.
fn add_naming(out: &mut String, names: &[Name], naming: &Naming<'_>) -> Result<(), AllocError>
    ensures { OnOk result (string_bytes out.new ≡ string_bytes out.old ++ spec.naming_lines (naming_view naming.now).by_name (names_view names.now)) }
{
    if naming.is_by_name() {
        Ok(())
    } else {
        add_names(out, names)
    }
}

fn add_trusted(out: &mut String, naming: &Naming<'_>, trusted: &[u64]) -> Result<(), AllocError>
    ensures { OnOk result (string_bytes out.new ≡ string_bytes out.old ++ flat_map (spec.trusted_line (naming_view naming.now)) trusted.now) }
{
    for thread in trusted {
        let told = naming.about(*thread);
        writeln!(out, "without {told}")?;
    }
    Ok(())
}

fn is_in(list: &[u64], number: u64) -> bool
    ensures { result ≡ is_in_list number list.now }
{
    for other in list {
        if number == *other {
            return true;
        }
    }
    false
}

/// The live threads that are not trusted.
pub fn others(
    alloc: Global,
    threads: &BTreeSet<u64>,
    trusted: &[u64],
) -> Result<Vec<u64>, AllocError>
    ensures { IfOk result (λ v. v.items ≡ filter (λ thread. not (is_in_list thread trusted.now)) threads.now.keys) }
{
    let mut others = Vec::new(alloc);
    for thread in threads {
        if !is_in(trusted, *thread) {
            others.push(*thread)?;
        }
    }
    Ok(others)
}
