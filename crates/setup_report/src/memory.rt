//! What a kernel shows of its memory, a line for each thing that is there, as a naming writes it.
ghost use Rattle.std.specs.Prelude.{◌≡◌, ◌++◌, OnOk, IfOk, flat_map, string_bytes};
ghost use Rattle.slot_core.specs.Calls.{derivation_view};
ghost use Rattle.kernel_abstract.specs.Shown.{waiting_at};
ghost use Rattle.setup_report.specs.Naming.{naming_view};
ghost use Rattle.setup_report.specs.Report as spec;
ghost use Rattle.setup_report.specs.Private.Roles.{is_sending};

use crate::lines::{EndpointLine, SlotLine, ThreadLine};
use crate::naming::Naming;
use crate::objects::Object;
use crate::state::state_rows;
use cap_core::Profile;
use ipc_core::Waiters;
use kernel_core::{Kernel, ThreadState};
use slot_core::{CapStore, Derivation, DerivationStore};
use std::alloc::{AllocError, Global};
use std::collections::BTreeSet;
use std::fmt::Write;

fn add_thread<P: Profile, S: CapStore<P> + Drop, W: Waiters<P> + Drop>(
    out: &mut String,
    naming: &Naming<'_>,
    address: u64,
    kernel: &Kernel<P, S, W>,
) -> Result<(), AllocError>
    ensures { OnOk result (string_bytes out.new ≡ string_bytes out.old
        ++ spec.thread_line (naming_view naming.now) kernel.now address) }
{
    match kernel.thread_state(address) {
        None => Ok(()),
        Some(state) => {
            let line = ThreadLine {
                naming,
                address,
                state,
                inbox: kernel.inbox(address),
            };
            writeln!(out, "{line}")
        }
    }
}

/// Adds a line for each of some threads.
fn add_threads<P: Profile, S: CapStore<P> + Drop, W: Waiters<P> + Drop>(
    out: &mut String,
    naming: &Naming<'_>,
    threads: &BTreeSet<u64>,
    kernel: &Kernel<P, S, W>,
) -> Result<(), AllocError>
    ensures { OnOk result (string_bytes out.new ≡ string_bytes out.old
        ++ flat_map (spec.thread_line (naming_view naming.now) kernel.now) threads.now.keys) }
{
    for thread in threads {
        add_thread::<P, S, W>(out, naming, *thread, kernel)?;
    }
    Ok(())
}

fn add_slot<P: Profile, S: CapStore<P> + Drop, W: Waiters<P> + Drop>(
    out: &mut String,
    naming: &Naming<'_>,
    derivation: &Derivation,
    kernel: &Kernel<P, S, W>,
) -> Result<(), AllocError>
    ensures { OnOk result (string_bytes out.new ≡ string_bytes out.old
        ++ spec.slot_line (naming_view naming.now) kernel.now (derivation_view P.profile derivation.now)) }
{
    let address = derivation.slot.address::<P>();
    let line = SlotLine {
        naming,
        address,
        cap: derivation.cap,
        has_children: kernel.has_children(address),
    };
    writeln!(out, "{line}")
}

/// Adds a line for each of some full slots.
fn add_slots<P: Profile, S: CapStore<P> + Drop, W: Waiters<P> + Drop>(
    out: &mut String,
    naming: &Naming<'_>,
    slots: &[Derivation],
    kernel: &Kernel<P, S, W>,
) -> Result<(), AllocError>
    ensures { OnOk result (string_bytes out.new ≡ string_bytes out.old
        ++ flat_map (λ d. spec.slot_line (naming_view naming.now) kernel.now (derivation_view P.profile d)) slots.now) }
{
    for slot in slots {
        add_slot::<P, S, W>(out, naming, slot, kernel)?;
    }
    Ok(())
}

/// The threads that wait on an endpoint, the first to be served first; none if no live endpoint is at the address.
pub fn waiting_threads<P: Profile, S: CapStore<P> + Drop, W: Waiters<P> + Drop>(
    alloc: Global,
    endpoint: u64,
    kernel: &Kernel<P, S, W>,
) -> Result<Vec<u64>, AllocError>
    ensures { IfOk result (λ v. v.items ≡ spec.threads_at kernel.now endpoint) }
{
    let mut threads = Vec::new(alloc);
    let mut next = kernel.waiting(endpoint, 0);
    while let Some(thread) = next {
        threads.push(thread)?;
        next = kernel.next_waiting(thread);
    }
    Ok(threads)
}

fn is_sending(state: Option<ThreadState>) -> bool
    ensures { result ≡ is_sending state }
{
    matches!(state, Some(ThreadState::Sending(_)))
}

/// Whether the thread that waits first on an endpoint sends, as all that wait there then do.
pub fn first_sends<P: Profile, S: CapStore<P> + Drop, W: Waiters<P> + Drop>(
    endpoint: u64,
    kernel: &Kernel<P, S, W>,
) -> bool
    ensures { result ≡ spec.first_sends (waiting_at kernel.now endpoint) }
{
    match kernel.waiting(endpoint, 0) {
        Some(first) => is_sending(kernel.thread_state(first)),
        None => false,
    }
}

fn add_endpoint<P: Profile, S: CapStore<P> + Drop, W: Waiters<P> + Drop>(
    alloc: Global,
    out: &mut String,
    naming: &Naming<'_>,
    address: u64,
    kernel: &Kernel<P, S, W>,
) -> Result<(), AllocError>
    ensures { OnOk result (string_bytes out.new ≡ string_bytes out.old
        ++ spec.endpoint_line (naming_view naming.now) kernel.now address) }
{
    let threads = waiting_threads::<P, S, W>(alloc, address, kernel)?;
    let line = EndpointLine {
        naming: &*naming,
        address,
        sending: first_sends::<P, S, W>(address, kernel),
        threads: threads.as_slice(),
    };
    writeln!(out, "{line}")
}

/// Adds a line for each of some endpoints.
fn add_endpoints<P: Profile, S: CapStore<P> + Drop, W: Waiters<P> + Drop>(
    alloc: Global,
    out: &mut String,
    naming: &Naming<'_>,
    endpoints: &BTreeSet<u64>,
    kernel: &Kernel<P, S, W>,
) -> Result<(), AllocError>
    ensures { OnOk result (string_bytes out.new ≡ string_bytes out.old
        ++ flat_map (spec.endpoint_line (naming_view naming.now) kernel.now) endpoints.now.keys) }
{
    for endpoint in endpoints {
        add_endpoint::<P, S, W>(alloc, out, naming, *endpoint, kernel)?;
    }
    Ok(())
}

/// Adds a line for each of some CNodes that only slots of their own name.
fn add_selfheld(out: &mut String, naming: &Naming<'_>, nodes: &[u64]) -> Result<(), AllocError>
    ensures { OnOk result (string_bytes out.new ≡ string_bytes out.old
        ++ flat_map (spec.selfheld_line (naming_view naming.now)) nodes.now) }
{
    for address in nodes {
        let node = naming.object(Object::CNode(*address));
        writeln!(out, "selfheld {node}")?;
    }
    Ok(())
}

/// Adds what a kernel shows of its memory: a line for each live thread, each live endpoint, each full slot and each CNode
/// that only slots of its own name, each by rising address.
pub fn add_state<P: Profile, S: DerivationStore<P> + Drop, W: Waiters<P> + Drop>(
    alloc: Global,
    out: &mut String,
    naming: &Naming<'_>,
    kernel: &Kernel<P, S, W>,
) -> Result<(), AllocError>
    ensures { OnOk result (string_bytes out.new ≡ string_bytes out.old
        ++ spec.state_lines (naming_view naming.now) P.profile kernel.now) }
{
    let rows = state_rows::<P, S, W>(alloc, kernel)?;
    add_threads::<P, S, W>(out, naming, &rows.threads, kernel)?;
    add_endpoints::<P, S, W>(alloc, out, naming, &rows.endpoints, kernel)?;
    add_slots::<P, S, W>(out, naming, rows.slots.as_slice(), kernel)?;
    add_selfheld(out, naming, rows.selfheld.as_slice())?;
    Ok(())
}
