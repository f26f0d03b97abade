//! The lines of a call by a thread that is not live.
ghost use Rattle.std.specs.Prelude.{◌≡◌, ◌++◌, IfOk, OnOk, string_bytes};
ghost use Rattle.setup_report.specs.Naming.{naming_view};
ghost use Rattle.setup_report.specs.State.{threads};
ghost use Rattle.command_why.specs.Asked.{asked_texts, asked_view};
ghost use Rattle.command_why.specs.Reasons as spec;

use crate::reasons::{Asked, add_address, add_live};
use cap_core::Profile;
use ipc_core::Waiters;
use kernel_core::Kernel;
use setup_report::{Naming, state_rows};
use slot_core::DerivationStore;
use std::alloc::{AllocError, Global};
use std::collections::BTreeSet;

/// The elements of a set, in order.
fn listed(alloc: Global, set: &BTreeSet<u64>) -> Result<Vec<u64>, AllocError>
    ensures { IfOk result (λ list. list.items ≡ set.now.keys) }
{
    let mut list = Vec::new(alloc);
    for element in set {
        list.push(*element)?;
    }
    Ok(list)
}

/// The live threads, by rising address.
fn live_threads<P: Profile, S: DerivationStore<P> + Drop, W: Waiters<P> + Drop>(
    alloc: Global,
    kernel: &Kernel<P, S, W>,
) -> Result<Vec<u64>, AllocError>
    ensures { IfOk result (λ list. list.items ≡ threads P.profile kernel.now) }
{
    let rows = state_rows::<P, S, W>(alloc, kernel)?;
    listed(alloc, &rows.threads)
}

/// Adds the line of the threads that are live.
fn add_live_threads<P: Profile, S: DerivationStore<P> + Drop, W: Waiters<P> + Drop>(
    alloc: Global,
    out: &mut String,
    naming: &Naming<'_>,
    kernel: &Kernel<P, S, W>,
) -> Result<(), AllocError>
    ensures { OnOk result (string_bytes out.new ≡ string_bytes out.old
        ++ spec.live_line (naming_view naming.now) (threads P.profile kernel.now)) }
{
    let threads = live_threads::<P, S, W>(alloc, kernel)?;
    add_live(out, naming, threads.as_slice())
}

/// Adds that no live thread is at the address.
pub fn add_no_thread<P: Profile, S: DerivationStore<P> + Drop, W: Waiters<P> + Drop>(
    alloc: Global,
    out: &mut String,
    kernel: &Kernel<P, S, W>,
    asked: Asked<'_, '_>,
) -> Result<(), AllocError>
    ensures { OnOk result (string_bytes out.new ≡ string_bytes out.old
        ++ spec.no_thread_lines (asked_texts asked.entry) P.profile kernel.now (asked_view asked.entry)) }
{
    add_address(out, asked)?;
    add_live_threads::<P, S, W>(alloc, out, asked.naming, kernel)
}
