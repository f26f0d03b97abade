//! What is answered of two threads: by their parts; and if these leave it open, by flows, and by what still parts do.
ghost use Rattle.std.specs.Prelude.{◌≡◌, ℕ, true, false, IfErr, IfOk};
ghost use Rattle.kernel_abstract.specs.Memory.{IsInMemory};
ghost use Rattle.setup_report.specs.State.{endpoints as endpoints_of, threads as threads_of};
ghost use Rattle.command_parts.specs.Ever.{AreRightParts};
ghost use Rattle.command_never.specs.Waits.{waits as waits_of};
ghost use Rattle.command_never.specs.Answer as spec;

use crate::parts_kept::never::{Layout, Never, never_of_parts};
use crate::parts_kept::still::{Callers, lie_in_two_still};
use crate::parts_kept::waits::{Wait, waits};
use cap_core::Profile;
use command_parts::{listed, parts_of_callers};
use ipc_core::Waiters;
use kernel_core::Kernel;
use query_flow::keeps_apart;
use query_parts::{Parts, PartsFault};
use setup_report::state_rows;
use slot_core::DerivationStore;
use std::alloc::{AllocError, Global};

/// Closed parts around the threads of a state that are not trusted, its live threads and endpoints, and the threads that wait.
#[derive(Drop)]
pub struct StateParts {
    pub parts: Parts,
    pub threads: Vec<u64>,
    pub endpoints: Vec<u64>,
    pub waits: Vec<Wait>,
}

/// Those of a kernel's state.
///
/// # Errors
///
/// `Memory` if memory was refused; `Block` if the control block of a live thread would end past the last address. No kernel
/// whose objects lie in its memory has such a thread (`fault`).
pub fn state_parts<P: Profile, S: DerivationStore<P> + Drop, W: Waiters<P> + Drop>(
    alloc: Global,
    trusted: &[u64],
    kernel: &Kernel<P, S, W>,
) -> Result<StateParts, PartsFault>
    ensures right { IfOk result (λ s. AreRightParts P.profile kernel.now trusted.now s.parts.memory.items s.parts.uses.items) }
    ensures threads { IfOk result (λ s. s.threads.items ≡ threads_of P.profile kernel.now) }
    ensures endpoints { IfOk result (λ s. s.endpoints.items ≡ endpoints_of P.profile kernel.now) }
    ensures waits { IfOk result (λ s. s.waits.items ≡ waits_of P.profile kernel.now) }
    ensures fault { IfErr result (λ fault. fault ≡ PartsFault.Block → (memory : ℕ) → IsInMemory P.profile memory kernel.now → ⊥) }
{
    let rows = state_rows::<P, S, W>(alloc, kernel)?;
    let parts = parts_of_callers::<P, S, W>(alloc, trusted, kernel, &rows)?;
    let threads = listed(alloc, &rows.threads)?;
    let endpoints = listed(alloc, &rows.endpoints)?;
    let waits = waits::<P, S, W>(alloc, kernel, threads.as_slice())?;
    Ok(StateParts {
        parts,
        threads,
        endpoints,
        waits,
    })
}

/// What parts alone answer of two threads: that the part of the one is kept from that of the other, but by the endpoints that `by` names,
/// or that this is possible.
///
/// # Errors
///
/// As those of `state_parts`.
pub fn never_by_parts<P: Profile, S: DerivationStore<P> + Drop, W: Waiters<P> + Drop>(
    alloc: Global,
    trusted: &[u64],
    from: u64,
    to: u64,
    by: &[u64],
    kernel: &Kernel<P, S, W>,
) -> Result<Never, PartsFault>
    ensures answered { IfOk result (spec.IsNeverByParts P.profile trusted.now kernel.now by.now from to) }
    ensures fault { IfErr result (λ fault. fault ≡ PartsFault.Block → (memory : ℕ) → IsInMemory P.profile memory kernel.now → ⊥) }
{
    let state = state_parts::<P, S, W>(alloc, trusted, kernel)?;
    let layout = Layout {
        memory: state.parts.memory.as_slice(),
        uses: state.parts.uses.as_slice(),
        waits: state.waits.as_slice(),
    };
    let answer = never_of_parts::<P>(alloc, &layout, by, from, to)?;
    Ok(answer)
}

/// Whether flows say that no message of the one thread is ever delivered to the other, but by the endpoints that are named, and that no
/// word of it ever leads to the other's control block.
fn are_kept_by_flow<P: Profile, S: DerivationStore<P> + Drop, W: Waiters<P> + Drop>(
    alloc: Global,
    kernel: &Kernel<P, S, W>,
    trusted: &[u64],
    by: &[u64],
    from: u64,
    to: u64,
) -> Result<bool, AllocError>
    ensures { IfOk result (λ is. is ≡ true → spec.AreKeptByFlow P.profile trusted.now kernel.now by.now from to) }
{
    let are = keeps_apart::<P, S, W>(alloc, kernel, trusted, by, from, to)?;
    Ok(are)
}

/// What is answered if the parts exclude nothing.
fn answer_past_parts<P: Profile, S: DerivationStore<P> + Drop, W: Waiters<P> + Drop>(
    alloc: Global,
    kernel: &Kernel<P, S, W>,
    callers: &Callers<'_>,
    by: &[u64],
    from: u64,
    to: u64,
) -> Result<Never, AllocError>
    requires { callers.now.threads.now ≡ threads_of P.profile kernel.now }
    ensures open { IfOk result (λ answer. spec.is_excluded answer ≡ false) }
    ensures founded { IfOk result (spec.IsFounded P.profile callers.now.trusted.now callers.now.memory.now kernel.now by.now from to) }
    ensures flows { IfOk result (λ answer. callers.now.asks_flows ≡ false → spec.is_by_flow answer ≡ false) }
{
    if lie_in_two_still::<P, S, W>(alloc, kernel, callers, from, to)? {
        return Ok(Never::Decided);
    }
    let trusted = callers.trusted;
    if callers.asks_flows && are_kept_by_flow::<P, S, W>(alloc, kernel, trusted, by, from, to)? {
        return Ok(Never::ExcludedByFlow);
    }
    Ok(Never::Possible)
}

/// What is answered of two threads, of which the parts answer this.
pub fn answer_of<P: Profile, S: DerivationStore<P> + Drop, W: Waiters<P> + Drop>(
    alloc: Global,
    kernel: &Kernel<P, S, W>,
    callers: &Callers<'_>,
    by: &[u64],
    from: u64,
    to: u64,
    of_parts: Never,
) -> Result<Never, AllocError>
    requires { callers.now.threads.now ≡ threads_of P.profile kernel.now }
    ensures answered { IfOk result (λ answer. spec.is_excluded answer ≡ spec.is_excluded of_parts) }
    ensures founded { IfOk result (spec.IsFounded P.profile callers.now.trusted.now callers.now.memory.now kernel.now by.now from to) }
    ensures flows { IfOk result (λ answer. callers.now.asks_flows ≡ false → spec.is_by_flow answer ≡ false) }
{
    match of_parts {
        Never::Excluded => Ok(Never::Excluded),
        Never::ExcludedByFlow | Never::Possible | Never::Decided => {
            answer_past_parts::<P, S, W>(alloc, kernel, callers, by, from, to)
        }
    }
}
