//! Whether two threads lie in two parts that are still: whose threads can do nothing but send and receive.
ghost use Rattle.std.specs.Prelude.{◌≡◌, true, IfOk};
ghost use Rattle.std.specs.List.{list_all};
ghost use Rattle.command_parts.specs.Takes as takes;
ghost use Rattle.setup_report.specs.State.{threads as threads_of};
ghost use Rattle.command_never.specs.Still as spec;

use cap_core::{Cap, Profile};
use command_parts::{PartSlot, is_in, is_of_part, part_slots, passes_alone};
use ipc_core::Waiters;
use kernel_core::{Kernel, ThreadState};
use query_parts::{PartMemory, part_at};
use slot_core::{CapStore, DerivationStore};
use std::alloc::{AllocError, Global};

/// A layout's state: its parts' memory, the live threads, those of them that are trusted, and whether flows are asked.
#[derive(Clone, Copy)]
pub struct Callers<'a> {
    pub memory: &'a [PartMemory],
    pub threads: &'a [u64],
    pub trusted: &'a [u64],
    pub asks_flows: bool,
}

/// Whether it is a CNode whose guard and radix have all bits of a word together.
fn has_whole_words<P: Profile>(cap: Cap) -> bool
    ensures { result ≡ spec.has_whole_words P.profile cap }
{
    match cap {
        Cap::CNode { radix, guard, .. } => {
            u64::from(guard.size) + u64::from(radix) == u64::from(P::WORD_BITS)
        }
        _ => false,
    }
}

fn is_ready_to_pass<P: Profile, S: CapStore<P> + Drop, W: Waiters<P> + Drop>(
    kernel: &Kernel<P, S, W>,
    thread: u64,
) -> bool
    ensures { result ≡ spec.is_ready_to_pass P.profile kernel.now thread }
{
    let is_ready = matches!(kernel.thread_state(thread), Some(ThreadState::Ready));
    is_ready && has_whole_words::<P>(kernel.cap_at(thread))
}

/// Whether a thread is ready to pass, if it lies in the part.
fn is_ready_in<P: Profile, S: CapStore<P> + Drop, W: Waiters<P> + Drop>(
    kernel: &Kernel<P, S, W>,
    memory: &[PartMemory],
    part: u64,
    thread: u64,
) -> bool
    ensures { result ≡ spec.is_ready_in P.profile memory.now kernel.now part thread }
{
    !is_of_part(memory, part, thread) || is_ready_to_pass::<P, S, W>(kernel, thread)
}

fn are_ready_in<P: Profile, S: CapStore<P> + Drop, W: Waiters<P> + Drop>(
    kernel: &Kernel<P, S, W>,
    callers: &Callers<'_>,
    part: u64,
) -> bool
    ensures { result ≡ list_all (spec.is_ready_in P.profile callers.now.memory.now kernel.now part) callers.now.threads.now }
{
    for thread in callers.threads {
        if !is_ready_in::<P, S, W>(kernel, callers.memory, part, *thread) {
            return false;
        }
    }
    true
}

fn is_still<P: Profile, S: CapStore<P> + Drop, W: Waiters<P> + Drop>(
    kernel: &Kernel<P, S, W>,
    callers: &Callers<'_>,
    slots: &[PartSlot],
    part: u64,
) -> bool
    requires threads { callers.now.threads.now ≡ threads_of P.profile kernel.now }
    requires slots { slots.now ≡ takes.part_slots callers.now.memory.now kernel.now.derivations }
    ensures { result ≡ spec.is_still P.profile callers.now.memory.now kernel.now part }
{
    passes_alone::<P>(slots, part) && are_ready_in::<P, S, W>(kernel, callers, part)
}

/// Whether a thread is live and not trusted.
fn is_caller(callers: &Callers<'_>, thread: u64) -> bool
    ensures { result ≡ spec.is_caller callers.now.threads.now callers.now.trusted.now thread }
{
    is_in(callers.threads, thread) && !is_in(callers.trusted, thread)
}

/// Whether both parts are still, and both threads are live and not trusted.
fn are_still_callers<P: Profile, S: CapStore<P> + Drop, W: Waiters<P> + Drop>(
    kernel: &Kernel<P, S, W>,
    callers: &Callers<'_>,
    slots: &[PartSlot],
    first: (u64, u64),
    second: (u64, u64),
) -> bool
    requires threads { callers.now.threads.now ≡ threads_of P.profile kernel.now }
    requires slots { slots.now ≡ takes.part_slots callers.now.memory.now kernel.now.derivations }
    ensures { result ≡ spec.are_still_callers P.profile callers.now.trusted.now callers.now.memory.now kernel.now first.0 first.1 second.0 second.1 }
{
    let ((from, part), (to, other)) = (first, second);
    is_still::<P, S, W>(kernel, callers, slots, part)
        && is_still::<P, S, W>(kernel, callers, slots, other)
        && is_caller(callers, from)
        && is_caller(callers, to)
}

/// Whether two live threads that are not trusted lie in two parts, and both parts are still.
pub fn lie_in_two_still<P: Profile, S: DerivationStore<P> + Drop, W: Waiters<P> + Drop>(
    alloc: Global,
    kernel: &Kernel<P, S, W>,
    callers: &Callers<'_>,
    from: u64,
    to: u64,
) -> Result<bool, AllocError>
    requires { callers.now.threads.now ≡ threads_of P.profile kernel.now }
    ensures { IfOk result (λ is. is ≡ true → spec.LieInTwoStillOf P.profile callers.now.trusted.now callers.now.memory.now kernel.now from to) }
{
    let (Some(i), Some(j)) = (part_at(callers.memory, from), part_at(callers.memory, to)) else {
        return Ok(false);
    };
    if i == j {
        return Ok(false);
    }
    let slots = part_slots::<P, S, W>(alloc, callers.memory, kernel)?;
    let slots = slots.as_slice();
    let are = are_still_callers::<P, S, W>(kernel, callers, slots, (from, i), (to, j));
    Ok(are)
}
