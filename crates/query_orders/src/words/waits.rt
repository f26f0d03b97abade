//! The words of a waiting list.
ghost use Rattle.std.specs.Prelude.{◌≡◌, ◌++◌, IfOk, OnOk};
ghost use Rattle.kernel_abstract.specs.Shown.{waiting_at};
ghost use Rattle.query_orders.specs.Words as spec;
ghost use Rattle.query_orders.specs.Private.Waiting.{waiter_shown, threads_waiting_at};

use crate::words::parts::add_waiter;
use cap_core::Profile;
use ipc_core::Waiters;
use kernel_core::Kernel;
use slot_core::CapStore;
use std::alloc::{AllocError, Global};

/// The threads that wait on an endpoint, the first to be served first.
fn waiting_threads<P: Profile, S: CapStore<P> + Drop, W: Waiters<P> + Drop>(
    alloc: Global,
    endpoint: u64,
    kernel: &Kernel<P, S, W>,
) -> Result<Vec<u64>, AllocError>
    ensures { IfOk result (λ v. v.items ≡ threads_waiting_at kernel.now endpoint) }
{
    let mut threads = Vec::new(alloc);
    let mut next = kernel.waiting(endpoint, 0);
    while let Some(thread) = next {
        threads.push(thread)?;
        next = kernel.next_waiting(thread);
    }
    Ok(threads)
}

/// Threads that wait, each with what it sends.
fn add_waiters<P: Profile, S: CapStore<P> + Drop, W: Waiters<P> + Drop>(
    words: &mut Vec<u64>,
    threads: &[u64],
    kernel: &Kernel<P, S, W>,
) -> Result<(), AllocError>
    ensures { OnOk result (words.new.items ≡ words.old.items
        ++ spec.listed (λ t. spec.waiter_words (waiter_shown kernel.now t)) threads.now) }
{
    let mut rest = threads;
    while let Some((thread, later)) = rest.split_first() {
        words.push(1)?;
        add_waiter(words, *thread, kernel.offer(*thread))?;
        rest = later;
    }
    words.push(0)?;
    Ok(())
}

/// Who waits on an endpoint, the first to be served first.
pub fn add_endpoint<P: Profile, S: CapStore<P> + Drop, W: Waiters<P> + Drop>(
    alloc: Global,
    words: &mut Vec<u64>,
    endpoint: u64,
    kernel: &Kernel<P, S, W>,
) -> Result<(), AllocError>
    ensures { OnOk result (words.new.items ≡ words.old.items
        ++ spec.listed spec.waiter_words (waiting_at kernel.now endpoint)) }
{
    let _first = kernel.waiting(endpoint, 0);
    let threads = waiting_threads::<P, S, W>(alloc, endpoint, kernel)?;
    add_waiters::<P, S, W>(words, threads.as_slice(), kernel)
}
