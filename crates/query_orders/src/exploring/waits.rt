//! The calls that wait.
ghost use Rattle.std.specs.Prelude.{◌≡◌, ◌<◌, ◌≤◌, IfOk, IfSome, OnOk, filter, length, nat_lt, position, unwrap_or};
ghost use Rattle.query_orders.specs.declared.answer.WaitingCall.{WaitingCall as WaitingCallOf};
ghost use Rattle.query_orders.specs.World.{is_waiting, still_waits, is_wait, waits_with, waits_after};

use crate::WaitingCall;
use cap_core::Profile;
use ipc_core::Waiters;
use kernel_core::{Kernel, Reply, ThreadState};
use slot_core::CapStore;
use std::alloc::{AllocError, Global};

/// Whether a thread waits.
fn is_waiting(state: Option<ThreadState>) -> bool
    ensures { result ≡ is_waiting state }
{
    match state {
        Some(ThreadState::Sending(_)) | Some(ThreadState::Receiving(_)) => true,
        Some(ThreadState::Ready) | Some(ThreadState::Inactive) | None => false,
    }
}

/// Whether the thread of a call that waits is shown to wait.
pub fn still_waits<P: Profile, S: CapStore<P> + Drop, W: Waiters<P> + Drop>(
    kernel: &Kernel<P, S, W>,
    call: &WaitingCall,
) -> bool
    ensures { result ≡ still_waits kernel.now call.now }
{
    is_waiting(kernel.thread_state(call.thread))
}

/// Whether a call is answered that it waits.
pub fn is_wait(reply: Reply) -> bool
    ensures { result ≡ is_wait reply }
{
    match reply {
        Reply::Waiting => true,
        Reply::Done | Reply::Delivered { .. } | Reply::Dropped | Reply::Empty | Reply::Refused(_) =>
            false,
    }
}

/// Those of the calls that waited whose threads still wait.
fn still_waiting<P: Profile, S: CapStore<P> + Drop, W: Waiters<P> + Drop>(
    alloc: Global,
    kernel: &Kernel<P, S, W>,
    waits: &[WaitingCall],
) -> Result<Vec<WaitingCall>, AllocError>
    ensures { IfOk result (λ kept. kept.items ≡ filter (still_waits kernel.now) waits.now) }
{
    let mut kept = Vec::new(alloc);
    let mut rest = waits;
    while let Some((call, later)) = rest.split_first() {
        if still_waits(kernel, call) {
            kept.push(*call)?;
        }
        rest = later;
    }
    Ok(kept)
}

/// The place of the first of the calls that wait whose thread is later.
fn first_later(waits: &[WaitingCall], thread: u64) -> Option<usize>
    ensures place { result ≡ position (λ (call : WaitingCallOf). nat_lt thread call.thread) waits.now }
    ensures within { IfSome result (λ at. at < length waits.now) }
{
    waits.iter().position(|call| thread < call.thread)
}

/// Where a call of a thread stands among those that wait: before those of later threads.
fn place_among(waits: &[WaitingCall], thread: u64) -> usize
    ensures place { result ≡ unwrap_or (position (λ (call : WaitingCallOf). nat_lt thread call.thread) waits.now) (length waits.now) }
    ensures within { result ≤ length waits.now }
{
    match first_later(waits, thread) {
        Some(at) => at,
        None => waits.len(),
    }
}

/// Puts a call that waits among others.
fn add_wait(waits: &mut Vec<WaitingCall>, new: WaitingCall) -> Result<(), AllocError>
    ensures { OnOk result (waits.new.items ≡ waits_with waits.old.items new) }
{
    let at = place_among(waits.as_slice(), new.thread);
    waits.insert(at, new)?;
    Ok(())
}

/// The calls that wait after one more, with its reply and the kernel after it.
pub fn waits_after<P: Profile, S: CapStore<P> + Drop, W: Waiters<P> + Drop>(
    alloc: Global,
    kernel: &Kernel<P, S, W>,
    waits: &[WaitingCall],
    new: WaitingCall,
    reply: Reply,
) -> Result<Vec<WaitingCall>, AllocError>
    ensures { IfOk result (λ after. after.items ≡ waits_after kernel.now waits.now new reply) }
{
    let mut after = still_waiting(alloc, kernel, waits)?;
    if is_wait(reply) {
        add_wait(&mut after, new)?;
    }
    Ok(after)
}
