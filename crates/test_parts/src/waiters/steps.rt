//! Calls on endpoints, each with what it is to answer.
ghost use Rattle.std.specs.Prelude.{◌≡◌, IsTrue};
ghost use Rattle.ipc_core.specs.Waits.{IsEndpointAddress, IsThreadAddress};

use cap_core::{Badge, Message, Narrow, Profile, Wide};
use ipc_core::{LinkedWaiters, MakeWaiters, Received, Role, RowWaiters, Sent, Waiters};
use std::alloc::{AllocError, Global};

pub const MEMORY_BITS: u32 = 14;

/// A call, or a question, with its answer.
#[derive(Clone, Copy)]
pub enum Step {
    Send {
        endpoint: u64,
        thread: u64,
        badge: u64,
        block: bool,
        answer: Sent,
    },
    Receive {
        endpoint: u64,
        thread: u64,
        block: bool,
        answer: Received,
    },
    CancelThread(u64),
    CancelBadge(u64, u64),
    CancelEndpoint(u64),
    /// Who waits at a place of an endpoint.
    Waiting(u64, u64, Option<u64>),
    /// Who waits behind a thread.
    Behind(u64, Option<u64>),
    /// How a thread waits.
    Role(u64, Option<Role>),
}

/// A message that its sender's badge names.
pub fn message(label: u64) -> Message {
    Message {
        label,
        words: [label, 0, 0, 0],
        count: 1,
    }
}

/// A thread that waits with a send.
pub fn sends(endpoint: u64, thread: u64, badge: u64) -> Step {
    Step::Send {
        endpoint,
        thread,
        badge,
        block: true,
        answer: Sent::Waiting,
    }
}

/// A thread that waits with a receive.
pub fn receives(endpoint: u64, thread: u64) -> Step {
    Step::Receive {
        endpoint,
        thread,
        block: true,
        answer: Received::Waiting,
    }
}

/// A thread that receives what another sent with a badge.
pub fn receives_from(endpoint: u64, thread: u64, block: bool, from: u64, badge: u64) -> Step {
    Step::Receive {
        endpoint,
        thread,
        block,
        answer: Received::Delivered {
            from,
            badge: Badge(badge),
            message: message(badge),
        },
    }
}

/// Whether an endpoint can stand at an address.
pub fn is_endpoint<P: Profile>(address: u64) -> bool
    ensures { IsTrue result → IsEndpointAddress P.profile MEMORY_BITS address }
{
    address % 64 == 0 && address < 16384
}

/// Whether a thread control block can stand at an address.
pub fn is_thread<P: Profile>(address: u64) -> bool
    ensures { IsTrue result → IsThreadAddress P.profile MEMORY_BITS address }
{
    address % 2048 == 0 && address < 16384
}

/// Sends if the thread may: whether the answer is this one.
fn is_sent<P: Profile, W: Waiters<P>>(
    waiters: &mut W,
    endpoint: u64,
    thread: u64,
    badge: u64,
    block: bool,
    answer: Sent,
) -> bool
    requires { W.memory_bits waiters.old ≡ MEMORY_BITS }
    ensures { W.memory_bits waiters.new ≡ MEMORY_BITS }
{
    if !is_endpoint::<P>(endpoint) || !is_thread::<P>(thread) || waiters.role(thread).is_some() {
        return false;
    }
    waiters.send(endpoint, thread, Badge(badge), message(badge), block) == answer
}

/// Receives if the thread may: whether the answer is this one.
fn is_received<P: Profile, W: Waiters<P>>(
    waiters: &mut W,
    endpoint: u64,
    thread: u64,
    block: bool,
    answer: Received,
) -> bool
    requires { W.memory_bits waiters.old ≡ MEMORY_BITS }
    ensures { W.memory_bits waiters.new ≡ MEMORY_BITS }
{
    if !is_endpoint::<P>(endpoint) || !is_thread::<P>(thread) || waiters.role(thread).is_some() {
        return false;
    }
    waiters.recv(endpoint, thread, block) == answer
}

/// Cancels on an endpoint: the senders with a badge, or all.
fn is_cancelled<P: Profile, W: Waiters<P>>(
    waiters: &mut W,
    endpoint: u64,
    badge: Option<u64>,
) -> bool
    requires { W.memory_bits waiters.old ≡ MEMORY_BITS }
    ensures { W.memory_bits waiters.new ≡ MEMORY_BITS }
{
    if !is_endpoint::<P>(endpoint) {
        return false;
    }
    match badge {
        Some(badge) => waiters.cancel_badge(endpoint, Badge(badge)),
        None => waiters.cancel_endpoint(endpoint),
    }
    true
}

/// Cancels what a thread waits for.
fn is_free<P: Profile, W: Waiters<P>>(waiters: &mut W, thread: u64) -> bool
    requires { W.memory_bits waiters.old ≡ MEMORY_BITS }
    ensures { W.memory_bits waiters.new ≡ MEMORY_BITS }
{
    if !is_thread::<P>(thread) {
        return false;
    }
    waiters.cancel_thread(thread);
    true
}

/// Takes a step: whether its answer is the one that it names.
fn is_met<P: Profile, W: Waiters<P>>(waiters: &mut W, step: Step) -> bool
    requires { W.memory_bits waiters.old ≡ MEMORY_BITS }
    ensures { W.memory_bits waiters.new ≡ MEMORY_BITS }
{
    match step {
        Step::Send {
            endpoint,
            thread,
            badge,
            block,
            answer,
        } => is_sent::<P, W>(waiters, endpoint, thread, badge, block, answer),
        Step::Receive {
            endpoint,
            thread,
            block,
            answer,
        } => is_received::<P, W>(waiters, endpoint, thread, block, answer),
        Step::CancelThread(thread) => is_free::<P, W>(waiters, thread),
        Step::CancelBadge(endpoint, badge) => is_cancelled::<P, W>(waiters, endpoint, Some(badge)),
        Step::CancelEndpoint(endpoint) => is_cancelled::<P, W>(waiters, endpoint, None),
        Step::Waiting(endpoint, place, thread) => {
            is_endpoint::<P>(endpoint) && waiters.waiting(endpoint, place) == thread
        },
        Step::Behind(thread, next) => {
            is_thread::<P>(thread) && waiters.next_waiting(thread) == next
        },
        Step::Role(thread, role) => is_thread::<P>(thread) && waiters.role(thread) == role,
    }
}

/// Takes steps in turn, up to the first whose answer is another: whether there is none.
pub fn are_all_met<P: Profile, W: Waiters<P>>(waiters: &mut W, steps: &[Step]) -> bool
    requires { W.memory_bits waiters.old ≡ MEMORY_BITS }
    ensures { W.memory_bits waiters.new ≡ MEMORY_BITS }
{
    for step in steps {
        if !is_met::<P, W>(waiters, *step) {
            return false;
        }
    }
    true
}

fn are_met_by<P: Profile, W: MakeWaiters<P>>(
    alloc: Global,
    steps: &[Step],
) -> Result<bool, AllocError> {
    let mut waiters = W::new(alloc, MEMORY_BITS)?;
    Ok(are_all_met::<P, W>(&mut waiters, steps))
}

/// Whether all steps are met from where nobody waits, by rows and by queues, in both profiles.
pub fn are_met(alloc: Global, steps: &[Step]) -> Result<bool, AllocError> {
    Ok(
        are_met_by::<Wide, RowWaiters<Wide>>(alloc, steps)?
            && are_met_by::<Narrow, RowWaiters<Narrow>>(alloc, steps)?
            && are_met_by::<Wide, LinkedWaiters<Wide>>(alloc, steps)?
            && are_met_by::<Narrow, LinkedWaiters<Narrow>>(alloc, steps)?,
    )
}
