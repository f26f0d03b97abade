//! What calls touch.
ghost use Rattle.std.specs.Prelude.{◌≡◌, ◌≤◌, ◌++◌, min, IfOk, OnOk, Some};
ghost use Rattle.cap_core.specs.Numbers.{word_bits};
ghost use Rattle.kernel_abstract.specs.declared.reason.Word.TheVariants.{Invoked};
ghost use Rattle.kernel_abstract.specs.Decode.{service_word as service_word_of};
ghost use Rattle.kernel_abstract.specs.Lookups.{slot_by_word};
ghost use Rattle.kernel_abstract.specs.Shown.{tcb_base, endpoint_base};
ghost use Rattle.query_orders.specs.Groups.{keeps_capabilities as op_keeps_capabilities, suspends_or_resumes as op_suspends_or_resumes, thread_found, object_in, object_of as object_of_thread, endpoint_invoked as endpoint_invoked_by, thread_invoked as thread_invoked_by, held_at_end as held_at_end_of, endpoint_by_index as endpoint_by_index_of, endpoint_cancelled as endpoint_cancelled_by, objects_of_call, is_same_object as are_same};
ghost use Rattle.query_orders.specs.Private.Ways.{base_behind};

use cap_core::{Cap, Profile};
use ipc_core::Waiters;
use kernel_core::{Call, Held, Kernel, Op, ThreadState};
use slot_core::CapStore;
use std::alloc::{AllocError, Global};

/// A thread or an endpoint that a call touches, by its address.
#[derive(Clone, Copy, Drop)]
pub enum CallObject {
    Thread(u64),
    Endpoint(u64),
}

/// Whether two calls touch one object by these.
pub fn same_object(a: CallObject, b: CallObject) -> bool
    ensures { result ≡ are_same a b }
{
    match (a, b) {
        (CallObject::Thread(a), CallObject::Thread(b)) => a == b,
        (CallObject::Endpoint(a), CallObject::Endpoint(b)) => a == b,
        (CallObject::Thread(_), CallObject::Endpoint(_))
        | (CallObject::Endpoint(_), CallObject::Thread(_)) => false,
    }
}

/// Whether an operation changes no capability: it sends or receives, suspends or resumes a thread, or cancels sends.
pub fn keeps_capabilities(op: &Op) -> bool
    ensures { result ≡ op_keeps_capabilities op.now }
{
    match *op {
        Op::Send { .. }
        | Op::NbSend { .. }
        | Op::Recv { .. }
        | Op::NbRecv { .. }
        | Op::Suspend { .. }
        | Op::Resume { .. }
        | Op::CancelBadged { .. } => true,
        _ => false,
    }
}

/// Whether an operation suspends or resumes a thread.
fn suspends_or_resumes(op: &Op) -> bool
    ensures { result ≡ op_suspends_or_resumes op.now }
{
    match *op {
        Op::Suspend { .. } | Op::Resume { .. } => true,
        _ => false,
    }
}

/// The word by which an operation names the capability that it invokes.
fn service_word(op: &Op) -> u64
    ensures { result ≡ service_word_of op.now }
{
    match *op {
        Op::Retype { cap, .. }
        | Op::CapCopy { cap, .. }
        | Op::CapMint { cap, .. }
        | Op::CapMove { cap, .. }
        | Op::CapMutate { cap, .. }
        | Op::CapDelete { cap, .. }
        | Op::CapRevoke { cap, .. }
        | Op::CancelBadged { cap, .. }
        | Op::Send { cap, .. }
        | Op::NbSend { cap, .. }
        | Op::Recv { cap }
        | Op::NbRecv { cap }
        | Op::SetSpace { cap, .. }
        | Op::Suspend { cap }
        | Op::Resume { cap } => cap,
    }
}

/// The endpoint of a capability, where it is an endpoint's.
fn endpoint_of(cap: Cap) -> Option<u64>
    ensures { result ≡ endpoint_base cap }
{
    match cap {
        Cap::Endpoint { base, .. } => Some(base),
        _ => None,
    }
}

/// The endpoint at the end of a way, where that is behind its root. A lookup that fails ends at a CNode, or at its root.
fn endpoint_at_end(way: &[Held]) -> Option<u64>
    ensures { result ≡ base_behind endpoint_base way.now }
{
    let (_, rest) = way.split_first()?;
    endpoint_of(rest.last()?.cap)
}

/// The thread of a capability, where it is a thread's.
fn thread_of(cap: Cap) -> Option<u64>
    ensures { result ≡ tcb_base cap }
{
    match cap {
        Cap::Tcb { base } => Some(base),
        _ => None,
    }
}

/// The thread at the end of a way, where that is behind its root.
fn thread_at_end(way: &[Held]) -> Option<u64>
    ensures { result ≡ base_behind tcb_base way.now }
{
    let (_, rest) = way.split_first()?;
    thread_of(rest.last()?.cap)
}

/// The endpoint that a call invokes, where its word leads to one.
fn endpoint_invoked<P: Profile, S: CapStore<P> + Drop, W: Waiters<P> + Drop>(
    alloc: Global,
    kernel: &Kernel<P, S, W>,
    call: &Call,
) -> Result<Option<u64>, AllocError>
    ensures { IfOk result (λ endpoint. endpoint ≡ endpoint_invoked_by P.profile kernel.now.derivations call.now) }
{
    let word = service_word(&call.op);
    let way = kernel.lookup_path(alloc, call.thread, word, P::WORD_BITS)?;
    Ok(endpoint_at_end(way.as_slice()))
}

/// The slot at which the lookup of an address's low bits ends, or fails, with what is in it.
fn held_at_end<P: Profile, S: CapStore<P> + Drop, W: Waiters<P> + Drop>(
    alloc: Global,
    kernel: &Kernel<P, S, W>,
    slot: u64,
    address: u64,
    bits: u32,
) -> Result<Option<Held>, AllocError>
    requires { bits ≤ word_bits P.profile }
    ensures { IfOk result (λ held. held ≡ Some (held_at_end_of P.profile kernel.now.derivations slot address bits)) }
{
    let way = kernel.lookup_path(alloc, slot, address, bits)?;
    Ok(way.as_slice().last().copied())
}

/// How many bits of an index a depth names: no more than a word has.
fn bits_named<P: Profile>(depth: u64) -> u32
    ensures value { result ≡ min depth (word_bits P.profile) }
    ensures most { result ≤ word_bits P.profile }
{
    depth.min(P::WORD_BITS as u64) as u32
}

/// The endpoint in the slot that an index and a depth name from the CNode to which a thread's word leads.
fn endpoint_by_index<P: Profile, S: CapStore<P> + Drop, W: Waiters<P> + Drop>(
    alloc: Global,
    kernel: &Kernel<P, S, W>,
    thread: u64,
    word: u64,
    index: u64,
    depth: u64,
) -> Result<Option<u64>, AllocError>
    ensures { IfOk result (λ endpoint. endpoint ≡ endpoint_by_index_of P.profile kernel.now.derivations thread word index depth) }
{
    let Some(node) = held_at_end(alloc, kernel, thread, word, P::WORD_BITS)? else {
        return Ok(None);
    };
    let bits = bits_named::<P>(depth);
    let Some(held) = held_at_end(alloc, kernel, node.slot, index, bits)? else {
        return Ok(None);
    };
    Ok(endpoint_of(held.cap))
}

/// The endpoint on which a call cancels sends, where its words lead to one.
fn endpoint_cancelled<P: Profile, S: CapStore<P> + Drop, W: Waiters<P> + Drop>(
    alloc: Global,
    kernel: &Kernel<P, S, W>,
    call: &Call,
) -> Result<Option<u64>, AllocError>
    ensures { IfOk result (λ endpoint. endpoint ≡ endpoint_cancelled_by P.profile kernel.now.derivations call.now.thread call.now.op) }
{
    match call.op {
        Op::CancelBadged { cap, index, depth } => endpoint_by_index(
            alloc,
            kernel,
            call.thread,
            cap,
            index,
            depth,
        ),
        _ => Ok(None),
    }
}

/// The thread to which the word of a call leads, where it leads to one.
fn thread_at_word<P: Profile, S: CapStore<P> + Drop, W: Waiters<P> + Drop>(
    alloc: Global,
    kernel: &Kernel<P, S, W>,
    call: &Call,
) -> Result<Option<u64>, AllocError>
    ensures { IfOk result (λ thread. thread ≡ thread_found kernel.now.derivations (slot_by_word P.profile kernel.now.derivations Invoked call.now.thread (service_word_of call.now.op))) }
{
    let word = service_word(&call.op);
    let way = kernel.lookup_path(alloc, call.thread, word, P::WORD_BITS)?;
    Ok(thread_at_end(way.as_slice()))
}

/// The thread that a call suspends or resumes, where its word leads to one.
fn thread_invoked<P: Profile, S: CapStore<P> + Drop, W: Waiters<P> + Drop>(
    alloc: Global,
    kernel: &Kernel<P, S, W>,
    call: &Call,
) -> Result<Option<u64>, AllocError>
    ensures { IfOk result (λ thread. thread ≡ thread_invoked_by P.profile kernel.now.derivations call.now) }
{
    if suspends_or_resumes(&call.op) {
        thread_at_word(alloc, kernel, call)
    } else {
        Ok(None)
    }
}

/// What a thread in a state stands for: the endpoint at which it waits, or the thread.
fn object_by(state: Option<ThreadState>, thread: u64) -> CallObject
    ensures { result ≡ object_in state thread }
{
    match state {
        Some(ThreadState::Sending(endpoint)) | Some(ThreadState::Receiving(endpoint)) =>
            CallObject::Endpoint(endpoint),
        Some(ThreadState::Ready) | Some(ThreadState::Inactive) | None => CallObject::Thread(thread),
    }
}

/// What a thread stands for.
pub fn object_of<P: Profile, S: CapStore<P> + Drop, W: Waiters<P> + Drop>(
    kernel: &Kernel<P, S, W>,
    thread: u64,
) -> CallObject
    ensures { result ≡ object_of_thread kernel.now thread }
{
    object_by(kernel.thread_state(thread), thread)
}

/// Notes what a call touches.
pub fn note_call_objects<P: Profile, S: CapStore<P> + Drop, W: Waiters<P> + Drop>(
    alloc: Global,
    kernel: &Kernel<P, S, W>,
    call: &Call,
    objects: &mut Vec<CallObject>,
) -> Result<(), AllocError>
    ensures { OnOk result (objects.new.items ≡ objects.old.items ++ objects_of_call P.profile kernel.now call.now) }
{
    objects.push(object_of(kernel, call.thread))?;
    if let Some(endpoint) = endpoint_invoked(alloc, kernel, call)? {
        objects.push(CallObject::Endpoint(endpoint))?;
    }
    if let Some(endpoint) = endpoint_cancelled(alloc, kernel, call)? {
        objects.push(CallObject::Endpoint(endpoint))?;
    }
    if let Some(thread) = thread_invoked(alloc, kernel, call)? {
        objects.push(object_of(kernel, thread))?;
    }
    Ok(())
}
