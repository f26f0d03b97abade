//! The last calls: those that are the message, the hold or the loss that is asked for, or show it.
use crate::finding::named::{Named, Word, names_of};
use crate::finding::tries::no_message;
use cap_core::{Badge, Cap, Profile, Rights};
use command_how_witness::{Asked, Happening, is_message, may_call};
use command_parts::{is_in, rising};
use ipc_core::MakeWaiters;
use kernel_core::{Call, Kernel, Op, Reply, ThreadState};
use query_reach::FullSlot;
use slot_core::{DerivationStore, MakeStore};
use std::alloc::{AllocError, Global};

/// How many calls are made for one message at the most: those who wait on its endpoint are served first.
const MOST_CALLS: u64 = 256;

fn is_ready<P: Profile, S: MakeStore<P> + DerivationStore<P>, W: MakeWaiters<P>>(
    kernel: &Kernel<P, S, W>,
    thread: u64,
) -> bool {
    kernel.thread_state(thread) == Some(ThreadState::Ready)
}

/// The first word that leads to a capability to an endpoint with a right, and with the badge, if one is given.
fn word_to(words: &[Word], endpoint: u64, right: Rights, badge: Option<u64>) -> Option<u64> {
    for word in words {
        if let Cap::Endpoint {
            base,
            badge: Badge(had),
            rights,
        } = word.cap
            && base == endpoint
            && rights.0 & right.0 == right.0
            && had == badge.unwrap_or(had)
        {
            return Some(word.word);
        }
    }
    None
}

/// An endpoint, with the words by which the one thread may send to it and the other receive on it.
#[derive(Clone, Copy)]
struct Meeting {
    endpoint: u64,
    sends: Option<u64>,
    receives: Option<u64>,
}

/// The next call for a message by an endpoint: a send, if others wait there already or the other thread waits there; else a
/// receive.
fn next_call<P: Profile, S: MakeStore<P> + DerivationStore<P>, W: MakeWaiters<P>>(
    kernel: &Kernel<P, S, W>,
    asked: &Asked<'_>,
    meeting: &Meeting,
) -> Option<Call> {
    let (from, to, endpoint) = (asked.from, asked.to, meeting.endpoint);
    let sends = if is_ready::<P, S, W>(kernel, from) {
        meeting.sends
    } else {
        None
    };
    let receives = if is_ready::<P, S, W>(kernel, to) {
        meeting.receives
    } else {
        None
    };
    let is_sent = kernel.thread_state(from) == Some(ThreadState::Sending(endpoint));
    let is_awaited = kernel.thread_state(to) == Some(ThreadState::Receiving(endpoint));
    let message = no_message();
    let is_waited_on = kernel.waiting(endpoint, 0).is_some();
    match (sends, receives) {
        (Some(cap), other) if is_awaited || other.is_some() && is_waited_on => Some(Call {
            thread: from,
            op: Op::Send { cap, message },
        }),
        (other, Some(cap)) if is_sent || other.is_some() => Some(Call {
            thread: to,
            op: Op::Recv { cap },
        }),
        _ => None,
    }
}

/// The calls for a message by an endpoint, if they come to be one.
fn message_by<P: Profile, S: MakeStore<P> + DerivationStore<P>, W: MakeWaiters<P>>(
    alloc: Global,
    kernel: &Kernel<P, S, W>,
    asked: &Asked<'_>,
    meeting: &Meeting,
) -> Result<Option<Vec<Call>>, AllocError> {
    let mut at = kernel.copy(alloc)?;
    let mut calls = Vec::new(alloc);
    for _ in 0..MOST_CALLS {
        let Some(call) = next_call::<P, S, W>(&at, asked, meeting) else {
            return Ok(None);
        };
        calls.push(call)?;
        if is_message(asked, at.step(call)) {
            return Ok(Some(calls));
        }
    }
    Ok(None)
}

/// The endpoints to which there are capabilities, rising.
fn endpoints(alloc: Global, filled: &[FullSlot]) -> Result<Vec<u64>, AllocError> {
    let mut named = Vec::new(alloc);
    for slot in filled {
        if let Cap::Endpoint { base, .. } = slot.cap {
            named.push(base)?;
        }
    }
    rising(alloc, named.as_slice())
}

fn message_end<P: Profile, S: MakeStore<P> + DerivationStore<P>, W: MakeWaiters<P>>(
    alloc: Global,
    kernel: &Kernel<P, S, W>,
    asked: &Asked<'_>,
    filled: &[FullSlot],
    from: &Named,
    to: &Named,
) -> Result<Option<Vec<Call>>, AllocError> {
    let (sender, receiver) = (from.words.as_slice(), to.words.as_slice());
    let endpoints = endpoints(alloc, filled)?;
    for endpoint in endpoints.as_slice() {
        let meeting = Meeting {
            endpoint: *endpoint,
            sends: word_to(sender, *endpoint, Rights::WRITE, asked.badge),
            receives: word_to(receiver, *endpoint, Rights::READ, None),
        };
        if !is_in(asked.by, *endpoint) {
            let calls = message_by::<P, S, W>(alloc, kernel, asked, &meeting)?;
            if calls.is_some() {
                return Ok(calls);
            }
        }
    }
    Ok(None)
}

/// The first word that leads to a thread's control block.
fn word_of_thread(words: &[Word], thread: u64) -> Option<u64> {
    for word in words {
        if word.cap == (Cap::Tcb { base: thread }) {
            return Some(word.word);
        }
    }
    None
}

/// The stop or the start of the other thread by the first word for it, and the call that shows that it is stopped or started.
fn hold_end<P: Profile, S: MakeStore<P> + DerivationStore<P>, W: MakeWaiters<P>>(
    alloc: Global,
    kernel: &Kernel<P, S, W>,
    asked: &Asked<'_>,
    from: &Named,
) -> Result<Option<Vec<Call>>, AllocError> {
    let Some(cap) = word_of_thread(from.words.as_slice(), asked.to) else {
        return Ok(None);
    };
    if !is_ready::<P, S, W>(kernel, asked.from) {
        return Ok(None);
    }
    let thread = asked.from;
    let op = if is_ready::<P, S, W>(kernel, asked.to) {
        Op::Suspend { cap }
    } else {
        Op::Resume { cap }
    };
    let shows = Call {
        thread: asked.to,
        op: Op::NbRecv { cap: 0 },
    };
    let calls = Vec::from_slice(alloc, &[Call { thread, op }, shows])?;
    Ok(Some(calls))
}

/// The call by which a word shows what it leads to: an operation that the capability does not have.
fn probe(thread: u64, word: &Word) -> Call {
    let cap = word.word;
    let op = match word.cap {
        Cap::Tcb { .. } => Op::Send {
            cap,
            message: no_message(),
        },
        _ => Op::Suspend { cap },
    };
    Call { thread, op }
}

/// The last calls of a loss, if an operation of the one thread empties a slot to which a word of the other leads, or ends it.
fn loss_by<P: Profile, S: MakeStore<P> + DerivationStore<P>, W: MakeWaiters<P>>(
    alloc: Global,
    kernel: &Kernel<P, S, W>,
    to: &Named,
    takes: Call,
) -> Result<Option<Vec<Call>>, AllocError> {
    let mut after = kernel.copy(alloc)?;
    if after.step(takes) != Reply::Done {
        return Ok(None);
    }
    let has_ended = after.thread_state(to.thread).is_none();
    for word in to.words.as_slice() {
        if has_ended || after.cap_at(word.slot) == Cap::Null {
            let shows = probe(to.thread, word);
            let calls = Vec::from_slice(alloc, &[shows, takes, shows])?;
            return Ok(Some(calls));
        }
    }
    Ok(None)
}

fn loss_end<P: Profile, S: MakeStore<P> + DerivationStore<P>, W: MakeWaiters<P>>(
    alloc: Global,
    kernel: &Kernel<P, S, W>,
    from: &Named,
    to: &Named,
) -> Result<Option<Vec<Call>>, AllocError> {
    let thread = from.thread;
    if !is_ready::<P, S, W>(kernel, thread) || !is_ready::<P, S, W>(kernel, to.thread) {
        return Ok(None);
    }
    for target in from.targets.as_slice() {
        let (cap, index, depth) = (target.word, target.index, target.depth);
        let op = Op::CapDelete { cap, index, depth };
        let deleted = loss_by::<P, S, W>(alloc, kernel, to, Call { thread, op })?;
        if deleted.is_some() {
            return Ok(deleted);
        }
        let op = Op::CapRevoke { cap, index, depth };
        let revoked = loss_by::<P, S, W>(alloc, kernel, to, Call { thread, op })?;
        if revoked.is_some() {
            return Ok(revoked);
        }
    }
    Ok(None)
}

/// The root capability of a thread that may call; `Null` of another one.
fn root_of<P: Profile, S: MakeStore<P> + DerivationStore<P>, W: MakeWaiters<P>>(
    kernel: &Kernel<P, S, W>,
    asked: &Asked<'_>,
    thread: u64,
) -> Cap {
    if may_call(asked.memory, asked.without, thread) {
        kernel.cap_at(thread)
    } else {
        Cap::Null
    }
}

/// The last calls from a state, if there are some. `filled` has all full slots, by rising addresses.
pub fn last_calls<P: Profile, S: MakeStore<P> + DerivationStore<P>, W: MakeWaiters<P>>(
    alloc: Global,
    kernel: &Kernel<P, S, W>,
    asked: &Asked<'_>,
    filled: &[FullSlot],
) -> Result<Option<Vec<Call>>, AllocError> {
    let root = root_of::<P, S, W>(kernel, asked, asked.from);
    let from = names_of::<P>(alloc, filled, asked.from, root)?;
    let root = match asked.what {
        Happening::Message => root_of::<P, S, W>(kernel, asked, asked.to),
        _ => kernel.cap_at(asked.to),
    };
    let to = names_of::<P>(alloc, filled, asked.to, root)?;
    match asked.what {
        Happening::Message => message_end::<P, S, W>(alloc, kernel, asked, filled, &from, &to),
        Happening::Hold => hold_end::<P, S, W>(alloc, kernel, asked, &from),
        Happening::Loss => loss_end::<P, S, W>(alloc, kernel, &from, &to),
    }
}
