//! The search for calls after which it has happened: over copies of the kernel, the shortest ways first.
use crate::finding::ends::last_calls;
use crate::finding::named::names_of;
use crate::finding::tries::add_ops;
use cap_core::{Cap, Profile};
use command_how_witness::{Asked, may_call};
use command_parts::rising;
use ipc_core::MakeWaiters;
use kernel_core::{Call, Kernel, Op, Reply, ThreadState};
use query_orders::words_of;
use query_reach::{FullSlot, full_slots};
use slot_core::{DerivationStore, MakeStore};
use std::alloc::{AllocError, Global};
use std::collections::{BTreeSet, VecDeque};

/// What a search comes to.
#[derive(Drop)]
pub enum Found {
    /// These calls.
    Calls(Vec<Call>),
    /// None: nothing more could be tried.
    None,
    /// None within the most copies.
    Limit,
}

/// Ways that are gone on from, the marks of the states that were seen, and how many copies were tried.
#[derive(Drop)]
struct Search {
    ways: VecDeque<Vec<Call>>,
    seen: BTreeSet<u64>,
    tried: u64,
    most: u64,
}

/// A mark of all that a kernel shows. Two states with one mark are taken for one.
fn mark_of<P: Profile, S: MakeStore<P> + DerivationStore<P>, W: MakeWaiters<P>>(
    alloc: Global,
    kernel: &Kernel<P, S, W>,
) -> Result<u64, AllocError> {
    let words = words_of(alloc, kernel)?;
    let mut mark: u64 = 14_695_981_039_346_656_037;
    for word in words.as_slice() {
        mark = (mark ^ *word)
            .wrapping_mul(1_099_511_628_211)
            .rotate_left(23);
    }
    Ok(mark)
}

fn filled_of<P: Profile, S: MakeStore<P> + DerivationStore<P>, W: MakeWaiters<P>>(
    alloc: Global,
    kernel: &Kernel<P, S, W>,
) -> Result<Vec<FullSlot>, AllocError> {
    let derivations = kernel.derivations(alloc)?;
    full_slots::<P>(alloc, derivations.as_slice())
}

/// The threads that have a control block, by rising addresses.
fn threads_of(alloc: Global, filled: &[FullSlot]) -> Result<Vec<u64>, AllocError> {
    let mut threads = Vec::new(alloc);
    for slot in filled {
        if let Cap::Tcb { base } = slot.cap {
            threads.push(base)?;
        }
    }
    rising(alloc, threads.as_slice())
}

/// What a thread is made to do, if it may call and is ready.
fn ops_of<P: Profile, S: MakeStore<P> + DerivationStore<P>, W: MakeWaiters<P>>(
    alloc: Global,
    kernel: &Kernel<P, S, W>,
    asked: &Asked<'_>,
    filled: &[FullSlot],
    thread: u64,
) -> Result<Vec<Op>, AllocError> {
    let mut ops = Vec::new(alloc);
    let is_ready = kernel.thread_state(thread) == Some(ThreadState::Ready);
    if is_ready && may_call(asked.memory, asked.without, thread) {
        let named = names_of::<P>(alloc, filled, thread, kernel.cap_at(thread))?;
        add_ops::<P, S, W>(&mut ops, kernel, asked.badge, &named)?;
    }
    Ok(ops)
}

/// Some calls with others after them.
fn joined(alloc: Global, first: &[Call], more: &[Call]) -> Result<Vec<Call>, AllocError> {
    let mut calls = Vec::from_slice(alloc, first)?;
    calls.extend_from_slice(more)?;
    Ok(calls)
}

impl Search {
    /// Tries one more call after a way: the calls that are looked for, if they are found; or the way is one to go on from.
    fn try_call<P: Profile, S: MakeStore<P> + DerivationStore<P>, W: MakeWaiters<P>>(
        &mut self,
        alloc: Global,
        asked: &Asked<'_>,
        at: &Kernel<P, S, W>,
        way: &[Call],
        call: Call,
    ) -> Result<Option<Vec<Call>>, AllocError> {
        self.tried = self.tried.saturating_add(1);
        let mut next = at.copy(alloc)?;
        if let Reply::Refused(_) = next.step(call) {
            return Ok(None);
        }
        let has_ended = next.thread_state(asked.from).is_none()
            || next.thread_state(asked.to).is_none();
        if has_ended || !self.seen.insert(mark_of::<P, S, W>(alloc, &next)?)? {
            return Ok(None);
        }
        let way = joined(alloc, way, &[call])?;
        let filled = filled_of::<P, S, W>(alloc, &next)?;
        if let Some(last) = last_calls::<P, S, W>(alloc, &next, asked, filled.as_slice())? {
            return Ok(Some(joined(alloc, way.as_slice(), last.as_slice())?));
        }
        self.ways.push_back(way)?;
        Ok(None)
    }

    /// Tries what a thread could do after a way, while copies are left.
    fn try_thread<P: Profile, S: MakeStore<P> + DerivationStore<P>, W: MakeWaiters<P>>(
        &mut self,
        alloc: Global,
        asked: &Asked<'_>,
        at: &Kernel<P, S, W>,
        way: &[Call],
        thread: u64,
        ops: &[Op],
    ) -> Result<Option<Vec<Call>>, AllocError> {
        for op in ops {
            if self.tried < self.most {
                let call = Call { thread, op: *op };
                let found = self.try_call::<P, S, W>(alloc, asked, at, way, call)?;
                if found.is_some() {
                    return Ok(found);
                }
            }
        }
        Ok(None)
    }

    /// Tries each call that goes on from a way.
    fn go_on<P: Profile, S: MakeStore<P> + DerivationStore<P>, W: MakeWaiters<P>>(
        &mut self,
        alloc: Global,
        asked: &Asked<'_>,
        kernel: &Kernel<P, S, W>,
        way: &[Call],
    ) -> Result<Option<Vec<Call>>, AllocError> {
        let mut at = kernel.copy(alloc)?;
        let mut replies = Vec::with_capacity(alloc, way.len())?;
        at.run(way, &mut replies);
        let filled = filled_of::<P, S, W>(alloc, &at)?;
        let threads = threads_of(alloc, filled.as_slice())?;
        for thread in threads.as_slice() {
            let ops = ops_of::<P, S, W>(alloc, &at, asked, filled.as_slice(), *thread)?;
            let ops = ops.as_slice();
            let found = self.try_thread::<P, S, W>(alloc, asked, &at, way, *thread, ops)?;
            if found.is_some() {
                return Ok(found);
            }
        }
        Ok(None)
    }
}

/// Calls of threads that may call, after which what is asked for has happened; by at most so many copies of the kernel.
pub fn find<P: Profile, S: MakeStore<P> + DerivationStore<P>, W: MakeWaiters<P>>(
    alloc: Global,
    kernel: &Kernel<P, S, W>,
    asked: &Asked<'_>,
    most: u64,
) -> Result<Found, AllocError> {
    let filled = filled_of::<P, S, W>(alloc, kernel)?;
    if let Some(calls) = last_calls::<P, S, W>(alloc, kernel, asked, filled.as_slice())? {
        return Ok(Found::Calls(calls));
    }
    let mut search = Search {
        ways: VecDeque::new(alloc),
        seen: BTreeSet::new(alloc),
        tried: 0,
        most,
    };
    search.seen.insert(mark_of::<P, S, W>(alloc, kernel)?)?;
    search.ways.push_back(Vec::new(alloc))?;
    for _ in 0..most {
        let Some(way) = search.ways.pop_front() else {
            return Ok(Found::None);
        };
        if let Some(calls) = search.go_on::<P, S, W>(alloc, asked, kernel, way.as_slice())? {
            return Ok(Found::Calls(calls));
        }
        if search.tried >= most {
            return Ok(Found::Limit);
        }
    }
    Ok(Found::Limit)
}
