//! What flows exclude between two threads.
ghost use Rattle.std.specs.Prelude.{◌≡◌, true, IfOk, IfSome};
ghost use Rattle.std.specs.List.{list_all};
ghost use Rattle.kernel_abstract.specs.Decode.{has_right as has_right_of};
ghost use Rattle.query_flow.specs.Listed as listed;
ghost use Rattle.query_flow.specs.Excluded.{PassesNoneEver, NamesNoneEver, ChangesNoneEver};
ghost use Rattle.query_flow.specs.Apart as spec;

use crate::listed::{
    Caller, Flows, MayStand, Standing, caller_of, covers, has_slots, is_flow, is_thread_settled,
    last_of, set_at,
};
use crate::search::bound_of;
use cap_core::{Cap, Profile, Range, Rights};
use ipc_core::Waiters;
use kernel_core::{Kernel, ThreadState};
use list_questions::{Finds, all_found};
use slot_core::DerivationStore;
use std::alloc::{AllocError, Global};

/// The most full slots of a kernel whose flows are looked for. The test of flows looks at each thread with each CNode, for each kind of
/// thread: those that name and fill the same sets are one kind.
const MOST_SLOTS: usize = 512;

/// Where endpoints lie that a thread may use: from an address to another.
#[derive(Clone, Copy)]
pub struct Spot {
    pub first: u64,
    pub last: u64,
}

/// Flows, with the threads that never make a call.
#[derive(Drop)]
pub struct Bound {
    pub flows: Flows,
    pub idle: Vec<u64>,
}

fn one_at(address: u64) -> Spot
    ensures { result ≡ spec.one_at address }
{
    Spot {
        first: address,
        last: address,
    }
}

fn set_of(flows: &Flows, thread: u64) -> u64
    ensures { result ≡ listed.set_at flows.now.memory.items thread }
{
    set_at(flows.memory.as_slice(), thread)
}

fn names_by(callers: &[Caller], set: u64) -> &[u64]
    ensures { result.now ≡ spec.names_by (listed.caller_of callers.entry.now set) }
{
    let Some(caller) = caller_of(callers, set) else {
        return &[];
    };
    caller.names.as_slice()
}

/// The sets in which the words of a thread may end.
fn names_in(flows: &Flows, thread: u64) -> &[u64]
    ensures { result.now ≡ spec.sets_named flows.entry.now thread }
{
    let set = set_of(flows, thread);
    names_by(flows.callers.as_slice(), set)
}

fn nodes_by(callers: &[Caller], set: u64) -> &[u64]
    ensures { result.now ≡ spec.nodes_by (listed.caller_of callers.entry.now set) }
{
    let Some(caller) = caller_of(callers, set) else {
        return &[];
    };
    caller.nodes.as_slice()
}

/// The sets in which the words of a thread may end at a CNode's capability.
fn nodes_in(flows: &Flows, thread: u64) -> &[u64]
    ensures { result.now ≡ spec.nodes_in flows.entry.now thread }
{
    let set = set_of(flows, thread);
    nodes_by(flows.callers.as_slice(), set)
}

fn has_right(right: Rights, rights: Rights) -> bool
    ensures { result ≡ has_right_of right.0 rights }
{
    rights.0 & right.0 == right.0
}

/// The endpoints that what stands lets a thread use with a right, but those that are named.
fn spot_of(right: Rights, by: &[u64], what: Standing) -> Option<Spot>
    ensures { result ≡ spec.spot_of right.0 by.now what }
{
    match what {
        Standing::Endpoint { base, rights, .. } => {
            if has_right(right, rights) && !by.contains(&base) {
                Some(one_at(base))
            } else {
                None
            }
        }
        Standing::Region { base, bits } => {
            let last = last_of(Range { first: base, bits })?;
            Some(Spot { first: base, last })
        }
        _ => None,
    }
}

/// The endpoints that what stands in some sets lets a thread use with a right, but those that are named.
#[derive(Clone, Copy)]
struct SpotsIn<'a> {
    right: Rights,
    by: &'a [u64],
    names: &'a [u64],
}

impl Finds<MayStand, Spot> for SpotsIn<'_> {
    ghost found = { λ q s. spec.spot_in q.right.0 q.by.now q.names.now s };

    fn find(&self, s: &MayStand) -> Option<Spot> {
        if self.names.contains(&s.set) {
            spot_of(self.right, self.by, s.what)
        } else {
            None
        }
    }
}

/// The place of an endpoint that is not named.
fn spot_at(by: &[u64], endpoint: u64) -> Option<Spot>
    ensures { result ≡ spec.spot_at by.now endpoint }
{
    if by.contains(&endpoint) {
        None
    } else {
        Some(one_at(endpoint))
    }
}

/// Where the thread sends that waits to send.
fn send_spot(by: &[u64], state: Option<ThreadState>) -> Option<Spot>
    ensures { result ≡ spec.send_spot by.now state }
{
    match state {
        Some(ThreadState::Sending(endpoint)) => spot_at(by, endpoint),
        _ => None,
    }
}

/// Where the thread receives that waits to receive.
fn receive_spot(by: &[u64], state: Option<ThreadState>) -> Option<Spot>
    ensures { result ≡ spec.receive_spot by.now state }
{
    match state {
        Some(ThreadState::Receiving(endpoint)) => spot_at(by, endpoint),
        _ => None,
    }
}

fn and_spot(spots: &mut Vec<Spot>, spot: Option<Spot>) -> Result<(), AllocError>
    ensures { IfOk result (λ _. spots.new.items ≡ spec.and_spot spots.old.items spot) }
{
    if let Some(spot) = spot {
        spots.push(spot)?;
    }
    Ok(())
}

/// Where a thread may send, but to the endpoints that are named.
fn sends_of<P: Profile, S: DerivationStore<P> + Drop, W: Waiters<P> + Drop>(
    alloc: Global,
    kernel: &Kernel<P, S, W>,
    names: &[u64],
    all: &[MayStand],
    by: &[u64],
    thread: u64,
) -> Result<Vec<Spot>, AllocError>
    ensures { IfOk result (λ spots. spots.items ≡ spec.send_spots names.now all.now kernel.now by.now thread) }
{
    let right = Rights::WRITE;
    let mut spots = all_found(alloc, all, &SpotsIn { right, by, names })?;
    and_spot(&mut spots, send_spot(by, kernel.thread_state(thread)))?;
    Ok(spots)
}

/// Where a thread may receive, but on the endpoints that are named.
fn receives_of<P: Profile, S: DerivationStore<P> + Drop, W: Waiters<P> + Drop>(
    alloc: Global,
    kernel: &Kernel<P, S, W>,
    names: &[u64],
    all: &[MayStand],
    by: &[u64],
    thread: u64,
) -> Result<Vec<Spot>, AllocError>
    ensures { IfOk result (λ spots. spots.items ≡ spec.receive_spots names.now all.now kernel.now by.now thread) }
{
    let right = Rights::READ;
    let mut spots = all_found(alloc, all, &SpotsIn { right, by, names })?;
    and_spot(&mut spots, receive_spot(by, kernel.thread_state(thread)))?;
    Ok(spots)
}

fn is_apart(spot: &Spot, other: &Spot) -> bool
    ensures { result ≡ spec.is_spot_apart spot.now other.now }
{
    spot.last < other.first || other.last < spot.first
}

fn is_apart_from_all(spot: &Spot, others: &[Spot]) -> bool
    ensures { result ≡ list_all (spec.is_spot_apart spot.now) others.now }
{
    for other in others {
        if !is_apart(spot, other) {
            return false;
        }
    }
    true
}

fn are_apart(spots: &[Spot], others: &[Spot]) -> bool
    ensures { result ≡ spec.are_spots_apart spots.now others.now }
{
    for spot in spots {
        if !is_apart_from_all(spot, others) {
            return false;
        }
    }
    true
}

/// Whether neither thread is trusted.
fn are_free(trusted: &[u64], from: u64, to: u64) -> bool
    ensures { result ≡ spec.are_free trusted.now from to }
{
    !(trusted.contains(&from) || trusted.contains(&to))
}

/// Whether nothing that the one may send to the other may receive on.
fn are_kept<P: Profile, S: DerivationStore<P> + Drop, W: Waiters<P> + Drop>(
    alloc: Global,
    kernel: &Kernel<P, S, W>,
    flows: &Flows,
    by: &[u64],
    from: u64,
    to: u64,
) -> Result<bool, AllocError>
    ensures { IfOk result (λ are. are ≡ spec.are_kept flows.now kernel.now by.now from to) }
{
    let (all, first, second) = (
        flows.standing.as_slice(),
        names_in(flows, from),
        names_in(flows, to),
    );
    let sends = sends_of::<P, S, W>(alloc, kernel, first, all, by, from)?;
    let receives = receives_of::<P, S, W>(alloc, kernel, second, all, by, to)?;
    Ok(are_apart(sends.as_slice(), receives.as_slice()))
}

pub fn names_no_thread<P: Profile>(names: &[u64], all: &[MayStand], to: u64) -> bool
    ensures { result ≡ spec.names_no_thread P.profile names.now all.now to }
{
    for s in all {
        if names.contains(&s.set) && covers::<P>(s.what, Cap::Tcb { base: to }) {
            return false;
        }
    }
    true
}

fn names_no_node(nodes: &[u64], all: &[MayStand]) -> bool
    ensures { result ≡ spec.names_no_node nodes.now all.now }
{
    for s in all {
        if nodes.contains(&s.set) && has_slots(s.what) {
            return false;
        }
    }
    true
}

/// Whether a thread's set is settled, and no word of it leads to another thread's control block.
fn holds_none<P: Profile>(flows: &Flows, from: u64, to: u64) -> bool
    ensures settled { result ≡ true → listed.is_set_settled P.profile flows.now.memory.items flows.now.standing.items (listed.caller_of flows.now.callers.items (listed.set_at flows.now.memory.items from)) ≡ true }
    ensures none { result ≡ true → spec.names_no_thread P.profile (spec.sets_named flows.now from) flows.now.standing.items to ≡ true }
{
    is_thread_settled::<P>(flows, from)
        && names_no_thread::<P>(names_in(flows, from), flows.standing.as_slice(), to)
}

/// Whether a thread's set is settled, and no word of it leads to a CNode's capability.
fn fills_none<P: Profile>(flows: &Flows, from: u64) -> bool
    ensures settled { result ≡ true → listed.is_set_settled P.profile flows.now.memory.items flows.now.standing.items (listed.caller_of flows.now.callers.items (listed.set_at flows.now.memory.items from)) ≡ true }
    ensures none { result ≡ true → spec.names_no_node (spec.nodes_in flows.now from) flows.now.standing.items ≡ true }
{
    is_thread_settled::<P>(flows, from)
        && names_no_node(nodes_in(flows, from), flows.standing.as_slice())
}

fn is_inactive(state: Option<ThreadState>) -> bool
    ensures { result ≡ spec.is_inactive state }
{
    matches!(state, Some(ThreadState::Inactive))
}

/// Whether no word of a thread that makes calls leads to a thread's control block.
fn none_names<P: Profile>(flows: &Flows, thread: u64) -> bool
    ensures { result ≡ spec.none_names P.profile flows.now thread }
{
    let (callers, all) = (flows.callers.as_slice(), flows.standing.as_slice());
    for caller in callers {
        if !names_no_thread::<P>(caller.names.as_slice(), all, thread) {
            return false;
        }
    }
    true
}

/// Whether a thread is suspended and nobody can resume it.
fn stays_idle<P: Profile, S: DerivationStore<P> + Drop, W: Waiters<P> + Drop>(
    kernel: &Kernel<P, S, W>,
    flows: &Flows,
    thread: u64,
) -> bool
    ensures { result ≡ spec.stays_idle P.profile flows.now kernel.now thread }
{
    is_inactive(kernel.thread_state(thread)) && none_names::<P>(flows, thread)
}

fn stay_idle<P: Profile, S: DerivationStore<P> + Drop, W: Waiters<P> + Drop>(
    kernel: &Kernel<P, S, W>,
    flows: &Flows,
    idle: &[u64],
) -> bool
    ensures { result ≡ spec.stay_idle P.profile flows.now kernel.now idle.now }
{
    for thread in idle {
        if !stays_idle::<P, S, W>(kernel, flows, *thread) {
            return false;
        }
    }
    true
}

fn is_one_of(trusted: &[u64], idle: &[u64], thread: u64) -> bool
    ensures { result ≡ spec.is_trusted_or_idle trusted.now idle.now thread }
{
    trusted.contains(&thread) || idle.contains(&thread)
}

/// Whether flows take no other threads for trusted than these and those that never make a call.
fn are_known(trusted: &[u64], bound: &Bound) -> bool
    ensures { result ≡ spec.trusts_none_else trusted.now bound.now }
{
    let (quiet, idle) = (bound.flows.trusted.as_slice(), bound.idle.as_slice());
    for thread in quiet {
        if !is_one_of(trusted, idle, *thread) {
            return false;
        }
    }
    true
}

/// The flows of a kernel with the threads that never make a call, but one, if those that are found pass the tests; none of one with
/// more than `MOST_SLOTS` full slots.
#[tactic(auto, using(crate::proofs::Ruled::is_tested))]
fn tested_flow<P: Profile, S: DerivationStore<P> + Drop, W: Waiters<P> + Drop>(
    alloc: Global,
    kernel: &Kernel<P, S, W>,
    trusted: &[u64],
    but: Option<u64>,
) -> Result<Option<Bound>, AllocError>
    ensures { IfOk result (λ found. IfSome found (spec.IsTested P.profile trusted.now kernel.now)) }
{
    if kernel.derivations(alloc)?.len() > MOST_SLOTS {
        return Ok(None);
    }
    let bound = bound_of::<P, S, W>(alloc, kernel, trusted, but)?;
    let is = is_flow::<P, S, W>(alloc, kernel, &bound.flows)?;
    if is
        && are_known(trusted, &bound)
        && stay_idle::<P, S, W>(kernel, &bound.flows, bound.idle.as_slice())
    {
        Ok(Some(bound))
    } else {
        Ok(None)
    }
}

fn is_idle(bound: &Bound, thread: u64) -> bool
    ensures { result ≡ listed.is_among bound.now.idle.items thread }
{
    bound.idle.as_slice().contains(&thread)
}

fn either_idle(bound: &Bound, from: u64, to: u64) -> bool
    ensures { result ≡ spec.either_idle bound.now.idle.items from to }
{
    is_idle(bound, from) || is_idle(bound, to)
}

/// Whether one of both threads never makes a call; or neither is trusted, and nothing that the one may send to the other may receive on.
fn are_silent<P: Profile, S: DerivationStore<P> + Drop, W: Waiters<P> + Drop>(
    alloc: Global,
    kernel: &Kernel<P, S, W>,
    trusted: &[u64],
    bound: &Bound,
    by: &[u64],
    from: u64,
    to: u64,
) -> Result<bool, AllocError>
    ensures { IfOk result (λ are. are ≡ spec.are_silent trusted.now bound.now kernel.now by.now from to) }
{
    let kept = are_kept::<P, S, W>(alloc, kernel, &bound.flows, by, from, to)?;
    Ok(either_idle(bound, from, to) || are_free(trusted, from, to) && kept)
}

/// Whether flows exclude that a message of the thread `from` is ever delivered to the thread `to`, but by the endpoints that are named:
/// whatever calls threads make that are not trusted, and whatever the trusted ones send and receive.
#[tactic(auto, using(crate::proofs::Ruled::none_passed))]
pub fn passes_none<P: Profile, S: DerivationStore<P> + Drop, W: Waiters<P> + Drop>(
    alloc: Global,
    kernel: &Kernel<P, S, W>,
    trusted: &[u64],
    by: &[u64],
    from: u64,
    to: u64,
) -> Result<bool, AllocError>
    ensures { IfOk result (λ is. is ≡ true → PassesNoneEver P.profile trusted.now kernel.now by.now from to) }
{
    match tested_flow::<P, S, W>(alloc, kernel, trusted, None)? {
        None => Ok(false),
        Some(bound) => are_silent::<P, S, W>(alloc, kernel, trusted, &bound, by, from, to),
    }
}

/// Whether flows exclude both: that a message of the thread `from` is ever delivered to the thread `to`, but by the endpoints that are
/// named, and that a word of the thread `from` ever leads to a capability to the control block of the thread `to`.
#[tactic(auto, using(crate::proofs::Ruled::none_passed, crate::proofs::Ruled::none_named))]
pub fn keeps_apart<P: Profile, S: DerivationStore<P> + Drop, W: Waiters<P> + Drop>(
    alloc: Global,
    kernel: &Kernel<P, S, W>,
    trusted: &[u64],
    by: &[u64],
    from: u64,
    to: u64,
) -> Result<bool, AllocError>
    ensures passes { IfOk result (λ is. is ≡ true → PassesNoneEver P.profile trusted.now kernel.now by.now from to) }
    ensures names { IfOk result (λ is. is ≡ true → NamesNoneEver P.profile trusted.now kernel.now from to) }
{
    match tested_flow::<P, S, W>(alloc, kernel, trusted, Some(from))? {
        None => Ok(false),
        Some(bound) => {
            let are = are_silent::<P, S, W>(alloc, kernel, trusted, &bound, by, from, to)?;
            Ok(are && holds_none::<P>(&bound.flows, from, to))
        }
    }
}

/// Whether flows exclude that a word of the thread `from` ever leads to a capability to the control block of the thread `to`.
#[tactic(auto, using(crate::proofs::Ruled::none_named))]
pub fn names_none<P: Profile, S: DerivationStore<P> + Drop, W: Waiters<P> + Drop>(
    alloc: Global,
    kernel: &Kernel<P, S, W>,
    trusted: &[u64],
    from: u64,
    to: u64,
) -> Result<bool, AllocError>
    ensures { IfOk result (λ is. is ≡ true → NamesNoneEver P.profile trusted.now kernel.now from to) }
{
    match tested_flow::<P, S, W>(alloc, kernel, trusted, Some(from))? {
        None => Ok(false),
        Some(bound) => Ok(holds_none::<P>(&bound.flows, from, to)),
    }
}

/// Whether flows exclude that a call of the thread `from` ever changes a slot: it never has a word for a CNode.
pub fn changes_none<P: Profile, S: DerivationStore<P> + Drop, W: Waiters<P> + Drop>(
    alloc: Global,
    kernel: &Kernel<P, S, W>,
    trusted: &[u64],
    from: u64,
) -> Result<bool, AllocError>
    ensures { IfOk result (λ is. is ≡ true → ChangesNoneEver P.profile trusted.now kernel.now from) }
{
    match tested_flow::<P, S, W>(alloc, kernel, trusted, None)? {
        None => Ok(false),
        Some(bound) => {
            if is_idle(&bound, from) {
                return Ok(true);
            }
            Ok(fills_none::<P>(&bound.flows, from))
        }
    }
}
