//! The test of calls: whether they show what is asked for.
ghost use Rattle.std.specs.Prelude.{◌≡◌, ◌++◌, ◌∷◌, ℕ, true, IfOk, [], IfSome};
ghost use Rattle.std.specs.List.{list_all, list_any};
ghost use Rattle.kernel_abstract.specs.Memory.{IsInMemory};
ghost use Rattle.kernel_abstract.specs.Reached.{IsReached};
ghost use Rattle.kernel_abstract.specs.State.{State, shown};
ghost use Rattle.kernel_abstract.specs.Step.{replies_of, state_after, step};
ghost use Rattle.cap_core.specs.Objects.{is_null as is_null_cap};
ghost use Rattle.query_reach.specs.Lists.{AreReached};
ghost use Rattle.query_reach.specs.declared.reached.Reached.{Reached as ReachedOf};
ghost use Rattle.command_how_witness.specs.Private as private;
ghost use Rattle.command_how_witness.specs.Witness as spec;

use crate::asked::{Asked, Happening};
use crate::callers::may_call;
use cap_core::{Cap, Profile};
use command_parts::is_in;
use ipc_core::MakeWaiters;
use kernel_core::{Call, Kernel, Op, Reply};
use query_reach::{Reached, kernel_slots, reached_slots};
use slot_core::{DerivationStore, MakeStore};
use std::alloc::{AllocError, Global};

fn is_caller(asked: &Asked<'_>, call: &Call) -> bool
    ensures { result ≡ spec.is_caller (spec.asking_of asked.now) call.now }
{
    may_call(asked.memory, asked.without, call.thread)
}

fn are_callers(asked: &Asked<'_>, calls: &[Call]) -> bool
    ensures { result ≡ list_all (spec.is_caller (spec.asking_of asked.now)) calls.now }
{
    for call in calls {
        if !is_caller(asked, call) {
            return false;
        }
    }
    true
}

/// Some calls without the last one, and that one.
fn split_one(calls: &[Call]) -> Option<(&[Call], Call)>
    ensures { IfSome result (λ r. calls.now ≡ r.0.now ++ r.1 ∷ []) }
{
    let (last, rest) = calls.split_last()?;
    Some((rest, *last))
}

/// Some calls without the last two, and these.
fn split_two(calls: &[Call]) -> Option<(&[Call], Call, Call)>
    ensures { IfSome result (λ r. calls.now ≡ r.0.now ++ r.1 ∷ r.2 ∷ []) }
{
    let (most, last) = split_one(calls)?;
    let (rest, call) = split_one(most)?;
    Some((rest, call, last))
}

/// The kernel after some calls, and their replies; the one that it is of stays.
fn behind<P: Profile, S: MakeStore<P>, W: MakeWaiters<P>>(
    alloc: Global,
    kernel: &Kernel<P, S, W>,
    calls: &[Call],
) -> Result<(Kernel<P, S, W>, Vec<Reply>), AllocError>
    requires { (memory : ℕ) × IsInMemory P.profile memory kernel.now }
    ensures within { IfOk result (λ r. (memory : ℕ) × IsInMemory P.profile memory r.0) }
    ensures shows { IfOk result (λ r. (A : State) → IsReached P.profile A → kernel.now ≡ shown A → r.0 ≡ shown (state_after P.profile A calls.now)) }
    ensures replies { IfOk result (λ r. (A : State) → IsReached P.profile A → kernel.now ≡ shown A → r.1.items ≡ replies_of P.profile A calls.now) }
{
    let mut at = kernel.copy(alloc)?;
    let mut replies = Vec::with_capacity(alloc, calls.len())?;
    at.run(calls, &mut replies);
    Ok((at, replies))
}

/// Whether both threads are live.
fn are_live<P: Profile, S: MakeStore<P>, W: MakeWaiters<P>>(
    kernel: &Kernel<P, S, W>,
    asked: &Asked<'_>,
) -> bool
    ensures { result ≡ spec.are_both_live (spec.asking_of asked.now) kernel.now }
{
    kernel.thread_state(asked.from).is_some() && kernel.thread_state(asked.to).is_some()
}

/// Whether both threads are live after each of some calls.
fn stay_live<P: Profile, S: MakeStore<P>, W: MakeWaiters<P>>(
    alloc: Global,
    kernel: &Kernel<P, S, W>,
    asked: &Asked<'_>,
    calls: &[Call],
) -> Result<bool, AllocError>
    requires { (memory : ℕ) × IsInMemory P.profile memory kernel.now }
    ensures { IfOk result (λ is. is ≡ true → (A : State) → IsReached P.profile A → kernel.now ≡ shown A → spec.StayLive P.profile (spec.asking_of asked.now) A calls.now) }
{
    for n in 0..calls.len() + 1 {
        let (at, _) = behind::<P, S, W>(alloc, kernel, &calls[..n])?;
        if !are_live::<P, S, W>(&at, asked) {
            return Ok(false);
        }
    }
    Ok(true)
}

fn is_badge(wanted: Option<u64>, badge: u64) -> bool
    ensures { result ≡ spec.is_badge wanted badge }
{
    match wanted {
        None => true,
        Some(wanted) => badge == wanted,
    }
}

/// Whether a reply shows the message that is asked for.
pub fn is_message(asked: &Asked<'_>, reply: Reply) -> bool
    ensures { result ≡ spec.is_message (spec.asking_of asked.now) reply }
{
    match reply {
        Reply::Delivered {
            endpoint,
            from,
            to,
            badge,
            ..
        } => {
            from == asked.from
                && to == asked.to
                && !is_in(asked.by, endpoint)
                && is_badge(asked.badge, badge.0)
        }
        _ => false,
    }
}

fn ends_in_message(asked: &Asked<'_>, replies: &[Reply]) -> bool
    ensures { result ≡ spec.ends_in_message (spec.asking_of asked.now) replies.now }
{
    match replies.last() {
        None => false,
        Some(reply) => is_message(asked, *reply),
    }
}

fn is_message_shown<P: Profile, S: MakeStore<P>, W: MakeWaiters<P>>(
    alloc: Global,
    kernel: &Kernel<P, S, W>,
    asked: &Asked<'_>,
    calls: &[Call],
) -> Result<bool, AllocError>
    requires { (memory : ℕ) × IsInMemory P.profile memory kernel.now }
    ensures { IfOk result (λ is. is ≡ true → (A : State) → IsReached P.profile A → kernel.now ≡ shown A → spec.ShowsMessage P.profile (spec.asking_of asked.now) A calls.now) }
{
    if !are_callers(asked, calls) || !stay_live::<P, S, W>(alloc, kernel, asked, calls)? {
        return Ok(false);
    }
    let (_, replies) = behind::<P, S, W>(alloc, kernel, calls)?;
    Ok(ends_in_message(asked, replies.as_slice()))
}

/// The word of the thread that an operation stops or starts.
fn held_word(op: Op) -> Option<u64>
    ensures { result ≡ spec.held_word op }
{
    match op {
        Op::Suspend { cap } | Op::Resume { cap } => Some(cap),
        _ => None,
    }
}

/// The full slots that the words of a thread lead to.
fn reached<P: Profile, S: MakeStore<P> + DerivationStore<P>, W: MakeWaiters<P>>(
    alloc: Global,
    kernel: &Kernel<P, S, W>,
    thread: u64,
) -> Result<Vec<Reached>, AllocError>
    requires { (memory : ℕ) × IsInMemory P.profile memory kernel.now }
    ensures { IfOk result (λ list. AreReached P.profile kernel.now.derivations thread list.items) }
{
    let filled = kernel_slots(alloc, kernel)?;
    reached_slots::<P>(alloc, filled.as_slice(), thread)
}

fn is_thread(cap: Cap, thread: u64) -> bool
    ensures { result ≡ private.is_control_block_of cap thread }
{
    match cap {
        Cap::Tcb { base } => base == thread,
        _ => false,
    }
}

/// Whether a slot is reached by a word, and holds a capability to a thread's control block.
fn is_held<P: Profile, S: MakeStore<P> + DerivationStore<P>, W: MakeWaiters<P>>(
    kernel: &Kernel<P, S, W>,
    word: u64,
    thread: u64,
    reached: &Reached,
) -> bool
    ensures { result ≡ private.is_held kernel.now.derivations word thread reached.now }
{
    reached.word == word && is_thread(kernel.cap_at(reached.slot), thread)
}

fn is_one_held<P: Profile, S: MakeStore<P> + DerivationStore<P>, W: MakeWaiters<P>>(
    kernel: &Kernel<P, S, W>,
    word: u64,
    thread: u64,
    list: &[Reached],
) -> bool
    ensures { result ≡ list_any (private.is_held kernel.now.derivations word thread) list.now }
{
    for one in list {
        if is_held::<P, S, W>(kernel, word, thread, one) {
            return true;
        }
    }
    false
}

/// Whether a word of the one thread leads to the other's control block.
fn holds<P: Profile, S: MakeStore<P> + DerivationStore<P>, W: MakeWaiters<P>>(
    alloc: Global,
    kernel: &Kernel<P, S, W>,
    asked: &Asked<'_>,
    word: u64,
) -> Result<bool, AllocError>
    requires { (memory : ℕ) × IsInMemory P.profile memory kernel.now }
    ensures { IfOk result (λ is. is ≡ true → spec.Holds P.profile (spec.asking_of asked.now) kernel.now.derivations word) }
{
    let list = reached::<P, S, W>(alloc, kernel, asked.from)?;
    Ok(is_one_held::<P, S, W>(kernel, word, asked.to, list.as_slice()))
}

/// Whether the calls of a hold are of the threads that make them.
fn is_hold_called(asked: &Asked<'_>, front: &[Call], call: &Call, again: &Call) -> bool
    ensures { result ≡ private.is_hold_called (spec.asking_of asked.now) front.now call.now again.now }
{
    are_callers(asked, front)
        && is_caller(asked, call)
        && call.thread == asked.from
        && again.thread == asked.to
}

fn is_hold_shown<P: Profile, S: MakeStore<P> + DerivationStore<P>, W: MakeWaiters<P>>(
    alloc: Global,
    kernel: &Kernel<P, S, W>,
    asked: &Asked<'_>,
    calls: &[Call],
) -> Result<bool, AllocError>
    requires { (memory : ℕ) × IsInMemory P.profile memory kernel.now }
    ensures { IfOk result (λ is. is ≡ true → (A : State) → IsReached P.profile A → kernel.now ≡ shown A → spec.ShowsHold P.profile (spec.asking_of asked.now) A calls.now) }
{
    let Some((front, call, again)) = split_two(calls) else {
        return Ok(false);
    };
    let Some(word) = held_word(call.op) else {
        return Ok(false);
    };
    if !is_hold_called(asked, front, &call, &again) {
        return Ok(false);
    }
    if !stay_live::<P, S, W>(alloc, kernel, asked, front)? {
        return Ok(false);
    }
    let (at, _) = behind::<P, S, W>(alloc, kernel, front)?;
    holds::<P, S, W>(alloc, &at, asked, word)
}

fn is_null(cap: Cap) -> bool
    ensures { result ≡ is_null_cap cap }
{
    match cap {
        Cap::Null => true,
        _ => false,
    }
}

/// Whether a slot is full in one state, and empty in another.
fn is_emptied<P: Profile, S: MakeStore<P> + DerivationStore<P>, W: MakeWaiters<P>>(
    before: &Kernel<P, S, W>,
    after: &Kernel<P, S, W>,
    slot: u64,
) -> bool
    ensures { result ≡ private.is_emptied before.now.derivations after.now.derivations slot }
{
    !is_null(before.cap_at(slot)) && is_null(after.cap_at(slot))
}

fn is_one_emptied<P: Profile, S: MakeStore<P> + DerivationStore<P>, W: MakeWaiters<P>>(
    before: &Kernel<P, S, W>,
    after: &Kernel<P, S, W>,
    list: &[Reached],
) -> bool
    ensures { result ≡ list_any (λ (r : ReachedOf). private.is_emptied before.now.derivations after.now.derivations r.slot) list.now }
{
    for one in list {
        if is_emptied::<P, S, W>(before, after, one.slot) {
            return true;
        }
    }
    false
}

/// Whether something of the other thread's is taken from one state to another.
fn are_taken<P: Profile, S: MakeStore<P> + DerivationStore<P>, W: MakeWaiters<P>>(
    alloc: Global,
    before: &Kernel<P, S, W>,
    after: &Kernel<P, S, W>,
    asked: &Asked<'_>,
) -> Result<bool, AllocError>
    requires { (memory : ℕ) × IsInMemory P.profile memory before.now }
    ensures { IfOk result (λ is. is ≡ true → spec.Takes P.profile (spec.asking_of asked.now) before.now.derivations after.now.derivations) }
{
    let list = reached::<P, S, W>(alloc, before, asked.to)?;
    Ok(
        is_emptied::<P, S, W>(before, after, asked.to)
            || is_one_emptied::<P, S, W>(before, after, list.as_slice()),
    )
}

/// Whether a call takes something of the other thread's.
fn takes<P: Profile, S: MakeStore<P> + DerivationStore<P>, W: MakeWaiters<P>>(
    alloc: Global,
    kernel: &Kernel<P, S, W>,
    asked: &Asked<'_>,
    call: Call,
) -> Result<bool, AllocError>
    requires { (memory : ℕ) × IsInMemory P.profile memory kernel.now }
    ensures { IfOk result (λ is. is ≡ true → (A : State) → IsReached P.profile A → kernel.now ≡ shown A
        → spec.Takes P.profile (spec.asking_of asked.now) A.derivations (step P.profile A call).state.derivations) }
{
    let mut after = kernel.copy(alloc)?;
    after.step(call);
    are_taken::<P, S, W>(alloc, kernel, &after, asked)
}

/// Whether the calls of a loss are of the threads that make them.
fn is_loss_called(
    asked: &Asked<'_>,
    front: &[Call],
    shows: &Call,
    call: &Call,
    again: &Call,
) -> bool
    ensures { result ≡ private.is_loss_called (spec.asking_of asked.now) front.now shows.now call.now again.now }
{
    shows.thread == asked.to && is_hold_called(asked, front, call, again)
}

fn is_loss_shown<P: Profile, S: MakeStore<P> + DerivationStore<P>, W: MakeWaiters<P>>(
    alloc: Global,
    kernel: &Kernel<P, S, W>,
    asked: &Asked<'_>,
    calls: &[Call],
) -> Result<bool, AllocError>
    requires { (memory : ℕ) × IsInMemory P.profile memory kernel.now }
    ensures { IfOk result (λ is. is ≡ true → (A : State) → IsReached P.profile A → kernel.now ≡ shown A → spec.ShowsLoss P.profile (spec.asking_of asked.now) A calls.now) }
{
    let Some((most, call, again)) = split_two(calls) else {
        return Ok(false);
    };
    let Some((front, shows)) = split_one(most) else {
        return Ok(false);
    };
    if !is_loss_called(asked, front, &shows, &call, &again) {
        return Ok(false);
    }
    if !stay_live::<P, S, W>(alloc, kernel, asked, most)? {
        return Ok(false);
    }
    let (at, _) = behind::<P, S, W>(alloc, kernel, most)?;
    takes::<P, S, W>(alloc, &at, asked, call)
}

/// Whether calls show what is asked for, from the state of a kernel on.
pub fn is_shown<P: Profile, S: MakeStore<P> + DerivationStore<P>, W: MakeWaiters<P>>(
    alloc: Global,
    kernel: &Kernel<P, S, W>,
    asked: &Asked<'_>,
    calls: &[Call],
) -> Result<bool, AllocError>
    requires { (memory : ℕ) × IsInMemory P.profile memory kernel.now }
    ensures { IfOk result (λ is. is ≡ true → (A : State) → IsReached P.profile A → kernel.now ≡ shown A → spec.IsShown P.profile (spec.asking_of asked.now) A calls.now) }
{
    match asked.what {
        Happening::Message => is_message_shown::<P, S, W>(alloc, kernel, asked, calls),
        Happening::Hold => is_hold_shown::<P, S, W>(alloc, kernel, asked, calls),
        Happening::Loss => is_loss_shown::<P, S, W>(alloc, kernel, asked, calls),
    }
}
