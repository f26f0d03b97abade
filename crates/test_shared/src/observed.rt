//! Eight clients that call at once while two others look all the time; and the history, run again.
ghost use Rattle.cap_core.specs.declared.profile.ProfileName.TheVariants as Name;
ghost use Rattle.kernel_abstract.specs.Plan.{IsPlan};

use crate::crowd::driven;
use crate::gates::{Open, TURNS};
use crate::setup::{
    Caller, CallerOver, EMPTY, ENDPOINT, FIRST, History, SECOND, Shared, SharedOver, settled,
};
use cap_core::{Rights, Wide};
use ipc_core::MakeWaiters;
use kernel_core::{BootPlan, Call, Kernel, Op};
use kernel_shared::history_copy::HistoryCopy;
use kernel_shared::{Answer, Naming, Query};
use slot_core::MakeStore;
use std::alloc::{AllocError, Global};
use std::sync::Wait;
use std::sync::atomic::{AtomicBool, Ordering};
use std::thread::{Threads, join};

const CALLERS: u64 = 8;

const CALLS: u64 = 1000;

/// A caller's call with this number: the callers work for either thread in turn, so that they block it, send, receive
/// and rearrange capabilities in each other's way.
fn call(caller: u64, number: u64) -> Call {
    let turn = caller.wrapping_add(number);
    let (thread, other) = if turn % 2 == 0 {
        (FIRST, 3)
    } else {
        (SECOND, 2)
    };
    let op = match number % 6 {
        0 => Op::Send {
            cap: 4,
            message: EMPTY,
        },
        1 => Op::NbRecv { cap: 4 },
        2 => Op::Recv { cap: 4 },
        3 => Op::CapMint {
            cap: 1,
            index: caller.saturating_add(6),
            depth: 0,
            src_root: 1,
            src_index: 4,
            src_depth: 0,
            rights: Rights::ALL,
            word: number,
        },
        4 => Op::Resume { cap: other },
        _ => Op::CapDelete {
            cap: 1,
            index: 6 + turn % CALLERS,
            depth: 0,
        },
    };
    Call { thread, op }
}

fn lists(alloc: Global) -> Result<Vec<Vec<Call>>, AllocError> {
    let mut all = Vec::new(alloc);
    for caller in 0..CALLERS {
        let mut list = Vec::new(alloc);
        for number in 0..CALLS {
            list.push(call(caller, number))?;
        }
        all.push(list)?;
    }
    Ok(all)
}

/// An observer at its end: whether each look showed no less than the one before it, and an entry at its last place.
#[derive(Drop)]
struct Observer<N: Naming, T: HistoryCopy<N>> {
    client: CallerOver<N, T>,
    kept: bool,
}

/// How many entries a look shows, if it is no fewer than before and the last of them is there.
fn seen_since<N: Naming, T: HistoryCopy<N>>(
    client: &mut CallerOver<N, T>,
    before: u32,
) -> Option<u32> {
    let Some(Answer::Length(entries)) = client.look(Query::Length) else {
        return None;
    };
    let last = client.look(Query::Entry(entries.saturating_sub(1)));
    let is_there = matches!(last, Some(Answer::Entry(Some(_))));
    let thread = client.look(Query::State(FIRST));
    let is_live = matches!(thread, Some(Answer::State(Some(_))));
    (entries >= before && is_live && (entries == 0 || is_there)).then_some(entries)
}

/// Looks until all is over: whether each look showed no less than the one before it.
fn looks_until<N: Naming, T: HistoryCopy<N>>(
    client: &mut CallerOver<N, T>,
    over: &AtomicBool,
) -> bool {
    let mut entries = 0;
    for _ in 0..TURNS {
        let Some(now) = seen_since(client, entries) else {
            return false;
        };
        entries = now;
        if over.load(Ordering::SeqCst) {
            break;
        }
    }
    true
}

/// Looks until all is over, and gives the client back.
fn observe<N: Naming, T: HistoryCopy<N>>(
    mut client: CallerOver<N, T>,
    over: &AtomicBool,
) -> Observer<N, T> {
    let kept = looks_until(&mut client, over);
    Observer { client, kept }
}

/// Drives the callers, and says then that all is over: they themselves, if each call was made.
fn drive_to_the_end<
    N: Naming + Send + Sync,
    T: HistoryCopy<N> + Send + Sync,
    R: Threads + Wait + Sync,
>(
    rt: &R,
    alloc: Global,
    shared: &SharedOver<N, T>,
    clients: Vec<CallerOver<N, T>>,
    lists: &[Vec<Call>],
    over: &AtomicBool,
) -> Option<Vec<CallerOver<N, T>>> {
    let driven = driven(rt, alloc, shared, clients, lists, &Open);
    over.store(true, Ordering::SeqCst);
    let (clients, (_, stopped, _)) = driven?;
    (stopped == 0).then_some(clients)
}

/// Puts an observer's client behind the others: whether each look showed no less than the one before it.
fn put_back<N: Naming, T: HistoryCopy<N>>(
    clients: &mut Vec<CallerOver<N, T>>,
    observer: Observer<N, T>,
) -> bool {
    let Observer { client, kept } = observer;
    clients.push(client).is_ok() && kept
}

/// The callers with the observers behind them, if the observers kept what they saw.
fn all_back<N: Naming, T: HistoryCopy<N>>(
    mut clients: Vec<CallerOver<N, T>>,
    first: Observer<N, T>,
    second: Observer<N, T>,
) -> Option<Vec<CallerOver<N, T>>> {
    let second_kept = put_back(&mut clients, second);
    let first_kept = put_back(&mut clients, first);
    (first_kept && second_kept).then_some(clients)
}

/// Drives the callers while the observers look, and gives all clients back, or `None` if a call was not made or a look
/// went back.
fn drive_observed<
    N: Naming + Send + Sync,
    T: HistoryCopy<N> + Send + Sync,
    R: Threads + Wait + Sync,
>(
    rt: &R,
    alloc: Global,
    shared: &SharedOver<N, T>,
    mut clients: Vec<CallerOver<N, T>>,
    lists: &[Vec<Call>],
) -> Option<Vec<CallerOver<N, T>>> {
    let (one, other) = (clients.pop()?, clients.pop()?);
    let is_over = AtomicBool::new(false);
    let over = &is_over;
    let (driven, (first, second)) = join(
        rt,
        move || drive_to_the_end(rt, alloc, shared, clients, lists, over),
        move || join(rt, move || observe(one, over), move || observe(other, over)),
    );
    all_back(driven?, first, second)
}

/// Whether a book's calls, made again on a kernel that was just booted, are answered alike and lead to the same state.
fn runs_again<N: Naming, S: MakeStore<Wide>, W: MakeWaiters<Wide>>(
    alloc: Global,
    plan: &BootPlan,
    book: &History<N, S, W>,
) -> bool
    requires { IsPlan Name.Wide plan.now }
{
    match Kernel::<Wide, S, W>::boot(alloc, plan) {
        Ok(mut kernel) => answers_alike(&mut kernel, book)
            && shows_the_same(&kernel, book.kernel()),
        Err(_) => false,
    }
}

/// Whether a kernel answers the calls of a book as they are answered there.
fn answers_alike<N: Naming, S: MakeStore<Wide>, W: MakeWaiters<Wide>>(
    kernel: &mut Kernel<Wide, S, W>,
    book: &History<N, S, W>,
) -> bool {
    for place in 0..book.length() {
        let Some(entry) = book.entry(place) else {
            return false;
        };
        if kernel.step(entry.call) != entry.reply {
            return false;
        }
    }
    true
}

/// Whether two kernels have the same slots, threads and waiting list.
fn shows_the_same<S: MakeStore<Wide>, W: MakeWaiters<Wide>>(
    one: &Kernel<Wide, S, W>,
    other: &Kernel<Wide, S, W>,
) -> bool {
    for slot in 0..16 {
        let at = 32 * slot;
        let same_cap = one.cap_at(at) == other.cap_at(at);
        if !same_cap || one.has_children(at) != other.has_children(at) {
            return false;
        }
    }
    for thread in [FIRST, SECOND] {
        let same_state = one.thread_state(thread) == other.thread_state(thread);
        if !same_state || one.inbox(thread) != other.inbox(thread) {
            return false;
        }
    }
    (0..2).all(|place| one.waiting(ENDPOINT, place) == other.waiting(ENDPOINT, place))
}

/// Drives callers and observers by the lists of calls.
fn driven_under_looks<
    N: Naming + Send + Sync,
    T: HistoryCopy<N> + Send + Sync,
    R: Threads + Wait + Sync,
>(
    rt: &R,
    alloc: Global,
    shared: &SharedOver<N, T>,
    clients: Vec<CallerOver<N, T>>,
) -> Option<Vec<CallerOver<N, T>>> {
    let lists = lists(alloc).ok()?;
    drive_observed(rt, alloc, shared, clients, lists.as_slice())
}

/// Whether all of the callers' calls are made under the observers' eyes, and run again alike.
pub fn calls_under_looks<
    N: Naming + Send + Sync,
    S: MakeStore<Wide> + Send + Sync,
    W: MakeWaiters<Wide> + Send + Sync,
    R: Threads + Wait + Sync,
>(
    rt: &R,
    alloc: Global,
    plan: &BootPlan,
    shared: Shared<N, S, W>,
    clients: Vec<Caller<N, S, W>>,
) -> bool
    requires { IsPlan Name.Wide plan.now }
{
    let Some(clients) = driven_under_looks(rt, alloc, &shared, clients) else {
        shared.give_up(rt);
        return false;
    };
    let Some(book) = settled(rt, shared, clients) else {
        return false;
    };
    u64::from(book.length()) == CALLERS * CALLS && runs_again(alloc, plan, &book)
}
