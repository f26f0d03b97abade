//! Drives: clients that meet before their calls, and a history that is full.
use crate::gates::Meeting;
use crate::setup::{Caller, CallerOver, FIRST_CALL, SECOND_CALL, Shared, SharedOver, settled};
use cap_core::Wide;
use ipc_core::MakeWaiters;
use kernel_core::Call;
use kernel_shared::driving::{Driven, Stop};
use kernel_shared::fault::SharedFault;
use kernel_shared::history_copy::HistoryCopy;
use kernel_shared::{Gate, Naming, drive};
use slot_core::MakeStore;
use std::alloc::{AllocError, Global};
use std::sync::Wait;
use std::thread::Threads;

/// How many calls were made in a drive, how many clients stopped, and how many of these by a full history.
type Ends = (u32, u32, u32);

/// The ends of clients, counted.
fn ends_of<N: Naming, T: HistoryCopy<N>>(all: &[Driven<N, T>]) -> Ends {
    let (mut made, mut stopped, mut full) = (0u32, 0u32, 0u32);
    for driven in all {
        let is_full = matches!(driven.stopped, Some(Stop::Fault(SharedFault::Full)));
        made = made.saturating_add(driven.made);
        stopped = stopped.saturating_add(driven.stopped.is_some() as u32);
        full = full.saturating_add(is_full as u32);
    }
    (made, stopped, full)
}

/// A client, whatever stopped it.
fn client_after<N: Naming, T: HistoryCopy<N>>(driven: Driven<N, T>) -> CallerOver<N, T> {
    let Driven { client, .. } = driven;
    client
}

/// The clients themselves.
fn clients_of<N: Naming, T: HistoryCopy<N>>(
    alloc: Global,
    all: Vec<Driven<N, T>>,
) -> Option<Vec<CallerOver<N, T>>> {
    let mut clients = Vec::new(alloc);
    for driven in all {
        clients.push(client_after(driven)).ok()?;
    }
    Some(clients)
}

/// Drives the clients, if there is a list for each: they themselves, and how they ended.
pub fn driven<
    N: Naming + Send + Sync,
    T: HistoryCopy<N> + Send + Sync,
    R: Threads + Wait + Sync,
    G: Gate + Sync,
>(
    rt: &R,
    alloc: Global,
    shared: &SharedOver<N, T>,
    clients: Vec<CallerOver<N, T>>,
    lists: &[Vec<Call>],
    gate: &G,
) -> Option<(Vec<CallerOver<N, T>>, Ends)> {
    if lists.len() < clients.len() {
        return None;
    }
    let all = drive(rt, alloc, shared, clients, lists, gate).ok()?;
    let ends = ends_of(all.as_slice());
    Some((clients_of(alloc, all)?, ends))
}

/// Lists of calls, one for each client.
fn lists_of(alloc: Global, lists: &[&[Call]]) -> Result<Vec<Vec<Call>>, AllocError> {
    let mut all = Vec::with_capacity(alloc, lists.len())?;
    for list in lists {
        all.push(Vec::from_slice(alloc, list)?)?;
    }
    Ok(all)
}

/// Clients that are driven, each with a list of calls.
#[derive(Clone, Copy)]
pub struct Crowd {
    pub lists: &'static [&'static [Call]],
    /// How many of them wait for each other before each call.
    pub meeting: usize,
    /// Whether client 0 lets client 1 go first, and so whose the first entry is.
    pub second_first: bool,
    /// How they end.
    pub ends: Ends,
    /// How many entries the book has then.
    pub entries: u32,
}

/// Two clients meet; client 1 goes first.
pub const SECOND_FIRST: Crowd = Crowd {
    lists: &[&[FIRST_CALL], &[SECOND_CALL]],
    meeting: 2,
    second_first: true,
    ends: (2, 0, 0),
    entries: 2,
};

/// The two calls of a client.
const TWICE: &[Call] = &[FIRST_CALL, FIRST_CALL];

/// Eight clients meet at each of their two calls.
pub const EIGHT_AT_ONCE: Crowd = Crowd {
    lists: &[TWICE; 8],
    meeting: 8,
    second_first: false,
    ends: (16, 0, 0),
    entries: 16,
};

/// Two clients with two calls each, which wait for nobody, and room for three.
pub const ONE_FINDS_IT_FULL: Crowd = Crowd {
    lists: &[&[FIRST_CALL, FIRST_CALL], &[SECOND_CALL, SECOND_CALL]],
    meeting: 0,
    second_first: false,
    ends: (3, 1, 1),
    entries: 3,
};

/// Whether a shared kernel is settled with as many entries as a crowd should have made, the first of them by whom it should
/// be.
fn settles<N: Naming, S: MakeStore<Wide>, W: MakeWaiters<Wide>, R: Wait>(
    rt: &R,
    shared: Shared<N, S, W>,
    clients: Vec<Caller<N, S, W>>,
    crowd: Crowd,
) -> bool {
    settled(rt, shared, clients).is_some_and(|book| {
        let first = book.entry(0).map(|entry| entry.client);
        book.length() == crowd.entries && (first == Some(1) || !crowd.second_first)
    })
}

/// Drives a crowd: its clients, if they ended as they should.
fn crowd_after_its_calls<
    N: Naming + Send + Sync,
    T: HistoryCopy<N> + Send + Sync,
    R: Threads + Wait + Sync,
>(
    rt: &R,
    alloc: Global,
    shared: &SharedOver<N, T>,
    clients: Vec<CallerOver<N, T>>,
    crowd: Crowd,
) -> Option<Vec<CallerOver<N, T>>> {
    let lists = lists_of(alloc, crowd.lists).ok()?;
    let gate = Meeting::of(crowd.meeting, crowd.second_first);
    let (clients, ends) = driven(rt, alloc, shared, clients, lists.as_slice(), &gate)?;
    (ends == crowd.ends).then_some(clients)
}

/// Whether a crowd comes out as it should.
pub fn crowd_comes_out<
    N: Naming + Send + Sync,
    S: MakeStore<Wide> + Send + Sync,
    W: MakeWaiters<Wide> + Send + Sync,
    R: Threads + Wait + Sync,
>(
    rt: &R,
    alloc: Global,
    shared: Shared<N, S, W>,
    clients: Vec<Caller<N, S, W>>,
    crowd: Crowd,
) -> bool {
    match crowd_after_its_calls(rt, alloc, &shared, clients, crowd) {
        Some(clients) => settles(rt, shared, clients, crowd),
        None => {
            shared.give_up(rt);
            false
        }
    }
}
