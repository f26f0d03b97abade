//! What clients are answered, and what they see.
use crate::setup::{
    Caller, CallerOver, EMPTY, ENDPOINT, ENDPOINT_SLOT, FIRST, FIRST_CALL, SECOND, Shared,
    SharedOver, settled,
};
use cap_core::{Badge, Cap, Rights, Wide};
use ipc_core::MakeWaiters;
use kernel_core::{Call, Inbox, Op, Reply, ThreadState};
use kernel_shared::fault::SharedFault;
use kernel_shared::history_copy::HistoryCopy;
use kernel_shared::settling::Unsettled;
use kernel_shared::{Answer, Entry, Naming, Query, SettleFault, give_up, look, settle};
use slot_core::MakeStore;
use std::sync::Wait;

/// What a client does, and what comes of it.
#[derive(Clone, Copy)]
pub enum Step {
    /// Its call is answered so.
    Calls(Call, Reply),
    /// Its call finds the history full.
    FindsFull(Call),
    /// Its look shows this.
    Sees(Query, Answer),
}

/// Steps one after another, each of the client with a number, and the book after them.
#[derive(Clone, Copy)]
pub struct Script {
    pub steps: &'static [(usize, Step)],
    pub entries: u32,
    pub first: Entry,
}

const DROPPED: Entry = Entry {
    client: 0,
    number: 0,
    call: FIRST_CALL,
    reply: Reply::Dropped,
};

/// One client, and room for one call: it is dropped, and the next finds the history full.
pub const ONE_CALL: Script = Script {
    steps: &[
        (0, Step::Calls(FIRST_CALL, Reply::Dropped)),
        (0, Step::Sees(Query::Length, Answer::Length(1))),
        (0, Step::Sees(Query::Entry(0), Answer::Entry(Some(DROPPED)))),
        (0, Step::FindsFull(FIRST_CALL)),
        (0, Step::Sees(Query::Length, Answer::Length(1))),
    ],
    entries: 1,
    first: DROPPED,
};

const SEND: Call = Call {
    thread: FIRST,
    op: Op::Send {
        cap: 4,
        message: EMPTY,
    },
};

const RECEIVE: Call = Call {
    thread: SECOND,
    op: Op::Recv { cap: 4 },
};

/// The reply to an empty message from the first thread to the second.
const DELIVERED: Reply = Reply::Delivered {
    endpoint: ENDPOINT,
    from: FIRST,
    to: SECOND,
    badge: Badge(0),
    message: EMPTY,
};

const SENT: Entry = Entry {
    client: 0,
    number: 0,
    call: SEND,
    reply: Reply::Waiting,
};

/// The first client's thread waits to send; the second client looks before it ever called, and receives.
pub const TWO_CLIENTS: Script = Script {
    steps: &[
        (0, Step::Calls(SEND, Reply::Waiting)),
        (1, Step::Sees(Query::Length, Answer::Length(1))),
        (
            1,
            Step::Sees(
                Query::WaitingAt(ENDPOINT, 0),
                Answer::WaitingAt(Some(FIRST)),
            ),
        ),
        (
            1,
            Step::Sees(Query::WaitingAt(ENDPOINT, 1), Answer::WaitingAt(None)),
        ),
        (
            1,
            Step::Sees(
                Query::State(FIRST),
                Answer::State(Some(ThreadState::Sending(ENDPOINT))),
            ),
        ),
        (1, Step::Calls(RECEIVE, DELIVERED)),
        (1, Step::Sees(Query::Length, Answer::Length(2))),
        (1, Step::Sees(Query::Entry(0), Answer::Entry(Some(SENT)))),
        (1, Step::Sees(Query::Entry(2), Answer::Entry(None))),
        (
            1,
            Step::Sees(Query::State(FIRST), Answer::State(Some(ThreadState::Ready))),
        ),
        (
            1,
            Step::Sees(
                Query::InboxOf(SECOND),
                Answer::InboxOf(Some(Inbox {
                    badge: Badge(0),
                    message: EMPTY,
                })),
            ),
        ),
        (
            1,
            Step::Sees(
                Query::CapAt(ENDPOINT_SLOT),
                Answer::CapAt(Cap::Endpoint {
                    base: ENDPOINT,
                    badge: Badge(0),
                    rights: Rights::ALL,
                }),
            ),
        ),
        (0, Step::Sees(Query::Entry(0), Answer::Entry(Some(SENT)))),
    ],
    entries: 2,
    first: SENT,
};

/// Whether a step comes out as it should.
fn comes_out<N: Naming, T: HistoryCopy<N>, R: Wait>(
    rt: &R,
    shared: &SharedOver<N, T>,
    client: &mut CallerOver<N, T>,
    step: Step,
) -> bool {
    match step {
        Step::Calls(call, reply) => shared.call(rt, client, call).ok() == Some(reply),
        Step::FindsFull(call) => finds_full(rt, shared, client, call),
        Step::Sees(query, answer) => look(client, query) == Some(answer),
    }
}

/// Whether a call finds the history full.
fn finds_full<N: Naming, T: HistoryCopy<N>, R: Wait>(
    rt: &R,
    shared: &SharedOver<N, T>,
    client: &mut CallerOver<N, T>,
    call: Call,
) -> bool {
    matches!(shared.call(rt, client, call), Err(SharedFault::Full))
}

/// How many steps come out as they should, up to the first that does not.
fn follow<N: Naming, T: HistoryCopy<N>, R: Wait>(
    rt: &R,
    shared: &SharedOver<N, T>,
    clients: &mut Vec<CallerOver<N, T>>,
    steps: &[(usize, Step)],
) -> usize {
    for (number, (place, step)) in steps.iter().enumerate() {
        let Some(client) = clients.get_mut(*place) else {
            return number;
        };
        if !comes_out(rt, shared, client, *step) {
            return number;
        }
    }
    steps.len()
}

/// How many steps of a script come out, and one more if the book is then as it should be.
pub fn follow_and_settle<N: Naming, S: MakeStore<Wide>, W: MakeWaiters<Wide>, R: Wait>(
    rt: &R,
    shared: Shared<N, S, W>,
    mut clients: Vec<Caller<N, S, W>>,
    script: Script,
) -> usize {
    let right = follow(rt, &shared, &mut clients, script.steps);
    let is_settled = settled(rt, shared, clients).is_some_and(|book| {
        book.length() == script.entries && book.entry(0) == Some(script.first)
    });
    right.saturating_add(is_settled as usize)
}

/// Whether a shared kernel is not settled without one of its clients, and is settled with all of them.
pub fn one_client_missing<N: Naming, S: MakeStore<Wide>, W: MakeWaiters<Wide>, R: Wait>(
    rt: &R,
    shared: Shared<N, S, W>,
    mut clients: Vec<Caller<N, S, W>>,
) -> bool {
    let Some(client) = clients.pop() else {
        give_up(rt, shared);
        return false;
    };
    match settle(rt, shared, clients) {
        Ok(_) => false,
        Err(unsettled) => {
            let Unsettled {
                why,
                shared,
                mut clients,
            } = unsettled;
            let is_back = clients.push(client).is_ok();
            let book = settled(rt, shared, clients);
            why == SettleFault::Missing && is_back && book.is_some_and(|book| book.length() == 0)
        }
    }
}
