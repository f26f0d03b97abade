//! A kernel that is shared: its start, two calls, and its settling.
ghost use Rattle.std.specs.Prelude.{◌≡◌, IfSome};
ghost use Rattle.cap_core.specs.declared.profile.ProfileName.TheVariants as Name;
ghost use Rattle.kernel_abstract.specs.Plan.{IsPlan};
ghost use Rattle.kernel_abstract.specs.Boot.{boot};
ghost use Rattle.kernel_abstract.specs.State.{shown};

use crate::outcome::Outcome;
use cap_core::{Badge, Message, Wide};
use ipc_core::MakeWaiters;
use kernel_core::{BootPlan, Call, Kernel, Op, Reply};
use kernel_shared::{
    Answer, Client, Naming, Query, SharedKernel, StartFault, client, fault, history_copy, settle,
    shared,
};
use slot_core::MakeStore;
use std::alloc::Global;
use std::marker::Brand;
use std::sync::Wait;
use std::sync::ledger::Blank;

/// How many calls the one client makes, and how many its history has room for.
const CALLS: u32 = 2;

const MESSAGE: Message = Message {
    label: 7,
    words: [1, 2, 0, 0],
    count: 2,
};

/// The calls with their replies: a thread waits to send, and another one receives from it.
const ANSWERED: [(Call, Reply); 2] = [
    (
        Call {
            thread: 2048,
            op: Op::Send {
                cap: 4,
                message: MESSAGE,
            },
        },
        Reply::Waiting,
    ),
    (
        Call {
            thread: 4096,
            op: Op::Recv { cap: 4 },
        },
        Reply::Delivered {
            endpoint: 6144,
            from: 2048,
            to: 4096,
            badge: Badge(0),
            message: MESSAGE,
        },
    ),
];

/// How a start, the calls and the settling ended.
#[derive(Clone, Copy)]
pub struct SharedOutcomes {
    pub start: Outcome,
    pub call: Outcome,
    pub settle: Outcome,
}

const WRONG: SharedOutcomes = SharedOutcomes {
    start: Outcome::Wrong,
    call: Outcome::Wrong,
    settle: Outcome::Wrong,
};

/// Makes a call: whether it is answered so, or `None` if it was out of memory and the history, which has so many
/// entries, has no more than before.
fn call<N: Naming, T: history_copy::HistoryCopy<N>, R: Wait>(
    rt: &R,
    shared: &shared::Shared<N, T>,
    client: &mut client::Client<N, T>,
    call: Call,
    reply: Reply,
    entries: u32,
) -> Option<bool> {
    match shared.call(rt, client, call) {
        Ok(answer) => Some(answer == reply),
        Err(fault::SharedFault::Memory) => {
            let is_kept = client.look(Query::Length) == Some(Answer::Length(entries));
            if is_kept { None } else { Some(false) }
        }
        Err(_) => Some(false),
    }
}

/// How the calls end, each made once more if it was out of memory.
fn make_calls<N: Naming, T: history_copy::HistoryCopy<N>, R: Wait>(
    rt: &R,
    shared: &shared::Shared<N, T>,
    client: &mut client::Client<N, T>,
) -> Outcome {
    let mut all = Outcome::Done;
    let mut entries = 0u32;
    for (made, reply) in ANSWERED {
        let mut answered = call(rt, shared, client, made, reply, entries);
        if answered.is_none() {
            all = Outcome::DoneAgain;
            answered = call(rt, shared, client, made, reply, entries);
        }
        if answered != Some(true) {
            return Outcome::Wrong;
        }
        entries = entries.saturating_add(1);
    }
    all
}

/// How the calls of the one client end, and the settling, which takes no memory: the book has all calls.
fn call_and_settle<N: Naming, S: MakeStore<Wide>, W: MakeWaiters<Wide>, R: Wait>(
    rt: &R,
    shared: SharedKernel<N, Wide, S, W>,
    mut clients: Vec<Client<N, Wide, S, W>>,
) -> SharedOutcomes {
    let called = match clients.first_mut() {
        Some(client) => make_calls(rt, &shared, client),
        None => Outcome::Wrong,
    };
    let settled = match settle(rt, shared, clients) {
        Ok(book) => book.length() == CALLS,
        Err(unsettled) => {
            unsettled.give_up(rt);
            false
        }
    };
    SharedOutcomes {
        start: Outcome::Done,
        call: called,
        settle: if settled {
            Outcome::Done
        } else {
            Outcome::Wrong
        },
    }
}

/// A kernel as a boot leaves it. One request alone is refused, so that the second boot has what it asks for.
fn booted<S: MakeStore<Wide>, W: MakeWaiters<Wide>>(
    alloc: Global,
    plan: &BootPlan,
) -> Option<Kernel<Wide, S, W>>
    requires { IsPlan Name.Wide plan.now }
    ensures { IfSome result (λ kernel. kernel ≡ shown (boot Name.Wide plan.now)) }
{
    match Kernel::<Wide, S, W>::boot(alloc, plan) {
        Ok(kernel) => Some(kernel),
        Err(_) => Kernel::<Wide, S, W>::boot(alloc, plan).ok(),
    }
}

/// Shares a kernel with one client, and uses it: how that ends, or `None` if the start was out of memory.
fn share<N: Naming, S: MakeStore<Wide>, W: MakeWaiters<Wide>, R: Wait>(
    rt: &R,
    alloc: Global,
    blank: Blank,
    plan: &BootPlan,
    clients: u32,
    limit: u32,
) -> Option<SharedOutcomes>
    requires name { blank.name ≡ N.name }
    requires parts { (blank.parts ≡ N.parts) × (blank.parts ≡ clients) }
    requires plan { IsPlan Name.Wide plan.now }
    requires profile { N.profile ≡ Name.Wide }
    requires start { N.start ≡ boot Name.Wide plan.now }
    requires opening { N.opening ≡ shown (boot Name.Wide plan.now) }
    requires limit { N.limit ≡ limit }
{
    if clients == 0 {
        return Some(WRONG);
    }
    let Some(kernel) = booted::<S, W>(alloc, plan) else {
        return Some(WRONG);
    };
    match SharedKernel::<N, Wide, S, W>::start(rt, alloc, blank, kernel, clients, limit) {
        Ok((shared, all)) => Some(call_and_settle(rt, shared, all)),
        Err(StartFault::Memory) => None,
        Err(StartFault::Reader) => Some(WRONG),
    }
}

/// How a start, the calls and the settling end, if a start that was out of memory is made again.
pub fn shared_outcomes<S: MakeStore<Wide>, W: MakeWaiters<Wide>, R: Wait>(
    rt: &R,
    alloc: Global,
) -> SharedOutcomes {
    let Ok(plan) = BootPlan::new::<Wide>(16, 4, 2, 1, Vec::new(alloc)) else {
        return WRONG;
    };
    for start in [Outcome::Done, Outcome::DoneAgain] {
        let blank = Blank::new(1);
        if let Some(outcomes) = share::<Brand, S, W, R>(rt, alloc, blank, &plan, 1, CALLS) {
            return SharedOutcomes { start, ..outcomes };
        }
    }
    WRONG
}
