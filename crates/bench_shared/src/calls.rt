//! Calls that are taken, made and looked at.
use crate::kernel::{DROPPED_SEND, LinkedBook};
use kernel_shared::client::Client;
use kernel_shared::history_copy::HistoryCopy;
use kernel_shared::shared::Shared;
use kernel_shared::{Naming, Query};
use std::sync::Wait;
use std::sync::atomic::{AtomicBool, AtomicU64, Ordering};
use std::thread;
use std::thread::Threads;

/// No client looks more often.
const MOST_LOOKS: u64 = 1_000_000_000_000;

/// Takes so many calls of one client: whether each was taken.
pub fn take_all<N: Naming>(book: &mut LinkedBook<N>, calls: u32) -> bool {
    let mut all = true;
    for number in 0..calls {
        all = book.take(0, number, DROPPED_SEND).is_ok() && all;
    }
    all
}

/// Makes so many calls of one client: whether each was answered.
pub fn call_all<N: Naming, T: HistoryCopy<N>, R: Wait>(
    rt: &R,
    shared: &Shared<N, T>,
    client: &mut Client<N, T>,
    calls: u32,
) -> bool {
    let mut all = true;
    for _ in 0..calls {
        all = shared.call(rt, client, DROPPED_SEND).is_ok() && all;
    }
    all
}

/// Looks until all is over: how many looks were answered.
fn looks_until<N: Naming, T: HistoryCopy<N>>(client: &mut Client<N, T>, over: &AtomicBool) -> u64 {
    let mut answered = 0u64;
    for _ in 0..MOST_LOOKS {
        if over.load(Ordering::Relaxed) {
            break;
        }
        if client.look(Query::Length).is_some() {
            answered = answered.saturating_add(1);
        }
    }
    answered
}

/// Looks until all is over, adds how many looks were answered, and gives the client back.
fn look_until<N: Naming, T: HistoryCopy<N>>(
    mut client: Client<N, T>,
    over: &AtomicBool,
    looks: &AtomicU64,
) -> Client<N, T> {
    looks.fetch_add(looks_until(&mut client, over), Ordering::SeqCst);
    client
}

/// The last client makes so many calls while the others look: how many looks were answered, if each call was.
pub fn looks_beside<
    N: Naming + Send + Sync,
    T: HistoryCopy<N> + Send + Sync,
    R: Threads + Wait + Sync,
>(rt: &R, shared: &Shared<N, T>, mut clients: Vec<Client<N, T>>, calls: u32) -> Option<u64> {
    let mut caller = clients.pop()?;
    let is_over = AtomicBool::new(false);
    let answered = AtomicU64::new(0);
    let (over, looks) = (&is_over, &answered);
    let all = thread::scope(thread::scope_env(), rt, |scope| -> bool {
        for client in clients {
            if scope
                .spawn(move || look_until(client, over, looks))
                .is_err()
            {
                over.store(true, Ordering::SeqCst);
                return false;
            }
        }
        let all = call_all(rt, shared, &mut caller, calls);
        over.store(true, Ordering::SeqCst);
        all
    });
    all.then_some(answered.load(Ordering::SeqCst))
}
