//! Rows of waiting threads, the first to be served first.
ghost use Rattle.std.specs.Prelude.{◌≡◌, ◌∷◌, ◌++◌, [], ℕ, ◌<◌, ◌≤◌, List, position, slice_get, option_map, find, vec_len, vec_capacity, None};
ghost use Rattle.cap_core.specs.declared.profile.ProfileName.{ProfileName};
ghost use Rattle.ipc_core.specs.declared.waiter.Waiter.{Waiter};
ghost use Rattle.ipc_core.specs.Representation.Rows.{row_thread, row_role, is_at, is_of, waiting_at, waits_of, next_by, AreDistinct, ArePlaced};
ghost use Rattle.ipc_core.specs.Waits.{first_receiver as receiver_first, first_sender as sender_first, thread_of, served, queued};

use crate::waiter::{Offer, Waiter};

/// A thread that waits, and the endpoint on which it does.
#[derive(Clone, Copy)]
pub struct WaitRow {
    pub endpoint: u64,
    pub waiter: Waiter,
}

fn first_place(rows: &[WaitRow], endpoint: u64) -> Option<usize>
    ensures { result ≡ position (is_at endpoint) rows.now }
{
    for (place, row) in rows.iter().enumerate() {
        if row.endpoint == endpoint {
            return Some(place);
        }
    }
    None
}

/// The row of a thread, if it waits.
pub fn row_of(rows: &[WaitRow], thread: u64) -> Option<WaitRow>
    ensures { result ≡ find (is_of thread) rows.now }
{
    for row in rows {
        if row.waiter.thread() == thread {
            return Some(*row);
        }
    }
    None
}

/// The one that waits at a place of an endpoint's waiting list, 0 the first.
pub fn waiter_at(rows: &[WaitRow], endpoint: u64, place: usize) -> Option<Waiter>
    ensures { result ≡ slice_get (waiting_at rows.now endpoint) place }
{
    let mut before = place;
    for row in rows {
        if row.endpoint == endpoint {
            if before == 0 {
                return Some(row.waiter);
            }
            before -= 1;
        }
    }
    None
}

/// The receiver that waits first on an endpoint, if it is one that waits first.
pub fn first_receiver(rows: &[WaitRow], endpoint: u64) -> Option<u64>
    ensures { result ≡ receiver_first (waiting_at rows.now endpoint) }
{
    match waiter_at(rows, endpoint, 0) {
        Some(Waiter::Receiver { thread }) => Some(thread),
        _ => None,
    }
}

/// The sender that waits first on an endpoint, if it is one that waits first.
pub fn first_sender(rows: &[WaitRow], endpoint: u64) -> Option<Offer>
    ensures { result ≡ sender_first (waiting_at rows.now endpoint) }
{
    match waiter_at(rows, endpoint, 0) {
        Some(
            Waiter::Sender {
                thread,
                badge,
                message,
            },
        ) => Some(Offer {
            thread,
            badge,
            message,
        }),
        _ => None,
    }
}

/// The thread of the first row of an endpoint.
fn first_thread(rows: &[WaitRow], endpoint: u64) -> Option<u64>
    ensures { result ≡ option_map row_thread (find (is_at endpoint) rows.now) }
{
    for row in rows {
        if row.endpoint == endpoint {
            return Some(row.waiter.thread());
        }
    }
    None
}

/// The thread of the first row behind that of a thread, on the same endpoint.
pub fn next_waiting(rows: &[WaitRow], thread: u64) -> Option<u64>
    ensures { result ≡ next_by thread rows.now }
{
    let mut rest = rows;
    while let Some((row, later)) = rest.split_first() {
        if row.waiter.thread() == thread {
            return first_thread(later, row.endpoint);
        }
        rest = later;
    }
    None
}

/// The first that waits on an endpoint waits no more.
pub fn remove_first(rows: &mut Vec<WaitRow>, endpoint: u64)
    requires { AreDistinct rows.old.items }
    ensures waits { (w : Waiter) (list : List Waiter) → waiting_at rows.old.items endpoint ≡ w ∷ list → waits_of rows.new.items ≡ served endpoint (thread_of w) (waits_of rows.old.items) }
    ensures distinct { AreDistinct rows.new.items }
    ensures placed { (p : ProfileName) (memory : ℕ) → ArePlaced p memory rows.old.items → ArePlaced p memory rows.new.items }
    ensures capacity { vec_capacity rows.new ≡ vec_capacity rows.old }
{
    if let Some(place) = first_place(rows, endpoint) {
        rows.remove(place);
    }
}

/// One more waits, a thread that has no row.
pub fn push_row(rows: &mut Vec<WaitRow>, row: WaitRow)
    requires room { vec_len rows.old < vec_capacity rows.old }
    requires free { (waits_of rows.old.items).role (row_thread row) ≡ None }
    requires distinct { AreDistinct rows.old.items }
    ensures waits { waits_of rows.new.items ≡ queued row.endpoint (row_thread row) (row_role row) row.waiter (waits_of rows.old.items) }
    ensures distinct { AreDistinct rows.new.items }
    ensures rows { rows.new.items ≡ rows.old.items ++ row ∷ [] }
    ensures capacity { vec_capacity rows.old ≤ vec_capacity rows.new }
{
    match rows.push(row) {
        Ok(()) => {},
        Err(_) => unreachable!(),
    }
}
