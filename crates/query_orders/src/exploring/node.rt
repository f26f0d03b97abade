//! A state that an order of calls leads to, and one call more.
ghost use Rattle.std.specs.Prelude.{◌≡◌, ◌+◌, ◌≤◌, ℕ, IfOk, IfSome, IsSome, Some, is_some, slice_get};
ghost use Rattle.kernel_abstract.specs.Shown.{state_at};
ghost use Rattle.kernel_abstract.specs.State.{State, shown};
ghost use Rattle.kernel_abstract.specs.Reached.{IsReached, StepsTo};
ghost use Rattle.query_orders.specs.World.{next_client_call, is_ready, can_be_made, one_more, next_place};
ghost use Rattle.query_orders.specs.Nodes.{own_calls};

use crate::WaitingCall;
use crate::exploring::order::Order;
use cap_core::Profile;
use ipc_core::{SaveWaiters, Waiters};
use kernel_core::{Call, Kernel, Reply, ThreadState};
use slot_core::{CapStore, SaveStore};
use std::alloc::{AllocError, Global};

/// A state: the first order of clients that leads to it, how many calls each client has made then, which of these wait, and
/// the words of all that, with what the kernel shows; and how many orders lead to it, up to 2^64 - 1.
#[derive(Drop)]
pub struct Node {
    pub order: Order,
    pub made: Vec<usize>,
    pub waits: Vec<WaitingCall>,
    pub words: Vec<u64>,
    pub weight: u64,
}

/// The next call of a client, by how many calls each has made.
pub fn next_call(calls: &[Vec<Call>], made: &[usize], client: usize) -> Option<Call>
    ensures call { result ≡ next_client_call (own_calls calls.now) made.now client }
    ensures more { IsSome result → IfSome (slice_get made.now client) (λ (n : ℕ). n + 1 ≤ usize.MAX) }
{
    let place = made.get(client)?;
    calls.get(client)?.get(*place).copied()
}

/// Whether a thread is ready.
pub fn ready<P: Profile, S: CapStore<P> + Drop, W: Waiters<P> + Drop>(
    kernel: &Kernel<P, S, W>,
    thread: u64,
) -> bool
    ensures { result ≡ is_ready (state_at kernel.now thread) }
{
    matches!(&kernel.thread_state(thread), Some(ThreadState::Ready))
}

/// The next call of a client, where it can make it: it has one, and that call's thread is ready. `at` is the kernel of the node.
pub fn callable<P: Profile, S: CapStore<P> + Drop, W: Waiters<P> + Drop>(
    calls: &[Vec<Call>],
    at: &Kernel<P, S, W>,
    node: &Node,
    client: usize,
) -> Option<Call>
    ensures may { is_some result ≡ can_be_made at.now (next_client_call (own_calls calls.now) node.now.made.items client) }
    ensures call { IfSome result (λ call. next_client_call (own_calls calls.now) node.now.made.items client ≡ Some call) }
    ensures more { IsSome result → IfSome (slice_get node.now.made.items client) (λ (n : ℕ). n + 1 ≤ usize.MAX) }
{
    let call = next_call(calls, node.made.as_slice(), client)?;
    if ready(at, call.thread) {
        Some(call)
    } else {
        None
    }
}

/// A kernel, and what its last call was answered.
#[derive(Drop)]
pub struct Stepped<P: Profile, S: CapStore<P> + Drop, W: Waiters<P> + Drop> {
    pub kernel: Kernel<P, S, W>,
    pub reply: Reply,
}

/// A copy of a kernel, in the room of one that was given up, where there is one.
pub fn copied<P: Profile, S: SaveStore<P>, W: SaveWaiters<P>>(
    alloc: Global,
    kernel: &Kernel<P, S, W>,
    spare: Option<Kernel<P, S, W>>,
) -> Result<Kernel<P, S, W>, AllocError>
    ensures { IfOk result (λ copy. copy ≡ kernel.now) }
{
    match spare {
        Some(spare) => kernel.copy_into(alloc, spare),
        None => kernel.copy(alloc),
    }
}

/// A kernel after one more call, with the reply, in the room of one that was given up; the one that it is of stays.
pub fn step_copy<P: Profile, S: SaveStore<P>, W: SaveWaiters<P>>(
    alloc: Global,
    kernel: &Kernel<P, S, W>,
    spare: Option<Kernel<P, S, W>>,
    call: Call,
) -> Result<Stepped<P, S, W>, AllocError>
    ensures { IfOk result (λ next. (A : State) → IsReached P.profile A → kernel.now ≡ shown A → StepsTo P.profile A call next.reply next.kernel) }
{
    let mut kernel = copied(alloc, kernel, spare)?;
    let reply = kernel.step(call);
    Ok(Stepped { kernel, reply })
}

/// One call more of a client.
pub fn count(made: &mut Vec<usize>, client: usize)
    requires { IfSome (slice_get made.old.items client) (λ (n : ℕ). n + 1 ≤ usize.MAX) }
    ensures { made.new.items ≡ one_more client (slice_get made.old.items client) made.old.items }
{
    if let Some(place) = made.get_mut(client) {
        *place += 1;
    }
}

/// How many calls each client has made after one call more of a client.
pub fn counted(alloc: Global, made: &[usize], client: usize) -> Result<Vec<usize>, AllocError>
    requires { IfSome (slice_get made.now client) (λ (n : ℕ). n + 1 ≤ usize.MAX) }
    ensures { IfOk result (λ more. more.items ≡ one_more client (slice_get made.now client) made.now) }
{
    let mut more = Vec::from_slice(alloc, made)?;
    count(&mut more, client);
    Ok(more)
}

/// How many calls a client has made.
pub fn place_of(made: &[usize], client: usize) -> usize
    ensures { result ≡ next_place made.now client }
{
    made.get(client).copied().unwrap_or(0)
}
