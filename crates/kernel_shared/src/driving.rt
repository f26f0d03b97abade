//! One thread for each client.
ghost use Rattle.std.specs.Prelude.{ℕ, ◌≡◌, ◌≢◌, ◌↔◌, ◌+◌, ◌<◌, ◌≤◌, IfOk, Some, None, length, slice_get, vec_len};
ghost use Rattle.kernel_shared.specs.declared.end.End.TheVariants as E;
ghost use Rattle.kernel_shared.specs.ClientStates.{ClientState};
ghost use Rattle.kernel_shared.specs.Faults.{Told};
ghost use Rattle.kernel_shared.specs.Driving.{EachThree, IsDriven, IsThreadResult, IsFinish, Ended, Stopped};

use crate::Naming;
use crate::client::Client;
use crate::end::End;
use crate::fault::SharedFault;
use crate::history_copy::HistoryCopy;
use crate::shared::Shared;
use kernel_abstract::Call;
use std::alloc::Global;
use std::marker::PhantomData;
use std::snapshot::Snapshot;
use std::sync::Wait;
use std::thread::{self, Promise, PromisedHandle, Scope, Threads};

/// What stands round each call of a drive.
pub trait Gate {
    ghost use Rattle.std.specs.Prelude.{◌≡◌, ℕ, false};

    /// Which clients it may end, before which of their calls.
    ghost ends: { ℕ → ℕ → Type 0 } = { λ _ _. Unit {0} };

    /// Before a client's call with this number: false ends the client.
    fn before(&self, client: u32, number: u32) -> bool
        ensures { result ≡ false → ends client number };

    /// After that call, whatever it was answered.
    fn after(&self, client: u32, number: u32);
}

/// Why a client stopped before the end of its list.
#[derive(Drop)]
pub enum Stop<N: Naming, T: HistoryCopy<N>> {
    /// The gate answered false.
    Gate,
    /// A call was not answered.
    Fault(SharedFault<N, T>),
}

/// A client after its calls, of which so many were answered. `stopped` is `None` where all of its list were.
#[derive(Drop)]
pub struct Driven<N: Naming, T: HistoryCopy<N>> {
    pub client: Client<N, T>,
    pub made: u32,
    pub stopped: Option<Stop<N, T>>,
}

/// Why not each client was driven.
#[derive(Debug, Clone, Copy, PartialEq, Eq)]
pub enum DriveFault {
    /// Memory was wanted and not there.
    Memory,
    /// A thread could not be started.
    Thread,
}

/// What a client's thread returns. A type that may hold a front is not shown to cross threads, so this holds none.
#[derive(Drop)]
struct ThreadResult<N: Naming, T: HistoryCopy<N>> {
    client: Client<N, T>,
    made: u32,
    end: End,
}

/// What a client's thread owes: the client as it was, and its calls.
#[derive(Drop)]
struct Owed<N: Naming, T: HistoryCopy<N>, G: Gate> {
    client: Snapshot<Client<N, T>>,
    calls: Snapshot<Vec<Call>>,
    gate: PhantomData<G>,
}

impl<N: Naming, T: HistoryCopy<N>, G: Gate> Promise<ThreadResult<N, T>> for Owed<N, T, G> {
    ghost kept_by = { λ p r. IsThreadResult G.ends N.limit p.client.value p.calls.value.items r.client r.made r.end };
}

/// A client's end.
fn thread_result<N: Naming, T: HistoryCopy<N>>(
    client: Client<N, T>,
    made: u32,
    end: End,
) -> ThreadResult<N, T>
    ensures client { result.client ≡ client }
    ensures made { result.made ≡ made }
    ensures end { result.end ≡ end }
{
    ThreadResult { client, made, end }
}

/// Why a call was not answered, without the front.
fn end_of<N: Naming, T: HistoryCopy<N>, G: Gate>(fault: &SharedFault<N, T>) -> End
    ensures stops { result ≢ E.Done }
    ensures told { (t : ClientState) → Told N.limit t fault.now → Ended G.ends N.limit t result }
{
    match fault {
        SharedFault::Full => End::Full,
        SharedFault::Stray(_) => End::Stray,
        SharedFault::NameTaken(_) => End::NameTaken,
        SharedFault::Memory => End::Memory,
        SharedFault::NoEntry => End::NoEntry,
    }
}

/// Makes the calls in order, until one is not answered.
fn work<N: Naming, T: HistoryCopy<N>, R: Wait, G: Gate>(
    rt: &R,
    shared: &Shared<N, T>,
    client: Client<N, T>,
    calls: &[Call],
    gate: &G,
) -> ThreadResult<N, T>
    ensures { IsThreadResult G.ends N.limit client calls.now result.client result.made result.end }
{
    let first = client.done();
    let mut client = client;
    for call in calls {
        let number = client.done();
        if !gate.before(client.id(), number) {
            let made = client.done() - first;
            return thread_result(client, made, End::Gate);
        }
        let reply = shared.call(rt, &mut client, *call);
        gate.after(client.id(), number);
        if let Err(fault) = reply {
            let made = client.done() - first;
            let end = end_of::<N, T, G>(&fault);
            return thread_result(client, made, end);
        }
    }
    let made = client.done() - first;
    thread_result(client, made, End::Done)
}

/// What stopped a client, with its front.
fn finish<N: Naming, T: HistoryCopy<N>, G: Gate>(ran: ThreadResult<N, T>) -> Driven<N, T>
    ensures client { result.client ≡ ran.client }
    ensures made { result.made ≡ ran.made }
    ensures ended { (ran.end ≡ E.Done) ↔ (result.stopped ≡ None) }
    ensures told { Ended G.ends N.limit ran.client ran.end → Stopped G.ends N.limit result.client result.stopped }
{
    let ThreadResult { client, made, end } = ran;
    let stopped = match end {
        End::Done => None,
        End::Gate => Some(Stop::Gate),
        End::Full => Some(Stop::Fault(SharedFault::Full)),
        End::Memory => Some(Stop::Fault(SharedFault::Memory)),
        End::NoEntry => Some(Stop::Fault(SharedFault::NoEntry)),
        End::NameTaken => Some(Stop::Fault(SharedFault::NameTaken(client.front()))),
        End::Stray => match client.stray() {
            Some(front) => Some(Stop::Fault(SharedFault::Stray(front))),
            None => Some(Stop::Fault(SharedFault::NoEntry)),
        },
    };
    Driven {
        client,
        made,
        stopped,
    }
}

/// Starts a thread for each client.
fn start_all<
    's,
    'e: 's,
    N: Naming + Send + Sync,
    T: HistoryCopy<N> + Send + Sync,
    R: Threads + Wait + Sync,
    G: Gate + Sync,
>(
    scope: &Scope<'s, &'e ()>,
    rt: &'e R,
    alloc: Global,
    shared: &'e Shared<N, T>,
    clients: Vec<Client<N, T>>,
    lists: &'e [Vec<Call>],
    gate: &'e G,
) -> Result<Vec<PromisedHandle<ThreadResult<N, T>, Owed<N, T, G>>>, DriveFault>
    requires { vec_len clients ≤ length lists.now }
    ensures len { IfOk result (λ v. vec_len v ≡ vec_len clients) }
    ensures each { IfOk result (λ v. EachThree clients.items lists.now v.items (λ c l h. (h.promise.client.value ≡ c) × (h.promise.calls.value ≡ l))) }
{
    let Ok(mut handles) = Vec::with_capacity(alloc, clients.len()) else {
        return Err(DriveFault::Memory);
    };
    let mut place = 0usize;
    for client in clients {
        let list = &lists[place];
        let owes = Owed::<N, T, G> {
            client: Snapshot::of(&client),
            calls: Snapshot::of(list),
            gate: PhantomData,
        };
        let calls = list.as_slice();
        let job = move || work(rt, shared, client, calls, gate);
        let Ok(handle) = scope.spawn_with(owes, job) else {
            return Err(DriveFault::Thread);
        };
        handles.push_reserved(handle);
        place += 1;
    }
    Ok(handles)
}

/// Drives each client in a thread of the scope, and joins them.
fn drive_in<
    's,
    'e: 's,
    N: Naming + Send + Sync,
    T: HistoryCopy<N> + Send + Sync,
    R: Threads + Wait + Sync,
    G: Gate + Sync,
>(
    scope: &Scope<'s, &'e ()>,
    rt: &'e R,
    alloc: Global,
    shared: &'e Shared<N, T>,
    clients: Vec<Client<N, T>>,
    lists: &'e [Vec<Call>],
    gate: &'e G,
) -> Result<Vec<ThreadResult<N, T>>, DriveFault>
    requires { vec_len clients ≤ length lists.now }
    ensures len { IfOk result (λ v. vec_len v ≡ vec_len clients) }
    ensures each { IfOk result (λ v. EachThree clients.items lists.now v.items (λ c l d. IsThreadResult G.ends N.limit c l.items d.client d.made d.end)) }
{
    let handles = start_all(scope, rt, alloc, shared, clients, lists, gate)?;
    match thread::join_promised(rt, handles) {
        Ok(all) => Ok(all),
        Err(_) => Err(DriveFault::Memory),
    }
}

/// Gives each fault its front.
fn finish_all<N: Naming, T: HistoryCopy<N>, G: Gate>(
    alloc: Global,
    all: Vec<ThreadResult<N, T>>,
) -> Result<Vec<Driven<N, T>>, DriveFault>
    ensures len { IfOk result (λ v. vec_len v ≡ vec_len all) }
    ensures each { IfOk result (λ v. (i : ℕ) (r : _) (d : _) → slice_get all.items i ≡ Some r → slice_get v.items i ≡ Some d → IsFinish G.ends N.limit r.client r.made r.end d.client d.made d.stopped) }
{
    let Ok(mut done) = Vec::with_capacity(alloc, all.len()) else {
        return Err(DriveFault::Memory);
    };
    for ran in all {
        done.push_reserved(finish::<N, T, G>(ran));
    }
    Ok(done)
}

/// Drives each client in a thread of its own, through its list of calls in order until one is not answered. List i is for
/// the client at place i. There is one `Driven` for each client, in their order.
///
/// # Errors
///
/// The threads that were started are joined. What they did stays in the book, and the clients are given up.
///
/// - `Memory` where memory was wanted and not there;
/// - `Thread` where a thread could not be started.
pub fn drive<
    N: Naming + Send + Sync,
    T: HistoryCopy<N> + Send + Sync,
    R: Threads + Wait + Sync,
    G: Gate + Sync,
>(
    rt: &R,
    alloc: Global,
    shared: &Shared<N, T>,
    clients: Vec<Client<N, T>>,
    lists: &[Vec<Call>],
    gate: &G,
) -> Result<Vec<Driven<N, T>>, DriveFault>
    requires { vec_len clients ≤ length lists.now }
    ensures len { IfOk result (λ v. vec_len v ≡ vec_len clients) }
    ensures each { IfOk result (λ v. EachThree clients.items lists.now v.items (λ c l d. IsDriven G.ends N.limit c l.items d.client d.made d.stopped)) }
{
    let all = thread::scope(
        thread::scope_env(),
        rt,
        |scope| -> Result<Vec<ThreadResult<N, T>>, DriveFault>
            requires { vec_len clients ≤ length lists.now }
            ensures len { IfOk result (λ v. vec_len v ≡ vec_len clients) }
            ensures each { IfOk result (λ v. EachThree clients.items lists.entry.now v.items (λ c l d. IsThreadResult G.ends N.limit c l.items d.client d.made d.end)) }
        { drive_in(scope, rt, alloc, shared, clients, lists, gate) },
    )?;
    finish_all::<N, T, G>(alloc, all)
}
