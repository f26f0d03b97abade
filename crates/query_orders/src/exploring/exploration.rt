//! The exploration of all orders of the clients' calls, as far as a limit on states lets it go.
ghost use Rattle.std.specs.Prelude.{◌≡◌, ◌+◌, ◌-◌, ◌<◌, ◌&&◌, [], ◌∷◌, ◌++◌, ℕ, IfOk, IfSome, OnOk, List, length, nat_lt, not, true};
ghost use Rattle.cap_core.specs.declared.profile.ProfileName.{ProfileName};
ghost use Rattle.kernel_abstract.specs.declared.call.Call.{Call as CallOf};
ghost use Rattle.kernel_abstract.specs.State.{State, shown};
ghost use Rattle.kernel_abstract.specs.Reached.{IsReached};
ghost use Rattle.query_orders.specs.World.{World, start};
ghost use Rattle.query_orders.specs.Orders.{orders};
ghost use Rattle.query_orders.specs.Nodes.{own_calls, layer, IsWay};
ghost use Rattle.query_orders.specs.States.{AreTakenTogether};
ghost use Rattle.query_orders.specs.Found.{IsMade};
ghost use Rattle.query_orders.specs.Counts.{saturated};
ghost use Rattle.query_orders.specs.Explorations.{IsExplored, IsBegun, depth, ends_exploration, layers_from};
ghost use Rattle.query_orders.specs.Private.Kernels.{IsKernelOf, AreKernels};
ghost use Rattle.query_orders.specs.Private.Progress.{AreCallers, IsOneOrder, IsProgress, callers_with, only_callers};

use crate::Answer;
use crate::exploring::found::FoundAnswers;
use crate::exploring::kernels::KeptLayer;
use crate::exploring::layer::Layer;
use crate::exploring::layers::{next_layer, note_call, with_words};
use crate::exploring::node::{Node, callable, next_call};
use crate::exploring::order::Order;
use crate::exploring::stuck::Findings;
use crate::exploring::words::shared_slots;
use cap_core::Profile;
use ipc_core::SaveWaiters;
use kernel_core::{Call, Kernel, SavedKernel};
use slot_core::{DerivationStore, SaveStore};
use std::alloc::{AllocError, Global};
use std::collections::VecDeque;
use std::mem::replace;

/// What the orders give that begin in one way and have fewer calls more than `calls`: what stands behind them, how many states
/// they lead to, with those that the first calls lead through, up to 2^64 - 1; and the states that orders of just `calls` more
/// lead to.
#[derive(Drop)]
pub struct Explored {
    pub layer: Layer,
    pub found: Findings,
    pub states: u64,
    pub calls: usize,
}

/// The node of a start: of so many clients, none has made a call. It has no words yet.
fn first_node(alloc: Global, clients: usize) -> Result<Node, AllocError>
    ensures node { IfOk result (λ node. (p : ProfileName) (own : List (List CallOf)) (A : State) → length own ≡ clients → IsWay p own (start own A) node) }
    ensures order { IfOk result (λ node. node.order ≡ []) }
    ensures weight { IfOk result (λ node. node.weight ≡ 1) }
{
    Ok(Node {
        order: Order::new(),
        made: vec![in alloc; 0; clients]?,
        waits: Vec::new(alloc),
        words: Vec::new(alloc),
        weight: 1,
    })
}

/// The node behind a client that has no call left.
fn uncalled(alloc: Global, node: Node, client: usize) -> Result<Node, AllocError>
    ensures rest { IfOk result (λ new. (new.order ≡ node.order ++ client ∷ []) × ((new.made.items ≡ node.made.items) × (new.waits.items ≡ node.waits.items))) }
    ensures weight { IfOk result (λ new. new.weight ≡ node.weight) }
{
    let mut node = node;
    node.order = node.order.longer(alloc, client)?;
    Ok(node)
}

/// Makes the next call of a client, be its thread ready or not, and notes what it tells. Where the client has none, nothing is
/// made. `at` is the kernel of the node, and then that of the new one.
fn first_call<P: Profile, S: SaveStore<P> + DerivationStore<P>, W: SaveWaiters<P>>(
    alloc: Global,
    calls: &[Vec<Call>],
    at: &mut Kernel<P, S, W>,
    node: Node,
    client: usize,
    found: &mut FoundAnswers,
) -> Result<Node, AllocError>
    ensures made { IfOk result (λ new. (w : World) → IsReached P.profile w.kernel → IsWay P.profile (own_calls calls.now) w node
        → IsKernelOf P.profile (own_calls calls.now) w node at.old
        → IsMade P.profile (own_calls calls.now) w node new client ⟦<Answer as PartialEq>⟧.eq found.old found.new
        × IsKernelOf P.profile (own_calls calls.now) w new at.new) }
    ensures weight { IfOk result (λ new. new.weight ≡ node.weight) }
{
    match next_call(calls, node.made.as_slice(), client) {
        Some(call) => {
            let reply = at.step(call);
            note_call(alloc, &node, client, call, at, reply, found)
        }
        None => uncalled(alloc, node, client),
    }
}

/// Makes the calls by which all orders begin, each the next one of a client, and notes what they tell. `at` is the kernel that
/// makes them. The node has no words yet.
pub fn begin<P: Profile, S: SaveStore<P> + DerivationStore<P>, W: SaveWaiters<P>>(
    alloc: Global,
    calls: &[Vec<Call>],
    at: &mut Kernel<P, S, W>,
    first: &[usize],
    found: &mut FoundAnswers,
) -> Result<Node, AllocError>
    ensures { IfOk result (λ node. (A : State) → IsReached P.profile A → at.old ≡ shown A
        → IsBegun P.profile (own_calls calls.now) A first.now node ⟦<Answer as PartialEq>⟧.eq found.old found.new
        × IsKernelOf P.profile (own_calls calls.now) (start (own_calls calls.now) A) node at.new) }
{
    let mut node = first_node(alloc, calls.len())?;
    for i in 0..first.len() {
        node = first_call(alloc, calls, at, node, first[i], found)?;
    }
    Ok(node)
}

/// How many states the first calls lead through: one before each, since they are made in one order.
fn states_through(first: &[usize]) -> u64
    ensures { result ≡ saturated (length first.now) }
{
    0u64.saturating_add(first.len() as u64)
}

/// Which of the clients that were looked at can make a call.
#[derive(Clone, Copy)]
enum Callers {
    Nobody,
    One(usize),
    Several,
}

/// The same with one client more, which may make a call or not.
fn with_caller(callers: Callers, client: usize, may: bool) -> Callers
    ensures { result ≡ callers_with callers client may }
{
    match (callers, may) {
        (_, false) => callers,
        (Callers::Nobody, true) => Callers::One(client),
        (Callers::One(_), true) => Callers::Several,
        (Callers::Several, true) => Callers::Several,
    }
}

/// Which clients can make a call at a node. `at` is the kernel of the node.
fn callers_at<P: Profile, S: SaveStore<P>, W: SaveWaiters<P>>(
    calls: &[Vec<Call>],
    at: &Kernel<P, S, W>,
    node: &Node,
) -> Callers
    ensures { AreCallers result (only_callers (own_calls calls.now) node.now at.now (length calls.now)) }
{
    let mut callers = Callers::Nobody;
    for client in 0..calls.len() {
        let may = callable(calls, at, node, client).is_some();
        callers = with_caller(callers, client, may);
    }
    callers
}

/// The only client that can make a call at a node; `None` if none can, or several. `at` is the kernel of the node.
fn only_caller<P: Profile, S: SaveStore<P>, W: SaveWaiters<P>>(
    calls: &[Vec<Call>],
    at: &Kernel<P, S, W>,
    node: &Node,
) -> Option<usize>
    ensures { IfSome result (λ client. only_callers (own_calls calls.now) node.now at.now (length calls.now) ≡ client ∷ []) }
{
    match callers_at(calls, at, node) {
        Callers::One(client) => Some(client),
        Callers::Nobody => None,
        Callers::Several => None,
    }
}

/// The one order that there is of so many calls more, by its node, which has no words yet, and how many states it leads through.
#[derive(Drop)]
struct OneOrder {
    node: Node,
    calls: usize,
    states: u64,
}

/// The client that makes the next call of the one order that there is, if that goes on in one way alone, and the limits let it.
fn next_caller<P: Profile, S: SaveStore<P>, W: SaveWaiters<P>>(
    calls: &[Vec<Call>],
    at: &Kernel<P, S, W>,
    one: &OneOrder,
    limit: u64,
    count: usize,
) -> Option<usize>
    ensures only { IfSome result (λ client. only_callers (own_calls calls.now) one.now.node at.now (length calls.now) ≡ client ∷ []) }
    ensures goes_on { IfSome result (λ _. (nat_lt one.now.calls count && not (ends_exploration limit one.now.states 1)) ≡ true) }
{
    let is_last = limit < one.states.saturating_add(1);
    if one.calls < count && !is_last {
        only_caller(calls, at, &one.node)
    } else {
        None
    }
}

/// Makes calls while one client alone can make one. Then there is one order of them, so no kernel is copied, and no states are
/// compared. `at` is the kernel of the node, and then that of the new one.
fn follow<P: Profile, S: SaveStore<P> + DerivationStore<P>, W: SaveWaiters<P>>(
    alloc: Global,
    calls: &[Vec<Call>],
    at: &mut Kernel<P, S, W>,
    begun: OneOrder,
    limit: u64,
    count: usize,
    found: &mut FoundAnswers,
) -> Result<OneOrder, AllocError>
    ensures { IfOk result (λ one. (A : State) (first : List ℕ) → IsReached P.profile A
        → IsOneOrder P.profile (own_calls calls.now) A first ⟦<Answer as PartialEq>⟧.eq limit count begun.node found.old begun.states begun.calls
        → IsKernelOf P.profile (own_calls calls.now) (start (own_calls calls.now) A) begun.node at.old
        → IsOneOrder P.profile (own_calls calls.now) A first ⟦<Answer as PartialEq>⟧.eq limit count one.node found.new one.states one.calls
        × IsKernelOf P.profile (own_calls calls.now) (start (own_calls calls.now) A) one.node at.new) }
{
    let mut one = begun;
    while let Some(client) = next_caller(calls, &*at, &one, limit, count) {
        let OneOrder {
            node,
            calls: made,
            states,
        } = one;
        one = OneOrder {
            node: first_call(alloc, calls, at, node, client, found)?,
            calls: made + 1,
            states: states.saturating_add(1),
        };
    }
    Ok(one)
}

/// What is known before several clients can go on behind the first calls, or the order ends. The kernel after these calls is kept.
fn begun<P: Profile, S: SaveStore<P> + DerivationStore<P>, W: SaveWaiters<P>>(
    alloc: Global,
    calls: &[Vec<Call>],
    kernel: &Kernel<P, S, W>,
    first: &[usize],
    limit: u64,
    count: usize,
    kept: &mut VecDeque<SavedKernel<P, S, W>>,
) -> Result<Explored, AllocError>
    requires { kept.old.items ≡ [] }
    ensures { IfOk result (λ e. (A : State) → IsReached P.profile A → kernel.now ≡ shown A
        → IsProgress P.profile (own_calls calls.now) A first.now ⟦<Answer as PartialEq>⟧.eq e
        × (AreKernels P.profile (own_calls calls.now) (start (own_calls calls.now) A) kept.new.items e.layer
        × (layers_from P.profile (own_calls calls.now) (start (own_calls calls.now) A) first.now limit (count - e.calls) e.calls
        ≡ depth P.profile (own_calls calls.now) (start (own_calls calls.now) A) first.now limit count))) }
{
    let mut found = Findings::new(alloc);
    let mut at = kernel.copy(alloc)?;
    let begun = OneOrder {
        node: begin(alloc, calls, &mut at, first, &mut found.answers)?,
        calls: 0,
        states: states_through(first),
    };
    let one = follow(
        alloc,
        calls,
        &mut at,
        begun,
        limit,
        count,
        &mut found.answers,
    )?;
    let OneOrder {
        node,
        calls: made,
        states,
    } = one;
    let shared = shared_slots(alloc, calls, kernel)?;
    let mut room = Vec::new(alloc);
    let node = with_words(alloc, node, &at, &shared, &mut room)?;
    let mut layer = Layer::new(alloc);
    layer.note(node)?;
    let saved = at.save(alloc)?;
    kept.push_back(saved)?;
    Ok(Explored {
        layer,
        found,
        states,
        calls: made,
    })
}

/// How many states there are with those of the next layer.
fn states_after(explored: &Explored) -> u64
    ensures { result ≡ saturated (explored.now.states + length explored.now.layer) }
{
    let more = explored.layer.nodes().len();
    explored.states.saturating_add(more as u64)
}

/// Whether the exploration goes on: some order does, the states of the next layer are not too many, and neither are the calls.
fn goes_on(explored: &Explored, limit: u64, count: usize) -> bool
    ensures { result ≡ (nat_lt explored.now.calls count && not (ends_exploration limit explored.now.states (length explored.now.layer))) }
{
    let is_last = explored.layer.nodes().is_empty() || limit < states_after(explored);
    explored.calls < count && !is_last
}

/// Explores the orders that have one call more. `kept` has the kernels of the layer's first nodes, and `spares` kernels that
/// were given up.
fn advance<P: Profile, S: SaveStore<P> + DerivationStore<P>, W: SaveWaiters<P>>(
    alloc: Global,
    calls: &[Vec<Call>],
    kernel: &Kernel<P, S, W>,
    explored: &mut Explored,
    kept: &mut VecDeque<SavedKernel<P, S, W>>,
    spares: &mut Vec<Kernel<P, S, W>>,
) -> Result<(), AllocError>
    requires { explored.old.calls < usize.MAX }
    ensures progress { OnOk result ((A : State) (first : List ℕ) → IsReached P.profile A → kernel.now ≡ shown A
        → IsProgress P.profile (own_calls calls.now) A first ⟦<Answer as PartialEq>⟧.eq explored.old
        → AreKernels P.profile (own_calls calls.now) (start (own_calls calls.now) A) kept.old.items explored.old.layer
        → IsProgress P.profile (own_calls calls.now) A first ⟦<Answer as PartialEq>⟧.eq explored.new
        × AreKernels P.profile (own_calls calls.now) (start (own_calls calls.now) A) kept.new.items explored.new.layer) }
    ensures calls { OnOk result (explored.new.calls ≡ explored.old.calls + 1) }
{
    let states = states_after(explored);
    let nodes = explored.layer.nodes();
    let given = replace(spares, Vec::new(alloc));
    let next = next_layer(
        alloc,
        calls,
        kernel,
        nodes,
        kept,
        given,
        &mut explored.found,
    )?;
    let KeptLayer {
        layer,
        kernels,
        spares: given_up,
        ..
    } = next;
    explored.layer = layer;
    *kept = kernels;
    *spares = given_up;
    explored.states = states;
    explored.calls += 1;
    Ok(())
}

/// Explores all orders of the clients' calls, from a kernel on. Each client's own calls are a list, in order. An order begins
/// with the next calls of the clients of `first`; behind them, each call is made while its thread is ready. Orders that lead
/// to the same state are taken together there, and nothing is lost by it. While one client alone can make a call, no state is kept
/// or compared. If no order goes on, or the states of the next layer are more than the limit leaves, or `count` calls are behind
/// the first ones, the exploration ends.
pub fn explore<P: Profile, S: SaveStore<P> + DerivationStore<P>, W: SaveWaiters<P>>(
    alloc: Global,
    calls: &[Vec<Call>],
    kernel: &Kernel<P, S, W>,
    first: &[usize],
    limit: u64,
    count: usize,
) -> Result<Explored, AllocError>
    ensures { IfOk result (λ e. (A : State) → IsReached P.profile A → kernel.now ≡ shown A
        → IsExplored P.profile (own_calls calls.now) A first.now ⟦<Answer as PartialEq>⟧.eq limit count e) }
{
    let mut kept = VecDeque::new(alloc);
    let mut spares = Vec::new(alloc);
    let mut explored = begun(alloc, calls, kernel, first, limit, count, &mut kept)?;
    while goes_on(&explored, limit, count) {
        advance(alloc, calls, kernel, &mut explored, &mut kept, &mut spares)?;
    }
    Ok(explored)
}

/// Where no order of so many calls more leads to a state, there are no orders of so many calls more, or of more than these.
/// Nothing is done.
pub fn empty_layers_are_the_last()
    ensures { (p : ProfileName) (own : List (List CallOf)) (w : World) (first : List ℕ) (count more : ℕ)
        → layer p own w first count ≡ [] → orders p own w first (count + more) ≡ [] }
{}

/// Orders are taken together exactly where they lead to the same state: each client has made as many calls, the same calls
/// wait, and the kernel shows the same. Nothing is done.
pub fn orders_to_the_same_state_are_taken_together()
    ensures { (p : ProfileName) (own : List (List CallOf)) (w : World) (order order' : List ℕ) → IsReached p w.kernel → AreTakenTogether p own w order order' }
{}
