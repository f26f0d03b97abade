//! From layer to layer: for each number of calls, the states that orders of so many calls lead to.
ghost use Rattle.std.specs.Prelude.{◌≡◌, ◌∷◌, ◌+◌, ◌≤◌, [], ℕ, List, Some, IfOk, IfSome, OnOk, length, replicate, slice_get};
ghost use Rattle.kernel_abstract.specs.declared.call.Call.{Call as CallOf};
ghost use Rattle.kernel_abstract.specs.State.{shown};
ghost use Rattle.kernel_abstract.specs.Reached.{IsReached, StepsTo};
ghost use Rattle.kernel_lists.specs.Firsts.{each_times};
ghost use Rattle.query_orders.specs.World.{World, next_client_call as next_call_of, one_more, waiting_call, next_place, waits_after, world_after};
ghost use Rattle.query_orders.specs.Orders.{longer};
ghost use Rattle.query_orders.specs.Nodes.{own_calls, one_longer, IsWay, IsNode, AreNodes, node_order, node_orders};
ghost use Rattle.query_orders.specs.Found.{IsMade, IsVisited, IsExpanded, one_told, calls_told};
ghost use Rattle.query_orders.specs.Private.Kernels.{IsKernelOf, AreKernels};
ghost use Rattle.query_orders.specs.Private.Shared.{AreShared};

use crate::exploring::answers::note_outcome;
use crate::exploring::ends::{is_end, note_end};
use crate::exploring::found::FoundAnswers;
use crate::exploring::kernels::{KeptLayer, give_up, kernel_of, note_node};
use crate::exploring::layer::Layer;
use crate::exploring::node::{Node, Stepped, callable, counted, place_of, step_copy};
use crate::exploring::order::Order;
use crate::exploring::stuck::{Findings, note_stuck_end};
use crate::exploring::waits::waits_after;
use crate::exploring::words::{SharedSlots, shared_slots, state_words};
use crate::{Answer, WaitingCall};
use cap_core::Profile;
use ipc_core::SaveWaiters;
use kernel_core::{Call, Kernel, Reply, SavedKernel};
use slot_core::{DerivationStore, SaveStore};
use std::alloc::{AllocError, Global};
use std::collections::VecDeque;

/// The node after a client's call, by its order, and by the kernel after the call and its reply; it has no words yet.
fn followed<P: Profile, S: SaveStore<P> + DerivationStore<P>, W: SaveWaiters<P>>(
    alloc: Global,
    node: &Node,
    order: Order,
    client: usize,
    call: Call,
    after: &Kernel<P, S, W>,
    reply: Reply,
) -> Result<Node, AllocError>
    requires { IfSome (slice_get node.now.made.items client) (λ (n : ℕ). n + 1 ≤ usize.MAX) }
    ensures order { IfOk result (λ n. n.order ≡ order) }
    ensures made { IfOk result (λ n. n.made.items ≡ one_more client (slice_get node.now.made.items client) node.now.made.items) }
    ensures waits { IfOk result (λ n. n.waits.items
        ≡ waits_after after.now node.now.waits.items (waiting_call call.thread client (next_place node.now.made.items client)) reply) }
    ensures weight { IfOk result (λ n. n.weight ≡ node.now.weight) }
{
    let place = place_of(node.made.as_slice(), client);
    let new = WaitingCall {
        thread: call.thread,
        client,
        place,
    };
    let made = counted(alloc, node.made.as_slice(), client)?;
    let waits = waits_after(alloc, after, node.waits.as_slice(), new, reply)?;
    Ok(Node {
        order,
        made,
        waits,
        words: Vec::new(alloc),
        weight: node.weight,
    })
}

/// The node after the next call of a client, by the kernel after the call and its reply; it has no words yet. What the call
/// tells is noted.
pub fn note_call<P: Profile, S: SaveStore<P> + DerivationStore<P>, W: SaveWaiters<P>>(
    alloc: Global,
    node: &Node,
    client: usize,
    call: Call,
    after: &Kernel<P, S, W>,
    reply: Reply,
    found: &mut FoundAnswers,
) -> Result<Node, AllocError>
    requires { IfSome (slice_get node.now.made.items client) (λ (n : ℕ). n + 1 ≤ usize.MAX) }
    ensures made { IfOk result (λ new. (own : List (List CallOf)) (w : World) → IsReached P.profile w.kernel → IsWay P.profile own w node.now
        → StepsTo P.profile (world_after P.profile own w node.now.order).kernel call reply after.now → next_call_of own node.now.made.items client ≡ Some call
        → IsMade P.profile own w node.now new client ⟦<Answer as PartialEq>⟧.eq found.old found.new × IsKernelOf P.profile own w new after.now) }
    ensures weight { IfOk result (λ new. new.weight ≡ node.now.weight) }
{
    let order = node.order.longer(alloc, client)?;
    let place = place_of(node.made.as_slice(), client);
    let waits = node.waits.as_slice();
    note_outcome(found, after, waits, &order, client, place, reply)?;
    let new = followed(alloc, node, order, client, call, after, reply)?;
    Ok(new)
}

/// The node with the words of its state, by its kernel, and by the full slots that all states have. They are made in `room`.
pub fn with_words<P: Profile, S: SaveStore<P> + DerivationStore<P>, W: SaveWaiters<P>>(
    alloc: Global,
    node: Node,
    at: &Kernel<P, S, W>,
    shared: &SharedSlots,
    room: &mut Vec<u64>,
) -> Result<Node, AllocError>
    ensures node { IfOk result (λ new. (own : List (List CallOf)) (w : World) → IsReached P.profile w.kernel → AreShared P.profile own w shared.now
        → IsWay P.profile own w node → IsKernelOf P.profile own w node at.now → IsNode P.profile own w new) }
    ensures order { IfOk result (λ new. new.order ≡ node.order) }
    ensures weight { IfOk result (λ new. new.weight ≡ node.weight) }
{
    let mut node = node;
    let waits = node.waits.as_slice();
    node.words = state_words(alloc, node.made.as_slice(), waits, shared, at, room)?;
    Ok(node)
}

/// Notes the state after the next call of a client and what it tells, where it can make one. `at` is the kernel of the node.
fn visit<P: Profile, S: SaveStore<P> + DerivationStore<P>, W: SaveWaiters<P>>(
    alloc: Global,
    calls: &[Vec<Call>],
    at: &Kernel<P, S, W>,
    shared: &SharedSlots,
    node: &Node,
    client: usize,
    nodes: &mut KeptLayer<P, S, W>,
    found: &mut FoundAnswers,
) -> Result<(), AllocError>
    ensures visited { OnOk result ((w : World) → IsReached P.profile w.kernel → IsNode P.profile (own_calls calls.now) w node.now
        → IsKernelOf P.profile (own_calls calls.now) w node.now at.now → AreShared P.profile (own_calls calls.now) w shared.now → AreNodes P.profile (own_calls calls.now) w nodes.old.layer
        → IsVisited P.profile (own_calls calls.now) w nodes.old.layer nodes.new.layer
        (each_times node.now.weight (one_longer P.profile (own_calls calls.now) w node.now.order client))
        ⟦<Answer as PartialEq>⟧.eq found.old found.new (one_told P.profile (own_calls calls.now) w node.now.order client)) }
    ensures kernels { OnOk result ((w : World) → IsReached P.profile w.kernel → IsNode P.profile (own_calls calls.now) w node.now
        → IsKernelOf P.profile (own_calls calls.now) w node.now at.now → AreKernels P.profile (own_calls calls.now) w nodes.old.kernels.items nodes.old.layer
        → AreKernels P.profile (own_calls calls.now) w nodes.new.kernels.items nodes.new.layer) }
{
    if let Some(call) = callable(calls, at, node, client) {
        let Stepped { kernel, reply } = step_copy(alloc, at, nodes.spares.pop(), call)?;
        let way = note_call(alloc, node, client, call, &kernel, reply, found)?;
        let new = with_words(alloc, way, &kernel, shared, &mut nodes.room)?;
        note_node(alloc, nodes, new, kernel)?;
    }
    Ok(())
}

/// Notes the states after the next call of each client that can make one, and what these calls tell.
fn visit_clients<P: Profile, S: SaveStore<P> + DerivationStore<P>, W: SaveWaiters<P>>(
    alloc: Global,
    calls: &[Vec<Call>],
    at: &Kernel<P, S, W>,
    shared: &SharedSlots,
    node: &Node,
    nodes: &mut KeptLayer<P, S, W>,
    found: &mut FoundAnswers,
) -> Result<(), AllocError>
    ensures visited { OnOk result ((w : World) → IsReached P.profile w.kernel → IsNode P.profile (own_calls calls.now) w node.now
        → IsKernelOf P.profile (own_calls calls.now) w node.now at.now → AreShared P.profile (own_calls calls.now) w shared.now → AreNodes P.profile (own_calls calls.now) w nodes.old.layer
        → IsVisited P.profile (own_calls calls.now) w nodes.old.layer nodes.new.layer
        (each_times node.now.weight (longer P.profile (own_calls calls.now) w node.now.order))
        ⟦<Answer as PartialEq>⟧.eq found.old found.new (calls_told P.profile (own_calls calls.now) w node.now.order)) }
    ensures kernels { OnOk result ((w : World) → IsReached P.profile w.kernel → IsNode P.profile (own_calls calls.now) w node.now
        → IsKernelOf P.profile (own_calls calls.now) w node.now at.now → AreKernels P.profile (own_calls calls.now) w nodes.old.kernels.items nodes.old.layer
        → AreKernels P.profile (own_calls calls.now) w nodes.new.kernels.items nodes.new.layer) }
{
    for client in 0..calls.len() {
        visit(alloc, calls, at, shared, node, client, nodes, found)?;
    }
    Ok(())
}

/// Notes the states that one call more leads to from a node, and what stands behind its order. `at` is the kernel of the node.
fn expand<P: Profile, S: SaveStore<P> + DerivationStore<P>, W: SaveWaiters<P>>(
    alloc: Global,
    calls: &[Vec<Call>],
    at: &Kernel<P, S, W>,
    shared: &SharedSlots,
    node: &Node,
    nodes: &mut KeptLayer<P, S, W>,
    found: &mut Findings,
) -> Result<(), AllocError>
    ensures expanded { OnOk result ((w : World) → IsReached P.profile w.kernel → IsNode P.profile (own_calls calls.now) w node.now
        → IsKernelOf P.profile (own_calls calls.now) w node.now at.now → AreShared P.profile (own_calls calls.now) w shared.now → AreNodes P.profile (own_calls calls.now) w nodes.old.layer
        → IsExpanded P.profile (own_calls calls.now) w nodes.old.layer nodes.new.layer ⟦<Answer as PartialEq>⟧.eq found.old found.new (node_order node.now ∷ [])) }
    ensures kernels { OnOk result ((w : World) → IsReached P.profile w.kernel → IsNode P.profile (own_calls calls.now) w node.now
        → IsKernelOf P.profile (own_calls calls.now) w node.now at.now → AreKernels P.profile (own_calls calls.now) w nodes.old.kernels.items nodes.old.layer
        → AreKernels P.profile (own_calls calls.now) w nodes.new.kernels.items nodes.new.layer) }
{
    visit_clients(alloc, calls, at, shared, node, nodes, &mut found.answers)?;
    let ends = is_end(calls, at, node);
    note_end(calls, node, ends, &mut found.answers)?;
    note_stuck_end(alloc, calls, at, node, ends, found)?;
    Ok(())
}

/// The states that one call more leads to, with the kernels of the first of them; `kept` has those of the layer's first nodes,
/// and `spares` kernels that were given up. What stands behind the orders of the layer is noted.
pub fn next_layer<P: Profile, S: SaveStore<P> + DerivationStore<P>, W: SaveWaiters<P>>(
    alloc: Global,
    calls: &[Vec<Call>],
    kernel: &Kernel<P, S, W>,
    layer: &[Node],
    kept: &mut VecDeque<SavedKernel<P, S, W>>,
    spares: Vec<Kernel<P, S, W>>,
    found: &mut Findings,
) -> Result<KeptLayer<P, S, W>, AllocError>
    ensures { IfOk result (λ next. (w : World) → IsReached P.profile w.kernel → kernel.now ≡ shown w.kernel → w.made ≡ replicate (length calls.now) 0 → AreNodes P.profile (own_calls calls.now) w layer.now
        → AreKernels P.profile (own_calls calls.now) w kept.old.items layer.now
        → IsExpanded P.profile (own_calls calls.now) w [] next.layer ⟦<Answer as PartialEq>⟧.eq found.old found.new (node_orders layer.now)
        × AreKernels P.profile (own_calls calls.now) w next.kernels.items next.layer) }
{
    let shared = shared_slots(alloc, calls, kernel)?;
    let mut next = KeptLayer {
        layer: Layer::new(alloc),
        kernels: VecDeque::new(alloc),
        words: 0,
        spares,
        room: Vec::new(alloc),
    };
    for node in layer {
        let first = kept.pop_front();
        let at = kernel_of(alloc, calls, kernel, first, &mut next.spares, node)?;
        expand(alloc, calls, &at, &shared, node, &mut next, found)?;
        give_up(&mut next.spares, at);
    }
    Ok(next)
}
