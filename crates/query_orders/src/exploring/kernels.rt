//! The kernels of nodes. Those of a layer's first nodes are kept while the layer grows.
ghost use Rattle.std.specs.Prelude.{◌≡◌, ◌++◌, ◌∷◌, ◌⊎◌, [], List, IfOk, IfSome, OnOk, length, replicate, true};
ghost use Rattle.cap_core.specs.declared.profile.ProfileName.{ProfileName};
ghost use Rattle.kernel_abstract.specs.declared.call.Call.{Call as CallOf};
ghost use Rattle.kernel_abstract.specs.State.{shown};
ghost use Rattle.kernel_abstract.specs.Reached.{IsReached};
ghost use Rattle.query_orders.specs.World.{World, after_call, world_after};
ghost use Rattle.query_orders.specs.Nodes.{own_calls};
ghost use Rattle.query_orders.specs.Private.Tables.{with_node};
ghost use Rattle.query_orders.specs.Private.Kernels.{IsKernelOf, AreKernels};

use crate::exploring::layer::Layer;
use crate::exploring::node::{Node, copied, count, next_call};
use cap_core::Profile;
use ipc_core::{SaveWaiters, Waiters};
use kernel_core::{Call, Kernel, SavedKernel};
use slot_core::{CapStore, SaveStore};
use std::alloc::{AllocError, Global};
use std::collections::VecDeque;

/// Up to how many words of its nodes' states a layer keeps the kernels of its nodes, the first ones. A kernel that is kept takes
/// about as much memory as its state's words: 64 MB in all. The kernel of another node makes the node's calls anew.
const KEPT_WORDS: usize = 1 << 23;

/// A layer that grows, and the kernels of its first nodes. Those that were given up are in hand, so that a copy takes no
/// memory while there is one. `room` is where the words of a state are made.
#[derive(Drop)]
pub struct KeptLayer<P: Profile, S: SaveStore<P>, W: SaveWaiters<P>> {
    pub layer: Layer,
    pub kernels: VecDeque<SavedKernel<P, S, W>>,
    pub words: usize,
    pub spares: Vec<Kernel<P, S, W>>,
    pub room: Vec<u64>,
}

/// Has a kernel in hand for a later copy. Where memory is refused, it is dropped.
pub fn give_up<P: Profile, S: CapStore<P> + Drop, W: Waiters<P> + Drop>(
    spares: &mut Vec<Kernel<P, S, W>>,
    kernel: Kernel<P, S, W>,
) {
    match spares.push(kernel) {
        Ok(()) | Err(_) => {}
    }
}

/// Makes the next call of a client, where it has one, be its thread ready or not. `made` counts the calls of each client.
fn make_next<P: Profile, S: CapStore<P> + Drop, W: Waiters<P> + Drop>(
    calls: &[Vec<Call>],
    at: &mut Kernel<P, S, W>,
    made: &mut Vec<usize>,
    client: usize,
)
    ensures { (w : World) → IsReached P.profile w.kernel → at.old ≡ shown w.kernel → made.old.items ≡ w.made
        → (at.new ≡ shown (after_call P.profile (own_calls calls.now) w client).kernel) × (made.new.items ≡ (after_call P.profile (own_calls calls.now) w client).made) }
{
    if let Some(call) = next_call(calls, made.as_slice(), client) {
        at.step(call);
        count(made, client);
    }
}

/// A kernel after the calls of an order, from where no client has made one; the one that it is of stays.
fn kernel_after<P: Profile, S: SaveStore<P>, W: SaveWaiters<P>>(
    alloc: Global,
    calls: &[Vec<Call>],
    kernel: &Kernel<P, S, W>,
    spare: Option<Kernel<P, S, W>>,
    order: &[usize],
) -> Result<Kernel<P, S, W>, AllocError>
    ensures { IfOk result (λ at. (w : World) → IsReached P.profile w.kernel → kernel.now ≡ shown w.kernel → w.made ≡ replicate (length calls.now) 0
        → at ≡ shown (world_after P.profile (own_calls calls.now) w order.now).kernel) }
{
    let mut at = copied(alloc, kernel, spare)?;
    let mut made = vec![in alloc; 0; calls.len()]?;
    for i in 0..order.len() {
        make_next(calls, &mut at, &mut made, order[i]);
    }
    Ok(at)
}

/// A kernel that shows what was saved, in the room of one that was given up, or else of a copy of `kernel`.
fn restored<P: Profile, S: SaveStore<P>, W: SaveWaiters<P>>(
    alloc: Global,
    saved: &SavedKernel<P, S, W>,
    kernel: &Kernel<P, S, W>,
    spare: Option<Kernel<P, S, W>>,
) -> Result<Kernel<P, S, W>, AllocError>
    ensures { IfOk result (λ at. at ≡ saved.now) }
{
    let spare = match spare {
        Some(spare) => spare,
        None => kernel.copy(alloc)?,
    };
    saved.restore(alloc, spare)
}

/// The kernel of a node: the one that is kept of it, or one that makes the calls of its order, from where the orders begin.
pub fn kernel_of<P: Profile, S: SaveStore<P>, W: SaveWaiters<P>>(
    alloc: Global,
    calls: &[Vec<Call>],
    kernel: &Kernel<P, S, W>,
    kept: Option<SavedKernel<P, S, W>>,
    spares: &mut Vec<Kernel<P, S, W>>,
    node: &Node,
) -> Result<Kernel<P, S, W>, AllocError>
    ensures { IfOk result (λ at. (w : World) → IsReached P.profile w.kernel → kernel.now ≡ shown w.kernel → w.made ≡ replicate (length calls.now) 0
        → IfSome kept (IsKernelOf P.profile (own_calls calls.now) w node.now) → IsKernelOf P.profile (own_calls calls.now) w node.now at) }
{
    match kept {
        Some(saved) => restored(alloc, &saved, kernel, spares.pop()),
        None => {
            let order = node.order.clients(alloc)?;
            kernel_after(alloc, calls, kernel, spares.pop(), order.as_slice())
        }
    }
}

/// Whether the kernels of all nodes are kept, and one more can be.
fn has_room<P: Profile, S: SaveStore<P>, W: SaveWaiters<P>>(nodes: &KeptLayer<P, S, W>) -> bool
    ensures { result ≡ true → length nodes.now.kernels.items ≡ length nodes.now.layer }
{
    nodes.words < KEPT_WORDS && nodes.kernels.len() == nodes.layer.nodes().len()
}

/// Keeps what a kernel holds, where there is memory for it.
fn keep<P: Profile, S: SaveStore<P>, W: SaveWaiters<P>>(
    alloc: Global,
    kernels: &mut VecDeque<SavedKernel<P, S, W>>,
    at: &Kernel<P, S, W>,
)
    ensures { (kernels.new.items ≡ kernels.old.items) ⊎ (kernels.new.items ≡ kernels.old.items ++ at.now ∷ []) }
{
    if let Ok(saved) = at.save(alloc) {
        match kernels.push_back(saved) {
            Ok(()) | Err(_) => {}
        }
    }
}

/// Puts a node into a layer, whose kernel is `at`. Where the layer has no node of its state, and the kernels of all nodes
/// before it are kept, what the kernel holds is kept too, as far as there is memory. The kernel is in hand for a later copy.
pub fn note_node<P: Profile, S: SaveStore<P>, W: SaveWaiters<P>>(
    alloc: Global,
    nodes: &mut KeptLayer<P, S, W>,
    node: Node,
    at: Kernel<P, S, W>,
) -> Result<(), AllocError>
    ensures layer { OnOk result (nodes.new.layer ≡ with_node nodes.old.layer node) }
    ensures kernels { OnOk result ((p : ProfileName) (own : List (List CallOf)) (w : World) → IsKernelOf p own w node at
        → AreKernels p own w nodes.old.kernels.items nodes.old.layer → AreKernels p own w nodes.new.kernels.items nodes.new.layer) }
{
    let keeps = has_room(nodes);
    let count = nodes.layer.nodes().len();
    let words = node.words.len();
    nodes.layer.note(node)?;
    if keeps && count < nodes.layer.nodes().len() {
        keep(alloc, &mut nodes.kernels, &at);
        nodes.words = nodes.words.saturating_add(words);
        give_up(&mut nodes.spares, at);
        return Ok(());
    }
    give_up(&mut nodes.spares, at);
    Ok(())
}
