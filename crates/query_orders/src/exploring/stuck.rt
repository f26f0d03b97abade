//! Orders that end stuck, and how many orders end.
ghost use Rattle.std.specs.Prelude.{◌≡◌, ◌+◌, ◌<◌, ◌&&◌, [], IfOk, OnOk, cond, length, nat_lt};
ghost use Rattle.std.specs.List.{list_any};
ghost use Rattle.std.specs.Cmp.Lexicographic.{pointwise};
ghost use Rattle.kernel_lists.specs.Firsts.{with_first, with_firsts};
ghost use Rattle.query_orders.specs.Ends.{stuck_end, same_stuck, left_calls};
ghost use Rattle.query_orders.specs.Nodes.{own_calls};
ghost use Rattle.query_orders.specs.Found.{stuck_of, same_left, stuck_told};
ghost use Rattle.query_orders.specs.Counts.{saturated};

use crate::LeftCall;
use crate::exploring::found::FoundAnswers;
use crate::exploring::node::{Node, next_call, place_of};
use crate::exploring::order::Order;
use cap_core::Profile;
use ipc_core::Waiters;
use kernel_core::{Call, Kernel};
use slot_core::CapStore;
use std::alloc::{AllocError, Global};

/// An order that ends stuck, and the next call of each client that has calls left: the first order of those that leave the
/// same.
#[derive(Drop)]
pub struct FoundStuck {
    pub order: Order,
    pub left: Vec<LeftCall>,
}

/// What stands behind orders: what each call comes to, the ways in which orders end stuck, how many states are ends, how many
/// orders end, and how many of these end stuck. Counts go up to 2^64 - 1.
#[derive(Drop)]
pub struct Findings {
    pub answers: FoundAnswers,
    pub stuck: Vec<FoundStuck>,
    pub ends: u64,
    pub orders: u64,
    pub stuck_orders: u64,
}

impl Findings {
    ghost use Rattle.std.specs.Prelude.{◌≡◌, []};

    /// Nothing is found.
    pub fn new(alloc: Global) -> Findings
        ensures answers { result.answers ≡ [] }
        ensures stuck { result.stuck.items ≡ [] }
        ensures ends { result.ends ≡ 0 }
        ensures orders { result.orders ≡ 0 }
        ensures stuck_orders { result.stuck_orders ≡ 0 }
    {
        Findings {
            answers: FoundAnswers::new(alloc),
            stuck: Vec::new(alloc),
            ends: 0,
            orders: 0,
            stuck_orders: 0,
        }
    }
}

/// The next call of each client that has calls left, with what its thread does. `at` is the kernel of the node.
fn left_calls<P: Profile, S: CapStore<P> + Drop, W: Waiters<P> + Drop>(
    alloc: Global,
    calls: &[Vec<Call>],
    at: &Kernel<P, S, W>,
    node: &Node,
) -> Result<Vec<LeftCall>, AllocError>
    ensures { IfOk result (λ left. left.items ≡ left_calls (own_calls calls.now) node.now.made.items at.now) }
{
    let mut left = Vec::new(alloc);
    for client in 0..calls.len() {
        if let Some(call) = next_call(calls, node.made.as_slice(), client) {
            left.push(LeftCall {
                client,
                place: place_of(node.made.as_slice(), client),
                thread: call.thread,
                state: at.thread_state(call.thread),
            })?;
        }
    }
    Ok(left)
}

/// Whether a way to end stuck is known, by the calls that it leaves.
fn is_known_stuck(stuck: &[FoundStuck], left: &[LeftCall]) -> bool
    ensures { result ≡ list_any (λ s. pointwise ⟦<LeftCall as PartialEq>⟧.eq s.left.items left.now) stuck.now }
{
    stuck.iter().any(|s| s.left.as_slice() == left)
}

/// Notes an order that ends stuck, unless one that leaves the same calls is known.
fn note_stuck(
    stuck: &mut Vec<FoundStuck>,
    order: &Order,
    left: Vec<LeftCall>,
) -> Result<(), AllocError>
    ensures { OnOk result (stuck_of stuck.new.items ≡ with_first (same_stuck same_left) (stuck_of stuck.old.items) (stuck_end order.now left.items)) }
{
    if !is_known_stuck(stuck.as_slice(), left.as_slice()) {
        let order = order.share()?;
        stuck.push(FoundStuck { order, left })?;
    }
    Ok(())
}

/// Counts an order's end, where it ends, and a stuck one, by how many orders lead to its state.
fn count_end(found: &mut Findings, weight: u64, ends: bool, is_stuck: bool)
    ensures kept_answers { found.new.answers ≡ found.old.answers }
    ensures kept_stuck { found.new.stuck ≡ found.old.stuck }
    ensures ends { found.new.ends ≡ saturated (found.old.ends + cond ends 1 0) }
    ensures orders { found.new.orders ≡ saturated (found.old.orders + cond ends weight 0) }
    ensures stuck_orders { found.new.stuck_orders ≡ saturated (found.old.stuck_orders + cond is_stuck weight 0) }
{
    found.ends = found.ends.saturating_add(if ends { 1 } else { 0 });
    found.orders = found.orders.saturating_add(if ends { weight } else { 0 });
    found.stuck_orders = found
        .stuck_orders
        .saturating_add(if is_stuck { weight } else { 0 });
}

/// Notes how an order ends: at a node, with whether it ends there. `at` is the kernel of the node.
pub fn note_stuck_end<P: Profile, S: CapStore<P> + Drop, W: Waiters<P> + Drop>(
    alloc: Global,
    calls: &[Vec<Call>],
    at: &Kernel<P, S, W>,
    node: &Node,
    ends: bool,
    found: &mut Findings,
) -> Result<(), AllocError>
    ensures answers { OnOk result (found.new.answers ≡ found.old.answers) }
    ensures stuck { OnOk result (stuck_of found.new.stuck.items ≡ with_firsts (same_stuck same_left) (stuck_of found.old.stuck.items)
        (stuck_told ends node.now.order (left_calls (own_calls calls.now) node.now.made.items at.now))) }
    ensures ends { OnOk result (found.new.ends ≡ saturated (found.old.ends + cond ends 1 0)) }
    ensures orders { OnOk result (found.new.orders ≡ saturated (found.old.orders + cond ends node.now.weight 0)) }
    ensures stuck_orders { OnOk result (found.new.stuck_orders ≡ saturated (found.old.stuck_orders
        + cond (ends && nat_lt 0 (length (left_calls (own_calls calls.now) node.now.made.items at.now))) node.now.weight 0)) }
{
    let left = left_calls(alloc, calls, at, node)?;
    let is_stuck = ends && left.len() > 0;
    count_end(found, node.weight, ends, is_stuck);
    if is_stuck {
        note_stuck(&mut found.stuck, &node.order, left)?;
    }
    Ok(())
}
