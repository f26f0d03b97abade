//! How orders end.
ghost use Rattle.std.specs.Prelude.{◌≡◌, ◌-◌, [], OnOk, cond, length, map, not, slice_get, unwrap_or};
ghost use Rattle.std.specs.List.{flat_map, list_any};
ghost use Rattle.kernel_lists.specs.Firsts.{with_firsts};
ghost use Rattle.query_orders.specs.World.{next_client_call as next_call_of, can_be_made};
ghost use Rattle.query_orders.specs.Orders.{numbers_below};
ghost use Rattle.query_orders.specs.Answers.{answered, same_answer, numbers_from};
ghost use Rattle.query_orders.specs.Nodes.{own_calls};
ghost use Rattle.query_orders.specs.Found.{answers_of, not_made_told, end_told};

use crate::Answer;
use crate::exploring::answers::{note_answer, note_waits};
use crate::exploring::found::FoundAnswers;
use crate::exploring::node::{Node, callable, place_of};
use crate::exploring::order::Order;
use cap_core::Profile;
use ipc_core::Waiters;
use kernel_core::{Call, Kernel};
use slot_core::CapStore;
use std::alloc::AllocError;

/// Whether an order ends where a node stands, whose kernel is `at`: no client can make a call.
pub fn is_end<P: Profile, S: CapStore<P> + Drop, W: Waiters<P> + Drop>(
    calls: &[Vec<Call>],
    at: &Kernel<P, S, W>,
    node: &Node,
) -> bool
    ensures { result ≡ not (list_any (λ client. can_be_made at.now (next_call_of (own_calls calls.now) node.now.made.items client)) (numbers_below (length calls.now))) }
{
    let mut any = false;
    for client in 0..calls.len() {
        if callable(calls, at, node, client).is_some() {
            any = true;
        }
    }
    !any
}

/// Notes that the calls of a client at the places from `first` to `end` are not made in an order that ends.
fn note_not_made(
    found: &mut FoundAnswers,
    order: &Order,
    client: usize,
    first: usize,
    end: usize,
) -> Result<(), AllocError>
    ensures { OnOk result (answers_of found.new ≡ with_firsts (same_answer ⟦<Answer as PartialEq>⟧.eq)
        (answers_of found.old) (map (λ place. answered order.now client place Answer.NotMade) (numbers_from first (end - first)))) }
{
    for place in first..end {
        note_answer(found, order, client, place, Answer::NotMade)?;
    }
    Ok(())
}

/// How many calls a client has.
fn count_of(calls: &[Vec<Call>], client: usize) -> usize
    ensures { result ≡ length (unwrap_or (slice_get (own_calls calls.now) client) []) }
{
    match calls.get(client) {
        Some(own) => own.len(),
        None => 0,
    }
}

/// Notes what the calls come to that wait, or are left, where an order ends: at a node, with whether it ends there.
pub fn note_end(
    calls: &[Vec<Call>],
    node: &Node,
    ends: bool,
    found: &mut FoundAnswers,
) -> Result<(), AllocError>
    ensures { OnOk result (answers_of found.new ≡ with_firsts (same_answer ⟦<Answer as PartialEq>⟧.eq) (answers_of found.old)
        (cond ends (end_told (own_calls calls.now) (length calls.now) node.now.made.items node.now.waits.items node.now.order) [])) }
{
    if ends {
        note_waits(found, node.waits.as_slice(), &node.order)?;
        note_left(calls, node, found)?;
    }
    Ok(())
}

/// Notes the calls of all clients that are not made in an order that ends.
fn note_left(calls: &[Vec<Call>], node: &Node, found: &mut FoundAnswers) -> Result<(), AllocError>
    ensures { OnOk result (answers_of found.new ≡ with_firsts (same_answer ⟦<Answer as PartialEq>⟧.eq) (answers_of found.old)
        (flat_map (not_made_told (own_calls calls.now) node.now.made.items node.now.order) (numbers_below (length calls.now)))) }
{
    for client in 0..calls.len() {
        let first = place_of(node.made.as_slice(), client);
        let end = count_of(calls, client);
        note_not_made(found, &node.order, client, first, end)?;
    }
    Ok(())
}
