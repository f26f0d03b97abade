//! The calls that a group's clients have by themselves.
ghost use Rattle.std.specs.Prelude.{◌≡◌, IfOk, [], length, slice_get, take, unwrap_or};
ghost use Rattle.query_orders.specs.Groups.{is_client_in, calls_left_in, alone as alone_of};
ghost use Rattle.query_orders.specs.Nodes.{own_calls};

use crate::exploring::node::place_of;
use crate::groups::grouping::group_of;
use kernel_core::Call;
use std::alloc::{AllocError, Global};

/// Whether a client is of a group, which its first client tells.
pub fn is_in_group(groups: &[usize], group: usize, client: usize) -> bool
    ensures { result ≡ is_client_in groups.now group client }
{
    group_of(groups, client) == group
}

/// The first so many of some calls.
fn first_calls(alloc: Global, calls: &[Call], count: usize) -> Result<Vec<Call>, AllocError>
    ensures { IfOk result (λ first. first.items ≡ take count calls.now) }
{
    let end = count.min(calls.len());
    Vec::from_slice(alloc, &calls[..end])
}

/// A client's own calls.
fn calls_of(calls: &[Vec<Call>], client: usize) -> &[Call]
    ensures { result.now ≡ unwrap_or (slice_get (own_calls calls.entry.now) client) [] }
{
    let Some(own) = calls.get(client) else {
        return &[];
    };
    own.as_slice()
}

/// Of a client's calls those that are kept: all, where it is of the group, and else those that it has made.
fn kept_calls(
    alloc: Global,
    calls: &[Vec<Call>],
    made: &[usize],
    is_in: bool,
    client: usize,
) -> Result<Vec<Call>, AllocError>
    ensures { IfOk result (λ kept. kept.items ≡ calls_left_in made.now (λ client. is_in) client (unwrap_or (slice_get (own_calls calls.now) client) [])) }
{
    let own = calls_of(calls, client);
    if is_in {
        Vec::from_slice(alloc, own)
    } else {
        first_calls(alloc, own, place_of(made, client))
    }
}

/// The calls of a group's clients, and of the other clients those that they have made.
pub fn alone(
    alloc: Global,
    calls: &[Vec<Call>],
    made: &[usize],
    groups: &[usize],
    group: usize,
) -> Result<Vec<Vec<Call>>, AllocError>
    ensures { IfOk result (λ lone. own_calls lone.items ≡ alone_of (own_calls calls.now) made.now (is_client_in groups.now group)) }
{
    let mut lone = Vec::new(alloc);
    for client in 0..calls.len() {
        let is_in = is_in_group(groups, group, client);
        lone.push(kept_calls(alloc, calls, made, is_in, client)?)?;
    }
    Ok(lone)
}
