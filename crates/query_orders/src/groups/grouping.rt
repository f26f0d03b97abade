//! Which clients form a group: those that share objects, and those that share objects with these, and so on.
ghost use Rattle.std.specs.Prelude.{◌≡◌, ◌<◌, ◌≤◌, ◌+◌, ℕ, Bool, true, IfOk, length, map};
ghost use Rattle.kernel_abstract.specs.State.{shown};
ghost use Rattle.query_orders.specs.Groups.{group_of_client, AreGroups};
ghost use Rattle.query_orders.specs.Nodes.{own_calls};
ghost use Rattle.query_orders.specs.Orders.{numbers_below};
ghost use Rattle.query_orders.specs.World.{World};
ghost use Rattle.query_orders.specs.Private.Grouping.{object_lists, touch_alike, regrouped, AreGrouped};

use crate::WaitingCall;
use crate::groups::clients::{capabilities_may_change, objects_of_clients, share};
use crate::groups::objects::CallObject;
use cap_core::Profile;
use ipc_core::Waiters;
use kernel_core::{Call, Kernel};
use slot_core::CapStore;
use std::alloc::{AllocError, Global};

/// The group of a client, which is told by its first client.
pub fn group_of(groups: &[usize], client: usize) -> usize
    ensures { result ≡ group_of_client groups.now client }
{
    groups.get(client).copied().unwrap_or(client)
}

/// Each client in a group of its own.
fn single(alloc: Global, clients: usize) -> Result<Vec<usize>, AllocError>
    ensures { IfOk result (λ groups. groups.items ≡ numbers_below clients) }
{
    let mut groups = Vec::new(alloc);
    for client in 0..clients {
        groups.push(client)?;
    }
    Ok(groups)
}

/// The group that takes another's place, where it has one.
fn regrouped_one(group: usize, from: usize, to: usize) -> usize
    ensures { result ≡ regrouped from to group }
{
    if group == from { to } else { group }
}

/// Puts all clients of one group into another.
fn regroup(groups: &mut [usize], from: usize, to: usize)
    ensures { groups.new ≡ map (regrouped from to) groups.old }
{
    for group in groups.iter_mut() {
        *group = regrouped_one(*group, from, to);
    }
}

/// Makes the groups of two clients one, which is told by the earlier of both.
fn join(groups: &mut [usize], a: usize, b: usize)
    ensures { (together : ℕ → ℕ → Bool) → a < length groups.old → b < length groups.old → together a b ≡ true → AreGrouped together a b groups.old → AreGrouped together a (b + 1) groups.new }
{
    let one = group_of(groups, a);
    let other = group_of(groups, b);
    if one < other {
        regroup(groups, other, one);
    } else {
        regroup(groups, one, other);
    }
}

/// Whether two clients touch one object, or capabilities may change.
fn are_together(may_change: bool, objects: &[Vec<CallObject>], a: usize, b: usize) -> bool
    requires a { a < length objects.now }
    requires b { b < length objects.now }
    ensures { result ≡ touch_alike may_change (object_lists objects.now) a b }
{
    may_change || share(objects[a].as_slice(), objects[b].as_slice())
}

/// Joins a client's group with those of all clients that touch what it does.
fn join_client(groups: &mut [usize], may_change: bool, objects: &[Vec<CallObject>], a: usize)
    requires length { length groups.old ≡ length objects.now }
    requires a { a < length objects.now }
    ensures { AreGrouped (touch_alike may_change (object_lists objects.now)) a 0 groups.old → AreGrouped (touch_alike may_change (object_lists objects.now)) (a + 1) 0 groups.new }
{
    for b in 0..objects.len() {
        if are_together(may_change, objects, a, b) {
            join(groups, a, b);
        }
    }
}

/// Joins the groups of all clients that touch the same.
fn join_all(groups: &mut [usize], may_change: bool, objects: &[Vec<CallObject>])
    requires { length groups.old ≡ length objects.now }
    ensures { AreGrouped (touch_alike may_change (object_lists objects.now)) 0 0 groups.old → AreGrouped (touch_alike may_change (object_lists objects.now)) (length objects.now) 0 groups.new }
{
    for a in 0..objects.len() {
        join_client(groups, may_change, objects, a);
    }
}

/// The group of each client, by its first client: the finest groups in which clients that touch one object are together, by
/// the calls that they have left and by those that wait. Where some call that is left may change a capability, there is one
/// group.
pub fn groups_of<P: Profile, S: CapStore<P> + Drop, W: Waiters<P> + Drop>(
    alloc: Global,
    calls: &[Vec<Call>],
    kernel: &Kernel<P, S, W>,
    made: &[usize],
    waits: &[WaitingCall],
) -> Result<Vec<usize>, AllocError>
    ensures { IfOk result (λ groups. (w : World) → made.now ≡ w.made → waits.now ≡ w.waits → kernel.now ≡ shown w.kernel
        → AreGroups P.profile (own_calls calls.now) w groups.items) }
{
    let may_change = capabilities_may_change(calls, made);
    let objects = objects_of_clients(alloc, calls, kernel, made, waits)?;
    let mut groups = single(alloc, calls.len())?;
    join_all(groups.as_mut_slice(), may_change, objects.as_slice());
    Ok(groups)
}
