//! What clients touch by the calls that they have left, and by those that wait.
ghost use Rattle.std.specs.Prelude.{◌≡◌, ◌++◌, ◌==◌, ℕ, IfOk, OnOk, List, drop, filter, length, map, not};
ghost use Rattle.std.specs.List.{flat_map, list_any};
ghost use Rattle.kernel_abstract.specs.declared.call.Call.{Call as CallOf};
ghost use Rattle.query_orders.specs.declared.answer.WaitingCall.{WaitingCall as WaitingCallOf};
ghost use Rattle.query_orders.specs.Groups.{keeps_capabilities as op_keeps_capabilities, object_of as object_of_thread, objects_of_call, calls_left as calls_left_of, is_same_object as are_same, share as share_one, capabilities_may_change as may_change_by};
ghost use Rattle.query_orders.specs.Nodes.{own_calls};
ghost use Rattle.query_orders.specs.Orders.{numbers_below};
ghost use Rattle.query_orders.specs.Private.Grouping.{objects_by, object_lists};

use crate::WaitingCall;
use crate::exploring::node::place_of;
use crate::groups::objects::{
    CallObject, keeps_capabilities, note_call_objects, object_of, same_object,
};
use cap_core::Profile;
use ipc_core::Waiters;
use kernel_core::{Call, Kernel};
use slot_core::CapStore;
use std::alloc::{AllocError, Global};

/// The calls behind the first ones.
fn behind(calls: &[Call], made: usize) -> &[Call]
    ensures { result.now ≡ drop made calls.entry.now }
{
    let start = made.min(calls.len());
    &calls[start..]
}

/// The calls that a client has left.
fn calls_left<'a>(calls: &'a [Vec<Call>], made: &[usize], client: usize) -> &'a [Call]
    ensures { result.now ≡ calls_left_of (own_calls calls.entry.now) made.now client }
{
    let Some(own) = calls.get(client) else {
        return &[];
    };
    behind(own.as_slice(), place_of(made, client))
}

/// Whether some of the calls may change a capability.
fn some_may_change(calls: &[Call]) -> bool
    ensures { result ≡ list_any (λ (call : CallOf). not (op_keeps_capabilities call.op)) calls.now }
{
    for call in calls {
        if !keeps_capabilities(&call.op) {
            return true;
        }
    }
    false
}

/// Whether some call that is left may change a capability.
pub fn capabilities_may_change(calls: &[Vec<Call>], made: &[usize]) -> bool
    ensures { result ≡ may_change_by (own_calls calls.now) made.now }
{
    let mut any = false;
    for client in 0..calls.len() {
        if some_may_change(calls_left(calls, made, client)) {
            any = true;
        }
    }
    any
}

/// Notes what calls touch.
fn note_calls<P: Profile, S: CapStore<P> + Drop, W: Waiters<P> + Drop>(
    alloc: Global,
    kernel: &Kernel<P, S, W>,
    calls: &[Call],
    objects: &mut Vec<CallObject>,
) -> Result<(), AllocError>
    ensures { OnOk result (objects.new.items ≡ objects.old.items ++ flat_map (objects_of_call P.profile kernel.now) calls.now) }
{
    for call in calls {
        note_call_objects(alloc, kernel, call, objects)?;
    }
    Ok(())
}

/// Notes what a client's calls that wait touch.
fn note_waiting<P: Profile, S: CapStore<P> + Drop, W: Waiters<P> + Drop>(
    kernel: &Kernel<P, S, W>,
    waits: &[WaitingCall],
    client: usize,
    objects: &mut Vec<CallObject>,
) -> Result<(), AllocError>
    ensures { OnOk result (objects.new.items ≡ objects.old.items
        ++ map (λ (call : WaitingCallOf). object_of_thread kernel.now call.thread) (filter (λ (call : WaitingCallOf). call.client == client) waits.now)) }
{
    for call in waits {
        if call.client == client {
            objects.push(object_of(kernel, call.thread))?;
        }
    }
    Ok(())
}

/// What a client touches: by the calls that it has left, and by those that wait.
fn objects_of<P: Profile, S: CapStore<P> + Drop, W: Waiters<P> + Drop>(
    alloc: Global,
    calls: &[Vec<Call>],
    kernel: &Kernel<P, S, W>,
    made: &[usize],
    waits: &[WaitingCall],
    client: usize,
) -> Result<Vec<CallObject>, AllocError>
    ensures { IfOk result (λ objects. objects.items ≡ objects_by P.profile (own_calls calls.now) made.now waits.now kernel.now client) }
{
    let mut objects = Vec::new(alloc);
    note_calls(alloc, kernel, calls_left(calls, made, client), &mut objects)?;
    note_waiting(kernel, waits, client, &mut objects)?;
    Ok(objects)
}

/// What each client touches.
pub fn objects_of_clients<P: Profile, S: CapStore<P> + Drop, W: Waiters<P> + Drop>(
    alloc: Global,
    calls: &[Vec<Call>],
    kernel: &Kernel<P, S, W>,
    made: &[usize],
    waits: &[WaitingCall],
) -> Result<Vec<Vec<CallObject>>, AllocError>
    ensures { IfOk result (λ lists. object_lists lists.items ≡ map (objects_by P.profile (own_calls calls.now) made.now waits.now kernel.now) (numbers_below (length calls.now))) }
{
    let mut lists = Vec::new(alloc);
    for client in 0..calls.len() {
        lists.push(objects_of(alloc, calls, kernel, made, waits, client)?)?;
    }
    Ok(lists)
}

/// Whether an object is among others.
fn is_among(object: CallObject, others: &[CallObject]) -> bool
    ensures { result ≡ list_any (are_same object) others.now }
{
    for other in others {
        if same_object(object, *other) {
            return true;
        }
    }
    false
}

/// Whether two lists share an object.
pub fn share(objects: &[CallObject], others: &[CallObject]) -> bool
    ensures { result ≡ share_one objects.now others.now }
{
    for object in objects {
        if is_among(*object, others) {
            return true;
        }
    }
    false
}
