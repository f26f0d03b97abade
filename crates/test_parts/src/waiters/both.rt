//! Thousands of calls through both forms.
ghost use Rattle.std.specs.Prelude.{◌≡◌};

use crate::waiters::steps::{MEMORY_BITS, message};
use cap_core::{Badge, Wide};
use ipc_core::{LinkedWaiters, MakeWaiters, RowWaiters, Waiters};
use std::test::Fail;

const CALLS: u32 = 4000;

/// The same send through both, if the thread may make it: whether both answer the same.
fn send_both<A: Waiters<Wide>, B: Waiters<Wide>>(a: &mut A, b: &mut B, drawn: u64) -> bool
    requires a { A.memory_bits a.old ≡ MEMORY_BITS }
    requires b { B.memory_bits b.old ≡ MEMORY_BITS }
    ensures a { A.memory_bits a.new ≡ MEMORY_BITS }
    ensures b { B.memory_bits b.new ≡ MEMORY_BITS }
{
    let thread = (drawn >> 8) % 8 * 2048;
    let endpoint = (drawn >> 16) % 3 * 16;
    let badge = Badge((drawn >> 24) % 3);
    let block = (drawn >> 32) % 4 != 0;
    if a.role(thread).is_some() || b.role(thread).is_some() {
        return true;
    }
    let first = a.send(endpoint, thread, badge, message(drawn), block);
    let second = b.send(endpoint, thread, badge, message(drawn), block);
    first == second
}

/// The same receive through both, if the thread may make it: whether both answer the same.
fn receive_both<A: Waiters<Wide>, B: Waiters<Wide>>(a: &mut A, b: &mut B, drawn: u64) -> bool
    requires a { A.memory_bits a.old ≡ MEMORY_BITS }
    requires b { B.memory_bits b.old ≡ MEMORY_BITS }
    ensures a { A.memory_bits a.new ≡ MEMORY_BITS }
    ensures b { B.memory_bits b.new ≡ MEMORY_BITS }
{
    let thread = (drawn >> 8) % 8 * 2048;
    let endpoint = (drawn >> 16) % 3 * 16;
    let block = (drawn >> 32) % 4 != 0;
    if a.role(thread).is_some() || b.role(thread).is_some() {
        return true;
    }
    let first = a.recv(endpoint, thread, block);
    let second = b.recv(endpoint, thread, block);
    first == second
}

/// The same cancellation through both: of a thread, of a badge or of an endpoint.
fn cancel_both<A: Waiters<Wide>, B: Waiters<Wide>>(a: &mut A, b: &mut B, drawn: u64)
    requires a { A.memory_bits a.old ≡ MEMORY_BITS }
    requires b { B.memory_bits b.old ≡ MEMORY_BITS }
    ensures a { A.memory_bits a.new ≡ MEMORY_BITS }
    ensures b { B.memory_bits b.new ≡ MEMORY_BITS }
{
    let thread = (drawn >> 8) % 8 * 2048;
    let endpoint = (drawn >> 16) % 3 * 16;
    let badge = Badge((drawn >> 24) % 3);
    match drawn % 16 {
        11..=12 => {
            a.cancel_thread(thread);
            b.cancel_thread(thread);
        },
        13..=14 => {
            a.cancel_badge(endpoint, badge);
            b.cancel_badge(endpoint, badge);
        },
        _ => {
            a.cancel_endpoint(endpoint);
            b.cancel_endpoint(endpoint);
        },
    }
}

/// Makes the call that a number names on both: whether both answer the same.
fn call_both<A: Waiters<Wide>, B: Waiters<Wide>>(a: &mut A, b: &mut B, drawn: u64) -> bool
    requires a { A.memory_bits a.old ≡ MEMORY_BITS }
    requires b { B.memory_bits b.old ≡ MEMORY_BITS }
    ensures a { A.memory_bits a.new ≡ MEMORY_BITS }
    ensures b { B.memory_bits b.new ≡ MEMORY_BITS }
{
    match drawn % 16 {
        0..=5 => send_both(a, b, drawn),
        6..=10 => receive_both(a, b, drawn),
        _ => {
            cancel_both(a, b, drawn);
            true
        },
    }
}

/// Whether the same threads wait on an endpoint, in the same places.
fn wait_the_same<A: Waiters<Wide>, B: Waiters<Wide>>(a: &A, b: &B, place: u64) -> bool
    requires a { A.memory_bits a.now ≡ MEMORY_BITS }
    requires b { B.memory_bits b.now ≡ MEMORY_BITS }
{
    a.waiting(0, place) == b.waiting(0, place)
        && a.waiting(16, place) == b.waiting(16, place)
        && a.waiting(32, place) == b.waiting(32, place)
}

/// Whether both show who waits where, and how, the same.
fn show_the_same<A: Waiters<Wide>, B: Waiters<Wide>>(a: &A, b: &B) -> bool
    requires a { A.memory_bits a.now ≡ MEMORY_BITS }
    requires b { B.memory_bits b.now ≡ MEMORY_BITS }
{
    for k in 0..8u64 {
        let thread = k * 2048;
        if a.role(thread) != b.role(thread) || a.next_waiting(thread) != b.next_waiting(thread) {
            return false;
        }
        if !wait_the_same(a, b, k) {
            return false;
        }
    }
    true
}

#[test]
fn both_forms_show_the_same(rt: HostRuntime) -> Result<(), Fail> {
    let mut rows = <RowWaiters<Wide> as MakeWaiters<Wide>>::new(rt.alloc(), MEMORY_BITS)?;
    let mut queues = <LinkedWaiters<Wide> as MakeWaiters<Wide>>::new(rt.alloc(), MEMORY_BITS)?;
    let mut drawn = 20_241_122u64;
    for _ in 0..CALLS {
        drawn = drawn
            .wrapping_mul(6_364_136_223_846_793_005)
            .wrapping_add(1_442_695_040_888_963_407);
        assert!(rt; call_both(&mut rows, &mut queues, drawn >> 16));
        assert!(rt; show_the_same(&rows, &queues));
    }
    Ok(())
}
