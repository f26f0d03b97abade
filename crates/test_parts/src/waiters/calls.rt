//! Sends, receives and cancellations, in both forms and both profiles.
use crate::waiters::steps::{
    MEMORY_BITS, Step, are_all_met, are_met, receives, receives_from, sends,
};
use cap_core::{Narrow, Profile, Wide};
use ipc_core::{LinkedWaiters, MakeWaiters, Received, Role, RowWaiters, Sent};
use std::alloc::{AllocError, Global};
use std::test::Fail;

#[test]
fn a_send_meets_the_receiver(rt: HostRuntime) -> Result<(), Fail> {
    let steps = [
        receives(64, 4096),
        Step::Role(4096, Some(Role::Receiving(64))),
        Step::Waiting(64, 0, Some(4096)),
        Step::Waiting(64, 1, None),
        Step::Waiting(128, 0, None),
        Step::Send {
            endpoint: 128,
            thread: 0,
            badge: 5,
            block: false,
            answer: Sent::Dropped,
        },
        Step::Send {
            endpoint: 64,
            thread: 0,
            badge: 5,
            block: true,
            answer: Sent::Delivered { to: 4096 },
        },
        Step::Role(4096, None),
        Step::Role(0, None),
        Step::Waiting(64, 0, None),
    ];
    assert!(rt; are_met(rt.alloc(), &steps)?);
    Ok(())
}

#[test]
fn senders_are_served_in_order(rt: HostRuntime) -> Result<(), Fail> {
    let steps = [
        sends(64, 8192, 3),
        sends(64, 4096, 4),
        Step::Role(8192, Some(Role::Sending(64))),
        Step::Waiting(64, 0, Some(8192)),
        Step::Waiting(64, 1, Some(4096)),
        receives_from(64, 0, true, 8192, 3),
        receives_from(64, 0, false, 4096, 4),
        Step::Role(8192, None),
    ];
    assert!(rt; are_met(rt.alloc(), &steps)?);
    Ok(())
}

#[test]
fn calls_that_do_not_wait_leave_no_trace(rt: HostRuntime) -> Result<(), Fail> {
    let steps = [
        Step::Send {
            endpoint: 64,
            thread: 0,
            badge: 5,
            block: false,
            answer: Sent::Dropped,
        },
        Step::Role(0, None),
        Step::Receive {
            endpoint: 64,
            thread: 4096,
            block: false,
            answer: Received::Empty,
        },
        Step::Role(4096, None),
        Step::Waiting(64, 0, None),
    ];
    assert!(rt; are_met(rt.alloc(), &steps)?);
    Ok(())
}

#[test]
fn a_badge_is_cancelled(rt: HostRuntime) -> Result<(), Fail> {
    let steps = [
        sends(64, 2048, 5),
        sends(64, 4096, 6),
        sends(64, 6144, 5),
        sends(64, 8192, 6),
        Step::CancelBadge(64, 5),
        Step::Role(2048, None),
        Step::Role(6144, None),
        Step::Waiting(64, 0, Some(4096)),
        Step::Waiting(64, 1, Some(8192)),
        Step::Waiting(64, 2, None),
        receives_from(64, 0, true, 4096, 6),
        Step::Role(8192, Some(Role::Sending(64))),
    ];
    assert!(rt; are_met(rt.alloc(), &steps)?);
    Ok(())
}

#[test]
fn a_waiting_list_is_read_thread_by_thread(rt: HostRuntime) -> Result<(), Fail> {
    let steps = [
        receives(64, 2048),
        sends(128, 8192, 5),
        receives(64, 4096),
        sends(128, 6144, 6),
        Step::Behind(2048, Some(4096)),
        Step::Behind(8192, Some(6144)),
        Step::Behind(4096, None),
        Step::Behind(6144, None),
        Step::Behind(0, None),
        Step::CancelThread(4096),
        Step::Behind(2048, None),
        Step::Behind(4096, None),
    ];
    assert!(rt; are_met(rt.alloc(), &steps)?);
    Ok(())
}

#[test]
fn a_thread_is_cancelled(rt: HostRuntime) -> Result<(), Fail> {
    let steps = [
        receives(64, 2048),
        receives(64, 4096),
        receives(64, 6144),
        Step::CancelBadge(64, 0),
        Step::Waiting(64, 2, Some(6144)),
        Step::CancelThread(4096),
        Step::CancelThread(8192),
        Step::Role(4096, None),
        Step::Waiting(64, 0, Some(2048)),
        Step::Waiting(64, 1, Some(6144)),
        Step::Waiting(64, 2, None),
    ];
    assert!(rt; are_met(rt.alloc(), &steps)?);
    Ok(())
}

#[test]
fn an_endpoint_starts_empty_after_its_end(rt: HostRuntime) -> Result<(), Fail> {
    let steps = [
        sends(64, 2048, 5),
        sends(64, 4096, 6),
        receives(128, 10240),
        Step::CancelEndpoint(64),
        Step::Role(2048, None),
        Step::Role(4096, None),
        Step::Waiting(64, 0, None),
        Step::Role(10240, Some(Role::Receiving(128))),
        Step::Receive {
            endpoint: 64,
            thread: 2048,
            block: false,
            answer: Received::Empty,
        },
    ];
    assert!(rt; are_met(rt.alloc(), &steps)?);
    Ok(())
}

/// Two threads send, the waiting threads are copied, and then the endpoint is emptied in the first and changed in the
/// copy.
fn stand_apart<P: Profile, W: MakeWaiters<P>>(alloc: Global) -> Result<bool, AllocError> {
    let mut waiters = W::new(alloc, MEMORY_BITS)?;
    let before = [sends(64, 2048, 5), sends(64, 4096, 6)];
    if !are_all_met::<P, W>(&mut waiters, &before) {
        return Ok(false);
    }
    let mut copy = waiters.copy(alloc)?;
    let emptied = [Step::CancelEndpoint(64)];
    let changed = [
        Step::Waiting(64, 1, Some(4096)),
        Step::CancelThread(2048),
        Step::Waiting(64, 0, Some(4096)),
        receives(128, 2048),
    ];
    let free = [Step::Role(2048, None)];
    Ok(
        are_all_met::<P, W>(&mut waiters, &emptied)
            && are_all_met::<P, W>(&mut copy, &changed)
            && are_all_met::<P, W>(&mut waiters, &free),
    )
}

#[test]
fn copies_stand_apart(rt: HostRuntime) -> Result<(), Fail> {
    assert!(rt; stand_apart::<Wide, RowWaiters<Wide>>(rt.alloc())?);
    assert!(rt; stand_apart::<Narrow, RowWaiters<Narrow>>(rt.alloc())?);
    assert!(rt; stand_apart::<Wide, LinkedWaiters<Wide>>(rt.alloc())?);
    assert!(rt; stand_apart::<Narrow, LinkedWaiters<Narrow>>(rt.alloc())?);
    Ok(())
}
