//! What calls come to.
ghost use Rattle.std.specs.Prelude.{◌≡◌, ◌==◌, ◌++◌, OnOk, map};
ghost use Rattle.kernel_lists.specs.Firsts.{with_first, with_firsts};
ghost use Rattle.query_orders.specs.Answers.{answered, same_answer, wait_ended, waits_ended, replied};
ghost use Rattle.query_orders.specs.declared.answer.WaitingCall.{WaitingCall as WaitingCallOf};
ghost use Rattle.query_orders.specs.Found.{answers_of};

use crate::exploring::found::{FoundAnswer, FoundAnswers};
use crate::exploring::order::Order;
use crate::exploring::waits::{is_wait, still_waits};
use crate::{Answer, WaitingCall};
use cap_core::Profile;
use ipc_core::Waiters;
use kernel_core::{Kernel, Reply};
use slot_core::CapStore;
use std::alloc::AllocError;

/// Notes what a call comes to in an order, unless it is known.
pub fn note_answer(
    found: &mut FoundAnswers,
    order: &Order,
    client: usize,
    place: usize,
    answer: Answer,
) -> Result<(), AllocError>
    ensures { OnOk result (answers_of found.new ≡ with_first (same_answer ⟦<Answer as PartialEq>⟧.eq)
        (answers_of found.old) (answered order.now client place answer)) }
{
    if !found.knows(client, place, answer) {
        let order = order.share()?;
        found.push(FoundAnswer {
            order,
            client,
            place,
            answer,
        })?;
    }
    Ok(())
}

/// What the wait of a thread came to that a call ended, by the call's reply.
fn wait_ended(reply: Reply, thread: u64) -> Answer
    ensures { result ≡ wait_ended reply thread }
{
    match reply {
        Reply::Delivered { from, to, .. } => {
            if from == thread || to == thread {
                Answer::Served(reply)
            } else {
                Answer::Cancelled
            }
        }
        Reply::Done | Reply::Waiting | Reply::Dropped | Reply::Empty | Reply::Refused(_) => {
            Answer::Cancelled
        }
    }
}

/// Notes what the waits came to that a call ended, by the kernel after it and its reply.
fn note_ended<P: Profile, S: CapStore<P> + Drop, W: Waiters<P> + Drop>(
    found: &mut FoundAnswers,
    kernel: &Kernel<P, S, W>,
    waits: &[WaitingCall],
    order: &Order,
    reply: Reply,
) -> Result<(), AllocError>
    ensures { OnOk result (answers_of found.new ≡ with_firsts (same_answer ⟦<Answer as PartialEq>⟧.eq)
        (answers_of found.old) (waits_ended order.now kernel.now waits.now reply)) }
{
    let mut rest = waits;
    while let Some((call, later)) = rest.split_first() {
        if !still_waits(kernel, call) {
            let answer = wait_ended(reply, call.thread);
            note_answer(found, order, call.client, call.place, answer)?;
        }
        rest = later;
    }
    Ok(())
}

/// Notes what a call itself is answered, unless it waits.
fn note_reply(
    found: &mut FoundAnswers,
    order: &Order,
    client: usize,
    place: usize,
    reply: Reply,
) -> Result<(), AllocError>
    ensures { OnOk result (answers_of found.new ≡ with_firsts (same_answer ⟦<Answer as PartialEq>⟧.eq)
        (answers_of found.old) (replied order.now client place reply)) }
{
    if !is_wait(reply) {
        note_answer(found, order, client, place, Answer::Replied(reply))?;
    }
    Ok(())
}

/// Notes what a client's call tells: its own answer, and what the waits came to that it ended. The kernel is that after it,
/// and the order ends with it.
pub fn note_outcome<P: Profile, S: CapStore<P> + Drop, W: Waiters<P> + Drop>(
    found: &mut FoundAnswers,
    kernel: &Kernel<P, S, W>,
    waits: &[WaitingCall],
    order: &Order,
    client: usize,
    place: usize,
    reply: Reply,
) -> Result<(), AllocError>
    ensures { OnOk result (answers_of found.new ≡ with_firsts (same_answer ⟦<Answer as PartialEq>⟧.eq)
        (answers_of found.old) (replied order.now client place reply ++ waits_ended order.now kernel.now waits.now reply)) }
{
    note_reply(found, order, client, place, reply)?;
    note_ended(found, kernel, waits, order, reply)
}

/// Notes that calls wait to the end of an order.
pub fn note_waits(
    found: &mut FoundAnswers,
    waits: &[WaitingCall],
    order: &Order,
) -> Result<(), AllocError>
    ensures { OnOk result (answers_of found.new ≡ with_firsts (same_answer ⟦<Answer as PartialEq>⟧.eq)
        (answers_of found.old) (map (λ (call : WaitingCallOf). answered order.now call.client call.place Answer.Waits) waits.now)) }
{
    let mut rest = waits;
    while let Some((call, later)) = rest.split_first() {
        note_answer(found, order, call.client, call.place, Answer::Waits)?;
        rest = later;
    }
    Ok(())
}
