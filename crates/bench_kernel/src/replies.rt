//! Rounds of calls of a kernel over the linked forms, with the replies kept, to be measured.
use crate::machine::{LinkedKernel, RepliesMachine};
use crate::rounds::{CALLS, booted, is_accepted, round_of};
use kernel_core::Reply;
use std::alloc::Global;

/// Boots a kernel and goes through so many rounds, each of which undoes what it makes, the replies to each round's calls kept
/// until the next one; whether every call of every round was accepted.
#[unsafe(no_mangle)]
pub extern "C" fn kernel_replies_run(alloc: Global, rounds: u16) -> bool {
    match (booted(alloc), Vec::with_capacity(alloc, CALLS)) {
        (Some(mut kernel), Ok(mut replies)) => run(&mut kernel, &mut replies, rounds),
        _ => false,
    }
}

fn run(kernel: &mut LinkedKernel<RepliesMachine>, replies: &mut Vec<Reply>, rounds: u16) -> bool {
    let mut all = true;
    for round in 0..rounds {
        replies.clear();
        if replies.capacity() < CALLS {
            return false;
        }
        kernel.run(&round_of(round), replies);
        all = replies.iter().all(|reply| is_accepted(*reply)) && all;
    }
    all
}
