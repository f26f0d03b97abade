//! Rounds of calls of a kernel over the linked forms, to be measured.
use crate::machine::{LinkedKernel, StepsMachine};
use crate::rounds::{booted, is_accepted, round_of};
use kernel_core::Call;
use std::alloc::Global;

/// Boots a kernel and goes through so many rounds, each of which undoes what it makes; whether every call of every round was
/// accepted.
#[unsafe(no_mangle)]
pub extern "C" fn kernel_cycle_run(alloc: Global, rounds: u16) -> bool {
    match booted(alloc) {
        Some(mut kernel) => run(&mut kernel, rounds),
        None => false,
    }
}

fn run(kernel: &mut LinkedKernel<StepsMachine>, rounds: u16) -> bool {
    let mut all = true;
    for round in 0..rounds {
        all = accepts_all(kernel, &round_of(round)) && all;
    }
    all
}

fn accepts_all(kernel: &mut LinkedKernel<StepsMachine>, calls: &[Call]) -> bool {
    let mut all = true;
    for call in calls {
        all = is_accepted(kernel.step(*call)) && all;
    }
    all
}
