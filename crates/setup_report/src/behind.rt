//! The kernel of a set-up after its first calls.
ghost use Rattle.std.specs.Prelude.{◌≡◌, ◌≤◌, IfOk, ℕ, count_by, length, map, take};
ghost use Rattle.kernel_abstract.specs.Memory.{IsInMemory};
ghost use Rattle.kernel_abstract.specs.Plan.{IsPlan};
ghost use Rattle.kernel_abstract.specs.State.{shown};
ghost use Rattle.setup_report.specs.Behind as spec;

use cap_core::Profile;
use ipc_core::MakeWaiters;
use kernel_core::{Call, Kernel, Reply};
use setup_format::Setup;
use slot_core::MakeStore;
use std::alloc::{AllocError, Global};

/// The first calls of a set-up.
fn first_calls(setup: &Setup, count: usize) -> &[Call]
    requires { count ≤ length setup.now.calls }
    ensures calls { result.now ≡ take count (map (λ c. c.call) setup.entry.now.calls) }
    ensures len { length result.now ≡ count }
{
    &setup.calls()[..count]
}

/// The kernel of a set-up after its first calls, and what these were answered.
pub fn run_first<P: Profile, S: MakeStore<P>, W: MakeWaiters<P>>(
    alloc: Global,
    setup: &Setup,
    count: usize,
) -> Result<(Kernel<P, S, W>, Vec<Reply>), AllocError>
    requires plan { IsPlan P.profile setup.now.plan }
    requires count { count ≤ length setup.now.calls }
    ensures shows { IfOk result (λ r. r.0 ≡ shown (spec.state_behind P.profile setup.now count)) }
    ensures replies { IfOk result (λ r. r.1.items ≡ spec.replies_behind P.profile setup.now count) }
    ensures within { IfOk result (λ r. (memory : ℕ) × IsInMemory P.profile memory r.0) }
{
    let mut kernel = Kernel::<P, S, W>::boot(alloc, setup.plan())?;
    let mut replies = Vec::with_capacity(alloc, count)?;
    kernel.run(first_calls(setup, count), &mut replies);
    Ok((kernel, replies))
}

/// The kernel of a set-up after its first calls.
pub fn kernel_after<P: Profile, S: MakeStore<P>, W: MakeWaiters<P>>(
    alloc: Global,
    setup: &Setup,
    count: usize,
) -> Result<Kernel<P, S, W>, AllocError>
    requires plan { IsPlan P.profile setup.now.plan }
    requires count { count ≤ length setup.now.calls }
    ensures shows { IfOk result (λ kernel. kernel ≡ shown (spec.state_behind P.profile setup.now count)) }
    ensures within { IfOk result (λ kernel. (memory : ℕ) × IsInMemory P.profile memory kernel) }
{
    let (kernel, _replies) = run_first::<P, S, W>(alloc, setup, count)?;
    Ok(kernel)
}

fn is_refused(reply: &Reply) -> bool
    ensures { result ≡ spec.is_refused_reply reply.now }
{
    matches!(reply, Reply::Refused(_))
}

/// How many calls are refused.
pub fn count_refused(replies: &[Reply]) -> usize
    ensures { result ≡ count_by spec.is_refused_reply replies.now }
{
    let mut count = 0;
    for reply in replies {
        if is_refused(reply) {
            count += 1;
        }
    }
    count
}

/// How many calls are asked for, if the set-up has them: all of them, if no number is given. `None` if it has fewer.
pub fn calls_made(setup: &Setup, after: Option<u64>) -> Option<usize>
    ensures { result ≡ spec.calls_made setup.now after }
{
    let calls = setup.calls().len();
    match after {
        None => Some(calls),
        Some(count) if count <= calls as u64 => Some(count as usize),
        Some(_) => None,
    }
}
