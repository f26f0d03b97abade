//! A kernel that Rattle code drives: it is booted from a plan, asked by `run` and by `step`, and read. It runs over the
//! linked store, and over a store of this program's own.
//!
//! Two threads, at 2048 and 4096, share the endpoint at 6144, whose capability boot puts into slot 4 of the root CNode.
#![tactic(auto)]

ghost use Rattle.std.specs.Prelude.{◌≡◌, true, IfOk};
ghost use Rattle.cap_core.specs.declared.profile.ProfileName.TheVariants.{Wide as wide};
ghost use Rattle.kernel_abstract.specs.Plan.{IsPlan};
ghost use Rattle.kernel_abstract.specs.Boot.{boot};
ghost use Rattle.kernel_abstract.specs.State.{shown};
ghost use Rattle.kernel_abstract.specs.Step.{replies_of, state_after};

use calls::{mint_badge, receive, send_now};
use names::{
    BootPlan, Call, Kernel, LinkedStore, LinkedWaiters, MakeStore, MakeWaiters, Profile, Reply,
    Wide,
};
use own_store::OwnStore;
use std::alloc::{AllocError, Global};
use std::io;

mod calls;
mod names;
mod own_store;

/// A kernel with words of 64 bits, over the linked forms.
type LinkedKernel = Kernel<Wide, LinkedStore<Wide>, LinkedWaiters<Wide>>;

/// The same over a store of this program's own.
type OwnKernel = Kernel<Wide, OwnStore, LinkedWaiters<Wide>>;

const FIRST_THREAD: u64 = 2048;

const SECOND_THREAD: u64 = 4096;

const ENDPOINT: u64 = 6144;

/// The address of slot 8 of the root CNode.
const MINTED_SLOT: u64 = 256;

/// The kernel after boot and a list of calls, and the replies: those of the abstract kernel from its boot on, whichever
/// stores the kernel is made over.
fn run_from_boot<P: Profile, S: MakeStore<P>, W: MakeWaiters<P>>(
    alloc: Global,
    plan: &BootPlan,
    calls: &[Call],
) -> Result<(Kernel<P, S, W>, Vec<Reply>), AllocError>
    requires { IsPlan P.profile plan.now }
    ensures kernel { IfOk result (λ made. made.0 ≡ shown (state_after P.profile (boot P.profile plan.now) calls.now)) }
    ensures replies { IfOk result (λ made. made.1.items ≡ replies_of P.profile (boot P.profile plan.now) calls.now) }
{
    let mut kernel = Kernel::<P, S, W>::boot(alloc, plan)?;
    let mut replies = Vec::with_capacity(alloc, calls.len())?;
    kernel.run(calls, &mut replies);
    Ok((kernel, replies))
}

/// Makes one more call, and answers whether it is refused; then the kernel is as it was.
fn is_refused(kernel: &mut LinkedKernel, call: Call) -> bool
    ensures { result ≡ true → kernel.new ≡ kernel.old }
{
    match kernel.step(call) {
        Reply::Refused(_) => true,
        _ => false,
    }
}

/// Writes what a kernel shows of the two threads, the endpoint and the slot that was filled.
fn show(rt: &impl Print, kernel: &LinkedKernel) -> io::Result<()> {
    for thread in [FIRST_THREAD, SECOND_THREAD] {
        let state = kernel.thread_state(thread);
        let inbox = kernel.inbox(thread);
        println!(rt; "thread {thread}: {state:?}, inbox {inbox:?}")?;
    }
    let first = kernel.waiting(ENDPOINT, 0);
    println!(rt; "endpoint {ENDPOINT}: first in its queue {first:?}")?;
    let cap = kernel.cap_at(MINTED_SLOT);
    let children = kernel.has_children(MINTED_SLOT);
    println!(rt; "slot {MINTED_SLOT}: {cap:?}, children {children}")
}

/// Writes replies, makes two more calls, one at a time, and writes what they come to.
fn go_on(rt: &impl Print, kernel: &mut LinkedKernel, replies: &[Reply]) -> io::Result<()> {
    for reply in replies {
        println!(rt; "{reply:?}")?;
    }
    let refused = is_refused(kernel, receive(SECOND_THREAD, 8));
    println!(rt; "a receive by slot 8, which has the right Write alone, is refused: {refused}")?;
    let reply = kernel.step(receive(SECOND_THREAD, 4));
    println!(rt; "{reply:?}")?;
    show(rt, kernel)
}

/// Whether a kernel over this program's own store makes these replies.
fn replies_alike(
    alloc: Global,
    plan: &BootPlan,
    calls: &[Call],
    replies: &[Reply],
) -> Result<bool, AllocError>
    requires { IsPlan wide plan.now }
{
    let (_, own): (OwnKernel, Vec<Reply>) = run_from_boot(alloc, plan, calls)?;
    Ok(own.as_slice() == replies)
}

/// Runs calls from boot on over the linked store, goes on with two more, and answers the replies to the first.
fn run_linked(
    rt: &impl Print,
    alloc: Global,
    plan: &BootPlan,
    calls: &[Call],
) -> anyhow::Result<Vec<Reply>>
    requires { IsPlan wide plan.now }
{
    let (mut kernel, replies): (LinkedKernel, Vec<Reply>) = run_from_boot(alloc, plan, calls)?;
    go_on(rt, &mut kernel, &replies)?;
    Ok(replies)
}

/// Runs three calls from boot on, then two more, and the three again over this program's own store.
fn run(rt: &(impl Print + AllocGlobal)) -> anyhow::Result<()> {
    let alloc = rt.alloc();
    let Ok(plan) = BootPlan::new::<Wide>(16, 4, 2, 1, Vec::new(alloc)) else {
        println!(rt; "the layout does not fit")?;
        return Ok(());
    };
    let calls = [
        mint_badge(FIRST_THREAD, 4, 8, 100),
        receive(SECOND_THREAD, 4),
        send_now(FIRST_THREAD, 8, 7),
    ];
    let replies = run_linked(rt, alloc, &plan, &calls)?;
    let are_same = replies_alike(alloc, &plan, &calls, &replies)?;
    println!(rt; "a kernel over a store of the program's own replies the same: {are_same}")?;
    Ok(())
}

fn main(rt: HostRuntime) -> anyhow::Result<()> {
    run(&rt)
}
