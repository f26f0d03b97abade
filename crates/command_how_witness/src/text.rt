//! The test of a text that is to be a witness: it is read again, and its calls are made.
ghost use Rattle.std.specs.Prelude.{◌≡◌, ◌≤◌, true, IfOk, length, option_copied};
ghost use Rattle.kernel_abstract.specs.Boot.{boot as boot_state};
ghost use Rattle.kernel_abstract.specs.Plan.{IsPlan};
ghost use Rattle.kernel_abstract.specs.State.{shown};
ghost use Rattle.command_how_witness.specs.Witness.{asking_of};
ghost use Rattle.command_how_witness.specs.Text as spec;

use crate::asked::Asked;
use crate::shown::is_shown;
use cap_core::Profile;
use ipc_core::MakeWaiters;
use kernel_core::{BootPlan, Call, Kernel, Reply};
use setup_format::{Setup, SetupFault, read_setup};
use setup_report::{Naming, ReplyText, expectations, kernel_after};
use slot_core::{DerivationStore, MakeStore};
use std::alloc::{AllocError, Global};

fn are_regions_alike(some: &[(u64, u32)], others: &[(u64, u32)]) -> bool
    ensures { result ≡ true → some.now ≡ others.now }
{
    some == others
}

fn are_calls_alike(some: &[Call], others: &[Call]) -> bool
    ensures { result ≡ true → some.now ≡ others.now }
{
    some == others
}

fn are_plans_alike(plan: &BootPlan, other: &BootPlan) -> bool
    ensures { result ≡ true → plan.now ≡ other.now }
{
    plan.memory_bits() == other.memory_bits()
        && plan.root_radix() == other.root_radix()
        && plan.threads() == other.threads()
        && plan.endpoints() == other.endpoints()
        && are_regions_alike(plan.untypeds(), other.untypeds())
}

/// The first calls of a set-up.
fn first_calls(setup: &Setup, made: usize) -> &[Call]
    requires { made ≤ length setup.now.calls }
    ensures { result.now ≡ spec.first_witness_calls made setup.entry.now }
{
    &setup.calls()[..made]
}

/// The calls of a set-up after its first ones.
fn later_calls(setup: &Setup, made: usize) -> &[Call]
    requires { made ≤ length setup.now.calls }
    ensures { result.now ≡ spec.later_calls made setup.entry.now }
{
    &setup.calls()[made..]
}

/// Whether a set-up has the machine, the boot and the first calls of another.
fn begins_as(setup: &Setup, other: &Setup, made: usize) -> bool
    requires { made ≤ length other.now.calls }
    ensures { result ≡ true → spec.BeginsAs setup.now other.now made }
{
    made <= setup.calls().len()
        && setup.profile() == other.profile()
        && are_plans_alike(setup.plan(), other.plan())
        && are_calls_alike(first_calls(setup, made), first_calls(other, made))
}

/// A kernel that is booted from a plan.
fn boot<P: Profile, S: MakeStore<P>, W: MakeWaiters<P>>(
    alloc: Global,
    plan: &BootPlan,
) -> Result<Kernel<P, S, W>, AllocError>
    requires { IsPlan P.profile plan.now }
    ensures { IfOk result (λ kernel. kernel ≡ shown (boot_state P.profile plan.now)) }
{
    Kernel::boot(alloc, plan)
}

/// The replies to the calls of a set-up.
fn replies_to<P: Profile, S: MakeStore<P>, W: MakeWaiters<P>>(
    alloc: Global,
    setup: &Setup,
) -> Result<Vec<Reply>, AllocError>
    requires { IsPlan P.profile setup.now.plan }
    ensures { IfOk result (λ replies. replies.items ≡ spec.witness_replies P.profile setup.now) }
{
    let mut kernel = boot::<P, S, W>(alloc, setup.plan())?;
    let calls = setup.calls();
    let mut replies = Vec::with_capacity(alloc, calls.len())?;
    kernel.run(calls, &mut replies);
    Ok(replies)
}

/// Whether a call after the first ones expects the whole text of its reply, or a first one expects nothing.
fn expects(
    alloc: Global,
    expected: Option<&str>,
    is_later: bool,
    reply: Reply,
) -> Result<bool, AllocError>
    ensures { IfOk result (λ is. is ≡ true → option_copied expected.entry ≡ spec.later_expectation is_later reply) }
{
    let Some(expected) = expected else {
        return Ok(!is_later);
    };
    let naming = &Naming::plain();
    let whole = ReplyText { naming, reply }.to_string(alloc)?;
    Ok(is_later && expected == whole.as_str())
}

/// Whether each call of a set-up after its first ones expects the whole text of its reply, and no other call expects anything.
fn expect_later(
    alloc: Global,
    setup: &Setup,
    made: usize,
    replies: &[Reply],
) -> Result<bool, AllocError>
    requires { length replies.now ≡ length setup.now.calls }
    ensures { IfOk result (λ is. is ≡ true → spec.ExpectLater made setup.now replies.now) }
{
    let count = setup.calls().len();
    for i in 0..count {
        if !expects(alloc, setup.expect(i), made <= i, replies[i])? {
            return Ok(false);
        }
    }
    Ok(true)
}

/// Whether the calls of a set-up expect what a witness expects after so many first calls, and all of it is met.
#[tactic(auto, using(crate::proofs::Runs::length_replies_to))]
fn are_met<P: Profile, S: MakeStore<P>, W: MakeWaiters<P>>(
    alloc: Global,
    setup: &Setup,
    made: usize,
) -> Result<bool, AllocError>
    requires { IsPlan P.profile setup.now.plan }
    ensures expects { IfOk result (λ are. are ≡ true → spec.ExpectLater made setup.now (spec.witness_replies P.profile setup.now)) }
    ensures met { IfOk result (λ are. are ≡ true → spec.AreMet P.profile setup.now) }
{
    let replies = replies_to::<P, S, W>(alloc, setup)?;
    if !expect_later(alloc, setup, made, replies.as_slice())? {
        return Ok(false);
    }
    let count = expectations(alloc, setup, replies.as_slice())?;
    Ok(count.met == count.expected)
}

/// Whether a set-up is a witness of what is asked of another.
fn is_witness<P: Profile, S: MakeStore<P> + DerivationStore<P>, W: MakeWaiters<P>>(
    alloc: Global,
    setup: &Setup,
    other: &Setup,
    made: usize,
    asked: &Asked<'_>,
) -> Result<bool, AllocError>
    requires plan { IsPlan P.profile other.now.plan }
    requires made { made ≤ length other.now.calls }
    ensures { IfOk result (λ is. is ≡ true → spec.IsWitness P.profile (asking_of asked.now) other.now made setup.now) }
{
    if !begins_as(setup, other, made) {
        return Ok(false);
    }
    let kernel = kernel_after::<P, S, W>(alloc, other, made)?;
    if !is_shown::<P, S, W>(alloc, &kernel, asked, later_calls(setup, made))? {
        return Ok(false);
    }
    are_met::<P, S, W>(alloc, setup, made)
}

/// Whether a text is read as a set-up that goes on where another stands after so many of its calls, and shows what is asked.
pub fn is_witness_text<P: Profile, S: MakeStore<P> + DerivationStore<P>, W: MakeWaiters<P>>(
    alloc: Global,
    text: &[u8],
    other: &Setup,
    made: usize,
    asked: &Asked<'_>,
) -> Result<bool, AllocError>
    requires plan { IsPlan P.profile other.now.plan }
    requires made { made ≤ length other.now.calls }
    ensures { IfOk result (λ is. is ≡ true → spec.IsWitnessText P.profile (asking_of asked.now) other.now made text.now) }
{
    match read_setup(alloc, text) {
        Ok(setup) => is_witness::<P, S, W>(alloc, &setup, other, made, asked),
        Err(SetupFault::Memory) => Err(AllocError),
        Err(_) => Ok(false),
    }
}
