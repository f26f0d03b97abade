//! The boot plan of a new set-up.
ghost use Rattle.std.specs.Prelude.{◌≤◌, IfOk, MatchOption};
ghost use Rattle.kernel_abstract.specs.Plan.{Plan, IsPlan};
ghost use Rattle.command_new.specs.New.{Fits};
ghost use Rattle.command_new.specs.Private.{IsAskedWithin, NoneOfRadix, plan_in};

use crate::asked::NewSetup;
use cap_core::Profile;
use cap_core::limits::{MAX_MEMORY_BITS, MAX_ROOT_RADIX, MIN_MEMORY_BITS, MIN_ROOT_RADIX};
use kernel_boot::BootPlan;
use std::alloc::AllocError;

/// The bits of the memory of a new set-up, if its objects have room in it.
const USUAL_MEMORY_BITS: u32 = 16;

/// The plan of what is asked for, in a memory and with a root CNode of these sizes; none if it has a defect.
fn plan_of_sizes<P: Profile>(
    asked: &NewSetup,
    memory_bits: u32,
    root_radix: u32,
) -> Result<Option<BootPlan>, AllocError>
    requires within { IsAskedWithin P.profile asked.now }
    requires least_memory { MIN_MEMORY_BITS ≤ memory_bits }
    requires most_memory { memory_bits ≤ MAX_MEMORY_BITS }
    requires least_radix { MIN_ROOT_RADIX ≤ root_radix }
    requires most_radix { root_radix ≤ MAX_ROOT_RADIX }
    ensures { IfOk result (λ made. MatchOption made (¬ IsPlan P.profile (plan_in asked.now memory_bits root_radix)) (Fits P.profile asked.now)) }
{
    let untypeds = asked.untypeds.clone()?;
    let planned = BootPlan::new::<P>(
        memory_bits,
        root_radix,
        asked.threads,
        asked.endpoints,
        untypeds,
    );
    Ok(planned.ok())
}

/// The plan of what is asked for with a root CNode of that radix, in the least memory from `USUAL_MEMORY_BITS` on; none if
/// there is none. A smaller memory has room for no more.
fn plan_of_radix<P: Profile>(
    asked: &NewSetup,
    root_radix: u32,
) -> Result<Option<BootPlan>, AllocError>
    requires within { IsAskedWithin P.profile asked.now }
    requires least_radix { MIN_ROOT_RADIX ≤ root_radix }
    requires most_radix { root_radix ≤ MAX_ROOT_RADIX }
    ensures { IfOk result (λ made. MatchOption made (NoneOfRadix P.profile asked.now root_radix) (Fits P.profile asked.now)) }
{
    for memory_bits in USUAL_MEMORY_BITS..MAX_MEMORY_BITS + 1 {
        let plan = plan_of_sizes::<P>(asked, memory_bits, root_radix)?;
        if plan.is_some() {
            return Ok(plan);
        }
    }
    Ok(None)
}

/// The plan of what is asked for with a root CNode of the greatest radix with which there is one.
fn plan_of_some_radix<P: Profile>(asked: &NewSetup) -> Result<Option<BootPlan>, AllocError>
    requires { IsAskedWithin P.profile asked.now }
    ensures { IfOk result (λ made. MatchOption made ((plan : Plan) → ¬ Fits P.profile asked.now plan) (Fits P.profile asked.now)) }
{
    for root_radix in (MIN_ROOT_RADIX..MAX_ROOT_RADIX + 1).rev() {
        let plan = plan_of_radix::<P>(asked, root_radix)?;
        if plan.is_some() {
            return Ok(plan);
        }
    }
    Ok(None)
}

/// A plan of what is asked for: with a root CNode of the usual radix, if there is such a plan, and else of the greatest one;
/// none if no plan fits.
pub(crate) fn fitting_plan<P: Profile>(asked: &NewSetup) -> Result<Option<BootPlan>, AllocError>
    ensures { IfOk result (λ made. MatchOption made ((plan : Plan) → ¬ Fits P.profile asked.now plan) (Fits P.profile asked.now)) }
{
    if !asked.is_within_limits::<P>() {
        return Ok(None);
    }
    let plan = plan_of_radix::<P>(asked, asked.root_radix())?;
    if plan.is_some() {
        return Ok(plan);
    }
    plan_of_some_radix::<P>(asked)
}
