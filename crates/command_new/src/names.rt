//! Whether a new set-up has the names that are promised.
ghost use Rattle.std.specs.Prelude.{◌≡◌, ◌↔◌, IsTrue, IfOk};
ghost use Rattle.kernel_abstract.specs.Plan.{IsPlan, IsWithinLimits};
ghost use Rattle.setup_values.specs.Names.{names_view};
ghost use Rattle.command_new.specs.New.{AreNames};
ghost use Rattle.command_new.specs.Private.{NameSlots, NameThreads};

use cap_core::Profile;
use kernel_boot::BootPlan;
use setup_values::{KnownNames, Name};
use std::alloc::{AllocError, Global};

/// The slot of the first thread's capability: slot 0 is empty, and slot 1 holds the root CNode.
pub(crate) const FIRST_THREAD_SLOT: u32 = 2;

/// Whether a name stands for the address of each thread.
fn name_threads<P: Profile>(
    alloc: Global,
    known: &KnownNames<'_>,
    plan: &BootPlan,
) -> Result<bool, AllocError>
    requires { IsWithinLimits P.profile plan.now }
    ensures { IfOk result (λ is. IsTrue is ↔ NameThreads P.profile plan.now (names_view known.now)) }
{
    for thread in 0..plan.threads() {
        let name = format!(in alloc; "thread_{thread}")?;
        let address = plan.tcb_place::<P>(thread);
        if known.word_of(name.as_bytes()) != Some(address) {
            return Ok(false);
        }
    }
    Ok(true)
}

/// Whether names of a prefix and a number stand for so many slots, from one on.
fn name_slots(
    alloc: Global,
    known: &KnownNames<'_>,
    prefix: &str,
    first: u32,
    count: u32,
) -> Result<bool, AllocError>
    ensures { IfOk result (λ is. IsTrue is ↔ NameSlots (names_view known.now) prefix.now first count) }
{
    for number in 0..count {
        let name = format!(in alloc; "{prefix}{number}")?;
        let slot = u64::from(first) + u64::from(number);
        if known.word_of(name.as_bytes()) != Some(slot) {
            return Ok(false);
        }
    }
    Ok(true)
}

/// Whether the names of a set-up are those that are promised, and no others.
pub(crate) fn are_names<P: Profile>(
    alloc: Global,
    names: &[Name],
    known: &KnownNames<'_>,
    plan: &BootPlan,
) -> Result<bool, AllocError>
    requires plan { IsPlan P.profile plan.now }
    requires known { known.now ≡ names.now }
    ensures { IfOk result (λ is. IsTrue is ↔ AreNames P.profile plan.now (names_view names.now)) }
{
    let threads = plan.threads();
    let endpoints = plan.endpoints();
    let untypeds = plan.untypeds().len();
    if names.len() != 2 * threads as usize + endpoints as usize + untypeds {
        return Ok(false);
    }
    let first_endpoint = FIRST_THREAD_SLOT + threads;
    let first_untyped = first_endpoint + endpoints;
    let has_threads = name_threads::<P>(alloc, known, plan)?;
    let has_tcbs = name_slots(alloc, known, "tcb_", FIRST_THREAD_SLOT, threads)?;
    let has_endpoints = name_slots(alloc, known, "ep_", first_endpoint, endpoints)?;
    let has_untypeds = name_slots(alloc, known, "untyped_", first_untyped, untypeds as u32)?;
    Ok(has_threads && has_tcbs && has_endpoints && has_untypeds)
}
