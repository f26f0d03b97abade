//! The report of a run of the stored set-up.
ghost use Rattle.cap_core.specs.declared.profile.ProfileName.TheVariants as Name;
ghost use Rattle.kernel_abstract.specs.Plan.{IsPlan};

use crate::outcome::Outcome;
use crate::stored::{REPORT, SETUP};
use cap_core::{ProfileName, Wide};
use ipc_core::MakeWaiters;
use kernel_core::Kernel;
use setup_format::{Setup, read_setup};
use setup_report::report;
use slot_core::{DerivationStore, MakeStore};
use std::alloc::{AllocError, Global};

/// How the report of a set-up ends, which is made once more if it was out of memory.
///
/// # Errors
///
/// The run, which comes before it, was out of memory.
fn report_outcome<S: MakeStore<Wide> + DerivationStore<Wide>, W: MakeWaiters<Wide>>(
    alloc: Global,
    setup: &Setup,
) -> Result<Outcome, AllocError>
    requires { IsPlan Name.Wide setup.now.plan }
{
    let calls = setup.calls();
    let mut replies = Vec::with_capacity(alloc, calls.len())?;
    let mut kernel = Kernel::<Wide, S, W>::boot(alloc, setup.plan())?;
    kernel.run(calls, &mut replies);
    if replies.len() != calls.len() {
        return Ok(Outcome::Wrong);
    }
    for outcome in [Outcome::Done, Outcome::DoneAgain] {
        if let Ok(text) = report(alloc, setup, replies.as_slice(), &kernel) {
            let is_right = text.as_slice() == REPORT;
            return Ok(if is_right { outcome } else { Outcome::Wrong });
        }
    }
    Ok(Outcome::Wrong)
}

/// How the report of the stored set-up ends. One request alone is refused, so that a second reading and a second run have
/// what they ask for.
pub fn stored_outcome<S: MakeStore<Wide> + DerivationStore<Wide>, W: MakeWaiters<Wide>>(
    alloc: Global,
) -> Outcome {
    for _ in 0..2 {
        let Ok(setup) = read_setup(alloc, SETUP) else {
            continue;
        };
        if setup.profile() != ProfileName::Wide {
            return Outcome::Wrong;
        }
        if let Ok(outcome) = report_outcome::<S, W>(alloc, &setup) {
            return outcome;
        }
    }
    Outcome::Wrong
}
