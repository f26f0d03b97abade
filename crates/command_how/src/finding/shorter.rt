//! Calls that were found, without those that are not needed.
ghost use Rattle.std.specs.Prelude.{ℕ};
ghost use Rattle.kernel_abstract.specs.Memory.{IsInMemory};

use cap_core::Profile;
use command_how_witness::{Asked, Happening, is_shown};
use ipc_core::MakeWaiters;
use kernel_core::{Call, Kernel};
use slot_core::{DerivationStore, MakeStore};
use std::alloc::{AllocError, Global};

/// How many of the last calls are always needed.
fn last_ones(what: Happening) -> usize {
    match what {
        Happening::Message => 1,
        Happening::Hold => 2,
        Happening::Loss => 3,
    }
}

/// Some calls without the one at a place.
fn without(alloc: Global, calls: &[Call], place: usize) -> Result<Vec<Call>, AllocError> {
    let mut rest = Vec::new(alloc);
    for (i, call) in calls.iter().enumerate() {
        if i != place {
            rest.push(*call)?;
        }
    }
    Ok(rest)
}

/// The calls without those that can be left out, from the last one on.
pub fn shortened<P: Profile, S: MakeStore<P> + DerivationStore<P>, W: MakeWaiters<P>>(
    alloc: Global,
    kernel: &Kernel<P, S, W>,
    asked: &Asked<'_>,
    found: Vec<Call>,
) -> Result<Vec<Call>, AllocError>
    requires { (memory : ℕ) × IsInMemory P.profile memory kernel.now }
{
    let mut calls = found;
    let before = calls.len().saturating_sub(last_ones(asked.what));
    for done in 0..before {
        let place = before.saturating_sub(1).saturating_sub(done);
        let fewer = without(alloc, calls.as_slice(), place)?;
        if is_shown::<P, S, W>(alloc, kernel, asked, fewer.as_slice())? {
            calls = fewer;
        }
    }
    Ok(calls)
}
