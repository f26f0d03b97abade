//! The full slots of a kernel, as the list in which its threads' capability spaces are searched.
ghost use Rattle.std.specs.Prelude.{ℕ, IfOk};
ghost use Rattle.kernel_abstract.specs.Memory.{IsInMemory};
ghost use Rattle.query_reach.specs.FullSlots.{AreFullSlots, AreLawful, AreRising};

use crate::{FullSlot, full_slots};
use cap_core::Profile;
use ipc_core::Waiters;
use kernel_core::Kernel;
use slot_core::DerivationStore;
use std::alloc::{AllocError, Global};

/// All full slots of a kernel, each with what it holds, in the order of their addresses: what `reached_slots` and
/// `held_slots` of `query_reach` are given, once for all threads.
pub fn kernel_slots<P: Profile, S: DerivationStore<P> + Drop, W: Waiters<P> + Drop>(
    alloc: Global,
    kernel: &Kernel<P, S, W>,
) -> Result<Vec<FullSlot>, AllocError>
    requires { (memory : ℕ) × IsInMemory P.profile memory kernel.now }
    ensures slots { IfOk result (λ filled. AreFullSlots kernel.now.derivations filled.items) }
    ensures lawful { IfOk result (λ filled. AreLawful P.profile filled.items) }
    ensures rising { IfOk result (λ filled. AreRising filled.items) }
{
    let derivations = kernel.derivations(alloc)?;
    let filled = full_slots::<P>(alloc, derivations.as_slice())?;
    Ok(filled)
}
