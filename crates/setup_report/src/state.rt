//! What is said about a state, read once from the kernel.
ghost use Rattle.std.specs.Prelude.{◌≡◌, ◌==◌, ℕ, IfOk, map};
ghost use Rattle.std.specs.List.{IsDistinct};
ghost use Rattle.slot_core.specs.Calls.{derivation_view};
ghost use Rattle.setup_report.specs.State as spec;
ghost use Rattle.setup_report.specs.Private.Rows.{slot_address};

use crate::live::{NamedObject, named, selfheld};
use cap_core::Profile;
use ipc_core::Waiters;
use kernel_core::Kernel;
use slot_core::{Derivation, DerivationStore};
use std::alloc::{AllocError, Global};
use std::collections::BTreeSet;

/// What a state's capabilities say, each kind by rising address. What a thread does, what was delivered to it, and who
/// waits on an endpoint is asked of the kernel.
#[derive(Drop)]
pub struct StateRows {
    /// The live threads.
    pub threads: BTreeSet<u64>,
    /// The live endpoints.
    pub endpoints: BTreeSet<u64>,
    /// The full slots, each with the slot that it is derived from.
    pub slots: Vec<Derivation>,
    /// The CNodes that only slots of their own name.
    pub selfheld: Vec<u64>,
}

/// Puts full slots in the order of their addresses. A retype's slots come the last one first: turned round, most of them are
/// in order before the sort, which then moves fewer.
fn sort_by_address<P: Profile>(slots: &mut [Derivation])
    requires apart { IsDistinct (λ (a b : ℕ). a == b) (map (slot_address P.profile) slots.old) }
    ensures { map (derivation_view P.profile) slots.new ≡ spec.by_address (map (derivation_view P.profile) slots.old) }
{
    slots.reverse();
    slots.sort_unstable_by_key(|derivation| derivation.slot.address::<P>());
}

/// The rows of a kernel's state.
pub fn state_rows<P: Profile, S: DerivationStore<P> + Drop, W: Waiters<P> + Drop>(
    alloc: Global,
    kernel: &Kernel<P, S, W>,
) -> Result<StateRows, AllocError>
    ensures threads { IfOk result (λ r. r.threads.keys ≡ spec.threads P.profile kernel.now) }
    ensures endpoints { IfOk result (λ r. r.endpoints.keys ≡ spec.endpoints P.profile kernel.now) }
    ensures slots { IfOk result (λ r. map (derivation_view P.profile) r.slots.items ≡ spec.slot_rows kernel.now) }
    ensures selfheld { IfOk result (λ r. r.selfheld.items ≡ spec.selfheld P.profile kernel.now) }
{
    let mut slots = kernel.derivations(alloc)?;
    let threads = named::<P>(alloc, NamedObject::Thread, slots.as_slice())?;
    let endpoints = named::<P>(alloc, NamedObject::Endpoint, slots.as_slice())?;
    let selfheld = selfheld::<P>(alloc, slots.as_slice())?;
    sort_by_address::<P>(slots.as_mut_slice());
    Ok(StateRows {
        threads,
        endpoints,
        slots,
        selfheld,
    })
}
