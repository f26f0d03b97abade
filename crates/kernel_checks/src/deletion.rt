//! The checks of a delete, of a revoke, and of a cancelling of badged sends.
#![tactic(auto, using(crate::proofs::Answering::answering_then))]

ghost use Rattle.std.specs.Prelude.{◌≡◌};
ghost use Rattle.slot_core.specs.Places.{address_of};
ghost use Rattle.kernel_abstract.specs.Reasons.{answering};
ghost use Rattle.kernel_abstract.specs.Deletion.{checked_slot, ensure_all_rights, checked_badge};
ghost use Rattle.kernel_checks.specs.Seen.{slot_seen};

use crate::failure::Failure;
use crate::lookup::{held, of_kind, slot_by_index};
use cap_core::{Cap, Kind, Profile, Rights};
use kernel_abstract::invocation::Service;
use kernel_abstract::reason::{Held, Reason, Word};
use slot_core::{CapStore, Slot};

/// The slot that is named by an index and a depth from the invoked CNode, full or empty.
#[inline(always)]
pub fn check_slot<P: Profile, S: CapStore<P>, F: Failure>(
    store: &S,
    at: Slot,
    index: u64,
    depth: u64,
) -> Result<Slot, F>
    ensures { slot_seen P.profile result ≡ answering F.of (checked_slot P.profile (S.forest store.now) (address_of P.profile at) index depth) }
{
    let _node = of_kind::<F>(held::<P, S>(store, at), Kind::CNode)?;
    slot_by_index::<P, S, F>(store, Word::Index, at, index, depth)
}

/// The endpoint and the badge of the capability in the slot that is named, where it has all rights.
#[inline(always)]
pub fn check_badge<P: Profile, S: CapStore<P>, F: Failure>(
    store: &S,
    at: Slot,
    index: u64,
    depth: u64,
) -> Result<Service, F>
    ensures { result ≡ answering F.of (checked_badge P.profile (S.forest store.now) (address_of P.profile at) index depth) }
{
    let slot = check_slot::<P, S, F>(store, at, index, depth)?;
    with_all_rights::<F>(held::<P, S>(store, slot))
}

/// The endpoint and the badge of an endpoint's capability with all rights.
#[inline(always)]
fn with_all_rights<F: Failure>(found: Held) -> Result<Service, F>
    ensures { result ≡ answering F.of (ensure_all_rights found.slot found.cap) }
{
    match found.cap {
        Cap::Endpoint {
            base,
            badge,
            rights,
        } => {
            if rights == Rights::ALL {
                Ok(Service {
                    endpoint: base,
                    badge,
                })
            } else {
                Err(F::because(Reason::NotAllRights(found)))
            }
        }
        _ => Err(F::because(Reason::NotAllRights(found))),
    }
}
