//! The checks of the setting of a thread's space, of a suspend and of a resume.
#![tactic(auto, using(crate::proofs::Answering::answering_then))]

ghost use Rattle.std.specs.Prelude.{◌≡◌, ◌≤◌};
ghost use Rattle.slot_core.specs.Places.{address_of};
ghost use Rattle.ipc_core.specs.Waits.{IsThreadAddress};
ghost use Rattle.kernel_abstract.specs.Reasons.{answering};
ghost use Rattle.kernel_abstract.specs.Threads.{checked_tcb, space_cap, checked_space};

use crate::cnodes::with_word;
use crate::failure::Failure;
use crate::lookup::{held, slot_by_word};
use cap_core::limits::MAX_MEMORY_BITS;
use cap_core::{Cap, Kind, Profile};
use kernel_abstract::invocation::NewSpace;
use kernel_abstract::reason::{Held, Reason, Word};
use slot_core::{CapStore, Slot};

/// The address of the thread control block that a capability names.
#[inline(always)]
pub fn check_tcb<F: Failure>(found: Held) -> Result<u64, F>
    ensures { result ≡ answering F.of (checked_tcb found.slot found.cap) }
{
    let wanted = Kind::Tcb;
    match found.cap {
        Cap::Tcb { base } => Ok(base),
        Cap::Null => {
            let slot = found.slot;
            Err(F::because(Reason::NoCapability { slot, wanted }))
        }
        _ => Err(F::because(Reason::OtherKind { found, wanted })),
    }
}

/// A thread's new space, or the first check that fails: the invoked capability is a thread's, the extra word leads to
/// a slot, which holds a CNode's capability, and the guard can be set. Nothing is cleared before all of them pass.
#[inline(always)]
pub fn check_space<P: Profile, S: CapStore<P>, F: Failure>(
    store: &S,
    thread: u64,
    at: Slot,
    root: u64,
    word: u64,
) -> Result<NewSpace, F>
    requires memory { S.memory_bits store.now ≤ MAX_MEMORY_BITS }
    requires thread { IsThreadAddress P.profile (S.memory_bits store.now) thread }
    ensures { result ≡ answering F.of (checked_space P.profile (S.forest store.now) thread (address_of P.profile at) root word) }
{
    let tcb = check_tcb::<F>(held::<P, S>(store, at))?;
    let source = slot_by_word::<P, S, F>(store, Word::Root, thread, root)?;
    let cap = space_capability::<P, F>(held::<P, S>(store, source), word)?;
    Ok(NewSpace {
        tcb,
        invoked: at.address::<P>(),
        source: source.address::<P>(),
        cap,
    })
}

/// A CNode's capability, with the guard that a word holds where it is not 0.
#[inline(always)]
fn space_capability<P: Profile, F: Failure>(found: Held, word: u64) -> Result<Cap, F>
    ensures { result ≡ answering F.of (space_cap P.profile word found.slot found.cap) }
{
    match found.cap {
        Cap::CNode { .. } => {
            if word == 0 {
                Ok(found.cap)
            } else {
                with_word::<P, F>(Word::Root, false, word, found.cap, found)
            }
        }
        _ => Err(F::because(Reason::NoSpace(found))),
    }
}
