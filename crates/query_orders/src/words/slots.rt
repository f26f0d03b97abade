//! The words of the full slots, with the objects that their capabilities name.
ghost use Rattle.std.specs.Prelude.{◌≡◌, ◌++◌, IfOk, OnOk, map};
ghost use Rattle.slot_core.specs.Calls.{derivation_view};
ghost use Rattle.query_orders.specs.Words as spec;

use crate::words::parts::{add_cap, add_inbox, add_parent, add_state};
use crate::words::waits::add_endpoint;
use cap_core::{Cap, Profile};
use ipc_core::Waiters;
use kernel_core::Kernel;
use slot_core::{CapStore, Derivation, DerivationStore};
use std::alloc::{AllocError, Global};

/// What the object does that a capability names.
fn add_object<P: Profile, S: CapStore<P> + Drop, W: Waiters<P> + Drop>(
    alloc: Global,
    words: &mut Vec<u64>,
    cap: Cap,
    kernel: &Kernel<P, S, W>,
) -> Result<(), AllocError>
    ensures { OnOk result (words.new.items ≡ words.old.items ++ spec.object_words kernel.now cap) }
{
    match cap {
        Cap::Endpoint { base, .. } => add_endpoint::<P, S, W>(alloc, words, base, kernel),
        Cap::Tcb { base } => {
            add_state(words, kernel.thread_state(base))?;
            add_inbox(words, kernel.inbox(base))
        }
        Cap::Null | Cap::Untyped { .. } | Cap::CNode { .. } => Ok(()),
    }
}

/// A full slot, the slot that it is derived from, its capability, and the object that this names.
fn add_slot<P: Profile, S: CapStore<P> + Drop, W: Waiters<P> + Drop>(
    alloc: Global,
    words: &mut Vec<u64>,
    derivation: &Derivation,
    kernel: &Kernel<P, S, W>,
) -> Result<(), AllocError>
    ensures { OnOk result (words.new.items ≡ words.old.items
        ++ spec.slot_words kernel.now (derivation_view P.profile derivation.now)) }
{
    let parent = match derivation.parent {
        Some(parent) => Some(parent.address::<P>()),
        None => None,
    };
    words.push(derivation.slot.address::<P>())?;
    words.push(if derivation.original { 1 } else { 0 })?;
    add_parent(words, parent)?;
    add_cap(words, derivation.cap)?;
    add_object::<P, S, W>(alloc, words, derivation.cap, kernel)
}

/// Full slots, each before those that are derived from it.
pub fn add_slots<P: Profile, S: CapStore<P> + Drop, W: Waiters<P> + Drop>(
    alloc: Global,
    words: &mut Vec<u64>,
    list: &[Derivation],
    kernel: &Kernel<P, S, W>,
) -> Result<(), AllocError>
    ensures { OnOk result (words.new.items ≡ words.old.items
        ++ spec.listed (spec.slot_words kernel.now) (map (derivation_view P.profile) list.now)) }
{
    let mut rest = list;
    while let Some((derivation, later)) = rest.split_first() {
        words.push(1)?;
        add_slot::<P, S, W>(alloc, words, derivation, kernel)?;
        rest = later;
    }
    words.push(0)?;
    Ok(())
}

/// The words of what a kernel shows.
pub fn words_of<P: Profile, S: DerivationStore<P> + Drop, W: Waiters<P> + Drop>(
    alloc: Global,
    kernel: &Kernel<P, S, W>,
) -> Result<Vec<u64>, AllocError>
    ensures { IfOk result (λ words. words.items ≡ spec.shown_words kernel.now) }
{
    let derivations = kernel.derivations(alloc)?;
    let mut words = Vec::new(alloc);
    add_slots::<P, S, W>(alloc, &mut words, derivations.as_slice(), kernel)?;
    Ok(words)
}
