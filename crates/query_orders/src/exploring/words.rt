//! A state as words.
ghost use Rattle.std.specs.Prelude.{◌≡◌, ◌++◌, ◌∷◌, [], ℕ, IfOk, OnOk};
ghost use Rattle.kernel_abstract.specs.State.{shown};
ghost use Rattle.query_orders.specs.Words.{listed};
ghost use Rattle.query_orders.specs.World.{World};
ghost use Rattle.query_orders.specs.Nodes.{own_calls, wait_words};
ghost use Rattle.query_orders.specs.Private.Shared.{AreShared, slots_told};

use crate::WaitingCall;
use crate::groups::capabilities_may_change;
use crate::words::add_slots;
use cap_core::Profile;
use ipc_core::Waiters;
use kernel_core::{Call, Kernel};
use slot_core::{Derivation, DerivationStore};
use std::alloc::{AllocError, Global};

/// The full slots of the kernel where all orders begin, if no call may change one: then the kernels of all states have them.
pub type SharedSlots = Option<Vec<Derivation>>;

/// The full slots that all states have, by the kernel where the orders begin.
pub fn shared_slots<P: Profile, S: DerivationStore<P> + Drop, W: Waiters<P> + Drop>(
    alloc: Global,
    calls: &[Vec<Call>],
    kernel: &Kernel<P, S, W>,
) -> Result<SharedSlots, AllocError>
    ensures { IfOk result (λ shared. (w : World) → kernel.now ≡ shown w.kernel → AreShared P.profile (own_calls calls.now) w shared) }
{
    if capabilities_may_change(calls, &[]) {
        return Ok(None);
    }
    let slots = kernel.derivations(alloc)?;
    Ok(Some(slots))
}

fn add_made(words: &mut Vec<u64>, made: &[usize]) -> Result<(), AllocError>
    ensures { OnOk result (words.new.items ≡ words.old.items ++ listed (λ (n : ℕ). n ∷ []) made.now) }
{
    let mut rest = made;
    while let Some((count, later)) = rest.split_first() {
        words.push(1)?;
        words.push(*count as u64)?;
        rest = later;
    }
    words.push(0)?;
    Ok(())
}

fn add_waits(words: &mut Vec<u64>, waits: &[WaitingCall]) -> Result<(), AllocError>
    ensures { OnOk result (words.new.items ≡ words.old.items ++ listed wait_words waits.now) }
{
    let mut rest = waits;
    while let Some((call, later)) = rest.split_first() {
        words.push(1)?;
        words.push(call.thread)?;
        words.push(call.client as u64)?;
        words.push(call.place as u64)?;
        rest = later;
    }
    words.push(0)?;
    Ok(())
}

/// What the kernel shows. Its full slots are found, unless all states have the same.
fn add_shown<P: Profile, S: DerivationStore<P> + Drop, W: Waiters<P> + Drop>(
    alloc: Global,
    words: &mut Vec<u64>,
    shared: &SharedSlots,
    kernel: &Kernel<P, S, W>,
) -> Result<(), AllocError>
    ensures { OnOk result (words.new.items ≡ words.old.items ++ slots_told P.profile shared.now kernel.now) }
{
    match shared {
        Some(slots) => add_slots::<P, S, W>(alloc, words, slots.as_slice(), kernel),
        None => {
            let slots = kernel.derivations(alloc)?;
            add_slots::<P, S, W>(alloc, words, slots.as_slice(), kernel)
        }
    }
}

/// How many calls each client has made, which calls wait, and what the kernel shows, as words. They are made in `room`, whatever
/// is there, and copied once: so the memory that they take does not grow by steps for each state.
pub fn state_words<P: Profile, S: DerivationStore<P> + Drop, W: Waiters<P> + Drop>(
    alloc: Global,
    made: &[usize],
    waits: &[WaitingCall],
    shared: &SharedSlots,
    kernel: &Kernel<P, S, W>,
    room: &mut Vec<u64>,
) -> Result<Vec<u64>, AllocError>
    ensures { IfOk result (λ words. words.items ≡ listed (λ (n : ℕ). n ∷ []) made.now
        ++ (listed wait_words waits.now ++ slots_told P.profile shared.now kernel.now)) }
{
    room.clear();
    add_made(room, made)?;
    add_waits(room, waits)?;
    add_shown::<P, S, W>(alloc, room, shared, kernel)?;
    Vec::from_slice(alloc, room.as_slice())
}
