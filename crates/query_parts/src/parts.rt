//! The parts of a kernel: whether they are closed, and the least ones around some threads.
ghost use Rattle.std.specs.Prelude.{◌≡◌, true, false, IfOk, IfErr};
ghost use Rattle.std.specs.List.{list_all};
ghost use Rattle.slot_core.specs.Calls.{derivation_view};
ghost use Rattle.query_parts.specs.Listed.{entry_stands, are_closed_in};
ghost use Rattle.query_parts.specs.declared.parts.PartsFault.{PartsFault};
ghost use Rattle.query_parts.specs.Order.{AreInOrder, AreInParts};
ghost use Rattle.query_parts.specs.Order as order;
ghost use Rattle.query_parts.specs.Ever.{AreConfinedEver};
ghost use Rattle.query_parts.specs.Least.{AreLeast, AreLeastAround};

use crate::arranged::arranged;
use crate::least::least_parts;
use crate::listed::{PartMemory, PartUse, last_of, may_stand};
use cap_core::{Profile, Range};
use ipc_core::Waiters;
use kernel_core::Kernel;
use slot_core::{Derivation, DerivationStore};
use std::alloc::{AllocError, Global};

/// Parts: their memory, and the endpoints that they may use.
#[derive(Drop)]
pub struct Parts {
    pub memory: Vec<PartMemory>,
    pub uses: Vec<PartUse>,
}

fn stands<P: Profile>(memory: &[PartMemory], uses: &[PartUse], derivation: &Derivation) -> bool
    ensures { result ≡ entry_stands P.profile memory.now uses.now (derivation_view P.profile derivation.now).0 }
{
    let slot = derivation.slot.address::<P>();
    may_stand::<P>(memory, uses, slot, derivation.cap)
}

fn all_stand<P: Profile>(
    memory: &[PartMemory],
    uses: &[PartUse],
    derivations: &[Derivation],
) -> bool
    ensures { result ≡ list_all (λ d. entry_stands P.profile memory.now uses.now (derivation_view P.profile d).0) derivations.now }
{
    for derivation in derivations {
        if !stands::<P>(memory, uses, derivation) {
            return false;
        }
    }
    true
}

/// Whether each part that is given by stretches of memory, and by the endpoints that it may use, is closed: whether each
/// full slot in its memory holds a capability of its own objects, or of an endpoint that it may use.
///
/// If it is so, it stays so: for whatever calls the threads whose control blocks stand in these parts make, of whatever
/// operations and words, in whatever order. No capability to an object outside comes into a part, nor one with another
/// badge or more rights than its uses allow, and what its threads send and receive they may send and receive.
pub fn are_parts_closed<P: Profile, S: DerivationStore<P> + Drop, W: Waiters<P> + Drop>(
    alloc: Global,
    kernel: &Kernel<P, S, W>,
    memory: &[PartMemory],
    uses: &[PartUse],
) -> Result<bool, AllocError>
    ensures value { IfOk result (λ closed. closed ≡ are_closed_in P.profile memory.now uses.now kernel.now.derivations) }
    ensures ever { IfOk result (λ closed. closed ≡ true → AreConfinedEver P.profile memory.now uses.now kernel.now) }
{
    let derivations = kernel.derivations(alloc)?;
    Ok(all_stand::<P>(memory, uses, derivations.as_slice()))
}

/// Why no parts are given.
#[derive(Clone, Copy, Debug, PartialEq, Eq)]
pub enum PartsFault {
    /// Memory was refused.
    Memory,
    /// The control block of a thread would end past the last address.
    Block,
}

impl From<AllocError> for PartsFault {
    ghost use Rattle.query_parts.specs.declared.parts.PartsFault.TheVariants.{Memory};

    ghost from_gives = { λ _ fault. fault ≡ Memory };

    fn from(_: AllocError) -> PartsFault {
        PartsFault::Memory
    }
}

/// Whether each address of a thread's control block is a word.
fn is_addressed<P: Profile>(thread: u64) -> bool
    ensures { result ≡ order.is_addressed P.profile thread }
{
    let range = Range {
        first: thread,
        bits: P::TCB_BITS as u64,
    };
    last_of(range).is_some()
}

fn are_addressed<P: Profile>(threads: &[u64]) -> bool
    ensures { result ≡ list_all (order.is_addressed P.profile) threads.now }
{
    for thread in threads {
        if !is_addressed::<P>(*thread) {
            return false;
        }
    }
    true
}

/// The parts that are found around threads: the least ones, listed in order.
fn found_around<P: Profile, S: DerivationStore<P> + Drop, W: Waiters<P> + Drop>(
    alloc: Global,
    kernel: &Kernel<P, S, W>,
    threads: &[u64],
) -> Result<Parts, AllocError>
    requires { list_all (order.is_addressed P.profile) threads.now ≡ true }
    ensures around { IfOk result (λ parts. AreLeastAround P.profile threads.now kernel.now parts.memory.items parts.uses.items) }
    ensures order { IfOk result (λ parts. AreInOrder P.profile parts.memory.items parts.uses.items) }
{
    let derivations = kernel.derivations(alloc)?;
    let found = least_parts::<P>(alloc, derivations.as_slice(), threads)?;
    arranged::<P>(alloc, found)
}

/// Closed parts around threads that may still make calls: from their own control blocks on, what the slots of a part name
/// is taken in. They are listed in order: the stretches of memory rise, those of one part that touch are joined, the parts
/// have the numbers from 1 on by their first addresses, and no use is of an endpoint that its part owns, or says what
/// another use says.
///
/// They are confined ever (`ever`). They are the least such parts: each lies in a part of every closed family that has
/// these threads' control blocks, with all of its memory and all that it may use (`least`). So there are no others, but for
/// their numbers: `least_parts_are_the_same`.
///
/// # Errors
///
/// `Memory` if memory was refused; `Block` if the control block of one of the threads would end past the last address.
/// No live thread is such a thread: `live_threads_are_addressed`.
pub fn parts_around<P: Profile, S: DerivationStore<P> + Drop, W: Waiters<P> + Drop>(
    alloc: Global,
    kernel: &Kernel<P, S, W>,
    threads: &[u64],
) -> Result<Parts, PartsFault>
    ensures ever { IfOk result (λ parts. AreConfinedEver P.profile parts.memory.items parts.uses.items kernel.now) }
    ensures order { IfOk result (λ parts. AreInOrder P.profile parts.memory.items parts.uses.items) }
    ensures threads { IfOk result (λ parts. AreInParts P.profile parts.memory.items threads.now) }
    ensures least { IfOk result (λ parts. AreLeast P.profile threads.now parts.memory.items parts.uses.items kernel.now) }
    ensures fault { IfErr result (λ fault. fault ≡ PartsFault.Block → list_all (order.is_addressed P.profile) threads.now ≡ false) }
{
    if !are_addressed::<P>(threads) {
        return Err(PartsFault::Block);
    }
    Ok(found_around(alloc, kernel, threads)?)
}
