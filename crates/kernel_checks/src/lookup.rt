//! The slots and capabilities that the words of a call name.
#![tactic(auto, using(crate::proofs::Answering::answering_then))]

ghost use Rattle.std.specs.Prelude.{◌≡◌, ◌≤◌, ◌⊎◌};
ghost use Rattle.cap_core.specs.declared.capability.Cap.TheVariants.{Null};
ghost use Rattle.cap_core.specs.Objects.{IsLawful};
ghost use Rattle.kernel_forest.specs.Entries.{cap_at};
ghost use Rattle.slot_core.specs.Places.{address_of};
ghost use Rattle.ipc_core.specs.Waits.{IsThreadAddress};
ghost use Rattle.kernel_abstract.specs.Reasons.{answering, held_at};
ghost use Rattle.kernel_abstract.specs.Lookups.{slot_by_word as slot_by_word_of, slot_by_index as slot_by_index_of, of_kind as of_kind_in, ensure_empty, ensure_full};
ghost use Rattle.kernel_checks.specs.Seen.{slot_seen};

use crate::failure::Failure;
use cap_core::limits::MAX_MEMORY_BITS;
use cap_core::{Cap, Kind, Profile};
use cspace_core::{resolve, target};
use kernel_abstract::reason::{Held, Reason, Word};
use slot_core::{CapStore, Slot};

/// A slot with what it holds.
#[inline(always)]
pub fn held<P: Profile, S: CapStore<P>>(store: &S, slot: Slot) -> Held
    ensures value { result ≡ held_at (cap_at (S.forest store.now)) (address_of P.profile slot) }
    ensures lawful { (result.cap ≡ Null) ⊎ IsLawful P.profile (S.memory_bits store.now) result.cap }
{
    Held {
        slot: slot.address::<P>(),
        cap: store.get(slot),
    }
}

/// The slot that a word names in a thread's capability space, whose root is in the slot at the thread's own address. All the
/// word's bits are looked up, and bits left over are ignored.
#[inline(always)]
pub fn slot_by_word<P: Profile, S: CapStore<P>, F: Failure>(
    store: &S,
    word: Word,
    thread: u64,
    number: u64,
) -> Result<Slot, F>
    requires memory { S.memory_bits store.now ≤ MAX_MEMORY_BITS }
    requires thread { IsThreadAddress P.profile (S.memory_bits store.now) thread }
    ensures { slot_seen P.profile result ≡ answering F.of (slot_by_word_of P.profile (S.forest store.now) word thread number) }
{
    let root = Slot::of_node::<P>(thread, 0);
    match resolve::<P, S>(store, store.get(root), number, P::WORD_BITS) {
        Ok((slot, _)) => Ok(slot),
        Err(fault) => Err(F::no_word::<P, S>(store, word, root, number, fault)),
    }
}

/// The slot that an operation names by an index and a depth from the slot `root` on.
#[inline(always)]
pub fn slot_by_index<P: Profile, S: CapStore<P>, F: Failure>(
    store: &S,
    word: Word,
    root: Slot,
    index: u64,
    depth: u64,
) -> Result<Slot, F>
    ensures { slot_seen P.profile result ≡ answering F.of (slot_by_index_of P.profile (cap_at (S.forest store.now)) word (address_of P.profile root) index depth) }
{
    match target::<P, S>(store, store.get(root), index, depth) {
        Ok(slot) => Ok(slot),
        Err(refusal) => Err(F::no_slot::<P, S>(store, word, root, index, depth, refusal)),
    }
}

/// The invoked capability, where it is of the kind that the operation asks for.
#[inline(always)]
pub fn of_kind<F: Failure>(held: Held, kind: Kind) -> Result<Cap, F>
    ensures { result ≡ answering F.of (of_kind_in kind held) }
{
    let is_wanted = match held.cap {
        Cap::Null => {
            let slot = held.slot;
            return Err(F::because(Reason::NoCapability { slot, wanted: kind }));
        }
        Cap::Untyped { .. } => kind == Kind::Untyped,
        Cap::Endpoint { .. } => kind == Kind::Endpoint,
        Cap::CNode { .. } => kind == Kind::CNode,
        Cap::Tcb { .. } => kind == Kind::Tcb,
    };
    if is_wanted {
        Ok(held.cap)
    } else {
        let found = held;
        Err(F::because(Reason::OtherKind {
            found,
            wanted: kind,
        }))
    }
}

/// The empty slot that an operation names by an index and a depth from the slot `root` on.
#[inline(always)]
pub fn dest_slot<P: Profile, S: CapStore<P>, F: Failure>(
    store: &S,
    word: Word,
    root: Slot,
    index: u64,
    depth: u64,
) -> Result<Slot, F>
    ensures { slot_seen P.profile result ≡ answering F.of (ensure_empty (S.forest store.now) (slot_by_index_of P.profile (cap_at (S.forest store.now)) word (address_of P.profile root) index depth)) }
{
    let slot = slot_by_index::<P, S, F>(store, word, root, index, depth)?;
    let found = held::<P, S>(store, slot);
    match found.cap {
        Cap::Null => Ok(slot),
        _ => Err(F::because(Reason::IsFull(found))),
    }
}

/// The full slot that an operation names by an index and a depth from the slot `root` on.
#[inline(always)]
pub fn source_slot<P: Profile, S: CapStore<P>, F: Failure>(
    store: &S,
    word: Word,
    root: Slot,
    index: u64,
    depth: u64,
) -> Result<Slot, F>
    ensures { slot_seen P.profile result ≡ answering F.of (ensure_full (S.forest store.now) (slot_by_index_of P.profile (cap_at (S.forest store.now)) word (address_of P.profile root) index depth)) }
{
    let slot = slot_by_index::<P, S, F>(store, word, root, index, depth)?;
    match store.get(slot) {
        Cap::Null => {
            let slot = slot.address::<P>();
            Err(F::because(Reason::IsEmpty { slot }))
        }
        _ => Ok(slot),
    }
}
