//! The checks of a copy, a mint, a move and a mutate: the same for all four, but for the new capability.
#![tactic(auto, using(crate::proofs::Answering::answering_then))]

ghost use Rattle.std.specs.Prelude.{◌≡◌, ◌≤◌};
ghost use Rattle.cap_core.specs.Minting.{with_data};
ghost use Rattle.kernel_forest.specs.Entries.{cap_at};
ghost use Rattle.slot_core.specs.Places.{address_of};
ghost use Rattle.ipc_core.specs.Waits.{IsThreadAddress};
ghost use Rattle.kernel_abstract.specs.Reasons.{answering};
ghost use Rattle.kernel_abstract.specs.CNodes.{no_data, ensure_set, ensure_derivable, checked_placement};

use crate::failure::Failure;
use crate::lookup::{dest_slot, held, of_kind, slot_by_word, source_slot};
use cap_core::limits::MAX_MEMORY_BITS;
use cap_core::{Cap, Kind, Profile, Rights, mask, set_data};
use kernel_abstract::invocation::{CapPlacement, SlotArguments};
use kernel_abstract::reason::{Held, Reason, Word};
use slot_core::{CapStore, Slot};

/// What becomes of the capability in the source's slot: a type for each of the four operations. So the checks of each are
/// compiled for it alone, and inlined where it is decoded: for all four at once they are too large for a hint to count.
pub trait NewCap: Copy {
    ghost use Rattle.kernel_forest.specs.Entries.{cap_at};
    ghost use Rattle.slot_core.specs.Places.{address_of};
    ghost use Rattle.kernel_abstract.specs.Reasons.{answering};
    ghost use Rattle.kernel_abstract.specs.CNodes.{changed_cap};
    ghost use Rattle.kernel_abstract.specs.declared.invocation.Change.{Change};

    ghost asked: { Self → Change };

    /// The capability in the source's slot as it is after the change.
    fn changed<P: Profile, S: CapStore<P>, F: Failure>(
        self,
        store: &S,
        source: Slot,
    ) -> Result<Cap, F>
        ensures { result ≡ answering F.of (changed_cap P.profile (S.forest store.now) (address_of P.profile source) (asked self) (cap_at (S.forest store.now) (address_of P.profile source))) };
}

/// A copy with fewer rights.
#[derive(Clone, Copy)]
pub struct Copied(pub Rights);

/// A copy with fewer rights, and with its data set by a word.
#[derive(Clone, Copy)]
pub struct Minted(pub Rights, pub u64);

/// The same.
#[derive(Clone, Copy)]
pub struct Moved;

/// The same with its data set by a word.
#[derive(Clone, Copy)]
pub struct Mutated(pub u64);

impl NewCap for Copied {
    ghost use Rattle.kernel_abstract.specs.declared.invocation.Change.TheVariants.{Copy};

    ghost asked = { λ c. Copy c.0 };

    #[inline(always)]
    fn changed<P: Profile, S: CapStore<P>, F: Failure>(
        self,
        store: &S,
        source: Slot,
    ) -> Result<Cap, F> {
        derivable::<P, S, F>(store, source, mask(store.get(source), self.0))
    }
}

impl NewCap for Minted {
    ghost use Rattle.kernel_abstract.specs.declared.invocation.Change.TheVariants.{Mint};

    ghost asked = { λ c. Mint c.0 c.1 };

    #[inline(always)]
    fn changed<P: Profile, S: CapStore<P>, F: Failure>(
        self,
        store: &S,
        source: Slot,
    ) -> Result<Cap, F> {
        let Minted(rights, word) = self;
        let found = held::<P, S>(store, source);
        let masked = mask(found.cap, rights);
        let cap = with_word::<P, F>(Word::SourceIndex, false, word, masked, found)?;
        derivable::<P, S, F>(store, source, cap)
    }
}

impl NewCap for Moved {
    ghost use Rattle.kernel_abstract.specs.declared.invocation.Change.TheVariants.{Move};

    ghost asked = { λ c. Move };

    #[inline(always)]
    fn changed<P: Profile, S: CapStore<P>, F: Failure>(
        self,
        store: &S,
        source: Slot,
    ) -> Result<Cap, F> {
        Ok(store.get(source))
    }
}

impl NewCap for Mutated {
    ghost use Rattle.kernel_abstract.specs.declared.invocation.Change.TheVariants.{Mutate};

    ghost asked = { λ c. Mutate c.0 };

    #[inline(always)]
    fn changed<P: Profile, S: CapStore<P>, F: Failure>(
        self,
        store: &S,
        source: Slot,
    ) -> Result<Cap, F> {
        let found = held::<P, S>(store, source);
        with_word::<P, F>(Word::SourceIndex, true, self.0, found.cap, found)
    }
}

/// The placement that an operation on a CNode asks for, or the first check that fails: the invoked capability is a CNode's, the
/// extra word leads to a slot, the slot that is filled is found and empty, the source is found and full, and the new
/// capability may be made.
pub fn check_placement<P: Profile, S: CapStore<P>, F: Failure, N: NewCap>(
    store: &S,
    thread: u64,
    at: Slot,
    asked: SlotArguments,
    new: N,
) -> Result<CapPlacement, F>
    requires memory { S.memory_bits store.now ≤ MAX_MEMORY_BITS }
    requires thread { IsThreadAddress P.profile (S.memory_bits store.now) thread }
    ensures { result ≡ answering F.of (checked_placement P.profile (S.forest store.now) thread (address_of P.profile at) asked (N.asked new)) }
{
    let _node = of_kind::<F>(held::<P, S>(store, at), Kind::CNode)?;
    let root = slot_by_word::<P, S, F>(store, Word::SourceRoot, thread, asked.src_root)?;
    let slot = dest_slot::<P, S, F>(store, Word::Index, at, asked.index, asked.depth)?;
    let source = source_slot::<P, S, F>(
        store,
        Word::SourceIndex,
        root,
        asked.src_index,
        asked.src_depth,
    )?;
    let cap = new.changed::<P, S, F>(store, source)?;
    Ok(CapPlacement {
        source: source.address::<P>(),
        slot: slot.address::<P>(),
        cap,
    })
}

/// A capability with its data set by a word, where it has such data.
#[inline(always)]
pub fn with_word<P: Profile, F: Failure>(
    of: Word,
    preserve: bool,
    word: u64,
    cap: Cap,
    found: Held,
) -> Result<Cap, F>
    ensures { result ≡ answering F.of (ensure_set (no_data P.profile of word found.slot found.cap) (with_data P.profile preserve word cap)) }
{
    match set_data::<P>(preserve, word, cap) {
        Some(cap) => Ok(cap),
        None => Err(F::because(refused_data::<P>(of, word, found))),
    }
}

/// Why the data of a capability can't be set.
#[inline(always)]
fn refused_data<P: Profile>(of: Word, word: u64, found: Held) -> Reason
    ensures { result ≡ no_data P.profile of word found.slot found.cap }
{
    match found.cap {
        Cap::CNode { .. } => {
            let size = word % (1 << P::GUARD_SIZE_BITS);
            let most = P::WORD_BITS;
            Reason::LongGuard {
                word: of,
                node: found,
                size,
                most,
            }
        }
        _ => Reason::HasBadge(found),
    }
}

/// A capability that may be derived from the one in a slot: an untyped one where nothing was derived from it.
#[inline(always)]
fn derivable<P: Profile, S: CapStore<P>, F: Failure>(
    store: &S,
    source: Slot,
    cap: Cap,
) -> Result<Cap, F>
    ensures { result ≡ answering F.of (ensure_derivable (S.forest store.now) (address_of P.profile source) cap) }
{
    match cap {
        Cap::Untyped { .. } => match store.first_child(source) {
            None => Ok(cap),
            Some(child) => {
                let source = held::<P, S>(store, source);
                let child = child.address::<P>();
                Err(F::because(Reason::HasChildren { source, child }))
            }
        },
        _ => Ok(cap),
    }
}
