//! What is answered where a check fails.
ghost use Rattle.std.specs.Prelude.{◌≡◌};

use crate::walk::{walk_index, walk_word};
use cap_core::{LookupFault, Profile, Refusal};
use kernel_abstract::reason::{Reason, Word};
use slot_core::{CapStore, Slot};

/// What is answered where a check fails: the refusal alone, or the reason for it.
pub trait Failure {
    ghost use Rattle.std.specs.Prelude.{Err};
    ghost use Rattle.cspace_core.specs.Target.{target_slot};
    ghost use Rattle.kernel_forest.specs.Entries.{cap_at};
    ghost use Rattle.slot_core.specs.Places.{address_of};
    ghost use Rattle.kernel_abstract.specs.declared.reason.Reason.{Reason};
    ghost use Rattle.kernel_abstract.specs.Reasons.{answering};
    ghost use Rattle.kernel_abstract.specs.Lookups.{slot_named, slot_by_word, slot_by_index};

    ghost of: { Reason → Self };

    fn because(reason: Reason) -> Self
        ensures { result ≡ of reason };

    /// For a word that leads to no slot of the capability space whose root is in the slot `root`.
    fn no_word<P: Profile, S: CapStore<P>>(
        store: &S,
        word: Word,
        root: Slot,
        number: u64,
        fault: LookupFault,
    ) -> Self
        requires { slot_named P.profile (S.forest store.now) (cap_at (S.forest store.now) (address_of P.profile root)) number ≡ Err fault }
        ensures { Err result ≡ answering of (slot_by_word P.profile (S.forest store.now) word (address_of P.profile root) number) };

    /// For an index that names no slot at its depth from the slot `root` on.
    fn no_slot<P: Profile, S: CapStore<P>>(
        store: &S,
        word: Word,
        root: Slot,
        index: u64,
        depth: u64,
        refusal: Refusal,
    ) -> Self
        requires { target_slot P.profile (cap_at (S.forest store.now)) (cap_at (S.forest store.now) (address_of P.profile root)) index depth ≡ Err refusal }
        ensures { Err result ≡ answering of (slot_by_index P.profile (cap_at (S.forest store.now)) word (address_of P.profile root) index depth) };
}

/// The lookup is made once more, to see where it fails.
impl Failure for Reason {
    ghost of = { λ reason. reason };

    #[inline(always)]
    fn because(reason: Reason) -> Reason {
        reason
    }

    fn no_word<P: Profile, S: CapStore<P>>(
        store: &S,
        word: Word,
        root: Slot,
        number: u64,
        _fault: LookupFault,
    ) -> Reason {
        match walk_word::<P, S>(store, word, root, number) {
            Ok(_) => unreachable!(),
            Err(reason) => reason,
        }
    }

    fn no_slot<P: Profile, S: CapStore<P>>(
        store: &S,
        word: Word,
        root: Slot,
        index: u64,
        depth: u64,
        _refusal: Refusal,
    ) -> Reason {
        match walk_index::<P, S>(store, word, root, index, depth) {
            Ok(_) => unreachable!(),
            Err(reason) => reason,
        }
    }
}

/// What a reason tells beside is not asked for, so nothing is looked at for it.
impl Failure for Refusal {
    ghost use Rattle.kernel_abstract.specs.Reasons.{refusal_of};

    ghost of = { λ reason. refusal_of reason };

    #[inline(always)]
    fn because(reason: Reason) -> Refusal {
        reason.refusal()
    }

    #[inline(always)]
    fn no_word<P: Profile, S: CapStore<P>>(
        _store: &S,
        _word: Word,
        _root: Slot,
        _number: u64,
        fault: LookupFault,
    ) -> Refusal {
        Refusal::FailedLookup(fault)
    }

    #[inline(always)]
    fn no_slot<P: Profile, S: CapStore<P>>(
        _store: &S,
        _word: Word,
        _root: Slot,
        _index: u64,
        _depth: u64,
        refusal: Refusal,
    ) -> Refusal {
        refusal
    }
}
