//! Where a lookup fails and why. This is the second look, for reasons: `cspace_core` resolves what a step looks up.
ghost use Rattle.std.specs.Prelude.{◌≡◌, ◌+◌, ◌/◌, ◌%◌, ◌^◌, ◌<◌, ◌≤◌, ◌⊎◌, IfOk};
ghost use Rattle.cap_core.specs.declared.capability.Cap.TheVariants.{Null};
ghost use Rattle.cap_core.specs.Numbers.{word_bits};
ghost use Rattle.cap_core.specs.Objects.{IsLawful};
ghost use Rattle.kernel_forest.specs.Entries.{cap_at};
ghost use Rattle.slot_core.specs.Places.{address_of};
ghost use Rattle.cspace_core.specs.Bits.{low_bits};
ghost use Rattle.kernel_abstract.specs.Lookups.{chosen, walked, slot_by_word, slot_by_index};
ghost use Rattle.kernel_checks.specs.Seen.{choice_seen, found_seen, slot_seen};

use crate::lookup::held;
use cap_core::{Cap, Profile};
use kernel_abstract::reason::{Held, Miss, Reason, Word};
use slot_core::{CapStore, Slot};

/// The slot that the low `bits` bits of an address lead to from the slot `root` on, and how many are left; or where the
/// lookup fails and why.
#[inline(always)]
pub fn walk<P: Profile, S: CapStore<P>>(
    store: &S,
    root: Slot,
    address: u64,
    bits: u32,
) -> Result<(Slot, u32), Miss>
    requires bits { bits ≤ word_bits P.profile }
    ensures { found_seen P.profile result ≡ walked P.profile (cap_at (S.forest store.now)) (address_of P.profile root) (low_bits bits address) }
{
    let mut at = root;
    let mut left = bits;
    loop {
        let cap = store.get(at);
        let (slot, rest) = choose::<P>(at, cap, address, left)?;
        if rest == 0 {
            return Ok((slot, rest));
        }
        let next = store.get(slot);
        let Cap::CNode { .. } = next else {
            return Ok((slot, rest));
        };
        at = slot;
        left = rest;
    }
}

/// What the capability in one slot makes of the low bits of an address.
#[inline(always)]
pub fn choose<P: Profile>(at: Slot, cap: Cap, address: u64, bits: u32) -> Result<(Slot, u32), Miss>
    requires lawful { (cap ≡ Null) ⊎ IsLawful P.profile (word_bits P.profile) cap }
    requires bits { bits ≤ word_bits P.profile }
    ensures is { choice_seen P.profile address result ≡ chosen P.profile (address_of P.profile at) cap (low_bits bits address) }
    ensures less { IfOk result (λ r. r.1 < bits) }
{
    let Cap::CNode { base, radix, guard } = cap else {
        return Err(Miss::NoRoot);
    };
    let node = Held {
        slot: at.address::<P>(),
        cap,
    };
    if guard.size > bits {
        let read = field(address, 0, bits);
        return Err(Miss::OtherGuard {
            node,
            left: bits,
            read,
        });
    }
    let rest = bits - guard.size;
    let read = field(address, rest, guard.size);
    if read != guard.value {
        return Err(Miss::OtherGuard {
            node,
            left: bits,
            read,
        });
    }
    if radix > rest {
        return Err(Miss::TooFewBits { node, left: rest });
    }
    let left = rest - radix;
    let index = field(address, left, radix);
    Ok((Slot::of_node::<P>(base, index), left))
}

/// The `count` bits of a word that stand above its low `from` bits.
#[inline(always)]
fn field(word: u64, from: u32, count: u32) -> u64
    requires count { count < 64 }
    requires within { from + count ≤ 64 }
    ensures { result ≡ word / 2 ^ from % 2 ^ count }
{
    word.wrapping_shr(from) % (1 << count)
}

/// The slot that a word leads to in the capability space whose root is in the slot `root`, or where its lookup fails and why.
pub fn walk_word<P: Profile, S: CapStore<P>>(
    store: &S,
    word: Word,
    root: Slot,
    number: u64,
) -> Result<Slot, Reason>
    ensures { slot_seen P.profile result ≡ slot_by_word P.profile (S.forest store.now) word (address_of P.profile root) number }
{
    match walk::<P, S>(store, root, number, P::WORD_BITS) {
        Ok((slot, _)) => Ok(slot),
        Err(miss) => {
            let from = held::<P, S>(store, root);
            Err(Reason::NotFound { word, from, miss })
        }
    }
}

/// The slot that an index leads to at a depth from the slot `root` on, or where its lookup fails and why.
pub fn walk_index<P: Profile, S: CapStore<P>>(
    store: &S,
    word: Word,
    root: Slot,
    index: u64,
    depth: u64,
) -> Result<Slot, Reason>
    ensures { slot_seen P.profile result ≡ slot_by_index P.profile (cap_at (S.forest store.now)) word (address_of P.profile root) index depth }
{
    let from = held::<P, S>(store, root);
    let Cap::CNode { .. } = from.cap else {
        let miss = Miss::NoRoot;
        return Err(Reason::NotFound { word, from, miss });
    };
    if depth == 0 || depth > P::WORD_BITS as u64 {
        let most = P::WORD_BITS;
        return Err(Reason::NoDepth { word, from, most });
    }
    match walk::<P, S>(store, root, index, depth as u32) {
        Ok((slot, 0)) => Ok(slot),
        Ok((slot, left)) => {
            let found = held::<P, S>(store, slot);
            let miss = Miss::BitsLeft { found, left };
            Err(Reason::NotFound { word, from, miss })
        }
        Err(miss) => Err(Reason::NotFound { word, from, miss }),
    }
}
