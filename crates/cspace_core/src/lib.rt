//! Resolution of addresses in capability spaces.
#![tactic(auto)]

ghost use Rattle.std.specs.Prelude.{◌≡◌, ℕ, ◌+◌, ◌/◌, ◌%◌, ◌^◌, ◌<◌, ◌≤◌, ◌⊎◌, IfOk};
ghost use Rattle.cap_core.specs.declared.capability.Cap.TheVariants.{Null};
ghost use Rattle.cap_core.specs.Numbers.{word_bits};
ghost use Rattle.cap_core.specs.Objects.{IsLawful};
ghost use Rattle.kernel_forest.specs.Entries.{cap_at};
ghost use Rattle.slot_core.specs.Places.{address_of};
ghost use Rattle.cspace_core.specs.Bits.{low_bits};
ghost use Rattle.cspace_core.specs.Resolution.{resolution, found, choice_seen};
ghost use Rattle.cspace_core.specs.Inside.{LiesInCNode};
ghost use Rattle.cspace_core.specs.Resolves.{Chooses, Resolves};
ghost use Rattle.cspace_core.specs.Target.{target_slot, target_seen};

use cap_core::{Cap, LookupFault, Profile, Refusal};
use slot_core::{CapStore, Slot};

/// The slot that the low `bits` bits of an address lead to from the capability `root`, and how many of them are left
/// (seL4 Reference Manual, on capability space addressing). The bits are used from the top one down: at each CNode those
/// of its guard, and then those of its radix, which choose a slot. The slot is found where no bits are left or it holds
/// no CNode; else resolution goes on at the CNode that it holds.
///
/// `InvalidRoot`: the root is no CNode. `GuardMismatch`: the bits don't go on with a CNode's guard. `DepthMismatch`:
/// after a CNode's guard there are fewer bits than its radix. `MissingCapability` is never answered, since an empty slot
/// is found like any other.
#[inline(always)]
pub fn resolve<P: Profile, S: CapStore<P>>(
    store: &S,
    root: Cap,
    address: u64,
    bits: u32,
) -> Result<(Slot, u32), LookupFault>
    requires lawful { (root ≡ Null) ⊎ IsLawful P.profile (S.memory_bits store.now) root }
    requires bits { bits ≤ word_bits P.profile }
    ensures value { found P.profile result ≡ resolution P.profile (cap_at (S.forest store.now)) root (low_bits bits address) }
    ensures within { IfOk result (λ r. address_of P.profile r.0 < 2 ^ S.memory_bits store.now) }
    ensures inside { IfOk result (λ r. LiesInCNode P.profile (cap_at (S.forest store.now)) root (address_of P.profile r.0)) }
    ensures relation { Resolves P.profile (cap_at (S.forest store.now)) root (low_bits bits address) (found P.profile result) }
{
    let mut cap = root;
    let mut left = bits;
    loop {
        let (slot, rest) = choose::<P>(cap, address, left)?;
        if rest == 0 {
            return Ok((slot, rest));
        }
        let next = store.get(slot);
        let Cap::CNode { .. } = next else {
            return Ok((slot, rest));
        };
        cap = next;
        left = rest;
    }
}

/// The slot that an operation on a CNode, or a retype, names by an index and a depth: the one that the low `depth` bits of
/// `index` lead to from the capability `root`, with no bits left over (seL4 Reference Manual, on capability space
/// addressing).
///
/// `FailedLookup(InvalidRoot)`: the root is no CNode, at whatever depth. `RangeError`: the depth is 0 or more than the bits
/// of a word. `FailedLookup`: resolution fails, with its fault, or bits are left over, which is a `DepthMismatch`. The first
/// of these that holds is answered.
#[inline(always)]
pub fn target<P: Profile, S: CapStore<P>>(
    store: &S,
    root: Cap,
    index: u64,
    depth: u64,
) -> Result<Slot, Refusal>
    requires lawful { (root ≡ Null) ⊎ IsLawful P.profile (S.memory_bits store.now) root }
    ensures value { target_seen P.profile result ≡ target_slot P.profile (cap_at (S.forest store.now)) root index depth }
    ensures within { IfOk result (λ slot. address_of P.profile slot < 2 ^ S.memory_bits store.now) }
    ensures inside { IfOk result (λ slot. LiesInCNode P.profile (cap_at (S.forest store.now)) root (address_of P.profile slot)) }
    ensures relation { IfOk result (λ slot. Resolves P.profile (cap_at (S.forest store.now)) root (low_bits depth index)
        (Ok (record { slot = address_of P.profile slot; left = 0 }))) }
{
    let Cap::CNode { .. } = root else {
        return Err(Refusal::FailedLookup(LookupFault::InvalidRoot));
    };
    if depth == 0 || depth > P::WORD_BITS as u64 {
        return Err(Refusal::RangeError);
    }
    match resolve::<P, S>(store, root, index, depth as u32) {
        Ok((slot, 0)) => Ok(slot),
        Ok(_) => Err(Refusal::FailedLookup(LookupFault::DepthMismatch)),
        Err(fault) => Err(Refusal::FailedLookup(fault)),
    }
}

/// What one capability makes of the low bits of an address: the slot that it chooses, and how many bits are left.
#[inline(always)]
fn choose<P: Profile>(cap: Cap, address: u64, bits: u32) -> Result<(Slot, u32), LookupFault>
    requires lawful { (cap ≡ Null) ⊎ IsLawful P.profile (word_bits P.profile) cap }
    requires bits { bits ≤ word_bits P.profile }
    ensures is { Chooses P.profile cap (low_bits bits address) (choice_seen P.profile address result) }
    ensures less { IfOk result (λ r. r.1 < bits) }
    ensures within { (memory : ℕ) → (cap ≡ Null) ⊎ IsLawful P.profile memory cap → IfOk result (λ r. address_of P.profile r.0 < 2 ^ memory) }
{
    let Cap::CNode { base, radix, guard } = cap else {
        return Err(LookupFault::InvalidRoot);
    };
    if guard.size > bits {
        return Err(LookupFault::GuardMismatch);
    }
    let rest = bits - guard.size;
    if field(address, rest, guard.size) != guard.value {
        return Err(LookupFault::GuardMismatch);
    }
    if radix > rest {
        return Err(LookupFault::DepthMismatch);
    }
    let left = rest - radix;
    let index = field(address, left, radix);
    Ok((Slot::of_node::<P>(base, index), left))
}

/// The `count` bits of a word that stand above its low `from` bits.
#[inline(always)]
fn field(word: u64, from: u32, count: u32) -> u64
    requires count { count < 64 }
    requires within { from + count ≤ 64 }
    ensures { result ≡ word / 2 ^ from % 2 ^ count }
{
    // The shift wraps at 64 bits alone, where the count is 0.
    word.wrapping_shr(from) % (1 << count)
}
