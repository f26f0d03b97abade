//! How a search goes on from one CNode.
ghost use Rattle.std.specs.Prelude.{◌≡◌, ℕ, ◌+◌, ◌^◌, ◌<◌, ◌≤◌, ◌⊎◌, IfSome, Some};
ghost use Rattle.cap_core.specs.declared.capability.Cap.TheVariants.{Null};
ghost use Rattle.cap_core.specs.Numbers.{word_bits};
ghost use Rattle.cap_core.specs.Objects.{IsLawful};
ghost use Rattle.cspace_core.specs.Resolution.{slot_of};
ghost use Rattle.query_reach.specs.Private.Nodes.{IsNext};

use crate::filled::FullSlot;
use cap_core::{Cap, Profile};

/// The index of the slot at an address in a CNode.
pub fn index_in<P: Profile>(base: u64, radix: u32, address: u64) -> Option<u64>
    requires { radix < 64 }
    ensures some { IfSome result (λ i. (i < 2 ^ radix) × (address ≡ slot_of P.profile base i)) }
    ensures each { (i : ℕ) → i < 2 ^ radix → address ≡ slot_of P.profile base i → result ≡ Some i }
{
    if address < base {
        return None;
    }
    let offset = address - base;
    let index = offset >> P::SLOT_BITS;
    if index << P::SLOT_BITS == offset && index >> radix == 0 {
        Some(index)
    } else {
        None
    }
}

/// Where a capability that is entered with `left` bits by a word leads at a full slot: the bits that are left there, and the
/// word that leads there.
pub fn next_word<P: Profile>(from: Cap, left: u32, word: u64, to: &FullSlot) -> Option<(u32, u64)>
    requires lawful { (from ≡ Null) ⊎ IsLawful P.profile (word_bits P.profile) from }
    requires left { left ≤ word_bits P.profile }
    requires word { word + 2 ^ left ≤ 2 ^ word_bits P.profile }
    ensures some { IfSome result (λ r. IsNext P.profile from left word to.now.address to.now.cap r.0 r.1) }
    ensures each { (more next : ℕ) → IsNext P.profile from left word to.now.address to.now.cap more next → result ≡ Some (more, next) }
{
    let Cap::CNode { base, radix, guard } = from else {
        return None;
    };
    let used = guard.size + radix;
    if used > left {
        return None;
    }
    let index = index_in::<P>(base, radix, to.address)?;
    let rest = left - used;
    let next = word + (((guard.value << radix) + index) << rest);
    if let Cap::CNode { .. } = to.cap {
        Some((rest, next))
    } else {
        Some((0, next))
    }
}
