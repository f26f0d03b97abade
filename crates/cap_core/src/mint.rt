//! What a mint makes of a capability (seL4 Reference Manual, on `seL4_CNode_Mint`).
ghost use Rattle.std.specs.Prelude.{◌≡◌, ℕ, ◌+◌, ◌%◌, ◌^◌, ◌<◌, ◌≤◌, ◌↔◌};
ghost use Rattle.cap_core.specs.declared.capability.Guard.{Guard as GuardValue};
ghost use Rattle.cap_core.specs.declared.capability.Cap.TheVariants.{CNode};
ghost use Rattle.cap_core.specs.Numbers.{word_bits, guard_size_bits};
ghost use Rattle.cap_core.specs.Minting.{masked, with_data, guard_word, HasRight, Allows};

use crate::capability::{Badge, Cap, Guard};
use crate::profile::Profile;
use crate::rights::Rights;
use bitflags::Flags;

/// The capability with no rights but those that are given too. Only a capability of an endpoint has rights; every other
/// stays as it is.
#[inline(always)]
pub fn mask(cap: Cap, rights: Rights) -> Cap
    ensures value { result ≡ masked rights cap }
    ensures meet { (right : ℕ) → Allows result right ↔ (Allows cap right × HasRight rights right) }
{
    match cap {
        Cap::Endpoint {
            base,
            badge,
            rights: had,
        } => Cap::Endpoint {
            base,
            badge,
            rights: had.intersection(rights),
        },
        other => other,
    }
}

/// The capability with its data set by a word: of an endpoint the badge, cut to the profile's bits, and of a CNode the
/// guard, whose size the word's low bits hold and whose value the bits above them, cut to the size. Every other capability
/// stays as it is.
///
/// None: the badge of an endpoint's capability is set already or is to be preserved, or a CNode's guard and radix together
/// would be longer than a word.
#[inline(always)]
pub fn set_data<P: Profile>(preserve: bool, word: u64, cap: Cap) -> Option<Cap>
    ensures value { result ≡ with_data P.profile preserve word cap }
    ensures read_back { (base radix : ℕ) (before guard : GuardValue) → cap ≡ CNode base radix before → word ≡ guard_word P.profile guard
        → guard.size < 2 ^ guard_size_bits P.profile → guard.value < 2 ^ guard.size → guard.size + radix ≤ word_bits P.profile
        → result ≡ Some (CNode base radix guard) }
{
    match cap {
        Cap::Endpoint {
            base,
            badge,
            rights,
        } => {
            if preserve || badge.0 != 0 {
                return None;
            }
            Some(Cap::Endpoint {
                base,
                badge: Badge(low_bits(word, P::BADGE_BITS)),
                rights,
            })
        }
        Cap::CNode { base, radix, .. } => {
            let size = low_bits(word, P::GUARD_SIZE_BITS) as u32;
            if radix > P::WORD_BITS - size {
                return None;
            }
            let value = low_bits(word >> P::GUARD_SIZE_BITS, size);
            Some(Cap::CNode {
                base,
                radix,
                guard: Guard { value, size },
            })
        }
        other => Some(other),
    }
}

/// The low `count` bits of a word.
fn low_bits(word: u64, count: u32) -> u64
    requires { count ≤ 64 }
    ensures { result ≡ word % 2 ^ count }
{
    if count == u64::BITS {
        word
    } else {
        word % (1 << count)
    }
}
