//! Parts as lists: their memory, and the endpoints that they may use; and what may stand in the slots of each.
ghost use Rattle.std.specs.Prelude.{◌≡◌};
ghost use Rattle.std.specs.List.{list_any, list_all};
ghost use Rattle.query_parts.specs.Listed as spec;

use cap_core::{Badge, Cap, Profile, Range, Rights, range_of};

/// Memory of a part: the addresses from `first` to `last`.
#[derive(Clone, Copy, PartialEq, Eq, Debug)]
pub struct PartMemory {
    pub part: u64,
    pub first: u64,
    pub last: u64,
}

/// An endpoint that a part may use: with this badge, or with any if it is 0, and with these rights at most.
#[derive(Clone, Copy, PartialEq, Eq, Debug)]
pub struct PartUse {
    pub part: u64,
    pub endpoint: u64,
    pub badge: Badge,
    pub rights: Rights,
}

/// Whether an address lies in a stretch of memory.
pub fn contains(memory: &PartMemory, address: u64) -> bool
    ensures { result ≡ spec.lies_in memory.now address }
{
    memory.first <= address && address <= memory.last
}

/// The part in whose memory an address lies; `None` if it lies in no part's.
pub fn part_at(memory: &[PartMemory], address: u64) -> Option<u64>
    ensures { result ≡ spec.part_at memory.now address }
{
    for m in memory {
        if contains(m, address) {
            return Some(m.part);
        }
    }
    None
}

/// The last address of a range; `None` if that is no word.
pub fn last_of(range: Range) -> Option<u64>
    ensures { result ≡ spec.last_in range.first range.bits }
{
    if range.bits >= 64 {
        return None;
    }
    let more = (1u64 << range.bits) - 1;
    if range.first > u64::MAX - more {
        return None;
    }
    Some(range.first + more)
}

fn spares(memory: &PartMemory, part: u64, first: u64, last: u64) -> bool
    ensures { result ≡ spec.spares part first last memory.now }
{
    memory.part == part || memory.last < first || last < memory.first
}

fn has_all(memory: &PartMemory, part: u64, first: u64, last: u64) -> bool
    ensures { result ≡ spec.has_all part first last memory.now }
{
    memory.part == part && memory.first <= first && last <= memory.last
}

fn is_spared_by_all(memory: &[PartMemory], part: u64, first: u64, last: u64) -> bool
    ensures { result ≡ list_all (spec.spares part first last) memory.now }
{
    for m in memory {
        if !spares(m, part, first, last) {
            return false;
        }
    }
    true
}

fn is_in_one(memory: &[PartMemory], part: u64, first: u64, last: u64) -> bool
    ensures { result ≡ list_any (spec.has_all part first last) memory.now }
{
    for m in memory {
        if has_all(m, part, first, last) {
            return true;
        }
    }
    false
}

/// Whether all of a range is memory of the part.
pub fn is_range_owned(memory: &[PartMemory], part: u64, range: Range) -> bool
    ensures { result ≡ spec.owns_range memory.now part range }
{
    match last_of(range) {
        Some(last) => is_spared_by_all(memory, part, range.first, last)
            && is_in_one(memory, part, range.first, last),
        None => false,
    }
}

/// Whether a use of the part allows an endpoint capability.
pub fn allows(allowed: &PartUse, part: u64, base: u64, badge: Badge, rights: Rights) -> bool
    ensures { result ≡ spec.allows part base badge rights allowed.now }
{
    allowed.part == part
        && allowed.endpoint == base
        && (allowed.badge.0 == badge.0 || allowed.badge.0 == 0)
        && rights.0 & allowed.rights.0 == rights.0
}

fn is_one_allowed(uses: &[PartUse], part: u64, base: u64, badge: Badge, rights: Rights) -> bool
    ensures { result ≡ list_any (spec.allows part base badge rights) uses.now }
{
    for allowed in uses {
        if allows(allowed, part, base, badge, rights) {
            return true;
        }
    }
    false
}

fn is_allowed(uses: &[PartUse], part: u64, cap: Cap) -> bool
    ensures { result ≡ spec.is_allowed uses.now part cap }
{
    match cap {
        Cap::Endpoint {
            base,
            badge,
            rights,
        } => is_one_allowed(uses, part, base, badge, rights),
        _ => false,
    }
}

/// Whether a capability may stand in a part.
pub fn is_within<P: Profile>(memory: &[PartMemory], uses: &[PartUse], part: u64, cap: Cap) -> bool
    ensures { result ≡ spec.is_within P.profile memory.now uses.now part cap }
{
    match range_of::<P>(cap) {
        Some(range) => is_range_owned(memory, part, range) || is_allowed(uses, part, cap),
        None => true,
    }
}

/// Whether a slot lies in no part, or a capability may stand in the part in which it lies.
pub fn may_stand<P: Profile>(memory: &[PartMemory], uses: &[PartUse], slot: u64, cap: Cap) -> bool
    ensures { result ≡ spec.stands_in P.profile memory.now uses.now cap (spec.part_at memory.now slot) }
{
    match part_at(memory, slot) {
        Some(part) => is_within::<P>(memory, uses, part, cap),
        None => true,
    }
}
