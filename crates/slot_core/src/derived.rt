//! What a derived capability is, and what an untyped one is with another free index.
ghost use Rattle.std.specs.Prelude.{◌≡◌};
ghost use Rattle.cap_core.specs.Objects.{badge_of as badge_in};
ghost use Rattle.kernel_forest.specs.Derivation.{is_new_original as is_original_from, with_free as freed_cap};

use cap_core::Cap;

/// Whether a capability that is derived from `from` is original: it is untyped, or its badge is another.
pub fn is_new_original(from: Cap, cap: Cap) -> bool
    ensures { result ≡ is_original_from from cap }
{
    match cap {
        Cap::Untyped { .. } => true,
        _ => badge_of(cap) != badge_of(from),
    }
}

/// An untyped capability with another free index, in bytes; every other capability as it is.
pub fn with_free(cap: Cap, free: u64) -> Cap
    ensures { result ≡ freed_cap free cap }
{
    match cap {
        Cap::Untyped { base, bits, .. } => Cap::Untyped { base, bits, free },
        _ => cap,
    }
}

/// The badge of a capability, 0 where it has none.
pub fn badge_of(cap: Cap) -> u64
    ensures { result ≡ badge_in cap }
{
    match cap {
        Cap::Endpoint { badge, .. } => badge.0,
        Cap::Null | Cap::Untyped { .. } | Cap::CNode { .. } | Cap::Tcb { .. } => 0,
    }
}
