//! Uses in the order of a key, so that those of one key are found by halving.
ghost use Rattle.std.specs.Prelude.{◌≡◌, ℕ, IfOk, filter};
ghost use Rattle.query_parts.specs.Keyed.{AreByKey, has_key};
ghost use Rattle.query_parts.specs.Keyed as spec;

use crate::listed::PartUse;
use std::alloc::{AllocError, Global};

/// By what uses are put in order.
#[derive(Clone, Copy, PartialEq, Eq, Debug)]
pub enum UseKey {
    /// The endpoint.
    Endpoint,
    /// The endpoint, and then the badge.
    EndpointAndBadge,
}

/// The key of the uses of an endpoint, with a badge if the badge is part of the key.
pub fn key(by: UseKey, endpoint: u64, badge: u64) -> u128
    ensures { result ≡ spec.key by endpoint badge }
{
    match by {
        UseKey::Endpoint => u128::from(endpoint),
        UseKey::EndpointAndBadge => {
            u128::from(endpoint) * 0x1_0000_0000_0000_0000 + u128::from(badge)
        }
    }
}

fn key_of(by: UseKey, allowed: &PartUse) -> u128
    ensures { result ≡ spec.key_of by allowed.now }
{
    key(by, allowed.endpoint, allowed.badge.0)
}

/// The uses by rising keys. Those of one key stay in their order.
pub fn uses_by_key(alloc: Global, uses: &[PartUse], by: UseKey) -> Result<Vec<PartUse>, AllocError>
    ensures order { IfOk result (λ list. AreByKey by list.items) }
    ensures same { IfOk result (λ list. (n : ℕ) → filter (has_key by n) list.items ≡ filter (has_key by n) uses.now) }
{
    let mut list = Vec::from_slice(alloc, uses)?;
    list.sort_by_key(|u| key_of(by, u))?;
    Ok(list)
}

/// Those of one key, of uses by rising keys.
pub fn uses_at(list: &[PartUse], by: UseKey, key: u128) -> &[PartUse]
    requires { AreByKey by list.now }
    ensures { result.now ≡ filter (has_key by key) list.entry.now }
{
    let start = list.partition_point(|u| key_of(by, u) < key);
    let rest = &list[start..];
    let end = rest.partition_point(|u| key_of(by, u) <= key);
    &rest[..end]
}
