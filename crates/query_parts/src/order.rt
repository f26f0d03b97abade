//! Which of the uses of parts are needed: what goes without saying is left out.
ghost use Rattle.std.specs.Prelude.{◌≡◌};
ghost use Rattle.std.specs.List.{list_any};
ghost use Rattle.query_parts.specs.declared.keyed.UseKey.TheVariants.{EndpointAndBadge};
ghost use Rattle.query_parts.specs.Keyed.{AreByKey};
ghost use Rattle.query_parts.specs.Order as spec;

use crate::keyed::{UseKey, key, uses_at};
use crate::listed::{PartMemory, PartUse, allows, is_range_owned};
use cap_core::{Profile, Range};

/// Whether a part owns the endpoint at an address.
pub fn owns_endpoint<P: Profile>(memory: &[PartMemory], part: u64, endpoint: u64) -> bool
    ensures { result ≡ spec.owns_endpoint P.profile memory.now part endpoint }
{
    let range = Range {
        first: endpoint,
        bits: P::ENDPOINT_BITS as u64,
    };
    is_range_owned(memory, part, range)
}

fn covers(other: &PartUse, this: &PartUse) -> bool
    ensures { result ≡ spec.covers other.now this.now }
{
    allows(other, this.part, this.endpoint, this.badge, this.rights)
}

fn says_more(other: &PartUse, this: &PartUse) -> bool
    ensures { result ≡ spec.says_more this.now other.now }
{
    covers(other, this) && !covers(this, other)
}

fn one_says_more(uses: &[PartUse], this: &PartUse) -> bool
    ensures { result ≡ list_any (spec.says_more this.now) uses.now }
{
    for other in uses {
        if says_more(other, this) {
            return true;
        }
    }
    false
}

/// Whether one of some uses says more. It has any badge, or the same.
fn one_with_key_says_more(uses: &[PartUse], this: &PartUse) -> bool
    requires { AreByKey EndpointAndBadge uses.now }
    ensures { result ≡ list_any (spec.says_more this.now) uses.now }
{
    let by = UseKey::EndpointAndBadge;
    let with_any = uses_at(uses, by, key(by, this.endpoint, 0));
    let with_this = uses_at(uses, by, key(by, this.endpoint, this.badge.0));
    one_says_more(with_any, this) || one_says_more(with_this, this)
}

/// Whether a use is of an endpoint that the part does not own, and no other use says more.
pub fn is_needed<P: Profile>(memory: &[PartMemory], uses: &[PartUse], this: &PartUse) -> bool
    requires { AreByKey EndpointAndBadge uses.now }
    ensures { result ≡ spec.is_needed P.profile memory.now uses.now this.now }
{
    !owns_endpoint::<P>(memory, this.part, this.endpoint) && !one_with_key_says_more(uses, this)
}
