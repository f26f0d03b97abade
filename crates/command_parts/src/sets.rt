//! Numbers in their order.
ghost use Rattle.std.specs.Prelude.{◌≡◌, IfOk};
ghost use Rattle.setup_report.specs.State.{is_in as is_in_list, rising as rising_of};

use std::alloc::{AllocError, Global};
use std::collections::BTreeSet;

/// The numbers of a set, in rising order.
pub fn listed(alloc: Global, set: &BTreeSet<u64>) -> Result<Vec<u64>, AllocError>
    ensures { IfOk result (λ v. v.items ≡ set.now.keys) }
{
    let mut list = Vec::new(alloc);
    for number in set {
        list.push(*number)?;
    }
    Ok(list)
}

/// Each of some numbers once, in rising order.
pub fn rising(alloc: Global, numbers: &[u64]) -> Result<Vec<u64>, AllocError>
    ensures { IfOk result (λ v. v.items ≡ rising_of numbers.now) }
{
    let mut set = BTreeSet::new(alloc);
    for number in numbers {
        set.insert(*number)?;
    }
    listed(alloc, &set)
}

/// Whether a number is one of some.
pub fn is_in(list: &[u64], number: u64) -> bool
    ensures { result ≡ is_in_list number list.now }
{
    for other in list {
        if number == *other {
            return true;
        }
    }
    false
}
