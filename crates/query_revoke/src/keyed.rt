//! Places of a list by rising keys, so that those of one key are found by halving.
ghost use Rattle.std.specs.Prelude.{◌≡◌, ℕ, OnOk, filter};
ghost use Rattle.query_revoke.specs.Keyed.{AreOrderedByKey, is_keyed_by};

use std::alloc::AllocError;

/// A place of a list, with the key of what stands there.
#[derive(Clone, Copy)]
pub struct Keyed {
    pub key: u128,
    pub place: usize,
}

/// Puts places in the order of their keys. Those of one key stay in their order.
pub fn put_in_order(list: &mut Vec<Keyed>) -> Result<(), AllocError>
    ensures order { OnOk result (AreOrderedByKey list.new.items) }
    ensures same { OnOk result ((n : ℕ) → filter (is_keyed_by n) list.new.items ≡ filter (is_keyed_by n) list.old.items) }
{
    list.sort_by_key(|keyed| keyed.key)?;
    Ok(())
}

/// Those of one key, of places by rising keys.
pub fn at_key(list: &[Keyed], key: u128) -> &[Keyed]
    requires { AreOrderedByKey list.now }
    ensures { result.now ≡ filter (is_keyed_by key) list.entry.now }
{
    let start = list.partition_point(|keyed| keyed.key < key);
    let rest = &list[start..];
    let end = rest.partition_point(|keyed| keyed.key <= key);
    &rest[..end]
}
