//! The way that a lookup goes.
ghost use Rattle.std.specs.Prelude.{◌≡◌, ◌≤◌, ◌==◌, ◌&&◌, not, ◌++◌, ◌∷◌, [], IfOk};
ghost use Rattle.cap_core.specs.Numbers.{word_bits};
ghost use Rattle.kernel_forest.specs.Entries.{cap_at};
ghost use Rattle.slot_core.specs.Places.{address_of};
ghost use Rattle.cspace_core.specs.Bits.{low_bits};
ghost use Rattle.cspace_core.specs.Resolution.{is_cnode};
ghost use Rattle.kernel_checks.specs.Paths.{path as path_of};

use crate::lookup::held;
use crate::walk::choose;
use cap_core::{Cap, Profile};
use kernel_abstract::reason::Held;
use slot_core::{CapStore, Slot};
use std::alloc::{AllocError, Global};

/// The slots that a lookup of the low `bits` bits of an address comes to, each with what is in it: the slot `root` at which it
/// begins, and the last is where it ends or fails. It takes memory for them.
pub fn path<P: Profile, S: CapStore<P>>(
    alloc: Global,
    store: &S,
    root: Slot,
    address: u64,
    bits: u32,
) -> Result<Vec<Held>, AllocError>
    requires bits { bits ≤ word_bits P.profile }
    ensures { IfOk result (λ path. path.items ≡ path_of P.profile (cap_at (S.forest store.now)) (address_of P.profile root) (low_bits bits address)) }
{
    let mut path = Vec::new(alloc);
    let mut at = root;
    let mut left = bits;
    loop {
        let here = held::<P, S>(store, at);
        path.push(here)?;
        let Ok((slot, rest)) = choose::<P>(at, here.cap, address, left) else {
            return Ok(path);
        };
        let last = held::<P, S>(store, slot);
        if !goes_on(rest, last.cap) {
            return with_last(path, last);
        }
        at = slot;
        left = rest;
    }
}

/// Whether a lookup goes on at a slot: it holds a CNode, and bits are left.
fn goes_on(left: u32, cap: Cap) -> bool
    ensures { result ≡ (is_cnode cap && not (left == 0)) }
{
    match cap {
        Cap::CNode { .. } => left != 0,
        _ => false,
    }
}

/// A path with one more slot.
fn with_last(path: Vec<Held>, last: Held) -> Result<Vec<Held>, AllocError>
    ensures { IfOk result (λ longer. longer.items ≡ path.items ++ last ∷ []) }
{
    let mut path = path;
    path.push(last)?;
    Ok(path)
}
