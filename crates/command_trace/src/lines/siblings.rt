//! The order of siblings: of the slots that are derived from one slot, or from none.
ghost use Rattle.std.specs.Prelude.{◌≡◌, ◌==◌, [], IfOk, OnOk, map};
ghost use Rattle.std.specs.List.{position};
ghost use Rattle.slot_core.specs.Calls.{derivation_view};
ghost use Rattle.command_trace.specs.Siblings.{row_view};
ghost use Rattle.command_trace.specs.Private.Path.{cut, path_to, sibling_behind, sibling_line, siblings_walked};

use crate::lines::changes::StateLine;
use crate::lines::rows::Row;
use cap_core::Profile;
use setup_report::Naming;
use slot_core::Derivation;
use std::alloc::{AllocError, Global};

/// A full slot, and the sibling right in front of it, where there is one.
#[derive(Clone, Copy)]
pub struct SiblingRow {
    pub slot: u64,
    pub before: Option<u64>,
}

fn place_of(path: &[u64], slot: u64) -> Option<usize>
    ensures { result ≡ position (λ s. s == slot) path.now }
{
    path.iter().position(|s| *s == slot)
}

/// How many of the first slots of a path lead down to a slot; none where no slot is given.
fn cut_at(path: &[u64], slot: Option<u64>) -> usize
    ensures { result ≡ cut slot path.now }
{
    let place = match slot {
        None => None,
        Some(slot) => place_of(path, slot),
    };
    match place {
        None => 0,
        Some(place) => place + 1,
    }
}

fn parent_address<P: Profile>(derivation: &Derivation) -> Option<u64>
    ensures { result ≡ (derivation_view P.profile derivation.now).1 }
{
    match derivation.parent {
        Some(parent) => Some(parent.address::<P>()),
        None => None,
    }
}

/// The next full slot, with the sibling in front of it. `path` led to the slot that was told before it, and leads to this
/// one then.
fn sibling_next<P: Profile>(
    path: &mut Vec<u64>,
    derivation: &Derivation,
) -> Result<SiblingRow, AllocError>
    ensures row { IfOk result (λ row. row_view row ≡ sibling_behind (derivation_view P.profile derivation.now) path.old.items) }
    ensures path { OnOk result (path.new.items ≡ path_to (derivation_view P.profile derivation.now) path.old.items) }
{
    let slot = derivation.slot.address::<P>();
    let cut = cut_at(path.as_slice(), parent_address::<P>(derivation));
    let before = path.get(cut).copied();
    path.truncate(cut);
    path.push(slot)?;
    Ok(SiblingRow { slot, before })
}

/// The full slots, in the kernel's order, each with the sibling in front of it.
pub fn siblings<P: Profile>(
    alloc: Global,
    derivations: &[Derivation],
) -> Result<Vec<SiblingRow>, AllocError>
    ensures { IfOk result (λ v. map row_view v.items ≡ siblings_walked [] (map (derivation_view P.profile) derivations.now)) }
{
    let mut path = Vec::new(alloc);
    let mut rows = Vec::new(alloc);
    for derivation in derivations {
        let row = sibling_next::<P>(&mut path, derivation)?;
        rows.push(row)?;
    }
    Ok(rows)
}

impl<P: Profile> Row<P> for SiblingRow {
    ghost lines = { λ texts r. sibling_line texts (row_view r) };

    fn is_same(&self, other: &SiblingRow) -> bool {
        self.slot == other.slot && self.before == other.before
    }

    fn add_line(
        &self,
        alloc: Global,
        naming: &Naming<'_>,
        out: &mut Vec<StateLine>,
    ) -> Result<(), AllocError> {
        let address = self.slot;
        match self.before {
            None => Ok(()),
            Some(before) => {
                let (slot, before) = (naming.slot(address), naming.slot(before));
                let text = format!(in alloc; "sibling {slot} after {before}")?;
                out.push(StateLine { address, text })?;
                Ok(())
            }
        }
    }
}
