//! Who is derived from whom, by one walk along the list of a linked store.
ghost use Rattle.std.specs.Prelude.{◌≡◌};
ghost use Rattle.kernel_forest.specs.Marked.{is_parent as is_parent_in};
ghost use Rattle.kernel_forest.proofs.Trees.Parented.{still_above};
ghost use Rattle.slot_core.specs.Links.{unplaced};
ghost use Rattle.slot_core.specs.Walks.{stack_of};

use super::LinkedStore;
use super::table::{Link, is_parent, row};
use crate::derivations::{Derivation, DerivationStore};
use crate::slot::Slot;
use cap_core::Profile;
use std::alloc::{AllocError, Global};

/// Takes the slots off a stack that are no parents of a row, from the last on.
fn leave<P: Profile>(links: &[Link], above: &mut Vec<Slot>, link: Link)
    ensures { stack_of links.now above.new.items ≡ still_above (is_parent_in P.profile) (unplaced link) (stack_of links.now above.old.items) }
{
    while let Some(top) = above.last() {
        if is_parent::<P>(row(links, *top), link) {
            return;
        }
        above.pop();
    }
}

impl<P: Profile> DerivationStore<P> for LinkedStore<P> {
    fn derivations(&self, alloc: Global) -> Result<Vec<Derivation>, AllocError> {
        let mut found = Vec::new(alloc);
        let mut above = Vec::new(alloc);
        let mut here = self.first;
        for _ in 0..self.links.len() {
            let Some(slot) = here else {
                return Ok(found);
            };
            let link = row(&self.links, slot);
            leave::<P>(&self.links, &mut above, link);
            found.push(Derivation {
                slot,
                cap: link.cap,
                original: link.revocable,
                parent: above.last().copied(),
            })?;
            above.push(slot)?;
            here = link.next;
        }
        Ok(found)
    }
}
