//! A full slot as it is written.
ghost use Rattle.std.specs.Prelude.{◌≡◌, Some};
ghost use Rattle.slot_core.specs.Calls.{derivation_view};
ghost use Rattle.setup_report.specs.Naming.{naming_view};
ghost use Rattle.command_tree.specs.Tree as spec;

use cap_core::{Cap, Profile};
use setup_report::{CapText, Naming};
use slot_core::Derivation;
use std::fmt;

/// A slot, and what it holds; a thread by addresses with its name behind it, if it has one.
#[derive(Clone, Copy)]
pub struct SlotText<'a> {
    naming: &'a Naming<'a>,
    /// The slot's address.
    pub slot: u64,
    /// What it holds.
    pub cap: Cap,
}

impl fmt::Display for SlotText<'_> {
    ghost output = { λ s. Some (spec.tree_slot_words (naming_view s.naming.now) s.slot s.cap) };

    fn fmt<W: fmt::Write>(&self, f: &mut fmt::Formatter<W>) -> fmt::Result {
        let (naming, cap) = (self.naming, self.cap);
        let slot = naming.slot(self.slot);
        match cap {
            Cap::Tcb { base } => {
                let thread = naming.about(base);
                write!(f, "{slot} tcb {thread}")
            }
            _ => {
                let held = CapText { naming, cap };
                write!(f, "{slot} {held}")
            }
        }
    }
}

/// The slot of a derivation.
pub fn slot_text<'a, P: Profile>(naming: &'a Naming<'a>, row: &Derivation) -> SlotText<'a>
    ensures naming { result.naming.now ≡ naming.entry.now }
    ensures slot { result.slot ≡ (derivation_view P.profile row.now).0.slot }
    ensures cap { result.cap ≡ (derivation_view P.profile row.now).0.cap }
{
    SlotText {
        naming,
        slot: row.slot.address::<P>(),
        cap: row.cap,
    }
}

/// The slot that a derivation's slot is derived from.
pub fn parent_address<P: Profile>(row: &Derivation) -> Option<u64>
    ensures { result ≡ (derivation_view P.profile row.now).1 }
{
    match row.parent {
        Some(parent) => Some(parent.address::<P>()),
        None => None,
    }
}
