//! What is looked at of a layout to find where a breach comes from.
ghost use Rattle.std.specs.Prelude.{◌≡◌, ◌≤◌, IfOk, length, map};
ghost use Rattle.kernel_abstract.specs.Plan.{IsPlan};
ghost use Rattle.slot_core.specs.Calls.{derivation_view};
ghost use Rattle.command_parts.specs.Takes.{part_slot};
ghost use Rattle.command_policy_places.specs.Places as spec;

use crate::known::{SiteNames, Sites};
use cap_core::Profile;
use command_parts::PartSlot;
use command_policy_breaches::{Join, Layout, blocks};
use ipc_core::MakeWaiters;
use query_parts::{PartMemory, part_at};
use setup_format::Setup;
use setup_policy::Labels;
use setup_report::{run_first, state_rows};
use slot_core::{Derivation, DerivationStore, MakeStore};
use std::alloc::{AllocError, Global};

fn with_part<P: Profile>(memory: &[PartMemory], row: &Derivation) -> PartSlot
    ensures { result ≡ part_slot memory.now (derivation_view P.profile row.now) }
{
    let slot = row.slot.address::<P>();
    let above = match row.parent {
        Some(parent) => Some(parent.address::<P>()),
        None => None,
    };
    let part = part_at(memory, slot);
    let cap = row.cap;
    PartSlot {
        slot,
        cap,
        above,
        part,
    }
}

fn with_parts<P: Profile>(
    alloc: Global,
    memory: &[PartMemory],
    rows: &[Derivation],
) -> Result<Vec<PartSlot>, AllocError>
    ensures { IfOk result (λ v. v.items ≡ map (λ d. part_slot memory.now (derivation_view P.profile d)) rows.now) }
{
    let mut slots = Vec::with_capacity(alloc, rows.len())?;
    for row in rows {
        slots.push(with_part::<P>(memory, row))?;
    }
    Ok(slots)
}

impl Sites {
    /// What is looked at of the state behind the first calls of a set-up, of which a layout is, and whose parts Grant joins so.
    pub fn of<P: Profile, S: MakeStore<P> + DerivationStore<P>, W: MakeWaiters<P>>(
        alloc: Global,
        setup: &Setup,
        made: usize,
        layout: &Layout,
        joins: &[Join],
    ) -> Result<Sites, AllocError>
        requires plan { IsPlan P.profile setup.now.plan }
        requires made { made ≤ length setup.now.calls }
        ensures { IfOk result (spec.AreSites P.profile setup.now made layout.now joins.now) }
    {
        let (kernel, _replies) = run_first::<P, S, W>(alloc, setup, made)?;
        let rows = state_rows::<P, S, W>(alloc, &kernel)?;
        let slots = with_parts::<P>(alloc, layout.memory.as_slice(), rows.slots.as_slice())?;
        let blocks = blocks(alloc, layout.parts.as_slice(), joins)?;
        Ok(Sites {
            slots,
            blocks,
            slot_bits: P::SLOT_BITS,
        })
    }

    /// How its slots and threads are told, by what objects are called.
    pub fn names<'a>(&'a self, labels: &'a Labels) -> SiteNames<'a>
        ensures { spec.texts_told result ≡ spec.texts_by_labels labels.entry.now self.entry.now.slot_bits self.entry.now.slots.items }
    {
        SiteNames {
            labels,
            slots: self.slots.as_slice(),
            slot_bits: self.slot_bits,
        }
    }
}
