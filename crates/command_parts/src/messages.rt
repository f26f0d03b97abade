//! Parts that only pass messages: what they may use is what their slots hold.
ghost use Rattle.std.specs.Prelude.{◌≡◌, IfOk, filter};
ghost use Rattle.command_parts.specs.Messages as spec;

use crate::takes::{PartSlot, is_number};
use cap_core::{Cap, Profile};
use list_questions::{Adds, Asks, add_all, any};
use query_parts::PartUse;
use setup_report::{NamedObject, base_named};
use std::alloc::{AllocError, Global};
use std::marker::PhantomData;

/// Whether a slot of the CNode that a capability names holds another capability than an endpoint's.
#[derive(Drop)]
struct HoldsMore<P: Profile> {
    node: Cap,
    profile: PhantomData<P>,
}

impl<P: Profile> Asks<PartSlot> for HoldsMore<P> {
    ghost holds = { λ q slot. spec.holds_more P.profile q.node slot };

    fn holds(&self, slot: &PartSlot) -> bool {
        base_named::<P>(NamedObject::OwnNode, slot.slot, self.node).is_some()
            && !matches!(slot.cap, Cap::Endpoint { .. })
    }
}

fn gives_more<P: Profile>(part_slots: &[PartSlot], cap: Cap) -> bool
    ensures { result ≡ spec.gives_more P.profile part_slots.now cap }
{
    let more = HoldsMore::<P> {
        node: cap,
        profile: PhantomData,
    };
    match cap {
        Cap::CNode { .. } => any(part_slots, &more),
        _ => false,
    }
}

/// Whether a slot is of a part, and names a CNode whose slots hold more than endpoints' capabilities.
#[derive(Drop)]
struct LeadsToMore<'a, P: Profile> {
    part_slots: &'a [PartSlot],
    part: u64,
    profile: PhantomData<P>,
}

impl<P: Profile> Asks<PartSlot> for LeadsToMore<'_, P> {
    ghost holds = { λ q slot. spec.leads_to_more P.profile q.part_slots.now q.part slot };

    fn holds(&self, slot: &PartSlot) -> bool {
        is_number(slot.part, self.part) && gives_more::<P>(self.part_slots, slot.cap)
    }
}

/// Whether a part only passes messages: each full slot of a CNode that a slot of the part names holds an endpoint's capability.
pub fn passes_alone<P: Profile>(part_slots: &[PartSlot], part: u64) -> bool
    ensures { result ≡ spec.passes_alone P.profile part_slots.now part }
{
    let more = LeadsToMore::<P> {
        part_slots,
        part,
        profile: PhantomData,
    };
    !any(part_slots, &more)
}

/// Those of some parts that only pass messages.
pub fn messengers<P: Profile>(
    alloc: Global,
    part_slots: &[PartSlot],
    parts: &[u64],
) -> Result<Vec<u64>, AllocError>
    ensures { IfOk result (λ v. v.items ≡ filter (spec.passes_alone P.profile part_slots.now) parts.now) }
{
    let mut messengers = Vec::new(alloc);
    for part in parts {
        if passes_alone::<P>(part_slots, *part) {
            messengers.push(*part)?;
        }
    }
    Ok(messengers)
}

/// The use that a slot of a part gives it, by an endpoint's capability.
#[derive(Clone, Copy)]
struct UseBySlot {
    part: u64,
}

impl Adds<PartSlot, PartUse> for UseBySlot {
    ghost added = { λ a slot. spec.use_by_slot a.part slot };

    fn add(
        &self,
        _alloc: Global,
        out: &mut Vec<PartUse>,
        slot: &PartSlot,
    ) -> Result<(), AllocError> {
        match slot.cap {
            Cap::Endpoint {
                base,
                badge,
                rights,
            } if is_number(slot.part, self.part) => {
                out.push(PartUse {
                    part: self.part,
                    endpoint: base,
                    badge,
                    rights,
                })?;
                Ok(())
            }
            _ => Ok(()),
        }
    }
}

/// The uses of a part that only passes messages.
pub fn uses_held(
    alloc: Global,
    part_slots: &[PartSlot],
    part: u64,
) -> Result<Vec<PartUse>, AllocError>
    ensures { IfOk result (λ v. v.items ≡ spec.uses_held part_slots.now part) }
{
    let mut uses = Vec::new(alloc);
    add_all(alloc, &mut uses, part_slots, &UseBySlot { part })?;
    uses.sort_unstable_by_key(|u| (u.part, u.endpoint, u.badge.0, u.rights.0));
    uses.dedup();
    Ok(uses)
}
