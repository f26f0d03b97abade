//! Where what is told of a breach comes from, below its line.
ghost use Rattle.std.specs.Prelude.{◌≡◌, ◌++◌, IfOk, OnOk, Some, string_bytes};
ghost use Rattle.command_policy_text.specs.Places as spec;

use crate::told::{Held, Told};
use cap_core::Profile;
use command_policy_places::{FirstCalls, SiteNames, Sited, Sites, add_place};
use ipc_core::MakeWaiters;
use slot_core::MakeStore;
use std::alloc::{AllocError, Global};

/// Where breaches come from: what is looked at of a layout, how it is told, and the first calls of its set-up.
#[derive(Clone, Copy)]
pub struct Origin<'a> {
    pub sites: &'a Sites,
    pub names: SiteNames<'a>,
    pub calls: FirstCalls<'a>,
}

/// The places of what is told. Only breaches have some.
pub fn places_of(
    alloc: Global,
    held: Held<'_>,
    sites: &Sites,
    told: Told,
) -> Result<Vec<Sited>, AllocError>
    ensures { IfOk result (λ v. v.items ≡ spec.places_of held.entry.policy.now held.entry.layout.now sites.now.blocks.items sites.now.slots.items told) }
{
    match told {
        Told::Grant(join) => sites.of_join(alloc, held.layout, &join),
        Told::Thread(hold) => sites.of_hold(alloc, &hold),
        Told::Region(region) => sites.of_region(alloc, &region),
        Told::Use(used) | Told::Badge(used) | Told::Right(used) => sites.of_use(alloc, &used),
        Told::Way(passage) => sites.of_passage(alloc, held.policy, held.layout, &passage),
        Told::Waits(wait) => sites.of_wait(alloc, &wait),
        Told::Taken(take) => sites.of_take(alloc, &take),
        Told::Silent(_)
        | Told::Messages(_)
        | Told::Group(_)
        | Told::Joined(_)
        | Told::UnusedWay(_)
        | Told::UnusedUse(_)
        | Told::IdleInWay(_)
        | Told::IdleInUse(_)
        | Told::UnusedRegion(_)
        | Told::UnusedGroup(_)
        | Told::UnusedTake(_) => Ok(Vec::new(alloc)),
    }
}

/// Adds a line for each place of what is told.
fn add_lines<P: Profile, S: MakeStore<P>, W: MakeWaiters<P>>(
    alloc: Global,
    out: &mut String,
    held: Held<'_>,
    origin: Origin<'_>,
    told: Told,
) -> Result<(), AllocError>
    requires { spec.IsOrigin P.profile (Some origin) }
    ensures { OnOk result (string_bytes out.new ≡ string_bytes out.old ++ spec.places_told P.profile held.entry.policy.now held.entry.layout.now (Some origin.entry) told) }
{
    let places = places_of(alloc, held, origin.sites, told)?;
    for sited in &places {
        let place = origin.calls.of_place::<P, S, W>(alloc, *sited)?;
        add_place(out, origin.names, place)?;
    }
    Ok(())
}

/// Adds a line for each place of what is told, where places are told.
pub fn add_places<P: Profile, S: MakeStore<P>, W: MakeWaiters<P>>(
    alloc: Global,
    out: &mut String,
    held: Held<'_>,
    origin: Option<Origin<'_>>,
    told: Told,
) -> Result<(), AllocError>
    requires { spec.IsOrigin P.profile origin }
    ensures { OnOk result (string_bytes out.new ≡ string_bytes out.old ++ spec.places_told P.profile held.entry.policy.now held.entry.layout.now origin.entry told) }
{
    match origin {
        None => Ok(()),
        Some(origin) => add_lines::<P, S, W>(alloc, out, held, origin, told),
    }
}
