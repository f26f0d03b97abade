//! What of a kernel's state is held to a policy.
ghost use Rattle.std.specs.Prelude.{◌≡◌, ◌++◌, IfOk, OnOk, map};
ghost use Rattle.std.specs.List.{filter_map, flat_map};
ghost use Rattle.cap_core.specs.Numbers.{endpoint_bits as bits_of_endpoints};
ghost use Rattle.kernel_abstract.specs.Shown.{state_at};
ghost use Rattle.kernel_abstract.specs.Waiting.{offer_at};
ghost use Rattle.setup_report.specs.State as state;
ghost use Rattle.setup_report.specs.State.{rising as rising_of};
ghost use Rattle.slot_core.specs.Calls.{derivation_view};
ghost use Rattle.command_parts.specs.Ever.{AreRightParts};
ghost use Rattle.command_parts.specs.Text.{parts_of as numbers_of};
ghost use Rattle.command_policy_breaches.specs.Layouts as spec;

use crate::held::{EndpointOf, HeldRegion, Home, Layout, OfGroup, Waiting};
use cap_core::{Cap, Profile};
use command_parts::{listed, part_slots, part_takes, rising};
use ipc_core::{Offer, Waiters};
use kernel_core::{Kernel, ThreadState};
use list_questions::{Adds, Finds, Makes, add_all, all_found, each, those};
use query_parts::{PartMemory, PartUse, Parts, part_at};
use setup_policy::{Member, Policy};
use setup_report::StateRows;
use slot_core::{CapStore, Derivation, DerivationStore};
use std::alloc::{AllocError, Global};

/// The part of a thread.
#[derive(Clone, Copy)]
struct PartOfMember<'a>(&'a [PartMemory]);

impl Finds<Member, u64> for PartOfMember<'_> {
    ghost found = { λ f member. spec.part_of_member f.0.now member };

    fn find(&self, member: &Member) -> Option<u64> {
        part_at(self.0, member.thread)
    }
}

/// That a group has a thread in a part.
#[derive(Clone, Copy)]
struct HomeOfGroup(u64);

impl Makes<u64, Home> for HomeOfGroup {
    ghost made = { λ m part. spec.home m.0 part };

    fn make(&self, part: &u64) -> Home {
        Home {
            group: self.0,
            part: *part,
        }
    }
}

/// Adds that a group has threads in these parts, each part once.
pub fn add_homes(
    alloc: Global,
    homes: &mut Vec<Home>,
    group: u64,
    parts: &[u64],
) -> Result<(), AllocError>
    ensures { OnOk result (homes.new.items ≡ homes.old.items ++ spec.homes_at group parts.now) }
{
    let parts = rising(alloc, parts)?;
    let more = each(alloc, parts.as_slice(), &HomeOfGroup(group))?;
    homes.extend_from_slice(more.as_slice())?;
    Ok(())
}

/// In which parts the threads of a group lie.
#[derive(Clone, Copy)]
struct MemberHomes<'a> {
    memory: &'a [PartMemory],
    members: &'a [Member],
}

impl Adds<u64, Home> for MemberHomes<'_> {
    ghost added = { λ a group. spec.homes_of a.memory.now a.members.now group };

    fn add(&self, alloc: Global, homes: &mut Vec<Home>, group: &u64) -> Result<(), AllocError> {
        let own = those(alloc, self.members, &OfGroup(*group))?;
        let parts = all_found(alloc, own.as_slice(), &PartOfMember(self.memory))?;
        add_homes(alloc, homes, *group, parts.as_slice())
    }
}

fn homes(alloc: Global, memory: &[PartMemory], policy: &Policy) -> Result<Vec<Home>, AllocError>
    ensures { IfOk result (λ v. v.items ≡ flat_map (spec.homes_of memory.now policy.now.members.items) policy.now.groups.items) }
{
    let mut homes = Vec::new(alloc);
    let members = policy.members.as_slice();
    add_all(
        alloc,
        &mut homes,
        policy.groups.as_slice(),
        &MemberHomes { memory, members },
    )?;
    Ok(homes)
}

fn endpoints_to_check(
    alloc: Global,
    uses: &[PartUse],
    waits: &[Waiting],
) -> Result<Vec<u64>, AllocError>
    ensures { IfOk result (λ v. v.items ≡ spec.endpoints_to_check uses.now waits.now) }
{
    let mut endpoints = each(alloc, uses, &EndpointOf)?;
    let others = each(alloc, waits, &EndpointOf)?;
    endpoints.extend_from_slice(others.as_slice())?;
    rising(alloc, endpoints.as_slice())
}

fn wait_in(thread: u64, state: Option<ThreadState>, offer: Option<Offer>) -> Option<Waiting>
    ensures { result ≡ spec.waiting_in thread state offer }
{
    let (endpoint, badge, sends) = match (state, offer) {
        (Some(ThreadState::Sending(endpoint)), Some(offer)) => (endpoint, offer.badge.0, true),
        (Some(ThreadState::Sending(endpoint)), None) => (endpoint, 0, true),
        (Some(ThreadState::Receiving(endpoint)), _) => (endpoint, 0, false),
        (Some(ThreadState::Ready) | Some(ThreadState::Inactive) | None, _) => return None,
    };
    Some(Waiting {
        thread,
        endpoint,
        badge,
        sends,
    })
}

fn waits<P: Profile, S: CapStore<P> + Drop, W: Waiters<P> + Drop>(
    alloc: Global,
    kernel: &Kernel<P, S, W>,
    threads: &[u64],
) -> Result<Vec<Waiting>, AllocError>
    ensures { IfOk result (λ v. v.items ≡ filter_map (spec.waiting_of kernel.now) threads.now) }
{
    let mut waits = Vec::new(alloc);
    for thread in threads {
        let wait = wait_in(*thread, kernel.thread_state(*thread), kernel.offer(*thread));
        if let Some(wait) = wait {
            waits.push(wait)?;
        }
    }
    Ok(waits)
}

fn region_of<P: Profile>(memory: &[PartMemory], derivation: &Derivation) -> Option<HeldRegion>
    ensures { result ≡ spec.region_of memory.now (derivation_view P.profile derivation.now) }
{
    match derivation.cap {
        Cap::Untyped { base, bits, .. } => match part_at(memory, derivation.slot.address::<P>()) {
            None => None,
            Some(part) => Some(HeldRegion { part, base, bits }),
        },
        _ => None,
    }
}

fn regions<P: Profile>(
    alloc: Global,
    memory: &[PartMemory],
    slots: &[Derivation],
) -> Result<Vec<HeldRegion>, AllocError>
    ensures { IfOk result (λ v. v.items ≡ filter_map (λ d. spec.region_of memory.now (derivation_view P.profile d)) slots.now) }
{
    let mut regions = Vec::new(alloc);
    for slot in slots {
        if let Some(region) = region_of::<P>(memory, slot) {
            regions.push(region)?;
        }
    }
    Ok(regions)
}

#[derive(Clone, Copy)]
struct PartOf;

impl Makes<PartMemory, u64> for PartOf {
    ghost made = { λ m stretch. stretch.part };

    fn make(&self, stretch: &PartMemory) -> u64 {
        stretch.part
    }
}

/// The numbers of parts.
fn part_numbers(alloc: Global, memory: &[PartMemory]) -> Result<Vec<u64>, AllocError>
    ensures { IfOk result (λ v. v.items ≡ numbers_of memory.now) }
{
    let parts = each(alloc, memory, &PartOf)?;
    rising(alloc, parts.as_slice())
}

#[derive(Clone, Copy)]
struct ThreadOf;

impl Makes<Member, u64> for ThreadOf {
    ghost made = { λ m trusted. trusted.thread };

    fn make(&self, trusted: &Member) -> u64 {
        trusted.thread
    }
}

/// The threads of a policy that are trusted, rising.
pub fn trusted_threads(alloc: Global, policy: &Policy) -> Result<Vec<u64>, AllocError>
    ensures { IfOk result (λ v. v.items ≡ spec.trusted_threads policy.now) }
{
    let mut threads = each(alloc, policy.silent.as_slice(), &ThreadOf)?;
    let others = each(alloc, policy.messages.as_slice(), &ThreadOf)?;
    threads.extend_from_slice(others.as_slice())?;
    rising(alloc, threads.as_slice())
}

/// What of a kernel's state is held to a policy, by the parts around the threads that the policy does not trust.
pub fn layout_of<P: Profile, S: DerivationStore<P> + Drop, W: Waiters<P> + Drop>(
    alloc: Global,
    policy: &Policy,
    kernel: &Kernel<P, S, W>,
    rows: &StateRows,
    parts: Parts,
) -> Result<Layout, AllocError>
    requires threads { rows.now.threads.keys ≡ state.threads P.profile kernel.now }
    requires slots { map (derivation_view P.profile) rows.now.slots.items ≡ state.slot_rows kernel.now }
    requires parts { AreRightParts P.profile kernel.now (spec.trusted_threads policy.now) parts.memory.items parts.uses.items }
    ensures { IfOk result (spec.IsLayoutOf P.profile policy.now kernel.now) }
{
    let Parts { memory, uses } = parts;
    let threads = listed(alloc, &rows.threads)?;
    let numbers = part_numbers(alloc, memory.as_slice())?;
    let homes = homes(alloc, memory.as_slice(), policy)?;
    let _agree = kernel.waiting(0, 0);
    let waits = waits::<P, S, W>(alloc, kernel, threads.as_slice())?;
    let endpoints = endpoints_to_check(alloc, uses.as_slice(), waits.as_slice())?;
    let regions = regions::<P>(alloc, memory.as_slice(), rows.slots.as_slice())?;
    let slots = part_slots(alloc, memory.as_slice(), kernel)?;
    let takes = part_takes(alloc, slots.as_slice(), numbers.as_slice())?;
    Ok(Layout {
        memory,
        uses,
        parts: numbers,
        endpoints,
        endpoint_bits: P::ENDPOINT_BITS,
        homes,
        waits,
        regions,
        takes,
    })
}
