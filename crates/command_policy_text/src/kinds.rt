//! The kinds of lines: what is told of a layout, one kind after another.
ghost use Rattle.std.specs.Prelude.{◌≡◌, ◌++◌, nat_lt, IfOk, map};
ghost use Rattle.command_policy_breaches.specs.Unused.{count_of_parts as count_of_parts_at};
ghost use Rattle.command_policy_text.specs.Kinds as spec;

use crate::told::{Held, Told};
use command_parts::Take;
use command_policy_breaches::{
    HeldRegion, Hold, Home, Join, Passage, Waiting, badges_amiss, count_of_parts, holds,
    joins_amiss, parts_of_several, passages_amiss, regions_amiss, rights_amiss, takes_amiss,
    unlisted, unused_regions, unused_takes, unused_uses, unused_ways, uses_with_idle_rights,
    waits_amiss, ways_with_idle_rights,
};
use list_questions::{Asks, Makes, each, those};
use query_parts::PartUse;
use setup_policy::{Allowance, Member, OwnRegion, Policy, PolicyTake, PolicyWay};
use std::alloc::{AllocError, Global};

#[derive(Clone, Copy)]
struct AsSilent;

impl Makes<Member, Told> for AsSilent {
    ghost use Rattle.command_policy_text.specs.declared.told.Told.TheVariants.{Silent};

    ghost made = { λ m member. Silent member.thread };

    fn make(&self, member: &Member) -> Told {
        Told::Silent(member.thread)
    }
}

#[derive(Clone, Copy)]
struct AsMessages;

impl Makes<Member, Told> for AsMessages {
    ghost use Rattle.command_policy_text.specs.declared.told.Told.TheVariants.{Messages};

    ghost made = { λ m member. Messages member.thread };

    fn make(&self, member: &Member) -> Told {
        Told::Messages(member.thread)
    }
}

#[derive(Clone, Copy)]
struct AsGroup;

impl Makes<u64, Told> for AsGroup {
    ghost use Rattle.command_policy_text.specs.declared.told.Told.TheVariants.{Group};

    ghost made = { λ m group. Group group };

    fn make(&self, group: &u64) -> Told {
        Told::Group(*group)
    }
}

#[derive(Clone, Copy)]
struct AsJoined;

impl Makes<u64, Told> for AsJoined {
    ghost use Rattle.command_policy_text.specs.declared.told.Told.TheVariants.{Joined};

    ghost made = { λ m part. Joined part };

    fn make(&self, part: &u64) -> Told {
        Told::Joined(*part)
    }
}

#[derive(Clone, Copy)]
struct AsGrant;

impl Makes<Join, Told> for AsGrant {
    ghost use Rattle.command_policy_text.specs.declared.told.Told.TheVariants.{Grant};

    ghost made = { λ m join. Grant join };

    fn make(&self, join: &Join) -> Told {
        Told::Grant(*join)
    }
}

#[derive(Clone, Copy)]
struct AsThread;

impl Makes<Hold, Told> for AsThread {
    ghost use Rattle.command_policy_text.specs.declared.told.Told.TheVariants.{Thread};

    ghost made = { λ m hold. Thread hold };

    fn make(&self, hold: &Hold) -> Told {
        Told::Thread(*hold)
    }
}

#[derive(Clone, Copy)]
struct AsRegion;

impl Makes<HeldRegion, Told> for AsRegion {
    ghost use Rattle.command_policy_text.specs.declared.told.Told.TheVariants.{Region};

    ghost made = { λ m region. Region region };

    fn make(&self, region: &HeldRegion) -> Told {
        Told::Region(*region)
    }
}

#[derive(Clone, Copy)]
struct AsUse;

impl Makes<PartUse, Told> for AsUse {
    ghost use Rattle.command_policy_text.specs.declared.told.Told.TheVariants.{Use};

    ghost made = { λ m used. Use used };

    fn make(&self, used: &PartUse) -> Told {
        Told::Use(*used)
    }
}

#[derive(Clone, Copy)]
struct AsBadge;

impl Makes<PartUse, Told> for AsBadge {
    ghost use Rattle.command_policy_text.specs.declared.told.Told.TheVariants.{Badge};

    ghost made = { λ m used. Badge used };

    fn make(&self, used: &PartUse) -> Told {
        Told::Badge(*used)
    }
}

#[derive(Clone, Copy)]
struct AsRight;

impl Makes<PartUse, Told> for AsRight {
    ghost use Rattle.command_policy_text.specs.declared.told.Told.TheVariants.{Right};

    ghost made = { λ m used. Right used };

    fn make(&self, used: &PartUse) -> Told {
        Told::Right(*used)
    }
}

#[derive(Clone, Copy)]
struct AsWay;

impl Makes<Passage, Told> for AsWay {
    ghost use Rattle.command_policy_text.specs.declared.told.Told.TheVariants.{Way};

    ghost made = { λ m passage. Way passage };

    fn make(&self, passage: &Passage) -> Told {
        Told::Way(*passage)
    }
}

#[derive(Clone, Copy)]
struct AsWaits;

impl Makes<Waiting, Told> for AsWaits {
    ghost use Rattle.command_policy_text.specs.declared.told.Told.TheVariants.{Waits};

    ghost made = { λ m wait. Waits wait };

    fn make(&self, wait: &Waiting) -> Told {
        Told::Waits(*wait)
    }
}

#[derive(Clone, Copy)]
struct AsTaken;

impl Makes<Take, Told> for AsTaken {
    ghost use Rattle.command_policy_text.specs.declared.told.Told.TheVariants.{Taken};

    ghost made = { λ m take. Taken take };

    fn make(&self, take: &Take) -> Told {
        Told::Taken(*take)
    }
}

#[derive(Clone, Copy)]
struct AsUnusedWay;

impl Makes<PolicyWay, Told> for AsUnusedWay {
    ghost use Rattle.command_policy_text.specs.declared.told.Told.TheVariants.{UnusedWay};

    ghost made = { λ m way. UnusedWay way };

    fn make(&self, way: &PolicyWay) -> Told {
        Told::UnusedWay(*way)
    }
}

#[derive(Clone, Copy)]
struct AsUnusedUse;

impl Makes<Allowance, Told> for AsUnusedUse {
    ghost use Rattle.command_policy_text.specs.declared.told.Told.TheVariants.{UnusedUse};

    ghost made = { λ m used. UnusedUse used };

    fn make(&self, used: &Allowance) -> Told {
        Told::UnusedUse(*used)
    }
}

#[derive(Clone, Copy)]
struct AsIdleInWay;

impl Makes<PolicyWay, Told> for AsIdleInWay {
    ghost use Rattle.command_policy_text.specs.declared.told.Told.TheVariants.{IdleInWay};

    ghost made = { λ m way. IdleInWay way };

    fn make(&self, way: &PolicyWay) -> Told {
        Told::IdleInWay(*way)
    }
}

#[derive(Clone, Copy)]
struct AsIdleInUse;

impl Makes<Allowance, Told> for AsIdleInUse {
    ghost use Rattle.command_policy_text.specs.declared.told.Told.TheVariants.{IdleInUse};

    ghost made = { λ m used. IdleInUse used };

    fn make(&self, used: &Allowance) -> Told {
        Told::IdleInUse(*used)
    }
}

#[derive(Clone, Copy)]
struct AsUnusedRegion;

impl Makes<OwnRegion, Told> for AsUnusedRegion {
    ghost use Rattle.command_policy_text.specs.declared.told.Told.TheVariants.{UnusedRegion};

    ghost made = { λ m own. UnusedRegion own };

    fn make(&self, own: &OwnRegion) -> Told {
        Told::UnusedRegion(*own)
    }
}

#[derive(Clone, Copy)]
struct AsUnusedGroup;

impl Makes<u64, Told> for AsUnusedGroup {
    ghost use Rattle.command_policy_text.specs.declared.told.Told.TheVariants.{UnusedGroup};

    ghost made = { λ m group. UnusedGroup group };

    fn make(&self, group: &u64) -> Told {
        Told::UnusedGroup(*group)
    }
}

#[derive(Clone, Copy)]
struct AsUnusedTake;

impl Makes<PolicyTake, Told> for AsUnusedTake {
    ghost use Rattle.command_policy_text.specs.declared.told.Told.TheVariants.{UnusedTake};

    ghost made = { λ m take. UnusedTake take };

    fn make(&self, take: &PolicyTake) -> Told {
        Told::UnusedTake(*take)
    }
}

/// The threads that are trusted to make no more calls.
pub fn silent(alloc: Global, policy: &Policy) -> Result<Vec<Told>, AllocError>
    ensures { IfOk result (λ v. v.items ≡ spec.silent policy.now) }
{
    let threads = policy.silent.as_slice();
    each(alloc, threads, &AsSilent)
}

/// The threads that are trusted to send and to receive.
pub fn messages(alloc: Global, policy: &Policy) -> Result<Vec<Told>, AllocError>
    ensures { IfOk result (λ v. v.items ≡ spec.messages policy.now) }
{
    let threads = policy.messages.as_slice();
    each(alloc, threads, &AsMessages)
}

/// The groups.
pub fn groups(alloc: Global, policy: &Policy) -> Result<Vec<Told>, AllocError>
    ensures { IfOk result (λ v. v.items ≡ spec.groups policy.now) }
{
    let groups = policy.groups.as_slice();
    each(alloc, groups, &AsGroup)
}

/// The parts in which threads of several groups are.
pub fn joined(alloc: Global, held: Held<'_>) -> Result<Vec<Told>, AllocError>
    ensures { IfOk result (λ v. v.items ≡ spec.joined_breaches held.entry.layout.now) }
{
    let parts = parts_of_several(alloc, held.layout)?;
    let parts = parts.as_slice();
    each(alloc, parts, &AsJoined)
}

/// What parts can hand to each other.
pub fn grants(alloc: Global, held: Held<'_>, joins: &[Join]) -> Result<Vec<Told>, AllocError>
    ensures { IfOk result (λ v. v.items ≡ spec.grants held.entry.layout.now joins.now) }
{
    let joins = joins_amiss(alloc, held.layout, joins)?;
    let joins = joins.as_slice();
    each(alloc, joins, &AsGrant)
}

/// The trusted threads whose control blocks parts have.
pub fn threads(alloc: Global, held: Held<'_>) -> Result<Vec<Told>, AllocError>
    ensures { IfOk result (λ v. v.items ≡ spec.thread_breaches held.entry.policy.now held.entry.layout.now) }
{
    let mut all = holds(alloc, held.layout, held.policy.silent.as_slice())?;
    let others = holds(alloc, held.layout, held.policy.messages.as_slice())?;
    all.extend_from_slice(others.as_slice())?;
    let all = all.as_slice();
    each(alloc, all, &AsThread)
}

/// The untyped regions that parts have and that are none of their own.
pub fn regions(alloc: Global, held: Held<'_>) -> Result<Vec<Told>, AllocError>
    ensures { IfOk result (λ v. v.items ≡ spec.regions held.entry.policy.now held.entry.layout.now) }
{
    let regions = regions_amiss(alloc, held.policy, held.layout)?;
    let regions = regions.as_slice();
    each(alloc, regions, &AsRegion)
}

/// The capabilities to endpoints of which the part has no entry.
pub fn uses(alloc: Global, held: Held<'_>) -> Result<Vec<Told>, AllocError>
    ensures { IfOk result (λ v. v.items ≡ spec.uses held.entry.policy.now held.entry.layout.now) }
{
    let uses = unlisted(alloc, held.policy, held.layout)?;
    let uses = uses.as_slice();
    each(alloc, uses, &AsUse)
}

/// The capabilities with another badge than the part's entries.
pub fn badges(alloc: Global, held: Held<'_>) -> Result<Vec<Told>, AllocError>
    ensures { IfOk result (λ v. v.items ≡ spec.badge_breaches held.entry.policy.now held.entry.layout.now) }
{
    let uses = badges_amiss(alloc, held.policy, held.layout)?;
    let uses = uses.as_slice();
    each(alloc, uses, &AsBadge)
}

/// The capabilities with a right that none of the part's entries has.
pub fn rights(alloc: Global, held: Held<'_>) -> Result<Vec<Told>, AllocError>
    ensures { IfOk result (λ v. v.items ≡ spec.right_breaches held.entry.policy.now held.entry.layout.now) }
{
    let uses = rights_amiss(alloc, held.policy, held.layout)?;
    let uses = uses.as_slice();
    each(alloc, uses, &AsRight)
}

/// What no way lets pass, but for badges that are told of what is held.
fn untold_passages(
    alloc: Global,
    held: Held<'_>,
    passages: &[Passage],
) -> Result<Vec<Passage>, AllocError>
    ensures { IfOk result (λ v. v.items ≡ spec.untold_passages held.entry.policy.now held.entry.layout.now held.entry.homes.now passages.now) }
{
    let Held { policy, layout, .. } = held;
    let mut uses = badges_amiss(alloc, policy, layout)?;
    let others = rights_amiss(alloc, policy, layout)?;
    uses.extend_from_slice(others.as_slice())?;
    let waits = waits_amiss(alloc, policy, layout)?;
    let amiss = passages_amiss(
        alloc,
        policy,
        layout,
        held.homes,
        uses.as_slice(),
        waits.as_slice(),
        passages,
    )?;
    Ok(amiss)
}

/// What no way lets pass.
pub fn ways(alloc: Global, held: Held<'_>, passages: &[Passage]) -> Result<Vec<Told>, AllocError>
    ensures { IfOk result (λ v. v.items ≡ spec.passage_breaches held.entry.policy.now held.entry.layout.now held.entry.homes.now passages.now) }
{
    let amiss = untold_passages(alloc, held, passages)?;
    let amiss = amiss.as_slice();
    each(alloc, amiss, &AsWay)
}

/// The threads that wait where no entry lets them.
pub fn waits(alloc: Global, held: Held<'_>) -> Result<Vec<Told>, AllocError>
    ensures { IfOk result (λ v. v.items ≡ spec.waiting_breaches held.entry.policy.now held.entry.layout.now) }
{
    let waits = waits_amiss(alloc, held.policy, held.layout)?;
    let waits = waits.as_slice();
    each(alloc, waits, &AsWaits)
}

/// What parts take from others, and no entry lets them.
pub fn takes(alloc: Global, held: Held<'_>) -> Result<Vec<Told>, AllocError>
    ensures { IfOk result (λ v. v.items ≡ spec.take_breaches held.entry.policy.now held.entry.layout.now) }
{
    let takes = takes_amiss(alloc, held.policy, held.layout)?;
    let takes = takes.as_slice();
    each(alloc, takes, &AsTaken)
}

/// All that breaks a policy, but calls: kind by kind, in their order.
pub fn breaches(
    alloc: Global,
    held: Held<'_>,
    joins: &[Join],
    passages: &[Passage],
) -> Result<[Vec<Told>; 10], AllocError>
    ensures { IfOk result (λ kinds. map (λ kind. kind.items) kinds
        ≡ spec.breach_kinds held.entry.policy.now held.entry.layout.now held.entry.homes.now joins.now passages.now) }
{
    Ok([
        joined(alloc, held)?,
        grants(alloc, held, joins)?,
        threads(alloc, held)?,
        regions(alloc, held)?,
        uses(alloc, held)?,
        badges(alloc, held)?,
        rights(alloc, held)?,
        ways(alloc, held, passages)?,
        waits(alloc, held)?,
        takes(alloc, held)?,
    ])
}

/// The ways of which nothing is there.
pub fn idle_ways(alloc: Global, held: Held<'_>) -> Result<Vec<Told>, AllocError>
    ensures { IfOk result (λ v. v.items ≡ spec.idle_ways held.entry.policy.now held.entry.layout.now) }
{
    let ways = unused_ways(alloc, held.policy, held.layout)?;
    let ways = ways.as_slice();
    each(alloc, ways, &AsUnusedWay)
}

/// The uses of which nothing is there.
pub fn idle_uses(alloc: Global, held: Held<'_>) -> Result<Vec<Told>, AllocError>
    ensures { IfOk result (λ v. v.items ≡ spec.idle_uses held.entry.policy.now held.entry.layout.now) }
{
    let uses = unused_uses(alloc, held.policy, held.layout)?;
    let uses = uses.as_slice();
    each(alloc, uses, &AsUnusedUse)
}

fn idle_in_ways(alloc: Global, held: Held<'_>) -> Result<Vec<Told>, AllocError>
    ensures { IfOk result (λ v. v.items ≡ spec.idle_in_ways held.entry.policy.now held.entry.layout.now) }
{
    let ways = ways_with_idle_rights(alloc, held.policy, held.layout)?;
    let ways = ways.as_slice();
    each(alloc, ways, &AsIdleInWay)
}

fn idle_in_uses(alloc: Global, held: Held<'_>) -> Result<Vec<Told>, AllocError>
    ensures { IfOk result (λ v. v.items ≡ spec.idle_in_uses held.entry.policy.now held.entry.layout.now) }
{
    let uses = uses_with_idle_rights(alloc, held.policy, held.layout)?;
    let uses = uses.as_slice();
    each(alloc, uses, &AsIdleInUse)
}

/// The rights of ways and of uses that nothing has.
pub fn idle_rights(alloc: Global, held: Held<'_>) -> Result<Vec<Told>, AllocError>
    ensures { IfOk result (λ v. v.items ≡ spec.idle_rights held.entry.policy.now held.entry.layout.now) }
{
    let mut idle = idle_in_ways(alloc, held)?;
    let others = idle_in_uses(alloc, held)?;
    idle.extend_from_slice(others.as_slice())?;
    Ok(idle)
}

/// The regions of which nothing is there.
pub fn idle_regions(alloc: Global, held: Held<'_>) -> Result<Vec<Told>, AllocError>
    ensures { IfOk result (λ v. v.items ≡ spec.idle_regions held.entry.policy.now held.entry.layout.now) }
{
    let regions = unused_regions(alloc, held.policy, held.layout)?;
    let regions = regions.as_slice();
    each(alloc, regions, &AsUnusedRegion)
}

/// Whether the threads of a group are several parts.
#[derive(Clone, Copy)]
struct OfSeveralParts<'a>(&'a [Home]);

impl Asks<u64> for OfSeveralParts<'_> {
    ghost holds = { λ q group. nat_lt 1 (count_of_parts_at q.0.now group) };

    fn holds(&self, group: &u64) -> bool {
        count_of_parts(self.0, *group) > 1
    }
}

/// The groups whose threads are several parts.
pub fn idle_groups(alloc: Global, held: Held<'_>) -> Result<Vec<Told>, AllocError>
    ensures { IfOk result (λ v. v.items ≡ spec.idle_groups held.entry.policy.now held.entry.homes.now) }
{
    let groups = held.policy.groups.as_slice();
    let several = those(alloc, groups, &OfSeveralParts(held.homes))?;
    each(alloc, several.as_slice(), &AsUnusedGroup)
}

/// The takes of which nothing is there.
pub fn idle_takes(alloc: Global, held: Held<'_>) -> Result<Vec<Told>, AllocError>
    ensures { IfOk result (λ v. v.items ≡ spec.idle_takes held.entry.policy.now held.entry.layout.now) }
{
    let takes = unused_takes(alloc, held.policy, held.layout)?;
    let takes = takes.as_slice();
    each(alloc, takes, &AsUnusedTake)
}
