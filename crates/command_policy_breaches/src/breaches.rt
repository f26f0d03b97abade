//! What breaks a policy, but the ways: of each part, what it has and no entry lets it have.
ghost use Rattle.std.specs.Prelude.{◌≡◌, not, IfOk, filter};
ghost use Rattle.std.specs.List.{filter_map};
ghost use Rattle.query_parts.specs.Listed.{last_in};
ghost use Rattle.command_policy_breaches.specs.Breaches as spec;
ghost use Rattle.command_policy_breaches.specs.Joins.{have_one_group, have_two_groups};

use crate::held::{Checked, HeldRegion, Home, Layout, Waiting};
use crate::joining::{Join, have_one_group as one_group, have_two_groups as two_groups};
use crate::sides::is_in_part;
use bitflags::Flags;
use cap_core::Rights;
use list_questions::{Asks, Finds, all_found, any, those};
use query_parts::{PartUse, part_at};
use setup_policy::{Allowance, Member, OwnRegion, Policy};
use std::alloc::{AllocError, Global};

/// The last of 2^`bits` addresses; `None` where that is no word.
fn last_of(base: u64, bits: u32) -> Option<u64>
    ensures { result ≡ last_in base bits }
{
    if bits >= 64 {
        return None;
    }
    let more = (1u64 << bits) - 1;
    if base > u64::MAX - more {
        return None;
    }
    Some(base + more)
}

/// Whether the addresses from `base` on, 2^`bits` of them, lie among those from `first` on, 2^`most` of them.
pub fn lies_within(base: u64, bits: u32, first: u64, most: u32) -> bool
    ensures { result ≡ spec.range_lies_within base bits first most }
{
    match (last_of(base, bits), last_of(first, most)) {
        (Some(last), Some(end)) => first <= base && last <= end,
        _ => false,
    }
}

/// Whether addresses lie in a region, and a group that has it has threads in the part.
#[derive(Clone, Copy)]
struct OwnAround<'a> {
    layout: &'a Layout,
    part: u64,
    base: u64,
    bits: u32,
}

impl Asks<OwnRegion> for OwnAround<'_> {
    ghost holds = { λ q own. spec.has_region q.layout.now q.part q.base q.bits own };

    fn holds(&self, own: &OwnRegion) -> bool {
        lies_within(self.base, self.bits, own.base, own.bits)
            && is_in_part(self.layout, own.group, self.part)
    }
}

/// Whether addresses lie in a region of a group that has threads in the part.
pub fn is_own(policy: &Policy, layout: &Layout, part: u64, base: u64, bits: u32) -> bool
    ensures { result ≡ spec.is_own policy.now layout.now part base bits }
{
    let around = OwnAround {
        layout,
        part,
        base,
        bits,
    };
    any(policy.regions.as_slice(), &around)
}

/// Whether an endpoint lies in a region of a group that has threads in the part.
pub fn is_own_endpoint(policy: &Policy, layout: &Layout, part: u64, endpoint: u64) -> bool
    ensures { result ≡ spec.is_own_endpoint policy.now layout.now part endpoint }
{
    is_own(policy, layout, part, endpoint, layout.endpoint_bits)
}

/// Whether an entry is of an endpoint, and of a group that has threads in the part.
pub fn is_entry(layout: &Layout, part: u64, endpoint: u64, entry: &Allowance) -> bool
    ensures { result ≡ spec.is_entry layout.now part endpoint entry.now }
{
    entry.endpoint == endpoint && is_in_part(layout, entry.actor, part)
}

/// Whether what is said of a badge is said of another: where it is said of any, or of this one.
pub fn meets(allowed: u64, badge: u64) -> bool
    ensures { result ≡ spec.meets allowed badge }
{
    allowed == 0 || allowed == badge
}

/// What is asked of an entry for an endpoint.
#[derive(Clone, Copy)]
pub enum Need {
    /// That it is there.
    Entry,
    /// That it has a right, with whatever badge.
    Right(Rights),
    /// That it has a badge, with whatever rights.
    Badge(u64),
    /// That it has a right with a badge.
    RightWith(Rights, u64),
}

/// Whether an entry of a part for an endpoint has what is asked.
#[derive(Clone, Copy)]
struct EntryWith<'a> {
    layout: &'a Layout,
    part: u64,
    endpoint: u64,
    need: Need,
}

impl Asks<Allowance> for EntryWith<'_> {
    ghost holds = { λ q entry. spec.is_entry_with q.need q.layout.now q.part q.endpoint entry };

    fn holds(&self, entry: &Allowance) -> bool {
        is_entry(self.layout, self.part, self.endpoint, entry)
            && match self.need {
                Need::Entry => true,
                Need::Right(right) => entry.rights.contains(right),
                Need::Badge(badge) => meets(entry.badge, badge),
                Need::RightWith(right, badge) => {
                    entry.rights.contains(right) && meets(entry.badge, badge)
                }
            }
    }
}

fn lets(policy: &Policy, layout: &Layout, part: u64, endpoint: u64, need: Need) -> bool
    ensures { result ≡ spec.lets policy.now layout.now part endpoint need }
{
    let entry = EntryWith {
        layout,
        part,
        endpoint,
        need,
    };
    any(policy.allowances.as_slice(), &entry)
}

/// Whether an entry has a right, with whatever badge.
pub fn lets_ever(policy: &Policy, layout: &Layout, part: u64, endpoint: u64, right: Rights) -> bool
    ensures { result ≡ spec.lets_ever policy.now layout.now part endpoint right.0 }
{
    lets(policy, layout, part, endpoint, Need::Right(right))
}

fn lets_badge(policy: &Policy, layout: &Layout, part: u64, endpoint: u64, badge: u64) -> bool
    ensures { result ≡ spec.lets_badge policy.now layout.now part endpoint badge }
{
    lets(policy, layout, part, endpoint, Need::Badge(badge))
}

/// Whether a use has a right that no entry of the endpoint has.
fn exceeds(policy: &Policy, layout: &Layout, used: &PartUse, right: Rights) -> bool
    ensures { result ≡ spec.exceeds policy.now layout.now used.now right.0 }
{
    used.rights.contains(right) && !lets_ever(policy, layout, used.part, used.endpoint, right)
}

/// Whether a use has a right that entries of the endpoint have, and none of them with its badge.
pub fn strays(policy: &Policy, layout: &Layout, used: &PartUse, right: Rights) -> bool
    ensures { result ≡ spec.is_stray_right policy.now layout.now used.now right.0 }
{
    used.rights.contains(right)
        && lets_ever(policy, layout, used.part, used.endpoint, right)
        && !lets(
            policy,
            layout,
            used.part,
            used.endpoint,
            Need::RightWith(right, used.badge.0),
        )
}

fn is_listed(policy: &Policy, layout: &Layout, used: &PartUse) -> bool
    ensures { result ≡ spec.is_listed policy.now layout.now used.now }
{
    !is_own_endpoint(policy, layout, used.part, used.endpoint)
        && lets(policy, layout, used.part, used.endpoint, Need::Entry)
}

fn has_no_right(used: &PartUse) -> bool
    ensures { result ≡ spec.has_no_right used.now }
{
    !used.rights.contains(Rights::WRITE)
        && !used.rights.contains(Rights::READ)
        && !used.rights.contains(Rights::GRANT)
        && !used.rights.contains(Rights::GRANT_REPLY)
}

fn strays_somehow(policy: &Policy, layout: &Layout, used: &PartUse) -> bool
    ensures { result ≡ spec.strays_somehow policy.now layout.now used.now }
{
    strays(policy, layout, used, Rights::WRITE)
        || strays(policy, layout, used, Rights::READ)
        || strays(policy, layout, used, Rights::GRANT)
        || strays(policy, layout, used, Rights::GRANT_REPLY)
        || (has_no_right(used)
            && !lets_badge(policy, layout, used.part, used.endpoint, used.badge.0))
}

/// Whether no entry of the part's groups is of the endpoint of a use.
#[derive(Clone, Copy)]
struct NoEntry<'a>(Checked<'a>);

impl Asks<PartUse> for NoEntry<'_> {
    ghost holds = { λ q used. spec.is_unlisted q.0.policy.now q.0.layout.now used };

    fn holds(&self, used: &PartUse) -> bool {
        let Checked { policy, layout } = self.0;
        !is_own_endpoint(policy, layout, used.part, used.endpoint)
            && !lets(policy, layout, used.part, used.endpoint, Need::Entry)
    }
}

/// The uses of endpoints of which the part's groups have no entry.
pub fn unlisted(alloc: Global, policy: &Policy, layout: &Layout) -> Result<Vec<PartUse>, AllocError>
    ensures { IfOk result (λ v. v.items ≡ filter (spec.is_unlisted policy.now layout.now) layout.now.uses.items) }
{
    let question = NoEntry(Checked { policy, layout });
    those(alloc, layout.uses.as_slice(), &question)
}

/// Whether no entry with the rights of a use has its badge.
#[derive(Clone, Copy)]
struct OtherBadge<'a>(Checked<'a>);

impl Asks<PartUse> for OtherBadge<'_> {
    ghost holds = { λ q used. spec.has_other_badge q.0.policy.now q.0.layout.now used };

    fn holds(&self, used: &PartUse) -> bool {
        let Checked { policy, layout } = self.0;
        is_listed(policy, layout, used) && strays_somehow(policy, layout, used)
    }
}

/// The uses with a badge that no entry with their rights has.
pub fn badges_amiss(
    alloc: Global,
    policy: &Policy,
    layout: &Layout,
) -> Result<Vec<PartUse>, AllocError>
    ensures { IfOk result (λ v. v.items ≡ filter (spec.has_other_badge policy.now layout.now) layout.now.uses.items) }
{
    let question = OtherBadge(Checked { policy, layout });
    those(alloc, layout.uses.as_slice(), &question)
}

/// Whether a use has a right that no entry has.
#[derive(Clone, Copy)]
struct RightTooMuch<'a>(Checked<'a>);

impl Asks<PartUse> for RightTooMuch<'_> {
    ghost holds = { λ q used. spec.has_right_too_much q.0.policy.now q.0.layout.now used };

    fn holds(&self, used: &PartUse) -> bool {
        let Checked { policy, layout } = self.0;
        is_listed(policy, layout, used)
            && (exceeds(policy, layout, used, Rights::WRITE)
                || exceeds(policy, layout, used, Rights::READ)
                || exceeds(policy, layout, used, Rights::GRANT)
                || exceeds(policy, layout, used, Rights::GRANT_REPLY))
    }
}

/// The uses with a right that no entry has.
pub fn rights_amiss(
    alloc: Global,
    policy: &Policy,
    layout: &Layout,
) -> Result<Vec<PartUse>, AllocError>
    ensures { IfOk result (λ v. v.items ≡ filter (spec.has_right_too_much policy.now layout.now) layout.now.uses.items) }
{
    let question = RightTooMuch(Checked { policy, layout });
    those(alloc, layout.uses.as_slice(), &question)
}

/// Whether threads of two groups lie in a part.
#[derive(Clone, Copy)]
struct OfSeveral<'a>(&'a [Home]);

impl Asks<u64> for OfSeveral<'_> {
    ghost holds = { λ q part. have_two_groups q.0.now part part };

    fn holds(&self, part: &u64) -> bool {
        two_groups(self.0, *part, *part)
    }
}

/// The parts in which threads of two groups lie.
pub fn parts_of_several(alloc: Global, layout: &Layout) -> Result<Vec<u64>, AllocError>
    ensures { IfOk result (λ v. v.items ≡ filter (λ part. have_two_groups layout.now.homes.items part part) layout.now.parts.items) }
{
    let question = OfSeveral(layout.homes.as_slice());
    those(alloc, layout.parts.as_slice(), &question)
}

/// Whether a join is not between two parts of one group.
#[derive(Clone, Copy)]
struct BetweenGroups<'a>(&'a [Home]);

impl Asks<Join> for BetweenGroups<'_> {
    ghost holds = { λ q join. not (have_one_group q.0.now join.from join.to) };

    fn holds(&self, join: &Join) -> bool {
        !one_group(self.0, join.from, join.to)
    }
}

/// Those joins that are not between two parts of one group.
pub fn joins_amiss(alloc: Global, layout: &Layout, joins: &[Join]) -> Result<Vec<Join>, AllocError>
    ensures { IfOk result (λ v. v.items ≡ filter (λ j. not (have_one_group layout.now.homes.items j.from j.to)) joins.now) }
{
    let question = BetweenGroups(layout.homes.as_slice());
    those(alloc, joins, &question)
}

/// That a part has the control block of a trusted thread.
#[derive(Clone, Copy)]
pub struct Hold {
    pub part: u64,
    pub thread: u64,
}

/// The part that has the control block of a trusted thread.
#[derive(Clone, Copy)]
struct HolderIn<'a>(&'a Layout);

impl Finds<Member, Hold> for HolderIn<'_> {
    ghost found = { λ f trusted. spec.hold_of f.0.now trusted };

    fn find(&self, trusted: &Member) -> Option<Hold> {
        let part = part_at(self.0.memory.as_slice(), trusted.thread)?;
        Some(Hold {
            part,
            thread: trusted.thread,
        })
    }
}

/// The parts that have the control block of one of some trusted threads.
pub fn holds(alloc: Global, layout: &Layout, trusted: &[Member]) -> Result<Vec<Hold>, AllocError>
    ensures { IfOk result (λ v. v.items ≡ filter_map (spec.hold_of layout.now) trusted.now) }
{
    all_found(alloc, trusted, &HolderIn(layout))
}

/// Whether a region is larger than another that lies in it, and in the same part, and is none of the part's own.
#[derive(Clone, Copy)]
struct LargerThan<'a> {
    checked: Checked<'a>,
    region: HeldRegion,
}

impl Asks<HeldRegion> for LargerThan<'_> {
    ghost holds = { λ q other. spec.is_larger_around q.checked.policy.now q.checked.layout.now q.region other };

    fn holds(&self, other: &HeldRegion) -> bool {
        let Checked { policy, layout } = self.checked;
        let region = self.region;
        other.part == region.part
            && region.bits < other.bits
            && lies_within(region.base, region.bits, other.base, other.bits)
            && !is_own(policy, layout, other.part, other.base, other.bits)
    }
}

/// Whether a region lies in none of the part's own, and in no larger region that is none of its own.
#[derive(Clone, Copy)]
struct RegionAmiss<'a>(Checked<'a>);

impl Asks<HeldRegion> for RegionAmiss<'_> {
    ghost holds = { λ q region. spec.is_region_amiss q.0.policy.now q.0.layout.now region };

    fn holds(&self, region: &HeldRegion) -> bool {
        let Checked { policy, layout } = self.0;
        let larger = LargerThan {
            checked: self.0,
            region: *region,
        };
        !is_own(policy, layout, region.part, region.base, region.bits)
            && !any(layout.regions.as_slice(), &larger)
    }
}

/// The regions in slots of parts that lie in none of the part's own; of nested ones the outermost.
pub fn regions_amiss(
    alloc: Global,
    policy: &Policy,
    layout: &Layout,
) -> Result<Vec<HeldRegion>, AllocError>
    ensures { IfOk result (λ v. v.items ≡ filter (spec.is_region_amiss policy.now layout.now) layout.now.regions.items) }
{
    let question = RegionAmiss(Checked { policy, layout });
    those(alloc, layout.regions.as_slice(), &question)
}

fn lets_wait(policy: &Policy, layout: &Layout, part: u64, wait: &Waiting) -> bool
    ensures { result ≡ spec.lets_wait policy.now layout.now part wait.now }
{
    if wait.sends {
        let need = Need::RightWith(Rights::WRITE, wait.badge);
        lets(policy, layout, part, wait.endpoint, need)
    } else {
        lets_ever(policy, layout, part, wait.endpoint, Rights::READ)
    }
}

/// Whether a thread of a part waits on an endpoint where no entry lets it.
#[derive(Clone, Copy)]
struct WaitAmiss<'a>(Checked<'a>);

impl Asks<Waiting> for WaitAmiss<'_> {
    ghost holds = { λ q wait. spec.is_wait_amiss q.0.policy.now q.0.layout.now wait };

    fn holds(&self, wait: &Waiting) -> bool {
        let Checked { policy, layout } = self.0;
        match part_at(layout.memory.as_slice(), wait.thread) {
            None => false,
            Some(part) => {
                !is_own_endpoint(policy, layout, part, wait.endpoint)
                    && !lets_wait(policy, layout, part, wait)
            }
        }
    }
}

/// The threads of parts that wait on an endpoint where no entry lets them.
pub fn waits_amiss(
    alloc: Global,
    policy: &Policy,
    layout: &Layout,
) -> Result<Vec<Waiting>, AllocError>
    ensures { IfOk result (λ v. v.items ≡ filter (spec.is_wait_amiss policy.now layout.now) layout.now.waits.items) }
{
    let question = WaitAmiss(Checked { policy, layout });
    those(alloc, layout.waits.as_slice(), &question)
}
