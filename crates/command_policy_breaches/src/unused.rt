//! What a policy allows and of which nothing is there.
ghost use Rattle.std.specs.Prelude.{◌≡◌, ◌&&◌, not, IfOk, filter};
ghost use Rattle.kernel_abstract.specs.Decode.{has_right};
ghost use Rattle.command_policy_breaches.specs.Unused as spec;

use crate::breaches::lies_within;
use crate::held::{Checked, HeldRegion, Home, Layout, OfGroup, Waiting};
use crate::sides::{is_in_part, is_of_group};
use crate::ways::{SendOf, hears};
use bitflags::Flags;
use cap_core::Rights;
use list_questions::{Asks, any, count, those};
use query_parts::PartUse;
use setup_policy::{Allowance, Member, OwnRegion, Policy, PolicyWay, sender_entry};
use std::alloc::{AllocError, Global};

/// Whether two badges have one in common, where 0 is any.
fn cross(one: u64, other: u64) -> bool
    ensures { result ≡ spec.cross one other }
{
    one == 0 || other == 0 || one == other
}

/// What there is of an actor at an endpoint, with such a badge.
#[derive(Clone, Copy)]
struct OfActor<'a> {
    layout: &'a Layout,
    actor: u64,
    endpoint: u64,
    badge: u64,
}

impl Asks<PartUse> for OfActor<'_> {
    ghost holds = { λ q used. spec.is_use_of_entry q.layout.now q.actor q.endpoint q.badge used };

    fn holds(&self, used: &PartUse) -> bool {
        used.endpoint == self.endpoint
            && cross(self.badge, used.badge.0)
            && is_in_part(self.layout, self.actor, used.part)
    }
}

impl Asks<Waiting> for OfActor<'_> {
    ghost holds = { λ q wait. wait.sends && (spec.cross q.badge wait.badge && spec.is_wait_of q.layout.now q.actor q.endpoint wait) };

    fn holds(&self, wait: &Waiting) -> bool {
        wait.sends
            && cross(self.badge, wait.badge)
            && is_wait_of(self.layout, wait, self.actor, self.endpoint)
    }
}

impl Asks<Member> for OfActor<'_> {
    ghost holds = { λ q silent. spec.member_sends q.layout.now q.actor q.endpoint q.badge silent };

    fn holds(&self, silent: &Member) -> bool {
        let of = SendOf {
            thread: silent.thread,
            endpoint: self.endpoint,
        };
        let badge = self.badge;
        silent.actor == self.actor && any(self.layout.waits.as_slice(), &SendWith { of, badge })
    }
}

/// Whether a use that is there of an actor has a right.
#[derive(Clone, Copy)]
struct UseWith<'a> {
    of: OfActor<'a>,
    right: Rights,
}

impl Asks<PartUse> for UseWith<'_> {
    ghost holds = { λ q used. spec.is_use_of_entry q.of.layout.now q.of.actor q.of.endpoint q.of.badge used && has_right q.right.0 used.rights };

    fn holds(&self, used: &PartUse) -> bool {
        self.of.holds(used) && used.rights.contains(self.right)
    }
}

/// Whether a group has a right to an endpoint with such a badge.
pub fn has(layout: &Layout, actor: u64, endpoint: u64, badge: u64, right: Rights) -> bool
    ensures { result ≡ spec.is_used layout.now actor endpoint badge right.0 }
{
    let of = OfActor {
        layout,
        actor,
        endpoint,
        badge,
    };
    any(layout.uses.as_slice(), &UseWith { of, right })
}

/// Whether a thread in a part of the group waits on the endpoint.
fn is_wait_of(layout: &Layout, wait: &Waiting, actor: u64, endpoint: u64) -> bool
    ensures { result ≡ spec.is_wait_of layout.now actor endpoint wait.now }
{
    wait.endpoint == endpoint && is_of_group(layout, actor, wait.thread)
}

/// What there is of an actor that receives on an endpoint.
#[derive(Clone, Copy)]
struct Receiver<'a> {
    layout: &'a Layout,
    actor: u64,
    endpoint: u64,
}

impl Asks<Waiting> for Receiver<'_> {
    ghost holds = { λ q wait. not wait.sends && spec.is_wait_of q.layout.now q.actor q.endpoint wait };

    fn holds(&self, wait: &Waiting) -> bool {
        !wait.sends && is_wait_of(self.layout, wait, self.actor, self.endpoint)
    }
}

impl Asks<Member> for Receiver<'_> {
    ghost holds = { λ q silent. spec.member_hears q.layout.now q.actor q.endpoint silent };

    fn holds(&self, silent: &Member) -> bool {
        silent.actor == self.actor && hears(self.layout, silent.thread, self.endpoint)
    }
}

/// Whether a thread in a part of the group waits to send to the endpoint with such a badge.
fn waits_to_send(layout: &Layout, actor: u64, endpoint: u64, badge: u64) -> bool
    ensures { result ≡ spec.sends_by_wait layout.now actor endpoint badge }
{
    let send = OfActor {
        layout,
        actor,
        endpoint,
        badge,
    };
    any(layout.waits.as_slice(), &send)
}

/// Whether a thread in a part of the group waits to receive on the endpoint.
fn waits_to_receive(layout: &Layout, actor: u64, endpoint: u64) -> bool
    ensures { result ≡ spec.hears_by_wait layout.now actor endpoint }
{
    let receive = Receiver {
        layout,
        actor,
        endpoint,
    };
    any(layout.waits.as_slice(), &receive)
}

fn group_sends(layout: &Layout, actor: u64, endpoint: u64, badge: u64) -> bool
    ensures { result ≡ spec.group_sends layout.now actor endpoint badge }
{
    is_of_group(layout, actor, endpoint)
        || has(layout, actor, endpoint, badge, Rights::WRITE)
        || waits_to_send(layout, actor, endpoint, badge)
}

fn group_hears(layout: &Layout, actor: u64, endpoint: u64) -> bool
    ensures { result ≡ spec.group_hears layout.now actor endpoint }
{
    is_of_group(layout, actor, endpoint)
        || has(layout, actor, endpoint, 0, Rights::READ)
        || waits_to_receive(layout, actor, endpoint)
}

/// Whether a thread waits to send with such a badge.
#[derive(Clone, Copy)]
struct SendWith {
    of: SendOf,
    badge: u64,
}

impl Asks<Waiting> for SendWith {
    ghost use Rattle.command_policy_breaches.specs.Ways.{is_send_of};

    ghost holds = { λ q wait. is_send_of q.of.thread q.of.endpoint wait && spec.cross q.badge wait.badge };

    fn holds(&self, wait: &Waiting) -> bool {
        self.of.holds(wait) && cross(self.badge, wait.badge)
    }
}

fn thread_sends(policy: &Policy, layout: &Layout, actor: u64, endpoint: u64, badge: u64) -> bool
    ensures { result ≡ spec.thread_sends policy.now layout.now actor endpoint badge }
{
    let silent = OfActor {
        layout,
        actor,
        endpoint,
        badge,
    };
    any(policy.messages.as_slice(), &OfGroup(actor)) || any(policy.silent.as_slice(), &silent)
}

fn thread_hears(policy: &Policy, layout: &Layout, actor: u64, endpoint: u64) -> bool
    ensures { result ≡ spec.thread_hears policy.now layout.now actor endpoint }
{
    let silent = Receiver {
        layout,
        actor,
        endpoint,
    };
    any(policy.messages.as_slice(), &OfGroup(actor)) || any(policy.silent.as_slice(), &silent)
}

/// Whether there is what a way lets pass.
fn is_way_used(policy: &Policy, layout: &Layout, way: &PolicyWay) -> bool
    ensures { result ≡ spec.is_way_used policy.now layout.now way.now }
{
    (group_sends(layout, way.from, way.endpoint, way.badge)
        || thread_sends(policy, layout, way.from, way.endpoint, way.badge))
        && (group_hears(layout, way.to, way.endpoint)
            || thread_hears(policy, layout, way.to, way.endpoint))
}

/// Whether nothing of a way is there.
#[derive(Clone, Copy)]
struct UnusedWay<'a>(Checked<'a>);

impl Asks<PolicyWay> for UnusedWay<'_> {
    ghost holds = { λ q way. not (spec.is_way_used q.0.policy.now q.0.layout.now way) };

    fn holds(&self, way: &PolicyWay) -> bool {
        !is_way_used(self.0.policy, self.0.layout, way)
    }
}

/// The ways of which nothing is there.
pub fn unused_ways(
    alloc: Global,
    policy: &Policy,
    layout: &Layout,
) -> Result<Vec<PolicyWay>, AllocError>
    ensures { IfOk result (λ v. v.items ≡ filter (λ w. not (spec.is_way_used policy.now layout.now w)) policy.now.ways.items) }
{
    let question = UnusedWay(Checked { policy, layout });
    those(alloc, policy.ways.as_slice(), &question)
}

/// Whether an entry has a right, by which a thread in a part of its group waits: by Read to receive there, by Write to send with a badge
/// that the entry lets.
fn waits_with(layout: &Layout, entry: &Allowance, right: Rights) -> bool
    ensures { result ≡ spec.waits_with layout.now entry.now right.0 }
{
    if !entry.rights.contains(right) {
        return false;
    }
    if right == Rights::READ {
        waits_to_receive(layout, entry.actor, entry.endpoint)
    } else {
        right == Rights::WRITE && waits_to_send(layout, entry.actor, entry.endpoint, entry.badge)
    }
}

/// Whether an entry has a right that nothing has, and by which no thread waits.
pub fn is_idle(layout: &Layout, entry: &Allowance, right: Rights) -> bool
    ensures { result ≡ spec.is_idle layout.now entry.now right.0 }
{
    entry.rights.contains(right)
        && !has(layout, entry.actor, entry.endpoint, entry.badge, right)
        && !waits_with(layout, entry, right)
}

/// Whether an entry has a right but Write that nothing has.
fn has_idle_behind_write(layout: &Layout, entry: &Allowance) -> bool
    ensures { result ≡ spec.has_idle_behind_write layout.now entry.now }
{
    is_idle(layout, entry, Rights::READ)
        || is_idle(layout, entry, Rights::GRANT)
        || is_idle(layout, entry, Rights::GRANT_REPLY)
}

fn is_group(policy: &Policy, actor: u64) -> bool
    ensures { result ≡ spec.is_group policy.now actor }
{
    policy.groups.as_slice().contains(&actor)
}

/// Whether a way that is used has a right that nothing has.
#[derive(Clone, Copy)]
struct WayIdle<'a>(Checked<'a>);

impl Asks<PolicyWay> for WayIdle<'_> {
    ghost holds = { λ q way. spec.has_way_idle_right q.0.policy.now q.0.layout.now way };

    fn holds(&self, way: &PolicyWay) -> bool {
        let Checked { policy, layout } = self.0;
        is_way_used(policy, layout, way)
            && is_group(policy, way.from)
            && !is_of_group(layout, way.from, way.endpoint)
            && has_idle_behind_write(layout, &sender_entry(way))
    }
}

/// The ways with rights that nothing has.
pub fn ways_with_idle_rights(
    alloc: Global,
    policy: &Policy,
    layout: &Layout,
) -> Result<Vec<PolicyWay>, AllocError>
    ensures { IfOk result (λ v. v.items ≡ filter (spec.has_way_idle_right policy.now layout.now) policy.now.ways.items) }
{
    let question = WayIdle(Checked { policy, layout });
    those(alloc, policy.ways.as_slice(), &question)
}

/// Whether there is a use of an entry, or a thread waits by one of its rights.
fn is_entry_used(layout: &Layout, entry: &Allowance) -> bool
    ensures { result ≡ spec.is_entry_used layout.now entry.now }
{
    let of = OfActor {
        layout,
        actor: entry.actor,
        endpoint: entry.endpoint,
        badge: entry.badge,
    };
    any(layout.uses.as_slice(), &of)
        || waits_with(layout, entry, Rights::READ)
        || waits_with(layout, entry, Rights::WRITE)
}

/// Whether nothing of a use is there.
#[derive(Clone, Copy)]
struct UnusedUse<'a>(&'a Layout);

impl Asks<Allowance> for UnusedUse<'_> {
    ghost holds = { λ q entry. not (spec.is_entry_used q.0.now entry) };

    fn holds(&self, entry: &Allowance) -> bool {
        !is_entry_used(self.0, entry)
    }
}

/// The uses of which nothing is there.
pub fn unused_uses(
    alloc: Global,
    policy: &Policy,
    layout: &Layout,
) -> Result<Vec<Allowance>, AllocError>
    ensures { IfOk result (λ v. v.items ≡ filter (λ a. not (spec.is_entry_used layout.now a)) policy.now.uses.items) }
{
    those(alloc, policy.uses.as_slice(), &UnusedUse(layout))
}

/// Whether a use that is there has a right that nothing has.
#[derive(Clone, Copy)]
struct UseIdle<'a>(&'a Layout);

impl Asks<Allowance> for UseIdle<'_> {
    ghost holds = { λ q entry. spec.has_use_idle_right q.0.now entry };

    fn holds(&self, entry: &Allowance) -> bool {
        is_entry_used(self.0, entry)
            && (is_idle(self.0, entry, Rights::WRITE) || has_idle_behind_write(self.0, entry))
    }
}

/// The uses with rights that nothing has.
pub fn uses_with_idle_rights(
    alloc: Global,
    policy: &Policy,
    layout: &Layout,
) -> Result<Vec<Allowance>, AllocError>
    ensures { IfOk result (λ v. v.items ≡ filter (spec.has_use_idle_right layout.now) policy.now.uses.items) }
{
    those(alloc, policy.uses.as_slice(), &UseIdle(layout))
}

/// Whether a region of a part lies in one of a group that has threads in the part.
#[derive(Clone, Copy)]
struct RegionOf<'a> {
    layout: &'a Layout,
    own: OwnRegion,
}

impl Asks<HeldRegion> for RegionOf<'_> {
    ghost holds = { λ q held. spec.is_region_of q.layout.now q.own held };

    fn holds(&self, held: &HeldRegion) -> bool {
        lies_within(held.base, held.bits, self.own.base, self.own.bits)
            && is_in_part(self.layout, self.own.group, held.part)
    }
}

/// Whether nothing of a region is there.
#[derive(Clone, Copy)]
struct UnusedRegion<'a>(&'a Layout);

impl Asks<OwnRegion> for UnusedRegion<'_> {
    ghost holds = { λ q own. not (spec.is_region_used q.0.now own) };

    fn holds(&self, own: &OwnRegion) -> bool {
        let region = RegionOf {
            layout: self.0,
            own: *own,
        };
        !any(self.0.regions.as_slice(), &region)
    }
}

/// The regions of groups of which nothing is there.
pub fn unused_regions(
    alloc: Global,
    policy: &Policy,
    layout: &Layout,
) -> Result<Vec<OwnRegion>, AllocError>
    ensures { IfOk result (λ v. v.items ≡ filter (λ r. not (spec.is_region_used layout.now r)) policy.now.regions.items) }
{
    those(alloc, policy.regions.as_slice(), &UnusedRegion(layout))
}

/// How many parts the threads of a group are, where those that Grant joins count as one: `homes` are those of the joined parts.
pub fn count_of_parts(homes: &[Home], group: u64) -> usize
    ensures { result ≡ spec.count_of_parts homes.now group }
{
    count(homes, &OfGroup(group))
}
