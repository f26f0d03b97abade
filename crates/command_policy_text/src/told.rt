//! What is told of a layout that is held to a policy, as text.
ghost use Rattle.std.specs.Prelude.{◌≡◌, ◌++◌, ◌&&◌, ◌||◌, ◌==◌, not, IfOk, OnOk, codes, filter, map, string_bytes};
ghost use Rattle.std.specs.List.{flat_map};
ghost use Rattle.cap_core.specs.Rights.{write_bit, read_bit, grant_bit, grant_reply_bit};
ghost use Rattle.command_policy_text.specs.Told as spec;
ghost use Rattle.command_policy_text.specs.Order.{in_order};

use crate::names::{Letters, actor_name, label, numbers_text, object, part_label};
use bitflags::Flags;
use cap_core::Rights;
use command_parts::{BadgeText, Take, rising};
use command_policy_breaches::{
    End, HeldRegion, Hold, Home, Join, Layout, Passage, Waiting, count_of_parts, groups_at,
    is_entry, is_idle, lets_ever, strays,
};
use list_questions::{Asks, Makes, each, those};
use query_parts::PartUse;
use setup_policy::{
    Allowance, Labels, Member, OwnRegion, Policy, PolicyTake, PolicyWay, sender_entry,
};
use setup_report::RightsText;
use std::alloc::{AllocError, Global};
use std::collections::BTreeSet;
use std::fmt::Write;

/// A policy, the layout that is held to it, what its objects are called, and in which joined parts groups have threads.
#[derive(Clone, Copy)]
pub struct Held<'a> {
    pub policy: &'a Policy,
    pub layout: &'a Layout,
    pub labels: &'a Labels,
    pub homes: &'a [Home],
}

/// What a line tells.
#[derive(Clone, Copy)]
pub enum Told {
    /// A thread is trusted to make no more calls.
    Silent(u64),
    /// A thread is trusted to send and to receive, and to do nothing else.
    Messages(u64),
    /// The threads of a group.
    Group(u64),
    /// Threads of several groups are in one part.
    Joined(u64),
    /// A part can hand capabilities to another.
    Grant(Join),
    /// A part has the control block of a trusted thread.
    Thread(Hold),
    /// A part has an untyped region that is none of its own.
    Region(HeldRegion),
    /// A part has a capability to an endpoint of which it has no entry.
    Use(PartUse),
    /// A part has a capability with another badge than its entries.
    Badge(PartUse),
    /// A part has a capability with a right that no entry has.
    Right(PartUse),
    /// No way lets something pass.
    Way(Passage),
    /// No entry lets a thread wait on an endpoint.
    Waits(Waiting),
    /// A part takes from another, and no entry lets it.
    Taken(Take),
    /// Nothing of a way is there.
    UnusedWay(PolicyWay),
    /// Nothing of a use is there.
    UnusedUse(Allowance),
    /// Nothing has some rights of a way.
    IdleInWay(PolicyWay),
    /// Nothing has some rights of a use.
    IdleInUse(Allowance),
    /// Nothing of a region is there.
    UnusedRegion(OwnRegion),
    /// A group's threads are several parts.
    UnusedGroup(u64),
    /// Nothing of a take is there.
    UnusedTake(PolicyTake),
}

/// Texts, each once, in the order of their bytes.
type Ordered = BTreeSet<String>;

fn name_text(alloc: Global, policy: &Policy, group: u64) -> Result<String, AllocError>
    ensures { IfOk result (λ s. string_bytes s ≡ spec.actor_name policy.now group) }
{
    String::from_str(alloc, actor_name(policy, group))
}

fn names_of(alloc: Global, policy: &Policy, groups: &[u64]) -> Result<Ordered, AllocError>
    ensures { IfOk result (λ set. map string_bytes set.keys ≡ in_order (map (spec.actor_name policy.now) groups.now)) }
{
    let mut names = BTreeSet::new(alloc);
    for group in groups {
        let name = name_text(alloc, policy, *group)?;
        names.insert(name)?;
    }
    Ok(names)
}

fn add_word(out: &mut String, word: &str) -> Result<(), AllocError>
    ensures { OnOk result (string_bytes out.new ≡ string_bytes out.old ++ spec.word_behind word.now) }
{
    write!(out, " {word}")
}

fn add_words(out: &mut String, words: &Ordered) -> Result<(), AllocError>
    ensures { OnOk result (string_bytes out.new ≡ string_bytes out.old ++ flat_map spec.word_behind (map string_bytes words.now.keys)) }
{
    for word in words {
        add_word(out, word.as_str())?;
    }
    Ok(())
}

fn joined_text(alloc: Global, held: Held<'_>, part: u64) -> Result<String, AllocError>
    ensures { IfOk result (λ s. string_bytes s ≡ spec.joined_text held.entry.policy.now held.entry.layout.now part) }
{
    let groups = groups_at(alloc, held.layout.homes.as_slice(), part)?;
    let names = names_of(alloc, held.policy, groups.as_slice())?;
    let mut out = String::from_str(alloc, "breach joined")?;
    add_words(&mut out, &names)?;
    Ok(out)
}

/// Whether a thread is of a group.
#[derive(Clone, Copy)]
struct MemberOf(u64);

impl Asks<Member> for MemberOf {
    ghost holds = { λ q member. member.actor == q.0 };

    fn holds(&self, member: &Member) -> bool {
        member.actor == self.0
    }
}

fn members_of(alloc: Global, policy: &Policy, group: u64) -> Result<Vec<Member>, AllocError>
    ensures { IfOk result (λ v. v.items ≡ filter (λ m. m.actor == group) policy.now.members.items) }
{
    those(alloc, policy.members.as_slice(), &MemberOf(group))
}

fn thread_text(alloc: Global, labels: &Labels, thread: u64) -> Result<String, AllocError>
    ensures { IfOk result (λ s. string_bytes s ≡ spec.labelled_thread labels.now thread) }
{
    let thread = object(labels.threads.as_slice(), thread);
    format!(in alloc; "{thread}")
}

fn threads_text(alloc: Global, labels: &Labels, members: &[Member]) -> Result<Ordered, AllocError>
    ensures { IfOk result (λ set. map string_bytes set.keys ≡ in_order (map (λ m. spec.labelled_thread labels.now m.thread) members.now)) }
{
    let mut threads = BTreeSet::new(alloc);
    for member in members {
        let thread = thread_text(alloc, labels, member.thread)?;
        threads.insert(thread)?;
    }
    Ok(threads)
}

fn group_text(alloc: Global, held: Held<'_>, group: u64) -> Result<String, AllocError>
    ensures { IfOk result (λ s. string_bytes s ≡ spec.group_text held.entry.policy.now held.entry.labels.now group) }
{
    let members = members_of(alloc, held.policy, group)?;
    let threads = threads_text(alloc, held.labels, members.as_slice())?;
    let name = actor_name(held.policy, group);
    let mut out = format!(in alloc; "group {name} threads")?;
    add_words(&mut out, &threads)?;
    Ok(out)
}

fn trusted_text(
    alloc: Global,
    held: Held<'_>,
    word: &str,
    thread: u64,
) -> Result<String, AllocError>
    ensures { IfOk result (λ s. string_bytes s ≡ word.now ++ (codes " " ++ spec.labelled_thread held.entry.labels.now thread)) }
{
    let thread = object(held.labels.threads.as_slice(), thread);
    format!(in alloc; "{word} {thread}")
}

fn grant_text(alloc: Global, held: Held<'_>, join: Join) -> Result<String, AllocError>
    ensures { IfOk result (λ s. string_bytes s ≡ spec.grant_text held.entry.policy.now held.entry.layout.now held.entry.labels.now join) }
{
    let from = part_label(alloc, held.policy, held.layout, join.from)?;
    let to = part_label(alloc, held.policy, held.layout, join.to)?;
    let endpoint = object(held.labels.endpoints.as_slice(), join.endpoint);
    format!(in alloc; "breach grant {from} -> {endpoint} -> {to}")
}

fn hold_text(alloc: Global, held: Held<'_>, hold: Hold) -> Result<String, AllocError>
    ensures { IfOk result (λ s. string_bytes s ≡ spec.hold_text held.entry.policy.now held.entry.layout.now held.entry.labels.now hold) }
{
    let part = part_label(alloc, held.policy, held.layout, hold.part)?;
    let thread = object(held.labels.threads.as_slice(), hold.thread);
    format!(in alloc; "breach thread {part} {thread}")
}

fn region_text(alloc: Global, held: Held<'_>, region: HeldRegion) -> Result<String, AllocError>
    ensures { IfOk result (λ s. string_bytes s ≡ spec.region_text held.entry.policy.now held.entry.layout.now held.entry.labels.now region) }
{
    let part = part_label(alloc, held.policy, held.layout, region.part)?;
    let base = object(held.labels.regions.as_slice(), region.base);
    let bits = region.bits;
    format!(in alloc; "breach region {part} {base} bits {bits}")
}

/// A capability of a part.
pub fn capability_text(alloc: Global, held: Held<'_>, used: PartUse) -> Result<String, AllocError>
    ensures { IfOk result (λ s. string_bytes s ≡ spec.capability_text held.entry.labels.now used) }
{
    let endpoint = object(held.labels.endpoints.as_slice(), used.endpoint);
    let badge = BadgeText(used.badge.0);
    let rights = RightsText(used.rights);
    format!(in alloc; "{endpoint} badge {badge} rights {rights}")
}

fn use_text(alloc: Global, held: Held<'_>, used: PartUse) -> Result<String, AllocError>
    ensures { IfOk result (λ s. string_bytes s ≡ spec.use_text held.entry.policy.now held.entry.layout.now held.entry.labels.now used) }
{
    let part = part_label(alloc, held.policy, held.layout, used.part)?;
    let capability = capability_text(alloc, held, used)?;
    format!(in alloc; "breach use {part} {capability}")
}

fn has_strayed(held: Held<'_>, used: &PartUse, entry: &Allowance, right: Rights) -> bool
    ensures { result ≡ spec.has_strayed held.entry.policy.now held.entry.layout.now used.now right.0 entry.now }
{
    entry.rights.contains(right) && strays(held.policy, held.layout, used, right)
}

/// Whether an entry has a badge that stands in place of that of a use.
pub fn is_other_badge(held: Held<'_>, used: &PartUse, entry: &Allowance) -> bool
    ensures { result ≡ spec.is_other_badge held.entry.policy.now held.entry.layout.now used.now entry.now }
{
    is_entry(held.layout, used.part, used.endpoint, entry)
        && entry.badge != 0
        && (used.rights.0 == 0
            || has_strayed(held, used, entry, Rights::WRITE)
            || has_strayed(held, used, entry, Rights::READ)
            || has_strayed(held, used, entry, Rights::GRANT)
            || has_strayed(held, used, entry, Rights::GRANT_REPLY))
}

/// Whether an entry has a badge that stands in place of that of a use.
#[derive(Clone, Copy)]
struct InPlaceOf<'a> {
    held: Held<'a>,
    used: PartUse,
}

impl Asks<Allowance> for InPlaceOf<'_> {
    ghost holds = { λ q entry. spec.is_other_badge q.held.policy.now q.held.layout.now q.used entry };

    fn holds(&self, entry: &Allowance) -> bool {
        is_other_badge(self.held, &self.used, entry)
    }
}

#[derive(Clone, Copy)]
struct BadgeOf;

impl Makes<Allowance, u64> for BadgeOf {
    ghost made = { λ m entry. entry.badge };

    fn make(&self, entry: &Allowance) -> u64 {
        entry.badge
    }
}

fn other_badges(alloc: Global, held: Held<'_>, used: &PartUse) -> Result<Vec<u64>, AllocError>
    ensures { IfOk result (λ v. v.items ≡ map (λ a. a.badge) (filter (spec.is_other_badge held.entry.policy.now held.entry.layout.now used.now) held.entry.policy.now.allowances.items)) }
{
    let entries = held.policy.allowances.as_slice();
    let others = those(alloc, entries, &InPlaceOf { held, used: *used })?;
    each(alloc, others.as_slice(), &BadgeOf)
}

/// The badges that the part may have in place of that of a use.
pub fn allowed_badges(alloc: Global, held: Held<'_>, used: PartUse) -> Result<Vec<u64>, AllocError>
    ensures { IfOk result (λ v. v.items ≡ spec.allowed_badges held.entry.policy.now held.entry.layout.now used) }
{
    let badges = other_badges(alloc, held, &used)?;
    rising(alloc, badges.as_slice())
}

fn badge_text(alloc: Global, held: Held<'_>, used: PartUse) -> Result<String, AllocError>
    ensures { IfOk result (λ s. string_bytes s ≡ spec.badge_breach_text held.entry.policy.now held.entry.layout.now held.entry.labels.now used) }
{
    let part = part_label(alloc, held.policy, held.layout, used.part)?;
    let capability = capability_text(alloc, held, used)?;
    let badges = allowed_badges(alloc, held, used)?;
    let badges = numbers_text(alloc, badges.as_slice())?;
    format!(in alloc; "breach badge {part} {capability} allowed {badges}")
}

/// The rights that the part may have to the endpoint of a use, whatever its badge.
pub fn allowed_rights(held: Held<'_>, used: PartUse) -> Letters
    ensures { result ≡ spec.allowed_rights held.entry.policy.now held.entry.layout.now used }
{
    let Held { policy, layout, .. } = held;
    let PartUse { part, endpoint, .. } = used;
    Letters {
        write: lets_ever(policy, layout, part, endpoint, Rights::WRITE),
        read: lets_ever(policy, layout, part, endpoint, Rights::READ),
        grant: lets_ever(policy, layout, part, endpoint, Rights::GRANT),
        grant_reply: lets_ever(policy, layout, part, endpoint, Rights::GRANT_REPLY),
    }
}

fn right_text(alloc: Global, held: Held<'_>, used: PartUse) -> Result<String, AllocError>
    ensures { IfOk result (λ s. string_bytes s ≡ spec.right_breach_text held.entry.policy.now held.entry.layout.now held.entry.labels.now used) }
{
    let part = part_label(alloc, held.policy, held.layout, used.part)?;
    let capability = capability_text(alloc, held, used)?;
    let rights = allowed_rights(held, used);
    format!(in alloc; "breach right {part} {capability} allowed {rights}")
}

/// An end of a passage: the groups of the parts, or the thread.
pub fn end_label(alloc: Global, held: Held<'_>, end: End) -> Result<String, AllocError>
    ensures { IfOk result (λ s. string_bytes s ≡ spec.end_label held.entry.policy.now held.entry.homes.now end) }
{
    if end.is_part {
        let groups = groups_at(alloc, held.homes, end.number)?;
        label(alloc, held.policy, groups.as_slice())
    } else {
        String::from_str(alloc, actor_name(held.policy, end.number))
    }
}

fn passage_text(alloc: Global, held: Held<'_>, passage: Passage) -> Result<String, AllocError>
    ensures { IfOk result (λ s. string_bytes s ≡ spec.passage_text held.entry.policy.now held.entry.labels.now held.entry.homes.now passage) }
{
    let from = end_label(alloc, held, passage.from)?;
    let to = end_label(alloc, held, passage.to)?;
    let endpoint = object(held.labels.endpoints.as_slice(), passage.endpoint);
    let badge = BadgeText(passage.badge);
    format!(in alloc; "breach way {from} -> {endpoint} badge {badge} -> {to}")
}

fn wait_text(alloc: Global, held: Held<'_>, wait: Waiting) -> Result<String, AllocError>
    ensures { IfOk result (λ s. string_bytes s ≡ spec.wait_text held.entry.labels.now wait) }
{
    let thread = object(held.labels.threads.as_slice(), wait.thread);
    let endpoint = object(held.labels.endpoints.as_slice(), wait.endpoint);
    let badge = wait.badge;
    if wait.sends {
        format!(in alloc; "breach waiting {thread} -> {endpoint} badge {badge}")
    } else {
        format!(in alloc; "breach waiting {endpoint} -> {thread}")
    }
}

fn take_text(alloc: Global, held: Held<'_>, take: Take) -> Result<String, AllocError>
    ensures { IfOk result (λ s. string_bytes s ≡ spec.take_text held.entry.policy.now held.entry.layout.now take) }
{
    let by = part_label(alloc, held.policy, held.layout, take.by)?;
    let of = part_label(alloc, held.policy, held.layout, take.of)?;
    format!(in alloc; "breach take {by} -> {of}")
}

fn way_text(alloc: Global, held: Held<'_>, way: PolicyWay) -> Result<String, AllocError>
    ensures { IfOk result (λ s. string_bytes s ≡ spec.way_text held.entry.policy.now held.entry.labels.now way) }
{
    let from = actor_name(held.policy, way.from);
    let to = actor_name(held.policy, way.to);
    let endpoint = object(held.labels.endpoints.as_slice(), way.endpoint);
    let badge = BadgeText(way.badge);
    format!(in alloc; "way {from} -> {endpoint} badge {badge} -> {to}")
}

fn entry_text(alloc: Global, held: Held<'_>, entry: Allowance) -> Result<String, AllocError>
    ensures { IfOk result (λ s. string_bytes s ≡ spec.unused_entry_text held.entry.policy.now held.entry.labels.now entry) }
{
    let group = actor_name(held.policy, entry.actor);
    let endpoint = object(held.labels.endpoints.as_slice(), entry.endpoint);
    let badge = BadgeText(entry.badge);
    let rights = RightsText(entry.rights);
    format!(in alloc; "use {group} {endpoint} badge {badge} rights {rights}")
}

/// The rights of an entry that nothing has, but Write.
fn idle_behind_write(layout: &Layout, entry: &Allowance) -> Letters
    ensures { result ≡ spec.idle_behind_write layout.now entry.now }
{
    Letters {
        write: false,
        read: is_idle(layout, entry, Rights::READ),
        grant: is_idle(layout, entry, Rights::GRANT),
        grant_reply: is_idle(layout, entry, Rights::GRANT_REPLY),
    }
}

fn idle(layout: &Layout, entry: &Allowance) -> Letters
    ensures { result ≡ spec.idle layout.now entry.now }
{
    Letters {
        write: is_idle(layout, entry, Rights::WRITE),
        read: is_idle(layout, entry, Rights::READ),
        grant: is_idle(layout, entry, Rights::GRANT),
        grant_reply: is_idle(layout, entry, Rights::GRANT_REPLY),
    }
}

fn unused_way_text(alloc: Global, held: Held<'_>, way: PolicyWay) -> Result<String, AllocError>
    ensures { IfOk result (λ s. string_bytes s ≡ codes "unused " ++ spec.way_text held.entry.policy.now held.entry.labels.now way) }
{
    let way = way_text(alloc, held, way)?;
    format!(in alloc; "unused {way}")
}

fn unused_use_text(alloc: Global, held: Held<'_>, entry: Allowance) -> Result<String, AllocError>
    ensures { IfOk result (λ s. string_bytes s ≡ codes "unused " ++ spec.unused_entry_text held.entry.policy.now held.entry.labels.now entry) }
{
    let entry = entry_text(alloc, held, entry)?;
    format!(in alloc; "unused {entry}")
}

fn idle_way_text(alloc: Global, held: Held<'_>, way: PolicyWay) -> Result<String, AllocError>
    ensures { IfOk result (λ s. string_bytes s ≡ spec.idle_way_text held.entry.policy.now held.entry.layout.now held.entry.labels.now way) }
{
    let rights = idle_behind_write(held.layout, &sender_entry(&way));
    let way = way_text(alloc, held, way)?;
    format!(in alloc; "unused right {rights} of {way}")
}

fn idle_use_text(alloc: Global, held: Held<'_>, entry: Allowance) -> Result<String, AllocError>
    ensures { IfOk result (λ s. string_bytes s ≡ spec.idle_use_text held.entry.policy.now held.entry.layout.now held.entry.labels.now entry) }
{
    let rights = idle(held.layout, &entry);
    let entry = entry_text(alloc, held, entry)?;
    format!(in alloc; "unused right {rights} of {entry}")
}

fn unused_region_text(alloc: Global, held: Held<'_>, own: OwnRegion) -> Result<String, AllocError>
    ensures { IfOk result (λ s. string_bytes s ≡ spec.unused_region_text held.entry.policy.now held.entry.labels.now own) }
{
    let group = actor_name(held.policy, own.group);
    let base = object(held.labels.regions.as_slice(), own.base);
    let bits = own.bits;
    format!(in alloc; "unused region {group} {base} bits {bits}")
}

fn unused_group_text(alloc: Global, held: Held<'_>, group: u64) -> Result<String, AllocError>
    ensures { IfOk result (λ s. string_bytes s ≡ spec.unused_group_text held.entry.policy.now held.entry.homes.now group) }
{
    let parts = count_of_parts(held.homes, group);
    let group = actor_name(held.policy, group);
    format!(in alloc; "unused group {group} is {parts} parts")
}

fn unused_take_text(alloc: Global, held: Held<'_>, take: PolicyTake) -> Result<String, AllocError>
    ensures { IfOk result (λ s. string_bytes s ≡ spec.unused_take_text held.entry.policy.now take) }
{
    let from = actor_name(held.policy, take.from);
    let to = actor_name(held.policy, take.to);
    format!(in alloc; "unused take {from} -> {to}")
}

/// The text of a line, without its end.
pub fn told_text(alloc: Global, held: Held<'_>, told: Told) -> Result<String, AllocError>
    ensures { IfOk result (λ s. string_bytes s ≡ spec.line_told held.entry.policy.now held.entry.layout.now held.entry.labels.now held.entry.homes.now told) }
{
    match told {
        Told::Silent(thread) => trusted_text(alloc, held, "silent", thread),
        Told::Messages(thread) => trusted_text(alloc, held, "messages", thread),
        Told::Group(group) => group_text(alloc, held, group),
        Told::Joined(part) => joined_text(alloc, held, part),
        Told::Grant(join) => grant_text(alloc, held, join),
        Told::Thread(hold) => hold_text(alloc, held, hold),
        Told::Region(region) => region_text(alloc, held, region),
        Told::Use(used) => use_text(alloc, held, used),
        Told::Badge(used) => badge_text(alloc, held, used),
        Told::Right(used) => right_text(alloc, held, used),
        Told::Way(passage) => passage_text(alloc, held, passage),
        Told::Waits(wait) => wait_text(alloc, held, wait),
        Told::Taken(take) => take_text(alloc, held, take),
        Told::UnusedWay(way) => unused_way_text(alloc, held, way),
        Told::UnusedUse(entry) => unused_use_text(alloc, held, entry),
        Told::IdleInWay(way) => idle_way_text(alloc, held, way),
        Told::IdleInUse(entry) => idle_use_text(alloc, held, entry),
        Told::UnusedRegion(own) => unused_region_text(alloc, held, own),
        Told::UnusedGroup(group) => unused_group_text(alloc, held, group),
        Told::UnusedTake(take) => unused_take_text(alloc, held, take),
    }
}
