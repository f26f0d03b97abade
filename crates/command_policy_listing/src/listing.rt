//! What was read of a policy, in lines.
ghost use Rattle.std.specs.Prelude.{◌≡◌, ◌++◌, ℕ, List, IfOk, OnOk, map, string_bytes};
ghost use Rattle.setup_report.specs.Report.{terminated};
ghost use Rattle.command_policy_text.specs.Names.{actor_name};
ghost use Rattle.command_policy_text.specs.Order.{in_order};
ghost use Rattle.command_policy_text.specs.Texts.{all_lines_text};
ghost use Rattle.command_policy_listing.specs.Listing as spec;

use command_parts::BadgeText;
use command_policy_text::{Held, Told, label, object, told_text, version_text};
use setup_format::Setup;
use setup_policy::{Allowance, Member, OwnRegion, Policy, PolicyTake, PolicyWay};
use setup_report::RightsText;
use setup_values::profile_text;
use std::alloc::{AllocError, Global};
use std::collections::BTreeSet;
use std::fmt::Write;

/// The line of an item, without its end.
trait Tells<T> {
    ghost told: { Self → T → List ℕ };

    /// Tells it.
    fn tell(&self, alloc: Global, item: &T) -> Result<String, AllocError>
        ensures { IfOk result (λ s. string_bytes s ≡ told self.now item.now) };
}

/// The lines of some items, each once, in the order of their bytes.
fn ordered<T, L: Tells<T>>(
    alloc: Global,
    items: &[T],
    teller: &L,
) -> Result<BTreeSet<String>, AllocError>
    ensures { IfOk result (λ set. map string_bytes set.keys ≡ in_order (map (L.told teller.now) items.now)) }
{
    let mut lines = BTreeSet::new(alloc);
    for item in items {
        let line = teller.tell(alloc, item)?;
        lines.insert(line)?;
    }
    Ok(lines)
}

fn add_lines(out: &mut String, lines: &BTreeSet<String>) -> Result<(), AllocError>
    ensures { OnOk result (string_bytes out.new ≡ string_bytes out.old ++ all_lines_text (map string_bytes lines.now.keys)) }
{
    for line in lines {
        writeln!(out, "{line}")?;
    }
    Ok(())
}

/// Adds the lines of some items.
fn add_kind<T, L: Tells<T>>(
    alloc: Global,
    out: &mut String,
    items: &[T],
    teller: &L,
) -> Result<(), AllocError>
    ensures { OnOk result (string_bytes out.new ≡ string_bytes out.old ++ all_lines_text (in_order (map (L.told teller.now) items.now))) }
{
    let lines = ordered(alloc, items, teller)?;
    add_lines(out, &lines)
}

/// What a group or a trusted thread is called.
fn name(alloc: Global, policy: &Policy, actor: u64) -> Result<String, AllocError>
    ensures { IfOk result (λ s. string_bytes s ≡ actor_name policy.now actor) }
{
    let one = [actor];
    label(alloc, policy, &one)
}

/// A thread that is trusted to make no more calls.
#[derive(Clone, Copy)]
struct SilentLine<'a>(Held<'a>);

impl Tells<Member> for SilentLine<'_> {
    ghost told = { λ l member. spec.silent_line l.0.labels.now member };

    fn tell(&self, alloc: Global, member: &Member) -> Result<String, AllocError> {
        told_text(alloc, self.0, Told::Silent(member.thread))
    }
}

/// A thread that is trusted to send and to receive, and to do nothing else.
#[derive(Clone, Copy)]
struct MessagesLine<'a>(Held<'a>);

impl Tells<Member> for MessagesLine<'_> {
    ghost told = { λ l member. spec.messages_line l.0.labels.now member };

    fn tell(&self, alloc: Global, member: &Member) -> Result<String, AllocError> {
        told_text(alloc, self.0, Told::Messages(member.thread))
    }
}

/// A group with its threads.
#[derive(Clone, Copy)]
struct GroupLine<'a>(Held<'a>);

impl Tells<u64> for GroupLine<'_> {
    ghost use Rattle.command_policy_text.specs.Told.{group_text};

    ghost told = { λ l group. group_text l.0.policy.now l.0.labels.now group };

    fn tell(&self, alloc: Global, group: &u64) -> Result<String, AllocError> {
        told_text(alloc, self.0, Told::Group(*group))
    }
}

/// A region that a group may hold.
#[derive(Clone, Copy)]
struct RegionLine<'a>(Held<'a>);

impl Tells<OwnRegion> for RegionLine<'_> {
    ghost told = { λ l own. spec.region_line l.0.policy.now l.0.labels.now own };

    fn tell(&self, alloc: Global, own: &OwnRegion) -> Result<String, AllocError> {
        let group = name(alloc, self.0.policy, own.group)?;
        let base = object(self.0.labels.regions.as_slice(), own.base);
        let bits = own.bits;
        format!(in alloc; "region {group} {base} bits {bits}")
    }
}

/// A way, with the rights that its sender may have.
#[derive(Clone, Copy)]
struct WayLine<'a>(Held<'a>);

impl Tells<PolicyWay> for WayLine<'_> {
    ghost told = { λ l way. spec.way_line l.0.policy.now l.0.labels.now way };

    fn tell(&self, alloc: Global, way: &PolicyWay) -> Result<String, AllocError> {
        let from = name(alloc, self.0.policy, way.from)?;
        let to = name(alloc, self.0.policy, way.to)?;
        let endpoint = object(self.0.labels.endpoints.as_slice(), way.endpoint);
        let badge = BadgeText(way.badge);
        let rights = RightsText(way.rights);
        format!(in alloc; "way {from} -> {endpoint} badge {badge} rights {rights} -> {to}")
    }
}

/// A use, with its rights.
#[derive(Clone, Copy)]
struct UseLine<'a>(Held<'a>);

impl Tells<Allowance> for UseLine<'_> {
    ghost told = { λ l entry. spec.use_line l.0.policy.now l.0.labels.now entry };

    fn tell(&self, alloc: Global, entry: &Allowance) -> Result<String, AllocError> {
        let group = name(alloc, self.0.policy, entry.actor)?;
        let endpoint = object(self.0.labels.endpoints.as_slice(), entry.endpoint);
        let badge = BadgeText(entry.badge);
        let rights = RightsText(entry.rights);
        format!(in alloc; "use {group} {endpoint} badge {badge} rights {rights}")
    }
}

/// That a group may empty slots of another.
#[derive(Clone, Copy)]
struct TakeLine<'a>(Held<'a>);

impl Tells<PolicyTake> for TakeLine<'_> {
    ghost told = { λ l take. spec.take_line l.0.policy.now take };

    fn tell(&self, alloc: Global, take: &PolicyTake) -> Result<String, AllocError> {
        let from = name(alloc, self.0.policy, take.from)?;
        let to = name(alloc, self.0.policy, take.to)?;
        format!(in alloc; "take {from} -> {to}")
    }
}

/// Adds who is trusted, and which groups there are.
fn add_who(alloc: Global, out: &mut String, held: Held<'_>) -> Result<(), AllocError>
    ensures { OnOk result (string_bytes out.new ≡ string_bytes out.old ++ all_lines_text (spec.who_lines held.entry.policy.now held.entry.labels.now)) }
{
    let policy = held.policy;
    add_kind(alloc, out, policy.silent.as_slice(), &SilentLine(held))?;
    add_kind(alloc, out, policy.messages.as_slice(), &MessagesLine(held))?;
    add_kind(alloc, out, policy.groups.as_slice(), &GroupLine(held))
}

/// Adds what groups may hold and send, and whose slots they may empty.
fn add_may(alloc: Global, out: &mut String, held: Held<'_>) -> Result<(), AllocError>
    ensures { OnOk result (string_bytes out.new ≡ string_bytes out.old ++ all_lines_text (spec.may_lines held.entry.policy.now held.entry.labels.now)) }
{
    let policy = held.policy;
    add_kind(alloc, out, policy.regions.as_slice(), &RegionLine(held))?;
    add_kind(alloc, out, policy.ways.as_slice(), &WayLine(held))?;
    add_kind(alloc, out, policy.uses.as_slice(), &UseLine(held))?;
    add_kind(alloc, out, policy.takes.as_slice(), &TakeLine(held))
}

fn switch_text(set: bool) -> &'static str
    ensures { result.now ≡ spec.switch_text set }
{
    if set { "true" } else { "false" }
}

fn add_head(out: &mut String, setup: &Setup, made: usize) -> Result<(), AllocError>
    ensures { OnOk result (string_bytes out.new ≡ string_bytes out.old ++ spec.listing_head setup.now made) }
{
    let profile = profile_text(setup.profile());
    let memory_bits = setup.plan().memory_bits();
    let calls = setup.calls().len();
    writeln!(
        out,
        "listing 1 {profile} memory_bits {memory_bits} calls {calls} after {made}"
    )
}

/// Adds the version of the policy, and both switches.
fn add_switches(out: &mut String, policy: &Policy) -> Result<(), AllocError>
    ensures { OnOk result (string_bytes out.new ≡ string_bytes out.old ++ all_lines_text (spec.switch_lines policy.now)) }
{
    let version = version_text(policy.version);
    let grant = switch_text(policy.grant);
    let succeed = switch_text(policy.calls);
    writeln!(
        out,
        "policy {version}\nseL4_grant {grant}\ncalls_succeed {succeed}"
    )
}

fn add_counts(out: &mut String, policy: &Policy) -> Result<(), AllocError>
    ensures { OnOk result (string_bytes out.new ≡ string_bytes out.old ++ terminated (spec.count_line policy.now)) }
{
    let groups = policy.groups.len();
    let threads = policy.members.len();
    let regions = policy.regions.len();
    let ways = policy.ways.len();
    let uses = policy.uses.len();
    let takes = policy.takes.len();
    writeln!(
        out,
        "groups {groups} threads {threads} regions {regions} ways {ways} uses {uses} takes {takes}"
    )
}

/// What was read of a policy, by the state behind so many calls of a set-up.
#[tactic(auto, unfolding(crate::specs::Listing::listing_text))]
pub fn listing_text(
    alloc: Global,
    held: Held<'_>,
    setup: &Setup,
    made: usize,
) -> Result<Vec<u8>, AllocError>
    ensures { IfOk result (λ text. text.items ≡ spec.listing_text held.entry.policy.now held.entry.labels.now setup.now made) }
{
    let mut out = String::new(alloc);
    add_head(&mut out, setup, made)?;
    add_switches(&mut out, held.policy)?;
    add_who(alloc, &mut out, held)?;
    add_may(alloc, &mut out, held)?;
    add_counts(&mut out, held.policy)?;
    Ok(out.into_bytes())
}
