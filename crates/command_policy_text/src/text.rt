//! The text of a layout that is held to a policy.
ghost use Rattle.std.specs.Prelude.{◌≡◌, ◌++◌, ◌≤◌, IfOk, OnOk, Some, length, map, string_bytes};
ghost use Rattle.setup_report.specs.Report.{terminated};
ghost use Rattle.command_core.specs.declared.fault.Verdict.{Verdict};
ghost use Rattle.command_policy_breaches.specs.Joins as join;
ghost use Rattle.command_policy_breaches.specs.Ways as way;
ghost use Rattle.command_policy_text.specs.Order.{firsts_in_order, in_order};
ghost use Rattle.command_policy_text.specs.Places.{IsOrigin, places_told};
ghost use Rattle.command_policy_text.specs.Texts as spec;
ghost use Rattle.command_policy_text.specs.Texts.{text_itself};
ghost use Rattle.command_policy_text.specs.Told.{line_told};

use crate::calls::call_breaches;
use crate::kinds;
use crate::names::version_text;
use crate::places::{Origin, add_places};
use crate::told::{Held, Told, told_text};
use cap_core::Profile;
use command_core::Verdict;
use command_policy_breaches::{Join, Passage, count_between_parts};
use ipc_core::MakeWaiters;
use kernel_core::Reply;
use list_questions::{Line, add_each};
use setup_format::Setup;
use setup_policy::PolicyVersion;
use setup_values::profile_text;
use slot_core::MakeStore;
use std::alloc::{AllocError, Global};
use std::collections::{BTreeMap, BTreeSet};
use std::fmt;
use std::fmt::Write;

fn ordered(alloc: Global, held: Held<'_>, told: &[Told]) -> Result<BTreeSet<String>, AllocError>
    ensures { IfOk result (λ set. map string_bytes set.keys ≡ spec.lines_of_kind held.entry.policy.now held.entry.layout.now held.entry.labels.now held.entry.homes.now told.now) }
{
    let mut lines = BTreeSet::new(alloc);
    for one in told {
        let line = told_text(alloc, held, *one)?;
        lines.insert(line)?;
    }
    Ok(lines)
}

fn add_all(lines: &mut Vec<String>, more: BTreeSet<String>) -> Result<(), AllocError>
    ensures { OnOk result (lines.new.items ≡ lines.old.items ++ more.keys) }
{
    for line in more {
        lines.push(line)?;
    }
    Ok(())
}

/// Adds the lines of a kind, each once, in the order of their bytes.
fn add_kind(
    alloc: Global,
    lines: &mut Vec<String>,
    held: Held<'_>,
    told: &[Told],
) -> Result<(), AllocError>
    ensures { OnOk result (map string_bytes lines.new.items ≡ map string_bytes lines.old.items
        ++ spec.lines_of_kind held.entry.policy.now held.entry.layout.now held.entry.labels.now held.entry.homes.now told.now) }
{
    let more = ordered(alloc, held, told)?;
    add_all(lines, more)
}

/// Who is trusted, and which groups there are.
fn first_lines(alloc: Global, held: Held<'_>) -> Result<Vec<String>, AllocError>
    ensures { IfOk result (λ v. map string_bytes v.items ≡ spec.first_lines held.entry.policy.now held.entry.layout.now held.entry.labels.now held.entry.homes.now) }
{
    let mut lines = Vec::new(alloc);
    let silent = kinds::silent(alloc, held.policy)?;
    let messages = kinds::messages(alloc, held.policy)?;
    let groups = kinds::groups(alloc, held.policy)?;
    add_kind(alloc, &mut lines, held, silent.as_slice())?;
    add_kind(alloc, &mut lines, held, messages.as_slice())?;
    add_kind(alloc, &mut lines, held, groups.as_slice())?;
    Ok(lines)
}

fn add_part_breaches(
    alloc: Global,
    lines: &mut Vec<String>,
    held: Held<'_>,
    joins: &[Join],
) -> Result<(), AllocError>
    ensures { OnOk result (map string_bytes lines.new.items ≡ map string_bytes lines.old.items
        ++ spec.part_breaches held.entry.policy.now held.entry.layout.now held.entry.labels.now held.entry.homes.now joins.now) }
{
    let joined = kinds::joined(alloc, held)?;
    let grants = kinds::grants(alloc, held, joins)?;
    let threads = kinds::threads(alloc, held)?;
    let regions = kinds::regions(alloc, held)?;
    add_kind(alloc, lines, held, joined.as_slice())?;
    add_kind(alloc, lines, held, grants.as_slice())?;
    add_kind(alloc, lines, held, threads.as_slice())?;
    add_kind(alloc, lines, held, regions.as_slice())
}

fn add_use_breaches(
    alloc: Global,
    lines: &mut Vec<String>,
    held: Held<'_>,
) -> Result<(), AllocError>
    ensures { OnOk result (map string_bytes lines.new.items ≡ map string_bytes lines.old.items
        ++ spec.use_breaches held.entry.policy.now held.entry.layout.now held.entry.labels.now held.entry.homes.now) }
{
    let uses = kinds::uses(alloc, held)?;
    let badges = kinds::badges(alloc, held)?;
    let rights = kinds::rights(alloc, held)?;
    add_kind(alloc, lines, held, uses.as_slice())?;
    add_kind(alloc, lines, held, badges.as_slice())?;
    add_kind(alloc, lines, held, rights.as_slice())
}

fn add_way_breaches(
    alloc: Global,
    lines: &mut Vec<String>,
    held: Held<'_>,
    passages: &[Passage],
) -> Result<(), AllocError>
    ensures { OnOk result (map string_bytes lines.new.items ≡ map string_bytes lines.old.items
        ++ spec.way_breaches held.entry.policy.now held.entry.layout.now held.entry.labels.now held.entry.homes.now passages.now) }
{
    let ways = kinds::ways(alloc, held, passages)?;
    let waits = kinds::waits(alloc, held)?;
    add_kind(alloc, lines, held, ways.as_slice())?;
    add_kind(alloc, lines, held, waits.as_slice())
}

/// Adds what breaks the policy, but calls.
#[tactic(auto, unfolding(crate::specs::Texts::breaches))]
fn add_breaches(
    alloc: Global,
    lines: &mut Vec<String>,
    held: Held<'_>,
    joins: &[Join],
    passages: &[Passage],
) -> Result<(), AllocError>
    ensures { OnOk result (map string_bytes lines.new.items ≡ map string_bytes lines.old.items
        ++ spec.breaches held.entry.policy.now held.entry.layout.now held.entry.labels.now held.entry.homes.now joins.now passages.now) }
{
    let takes = kinds::takes(alloc, held)?;
    add_part_breaches(alloc, lines, held, joins)?;
    add_use_breaches(alloc, lines, held)?;
    add_way_breaches(alloc, lines, held, passages)?;
    add_kind(alloc, lines, held, takes.as_slice())
}

/// What is told, by its line, the first that is told by each.
type ByLine = BTreeMap<String, Told>;

/// What is told of a kind, by its lines.
fn firsts(alloc: Global, held: Held<'_>, told: &[Told]) -> Result<ByLine, AllocError>
    ensures { IfOk result (λ lines. map (λ e. (string_bytes e.0, e.1)) lines.entries
        ≡ firsts_in_order (line_told held.entry.policy.now held.entry.layout.now held.entry.labels.now held.entry.homes.now) told.now) }
{
    let mut lines = BTreeMap::new(alloc);
    for one in told {
        let line = told_text(alloc, held, *one)?;
        let first = lines.get(&line).copied().unwrap_or(*one);
        lines.insert(line, first)?;
    }
    Ok(lines)
}

/// A line, and below it the places of what is told.
fn with_places<P: Profile, S: MakeStore<P>, W: MakeWaiters<P>>(
    alloc: Global,
    held: Held<'_>,
    origin: Option<Origin<'_>>,
    line: &str,
    told: Told,
) -> Result<String, AllocError>
    requires { IsOrigin P.profile origin }
    ensures { IfOk result (λ s. string_bytes s ≡ terminated line.now ++ places_told P.profile held.entry.policy.now held.entry.layout.now origin.entry told) }
{
    let mut text = format!(in alloc; "{line}\n")?;
    add_places::<P, S, W>(alloc, &mut text, held, origin, told)?;
    Ok(text)
}

/// Adds the lines of a kind, each once, in the order of their bytes, with the places of the first that is told by each.
fn add_kind_with_places<P: Profile, S: MakeStore<P>, W: MakeWaiters<P>>(
    alloc: Global,
    lines: &mut Vec<String>,
    held: Held<'_>,
    origin: Option<Origin<'_>>,
    told: &[Told],
) -> Result<(), AllocError>
    requires { IsOrigin P.profile origin }
    ensures { OnOk result (map string_bytes lines.new.items ≡ map string_bytes lines.old.items
        ++ spec.lines_with_places (places_told P.profile held.entry.policy.now held.entry.layout.now origin.entry) held.entry.policy.now held.entry.layout.now held.entry.labels.now held.entry.homes.now told.now) }
{
    let firsts = firsts(alloc, held, told)?;
    for (line, first) in &firsts {
        let text = with_places::<P, S, W>(alloc, held, origin, line.as_str(), *first)?;
        lines.push(text)?;
    }
    Ok(())
}

/// What breaks the policy, but calls: a text for each line, with its places.
#[tactic(auto, unfolding(crate::specs::Texts::breaches_with_places))]
fn breaches<P: Profile, S: MakeStore<P>, W: MakeWaiters<P>>(
    alloc: Global,
    held: Held<'_>,
    origin: Option<Origin<'_>>,
    joins: &[Join],
    passages: &[Passage],
) -> Result<Vec<String>, AllocError>
    requires { IsOrigin P.profile origin }
    ensures { IfOk result (λ v. map string_bytes v.items
        ≡ spec.breaches_with_places (places_told P.profile held.entry.policy.now held.entry.layout.now origin.entry) held.entry.policy.now held.entry.layout.now held.entry.labels.now held.entry.homes.now joins.now passages.now) }
{
    let mut lines = Vec::new(alloc);
    let kinds = kinds::breaches(alloc, held, joins, passages)?;
    for kind in &kinds {
        add_kind_with_places::<P, S, W>(alloc, &mut lines, held, origin, kind.as_slice())?;
    }
    Ok(lines)
}

fn add_unused_entries(
    alloc: Global,
    lines: &mut Vec<String>,
    held: Held<'_>,
) -> Result<(), AllocError>
    ensures { OnOk result (map string_bytes lines.new.items ≡ map string_bytes lines.old.items
        ++ spec.unused_entries held.entry.policy.now held.entry.layout.now held.entry.labels.now held.entry.homes.now) }
{
    let ways = kinds::idle_ways(alloc, held)?;
    let uses = kinds::idle_uses(alloc, held)?;
    let rights = kinds::idle_rights(alloc, held)?;
    add_kind(alloc, lines, held, ways.as_slice())?;
    add_kind(alloc, lines, held, uses.as_slice())?;
    add_kind(alloc, lines, held, rights.as_slice())
}

fn add_unused_groups(
    alloc: Global,
    lines: &mut Vec<String>,
    held: Held<'_>,
) -> Result<(), AllocError>
    ensures { OnOk result (map string_bytes lines.new.items ≡ map string_bytes lines.old.items
        ++ spec.unused_groups held.entry.policy.now held.entry.layout.now held.entry.labels.now held.entry.homes.now) }
{
    let regions = kinds::idle_regions(alloc, held)?;
    let groups = kinds::idle_groups(alloc, held)?;
    add_kind(alloc, lines, held, regions.as_slice())?;
    add_kind(alloc, lines, held, groups.as_slice())
}

/// What the policy allows and is not there.
#[tactic(auto, unfolding(crate::specs::Texts::unused))]
fn unused(alloc: Global, held: Held<'_>) -> Result<Vec<String>, AllocError>
    ensures { IfOk result (λ v. map string_bytes v.items ≡ spec.unused held.entry.policy.now held.entry.layout.now held.entry.labels.now held.entry.homes.now) }
{
    let takes = kinds::idle_takes(alloc, held)?;
    let mut lines = Vec::new(alloc);
    add_unused_entries(alloc, &mut lines, held)?;
    add_unused_groups(alloc, &mut lines, held)?;
    add_kind(alloc, &mut lines, held, takes.as_slice())?;
    Ok(lines)
}

/// The calls that break the policy, where it says that calls succeed.
fn calls(
    alloc: Global,
    held: Held<'_>,
    setup: &Setup,
    replies: &[Reply],
) -> Result<Vec<String>, AllocError>
    requires { length replies.now ≤ length setup.now.calls }
    ensures { IfOk result (λ v. map string_bytes v.items ≡ spec.calls_breached held.entry.policy.now setup.now replies.now) }
{
    if held.policy.calls {
        call_breaches(alloc, setup, replies)
    } else {
        Ok(Vec::new(alloc))
    }
}

/// The lines of what breaks the policy: calls first, and then the other kinds.
pub fn breach_lines(
    alloc: Global,
    held: Held<'_>,
    setup: &Setup,
    replies: &[Reply],
    joins: &[Join],
    passages: &[Passage],
) -> Result<Vec<String>, AllocError>
    requires { length replies.now ≤ length setup.now.calls }
    ensures { IfOk result (λ v. map string_bytes v.items
        ≡ spec.breach_lines held.entry.policy.now held.entry.layout.now held.entry.labels.now held.entry.homes.now joins.now passages.now setup.now replies.now) }
{
    let mut lines = calls(alloc, held, setup, replies)?;
    add_breaches(alloc, &mut lines, held, joins, passages)?;
    Ok(lines)
}

/// A text, and the end of its line.
#[derive(Clone, Copy)]
struct TextLine;

impl Line<String> for TextLine {
    ghost line = { λ l text. terminated (string_bytes text) };

    fn add(&self, out: &mut String, text: &String) -> Result<(), AllocError> {
        writeln!(out, "{text}")
    }
}

/// A text of whole lines.
#[derive(Clone, Copy)]
struct WholeLines;

impl Line<String> for WholeLines {
    ghost line = { λ l text. text_itself (string_bytes text) };

    fn add(&self, out: &mut String, text: &String) -> Result<(), AllocError> {
        out.push_str(text.as_str())
    }
}

/// How many calls a set-up has, and how many of them are made.
#[derive(Clone, Copy)]
struct CallsText {
    calls: usize,
    made: usize,
}

impl fmt::Display for CallsText {
    ghost output = { λ c. Some (spec.policy_calls_text c.calls c.made) };

    fn fmt<W: fmt::Write>(&self, f: &mut fmt::Formatter<W>) -> fmt::Result {
        let calls = self.calls;
        let made = self.made;
        write!(f, " calls {calls} after {made}")
    }
}

fn add_head(
    out: &mut String,
    version: PolicyVersion,
    setup: &Setup,
    made: usize,
) -> Result<(), AllocError>
    ensures { OnOk result (string_bytes out.new ≡ string_bytes out.old ++ spec.policy_head_line version setup.now made) }
{
    let version = version_text(version);
    let profile = profile_text(setup.profile());
    let memory_bits = setup.plan().memory_bits();
    let calls = CallsText {
        calls: setup.calls().len(),
        made,
    };
    writeln!(
        out,
        "policy {version} {profile} memory_bits {memory_bits}{calls}"
    )
}

/// The numbers of the last line.
#[derive(Clone, Copy)]
pub struct Counts {
    pub groups: usize,
    pub parts: usize,
    pub ways: usize,
    pub takes: usize,
    pub breaches: usize,
    pub unused: usize,
}

/// How many takes there are, of which version 1 says nothing.
#[derive(Clone, Copy)]
struct TakesText {
    version: PolicyVersion,
    takes: usize,
}

impl fmt::Display for TakesText {
    ghost output = { λ t. Some (spec.takes_text t.version t.takes) };

    fn fmt<W: fmt::Write>(&self, f: &mut fmt::Formatter<W>) -> fmt::Result {
        let takes = self.takes;
        match self.version {
            PolicyVersion::One => Ok(()),
            PolicyVersion::Two => write!(f, " takes {takes}"),
        }
    }
}

fn word(breaches: usize) -> &'static str
    ensures { result.now ≡ spec.kept_or_broken breaches }
{
    if breaches == 0 { "kept" } else { "broken" }
}

fn add_counts(out: &mut String, version: PolicyVersion, counts: Counts) -> Result<(), AllocError>
    ensures { OnOk result (string_bytes out.new ≡ string_bytes out.old ++ spec.last_line version counts) }
{
    let Counts {
        groups,
        parts,
        ways,
        takes,
        breaches,
        unused,
    } = counts;
    let takes = TakesText { version, takes };
    let word = word(breaches);
    writeln!(
        out,
        "{word} groups {groups} parts {parts} ways {ways}{takes} breaches {breaches} unused {unused}"
    )
}

fn verdict_of(breaches: usize) -> Verdict
    ensures { result ≡ spec.verdict_by_count breaches }
{
    if breaches == 0 {
        Verdict::AllMet
    } else {
        Verdict::NotMet
    }
}

/// The text of a layout that is held to a policy, and the verdict: `AllMet` where nothing breaks it, and else `NotMet`. `joins` are
/// the parts that Grant joins, `passages` what can pass between them, and `replies` what the first calls of the set-up were answered.
/// With an origin, the places of each breach stand below its line.
pub fn policy_text<P: Profile, S: MakeStore<P>, W: MakeWaiters<P>>(
    alloc: Global,
    held: Held<'_>,
    origin: Option<Origin<'_>>,
    setup: &Setup,
    replies: &[Reply],
    joins: &[Join],
    passages: &[Passage],
) -> Result<(Vec<u8>, Verdict), AllocError>
    requires replies { length replies.now ≤ length setup.now.calls }
    requires origin { IsOrigin P.profile origin }
    ensures { IfOk result (λ made. (made.0.items, made.1)
        ≡ spec.text_and_verdict (places_told P.profile held.entry.policy.now held.entry.layout.now origin.entry) held.entry.policy.now held.entry.layout.now held.entry.labels.now held.entry.homes.now joins.now passages.now setup.now replies.now) }
{
    let first = first_lines(alloc, held)?;
    let calls = calls(alloc, held, setup, replies)?;
    let others = breaches::<P, S, W>(alloc, held, origin, joins, passages)?;
    let unused = unused(alloc, held)?;
    let breaches = calls.len() + others.len();
    let counts = Counts {
        groups: held.policy.groups.len(),
        parts: held.layout.parts.len(),
        ways: count_between_parts(passages),
        takes: held.layout.takes.len(),
        breaches,
        unused: unused.len(),
    };
    let version = held.policy.version;
    let mut out = String::new(alloc);
    add_head(&mut out, version, setup, replies.len())?;
    add_each(&mut out, first.as_slice(), &TextLine)?;
    add_each(&mut out, calls.as_slice(), &TextLine)?;
    add_each(&mut out, others.as_slice(), &WholeLines)?;
    add_each(&mut out, unused.as_slice(), &TextLine)?;
    add_counts(&mut out, version, counts)?;
    Ok((out.into_bytes(), verdict_of(breaches)))
}
