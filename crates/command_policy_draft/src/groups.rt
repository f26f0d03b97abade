//! The beginning of a draft: who is trusted, and the groups, by the layout held to a policy in which each thread that is not trusted is
//! a group of its own and nothing is allowed. No clause says what is written: the draft is read back (`judged`).
ghost use Rattle.std.specs.Prelude.{◌≤◌, length};
ghost use Rattle.kernel_abstract.specs.Plan.{IsPlan};

use crate::judged::Asked;
use crate::reasons::Reasons;
use cap_core::Profile;
use command_parts::{PartSlot, is_in};
use command_policy::Judged;
use command_policy_breaches::{Home, groups_at, regions_amiss};
use command_policy_places::{Link, Sites, United, fills, links_of};
use command_policy_text::{Told, call_breaches, kinds, object};
use ipc_core::MakeWaiters;
use setup_policy::Label;
use slot_core::{DerivationStore, MakeStore};
use std::alloc::{AllocError, Global};
use std::fmt::Write;

const HEAD: &str =
    "# What the layout does now. Read each entry, and take out what it is not to do.\npolicy = 2";

const CALLS: &str =
    "\n# Calls were refused, or answered otherwise than expected.\ncalls_succeed = false";

/// The first group that has a thread in a part, or in the joined parts that have a number; no group's number where there is none.
pub fn group_at(alloc: Global, homes: &[Home], part: u64) -> Result<u64, AllocError> {
    let groups = groups_at(alloc, homes, part)?;
    Ok(groups.as_slice().first().copied().unwrap_or(u64::MAX))
}

/// Adds a key with a list of threads, where there are any.
fn add_threads(
    out: &mut String,
    key: &str,
    labels: &[Label],
    threads: &[u64],
) -> Result<(), AllocError> {
    let mut before = key;
    for thread in threads {
        let thread = object(labels, *thread);
        write!(out, "{before}\"{thread}\"")?;
        before = ", ";
    }
    if threads.is_empty() {
        return Ok(());
    }
    out.push_str("]")
}

/// The keys before the groups, where threads have these labels.
fn head(asked: Asked<'_>, labels: &[Label]) -> Result<String, AllocError> {
    let mut out = String::from_str(asked.alloc, HEAD)?;
    if let Some(after) = asked.after {
        write!(out, "\nafter = {after}")?;
    }
    add_threads(&mut out, "\nsilent = [", labels, asked.silent)?;
    add_threads(&mut out, "\nmessages = [", labels, asked.messages)?;
    Ok(out)
}

/// A policy that allows nothing, with a group for each thread that is not trusted.
pub fn first_text(asked: Asked<'_>) -> Result<String, AllocError> {
    let mut out = head(asked, &[])?;
    add_threads(&mut out, "\nalone = [", &[], asked.others)?;
    Ok(out)
}

/// Adds a comment for each trusted thread whose control block a part has.
fn add_notes(asked: Asked<'_>, out: &mut String, judged: &Judged) -> Result<(), AllocError> {
    let threads = kinds::threads(asked.alloc, judged.held())?;
    for told in threads.as_slice() {
        if let Told::Thread(hold) = told {
            let thread = object(judged.labels.threads.as_slice(), hold.thread);
            write!(
                out,
                "\n# No policy allows that a part has the control block of a trusted thread: one has that of {thread}."
            )?;
        }
    }
    Ok(())
}

/// The outermost regions that the parts of some groups hold, each once, with the bits of its size.
fn regions_text(asked: Asked<'_>, judged: &Judged, groups: &[u64]) -> Result<String, AllocError> {
    let (alloc, layout) = (asked.alloc, &judged.layout);
    let mut out = String::new(alloc);
    let regions = regions_amiss(alloc, &judged.policy, layout)?;
    for region in regions.as_slice() {
        let base = object(judged.labels.regions.as_slice(), region.base);
        let bits = region.bits;
        let word = format!(in alloc; "\"{base}/{bits}\"")?;
        let group = group_at(alloc, layout.homes.as_slice(), region.part)?;
        if is_in(groups, group) && !out.as_str().contains(word.as_str()) {
            out.push_str(if out.is_empty() {
                ", regions = ["
            } else {
                ", "
            })?;
            out.push_str(word.as_str())?;
        }
    }
    if !out.is_empty() {
        out.push_str("]")?;
    }
    Ok(out)
}

/// A group of a draft: the groups of one thread that are one, their threads, and what makes these one.
#[derive(Drop)]
pub struct Group {
    pub groups: Vec<u64>,
    pub threads: Vec<u64>,
    pub links: Vec<Link>,
    pub united: United,
}

/// The threads that are alone in some groups.
fn threads_of(asked: Asked<'_>, groups: &[u64]) -> Result<Vec<u64>, AllocError> {
    let mut threads = Vec::new(asked.alloc);
    for group in groups {
        if let Some(thread) = asked.others.get(*group as usize) {
            threads.push(*thread)?;
        }
    }
    Ok(threads)
}

/// The groups of a draft; the full slots are in the order of their addresses.
fn groups_of<P: Profile>(
    asked: Asked<'_>,
    judged: &Judged,
    slots: &[PartSlot],
) -> Result<Vec<Group>, AllocError> {
    let (alloc, homes) = (asked.alloc, judged.homes.as_slice());
    let mut all = Vec::new(alloc);
    for home in homes {
        let groups = groups_at(alloc, homes, home.part)?;
        if groups.as_slice().first() == Some(&home.group) {
            let threads = threads_of(asked, groups.as_slice())?;
            let (links, united) = links_of::<P>(alloc, slots, threads.as_slice())?;
            all.push(Group {
                groups,
                threads,
                links,
                united,
            })?;
        }
    }
    Ok(all)
}

/// The groups as they are written.
#[derive(Drop)]
struct GroupTexts {
    /// The names of those that are one thread with a name and hold no region.
    alone: String,
    /// The tables of the others, with comments.
    tables: String,
}

impl GroupTexts {
    /// Adds a group, which is called as the first of its threads, with comments that say why several are one.
    fn add(
        &mut self,
        asked: Asked<'_>,
        judged: &Judged,
        group: &Group,
        reasons: &str,
    ) -> Result<(), AllocError> {
        let labels = judged.labels.threads.as_slice();
        let threads = group.threads.as_slice();
        let first = object(labels, threads.first().copied().unwrap_or(0));
        let first = format!(in asked.alloc; "{first}")?;
        let name = first.as_str().strip_prefix("@");
        let regions = regions_text(asked, judged, group.groups.as_slice())?;
        if let Some(name) = name
            && threads.len() == 1
            && regions.is_empty()
        {
            let before = if self.alone.is_empty() { "" } else { ", " };
            return write!(self.alone, "{before}\"{name}\"");
        }
        let name = name.unwrap_or(first.as_str());
        write!(self.tables, "{reasons}  {{ name = \"{name}\"")?;
        add_threads(&mut self.tables, ", threads = [", labels, threads)?;
        writeln!(self.tables, "{regions} }},")
    }
}

/// The groups of a draft with their comments, as they are written.
fn group_texts<P: Profile, S: MakeStore<P> + DerivationStore<P>, W: MakeWaiters<P>>(
    asked: Asked<'_>,
    judged: &Judged,
) -> Result<GroupTexts, AllocError>
    requires plan { IsPlan P.profile asked.setup.now.plan }
    requires made { asked.made ≤ length asked.setup.now.calls }
{
    let (alloc, setup, made) = (asked.alloc, asked.setup, asked.made);
    let (layout, joins) = (&judged.layout, judged.joins.as_slice());
    let sites = Sites::of::<P, S, W>(alloc, setup, made, layout, joins)?;
    let mut groups = groups_of::<P>(asked, judged, sites.slots.as_slice())?;
    let mut slots = Vec::new(alloc);
    for group in groups.as_slice() {
        for link in group.links.as_slice() {
            slots.push(link.slot)?;
        }
    }
    let fills = fills::<P, S, W>(alloc, setup, made, slots.as_slice())?;
    let reasons = Reasons {
        alloc,
        judged,
        names: sites.names(&judged.labels),
        fills: fills.as_slice(),
    };
    let mut texts = GroupTexts {
        alone: String::new(alloc),
        tables: String::new(alloc),
    };
    for group in groups.iter_mut() {
        let mut why = String::new(alloc);
        reasons.add(&mut why, group)?;
        texts.add(asked, judged, group, why.as_str())?;
    }
    Ok(texts)
}

/// The draft up to its groups, the last of which the list is not closed behind.
pub fn groups_text<P: Profile, S: MakeStore<P> + DerivationStore<P>, W: MakeWaiters<P>>(
    asked: Asked<'_>,
    judged: &Judged,
) -> Result<String, AllocError>
    requires plan { IsPlan P.profile asked.setup.now.plan }
    requires made { asked.made ≤ length asked.setup.now.calls }
    requires answered { length judged.now.replies.items ≤ length asked.setup.now.calls }
{
    let mut out = head(asked, judged.labels.threads.as_slice())?;
    add_notes(asked, &mut out, judged)?;
    let refused = call_breaches(asked.alloc, asked.setup, judged.replies.as_slice())?;
    out.push_str(if refused.is_empty() { "" } else { CALLS })?;
    let GroupTexts { alone, tables } = group_texts::<P, S, W>(asked, judged)?;
    if !alone.is_empty() {
        write!(out, "\nalone = [{alone}]")?;
    }
    write!(out, "\ngroup = [\n{tables}")?;
    Ok(out)
}
