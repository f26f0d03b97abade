//! Comments of a draft that say why the threads of a group are one. No clause says what is written: the draft is read back (`judged`).
use crate::groups::Group;
use cap_core::Rights;
use command_parts::{is_in, is_of_part};
use command_policy::Judged;
use command_policy_breaches::{Join, Layout};
use command_policy_places::{Fill, Link, SiteNames};
use command_policy_text::object;
use query_parts::part_at;
use setup_policy::Labels;
use setup_report::Object;
use std::alloc::{AllocError, Global};
use std::fmt;
use std::fmt::Write;

/// A slot, and the call that filled it: `slot @cn_a[1] call 3`.
#[derive(Clone, Copy)]
struct SlotText<'a> {
    names: SiteNames<'a>,
    fills: &'a [Fill],
    slot: u64,
}

impl fmt::Display for SlotText<'_> {
    fn fmt<W: fmt::Write>(&self, f: &mut fmt::Formatter<W>) -> fmt::Result {
        let slot = self.names.slot(self.slot);
        for fill in self.fills {
            if let Some(call) = fill.call
                && fill.slot == self.slot
            {
                return write!(f, "slot {slot} call {call}");
            }
        }
        write!(f, "slot {slot} boot")
    }
}

/// Whether a part that can hand capabilities to another can do so by a message, and not by its answers alone.
fn hands_by_message(layout: &Layout, join: &Join) -> bool {
    let memory = layout.memory.as_slice();
    let (read, give) = (Rights::READ.0, Rights::WRITE.0 | Rights::GRANT.0);
    let mut gives = is_of_part(memory, join.from, join.endpoint);
    let mut hears = is_of_part(memory, join.to, join.endpoint);
    for used in layout.uses.as_slice() {
        if used.endpoint == join.endpoint {
            gives = gives || used.part == join.from && used.rights.0 & give == give;
            hears = hears || used.part == join.to && used.rights.0 & read == read;
        }
    }
    for wait in layout.waits.as_slice() {
        if wait.endpoint == join.endpoint && !wait.sends {
            hears = hears || is_of_part(memory, join.to, wait.thread);
        }
    }
    gives && hears
}

/// How many of some links are to control blocks, by slots that a thread reaches.
fn count_holds(links: &[Link], thread: u64) -> usize {
    let mut count = 0usize;
    for link in links {
        if link.thread == thread && link.is_hold() {
            count = count.saturating_add(1);
        }
    }
    count
}

/// What comments are written of.
#[derive(Clone, Copy)]
pub struct Reasons<'a> {
    pub alloc: Global,
    pub judged: &'a Judged,
    pub names: SiteNames<'a>,
    pub fills: &'a [Fill],
}

impl Reasons<'_> {
    /// Adds why a thread has hold of others. If it has of all others of several, the comment asks whether it is to be trusted.
    fn add_hold(
        self,
        out: &mut String,
        link: &Link,
        count: usize,
        threads: usize,
    ) -> Result<(), AllocError> {
        let labels = self.judged.labels.threads.as_slice();
        let (thread, other) = (object(labels, link.thread), object(labels, link.other));
        let slot = self.slot(link.slot);
        write!(out, "  # {thread} has hold of {other} by {slot}")?;
        let more = count.saturating_sub(1);
        if more > 0 {
            write!(out, ", and of {more} more")?;
        }
        if more > 0 && count == threads.saturating_sub(1) {
            out.push_str("; trust it with --without?")?;
        }
        out.push_str("\n")
    }

    fn slot(&self, slot: u64) -> SlotText<'_> {
        SlotText {
            names: self.names,
            fills: self.fills,
            slot,
        }
    }

    /// An object; of a region also the bits of its size.
    fn object_text(self, shared: Object) -> Result<String, AllocError> {
        let Labels {
            threads,
            endpoints,
            regions,
            nodes,
        } = &self.judged.labels;
        let labels = match shared {
            Object::Thread(_) => threads,
            Object::Endpoint(_) => endpoints,
            Object::CNode(_) => nodes,
            Object::Region(..) => regions,
        };
        let text = object(labels.as_slice(), shared.base());
        match shared {
            Object::Region(_, bits) => format!(in self.alloc; "{text} bits {bits}"),
            _ => format!(in self.alloc; "{text}"),
        }
    }

    /// Adds that two threads share an object.
    fn add_share(self, out: &mut String, link: &Link) -> Result<(), AllocError> {
        let labels = self.judged.labels.threads.as_slice();
        let (thread, other) = (object(labels, link.thread), object(labels, link.other));
        let shared = self.object_text(link.object)?;
        let slot = self.slot(link.slot);
        writeln!(out, "  # {thread} and {other} share {shared} by {slot}")
    }

    /// Adds why the threads that links make one are one: a line for each link, and one alone for all threads of which one has hold.
    fn add_links(self, out: &mut String, group: &Group) -> Result<(), AllocError> {
        let links = group.links.as_slice();
        let mut holders = Vec::new(self.alloc);
        for link in links {
            if !link.is_hold() {
                self.add_share(out, link)?;
            } else if !is_in(holders.as_slice(), link.thread) {
                let count = count_holds(links, link.thread);
                self.add_hold(out, link, count, group.threads.len())?;
                holders.push(link.thread)?;
            }
        }
        Ok(())
    }

    /// The first thread of a group in a part.
    fn first_in(self, group: &Group, part: u64) -> Option<u64> {
        for thread in group.threads.as_slice() {
            if part_at(self.judged.layout.memory.as_slice(), *thread) == Some(part) {
                return Some(*thread);
            }
        }
        None
    }

    /// Adds that a thread can hand another capabilities, if that makes the two one.
    fn add_grant(
        self,
        out: &mut String,
        group: &mut Group,
        join: &Join,
        by_message: bool,
    ) -> Result<(), AllocError> {
        let ends = (
            self.first_in(group, join.from),
            self.first_in(group, join.to),
        );
        let (Some(from), Some(to)) = ends else {
            return Ok(());
        };
        if !group.united.unite(from, to) {
            return Ok(());
        }
        let labels = &self.judged.labels;
        let threads = labels.threads.as_slice();
        let (from, to) = (object(threads, from), object(threads, to));
        let endpoint = object(labels.endpoints.as_slice(), join.endpoint);
        if by_message {
            writeln!(
                out,
                "  # {from} can hand {to} capabilities by {endpoint}: Grant"
            )
        } else {
            writeln!(
                out,
                "  # {from} can answer {to} with capabilities by {endpoint}: Grant"
            )
        }
    }

    /// Adds what can be handed over by answers alone.
    fn add_answers(
        self,
        out: &mut String,
        group: &mut Group,
        answers: &mut Vec<Join>,
    ) -> Result<(), AllocError> {
        for join in answers.as_slice() {
            self.add_grant(out, group, join, false)?;
        }
        answers.clear();
        Ok(())
    }

    /// Adds the comments of a group: its links; and then, for each endpoint and each part with Grant, what that can hand over by a
    /// message, and what by its answers alone.
    pub fn add(self, out: &mut String, group: &mut Group) -> Result<(), AllocError> {
        self.add_links(out, group)?;
        let mut answers: Vec<Join> = Vec::new(self.alloc);
        for join in self.judged.joins.as_slice() {
            if let Some(other) = answers.as_slice().first()
                && (other.endpoint != join.endpoint || other.from != join.from)
            {
                self.add_answers(out, group, &mut answers)?;
            }
            if hands_by_message(&self.judged.layout, join) {
                self.add_grant(out, group, join, true)?;
            } else {
                answers.push(*join)?;
            }
        }
        self.add_answers(out, group, &mut answers)
    }
}
