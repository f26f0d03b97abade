//! The lines of a part: its live threads, its memory, and the endpoints that it may use.
ghost use Rattle.std.specs.Prelude.{◌≡◌, ◌++◌, OnOk, Some, string_bytes};
ghost use Rattle.std.specs.List.{filter_map};
ghost use Rattle.kernel_abstract.specs.Shown.{state_at};
ghost use Rattle.query_parts.specs.Listed as listed;
ghost use Rattle.setup_report.specs.State.{threads as live_threads};
ghost use Rattle.command_parts.specs.Telling.{home_of, part_naming_view};
ghost use Rattle.command_parts.specs.Text as spec;

use crate::messages::uses_held;
use crate::sets::is_in;
use crate::takes::PartSlot;
use crate::telling::{Home, PartNaming, threads_of};
use cap_core::Profile;
use ipc_core::Waiters;
use kernel_core::{Kernel, ThreadState};
use list_questions::{Line, add_each};
use query_parts::{PartMemory, PartUse, Parts, part_at};
use setup_report::RightsText;
use slot_core::CapStore;
use std::alloc::{AllocError, Global};
use std::fmt;
use std::fmt::Write;

/// A badge, or that it may be any, which 0 stands for.
#[derive(Clone, Copy)]
pub struct BadgeText(pub u64);

impl fmt::Display for BadgeText {
    ghost output = { λ b. Some (spec.any_badge_text b.0) };

    fn fmt<W: fmt::Write>(&self, f: &mut fmt::Formatter<W>) -> fmt::Result {
        let badge = self.0;
        if badge == 0 {
            write!(f, "any")
        } else {
            write!(f, "{badge}")
        }
    }
}

fn state_word(state: ThreadState) -> &'static str
    ensures { result.now ≡ spec.state_word state }
{
    match state {
        ThreadState::Ready => "ready",
        ThreadState::Inactive => "inactive",
        ThreadState::Sending(_) => "sending",
        ThreadState::Receiving(_) => "receiving",
    }
}

/// A live thread and its state.
#[derive(Drop)]
struct ThreadLine<'a, P: Profile, S: CapStore<P> + Drop, W: Waiters<P> + Drop> {
    told: &'a PartNaming<'a>,
    kernel: &'a Kernel<P, S, W>,
}

impl<P: Profile, S: CapStore<P> + Drop, W: Waiters<P> + Drop> Line<u64>
    for ThreadLine<'_, P, S, W> {
    ghost line = { λ l thread. spec.state_line ((part_naming_view l.told.now).texts.about thread) (state_at l.kernel.now thread) };

    fn add(&self, out: &mut String, thread: &u64) -> Result<(), AllocError> {
        match self.kernel.thread_state(*thread) {
            None => Ok(()),
            Some(state) => {
                let name = self.told.thread(*thread);
                let word = state_word(state);
                writeln!(out, "  thread {name} {word}")
            }
        }
    }
}

/// Whether an address lies in the memory of a part.
pub fn is_of_part(memory: &[PartMemory], part: u64, address: u64) -> bool
    ensures { result ≡ spec.is_part part (listed.part_at memory.now address) }
{
    match part_at(memory, address) {
        Some(i) => i == part,
        None => false,
    }
}

/// What is said about a part alone, of the memory and the uses of all parts.
#[derive(Clone, Copy)]
struct OfPart<'a> {
    told: &'a PartNaming<'a>,
    part: u64,
}

impl Line<PartMemory> for OfPart<'_> {
    ghost line = { λ l stretch. spec.memory_line l.part stretch };

    fn add(&self, out: &mut String, stretch: &PartMemory) -> Result<(), AllocError> {
        let first = stretch.first;
        let last = stretch.last;
        if stretch.part == self.part {
            writeln!(out, "  memory {first} to {last}")
        } else {
            Ok(())
        }
    }
}

impl Line<PartUse> for OfPart<'_> {
    ghost line = { λ l allowed. spec.use_line (part_naming_view l.told.now) l.part allowed };

    fn add(&self, out: &mut String, allowed: &PartUse) -> Result<(), AllocError> {
        let endpoint = self.told.endpoint(allowed.endpoint);
        let badge = BadgeText(allowed.badge.0);
        let rights = RightsText(allowed.rights);
        if allowed.part == self.part {
            writeln!(out, "  use {endpoint} badge {badge} rights {rights}")
        } else {
            Ok(())
        }
    }
}

/// A use of a part that only passes messages.
#[derive(Clone, Copy)]
struct HeldLine<'a> {
    told: &'a PartNaming<'a>,
}

impl Line<PartUse> for HeldLine<'_> {
    ghost line = { λ l held. spec.held_line (part_naming_view l.told.now) held };

    fn add(&self, out: &mut String, held: &PartUse) -> Result<(), AllocError> {
        let endpoint = self.told.endpoint(held.endpoint);
        let badge = held.badge.0;
        let rights = RightsText(held.rights);
        writeln!(out, "  use {endpoint} badge {badge} rights {rights}")
    }
}

/// What the lines of parts say: the parts and their numbers, the full slots of the kernel, the parts that only pass messages, and
/// where the live threads lie.
#[derive(Drop)]
pub struct PartLines<'a, P: Profile, S: CapStore<P> + Drop, W: Waiters<P> + Drop> {
    pub alloc: Global,
    pub told: &'a PartNaming<'a>,
    pub kernel: &'a Kernel<P, S, W>,
    pub parts: &'a Parts,
    pub numbers: &'a [u64],
    pub slots: &'a [PartSlot],
    pub alone: &'a [u64],
    pub homes: &'a [Home],
    ghost numbered: { numbers.now ≡ spec.parts_of parts.now.memory.items },
    ghost housed: { homes.now ≡ filter_map (home_of parts.now.memory.items) (live_threads P.profile kernel.now) },
}

impl<P: Profile, S: CapStore<P> + Drop, W: Waiters<P> + Drop> PartLines<'_, P, S, W> {
    /// Adds the uses of a part; of one that only passes messages what it has, below a line that says so.
    fn add_uses(&self, out: &mut String, part: u64) -> Result<(), AllocError>
        ensures { OnOk result (string_bytes out.new ≡ string_bytes out.old
            ++ spec.use_lines (part_naming_view self.now.told.now) self.now.slots.now self.now.alone.now self.now.parts.now.uses.items part) }
    {
        let told = self.told;
        if is_in(self.alone, part) {
            let held = uses_held(self.alloc, self.slots, part)?;
            writeln!(out, "  only messages")?;
            add_each(out, held.as_slice(), &HeldLine { told })
        } else {
            add_each(out, self.parts.uses.as_slice(), &OfPart { told, part })
        }
    }
}

impl<P: Profile, S: CapStore<P> + Drop, W: Waiters<P> + Drop> Line<u64> for PartLines<'_, P, S, W> {
    ghost line = { λ l part. spec.part_lines P.profile (part_naming_view l.told.now) l.parts.now.memory.items l.parts.now.uses.items l.kernel.now l.slots.now l.alone.now part };

    fn add(&self, out: &mut String, part: &u64) -> Result<(), AllocError> {
        let (told, kernel, part) = (self.told, self.kernel, *part);
        let name = told.part(part)?;
        writeln!(out, "part {name}")?;
        let threads = threads_of(self.alloc, self.homes, part)?;
        add_each(out, threads.as_slice(), &ThreadLine { told, kernel })?;
        add_each(out, self.parts.memory.as_slice(), &OfPart { told, part })?;
        self.add_uses(out, part)
    }
}
