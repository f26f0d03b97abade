//! The text of the parts of a kernel.
ghost use Rattle.std.specs.Prelude.{◌≡◌, ◌++◌, ℕ, IfErr, IfOk, OnOk, length, string_bytes};
ghost use Rattle.std.specs.List.{flat_map};
ghost use Rattle.kernel_abstract.specs.Memory.{IsInMemory};
ghost use Rattle.setup_report.specs.Naming.{naming_view};
ghost use Rattle.setup_report.specs.State as state;
ghost use Rattle.command_parts.specs.Takes.{takes as spec_takes};
ghost use Rattle.command_parts.specs.Telling.{part_naming_view, part_texts};
ghost use Rattle.command_parts.specs.Text as spec;
ghost use Rattle.command_parts.specs.Ever.{AreRightParts, IsPartsText};

use crate::head::{Heading, add_heading};
use crate::messages::messengers;
use crate::parts::PartLines;
use crate::sets::listed;
use crate::takes::{TakeLine, part_slots, part_takes};
use crate::telling::{PartNaming, homes};
use crate::threads::callers;
use crate::ways::{MessageLine, Passing, PassingLine, message_ways, parts_of, ways_by};
use cap_core::Profile;
use ipc_core::Waiters;
use kernel_core::Kernel;
use list_questions::{Line, add_each};
use query_parts::{Parts, PartsFault, parts_around};
use setup_report::{Naming, StateRows, state_rows, waiting_threads};
use slot_core::{CapStore, DerivationStore};
use std::alloc::{AllocError, Global};
use std::fmt::Write;

/// A send that waits on an endpoint.
#[derive(Drop)]
struct OfferLine<'a, P: Profile, S: CapStore<P> + Drop, W: Waiters<P> + Drop> {
    told: &'a PartNaming<'a>,
    kernel: &'a Kernel<P, S, W>,
    endpoint: u64,
}

impl<P: Profile, S: CapStore<P> + Drop, W: Waiters<P> + Drop> Line<u64> for OfferLine<'_, P, S, W> {
    ghost line = { λ l thread. spec.waiting_line (part_naming_view l.told.now) l.kernel.now l.endpoint thread };

    fn add(&self, out: &mut String, thread: &u64) -> Result<(), AllocError> {
        match self.kernel.offer(*thread) {
            None => Ok(()),
            Some(offer) => {
                let name = self.told.thread(*thread);
                let endpoint = self.told.endpoint(self.endpoint);
                let badge = offer.badge.0;
                writeln!(out, "waiting {name} -> {endpoint} badge {badge}")
            }
        }
    }
}

/// The sends that wait on an endpoint.
#[derive(Drop)]
struct WaitingLines<'a, P: Profile, S: CapStore<P> + Drop, W: Waiters<P> + Drop> {
    alloc: Global,
    told: &'a PartNaming<'a>,
    kernel: &'a Kernel<P, S, W>,
}

impl<P: Profile, S: CapStore<P> + Drop, W: Waiters<P> + Drop> Line<u64>
    for WaitingLines<'_, P, S, W> {
    ghost line = { λ l endpoint. spec.waiting_lines (part_naming_view l.told.now) l.kernel.now endpoint };

    fn add(&self, out: &mut String, endpoint: &u64) -> Result<(), AllocError> {
        let (told, kernel, endpoint) = (self.told, self.kernel, *endpoint);
        let threads = waiting_threads::<P, S, W>(self.alloc, endpoint, kernel)?;
        let offer = OfferLine {
            told,
            kernel,
            endpoint,
        };
        add_each(out, threads.as_slice(), &offer)
    }
}

impl<P: Profile, S: DerivationStore<P> + Drop, W: Waiters<P> + Drop> PartLines<'_, P, S, W> {
    /// Adds the lines of the ways by which something passes, and returns how many there are.
    fn add_passing(&self, out: &mut String, passing: Passing) -> Result<usize, AllocError>
        ensures lines { OnOk result (string_bytes out.new ≡ string_bytes out.old
            ++ spec.way_lines (part_naming_view self.now.told.now) passing P.profile self.now.parts.now.memory.items self.now.parts.now.uses.items) }
        ensures count { IfOk result (λ n. n ≡ length (spec.ways passing P.profile self.now.parts.now.memory.items self.now.parts.now.uses.items)) }
    {
        let memory = self.parts.memory.as_slice();
        let uses = self.parts.uses.as_slice();
        let ways = ways_by::<P>(self.alloc, memory, uses, self.numbers, passing)?;
        let told = self.told;
        add_each(out, ways.as_slice(), &PassingLine { told, passing })?;
        Ok(ways.len())
    }

    /// Adds the lines of the ways by which messages pass, and returns how many there are.
    fn add_message_passing(&self, out: &mut String) -> Result<usize, AllocError>
        ensures lines { OnOk result (string_bytes out.new ≡ string_bytes out.old
            ++ flat_map (spec.message_line (part_naming_view self.now.told.now) self.now.alone.now)
            (spec.message_ways P.profile self.now.parts.now.memory.items self.now.parts.now.uses.items self.now.slots.now self.now.alone.now)) }
        ensures count { IfOk result (λ n. n
            ≡ length (spec.message_ways P.profile self.now.parts.now.memory.items self.now.parts.now.uses.items self.now.slots.now self.now.alone.now)) }
    {
        let (parts, numbers, alone) = (self.parts, self.numbers, self.alone);
        let ways = message_ways::<P>(self.alloc, parts, numbers, self.slots, alone)?;
        let told = self.told;
        add_each(out, ways.as_slice(), &MessageLine { told, alone })?;
        Ok(ways.len())
    }

    /// Adds the lines of the parts from which others may take slots, and returns how many there are.
    fn add_taken(&self, out: &mut String) -> Result<usize, AllocError>
        ensures lines { OnOk result (string_bytes out.new ≡ string_bytes out.old
            ++ flat_map (spec.take_line (part_naming_view self.now.told.now)) (spec_takes self.now.slots.now self.now.numbers.now)) }
        ensures count { IfOk result (λ n. n ≡ length (spec_takes self.now.slots.now self.now.numbers.now)) }
    {
        let taken = part_takes(self.alloc, self.slots, self.numbers)?;
        let told = self.told;
        add_each(out, taken.as_slice(), &TakeLine { told })?;
        Ok(taken.len())
    }

    /// Adds the lines of parts, of the ways between them, of who may take slots from whom, and of the sends that wait.
    #[tactic(auto, unfolding(crate::specs::Text::lines_by_slots))]
    fn add_all(&self, out: &mut String, endpoints: &[u64]) -> Result<(), AllocError>
        requires { endpoints.now ≡ state.endpoints P.profile self.now.kernel.now }
        ensures { OnOk result (string_bytes out.new ≡ string_bytes out.old
            ++ spec.lines_by_slots P.profile (part_naming_view self.now.told.now) self.now.parts.now.memory.items self.now.parts.now.uses.items
            self.now.kernel.now self.now.slots.now self.now.alone.now) }
    {
        let (alloc, told, kernel) = (self.alloc, self.told, self.kernel);
        add_each(out, self.numbers, self)?;
        let ways = self.add_message_passing(out)?;
        let grants = self.add_passing(out, Passing::Grant)?;
        let replies = self.add_passing(out, Passing::Answer)?;
        let takes = self.add_taken(out)?;
        let waiting = WaitingLines {
            alloc,
            told,
            kernel,
        };
        add_each(out, endpoints, &waiting)?;
        let parts = self.numbers.len();
        writeln!(
            out,
            "parts {parts} ways {ways} grants {grants} replies {replies} takes {takes}"
        )
    }
}

/// Adds the lines of parts, if the live threads and endpoints are known.
#[tactic(auto, unfolding(crate::specs::Text::ever_lines))]
fn add_lines<P: Profile, S: DerivationStore<P> + Drop, W: Waiters<P> + Drop>(
    alloc: Global,
    out: &mut String,
    told: &PartNaming<'_>,
    kernel: &Kernel<P, S, W>,
    threads: &[u64],
    endpoints: &[u64],
    parts: &Parts,
) -> Result<(), AllocError>
    requires threads { threads.now ≡ state.threads P.profile kernel.now }
    requires endpoints { endpoints.now ≡ state.endpoints P.profile kernel.now }
    ensures { OnOk result (string_bytes out.new ≡ string_bytes out.old
        ++ spec.ever_lines P.profile (part_naming_view told.now) parts.now.memory.items parts.now.uses.items kernel.now) }
{
    let memory = parts.memory.as_slice();
    let numbers = parts_of(alloc, memory)?;
    let slots = part_slots::<P, S, W>(alloc, memory, kernel)?;
    let alone = messengers::<P>(alloc, slots.as_slice(), numbers.as_slice())?;
    let homes = homes(alloc, memory, threads)?;
    let lines = PartLines {
        alloc,
        told: &*told,
        kernel: &*kernel,
        parts: &*parts,
        numbers: numbers.as_slice(),
        slots: slots.as_slice(),
        alone: alone.as_slice(),
        homes: homes.as_slice(),
    };
    lines.add_all(out, endpoints)
}

/// The text of parts that are given.
#[tactic(auto, unfolding(crate::specs::Text::ever_text))]
fn text_of_parts<P: Profile, S: DerivationStore<P> + Drop, W: Waiters<P> + Drop>(
    alloc: Global,
    naming: &Naming<'_>,
    heading: &Heading<'_>,
    kernel: &Kernel<P, S, W>,
    rows: &StateRows,
    parts: &Parts,
) -> Result<Vec<u8>, AllocError>
    requires threads { rows.now.threads.keys ≡ state.threads P.profile kernel.now }
    requires endpoints { rows.now.endpoints.keys ≡ state.endpoints P.profile kernel.now }
    ensures { IfOk result (λ text. text.items
        ≡ spec.ever_text P.profile (part_texts (naming_view naming.now) parts.now.memory.items (state.threads P.profile kernel.now)) heading.now.setup.now heading.now.made heading.now.refused heading.now.without.now heading.now.messages.now
        parts.now.memory.items parts.now.uses.items kernel.now) }
{
    let threads = listed(alloc, &rows.threads)?;
    let threads = threads.as_slice();
    let endpoints = listed(alloc, &rows.endpoints)?;
    let endpoints = endpoints.as_slice();
    let told = PartNaming::new(alloc, naming, parts.memory.as_slice(), threads)?;
    let mut out = String::new(alloc);
    add_heading::<P, S, W>(&mut out, "ever 3", &told, heading, kernel)?;
    add_lines::<P, S, W>(alloc, &mut out, &told, kernel, threads, endpoints, parts)?;
    Ok(out.into_bytes())
}

/// The least closed parts around the live threads that are not trusted.
///
/// # Errors
///
/// `Memory` if memory was refused; `Block` if the control block of a live thread would end past the last address. No kernel
/// whose objects lie in its memory has such a thread (`fault`).
pub fn parts_of_callers<P: Profile, S: DerivationStore<P> + Drop, W: Waiters<P> + Drop>(
    alloc: Global,
    trusted: &[u64],
    kernel: &Kernel<P, S, W>,
    rows: &StateRows,
) -> Result<Parts, PartsFault>
    requires { rows.now.threads.keys ≡ state.threads P.profile kernel.now }
    ensures right { IfOk result (λ parts. AreRightParts P.profile kernel.now trusted.now parts.memory.items parts.uses.items) }
    ensures fault { IfErr result (λ fault. fault ≡ PartsFault.Block → (memory : ℕ) → IsInMemory P.profile memory kernel.now → ⊥) }
{
    let threads = listed(alloc, &rows.threads)?;
    let callers = callers(alloc, threads.as_slice(), trusted)?;
    parts_around::<P, S, W>(alloc, kernel, callers.as_slice())
}

/// All threads that are trusted: to make no more calls, and only to send and receive.
pub fn all_trusted(alloc: Global, heading: &Heading<'_>) -> Result<Vec<u64>, AllocError>
    ensures { IfOk result (λ v. v.items ≡ heading.now.without.now ++ heading.now.messages.now) }
{
    let mut trusted = Vec::from_slice(alloc, heading.without)?;
    trusted.extend_from_slice(heading.messages)?;
    Ok(trusted)
}

/// What the threads of a kernel can never get, but those that are trusted: the text of closed parts around them.
///
/// # Errors
///
/// `Memory` if memory was refused; `Block` if the control block of a live thread would end past the last address. No kernel
/// whose objects lie in its memory has such a thread (`fault`).
pub fn ever<P: Profile, S: DerivationStore<P> + Drop, W: Waiters<P> + Drop>(
    alloc: Global,
    naming: &Naming<'_>,
    heading: &Heading<'_>,
    kernel: &Kernel<P, S, W>,
) -> Result<Vec<u8>, PartsFault>
    ensures text { IfOk result (λ text. IsPartsText P.profile (naming_view naming.now) heading.now.setup.now heading.now.made heading.now.refused heading.now.without.now heading.now.messages.now kernel.now text.items) }
    ensures fault { IfErr result (λ fault. fault ≡ PartsFault.Block → (memory : ℕ) → IsInMemory P.profile memory kernel.now → ⊥) }
{
    let rows = state_rows::<P, S, W>(alloc, kernel)?;
    let trusted = all_trusted(alloc, heading)?;
    let parts = parts_of_callers::<P, S, W>(alloc, trusted.as_slice(), kernel, &rows)?;
    let text = text_of_parts::<P, S, W>(alloc, naming, heading, kernel, &rows, &parts)?;
    Ok(text)
}
