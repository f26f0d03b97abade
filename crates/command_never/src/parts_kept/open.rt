//! The text of an answer: whether one thread's part is kept from another's, and what is open between them.
ghost use Rattle.std.specs.Prelude.{◌≡◌, ◌++◌, ℕ, false, IfErr, IfOk, OnOk, Some, string_bytes};
ghost use Rattle.std.specs.List.{flat_map};
ghost use Rattle.kernel_abstract.specs.Memory.{IsInMemory};
ghost use Rattle.query_reach.specs.FullSlots.{AreFullSlots};
ghost use Rattle.setup_report.specs.Naming.{naming_view};
ghost use Rattle.command_parts.specs.Telling.{part_naming_view};
ghost use Rattle.query_parts.specs.Listed as listed_at;
ghost use Rattle.command_never.specs.Waits.{waits as waits_of};
ghost use Rattle.setup_report.specs.State.{endpoints as endpoints_of};
ghost use Rattle.command_never.specs.Answer.{is_by_flow};
ghost use Rattle.command_never.specs.Open as spec;

use crate::parts_kept::answering::{answer_of, state_parts};
use crate::parts_kept::chain_text::chains_between;
use crate::parts_kept::never::{
    Between, HasSome, Layout, Never, ReceiverOn, SenderOn, UseOf, endpoint_size, never_of_parts,
    open_endpoints,
};
use crate::parts_kept::still::Callers;
use crate::parts_kept::waits::Wait;
use cap_core::Profile;
use command_parts::{
    BadgeText, Heading, PartNaming, PartTold, add_heading, add_sel4_lines, add_take_of,
    all_trusted, is_in, none_text, part_slots, uses_on,
};
use ipc_core::Waiters;
use kernel_core::Kernel;
use list_questions::{Asks, Line, add_each};
use query_parts::{PartMemory, PartUse, PartsFault, UseKey, part_at, uses_by_key};
use query_reach::{FullSlot, full_slots};
use setup_report::{Naming, RightsText};
use slot_core::{CapStore, DerivationStore};
use std::alloc::{AllocError, Global};
use std::fmt;
use std::fmt::Write;
use std::marker::PhantomData;

/// A part, or that there is none.
#[derive(Drop)]
struct PartText(Option<PartTold>);

impl fmt::Display for PartText {
    ghost output = { λ p. Some (spec.part_or_none_told p.0) };

    fn fmt<W: fmt::Write>(&self, f: &mut fmt::Formatter<W>) -> fmt::Result {
        match &self.0 {
            None => write!(f, "none"),
            Some(part) => write!(f, "{part}"),
        }
    }
}

/// The part at an address.
fn part_text(
    told: &PartNaming<'_>,
    memory: &[PartMemory],
    address: u64,
) -> Result<PartText, AllocError>
    ensures { IfOk result (λ text. spec.part_or_none_told text.0 ≡ spec.part_text (part_naming_view told.now).part (listed_at.part_at memory.now address)) }
{
    match part_at(memory, address) {
        None => Ok(PartText(None)),
        Some(part) => Ok(PartText(Some(told.part(part)?))),
    }
}

fn never_word(answer: Never) -> &'static str
    ensures { result.now ≡ spec.never_word answer }
{
    match answer {
        Never::Excluded => "excluded",
        Never::ExcludedByFlow => "excluded by flow",
        Never::Possible => "possible",
        Never::Decided => "possible decided",
    }
}

/// What a part has of an endpoint that is open.
#[derive(Drop)]
struct HadLines<'a, P: Profile> {
    told: &'a PartNaming<'a>,
    memory: &'a [PartMemory],
    part: u64,
    endpoint: u64,
    profile: PhantomData<P>,
}

impl<P: Profile> Line<PartMemory> for HadLines<'_, P> {
    ghost line = { λ l stretch. spec.bytes_line (part_naming_view l.told.now) P.profile l.part l.endpoint stretch };

    fn add(&self, out: &mut String, stretch: &PartMemory) -> Result<(), AllocError> {
        let some = HasSome {
            part: self.part,
            first: self.endpoint,
            size: endpoint_size::<P>(),
        };
        let first = stretch.first;
        let last = stretch.last;
        if some.holds(stretch) {
            let part = self.told.part(self.part)?;
            writeln!(out, "  part {part} memory {first} to {last}")
        } else {
            Ok(())
        }
    }
}

impl<P: Profile> Line<PartUse> for HadLines<'_, P> {
    ghost line = { λ l allowed. spec.used_line (part_naming_view l.told.now) l.part l.endpoint allowed };

    fn add(&self, out: &mut String, allowed: &PartUse) -> Result<(), AllocError> {
        let (part, endpoint) = (self.part, self.endpoint);
        let badge = BadgeText(allowed.badge.0);
        let rights = RightsText(allowed.rights);
        if (UseOf { part, endpoint }).holds(allowed) {
            let part = self.told.part(part)?;
            let endpoint = self.told.endpoint(endpoint);
            writeln!(
                out,
                "  part {part} use {endpoint} badge {badge} rights {rights}"
            )
        } else {
            Ok(())
        }
    }
}

impl<P: Profile> Line<Wait> for HadLines<'_, P> {
    ghost line = { λ l wait. spec.open_receiver_line (part_naming_view l.told.now) l.memory.now l.part l.endpoint wait };

    fn add(&self, out: &mut String, wait: &Wait) -> Result<(), AllocError> {
        let receiver = ReceiverOn {
            memory: self.memory,
            part: self.part,
            endpoint: self.endpoint,
        };
        if receiver.holds(wait) {
            let name = self.told.thread(wait.thread);
            let part = self.told.part(self.part)?;
            let endpoint = self.told.endpoint(self.endpoint);
            writeln!(out, "  part {part} waiting {endpoint} -> {name}")
        } else {
            Ok(())
        }
    }
}

impl<P: Profile> HadLines<'_, P> {
    /// Adds what a part has of an endpoint by its memory and by its uses.
    fn add_had(&self, out: &mut String, uses: &[PartUse]) -> Result<(), AllocError>
        ensures { OnOk result (string_bytes out.new ≡ string_bytes out.old
            ++ spec.had_lines (part_naming_view self.now.told.now) P.profile self.now.memory.now uses.now self.now.part self.now.endpoint) }
    {
        add_each(out, self.memory, self)?;
        add_each(out, uses, self)
    }
}

/// A thread of a part that waits to send to an endpoint that is open.
#[derive(Drop)]
struct SenderLine<'a, P: Profile, S: CapStore<P> + Drop, W: Waiters<P> + Drop> {
    told: &'a PartNaming<'a>,
    kernel: &'a Kernel<P, S, W>,
    memory: &'a [PartMemory],
    part: u64,
    endpoint: u64,
}

impl<P: Profile, S: CapStore<P> + Drop, W: Waiters<P> + Drop> Line<Wait>
    for SenderLine<'_, P, S, W> {
    ghost line = { λ l wait. spec.sender_line (part_naming_view l.told.now) l.memory.now l.kernel.now l.part l.endpoint wait };

    fn add(&self, out: &mut String, wait: &Wait) -> Result<(), AllocError> {
        let sender = SenderOn {
            memory: self.memory,
            part: self.part,
            endpoint: self.endpoint,
        };
        if !sender.holds(wait) {
            return Ok(());
        }
        match self.kernel.offer(wait.thread) {
            None => Ok(()),
            Some(offer) => {
                let name = self.told.thread(wait.thread);
                let part = self.told.part(self.part)?;
                let endpoint = self.told.endpoint(self.endpoint);
                let badge = offer.badge.0;
                writeln!(
                    out,
                    "  part {part} waiting {name} -> {endpoint} badge {badge}"
                )
            }
        }
    }
}

/// An endpoint that is allowed. `live` has the live endpoints.
#[derive(Clone, Copy)]
struct AllowedLine<'a> {
    told: &'a PartNaming<'a>,
    live: &'a [u64],
}

impl Line<u64> for AllowedLine<'_> {
    ghost line = { λ l endpoint. spec.allowed_line (part_naming_view l.told.now) l.live.now endpoint };

    fn add(&self, out: &mut String, endpoint: &u64) -> Result<(), AllocError> {
        let none = none_text(is_in(self.live, *endpoint));
        let endpoint = self.told.endpoint(*endpoint);
        writeln!(out, "by {endpoint}{none}")
    }
}

/// The full slots of a kernel, each with what it holds.
fn slots_of<P: Profile, S: DerivationStore<P> + Drop, W: Waiters<P> + Drop>(
    alloc: Global,
    kernel: &Kernel<P, S, W>,
) -> Result<Vec<FullSlot>, AllocError>
    ensures { IfOk result (λ filled. AreFullSlots kernel.now.derivations filled.items) }
{
    let derivations = kernel.derivations(alloc)?;
    let filled = full_slots::<P>(alloc, derivations.as_slice())?;
    Ok(filled)
}

/// What is said about two threads: by the parts of a kernel's layout, and but by some endpoints.
#[derive(Drop)]
struct Telling<'a, P: Profile, S: DerivationStore<P> + Drop, W: Waiters<P> + Drop> {
    alloc: Global,
    told: &'a PartNaming<'a>,
    kernel: &'a Kernel<P, S, W>,
    layout: &'a Layout<'a>,
    from: u64,
    to: u64,
    by: &'a [u64],
    ghost waiting: { layout.now.waits.now ≡ waits_of P.profile kernel.now },
}

impl<P: Profile, S: DerivationStore<P> + Drop, W: Waiters<P> + Drop> Telling<'_, P, S, W> {
    /// Adds the first line: the threads with their parts, and the answer.
    fn add_answer(&self, out: &mut String, answer: Never) -> Result<(), AllocError>
        ensures { OnOk result (string_bytes out.new ≡ string_bytes out.old
            ++ spec.answer_line (part_naming_view self.now.told.now) self.now.layout.now.memory.now self.now.from self.now.to answer) }
    {
        let (told, memory) = (self.told, self.layout.memory);
        let sender = told.thread(self.from);
        let receiver = told.thread(self.to);
        let first = part_text(told, memory, self.from)?;
        let second = part_text(told, memory, self.to)?;
        let word = never_word(answer);
        writeln!(
            out,
            "never {sender} part {first} -> {receiver} part {second} {word}"
        )
    }

    /// Adds what two parts have of an endpoint, by these uses: the one to send there, and the other to receive.
    fn add_endpoint(
        &self,
        out: &mut String,
        between: &Between<'_>,
        uses: &[PartUse],
        endpoint: u64,
    ) -> Result<(), AllocError>
        ensures { OnOk result (string_bytes out.new ≡ string_bytes out.old
            ++ spec.open_endpoint_lines P.profile (part_naming_view self.now.told.now) self.now.layout.now.memory.now uses.now self.now.kernel.now between.now.from between.now.to endpoint) }
    {
        let (told, kernel, memory) = (self.told, self.kernel, self.layout.memory);
        let open = told.endpoint(endpoint);
        writeln!(out, "open {open}")?;
        let by_sender = HadLines::<P> {
            told,
            memory,
            part: between.from,
            endpoint,
            profile: PhantomData,
        };
        by_sender.add_had(out, uses)?;
        let senders = SenderLine {
            told,
            kernel,
            memory,
            part: between.from,
            endpoint,
        };
        add_each(out, self.layout.waits, &senders)?;
        let by_receiver = HadLines::<P> {
            told,
            memory,
            part: between.to,
            endpoint,
            profile: PhantomData,
        };
        by_receiver.add_had(out, uses)?;
        add_each(out, self.layout.waits, &by_receiver)
    }

    /// Adds some endpoints that are open, each with what the two parts have of it.
    fn add_all_open(
        &self,
        out: &mut String,
        between: &Between<'_>,
        open: &[u64],
    ) -> Result<(), AllocError>
        ensures { OnOk result (string_bytes out.new ≡ string_bytes out.old
            ++ flat_map (spec.open_endpoint_lines P.profile (part_naming_view self.now.told.now) self.now.layout.now.memory.now self.now.layout.now.uses.now
            self.now.kernel.now between.now.from between.now.to) open.now) }
    {
        let by_endpoint = uses_by_key(self.alloc, self.layout.uses, UseKey::Endpoint)?;
        for endpoint in open {
            let here = uses_on(by_endpoint.as_slice(), *endpoint);
            self.add_endpoint(out, between, here, *endpoint)?;
        }
        Ok(())
    }

    /// Adds the endpoints that are open between the parts of the threads, if these are two.
    fn add_between(
        &self,
        out: &mut String,
        from: Option<u64>,
        to: Option<u64>,
    ) -> Result<(), AllocError>
        ensures { OnOk result (string_bytes out.new ≡ string_bytes out.old
            ++ spec.lines_between P.profile (part_naming_view self.now.told.now) self.now.layout.now.memory.now self.now.layout.now.uses.now
            self.now.kernel.now self.now.by.now from to) }
    {
        let (Some(from), Some(to)) = (from, to) else {
            return Ok(());
        };
        if from == to {
            return Ok(());
        }
        let between = Between {
            from,
            to,
            by: self.by,
        };
        let open = open_endpoints::<P>(self.alloc, self.layout, &between)?;
        self.add_all_open(out, &between, open.as_slice())
    }

    /// Adds what passes between the parts of the threads in seL4 besides messages, if these are two.
    fn add_sel4_between(
        &self,
        out: &mut String,
        from: Option<u64>,
        to: Option<u64>,
    ) -> Result<(), AllocError>
        ensures { OnOk result (string_bytes out.new ≡ string_bytes out.old
            ++ spec.sel4_between (part_naming_view self.now.told.now) P.profile self.now.layout.now.memory.now self.now.layout.now.uses.now from to) }
    {
        let (Some(from), Some(to)) = (from, to) else {
            return Ok(());
        };
        if from == to {
            return Ok(());
        }
        let layout = self.layout;
        add_sel4_lines::<P>(
            self.alloc,
            out,
            self.told,
            layout.memory,
            layout.uses,
            from,
            to,
        )
    }

    /// Adds a line if one of the parts of the threads may take slots from the other.
    fn add_taken_between(
        &self,
        out: &mut String,
        from: Option<u64>,
        to: Option<u64>,
    ) -> Result<(), AllocError>
        ensures { OnOk result (string_bytes out.new ≡ string_bytes out.old
            ++ spec.taken_between (part_naming_view self.now.told.now) self.now.layout.now.memory.now self.now.kernel.now from to) }
    {
        let (Some(from), Some(to)) = (from, to) else {
            return Ok(());
        };
        if from == to {
            return Ok(());
        }
        let (alloc, told) = (self.alloc, self.told);
        let slots = part_slots::<P, S, W>(alloc, self.layout.memory, self.kernel)?;
        add_take_of(alloc, out, told, slots.as_slice(), from, to)?;
        add_take_of(alloc, out, told, slots.as_slice(), to, from)
    }

    /// Adds the answer, and what is open between the parts.
    fn add_lines(&self, out: &mut String, answer: Never) -> Result<(), AllocError>
        ensures { OnOk result (string_bytes out.new ≡ string_bytes out.old
            ++ spec.lines_of_answer P.profile (part_naming_view self.now.told.now) self.now.layout.now.memory.now self.now.layout.now.uses.now
            self.now.kernel.now self.now.by.now self.now.from self.now.to answer) }
    {
        let from = part_at(self.layout.memory, self.from);
        let to = part_at(self.layout.memory, self.to);
        self.add_answer(out, answer)?;
        self.add_between(out, from, to)?;
        self.add_sel4_between(out, from, to)?;
        self.add_taken_between(out, from, to)
    }

    /// The text of an answer, but for the chains. `live` has the live endpoints.
    #[tactic(auto, unfolding(crate::specs::Open::never_text))]
    fn text(&self, heading: &Heading<'_>, live: &[u64], answer: Never) -> Result<String, AllocError>
        requires { live.now ≡ endpoints_of P.profile self.now.kernel.now }
        ensures { IfOk result (λ text. string_bytes text ≡ spec.never_text P.profile (part_naming_view self.now.told.now) heading.now.setup.now heading.now.made heading.now.refused
            heading.now.without.now heading.now.messages.now self.now.layout.now.memory.now self.now.layout.now.uses.now self.now.kernel.now self.now.by.now self.now.from self.now.to answer) }
    {
        let told = self.told;
        let mut out = String::new(self.alloc);
        add_heading::<P, S, W>(&mut out, "never 4", told, heading, self.kernel)?;
        let allowed = AllowedLine { told, live: &*live };
        add_each(&mut out, self.by, &allowed)?;
        self.add_lines(&mut out, answer)?;
        Ok(out)
    }

    /// The text of an answer, with the chains after it. `live` has the live endpoints.
    fn text_with_chains(
        &self,
        heading: &Heading<'_>,
        live: &[u64],
        answer: Never,
    ) -> Result<Vec<u8>, AllocError>
        requires { live.now ≡ endpoints_of P.profile self.now.kernel.now }
        ensures { IfOk result (λ text. spec.IsNeverText P.profile (part_naming_view self.now.told.now) heading.now.setup.now heading.now.made heading.now.refused
            heading.now.without.now heading.now.messages.now self.now.layout.now.memory.now self.now.layout.now.uses.now self.now.kernel.now self.now.by.now self.now.from self.now.to answer text.items) }
    {
        let (alloc, told, layout) = (self.alloc, self.told, self.layout);
        let mut text = self.text(heading, live, answer)?;
        let filled = slots_of::<P, S, W>(alloc, self.kernel)?;
        let filled = filled.as_slice();
        let from = (self.from, part_at(layout.memory, self.from));
        let to = (self.to, part_at(layout.memory, self.to));
        let chains = chains_between::<P>(alloc, told, filled, layout, self.by, from, to)?;
        text.push_str(chains.as_str())?;
        Ok(text.into_bytes())
    }
}

/// Whether a thread's part is kept from another's, but for the endpoints that `by` names, whatever calls the threads make that are
/// not trusted; and the text that says so, with the endpoints that are open if it is not, what passes between the parts in seL4
/// besides messages, which of them may take slots from the other, and the slots through which the one thread comes to what is open.
/// If the parts exclude nothing, flows are asked if `asks_flows` is set.
///
/// # Errors
///
/// `Memory` if memory was refused; `Block` if the control block of a live thread would end past the last address. No kernel
/// whose objects lie in its memory has such a thread (`fault`).
pub fn never_gets<P: Profile, S: DerivationStore<P> + Drop, W: Waiters<P> + Drop>(
    alloc: Global,
    naming: &Naming<'_>,
    heading: &Heading<'_>,
    from: u64,
    to: u64,
    by: &[u64],
    asks_flows: bool,
    kernel: &Kernel<P, S, W>,
) -> Result<(Vec<u8>, Never), PartsFault>
    ensures told { IfOk result (λ made. spec.IsNeverOf P.profile (naming_view naming.now) heading.now.setup.now heading.now.made heading.now.refused
        heading.now.without.now heading.now.messages.now kernel.now by.now from to made.0.items made.1) }
    ensures flows { IfOk result (λ made. asks_flows ≡ false → is_by_flow made.1 ≡ false) }
    ensures fault { IfErr result (λ fault. fault ≡ PartsFault.Block → (memory : ℕ) → IsInMemory P.profile memory kernel.now → ⊥) }
{
    let trusted = all_trusted(alloc, heading)?;
    let state = state_parts::<P, S, W>(alloc, trusted.as_slice(), kernel)?;
    let layout = Layout {
        memory: state.parts.memory.as_slice(),
        uses: state.parts.uses.as_slice(),
        waits: state.waits.as_slice(),
    };
    let callers = Callers {
        memory: layout.memory,
        threads: state.threads.as_slice(),
        trusted: trusted.as_slice(),
        asks_flows,
    };
    let of_parts = never_of_parts::<P>(alloc, &layout, by, from, to)?;
    let answer = answer_of::<P, S, W>(alloc, kernel, &callers, by, from, to, of_parts)?;
    let told = PartNaming::new(alloc, naming, layout.memory, callers.threads)?;
    let telling = Telling {
        alloc,
        told: &told,
        kernel: &*kernel,
        layout: &layout,
        from,
        to,
        by: &*by,
    };
    let text = telling.text_with_chains(heading, state.endpoints.as_slice(), answer)?;
    Ok((text, answer))
}
