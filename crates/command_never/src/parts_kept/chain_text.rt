//! The text of chains: through which slots a thread comes to what is open.
ghost use Rattle.std.specs.Prelude.{◌≡◌, ◌++◌, IfOk, OnOk, find, string_bytes};
ghost use Rattle.kernel_forest.specs.Forest.{Forest};
ghost use Rattle.kernel_forest.specs.Entries.{Entry};
ghost use Rattle.query_reach.specs.FullSlots.{AreFullSlots};
ghost use Rattle.command_parts.specs.Telling.{part_naming_view};
ghost use Rattle.cap_core.specs.Numbers.{tcb_size as tcb_size_of};
ghost use Rattle.command_never.specs.Never as answers;
ghost use Rattle.command_never.specs.Chains as spec;

use crate::parts_kept::never::{Between, Layout, endpoint_size, has_bytes, open_endpoints};
use cap_core::Profile;
use command_parts::PartNaming;
use list_questions::{Line, add_each};
use query_parts::PartMemory;
use query_reach::{FullSlot, Target, shortest_chain};
use setup_report::Object;
use std::alloc::{AllocError, Global};
use std::fmt::Write;

/// The size of a thread control block in bytes.
#[tactic(auto, using(crate::proofs::Sizes::tcb_bits_small))]
fn tcb_size<P: Profile>() -> u64
    ensures { result ≡ tcb_size_of P.profile }
{
    1u64 << P::TCB_BITS
}

/// A slot of a chain, with what it holds.
#[derive(Clone, Copy)]
struct SlotLine<'a> {
    told: &'a PartNaming<'a>,
}

impl Line<FullSlot> for SlotLine<'_> {
    ghost line = { λ l slot. spec.chain_slot_line (part_naming_view l.told.now).texts slot };

    fn add(&self, out: &mut String, slot: &FullSlot) -> Result<(), AllocError> {
        let held = self.told.held(slot.address, slot.cap);
        writeln!(out, "  slot {held}")
    }
}

/// Adds the lines of a chain, if it has slots.
fn add_chain(
    out: &mut String,
    told: &PartNaming<'_>,
    thread: u64,
    object: Object,
    chain: &[FullSlot],
) -> Result<(), AllocError>
    ensures { OnOk result (string_bytes out.new ≡ string_bytes out.old ++ spec.chain_lines (part_naming_view told.now).texts thread object chain.now) }
{
    if chain.is_empty() {
        return Ok(());
    }
    let name = told.thread(thread);
    let object = told.object(object);
    writeln!(out, "chain {name} -> {object}")?;
    add_each(out, chain, &SlotLine { told: &*told })
}

/// The text of a shortest chain from a thread's root slot to a capability that is sought, to an object; nothing if there is no chain.
fn chain_text<P: Profile>(
    alloc: Global,
    told: &PartNaming<'_>,
    filled: &[FullSlot],
    thread: u64,
    object: Object,
    target: &Target,
) -> Result<String, AllocError>
    ensures { IfOk result (λ text. (f : Forest Entry) → AreFullSlots f filled.now → spec.IsChainText P.profile (part_naming_view told.now).texts f thread object target.now (string_bytes text)) }
{
    let chain = shortest_chain::<P>(alloc, filled, thread, target)?;
    let mut out = String::new(alloc);
    add_chain(&mut out, told, thread, object, chain.as_slice())?;
    Ok(out)
}

/// What a chain to a thread's control block is to come to.
fn control_block<P: Profile>(thread: u64) -> Target
    ensures { result ≡ spec.control_block P.profile thread }
{
    Target {
        first: thread,
        size: tcb_size::<P>(),
        to_send: false,
    }
}

/// The chains from each of two threads to the other's control block.
fn chains_within<P: Profile>(
    alloc: Global,
    told: &PartNaming<'_>,
    filled: &[FullSlot],
    from: u64,
    to: u64,
) -> Result<String, AllocError>
    ensures { IfOk result (λ text. (f : Forest Entry) → AreFullSlots f filled.now → spec.AreChainsWithin P.profile (part_naming_view told.now).texts f from to (string_bytes text)) }
{
    let (first, last) = (Object::Thread(from), Object::Thread(to));
    let mut there = chain_text::<P>(alloc, told, filled, from, last, &control_block::<P>(to))?;
    let back = chain_text::<P>(alloc, told, filled, to, first, &control_block::<P>(from))?;
    there.push_str(back.as_str())?;
    Ok(there)
}

/// What a chain to an endpoint that is open to a part is to come to.
fn open_endpoint<P: Profile>(memory: &[PartMemory], part: u64, endpoint: u64) -> Target
    ensures { result ≡ spec.open_endpoint P.profile memory.now part endpoint }
{
    Target {
        first: endpoint,
        size: endpoint_size::<P>(),
        to_send: !has_bytes::<P>(memory, part, endpoint),
    }
}

/// The chain to the first endpoint that is open to a part, if there is one.
fn chain_to_open<P: Profile>(
    alloc: Global,
    told: &PartNaming<'_>,
    filled: &[FullSlot],
    memory: &[PartMemory],
    part: u64,
    from: u64,
    first: Option<u64>,
) -> Result<String, AllocError>
    ensures { IfOk result (λ text. (f : Forest Entry) → AreFullSlots f filled.now → spec.IsChainToOpen P.profile (part_naming_view told.now).texts f memory.now part from first (string_bytes text)) }
{
    match first {
        None => Ok(String::new(alloc)),
        Some(endpoint) => {
            let target = open_endpoint::<P>(memory, part, endpoint);
            let object = Object::Endpoint(endpoint);
            chain_text::<P>(alloc, told, filled, from, object, &target)
        }
    }
}

/// The chains of two threads of one part; nothing of a thread and itself.
fn chains_of_one_part<P: Profile>(
    alloc: Global,
    told: &PartNaming<'_>,
    filled: &[FullSlot],
    from: u64,
    to: u64,
) -> Result<String, AllocError>
    ensures { IfOk result (λ text. (f : Forest Entry) → AreFullSlots f filled.now → spec.AreChainsOfOnePart P.profile (part_naming_view told.now).texts f from to (string_bytes text)) }
{
    if from == to {
        return Ok(String::new(alloc));
    }
    chains_within::<P>(alloc, told, filled, from, to)
}

/// The chain to the first endpoint that is open from one part to another.
fn chain_between_parts<P: Profile>(
    alloc: Global,
    told: &PartNaming<'_>,
    filled: &[FullSlot],
    layout: &Layout<'_>,
    between: &Between<'_>,
    from: u64,
) -> Result<String, AllocError>
    ensures { IfOk result (λ text. (f : Forest Entry) → AreFullSlots f filled.now → spec.IsChainToOpen P.profile (part_naming_view told.now).texts f layout.now.memory.now between.now.to from
        (find (answers.is_open P.profile layout.now.memory.now layout.now.uses.now layout.now.waits.now between.now.by.now between.now.from between.now.to) (answers.endpoints_met layout.now.uses.now layout.now.waits.now)) (string_bytes text)) }
{
    let open = open_endpoints::<P>(alloc, layout, between)?;
    let first = open.as_slice().first().copied();
    chain_to_open::<P>(alloc, told, filled, layout.memory, between.to, from, first)
}

/// The chains that are listed for threads of two parts, which may be one. `filled` has all full slots.
fn chains_of_parts<P: Profile>(
    alloc: Global,
    told: &PartNaming<'_>,
    filled: &[FullSlot],
    layout: &Layout<'_>,
    between: &Between<'_>,
    from: u64,
    to: u64,
) -> Result<String, AllocError>
    ensures { IfOk result (λ text. (f : Forest Entry) → AreFullSlots f filled.now →
        spec.AreChainsOfParts P.profile (part_naming_view told.now).texts f layout.now.memory.now layout.now.uses.now layout.now.waits.now between.now.by.now from to between.now.from between.now.to (string_bytes text)) }
{
    if between.from == between.to {
        return chains_of_one_part::<P>(alloc, told, filled, from, to);
    }
    chain_between_parts::<P>(alloc, told, filled, layout, between, from)
}

/// The chains that are listed for two threads, each with its part. `filled` has all full slots.
pub fn chains_between<P: Profile>(
    alloc: Global,
    told: &PartNaming<'_>,
    filled: &[FullSlot],
    layout: &Layout<'_>,
    by: &[u64],
    from: (u64, Option<u64>),
    to: (u64, Option<u64>),
) -> Result<String, AllocError>
    ensures { IfOk result (λ text. (f : Forest Entry) → AreFullSlots f filled.now →
        spec.AreChainsBetween P.profile (part_naming_view told.now).texts f layout.now.memory.now layout.now.uses.now layout.now.waits.now by.now from.0 to.0 from.1 to.1 (string_bytes text)) }
{
    let (Some(first), Some(second)) = (from.1, to.1) else {
        return Ok(String::new(alloc));
    };
    let between = Between {
        from: first,
        to: second,
        by,
    };
    chains_of_parts::<P>(alloc, told, filled, layout, &between, from.0, to.0)
}
