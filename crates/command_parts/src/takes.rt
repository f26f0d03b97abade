//! Which parts may take slots from which: a revoke clears what stands below a slot, whoever has it.
ghost use Rattle.std.specs.Prelude.{◌≡◌, ◌++◌, ◌∷◌, [], ℕ, IfOk, List, OnOk, cond, string_bytes};
ghost use Rattle.slot_core.specs.Calls.{derivation_view};
ghost use Rattle.setup_report.specs.State.{rising as rising_of};
ghost use Rattle.command_parts.specs.Takes as spec;
ghost use Rattle.command_parts.specs.Telling.{part_naming_view};
ghost use Rattle.command_parts.specs.Text as text;

use crate::sets::{is_in, rising};
use crate::telling::PartNaming;
use crate::ways::others;
use cap_core::{Cap, Profile};
use ipc_core::Waiters;
use kernel_core::Kernel;
use list_questions::Line;
use query_parts::{PartMemory, part_at};
use slot_core::{Derivation, DerivationStore};
use std::alloc::{AllocError, Global};
use std::collections::BTreeSet;
use std::fmt::Write;

/// A full slot: its address, what it holds, the address of the slot that it stands right below, and the part in which it lies.
#[derive(Clone, Copy)]
pub struct PartSlot {
    pub slot: u64,
    pub cap: Cap,
    pub above: Option<u64>,
    pub part: Option<u64>,
}

/// A part, and another from which it may take slots.
#[derive(Clone, Copy)]
pub struct Take {
    pub by: u64,
    pub of: u64,
}

fn part_slot<P: Profile>(memory: &[PartMemory], derivation: &Derivation) -> PartSlot
    ensures { result ≡ spec.part_slot memory.now (derivation_view P.profile derivation.now) }
{
    let slot = derivation.slot.address::<P>();
    let above = match derivation.parent {
        Some(parent) => Some(parent.address::<P>()),
        None => None,
    };
    let part = part_at(memory, slot);
    let cap = derivation.cap;
    PartSlot {
        slot,
        cap,
        above,
        part,
    }
}

/// The full slots of a kernel, each before those below it.
pub fn part_slots<P: Profile, S: DerivationStore<P> + Drop, W: Waiters<P> + Drop>(
    alloc: Global,
    memory: &[PartMemory],
    kernel: &Kernel<P, S, W>,
) -> Result<Vec<PartSlot>, AllocError>
    ensures { IfOk result (λ v. v.items ≡ spec.part_slots memory.now kernel.now.derivations) }
{
    let derivations = kernel.derivations(alloc)?;
    let mut slots = Vec::new(alloc);
    for derivation in &derivations {
        slots.push(part_slot::<P>(memory, derivation))?;
    }
    Ok(slots)
}

/// Whether a slot stands right below one of some.
#[tactic(auto, using(crate::proofs::Walked::contained))]
fn is_beneath(slots: &BTreeSet<u64>, above: Option<u64>) -> bool
    ensures { (all : List ℕ) → slots.now.keys ≡ rising_of all → result ≡ spec.is_beneath all above }
{
    match above {
        Some(slot) => slots.contains(&slot),
        None => false,
    }
}

/// Whether a part is the one with a number.
pub fn is_number(of: Option<u64>, part: u64) -> bool
    ensures { result ≡ spec.is_part part of }
{
    match of {
        Some(number) => number == part,
        None => false,
    }
}

/// Adds a slot to a set, if it is to be kept.
fn keep_slot(slots: &mut BTreeSet<u64>, slot: u64, keeps: bool) -> Result<(), AllocError>
    ensures { OnOk result ((all : List ℕ) → slots.old.keys ≡ rising_of all → slots.new.keys ≡ rising_of (cond keeps (slot ∷ all) all)) }
{
    if keeps {
        slots.insert(slot)?;
    }
    Ok(())
}

fn keep_part(below: &mut Vec<u64>, part: Option<u64>, keeps: bool) -> Result<(), AllocError>
    ensures { OnOk result (below.new.items ≡ below.old.items ++ cond keeps (spec.part_or_none part) []) }
{
    match part {
        Some(number) if keeps => {
            below.push(number)?;
            Ok(())
        }
        _ => Ok(()),
    }
}

/// Looks at one slot more: `slots` has those so far that are of a part or stand below one that is.
fn look_at(
    slots: &mut BTreeSet<u64>,
    below: &mut Vec<u64>,
    part: u64,
    part_slot: &PartSlot,
) -> Result<(), AllocError>
    ensures slots { OnOk result ((all : List ℕ) → slots.old.keys ≡ rising_of all → slots.new.keys ≡ rising_of (spec.with_slot part all part_slot.now)) }
    ensures below { OnOk result ((all : List ℕ) → slots.old.keys ≡ rising_of all → below.new.items ≡ below.old.items ++ spec.part_below all part_slot.now) }
{
    let under = is_beneath(slots, part_slot.above);
    let keeps = under || is_number(part_slot.part, part);
    keep_slot(slots, part_slot.slot, keeps)?;
    keep_part(below, part_slot.part, under)
}

/// The parts of the slots below those of a part.
fn parts_below(alloc: Global, part_slots: &[PartSlot], part: u64) -> Result<Vec<u64>, AllocError>
    ensures { IfOk result (λ v. v.items ≡ spec.parts_below part [] part_slots.now) }
{
    let mut slots = BTreeSet::new(alloc);
    let mut below = Vec::new(alloc);
    for part_slot in part_slots {
        look_at(&mut slots, &mut below, part, part_slot)?;
    }
    Ok(below)
}

/// The other parts that have a slot below one of a part, rising.
fn taken_by(alloc: Global, part_slots: &[PartSlot], part: u64) -> Result<Vec<u64>, AllocError>
    ensures { IfOk result (λ v. v.items ≡ spec.taken_by part_slots.now part) }
{
    let below = parts_below(alloc, part_slots, part)?;
    let each = rising(alloc, below.as_slice())?;
    others(alloc, each.as_slice(), part)
}

/// Of each of some parts, the parts from which it may take slots.
pub fn part_takes(
    alloc: Global,
    part_slots: &[PartSlot],
    parts: &[u64],
) -> Result<Vec<Take>, AllocError>
    ensures { IfOk result (λ v. v.items ≡ spec.takes part_slots.now parts.now) }
{
    let mut takes = Vec::new(alloc);
    for part in parts {
        let taken = taken_by(alloc, part_slots, *part)?;
        for of in &taken {
            takes.push(Take { by: *part, of: *of })?;
        }
    }
    Ok(takes)
}

/// How it is written that a part may take slots from another.
#[derive(Clone, Copy)]
pub struct TakeLine<'a> {
    pub told: &'a PartNaming<'a>,
}

impl Line<Take> for TakeLine<'_> {
    ghost line = { λ l take. text.take_line (part_naming_view l.told.now) take };

    fn add(&self, out: &mut String, take: &Take) -> Result<(), AllocError> {
        let by = self.told.part(take.by)?;
        let of = self.told.part(take.of)?;
        writeln!(out, "take {by} -> {of}")
    }
}

/// Adds a line if a part may take slots from another.
pub fn add_take_of(
    alloc: Global,
    out: &mut String,
    told: &PartNaming<'_>,
    part_slots: &[PartSlot],
    by: u64,
    of: u64,
) -> Result<(), AllocError>
    ensures { OnOk result (string_bytes out.new ≡ string_bytes out.old ++ text.take_of_two (part_naming_view told.now) part_slots.now by of) }
{
    let taken = taken_by(alloc, part_slots, by)?;
    if is_in(taken.as_slice(), of) {
        let line = TakeLine { told: &*told };
        line.add(out, &Take { by, of })
    } else {
        Ok(())
    }
}
