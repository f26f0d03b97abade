//! The search for the least parts of some threads: from their control blocks on, what the slots of a part name is taken in.
ghost use Rattle.std.specs.Prelude.{◌≡◌, ◌&&◌, ◌==◌, not, map, find, option_map, IfOk};
ghost use Rattle.slot_core.specs.Calls.{derivation_view};
ghost use Rattle.query_parts.specs.declared.listed.PartMemory.{PartMemory};
ghost use Rattle.query_parts.specs.Private.Search.{AreAround, AreFound, AreJoined, AreTaken, IsCapTaken, IsRangeTaken, IsSlotTaken, entries_of, overlaps};
ghost use Rattle.query_parts.specs.Private.Search as spec;

use crate::listed::{PartMemory, PartUse, contains, is_within, last_of};
use crate::parts::Parts;
use cap_core::{Cap, Profile, Range, range_of};
use slot_core::Derivation;
use std::alloc::{AllocError, Global};

fn renamed(from: u64, to: u64, part: u64) -> u64
    ensures { result ≡ spec.renamed from to part }
{
    if part == from { to } else { part }
}

fn memory_renamed(memory: PartMemory, from: u64, to: u64) -> PartMemory
    ensures { result ≡ spec.memory_in (spec.renamed from to) memory }
{
    PartMemory {
        part: renamed(from, to, memory.part),
        first: memory.first,
        last: memory.last,
    }
}

fn use_renamed(allowed: PartUse, from: u64, to: u64) -> PartUse
    ensures { result ≡ spec.use_in (spec.renamed from to) allowed }
{
    PartUse {
        part: renamed(from, to, allowed.part),
        endpoint: allowed.endpoint,
        badge: allowed.badge,
        rights: allowed.rights,
    }
}

fn relabel_memory(memory: &mut [PartMemory], from: u64, to: u64)
    ensures { memory.new ≡ map (spec.memory_in (spec.renamed from to)) memory.old }
{
    for stretch in memory.iter_mut() {
        *stretch = memory_renamed(*stretch, from, to);
    }
}

fn relabel_uses(uses: &mut [PartUse], from: u64, to: u64)
    ensures { uses.new ≡ map (spec.use_in (spec.renamed from to)) uses.old }
{
    for allowed in uses.iter_mut() {
        *allowed = use_renamed(*allowed, from, to);
    }
}

fn is_overlapped(stretch: &PartMemory, part: u64, first: u64, last: u64) -> bool
    ensures { result ≡ not (stretch.now.part == part) && overlaps first last stretch.now }
{
    stretch.part != part && stretch.first <= last && first <= stretch.last
}

/// Another part that has one of these addresses.
fn overlapped(memory: &[PartMemory], part: u64, first: u64, last: u64) -> Option<u64>
    ensures { result ≡ option_map (λ (m : PartMemory). m.part) (find (λ (m : PartMemory). not (m.part == part) && overlaps first last m) memory.now) }
{
    for m in memory {
        if is_overlapped(m, part, first, last) {
            return Some(m.part);
        }
    }
    None
}

/// Makes the parts that have one of these addresses one with a part.
fn join_overlapped(parts: &mut Parts, part: u64, first: u64, last: u64)
    ensures { AreJoined part first last parts.old.memory.items parts.old.uses.items parts.new.memory.items parts.new.uses.items }
{
    while let Some(other) = overlapped(parts.memory.as_slice(), part, first, last) {
        relabel_memory(parts.memory.as_mut_slice(), other, part);
        relabel_uses(parts.uses.as_mut_slice(), other, part);
    }
}

/// Takes a range into a part. The parts with which it has an address in common become that part.
fn take_range(parts: &mut Parts, part: u64, range: Range) -> Result<(), AllocError>
    ensures { IfOk result (λ _. IsRangeTaken part range parts.old.memory.items parts.old.uses.items parts.new.memory.items parts.new.uses.items) }
{
    let Some(last) = last_of(range) else {
        return Ok(());
    };
    let first = range.first;
    join_overlapped(parts, part, first, last);
    parts.memory.push(PartMemory { part, first, last })?;
    Ok(())
}

/// Takes what a capability names into a part: an endpoint as one that it may use, all else as its memory.
fn take_cap<P: Profile>(parts: &mut Parts, part: u64, cap: Cap) -> Result<(), AllocError>
    ensures { IfOk result (λ _. IsCapTaken P.profile part cap parts.old.memory.items parts.old.uses.items parts.new.memory.items parts.new.uses.items) }
{
    if let Cap::Endpoint {
        base,
        badge,
        rights,
    } = cap
    {
        parts.uses.push(PartUse {
            part,
            endpoint: base,
            badge,
            rights,
        })?;
        return Ok(());
    }
    match range_of::<P>(cap) {
        Some(range) => take_range(parts, part, range),
        None => Ok(()),
    }
}

/// Takes in what a full slot in a stretch of a part names, unless the part owns it. So a use is taken in again for each slot that
/// holds it: to look for it among those that are there takes longer than to sort them in the end.
fn take_slot<P: Profile>(
    parts: &mut Parts,
    stretch: PartMemory,
    derivation: &Derivation,
) -> Result<(), AllocError>
    ensures { IfOk result (λ _. IsSlotTaken P.profile stretch (derivation_view P.profile derivation.now).0 parts.old.memory.items parts.old.uses.items parts.new.memory.items parts.new.uses.items) }
{
    let PartMemory { part, .. } = stretch;
    if !contains(&stretch, derivation.slot.address::<P>()) {
        return Ok(());
    }
    if is_within::<P>(parts.memory.as_slice(), &[], part, derivation.cap) {
        return Ok(());
    }
    take_cap::<P>(parts, part, derivation.cap)
}

/// Takes in what the full slots in a stretch of a part name.
fn take_slots<P: Profile>(
    parts: &mut Parts,
    stretch: PartMemory,
    derivations: &[Derivation],
) -> Result<(), AllocError>
    ensures { IfOk result (λ _. AreTaken P.profile (entries_of P.profile derivations.now) stretch (entries_of P.profile derivations.now) parts.old.memory.items parts.old.uses.items parts.new.memory.items parts.new.uses.items) }
{
    for derivation in derivations {
        take_slot::<P>(parts, stretch, derivation)?;
    }
    Ok(())
}

/// A part for each thread, of its control block.
fn thread_parts<P: Profile>(alloc: Global, threads: &[u64]) -> Result<Parts, AllocError>
    ensures { IfOk result (λ parts. AreAround P.profile threads.now parts.memory.items parts.uses.items) }
{
    let mut parts = Parts {
        memory: Vec::new(alloc),
        uses: Vec::new(alloc),
    };
    for thread in threads {
        let range = Range {
            first: *thread,
            bits: P::TCB_BITS as u64,
        };
        take_range(&mut parts, *thread, range)?;
    }
    Ok(parts)
}

/// The least closed parts around some threads, each by the address of one of its threads. The slots in each stretch are
/// looked at once, when all stretches before it were: so what is taken in later is looked at later.
pub fn least_parts<P: Profile>(
    alloc: Global,
    derivations: &[Derivation],
    threads: &[u64],
) -> Result<Parts, AllocError>
    ensures { IfOk result (λ parts. AreFound P.profile (entries_of P.profile derivations.now) threads.now parts.memory.items parts.uses.items) }
{
    let mut parts = thread_parts::<P>(alloc, threads)?;
    let mut place = 0;
    while place < parts.memory.len() {
        let stretch = parts.memory[place];
        take_slots::<P>(&mut parts, stretch, derivations)?;
        place += 1;
    }
    Ok(parts)
}
