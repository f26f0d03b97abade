//! Parts put in the order in which they are listed.
ghost use Rattle.std.specs.Prelude.{◌≡◌, ◌==◌, [], map, position, IfOk};
ghost use Rattle.std.specs.List.{filter};
ghost use Rattle.std.specs.List.Sorted.{IsPermutation, IsNonDecreasingBy};
ghost use Rattle.query_parts.specs.declared.listed.PartMemory.{PartMemory};
ghost use Rattle.query_parts.specs.Order as order;
ghost use Rattle.query_parts.specs.Private.Search.{memory_in, use_in};
ghost use Rattle.query_parts.specs.Private.Arranging.{AreArranged, AreNeeded, joined_all, joined_from, labels_from, number_of};
ghost use Rattle.query_parts.specs.Private.Arranging as spec;

use crate::keyed::{UseKey, uses_by_key};
use crate::listed::{PartMemory, PartUse};
use crate::order::is_needed;
use crate::parts::Parts;
use cap_core::Profile;
use std::alloc::{AllocError, Global};

/// Whether a stretch of the same part goes on, or begins, what ends with another.
fn goes_on(last: &PartMemory, next: &PartMemory) -> bool
    ensures { result ≡ spec.goes_on last.now next.now }
{
    last.part == next.part && (next.first <= last.last || next.first - last.last == 1)
}

fn joined_with(last: PartMemory, next: PartMemory) -> PartMemory
    ensures { result ≡ spec.joined_with last next }
{
    PartMemory {
        part: last.part,
        first: last.first,
        last: if last.last < next.last {
            next.last
        } else {
            last.last
        },
    }
}

/// Stretches by rising address, with those of one part joined that touch.
fn join_all(
    alloc: Global,
    start: PartMemory,
    others: &[PartMemory],
) -> Result<Vec<PartMemory>, AllocError>
    ensures { IfOk result (λ joined. joined.items ≡ joined_from start others.now) }
{
    let mut joined = Vec::new(alloc);
    let mut last = start;
    for next in others {
        if goes_on(&last, next) {
            last = joined_with(last, *next);
        } else {
            joined.push(last)?;
            last = *next;
        }
    }
    joined.push(last)?;
    Ok(joined)
}

fn join_sorted(alloc: Global, memory: &[PartMemory]) -> Result<Vec<PartMemory>, AllocError>
    ensures { IfOk result (λ joined. joined.items ≡ joined_all memory.now) }
{
    match memory {
        [start, others @ ..] => join_all(alloc, *start, others),
        [] => Ok(Vec::new(alloc)),
    }
}

/// Puts stretches in the order of their first addresses.
fn sort_stretches(memory: &mut [PartMemory])
    ensures moved { IsPermutation memory.old memory.new }
    ensures rising { IsNonDecreasingBy (λ (m : PartMemory). m.first) memory.new }
{
    memory.sort_unstable_by_key(|m| m.first);
}

/// The labels of parts, in the order in which they come.
fn labels(alloc: Global, memory: &[PartMemory]) -> Result<Vec<u64>, AllocError>
    ensures { IfOk result (λ labels. labels.items ≡ labels_from [] memory.now) }
{
    let mut seen = Vec::new(alloc);
    for stretch in memory {
        if !seen.as_slice().contains(&stretch.part) {
            seen.push(stretch.part)?;
        }
    }
    Ok(seen)
}

fn place_of(labels: &[u64], part: u64) -> Option<usize>
    ensures { result ≡ position (λ label. label == part) labels.now }
{
    for (place, label) in labels.iter().enumerate() {
        if *label == part {
            return Some(place);
        }
    }
    None
}

/// The number of a part, from 1 on, by its label.
fn number(labels: &[u64], part: u64) -> u64
    ensures { result ≡ number_of labels.now part }
{
    match place_of(labels, part) {
        Some(place) => place as u64 + 1,
        None => 0,
    }
}

fn memory_numbered(labels: &[u64], memory: PartMemory) -> PartMemory
    ensures { result ≡ memory_in (number_of labels.now) memory }
{
    PartMemory {
        part: number(labels, memory.part),
        first: memory.first,
        last: memory.last,
    }
}

fn use_numbered(labels: &[u64], allowed: PartUse) -> PartUse
    ensures { result ≡ use_in (number_of labels.now) allowed }
{
    PartUse {
        part: number(labels, allowed.part),
        endpoint: allowed.endpoint,
        badge: allowed.badge,
        rights: allowed.rights,
    }
}

fn number_memory(labels: &[u64], memory: &mut [PartMemory])
    ensures { memory.new ≡ map (memory_in (number_of labels.now)) memory.old }
{
    for stretch in memory.iter_mut() {
        *stretch = memory_numbered(labels, *stretch);
    }
}

fn number_uses(labels: &[u64], uses: &mut [PartUse])
    ensures { uses.new ≡ map (use_in (number_of labels.now)) uses.old }
{
    for allowed in uses.iter_mut() {
        *allowed = use_numbered(labels, *allowed);
    }
}

fn needed_ones<P: Profile>(
    alloc: Global,
    memory: &[PartMemory],
    uses: &[PartUse],
) -> Result<Vec<PartUse>, AllocError>
    ensures { IfOk result (λ kept. kept.items ≡ filter (order.is_needed P.profile memory.now uses.now) uses.now) }
{
    let by_key = uses_by_key(alloc, uses, UseKey::EndpointAndBadge)?;
    let mut kept = Vec::new(alloc);
    for allowed in uses {
        if is_needed::<P>(memory, by_key.as_slice(), allowed) {
            kept.push(*allowed)?;
        }
    }
    Ok(kept)
}

/// The uses that are needed, in their order, each once.
fn needed<P: Profile>(
    alloc: Global,
    memory: &[PartMemory],
    uses: Vec<PartUse>,
) -> Result<Vec<PartUse>, AllocError>
    ensures { IfOk result (λ kept. AreNeeded P.profile memory.now uses.items kept.items) }
{
    let mut once = uses;
    once.sort_unstable_by_key(|u| (u.part, u.endpoint, u.badge.0, u.rights.0));
    once.dedup();
    let kept = needed_ones::<P>(alloc, memory, once.as_slice())?;
    Ok(kept)
}

/// The parts in the order in which they are listed, with nothing in them that goes without saying.
pub fn arranged<P: Profile>(alloc: Global, parts: Parts) -> Result<Parts, AllocError>
    ensures { IfOk result (λ told. AreArranged P.profile parts.memory.items parts.uses.items told.memory.items told.uses.items) }
{
    let mut found = parts;
    sort_stretches(found.memory.as_mut_slice());
    let mut memory = join_sorted(alloc, found.memory.as_slice())?;
    let order = labels(alloc, memory.as_slice())?;
    number_memory(order.as_slice(), memory.as_mut_slice());
    number_uses(order.as_slice(), found.uses.as_mut_slice());
    let uses = needed::<P>(alloc, memory.as_slice(), found.uses)?;
    Ok(Parts { memory, uses })
}
