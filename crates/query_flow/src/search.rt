//! Flows that are looked for. Nothing is promised of them: `is_flow` tests what is found.
use crate::excluded::{Bound, names_no_thread};
use crate::listed::{
    Caller, Flows, MayStand, Standing, are_ending, are_in_one, has_over, has_slots, last_of,
    may_end, misses, opened, set_at,
};
use cap_core::{Cap, Profile, Range, range_of};
use ipc_core::Waiters;
use kernel_core::{Kernel, ThreadState};
use query_parts::PartMemory;
use slot_core::{Derivation, DerivationStore};
use std::alloc::{AllocError, Global};

/// How often something is looked at again, at most, while there is more each time.
const MOST_ROUNDS: u64 = 1000;

fn copied<T: Copy>(alloc: Global, list: &[T]) -> Result<Vec<T>, AllocError> {
    let mut copy = Vec::new(alloc);
    copy.extend_from_slice(list)?;
    Ok(copy)
}

/// Adds a number to a list that does not have it. Returns whether it was added.
fn add_number(numbers: &mut Vec<u64>, number: u64) -> Result<bool, AllocError> {
    if numbers.as_slice().contains(&number) {
        return Ok(false);
    }
    numbers.push(number)?;
    Ok(true)
}

/// Adds the sets of the stretches that have an address of a range. Returns whether any is new.
fn add_sets(memory: &[PartMemory], sets: &mut Vec<u64>, range: Range) -> Result<bool, AllocError> {
    let Some(last) = last_of(range) else {
        return Ok(false);
    };
    let mut is_new = false;
    for stretch in memory {
        if !misses(stretch, range.first, last) && add_number(sets, stretch.part)? {
            is_new = true;
        }
    }
    Ok(is_new)
}

/// The addresses of the slots of what a standing stands for.
fn slots_of<P: Profile>(what: Standing) -> Option<Range> {
    match what {
        Standing::Region { base, bits } => Some(Range { first: base, bits }),
        Standing::Node { base, radix, .. } => Some(Range {
            first: base,
            bits: radix.saturating_add(P::SLOT_BITS as u64),
        }),
        _ => None,
    }
}

/// Adds the sets of the slots of what stands in some sets. Returns whether any is new.
fn add_slots<P: Profile>(
    memory: &[PartMemory],
    all: &[MayStand],
    from: &[u64],
    sets: &mut Vec<u64>,
) -> Result<bool, AllocError> {
    let mut is_new = false;
    for s in all {
        if from.contains(&s.set) {
            if let Some(range) = slots_of::<P>(s.what) {
                is_new = add_sets(memory, sets, range)? || is_new;
            }
        }
    }
    Ok(is_new)
}

/// Adds the sets that what stands in these sets leads to, on and on.
fn add_led_to<P: Profile>(
    alloc: Global,
    memory: &[PartMemory],
    all: &[MayStand],
    sets: &mut Vec<u64>,
) -> Result<(), AllocError> {
    for _round in 0..MOST_ROUNDS {
        let from = copied(alloc, sets.as_slice())?;
        if !add_slots::<P>(memory, all, from.as_slice(), sets)? {
            return Ok(());
        }
    }
    Ok(())
}

/// Adds the sets of the slots of the roots in a set that may take all bits of a word.
fn add_whole_roots<P: Profile>(
    memory: &[PartMemory],
    all: &[MayStand],
    set: u64,
    sets: &mut Vec<u64>,
) -> Result<(), AllocError> {
    for s in all {
        if s.set == set && may_end::<P>(s.what) {
            if let Some(range) = slots_of::<P>(s.what) {
                add_sets(memory, sets, range)?;
            }
        }
    }
    Ok(())
}

/// What the threads whose root slots lie in a set name and fill, by what may stand so far.
fn caller_in<P: Profile>(
    alloc: Global,
    memory: &[PartMemory],
    all: &[MayStand],
    set: u64,
) -> Result<Caller, AllocError> {
    let roots = [set];
    let mut names = Vec::new(alloc);
    add_slots::<P>(memory, all, &roots, &mut names)?;
    let mut nodes = Vec::new(alloc);
    add_whole_roots::<P>(memory, all, set, &mut nodes)?;
    if !are_ending::<P>(all, set) {
        add_led_to::<P>(alloc, memory, all, &mut names)?;
        add_slots::<P>(memory, all, names.as_slice(), &mut nodes)?;
    }
    let mut fills = Vec::new(alloc);
    add_slots::<P>(memory, all, nodes.as_slice(), &mut fills)?;
    add_led_to::<P>(alloc, memory, all, &mut fills)?;
    Ok(Caller {
        set,
        names,
        nodes,
        fills,
    })
}

/// Adds that something may stand in each of some sets.
fn add_to_all(all: &mut Vec<MayStand>, sets: &[u64], what: Standing) -> Result<(), AllocError> {
    for set in sets {
        if !has_over(all.as_slice(), *set, what) {
            all.push(MayStand { set: *set, what })?;
        }
    }
    Ok(())
}

/// Adds what a caller copies, and what it makes of regions.
fn add_filled(
    all: &mut Vec<MayStand>,
    known: &[MayStand],
    caller: &Caller,
) -> Result<(), AllocError> {
    let (names, fills) = (caller.names.as_slice(), caller.fills.as_slice());
    for s in known {
        if fills.contains(&s.set) {
            add_to_all(all, fills, opened(s.what))?;
        }
        if let Standing::Untyped { base, bits } = s.what {
            if names.contains(&s.set) {
                add_to_all(all, fills, Standing::Region { base, bits })?;
            }
        }
    }
    Ok(())
}

/// The sets with the root slots of the threads that stand in the sets that a caller names.
fn roots_set_by(
    alloc: Global,
    memory: &[PartMemory],
    known: &[MayStand],
    caller: &Caller,
) -> Result<Vec<u64>, AllocError> {
    let mut sets = Vec::new(alloc);
    for s in known {
        if caller.names.as_slice().contains(&s.set) {
            match s.what {
                Standing::Thread { base } => {
                    add_number(&mut sets, set_at(memory, base))?;
                }
                Standing::Region { base, bits } => {
                    add_sets(memory, &mut sets, Range { first: base, bits })?;
                }
                _ => {}
            }
        }
    }
    Ok(sets)
}

/// Adds the roots that a caller sets.
fn add_roots(
    alloc: Global,
    memory: &[PartMemory],
    all: &mut Vec<MayStand>,
    known: &[MayStand],
    caller: &Caller,
) -> Result<(), AllocError> {
    let roots = roots_set_by(alloc, memory, known, caller)?;
    for s in known {
        if caller.nodes.as_slice().contains(&s.set) && has_slots(s.what) {
            add_to_all(all, roots.as_slice(), opened(s.what))?;
        }
    }
    Ok(())
}

/// Adds what the threads whose root slots lie in a set put anywhere.
fn caller_put<P: Profile>(
    alloc: Global,
    memory: &[PartMemory],
    all: &mut Vec<MayStand>,
    set: u64,
) -> Result<Caller, AllocError> {
    let known = copied(alloc, all.as_slice())?;
    let caller = caller_in::<P>(alloc, memory, known.as_slice(), set)?;
    add_filled(all, known.as_slice(), &caller)?;
    add_roots(alloc, memory, all, known.as_slice(), &caller)?;
    Ok(caller)
}

/// Whether a stretch has a whole range, or the range no last address.
fn is_in_one(memory: &[PartMemory], range: Range) -> bool {
    match last_of(range) {
        None => true,
        Some(last) => are_in_one(memory, range.first, last),
    }
}

/// The first region that objects are made in and that lies in no stretch.
fn region_outside(memory: &[PartMemory], all: &[MayStand]) -> Option<Range> {
    for s in all {
        if let Standing::Region { base, bits } = s.what {
            let range = Range { first: base, bits };
            if !is_in_one(memory, range) {
                return Some(range);
            }
        }
    }
    None
}

/// Adds what the callers of some sets put, or of the first of them till there is a region that lies in no stretch.
fn callers_put<P: Profile>(
    alloc: Global,
    memory: &[PartMemory],
    all: &mut Vec<MayStand>,
    sets: &[u64],
) -> Result<Vec<Caller>, AllocError> {
    let mut callers = Vec::new(alloc);
    for set in sets {
        let caller = caller_put::<P>(alloc, memory, all, *set)?;
        callers.push(caller)?;
        if region_outside(memory, all.as_slice()).is_some() {
            break;
        }
    }
    Ok(callers)
}

/// The callers, with all that may stand: from what stands on, what they put is added, on and on, or till there is a region that lies in
/// no stretch.
fn all_put<P: Profile>(
    alloc: Global,
    memory: &[PartMemory],
    all: &mut Vec<MayStand>,
    sets: &[u64],
) -> Result<Vec<Caller>, AllocError> {
    for _round in 0..MOST_ROUNDS {
        let before = all.len();
        let callers = callers_put::<P>(alloc, memory, all, sets)?;
        if all.len() == before || region_outside(memory, all.as_slice()).is_some() {
            return Ok(callers);
        }
    }
    Ok(Vec::new(alloc))
}

/// Adds a set of its own for a range, if no stretch has all of it.
fn add_stretch(memory: &mut Vec<PartMemory>, range: Range) -> Result<(), AllocError> {
    let Some(last) = last_of(range) else {
        return Ok(());
    };
    if is_in_one(memory.as_slice(), range) {
        return Ok(());
    }
    let part = (memory.len() as u64).saturating_add(1);
    memory.push(PartMemory {
        part,
        first: range.first,
        last,
    })?;
    Ok(())
}

/// The regions that lie in no other.
fn add_regions(memory: &mut Vec<PartMemory>, regions: &[Range]) -> Result<(), AllocError> {
    for range in regions {
        if !lies_in_larger(regions, *range) {
            add_stretch(memory, *range)?;
        }
    }
    Ok(())
}

/// Whether a range lies in a larger one of these.
fn lies_in_larger(regions: &[Range], range: Range) -> bool {
    for region in regions {
        if region.bits > range.bits && meets(*region, range) {
            return true;
        }
    }
    false
}

/// Whether the first address of a range lies in another.
fn meets(region: Range, range: Range) -> bool {
    match last_of(region) {
        None => false,
        Some(last) => region.first <= range.first && range.first <= last,
    }
}

/// The sets: of regions, of CNodes, and of root slots, each that lies in no set before it.
fn sets_of<P: Profile>(
    alloc: Global,
    derivations: &[Derivation],
    regions: &[Range],
) -> Result<Vec<PartMemory>, AllocError> {
    let mut memory = Vec::new(alloc);
    add_regions(&mut memory, regions)?;
    for d in derivations {
        if let (Cap::CNode { .. }, Some(range)) = (d.cap, range_of::<P>(d.cap)) {
            add_stretch(&mut memory, range)?;
        }
    }
    for d in derivations {
        if let Cap::Tcb { base } = d.cap {
            add_stretch(
                &mut memory,
                Range {
                    first: base,
                    bits: 0,
                },
            )?;
        }
    }
    Ok(memory)
}

/// What a capability stands as.
fn standing_of<P: Profile>(cap: Cap) -> Option<Standing> {
    match cap {
        Cap::Null => None,
        Cap::Untyped { base, bits, .. } => Some(Standing::Untyped {
            base,
            bits: bits as u64,
        }),
        Cap::Endpoint {
            base,
            badge,
            rights,
        } => Some(Standing::Endpoint {
            base,
            badge,
            rights,
        }),
        Cap::CNode { base, radix, guard } => Some(Standing::Node {
            base,
            radix: radix as u64,
            takes: guard.size as u64 + radix as u64,
        }),
        Cap::Tcb { base } => Some(Standing::Thread { base }),
    }
}

/// What stands in each set.
fn standing_in<P: Profile>(
    alloc: Global,
    derivations: &[Derivation],
    memory: &[PartMemory],
) -> Result<Vec<MayStand>, AllocError> {
    let mut all = Vec::new(alloc);
    for d in derivations {
        if let Some(what) = standing_of::<P>(d.cap) {
            let set = set_at(memory, d.slot.address::<P>());
            add_to_all(&mut all, &[set], what)?;
        }
    }
    Ok(all)
}

/// The sets with the root slots of threads that call: those that are not trusted, and those that may be made in regions.
fn caller_sets(
    alloc: Global,
    derivations: &[Derivation],
    memory: &[PartMemory],
    regions: &[Range],
    trusted: &[u64],
) -> Result<Vec<u64>, AllocError> {
    let mut sets = Vec::new(alloc);
    for d in derivations {
        if let Cap::Tcb { base } = d.cap {
            if !trusted.contains(&base) {
                add_number(&mut sets, set_at(memory, base))?;
            }
        }
    }
    for range in regions {
        add_number(&mut sets, set_at(memory, range.first))?;
    }
    Ok(sets)
}

/// The flows with a set for each of these regions.
fn flows_in<P: Profile>(
    alloc: Global,
    derivations: &[Derivation],
    regions: &[Range],
    trusted: &[u64],
) -> Result<Flows, AllocError> {
    let memory = sets_of::<P>(alloc, derivations, regions)?;
    let mut standing = standing_in::<P>(alloc, derivations, memory.as_slice())?;
    let sets = caller_sets(alloc, derivations, memory.as_slice(), regions, trusted)?;
    let callers = all_put::<P>(alloc, memory.as_slice(), &mut standing, sets.as_slice())?;
    Ok(Flows {
        memory,
        standing,
        callers,
        trusted: copied(alloc, trusted)?,
    })
}

/// The flows of a kernel whose threads make any calls, but for those that are trusted only to send and receive: from what its slots
/// hold on, what the threads can put anywhere is added till there is no more. Each region that a thread can retype is one set, with
/// all that lies in it.
pub fn flow_of<P: Profile, S: DerivationStore<P> + Drop, W: Waiters<P> + Drop>(
    alloc: Global,
    kernel: &Kernel<P, S, W>,
    trusted: &[u64],
) -> Result<Flows, AllocError> {
    let derivations = kernel.derivations(alloc)?;
    let derivations = derivations.as_slice();
    let mut regions: Vec<Range> = Vec::new(alloc);
    let mut flows = flows_in::<P>(alloc, derivations, regions.as_slice(), trusted)?;
    for _round in 0..MOST_ROUNDS {
        let Some(range) = region_outside(flows.memory.as_slice(), flows.standing.as_slice()) else {
            return Ok(flows);
        };
        regions.push(range)?;
        flows = flows_in::<P>(alloc, derivations, regions.as_slice(), trusted)?;
    }
    Ok(flows)
}

/// Whether a word of a thread that makes calls leads to a thread's control block.
fn is_named<P: Profile>(flows: &Flows, thread: u64) -> bool {
    let all = flows.standing.as_slice();
    for caller in flows.callers.as_slice() {
        if !names_no_thread::<P>(caller.names.as_slice(), all, thread) {
            return true;
        }
    }
    false
}

fn is_suspended<P: Profile, S: DerivationStore<P> + Drop, W: Waiters<P> + Drop>(
    kernel: &Kernel<P, S, W>,
    trusted: &[u64],
    thread: u64,
) -> bool {
    let is = matches!(kernel.thread_state(thread), Some(ThreadState::Inactive));
    is && !trusted.contains(&thread)
}

/// The suspended threads but those that are trusted, and but one.
fn suspended_of<P: Profile, S: DerivationStore<P> + Drop, W: Waiters<P> + Drop>(
    alloc: Global,
    kernel: &Kernel<P, S, W>,
    trusted: &[u64],
    but: Option<u64>,
) -> Result<Vec<u64>, AllocError> {
    let mut threads = Vec::new(alloc);
    let derivations = kernel.derivations(alloc)?;
    for d in derivations.as_slice() {
        if let Cap::Tcb { base } = d.cap {
            if but != Some(base) && is_suspended::<P, S, W>(kernel, trusted, base) {
                add_number(&mut threads, base)?;
            }
        }
    }
    Ok(threads)
}

/// Those of some threads to whose control blocks no word leads of a thread that makes calls.
fn unnamed_of<P: Profile>(
    alloc: Global,
    flows: &Flows,
    threads: &[u64],
) -> Result<Vec<u64>, AllocError> {
    let mut unnamed = Vec::new(alloc);
    for thread in threads {
        if !is_named::<P>(flows, *thread) {
            unnamed.push(*thread)?;
        }
    }
    Ok(unnamed)
}

/// The flows of a kernel in which suspended threads make no calls, but those that threads that make calls can resume. One thread is named
/// whose words are looked at though it is suspended.
pub fn bound_of<P: Profile, S: DerivationStore<P> + Drop, W: Waiters<P> + Drop>(
    alloc: Global,
    kernel: &Kernel<P, S, W>,
    trusted: &[u64],
    but: Option<u64>,
) -> Result<Bound, AllocError> {
    let mut idle = suspended_of::<P, S, W>(alloc, kernel, trusted, but)?;
    for _round in 0..MOST_ROUNDS {
        let mut quiet = copied(alloc, trusted)?;
        quiet.extend_from_slice(idle.as_slice())?;
        let flows = flow_of::<P, S, W>(alloc, kernel, quiet.as_slice())?;
        let left = unnamed_of::<P>(alloc, &flows, idle.as_slice())?;
        if left.len() < idle.len() {
            idle = left;
        } else {
            if let Some(thread) = but {
                if is_suspended::<P, S, W>(kernel, trusted, thread)
                    && !is_named::<P>(&flows, thread)
                {
                    idle.push(thread)?;
                }
            }
            return Ok(Bound { flows, idle });
        }
    }
    Ok(Bound {
        flows: flow_of::<P, S, W>(alloc, kernel, trusted)?,
        idle: Vec::new(alloc),
    })
}
