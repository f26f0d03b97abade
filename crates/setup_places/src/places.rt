//! Where the objects of a layout stand in the memory of a set-up.
use cap_core::limits::{MAX_MEMORY_BITS, MAX_ROOT_RADIX, MIN_MEMORY_BITS};
use setup_layout::{Layout, Machine, Object, Remarks};
use std::alloc::{AllocError, Global};

/// The most regions of a set-up that is made.
const MOST_REGIONS: usize = 8;

/// The least bits of a region.
const LEAST_REGION_BITS: u32 = 12;

/// The radix of the least root CNode that is tried.
const LEAST_RADIX: u32 = 2;

/// How deep untyped regions cover each other at the most.
const MOST_LEVELS: usize = 64;

/// How many slots of the root CNode a boot fills before those of the regions, with the empty slot 0: that of the root CNode and
/// that of the loader.
pub const FIRST_REGION_SLOT: u64 = 3;

/// Where an object is made: in a region, by its number, or in the object that covers it.
#[derive(Clone, Copy)]
pub enum Source {
    Region(usize),
    Cover(usize),
}

/// A region of untyped memory.
#[derive(Clone, Copy)]
pub struct Region {
    pub base: u64,
    pub bits: u32,
    /// The first address behind what stands there.
    free: u64,
}

impl Region {
    /// The place of an object of this size, behind those that stand there already; none where it has no room.
    fn place(&mut self, size: u64) -> Option<u64> {
        let place = self.free.checked_next_multiple_of(size)?;
        let end = place.checked_add(size)?;
        if end > self.base.saturating_add(1u64.checked_shl(self.bits)?) {
            return None;
        }
        self.free = end;
        Some(place)
    }
}

/// A memory with the objects of a layout.
#[derive(Drop)]
pub struct Places {
    pub memory_bits: u32,
    pub root_radix: u32,
    pub regions: Vec<Region>,
    /// The address of the loader.
    pub loader: u64,
    /// Where each object is made.
    pub sources: Vec<Source>,
    /// The objects in the order in which they are made.
    pub order: Vec<usize>,
}

/// What says where an object stands among others: how many regions cover it, what its size lacks of the largest number, its kind; and
/// its place among the objects.
type Key = (usize, u64, u8, usize);

/// How many untyped regions cover an object, the one in the other; `None` where they cover each other in a circle, or are too many.
fn level_of(objects: &[Object], number: usize) -> Option<usize> {
    let mut object = objects.get(number)?;
    for level in 0..MOST_LEVELS {
        match object.cover {
            None => return Some(level),
            Some(cover) => object = objects.get(cover)?,
        }
    }
    None
}

/// The objects of a layout, each behind what covers it, the largest first, and of one size those of one kind beside each other. An
/// object with no level stands last.
fn largest_first(
    alloc: Global,
    objects: &[Object],
    machine: Machine,
) -> Result<Vec<Key>, AllocError> {
    let mut keys = Vec::new(alloc);
    for (number, object) in objects.iter().enumerate() {
        let level = level_of(objects, number).unwrap_or(MOST_LEVELS);
        let size = u64::MAX - machine.size(object);
        keys.push((level, size, object.kind as u8, number))?;
    }
    keys.sort_unstable();
    Ok(keys)
}

/// The regions of a memory above the root CNode and the loader, the largest first: its half, a quarter and so on.
fn regions_of(alloc: Global, memory_bits: u32, used: u64) -> Result<Vec<Region>, AllocError> {
    let mut regions = Vec::new(alloc);
    for below in 1..=MOST_REGIONS as u32 {
        let bits = memory_bits.saturating_sub(below);
        let base = 1u64.checked_shl(bits).unwrap_or(0);
        if base < used || below > 1 && bits < LEAST_REGION_BITS {
            break;
        }
        let free = base;
        regions.push(Region { base, bits, free })?;
    }
    Ok(regions)
}

/// The first region with room for an object, by its number, and the place there.
fn place_in(regions: &mut [Region], size: u64) -> Option<(usize, u64)> {
    for (number, region) in regions.iter_mut().enumerate() {
        if let Some(place) = region.place(size) {
            return Some((number, place));
        }
    }
    None
}

/// The address of the loader: the first behind the root CNode, which stands at 0.
fn loader_of(machine: Machine, root_radix: u32) -> u64 {
    let node = 1u64
        .checked_shl(root_radix.saturating_add(machine.slot_bits))
        .unwrap_or(u64::MAX);
    node.checked_next_multiple_of(1 << machine.tcb_bits.min(63))
        .unwrap_or(u64::MAX)
}

/// Whether regions have room for the objects that none covers.
fn have_room(regions: &mut [Region], objects: &[Object], order: &[Key], machine: Machine) -> bool {
    for (level, _, _, number) in order {
        if let (0, Some(object)) = (*level, objects.get(*number)) {
            if place_in(regions, machine.size(object)).is_none() {
                return false;
            }
        }
    }
    true
}

/// The radix of the least root CNode, the bits of the least memory beside it, and its regions, in which the objects have room.
fn fitting_memory(
    alloc: Global,
    objects: &[Object],
    order: &[Key],
    machine: Machine,
) -> Result<Option<(u32, u32, Vec<Region>)>, AllocError> {
    let sizes = MAX_MEMORY_BITS + 1 - MIN_MEMORY_BITS;
    for number in 0..(MAX_ROOT_RADIX + 1 - LEAST_RADIX) * sizes {
        let (radix, bits) = (
            LEAST_RADIX + number / sizes,
            MIN_MEMORY_BITS + number % sizes,
        );
        let used = loader_of(machine, radix).saturating_add(1 << machine.tcb_bits.min(63));
        let mut regions = regions_of(alloc, bits, used)?;
        let taken = regions.len().saturating_add(objects.len()) as u64;
        let slots = 1u64.checked_shl(radix).unwrap_or(0);
        let has_slots = !regions.is_empty() && FIRST_REGION_SLOT.saturating_add(taken) <= slots;
        if has_slots && have_room(regions.as_mut_slice(), objects, order, machine) {
            return Ok(Some((radix, bits, regions_of(alloc, bits, used)?)));
        }
    }
    Ok(None)
}

/// Says that the objects have no room.
fn say_too_large(layout: &mut Layout, machine: Machine) {
    let mut bytes = 0u64;
    for object in layout.objects.as_slice() {
        if object.cover.is_none() {
            bytes = bytes.saturating_add(machine.size(object));
        }
    }
    let count = layout.objects.len();
    let (most, slots) = (1u64 << MAX_MEMORY_BITS, 1u64 << MAX_ROOT_RADIX);
    layout.faults.say(
        layout.spot,
        format_args!(
            "the layout takes {bytes} bytes, and {count} slots of the loader; a set-up has {most} bytes and {slots} slots at the most, and the loader and its slots take some of them; --shrink N cuts untyped regions that cover nothing, and with --flows each CNode is as small as it can be"
        ),
    );
}

/// Says that an object has no place.
fn say_unplaced(faults: &mut Remarks, objects: &[Object], level: usize, number: usize) {
    let Some(object) = objects.get(number) else {
        return;
    };
    let (name, cover) = (object.name.as_str(), object.cover);
    if level >= MOST_LEVELS {
        faults.say(
            object.spot,
            format_args!(
                "{name}: the untyped regions above it cover each other in a circle, or are more than {MOST_LEVELS}"
            ),
        );
    } else {
        let region = match objects.get(cover.unwrap_or(number)) {
            Some(region) => region.name.as_str(),
            None => "the region",
        };
        faults.say(
            object.spot,
            format_args!("{region} is too small for what it covers: {name} does not fit"),
        );
    }
}

/// Gives an object a place: in a region, or in the object that covers it, which has one.
fn placed(
    object: &Object,
    size: u64,
    regions: &mut [Region],
    insides: &mut [Region],
) -> Option<(Source, u64)> {
    match object.cover {
        None => {
            let (region, place) = place_in(regions, size)?;
            Some((Source::Region(region), place))
        }
        Some(cover) => {
            let place = insides.get_mut(cover)?.place(size)?;
            Some((Source::Cover(cover), place))
        }
    }
}

/// Gives each object its place, and answers keys by which the objects stand in the order in which they are made: those of one
/// source together. What has no place is told.
fn place_all(
    alloc: Global,
    layout: &mut Layout,
    order: &[Key],
    regions: &mut [Region],
    sources: &mut [Source],
) -> Result<Vec<(usize, usize, usize, usize)>, AllocError> {
    let machine = Machine::of(layout.profile);
    let nothing = Region {
        base: 0,
        bits: 0,
        free: 0,
    };
    let mut insides = vec![in alloc; nothing; layout.objects.len()]?;
    let mut keys = Vec::new(alloc);
    for (rank, (level, _, _, number)) in order.iter().enumerate() {
        let Some(object) = layout.objects.get_mut(*number) else {
            continue;
        };
        let size = machine.size(object);
        let Some((source, place)) = placed(object, size, regions, insides.as_mut_slice()) else {
            let objects = layout.objects.as_slice();
            say_unplaced(&mut layout.faults, objects, *level, *number);
            break;
        };
        object.place = u32::try_from(place).unwrap_or(u32::MAX);
        if let Some(inside) = insides.get_mut(*number) {
            *inside = Region {
                base: place,
                bits: object.bits,
                free: place,
            };
        }
        if let Some(entry) = sources.get_mut(*number) {
            *entry = source;
        }
        let from = match source {
            Source::Region(region) => region,
            Source::Cover(cover) => cover,
        };
        keys.push((*level, from, rank, *number))?;
    }
    keys.sort_unstable();
    Ok(keys)
}

/// The places of the objects of a layout; `None` where it has a fault, which is told.
pub fn places_of(alloc: Global, layout: &mut Layout) -> Result<Option<Places>, AllocError> {
    let machine = Machine::of(layout.profile);
    let objects = layout.objects.as_slice();
    let largest = largest_first(alloc, objects, machine)?;
    let fitting = fitting_memory(alloc, objects, largest.as_slice(), machine)?;
    let Some((root_radix, memory_bits, mut regions)) = fitting else {
        say_too_large(layout, machine);
        return Ok(None);
    };
    let mut sources = vec![in alloc; Source::Region(0); layout.objects.len()]?;
    let (free, made) = (regions.as_mut_slice(), sources.as_mut_slice());
    let keys = place_all(alloc, layout, largest.as_slice(), free, made)?;
    if !layout.faults.told.is_empty() {
        return Ok(None);
    }
    let (mut order, mut used) = (Vec::new(alloc), 1);
    for (level, from, _, number) in keys.as_slice() {
        order.push(*number)?;
        if *level == 0 {
            used = used.max(from.saturating_add(1));
        }
    }
    // A region in which no object stands is left out.
    regions.truncate(used);
    Ok(Some(Places {
        memory_bits,
        root_radix,
        regions,
        loader: loader_of(machine, root_radix),
        sources,
        order,
    }))
}
