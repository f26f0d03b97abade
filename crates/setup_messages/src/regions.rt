//! Why a set-up cannot be laid out: where its untyped regions lie, and what they overlap. The sizes of the set-up and its
//! regions were read: the layout comes after them.
ghost use Rattle.std.specs.Prelude.{◌<◌};

use crate::document::{Document, read_at};
use cap_core::limits::{MAX_BOOT_ENDPOINTS, MAX_BOOT_THREADS, MAX_MEMORY_BITS, MAX_ROOT_RADIX};
use cap_core::{Narrow, Profile, ProfileName, Wide};
use kernel_abstract::plan::Extent;
use kernel_boot::PlanDefect;
use setup_format::Place;
use setup_values::kinds::{Number, Word};
use std::alloc::AllocError;

const NO_ROOM: &str =
    "the root CNode, the threads and the endpoints do not fit into the memory; raise memory_bits";

const NO_SLOTS: &str =
    "the root CNode has too few slots for the capabilities of the boot; raise root_radix";

/// The table and the key at which the layout of a set-up fails.
pub fn key_of(defect: PlanDefect) -> (Place, &'static str) {
    match defect {
        PlanDefect::Outside => (Place::Top, "memory_bits"),
        PlanDefect::Slots => (Place::Top, "root_radix"),
        PlanDefect::Unaligned(i) | PlanDefect::UntypedOutside(i) | PlanDefect::Overlap(i) => (
            Place::Untyped(i.saturating_add(1)),
            "base",
        ),
    }
}

/// The untyped region at a place.
fn region_at(document: Document<'_>, place: Place) -> Option<Extent> {
    let table = document.table_at(place)?;
    let bits = read_at(table, "bits", Number(0, Wide::MAX_OBJECT_BITS))?;
    Some(Extent::new(read_at(table, "base", Word)?, bits))
}

/// A boot object or an untyped region: its name, its number and its addresses.
type Object = (&'static str, usize, Extent);

/// Of some objects of one size that stand one behind another, that of a number, 0 the first.
fn object_in_row(number: usize, first: Extent) -> Extent {
    let Extent { start, end } = first;
    let offset = end.saturating_sub(start).saturating_mul(number as u128);
    Extent {
        start: start.saturating_add(offset),
        end: end.saturating_add(offset),
    }
}

/// The first of so many objects of a row that a region overlaps.
fn first_in_row(region: Extent, name: &'static str, count: u32, first: Extent) -> Option<Object> {
    for number in 0..count as usize {
        let object = object_in_row(number, first);
        if region.overlaps(object) {
            return Some((name, number, object));
        }
    }
    None
}

/// The first of so many untyped regions of a document that a region overlaps.
fn first_untyped(region: Extent, document: Document<'_>, count: usize) -> Option<Object> {
    for number in 1..=count {
        if let Some(object) = region_at(document, Place::Untyped(number))
            && region.overlaps(object)
        {
            return Some(("untyped", number, object));
        }
    }
    None
}

/// The bits of the root CNode of a document.
fn root_bits<P: Profile>(document: Document<'_>) -> u32
    ensures { result < 64 }
{
    P::SLOT_BITS + read_at(document.table, "root_radix", Number(0, MAX_ROOT_RADIX)).unwrap_or(0)
}

/// The first thread or endpoint of a document that a region overlaps.
fn first_boot_object<P: Profile>(region: Extent, document: Document<'_>) -> Option<Object> {
    let table = document.table;
    let threads = read_at(table, "threads", Number(0, MAX_BOOT_THREADS)).unwrap_or(0);
    let endpoints = read_at(table, "endpoints", Number(0, MAX_BOOT_ENDPOINTS)).unwrap_or(0);
    // The sizes of the root CNode and of a thread are powers of two, so the first thread stands at the greater one.
    let thread = 1u64 << root_bits::<P>(document).max(P::TCB_BITS);
    let endpoint = thread + (u64::from(threads) << P::TCB_BITS);
    let first = Extent::new(thread, P::TCB_BITS);
    match first_in_row(region, "thread", threads, first) {
        None => {
            let first = Extent::new(endpoint, P::ENDPOINT_BITS);
            first_in_row(region, "endpoint", endpoints, first)
        }
        found => found,
    }
}

/// What a region overlaps, in words: a boot object, or one of so many untyped regions that stand before it. Threads and endpoints
/// count from 0, and untyped regions from 1, as set-ups have them.
fn overlapped<P: Profile>(
    document: Document<'_>,
    count: usize,
    region: Extent,
) -> Result<String, AllocError> {
    let alloc = document.alloc;
    if region.overlaps(Extent::new(0, root_bits::<P>(document))) {
        return String::from_str(alloc, "the root CNode at 0");
    }
    let found = match first_boot_object::<P>(region, document) {
        None => first_untyped(region, document, count),
        found => found,
    };
    match found {
        Some((name, number, object)) => format!(in alloc; "{name} {number} at {}", object.start),
        None => String::from_str(alloc, "a boot object or an earlier region"),
    }
}

/// Why the sizes and the regions of a document cannot be laid out.
pub fn layout_words(document: Document<'_>, defect: PlanDefect) -> Result<String, AllocError> {
    let (alloc, (place, _)) = (document.alloc, key_of(defect));
    let region = region_at(document, place).unwrap_or(Extent::new(0, 0));
    let Extent { start, end } = region;
    match defect {
        PlanDefect::Outside => String::from_str(alloc, NO_ROOM),
        PlanDefect::Slots => String::from_str(alloc, NO_SLOTS),
        PlanDefect::Unaligned(_) => {
            let size = end.saturating_sub(start);
            format!(in alloc; "{place}: its base {start} is no multiple of its size {size}")
        }
        PlanDefect::UntypedOutside(_) => {
            let bits = read_at(document.table, "memory_bits", Number(0, MAX_MEMORY_BITS));
            let memory = 1u64 << bits.unwrap_or(0);
            format!(in alloc; "{place}: it ends at {end}, and the memory at {memory}")
        }
        PlanDefect::Overlap(i) => {
            let occupant = match document.profile() {
                ProfileName::Wide => overlapped::<Wide>(document, i, region)?,
                ProfileName::Narrow => overlapped::<Narrow>(document, i, region)?,
            };
            format!(in alloc; "{place}: it overlaps {occupant}")
        }
    }
}
