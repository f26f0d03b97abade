//! What objects stand for in the hardware: physical memory, ports and interrupts. Objects that stand for one part of it are one.
use crate::layout::Object;
use crate::scanner::{TokenKind, number_of};
use crate::words::{Parameter, Reference, Words};
use std::alloc::{AllocError, Global};
use std::collections::HashMap;

/// The bytes of a frame whose size is not said.
const FRAME_BYTES: u64 = 4096;

/// How deep untyped regions cover each other at the most.
const MOST_LEVELS: usize = 64;

/// What is said of the hardware for which an object stands.
#[derive(Clone, Copy)]
pub struct Device {
    /// The first byte in physical memory.
    address: Option<u64>,
    /// The bytes of a frame.
    bytes: u64,
    /// The bits of an untyped region's size.
    bits: Option<u64>,
    /// The first and the last port.
    ports: Option<(u64, u64)>,
    /// The number of the interrupt that a software interrupt is.
    interrupt: Option<u64>,
}

/// The bytes that a size of a frame means, as `4k` or `2M`.
fn bytes_of(size: &str) -> Option<u64> {
    for (letter, unit) in [
        ('k', 1 << 10),
        ('K', 1 << 10),
        ('M', 1 << 20),
        ('G', 1 << 30),
    ] {
        if let Some(count) = size.strip_suffix(letter) {
            return number_of(count)?.checked_mul(unit);
        }
    }
    number_of(size)
}

impl Device {
    /// Nothing is said.
    pub fn none() -> Device {
        Device {
            address: None,
            bytes: FRAME_BYTES,
            bits: None,
            ports: None,
            interrupt: None,
        }
    }

    /// Reads what a parameter of an object says of it. Answers whether it says anything.
    pub fn read(&mut self, parameter: &Parameter<'_>) -> bool {
        let [first, second, _, from, _, to, _, _] = parameter.words;
        let (address, interrupt) = (parameter.number("paddr"), parameter.number("irq"));
        let mut is_read = address.is_some() || interrupt.is_some();
        if parameter.count == 1 || parameter.count == 2 && second.is("bytes") {
            let bytes = bytes_of(first.text);
            is_read |= bytes.is_some();
            self.bytes = bytes.unwrap_or(self.bytes);
        }
        if parameter.count == 2 && second.is("bits") {
            self.bits = first.number();
            is_read |= self.bits.is_some();
        }
        if parameter.count == 7 && first.is("ports") {
            if let (Some(from), Some(to)) = (from.number(), to.number()) {
                self.ports = Some((from, to));
                is_read = true;
            }
        }
        self.address = address.or(self.address);
        self.interrupt = interrupt.or(self.interrupt);
        is_read
    }

    /// How many bytes the object has.
    fn size(self) -> u64 {
        match self.bits {
            None => self.bytes,
            Some(bits) => 1u64.checked_shl(bits.min(64) as u32).unwrap_or(u64::MAX),
        }
    }
}

/// The first and the last byte, or port, for which an object stands; and the object, by its place.
type Span = (u64, u64, usize);

/// What the objects of a layout stand for.
#[derive(Drop)]
pub struct Hardware<'a> {
    /// Physical memory: of what is mapped, and of untyped regions.
    frames: Vec<Span>,
    regions: Vec<Span>,
    ports: Vec<Span>,
    /// The software interrupts, each with its number.
    pub signals: Vec<(usize, u64)>,
    /// The interrupts by their numbers.
    pub interrupts: HashMap<u64, Reference<'a>>,
    /// The object as which another one counts, by its place.
    joined: HashMap<usize, usize>,
}

impl<'a> Hardware<'a> {
    /// Nothing is said.
    pub fn new(alloc: Global) -> Hardware<'a> {
        Hardware {
            frames: Vec::new(alloc),
            regions: Vec::new(alloc),
            ports: Vec::new(alloc),
            signals: Vec::new(alloc),
            interrupts: HashMap::new(alloc),
            joined: HashMap::new(alloc),
        }
    }

    /// Adds an object of this kind, the one of this number among several of one name.
    pub fn add(
        &mut self,
        device: Device,
        kind: &str,
        number: u64,
        object: usize,
    ) -> Result<(), AllocError> {
        if let (Some(interrupt), "sgi_signal" | "arm_sgi") = (device.interrupt, kind) {
            self.signals.push((object, interrupt))?;
        }
        if let (Some((first, last)), "io_ports") = (device.ports, kind) {
            self.ports.push((first, last, object))?;
        }
        if let Some(address) = device.address {
            let size = device.size();
            let first = address.saturating_add(size.saturating_mul(number));
            let last = first.saturating_add(size.saturating_sub(1));
            match kind {
                "ut" => self.regions.push((first, last, object))?,
                "frame" | "large_page" | "small_page" => self.frames.push((first, last, object))?,
                _ => {}
            }
        }
        Ok(())
    }

    /// Reads the section that gives interrupts their numbers. What it does not know it passes over.
    pub fn read_maps(&mut self, words: &mut Words<'a>) -> Result<(), AllocError> {
        words.need("{");
        for _word in 0..words.left() {
            if !words.goes_on() || words.has("}") {
                return Ok(());
            }
            let token = words.advance();
            if token.kind == TokenKind::End {
                break;
            }
            if let (Some(number), true) = (token.number(), words.has(":")) {
                let object = words.reference();
                self.interrupts.insert(number, object)?;
            }
        }
        words.fail("a }");
        Ok(())
    }

    /// The object as which one counts, by their places.
    pub fn one_of(&self, object: usize) -> usize {
        self.joined.get(&object).copied().unwrap_or(object)
    }

    /// Has an object count as another one.
    pub fn join(&mut self, object: usize, other: usize) -> Result<(), AllocError> {
        self.joined.insert(object, other)?;
        Ok(())
    }

    /// Has the objects of stretches that overlap count as one.
    fn join_overlaps(
        &mut self,
        words: &mut Words<'a>,
        objects: &[Object],
        spans: &mut [Span],
        what: &str,
    ) -> Result<(), AllocError> {
        spans.sort_unstable();
        let mut before: Option<(u64, usize)> = None;
        for (first, last, object) in spans.iter() {
            match before {
                Some((end, other)) if *first <= end => {
                    say_overlap(words, objects, *object, other, what);
                    self.join(*object, other)?;
                    before = Some((end.max(*last), other));
                }
                _ => before = Some((*last, *object)),
            }
        }
        Ok(())
    }

    /// Has objects count as one that are in one part of physical memory, or have one port. What an untyped region does not cover
    /// cannot be in its memory.
    pub fn join_spans(
        &mut self,
        words: &mut Words<'a>,
        objects: &[Object],
    ) -> Result<(), AllocError> {
        let (mut frames, mut ports) = (self.frames.clone()?, self.ports.clone()?);
        self.join_overlaps(words, objects, frames.as_mut_slice(), "physical memory")?;
        self.join_overlaps(words, objects, ports.as_mut_slice(), "ports")?;
        for region in self.regions.as_slice() {
            for frame in self.frames.as_slice() {
                check_region(words, objects, *region, *frame);
            }
            for other in self.regions.as_slice() {
                check_region(words, objects, *region, *other);
            }
        }
        Ok(())
    }
}

/// Says that two objects overlap.
fn say_overlap(words: &mut Words<'_>, objects: &[Object], object: usize, other: usize, what: &str) {
    if let (Some(object), Some(other)) = (objects.get(object), objects.get(other)) {
        let (name, of) = (object.name.as_str(), other.name.as_str());
        let told = format_args!("{name} and {of} overlap in {what}: they count as one object");
        words.notes.say(object.spot, told);
    }
}

/// Whether an untyped region covers an object, or covers another one that does.
pub fn does_cover(objects: &[Object], region: usize, object: usize) -> bool {
    let mut inner = object;
    for _level in 0..MOST_LEVELS {
        if inner == region {
            return true;
        }
        match objects.get(inner) {
            Some(
                Object {
                    cover: Some(cover),
                    ..
                },
            ) => inner = *cover,
            _ => return false,
        }
    }
    false
}

/// Says that an object stands in the memory of an untyped region that does not cover it, where that is so.
fn check_region(words: &mut Words<'_>, objects: &[Object], region: Span, span: Span) {
    let ((first, last, number), (start, end, inner)) = (region, span);
    let do_overlap = start <= last && first <= end;
    if !do_overlap || does_cover(objects, number, inner) || does_cover(objects, inner, number) {
        return;
    }
    if let (Some(region), Some(object)) = (objects.get(number), objects.get(inner)) {
        let (name, of) = (object.name.as_str(), region.name.as_str());
        let told = format_args!(
            "{name} is in the physical memory of {of}, which does not cover it"
        );
        words.faults.say(object.spot, told);
    }
}
