//! The objects that a layout declares.
use crate::fault::Topic;
use crate::hardware::{Device, Hardware};
use crate::kinds::{
    HARDWARE_WORDS, INTERRUPT_WORDS, KIND_WORDS, KINDS, RIGHTS_WORDS, SAY_NO_PLACE, SLOT_WORDS,
    place_of,
};
use crate::layout::{OTHER_BITS, Object, Reading};
use crate::scanner::{Spot, Token};
use crate::words::{Reference, Words};
use cap_core::{Kind, ProfileName};
use std::alloc::{AllocError, Global};
use std::collections::HashMap;

/// The most objects of a layout: as many of the smallest, an endpoint, have room in the largest memory.
const MOST_OBJECTS: u64 = 1 << 16;

/// The sizes of CNodes.
const CNODE_BITS: (u64, u64) = (1, 14);

/// The sizes of untyped regions.
const UNTYPED_BITS: (u64, u64) = (4, 19);

/// What is declared in one place of the text.
#[derive(Clone, Copy)]
pub struct Declared<'a> {
    name: Token<'a>,
    /// How many there are; none of a single one.
    pub count: Option<u64>,
    kind: Token<'a>,
    bits: Option<u64>,
    is_inactive: bool,
    /// What of the hardware it stands for.
    device: Device,
    /// The untyped region that covers them, by its place among the objects.
    cover: Option<usize>,
    /// The kind, by its place in the list of kinds.
    number: Option<usize>,
    /// The first of the objects, by its place among them, where a set-up has such.
    first: Option<usize>,
}

/// The objects of a kind that are left out: where the first stands, how many they are, and how many capabilities of them.
#[derive(Clone, Copy)]
struct LeftOut {
    spot: Spot,
    objects: u64,
    caps: u64,
}

/// What a name of the text means.
#[derive(Clone, Copy)]
pub enum Found {
    /// An object of a set-up, by its place among the objects.
    Kept(usize),
    /// An object of another kind, by the place of that kind.
    LeftOut(usize),
    /// It is not declared.
    Unknown,
}

/// The objects of a layout, and their names.
#[derive(Drop)]
pub struct Objects<'a> {
    pub profile: ProfileName,
    pub reading: Reading,
    numbers: HashMap<&'a str, usize>,
    names: Vec<&'a str>,
    declared: Vec<Declared<'a>>,
    /// Which region covers an object that is declared elsewhere.
    covers: Vec<(Option<usize>, Reference<'a>)>,
    /// What is left out, by the places of the kinds.
    left_out: Vec<Option<LeftOut>>,
    pub objects: Vec<Object>,
    /// Which objects of other names are one, as far as they are read.
    pub hardware: Hardware<'a>,
}

/// Whether a parameter of this name may say where in the hardware an object of this kind stands.
fn may_say_place(kind: &str, parameter: &str) -> bool {
    HARDWARE_WORDS.contains(&kind) && !SAY_NO_PLACE.contains(&parameter)
}

/// Whether an untyped region covers any object.
fn covers_any(objects: &[Object], region: usize) -> bool {
    for object in objects {
        if object.cover == Some(region) {
            return true;
        }
    }
    false
}

impl<'a> Objects<'a> {
    /// Nothing is declared yet.
    pub fn new(alloc: Global, reading: Reading) -> Result<Objects<'a>, AllocError> {
        Ok(Objects {
            profile: ProfileName::Wide,
            reading,
            numbers: HashMap::new(alloc),
            names: Vec::new(alloc),
            declared: Vec::new(alloc),
            covers: Vec::new(alloc),
            left_out: vec![in alloc; None; KIND_WORDS.len()]?,
            objects: Vec::new(alloc),
            hardware: Hardware::new(alloc),
        })
    }

    /// Reads the section of the objects.
    pub fn read(&mut self, words: &mut Words<'a>) -> Result<(), AllocError> {
        words.need("{");
        let mut open = Vec::new(words.alloc);
        let mut cover = None;
        for _object in 0..words.left() {
            if !words.goes_on() {
                return Ok(());
            }
            if words.has("}") {
                match open.pop() {
                    None => return Ok(()),
                    Some(outer) => cover = outer,
                }
            } else if !words.has(",") {
                let object = words.reference();
                if !open.is_empty() && !words.token.is("=") {
                    self.covers.push((cover, object))?;
                } else if self.read_object(words, object, cover)? {
                    open.push(cover)?;
                    cover = match self.declared.last() {
                        Some(declared) => declared.first,
                        None => None,
                    };
                }
            }
        }
        Ok(())
    }

    /// Reads what is said of objects behind their names, and answers whether what they cover follows.
    fn read_object(
        &mut self,
        words: &mut Words<'a>,
        object: Reference<'a>,
        cover: Option<usize>,
    ) -> Result<bool, AllocError> {
        words.need("=");
        let kind = words.name("a kind of object");
        let mut declared = Declared {
            name: object.name,
            count: object.index,
            kind,
            bits: None,
            is_inactive: false,
            device: Device::none(),
            cover,
            number: place_of(&KIND_WORDS, kind.text),
            first: None,
        };
        for parameter in words.parameters()?.as_slice() {
            let [first, second, third] = parameter.front();
            if parameter.count == 2 && second.is("bits") {
                declared.bits = first.number();
            }
            if !declared.device.read(parameter) {
                self.say_unknown_parameter(words, declared, first);
            }
            if parameter.count == 3 && first.is("resume") {
                declared.is_inactive = third.is("false") || third.is("False") || third.is("0");
            }
        }
        if !words.is_broken {
            self.declare(words, declared)?;
        }
        if kind.is("ut") {
            return Ok(words.has("{"));
        }
        if words.token.is("{") {
            let name = object.name.text;
            let told = format_args!("what stands in braces behind {name} is left out");
            words.gaps.say(words.token.spot, told);
            words.skip_block();
        }
        Ok(false)
    }

    /// Says that a parameter is not known that may say where in the hardware an object stands.
    fn say_unknown_parameter(
        &self,
        words: &mut Words<'a>,
        declared: Declared<'a>,
        parameter: Token<'a>,
    ) {
        let (name, kind, text) = (declared.name.text, declared.kind.text, parameter.text);
        if !may_say_place(kind, text) {
            return;
        }
        if self.reading.flows || kind == "ut" {
            let told = format_args!("the parameter {text} of {name} is left out");
            words.gaps.say(parameter.spot, told);
        } else {
            let told = format_args!("the parameter {text} of {name} is not known");
            words.notes.say_on(Topic::Parameter, parameter.spot, told);
        }
    }

    /// Adds the objects of one place of the text.
    fn declare(&mut self, words: &mut Words<'a>, declared: Declared<'a>) -> Result<(), AllocError> {
        let (name, at, word) = (declared.name.text, declared.name.spot, declared.kind.text);
        if let Some(first) = self.declared_as(name) {
            let line = first.name.spot.line;
            let told = format_args!("{name} is declared twice, first in line {line}");
            words.faults.say(at, told);
        }
        let mut declared = declared;
        self.numbers.insert(name, self.declared.len())?;
        self.names.push(name)?;
        match declared.number {
            None => {
                let hint = words.faults.hint(word, &KIND_WORDS);
                let told = format_args!("there is no kind of object {word}{hint}");
                words.faults.say(declared.kind.spot, told);
            }
            Some(number) => match KINDS.get(number) {
                Some(kind) => {
                    declared.first = Some(self.objects.len());
                    self.add_kept(words, declared, *kind)?;
                }
                None if self.reading.flows => {
                    declared.first = Some(self.objects.len());
                    self.add_kept(words, declared, Kind::Endpoint)?;
                }
                None => {
                    self.leave_out(number, at, declared.count.unwrap_or(1), 0);
                    if declared.cover.is_some() {
                        let told = format_args!(
                            "{name}, which an untyped region covers, is left out"
                        );
                        words.notes.say_on(Topic::Covered, at, told);
                    }
                }
            },
        }
        self.declared.push(declared)?;
        Ok(())
    }

    /// Counts objects of a kind that is left out, of which one stands here, and capabilities of such objects.
    pub fn leave_out(&mut self, kind: usize, spot: Spot, objects: u64, caps: u64) {
        if let Some(entry) = self.left_out.get_mut(kind) {
            let mut left_out = entry.unwrap_or(LeftOut {
                spot,
                objects: 0,
                caps: 0,
            });
            left_out.objects = left_out.objects.saturating_add(objects);
            left_out.caps = left_out.caps.saturating_add(caps);
            *entry = Some(left_out);
        }
    }

    /// Adds the objects of one place of the text, of a kind that a kernel has.
    fn add_kept(
        &mut self,
        words: &mut Words<'a>,
        declared: Declared<'a>,
        kind: Kind,
    ) -> Result<(), AllocError> {
        let (name, spot) = (declared.name.text, declared.name.spot);
        let count = declared.count.unwrap_or(1);
        if count > MOST_OBJECTS.saturating_sub(self.objects.len() as u64) {
            let told = format_args!("{name}: a layout has {MOST_OBJECTS} objects at most");
            words.faults.say(spot, told);
            return Ok(());
        }
        let bits = match kind {
            Kind::CNode | Kind::Untyped => declared.bits.unwrap_or(CNODE_BITS.1).min(64) as u32,
            Kind::Endpoint if !declared.kind.is("ep") => OTHER_BITS,
            Kind::Tcb | Kind::Endpoint => 0,
        };
        for number in 0..count {
            let (object, kind_word) = (self.objects.len(), declared.kind.text);
            self.hardware
                .add(declared.device, kind_word, number, object)?;
            let name = match declared.count {
                None => String::from_str(words.alloc, name)?,
                Some(_) => format!(in words.alloc; "{name}[{number}]")?,
            };
            self.objects.push(Object {
                name,
                kind,
                bits,
                cover: declared.cover,
                is_inactive: declared.is_inactive,
                spot,
                place: 0,
            })?;
        }
        Ok(())
    }

    /// What a name means.
    pub fn find(&self, object: Reference<'a>) -> Found {
        let Some(declared) = self.declared_as(object.name.text) else {
            return Found::Unknown;
        };
        let offset = match (declared.count, object.index) {
            (None, None) => 0,
            (Some(count), Some(index)) if index < count => index,
            _ => return Found::Unknown,
        };
        match (declared.first, declared.number) {
            (Some(first), _) => {
                let number = first.saturating_add(offset as usize);
                Found::Kept(self.hardware.one_of(number))
            }
            (None, kind) => Found::LeftOut(kind.unwrap_or(KIND_WORDS.len())),
        }
    }

    /// The number of a slot of an object, by its place among the objects: those of a thread have names.
    pub fn slot_number(&self, object: usize, slot: Token<'a>) -> Option<u64> {
        let is_thread = match self.objects.get(object) {
            Some(object) => object.kind == Kind::Tcb,
            None => false,
        };
        match place_of(&SLOT_WORDS, slot.text) {
            Some(place) if is_thread => Some(place as u64),
            _ => slot.number(),
        }
    }

    /// Whether an object, by its place among the objects, is of a kind that no kernel here has.
    pub fn only_counts(&self, number: usize) -> bool {
        match self.objects.get(number) {
            Some(object) => object.bits == OTHER_BITS,
            None => false,
        }
    }

    /// The word for the kind of the objects of a name; none where it is not declared.
    fn kind_of(&self, object: Reference<'a>) -> &'a str {
        match self.declared_as(object.name.text) {
            Some(declared) => declared.kind.text,
            None => "",
        }
    }

    /// Whether a capability of an object has rights that are to be said: not one by which an interrupt signals.
    pub fn needs_rights(&self, object: Reference<'a>, holder: Reference<'a>) -> bool {
        RIGHTS_WORDS.contains(&self.kind_of(object))
            && !INTERRUPT_WORDS.contains(&self.kind_of(holder))
    }

    /// What is declared by a name.
    pub fn declared_as(&self, name: &str) -> Option<&Declared<'a>> {
        let number = self.numbers.get(name)?;
        self.declared.get(*number)
    }

    /// Says that no object has a name.
    pub fn say_unknown(&self, words: &mut Words<'a>, object: Reference<'a>) {
        let Token { text, spot, .. } = object.name;
        let Some(declared) = self.declared_as(text) else {
            let hint = words.faults.hint(text, self.names.as_slice());
            let told = format_args!("there is no object {text}{hint}");
            words.faults.say(spot, told);
            return;
        };
        match declared.count {
            Some(count) => words.faults.say(
                spot,
                format_args!(
                    "there are {count} objects {text}: a number in brackets has to be below that"
                ),
            ),
            None => words.faults.say(
                spot,
                format_args!("{text} is a single object, and takes no number"),
            ),
        }
    }

    /// Has untyped regions cover the objects that are declared elsewhere, and checks the sizes.
    pub fn finish(&mut self, words: &mut Words<'a>) -> Result<(), AllocError> {
        for number in 0..self.covers.len() {
            if let Some((region, object)) = self.covers.get(number).copied() {
                match self.find(object) {
                    Found::Kept(number) => {
                        if let Some(object) = self.objects.get_mut(number) {
                            object.cover = region;
                        }
                    }
                    Found::LeftOut(_) => {}
                    Found::Unknown => self.say_unknown(words, object),
                }
            }
        }
        self.check_sizes(words);
        if self.reading.flows {
            self.join_devices(words)?;
        }
        Ok(())
    }

    /// Makes one object of those that stand for one part of the hardware: stretches of memory or of ports that overlap, and an
    /// interrupt with what signals it.
    fn join_devices(&mut self, words: &mut Words<'a>) -> Result<(), AllocError> {
        for number in 0..self.hardware.signals.len() {
            let Some((signal, interrupt)) = self.hardware.signals.get(number).copied() else {
                continue;
            };
            let Some(object) = self.hardware.interrupts.get(&interrupt).copied() else {
                self.say_no_interrupt(words, signal, interrupt);
                continue;
            };
            match self.find(object) {
                Found::Kept(object) => self.hardware.join(signal, object)?,
                Found::LeftOut(_) => {}
                Found::Unknown => self.say_unknown(words, object),
            }
        }
        self.hardware.join_spans(words, self.objects.as_slice())
    }

    /// Says that `irq maps` has no interrupt of the number that a software interrupt has.
    fn say_no_interrupt(&self, words: &mut Words<'a>, signal: usize, interrupt: u64) {
        if let Some(object) = self.objects.get(signal) {
            let name = object.name.as_str();
            let told = format_args!("irq maps has no interrupt {interrupt}, which {name} signals");
            words.gaps.say(object.spot, told);
        }
    }

    /// Checks the sizes of CNodes and untyped regions.
    fn check_sizes(&mut self, words: &mut Words<'a>) {
        for number in 0..self.declared.len() {
            let Some(declared) = self.declared.get(number).copied() else {
                continue;
            };
            let (name, spot, kind) = (declared.name.text, declared.name.spot, declared.kind.text);
            let ((least, most), hint) = match kind {
                "cnode" => (CNODE_BITS, ""),
                "ut" => (UNTYPED_BITS, "; --shrink 12 cuts those that cover nothing"),
                _ => continue,
            };
            let Some(first) = declared.first else {
                continue;
            };
            if declared.bits.is_none() {
                let told = format_args!("{name}: a {kind} has a size, as in ({least} bits)");
                words.faults.say(spot, told);
                continue;
            }
            self.cut(words, declared, first);
            let bits = match self.objects.get(first) {
                Some(object) => u64::from(object.bits),
                None => least,
            };
            if bits < least || bits > most {
                let told = format_args!("{name}: a {kind} has {least} to {most} bits here{hint}");
                words.faults.say(spot, told);
            }
        }
    }

    /// Cuts the untyped regions of one place of the text that cover nothing, where it is asked for.
    fn cut(&mut self, words: &mut Words<'a>, declared: Declared<'a>, first: usize) {
        let Some(most) = self.reading.shrink else {
            return;
        };
        let Token { text, spot, .. } = declared.name;
        for offset in 0..declared.count.unwrap_or(1).min(MOST_OBJECTS) {
            let number = first.saturating_add(offset as usize);
            let is_cover = covers_any(self.objects.as_slice(), number);
            if let Some(object) = self.objects.get_mut(number) {
                let bits = object.bits;
                if !is_cover && object.kind == Kind::Untyped && u64::from(bits) > most {
                    object.bits = most.min(64) as u32;
                    let told = format_args!("{text}: {most} bits in place of {bits}");
                    words.notes.say_on(Topic::Cut, spot, told);
                }
            }
        }
    }

    /// Says which kinds of object are left out, and how many of each.
    pub fn say_left_out(&self, words: &mut Words<'a>) {
        for (kind, left_out) in KIND_WORDS.iter().zip(self.left_out.as_slice()) {
            if let Some(
                LeftOut {
                    spot,
                    objects,
                    caps,
                },
            ) = *left_out
            {
                let told = format_args!(
                    "{objects} of the kind {kind} left out, with {caps} capabilities of them"
                );
                words.gaps.say(spot, told);
            }
        }
    }
}
