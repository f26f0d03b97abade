//! The calls of the loader.
use cap_core::limits::MAX_RETYPE_COUNT;
use cap_core::{Guard, Kind, Rights};
use setup_layout::{Layout, Machine, Object, Slot};
use setup_places::{FIRST_REGION_SLOT, Places, Source};
use std::alloc::{AllocError, Global};
use std::fmt::Write;

/// The root CNode's own slot, and the loader's.
const ROOT_SLOT: u64 = 1;

const LOADER_SLOT: u64 = 2;

/// The calls of the loader as tables of a set-up, one a line.
#[derive(Drop)]
pub struct Calls<'a> {
    layout: &'a Layout,
    places: &'a Places,
    machine: Machine,
    /// The slot of the loader in which each object's first capability is made.
    loader_slots: Vec<u64>,
    /// The slots that take that capability from the loader.
    originals: Vec<bool>,
    /// The slot from which a slot is copied, where that is not the loader's.
    sources: Vec<Option<usize>>,
    pub text: String,
    pub count: usize,
}

/// The letters of the rights of an endpoint's capability.
fn rights_word(alloc: Global, rights: Rights) -> Result<String, AllocError> {
    let mut word = String::new(alloc);
    for (letter, bit) in [('W', 1), ('R', 2), ('G', 4), ('P', 8)] {
        if rights.0 & bit != 0 {
            word.push(letter)?;
        }
    }
    Ok(word)
}

/// What an operation says of the kind that a retype makes.
fn kind_number(kind: Kind) -> u64 {
    match kind {
        Kind::Untyped => 0,
        Kind::Tcb => 1,
        Kind::Endpoint => 2,
        Kind::CNode => 4,
    }
}

/// The kind of an object, by its place among these; none if there is no such object.
fn kind_at(objects: &[Object], number: usize) -> Option<Kind> {
    Some(objects.get(number)?.kind)
}

/// Adds the name of a slot.
fn add_place(out: &mut String, holder: &Object, slot: &Slot) -> Result<(), AllocError> {
    let (name, index) = (holder.name.as_str(), slot.index);
    match holder.kind {
        Kind::Tcb => write!(out, "{name} cspace"),
        _ => write!(out, "{name}[{index}]"),
    }
}

/// Adds the capability of a slot, as the layout has it.
fn add_held(
    alloc: Global,
    out: &mut String,
    object: &Object,
    slot: &Slot,
) -> Result<(), AllocError> {
    let (name, badge) = (object.name.as_str(), slot.badge);
    let Guard { value, size } = slot.guard;
    match object.kind {
        Kind::Endpoint => {
            let rights = rights_word(alloc, slot.rights)?;
            if badge > 0 {
                write!(out, " = {name} ({rights}, badge: {badge})")
            } else {
                write!(out, " = {name} ({rights})")
            }
        }
        Kind::CNode if size > 0 => { write!(out, " = {name} (guard: {value}, guard_size: {size})") }
        _ => write!(out, " = {name}"),
    }
}

impl<'a> Calls<'a> {
    /// No call yet.
    pub fn new(
        alloc: Global,
        layout: &'a Layout,
        places: &'a Places,
    ) -> Result<Calls<'a>, AllocError> {
        let mut calls = Calls {
            layout,
            places,
            machine: Machine::of(layout.profile),
            loader_slots: vec![in alloc; 0; layout.objects.len()]?,
            originals: vec![in alloc; false; layout.slots.len()]?,
            sources: vec![in alloc; None; layout.slots.len()]?,
            text: String::new(alloc),
            count: 0,
        };
        calls.number_slots();
        calls.choose_sources();
        Ok(calls)
    }

    /// The slot of the loader for each object, in the order in which they are made.
    fn number_slots(&mut self) {
        let first = FIRST_REGION_SLOT.saturating_add(self.places.regions.len() as u64);
        for (rank, number) in self.places.order.as_slice().iter().enumerate() {
            if let Some(slot) = self.loader_slots.get_mut(*number) {
                *slot = first.saturating_add(rank as u64);
            }
        }
    }

    /// The slots that take a capability from the loader: each of an untyped region, and each without a badge that has others below
    /// it. What stands below a badge is copied from there.
    fn choose_sources(&mut self) {
        let objects = self.layout.objects.as_slice();
        for (number, slot) in self.layout.slots.as_slice().iter().enumerate() {
            let kind = kind_at(objects, slot.object);
            if let Some(original) = self.originals.get_mut(number) {
                *original = kind == Some(Kind::Untyped);
            }
        }
        for (above, below) in self.layout.derived.as_slice() {
            let badge = match self.layout.slots.get(*above) {
                Some(slot) => slot.badge,
                None => 0,
            };
            if badge == 0 {
                if let Some(original) = self.originals.get_mut(*above) {
                    *original = true;
                }
            } else if let Some(source) = self.sources.get_mut(*below) {
                *source = Some(*above);
            }
        }
    }

    /// The loader's slot of an object.
    fn loader_slot(&self, object: usize) -> u64 {
        self.loader_slots.get(object).copied().unwrap_or(0)
    }

    /// Begins a call.
    fn begin(&mut self, op: &str) -> Result<(), AllocError> {
        self.count = self.count.saturating_add(1);
        write!(&mut self.text, "    {{ thread = \"@loader\", op = \"{op}\"")
    }

    /// Adds a key of a call. A number that TOML does not have is a text.
    fn key(&mut self, key: &str, value: u64) -> Result<(), AllocError> {
        if value > i64::MAX as u64 {
            write!(&mut self.text, ", {key} = \"0x{value:x}\"")
        } else {
            write!(&mut self.text, ", {key} = {value}")
        }
    }

    /// Ends a call. A comment behind it has a line of the layout, and what that says.
    fn end(&mut self, line: usize, what: &str) -> Result<(), AllocError> {
        writeln!(&mut self.text, ", expect = \"done\" }},  # {line}: {what}")
    }

    /// Whether an object is made by the same call as the one before it, so many of which it makes already.
    fn goes_on(&self, before: usize, next: usize, count: u64) -> bool {
        let (Some(one), Some(other)) = (
            self.layout.objects.get(before),
            self.layout.objects.get(next),
        ) else {
            return false;
        };
        let sources = self.places.sources.as_slice();
        let is_same_source = match (sources.get(before), sources.get(next)) {
            (Some(Source::Region(region)), Some(Source::Region(behind))) => region == behind,
            (Some(Source::Cover(cover)), Some(Source::Cover(behind))) => cover == behind,
            _ => false,
        };
        count < MAX_RETYPE_COUNT
            && is_same_source
            && one.kind == other.kind
            && one.bits == other.bits
            && u64::from(one.place).saturating_add(self.machine.size(one)) == u64::from(other.place)
    }

    /// Adds a retype that makes some objects, of which the first and the last are these.
    fn retype(
        &mut self,
        alloc: Global,
        object: &Object,
        last: &Object,
        number: usize,
        count: u64,
    ) -> Result<(), AllocError> {
        let source = match self.places.sources.get(number) {
            Some(Source::Cover(cover)) => self.loader_slot(*cover),
            Some(Source::Region(region)) => FIRST_REGION_SLOT.saturating_add(*region as u64),
            None => 0,
        };
        let what = match count {
            1 => format!(in alloc; "{}", object.name)?,
            _ => format!(in alloc; "{} .. {}", object.name, last.name)?,
        };
        self.begin("retype")?;
        self.key("cap", source)?;
        self.key("kind", kind_number(object.kind))?;
        if matches!(object.kind, Kind::Untyped | Kind::CNode) {
            self.key("size_bits", u64::from(object.bits))?;
        }
        self.key("root", ROOT_SLOT)?;
        self.key("offset", self.loader_slot(number))?;
        self.key("count", count)?;
        self.end(object.spot.line, what.as_str())
    }

    /// Adds the calls that make the objects.
    pub fn add_retypes(&mut self, alloc: Global) -> Result<(), AllocError> {
        let (layout, places) = (self.layout, self.places);
        let order = places.order.as_slice();
        let mut first = order.first().copied();
        let mut count = 0u64;
        for (rank, number) in order.iter().enumerate() {
            count = count.saturating_add(1);
            let next = order.get(rank.saturating_add(1)).copied();
            let goes_on = match next {
                Some(next) => self.goes_on(*number, next, count),
                None => false,
            };
            if goes_on {
                continue;
            }
            if let (Some(begin), Some(last)) = (first, layout.objects.get(*number)) {
                if let Some(object) = layout.objects.get(begin) {
                    self.retype(alloc, object, last, begin, count)?;
                }
            }
            first = next;
            count = 0;
        }
        Ok(())
    }

    /// What a comment says of a slot.
    fn what(&self, alloc: Global, slot: &Slot) -> Result<String, AllocError> {
        let objects = self.layout.objects.as_slice();
        let mut out = String::new(alloc);
        if let (Some(holder), Some(object)) = (objects.get(slot.holder), objects.get(slot.object)) {
            add_place(&mut out, holder, slot)?;
            add_held(alloc, &mut out, object, slot)?;
        }
        Ok(out)
    }

    /// The word that sets a guard.
    fn guard_word(&self, guard: Guard) -> u64 {
        let value = guard
            .value
            .checked_shl(self.machine.guard_size_bits)
            .unwrap_or(0);
        value | u64::from(guard.size)
    }

    /// Adds the call that sets the space of a thread.
    fn add_space(&mut self, alloc: Global, slot: &Slot) -> Result<(), AllocError> {
        let what = self.what(alloc, slot)?;
        self.begin("set_space")?;
        self.key("cap", self.loader_slot(slot.holder))?;
        self.key("root", self.loader_slot(slot.object))?;
        self.key("word", self.guard_word(slot.guard))?;
        self.end(slot.line, what.as_str())
    }

    /// The radix of a CNode.
    fn radix(&self, object: usize) -> u64 {
        match self.layout.objects.get(object) {
            Some(object) => u64::from(object.bits),
            None => 0,
        }
    }

    /// Adds the keys of the slot that a call fills, and of the one from which it does.
    fn add_slots(&mut self, slot: &Slot, source: Option<usize>) -> Result<(), AllocError> {
        let layout = self.layout;
        let depth = self.radix(slot.holder);
        let above = match source {
            Some(source) => layout.slots.get(source),
            None => None,
        };
        self.key("cap", self.loader_slot(slot.holder))?;
        self.key("index", u64::from(slot.index))?;
        self.key("depth", depth)?;
        match above {
            None => {
                self.key("src_root", ROOT_SLOT)?;
                self.key("src_index", self.loader_slot(slot.object))
            }
            Some(above) => {
                self.key("src_root", self.loader_slot(above.holder))?;
                self.key("src_index", u64::from(above.index))?;
                self.key("src_depth", self.radix(above.holder))
            }
        }
    }

    /// Adds the call that fills a slot with a copy, from the loader's slot or from another one.
    fn add_copy(
        &mut self,
        alloc: Global,
        slot: &Slot,
        source: Option<usize>,
    ) -> Result<(), AllocError> {
        let kind = kind_at(self.layout.objects.as_slice(), slot.object);
        let word = match kind {
            Some(Kind::Endpoint) if source.is_none() => slot.badge,
            Some(Kind::CNode) => self.guard_word(slot.guard),
            _ => 0,
        };
        let what = self.what(alloc, slot)?;
        self.begin(if word > 0 { "mint" } else { "copy" })?;
        self.add_slots(slot, source)?;
        if kind == Some(Kind::Endpoint) {
            self.key("rights", u64::from(slot.rights.0))?;
        }
        if word > 0 {
            self.key("word", word)?;
        }
        self.end(slot.line, what.as_str())
    }

    /// Adds the call that moves the loader's capability to a slot.
    fn add_move(&mut self, alloc: Global, slot: &Slot) -> Result<(), AllocError> {
        let what = self.what(alloc, slot)?;
        self.begin("move")?;
        self.add_slots(slot, None)?;
        self.end(slot.line, what.as_str())
    }

    /// Adds the calls that set the spaces of the threads.
    pub fn add_spaces(&mut self, alloc: Global) -> Result<(), AllocError> {
        let layout = self.layout;
        for slot in layout.slots.as_slice() {
            let holder = kind_at(layout.objects.as_slice(), slot.holder);
            if holder == Some(Kind::Tcb) {
                self.add_space(alloc, slot)?;
            }
        }
        Ok(())
    }

    /// Adds the calls that fill the slots by copies: those from the loader's slots, and then those from others.
    pub fn add_copies(&mut self, alloc: Global, from_others: bool) -> Result<(), AllocError> {
        let layout = self.layout;
        for (number, slot) in layout.slots.as_slice().iter().enumerate() {
            let is_original = self.originals.get(number).copied().unwrap_or(false);
            let source = self.sources.get(number).copied().unwrap_or(None);
            let holder = kind_at(layout.objects.as_slice(), slot.holder);
            if !is_original && source.is_some() == from_others && holder == Some(Kind::CNode) {
                self.add_copy(alloc, slot, source)?;
            }
        }
        Ok(())
    }

    /// Adds the calls that make the threads ready.
    pub fn add_resumes(&mut self) -> Result<(), AllocError> {
        let layout = self.layout;
        for (number, object) in layout.objects.as_slice().iter().enumerate() {
            if object.kind == Kind::Tcb && !object.is_inactive {
                self.begin("resume")?;
                self.key("cap", self.loader_slot(number))?;
                self.end(object.spot.line, object.name.as_str())?;
            }
        }
        Ok(())
    }

    /// Adds the calls that move what is no copy: those of CNodes, by which the slots are named, or the others.
    pub fn add_moves(&mut self, alloc: Global, cnodes: bool) -> Result<(), AllocError> {
        let layout = self.layout;
        for (number, slot) in layout.slots.as_slice().iter().enumerate() {
            let is_original = self.originals.get(number).copied().unwrap_or(false);
            let kind = kind_at(layout.objects.as_slice(), slot.object);
            if is_original && (kind == Some(Kind::CNode)) == cnodes {
                self.add_move(alloc, slot)?;
            }
        }
        Ok(())
    }

    /// Adds the call by which the loader makes no more.
    pub fn add_suspend(&mut self) -> Result<(), AllocError> {
        self.begin("suspend")?;
        self.key("cap", LOADER_SLOT)?;
        writeln!(
            &mut self.text,
            ", expect = \"done\" }},  # the loader is done"
        )
    }
}
