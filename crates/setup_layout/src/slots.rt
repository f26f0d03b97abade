//! The slots of a layout, and the capabilities in them.
use crate::derived::{Node, read_node};
use crate::fault::Topic;
use crate::kinds::{BUILT_IN, SLOT_WORDS, kind_word, place_of};
use crate::layout::{OTHER_BITS, Object, Slot};
use crate::machine::Machine;
use crate::objects::{Found, Objects};
use crate::scanner::{Token, TokenKind};
use crate::words::{Reference, Words};
use cap_core::{Guard, Kind, Rights};
use std::alloc::{AllocError, Global};
use std::collections::HashMap;

/// The most full slots of a layout: as many have room in the largest memory.
const MOST_SLOTS: usize = 1 << 16;

/// The parameters of capabilities that say nothing of what a set-up has.
#[rattlefmt::skip]
const READ_OVER: [&str; 7] = [
    "uncached", "cached", "mapping", "asid", "ports", "reply", "master_reply",
];

/// What a capability allows, as it is written.
#[derive(Clone, Copy)]
struct CapText<'a> {
    rights: Option<u8>,
    badge: u64,
    guard: u64,
    guard_size: u64,
    /// A parameter that is not known.
    unknown: Option<Token<'a>>,
}

/// The capabilities of some slots, as they are written.
#[derive(Clone, Copy)]
pub struct SlotText<'a> {
    /// The first of the objects that have such slots, and how many they are.
    pub holder: Reference<'a>,
    holders: u64,
    /// Where the slot begins in the text.
    pub at: Token<'a>,
    /// The first and the last of the slots; none of a thread's slot, which has a name.
    numbers: Option<(u64, u64)>,
    pub own_name: Option<Token<'a>>,
    /// Whether it is copied from the capability of a name, and not one of an object.
    is_copy: bool,
    /// The object, or the first of several; or the name of the capability.
    object: Reference<'a>,
    /// How many objects; none for all of a name.
    count: Option<u64>,
    cap: CapText<'a>,
    /// The slot from which it is derived, where that is said beside it.
    pub parent: Option<Node<'a>>,
}

/// The object that holds a slot, by its place among the objects.
#[derive(Clone, Copy)]
struct Holder {
    number: usize,
    kind: Kind,
    bits: u32,
    line: usize,
}

/// The slots of a layout, and where those stand that have a name or are named by their place.
#[derive(Drop)]
pub struct Slots<'a> {
    pub texts: Vec<SlotText<'a>>,
    pub slots: Vec<Slot>,
    /// The place of a slot among the slots, by its holder and its number.
    pub places: HashMap<(usize, u64), usize>,
    /// The same, by the name of its capability.
    pub named: HashMap<&'a str, usize>,
    /// The names of capabilities that are left out, and the slots of such, by their holders and numbers.
    pub left_out: HashMap<&'a str, bool>,
    pub emptied: HashMap<(usize, u64), bool>,
    /// Whether there is a capability that has all rights, since the text says none.
    pub are_rights_assumed: bool,
}

/// The bits of the rights that letters mean; none where one means none. An endpoint has no right to execute.
fn rights_of(letters: &str) -> Option<u8> {
    let mut rights = 0;
    for letter in letters.bytes() {
        rights |= match letter {
            b'W' => 1,
            b'R' => 2,
            b'G' => 4,
            b'P' => 8,
            b'X' => 0,
            _ => return None,
        };
    }
    Some(rights)
}

/// The rights that both allow; those of the one where the other is not said.
fn both_rights(one: Option<u8>, other: Option<u8>) -> Option<u8> {
    match (one, other) {
        (Some(one), Some(other)) => Some(one & other),
        (one, other) => one.or(other),
    }
}

/// Reads what a capability allows.
fn read_cap<'a>(words: &mut Words<'a>) -> Result<CapText<'a>, AllocError> {
    let mut cap = CapText {
        rights: None,
        badge: 0,
        guard: 0,
        guard_size: 0,
        unknown: None,
    };
    for parameter in words.parameters()?.as_slice() {
        let [first, second, third] = parameter.front();
        let is_valued = parameter.count == 3 && second.is(":");
        let number = if is_valued { third.number() } else { None };
        let rights = match parameter.count {
            1 => rights_of(first.text),
            3 if is_valued && first.is("masked") => rights_of(third.text),
            _ => None,
        };
        match (first.text, number) {
            ("badge", Some(number)) => cap.badge = number,
            ("guard", Some(number)) => cap.guard = number,
            ("guard_size", Some(number)) => cap.guard_size = number,
            (word, _) if READ_OVER.contains(&word) => {}
            _ if rights.is_some() => cap.rights = both_rights(cap.rights, rights),
            _ => cap.unknown = cap.unknown.or(Some(first)),
        }
    }
    Ok(cap)
}

/// Says that a parameter of a capability is not known that a set-up has: it is left out where the object only counts, and else a
/// fault.
fn say_unknown_parameter(words: &mut Words<'_>, slot: SlotText<'_>, is_fault: bool) {
    let Some(Token { text, spot, .. }) = slot.cap.unknown else {
        return;
    };
    if is_fault {
        words.faults.say(
            spot,
            format_args!(
                "there is no parameter {text} of a capability; there are letters of R, W, G, P and X, badge: N, guard: N, guard_size: N and masked: LETTERS"
            ),
        );
    } else {
        let name = slot.object.name.text;
        let told = format_args!("the parameter {text} of this capability of {name} is left out");
        words.gaps.say(spot, told);
    }
}

/// Says that a parameter of a capability that is left out is not known.
fn note_unknown_parameter(words: &mut Words<'_>, slot: SlotText<'_>) {
    if let Some(Token { text, spot, .. }) = slot.cap.unknown {
        let name = slot.object.name.text;
        let told = format_args!("the parameter {text} of this capability of {name} is not known");
        words.notes.say_on(Topic::Parameter, spot, told);
    }
}

/// Reads which of the objects of a name are meant: the number of the first, and how many they are.
fn read_chosen(words: &mut Words<'_>, line: usize) -> (Option<u64>, Option<u64>) {
    if words.token.spot.line != line || !words.has("[") {
        return (None, Some(1));
    }
    if words.has("]") {
        return (Some(0), None);
    }
    let (first, last) = words.range();
    let count = last.saturating_sub(first).saturating_add(1);
    (Some(first), Some(count))
}

/// Reads the name of a capability between `<` and `>`, behind the first of them.
fn read_copied<'a>(words: &mut Words<'a>) -> Token<'a> {
    let name = words.name("the name of a capability");
    words.need(">");
    name
}

/// Reads which capability a slot holds.
fn read_held<'a>(words: &mut Words<'a>, slot: &mut SlotText<'a>) -> Result<(), AllocError> {
    slot.is_copy = words.has("<");
    let mut name = if slot.is_copy {
        read_copied(words)
    } else {
        words.name("the name of an object")
    };
    if !slot.is_copy && words.has("=") {
        slot.own_name = Some(name);
        slot.is_copy = words.has("<");
        name = if slot.is_copy {
            read_copied(words)
        } else {
            words.name("the name of an object")
        };
    }
    let (index, count) = read_chosen(words, name.spot.line);
    slot.object = Reference { name, index };
    slot.count = count;
    slot.cap = read_cap(words)?;
    if words.has("-") {
        slot.parent = Some(read_node(words, None));
    }
    Ok(())
}

/// Reads a slot of an object, or of several.
fn read_slot<'a>(
    words: &mut Words<'a>,
    holder: Reference<'a>,
    holders: u64,
) -> Result<SlotText<'a>, AllocError> {
    let at = words.token;
    let numbers = if words.has("[") {
        Some(words.range())
    } else if at.kind == TokenKind::Name {
        words.advance();
        None
    } else {
        let number = words.number();
        Some((number, number))
    };
    words.need(":");
    let cap = CapText {
        rights: None,
        badge: 0,
        guard: 0,
        guard_size: 0,
        unknown: None,
    };
    let mut slot = SlotText {
        holder,
        holders,
        at,
        numbers,
        own_name: None,
        is_copy: false,
        object: holder,
        count: None,
        cap,
        parent: None,
    };
    read_held(words, &mut slot)?;
    Ok(slot)
}

/// A slot with a capability of an object, which has no badge and rights, or no guard, where its kind has none. Of an object that only
/// counts as an endpoint a capability without letters may be written to and read.
fn filled(slot: SlotText<'_>, holder: usize, place: u64, number: usize, object: &Object) -> Slot {
    let (mut badge, mut rights) = (0, Rights(0));
    let mut guard = Guard { value: 0, size: 0 };
    if object.kind == Kind::Endpoint {
        badge = slot.cap.badge;
        rights = match slot.cap.rights {
            Some(bits) => Rights(bits),
            None if object.bits == OTHER_BITS => Rights(3),
            None => Rights::ALL,
        };
    }
    if object.kind == Kind::CNode {
        guard.value = slot.cap.guard;
        guard.size = u32::try_from(slot.cap.guard_size).unwrap_or(u32::MAX);
    }
    Slot {
        holder,
        index: u32::try_from(place).unwrap_or(u32::MAX),
        object: number,
        badge,
        rights,
        guard,
        line: slot.at.spot.line,
    }
}

/// Reads the name of an object, or of several by their numbers, of which slots follow: the first, and how many they are.
fn read_holder<'a>(words: &mut Words<'a>) -> (Reference<'a>, u64) {
    let name = words.name("the name of an object");
    if !words.has("[") {
        return (Reference { name, index: None }, 1);
    }
    let (first, last) = words.range();
    let index = Some(first);
    (
        Reference { name, index },
        last.saturating_sub(first).saturating_add(1),
    )
}

impl<'a> Slots<'a> {
    /// No slot is read yet.
    pub fn new(alloc: Global) -> Slots<'a> {
        Slots {
            texts: Vec::new(alloc),
            slots: Vec::new(alloc),
            places: HashMap::new(alloc),
            named: HashMap::new(alloc),
            left_out: HashMap::new(alloc),
            emptied: HashMap::new(alloc),
            are_rights_assumed: false,
        }
    }

    /// The first slot with a capability of an object, by its place among the slots.
    pub fn first_of(&self, object: usize) -> Option<usize> {
        for (place, slot) in self.slots.as_slice().iter().enumerate() {
            if slot.object == object {
                return Some(place);
            }
        }
        None
    }

    /// Reads the section of the slots.
    pub fn read(&mut self, words: &mut Words<'a>) -> Result<(), AllocError> {
        words.need("{");
        let mut holder = None;
        for _slot in 0..words.left() {
            if !words.goes_on() {
                return Ok(());
            }
            match holder {
                None if words.has("}") => return Ok(()),
                None => {
                    holder = Some(read_holder(words));
                    words.need("{");
                }
                Some(_) if words.has("}") => holder = None,
                Some(_) if words.has(",") || words.has(";") => {}
                Some((object, count)) => {
                    let slot = read_slot(words, object, count)?;
                    self.texts.push(slot)?;
                }
            }
        }
        Ok(())
    }

    /// Fills the slots that the text tells: those that are copies of others behind these others.
    pub fn add_texts(
        &mut self,
        words: &mut Words<'a>,
        objects: &mut Objects<'a>,
    ) -> Result<(), AllocError> {
        for are_copies in [false, true] {
            for number in 0..self.texts.len() {
                let Some(slot) = self.texts.get(number).copied() else {
                    continue;
                };
                if slot.is_copy == are_copies {
                    self.add_of_holders(words, objects, slot)?;
                }
            }
        }
        Ok(())
    }

    /// Fills the slots that one place of the text tells, of one object or of several.
    fn add_of_holders(
        &mut self,
        words: &mut Words<'a>,
        objects: &mut Objects<'a>,
        slot: SlotText<'a>,
    ) -> Result<(), AllocError> {
        for number in 0..slot.holders {
            if words.faults.is_full() {
                break;
            }
            let mut holder = slot.holder;
            if let Some(index) = holder.index {
                holder.index = Some(index.saturating_add(number));
            }
            self.add_text(words, objects, SlotText { holder, ..slot })?;
        }
        Ok(())
    }

    /// Fills the slots that one place of the text tells, of one object.
    fn add_text(
        &mut self,
        words: &mut Words<'a>,
        objects: &mut Objects<'a>,
        slot: SlotText<'a>,
    ) -> Result<(), AllocError> {
        let (number, object) = match objects.find(slot.holder) {
            Found::Unknown => {
                objects.say_unknown(words, slot.holder);
                return Ok(());
            }
            Found::LeftOut(_) => {
                leave_out(words, objects, slot, None);
                return self.note_left_out(slot, None);
            }
            Found::Kept(number) => (number, objects.objects.get(number)),
        };
        let Some(object) = object else {
            return Ok(());
        };
        let (kind, bits, line) = (object.kind, object.bits, object.spot.line);
        let holder = Holder {
            number,
            kind,
            bits,
            line,
        };
        match (kind, slot.numbers) {
            (Kind::CNode, Some(numbers)) => self.add_numbered(
                words, objects, slot, holder, numbers,
            ),
            (Kind::Tcb, None) => self.add_named(words, objects, slot, holder),
            (Kind::Endpoint, Some(numbers)) if bits == OTHER_BITS => {
                self.add_numbered(words, objects, slot, holder, numbers)
            }
            _ => {
                say_misplaced(words, slot, kind);
                Ok(())
            }
        }
    }

    /// Fills the slot of a thread in which its space begins. Its other slots are left out.
    fn add_named(
        &mut self,
        words: &mut Words<'a>,
        objects: &mut Objects<'a>,
        slot: SlotText<'a>,
        holder: Holder,
    ) -> Result<(), AllocError> {
        let (word, spot) = (slot.at.text, slot.at.spot);
        match place_of(&SLOT_WORDS, word) {
            Some(place) if place == 0 || objects.reading.flows => {
                self.add(words, objects, slot, holder, place as u64, slot.object)
            }
            Some(place) => {
                leave_out(words, objects, slot, Some(word));
                self.note_left_out(slot, Some((holder.number, place as u64)))
            }
            None => {
                let hint = words.faults.hint(word, &SLOT_WORDS);
                let told = format_args!("a tcb has no slot {word}{hint}");
                words.faults.say(spot, told);
                Ok(())
            }
        }
    }

    /// Fills slots of a CNode.
    fn add_numbered(
        &mut self,
        words: &mut Words<'a>,
        objects: &mut Objects<'a>,
        slot: SlotText<'a>,
        holder: Holder,
        numbers: (u64, u64),
    ) -> Result<(), AllocError> {
        let ((first, last), name) = (numbers, slot.object.name.text);
        let all = match objects.declared_as(name) {
            Some(declared) => declared.count.unwrap_or(0),
            None => 0,
        };
        let most = slot.count.unwrap_or(all);
        let slots = last.saturating_sub(first).saturating_add(1);
        let count = if slots == 1 { most } else { slots };
        if last < first || most > 1 && count != most {
            let told = format_args!("these are {slots} slots, and {most} objects");
            words.faults.say(slot.at.spot, told);
            return Ok(());
        }
        for number in 0..count {
            let place = first.saturating_add(number);
            if words.faults.is_full() {
                return Ok(());
            }
            if place >> holder.bits.min(63) > 0 {
                let (name, line) = (slot.holder.name.text, holder.line);
                let size = 1u64 << holder.bits.min(63);
                words.faults.say(
                    slot.at.spot,
                    format_args!(
                        "{name} has {size} slots, from 0 on, and this is slot {place}; make it larger in line {line}"
                    ),
                );
                return Ok(());
            }
            let mut object = slot.object;
            if most > 1 {
                let from = object.index.unwrap_or(0);
                object.index = Some(from.saturating_add(number));
            }
            self.add(words, objects, slot, holder, place, object)?;
        }
        Ok(())
    }

    /// Notes that the capability of a slot is left out, also by its name, if it has one.
    fn note_left_out(
        &mut self,
        slot: SlotText<'a>,
        key: Option<(usize, u64)>,
    ) -> Result<(), AllocError> {
        if let Some(name) = slot.own_name {
            self.left_out.insert(name.text, true)?;
        }
        if let Some(key) = key {
            self.emptied.insert(key, true)?;
        }
        Ok(())
    }

    /// Fills one slot with a copy of the capability of a name: with what that has where the copy says nothing else.
    fn add_copy(
        &mut self,
        words: &mut Words<'a>,
        objects: &Objects<'a>,
        slot: SlotText<'a>,
        holder: Holder,
        place: u64,
    ) -> Result<(), AllocError> {
        let Token { text, spot, .. } = slot.object.name;
        let named = self.named.get(text).copied().unwrap_or(usize::MAX);
        let Some(original) = self.slots.get(named).copied() else {
            if self.left_out.contains_key(text) {
                return self.note_left_out(slot, Some((holder.number, place)));
            }
            let told = format_args!("there is no capability {text}");
            words.faults.say(spot, told);
            return Ok(());
        };
        let mut cap = slot.cap;
        cap.rights = both_rights(Some(original.rights.0), cap.rights);
        if cap.badge == 0 {
            cap.badge = original.badge;
        }
        if cap.guard_size == 0 {
            cap.guard = original.guard.value;
            cap.guard_size = u64::from(original.guard.size);
        }
        let copy = SlotText { cap, ..slot };
        self.put(words, objects, copy, holder, place, original.object)
    }

    /// Fills one slot with a capability of an object, where a set-up has such.
    fn add(
        &mut self,
        words: &mut Words<'a>,
        objects: &mut Objects<'a>,
        slot: SlotText<'a>,
        holder: Holder,
        place: u64,
        object: Reference<'a>,
    ) -> Result<(), AllocError> {
        if slot.is_copy {
            return self.add_copy(words, objects, slot, holder, place);
        }
        let key = Some((holder.number, place));
        match objects.find(object) {
            Found::Kept(object) => self.put(words, objects, slot, holder, place, object),
            Found::LeftOut(kind) => {
                note_unknown_parameter(words, slot);
                objects.leave_out(kind, slot.at.spot, 0, 1);
                self.note_left_out(slot, key)
            }
            Found::Unknown if BUILT_IN.contains(&object.name.text) => {
                let (holder, Token { text, spot, .. }) = (slot.holder.name.text, slot.object.name);
                let told = format_args!("slot {place} of {holder}: {text} is left out");
                words.gaps.say(spot, told);
                self.note_left_out(slot, key)
            }
            Found::Unknown => {
                objects.say_unknown(words, object);
                Ok(())
            }
        }
    }

    /// Puts a capability of an object into an empty slot.
    fn put(
        &mut self,
        words: &mut Words<'a>,
        objects: &Objects<'a>,
        slot: SlotText<'a>,
        holder: Holder,
        place: u64,
        number: usize,
    ) -> Result<(), AllocError> {
        let (key, spot) = ((holder.number, place), slot.at.spot);
        let before = self.places.get(&key).copied().unwrap_or(usize::MAX);
        let Some(object) = objects.objects.get(number) else {
            return Ok(());
        };
        if let Some(before) = self.slots.get(before) {
            let (name, line) = (slot.holder.name.text, before.line);
            let told = format_args!("slot {place} of {name} is filled twice, first in line {line}");
            words.faults.say(spot, told);
            return Ok(());
        }
        if self.slots.len() >= MOST_SLOTS {
            let told = format_args!("a layout has {MOST_SLOTS} full slots at most");
            words.faults.say(spot, told);
            return Ok(());
        }
        say_unknown_parameter(words, slot, object.bits != OTHER_BITS);
        self.check(words, slot, (holder.kind, place), number, object.kind);
        if slot.cap.rights.is_none() && objects.needs_rights(slot.object, slot.holder) {
            say_assumed(words, slot);
            self.are_rights_assumed = true;
        }
        let (machine, bits) = (Machine::of(objects.profile), object.bits);
        match object.kind {
            Kind::CNode => check_guard(words, machine, slot, bits),
            Kind::Endpoint if bits == 0 => {
                check_endpoint(words, machine, slot, !objects.reading.flows);
            }
            _ => {}
        }
        self.places.insert(key, self.slots.len())?;
        if let Some(name) = slot.own_name {
            self.named.insert(name.text, self.slots.len())?;
        }
        self.slots
            .push(filled(slot, holder.number, place, number, object))?;
        Ok(())
    }

    /// Checks that a thread's space is a CNode, and that an untyped region is in no other slot.
    fn check(
        &self,
        words: &mut Words<'a>,
        slot: SlotText<'a>,
        holder: (Kind, u64),
        number: usize,
        kind: Kind,
    ) {
        let Token { text, spot, .. } = slot.object.name;
        if holder == (Kind::Tcb, 0) && kind != Kind::CNode {
            let kind = kind_word(kind);
            let told = format_args!("a cspace is a cnode, and {text} is of the kind {kind}");
            words.faults.say(spot, told);
        }
        for before in self.slots.as_slice() {
            if kind == Kind::Untyped && before.object == number {
                let line = before.line;
                words.faults.say(
                    spot,
                    format_args!(
                        "{text} is in two slots, first in line {line}; an untyped capability has no copies here"
                    ),
                );
                return;
            }
        }
    }
}

/// Counts the capabilities in a slot of an object that is left out, or in a slot of a thread that is, which has a name.
fn leave_out<'a>(
    words: &mut Words<'a>,
    objects: &mut Objects<'a>,
    slot: SlotText<'a>,
    word: Option<&str>,
) {
    let name = slot.object.name.text;
    if slot.is_copy {
        return;
    }
    match (objects.find(slot.object), word) {
        (Found::LeftOut(kind), _) => objects.leave_out(kind, slot.at.spot, 0, 1),
        (Found::Kept(_), Some(word)) => {
            let holder = slot.holder.name.text;
            let told = format_args!("{word} of {holder} is left out");
            words.gaps.say(slot.at.spot, told);
        }
        (Found::Unknown, _) if !BUILT_IN.contains(&name) => {
            objects.say_unknown(words, slot.object);
        }
        _ => {}
    }
}

/// Says that an object has no such slots.
fn say_misplaced(words: &mut Words<'_>, slot: SlotText<'_>, kind: Kind) {
    let (word, holder, its) = (slot.at, slot.holder.name, kind_word(kind));
    let (name, text) = (holder.text, word.text);
    match slot.numbers {
        None => words.faults.say(
            word.spot,
            format_args!("{text} is a slot of a tcb, and {name} is of the kind {its}"),
        ),
        Some(_) => {
            let hint = if kind == Kind::Tcb {
                "its slots have names"
            } else {
                "it has no slots"
            };
            words.faults.say(
                holder.spot,
                format_args!("{name} is of the kind {its}: {hint}"),
            );
        }
    }
}

/// Checks the guard of a CNode's capability.
fn check_guard(words: &mut Words<'_>, machine: Machine, slot: SlotText<'_>, bits: u32) {
    let (cap, spot, name) = (slot.cap, slot.object.name.spot, slot.object.name.text);
    let (value, size, word) = (cap.guard, cap.guard_size, u64::from(machine.word_bits));
    let most = word.saturating_sub(u64::from(machine.guard_size_bits));
    if size.saturating_add(u64::from(bits)) > word {
        words.faults.say(
            spot,
            format_args!(
                "a guard of {size} bits and the {bits} bits of {name} are more than the {word} of a word"
            ),
        );
    } else if value.checked_shr(most.min(63) as u32).unwrap_or(0) > 0 {
        words.faults.say(
            spot,
            format_args!("the value of a guard has {most} bits at the most, and {value} has more"),
        );
    } else if value.checked_shr(size.min(64) as u32).unwrap_or(0) > 0 {
        words.faults.say(
            spot,
            format_args!("the guard {value} has more than {size} bits"),
        );
    }
}

/// Checks the capability of an endpoint, and says, where that is asked for, what its rights allow in seL4 and not here.
fn check_endpoint(words: &mut Words<'_>, machine: Machine, slot: SlotText<'_>, is_said: bool) {
    let (cap, spot, name) = (slot.cap, slot.object.name.spot, slot.object.name.text);
    let (badge, bits) = (cap.badge, machine.badge_bits);
    if badge.checked_shr(bits).unwrap_or(0) > 0 {
        words.faults.say(
            spot,
            format_args!("a badge has {bits} bits at the most, and {badge} has more"),
        );
    }
    if is_said && cap.rights.unwrap_or(0) & 5 == 5 {
        words.notes.say_on(
            Topic::HandsOver,
            spot,
            format_args!(
                "{name}: with G capabilities can be handed over in messages, which is not simulated; sel4sim ever tells it by lines grant"
            ),
        );
    }
}

/// Says that a capability has all rights, since the text says none.
fn say_assumed(words: &mut Words<'_>, slot: SlotText<'_>) {
    let Token { text, spot, .. } = slot.object.name;
    let told = format_args!("{text}: no rights are given, so the capability has all");
    words.gaps.say(spot, told);
}
