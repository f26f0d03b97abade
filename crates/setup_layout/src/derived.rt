//! Which capability of a layout is derived from which.
use crate::hardware::does_cover;
use crate::layout::{OTHER_BITS, Object, Row, Slot};
use crate::objects::{Found, Objects};
use crate::scanner::{Spot, Token};
use crate::slots::{SlotText, Slots};
use crate::words::{Reference, Words};
use cap_core::{Kind, Rights};
use std::alloc::{AllocError, Global};
use std::collections::HashMap;

/// How deep the derivations of a layout are at the most.
const MOST_DEPTH: usize = 1024;

/// A slot that a derivation names, by the name of its capability, or as a slot of an object; and the one that it stands right below, by
/// its place among them.
#[derive(Clone, Copy)]
pub struct Node<'a> {
    name: Reference<'a>,
    slot: Option<Token<'a>>,
    above: Option<usize>,
}

/// A slot above another one, from which that is derived.
#[derive(Clone, Copy)]
struct Pair {
    above: usize,
    below: usize,
    at: Spot,
}

/// A row of the `cdt` of which a slot is left out.
#[derive(Clone, Copy)]
struct LostRow {
    above: Option<usize>,
    below: Option<usize>,
    at: Spot,
}

/// The derivations of a layout.
#[derive(Drop)]
pub struct Tree<'a> {
    nodes: Vec<Node<'a>>,
    pairs: Vec<Pair>,
    lost: Vec<LostRow>,
    /// The slot right above each slot, where there is one.
    parents: Vec<Option<usize>>,
    /// The slots with the capability that the making of their object gives, by the place of the object: the first that has others
    /// below it and none above.
    originals: Vec<Option<usize>>,
}

/// Reads a slot that a derivation names.
pub fn read_node<'a>(words: &mut Words<'a>, above: Option<usize>) -> Node<'a> {
    let mut slot = None;
    let name = if words.has("(") {
        let holder = words.reference();
        words.need(",");
        slot = Some(words.name("a slot"));
        words.need(")");
        holder
    } else {
        let is_between = words.has("<");
        let name = words.name("a slot, or the name of a capability,");
        if is_between {
            words.need(">");
        }
        Reference { name, index: None }
    };
    Node { name, slot, above }
}

/// The slot that a node names, by its place among the slots. One that is empty is told, but not where its capability is left out.
fn slot_of<'a>(
    words: &mut Words<'a>,
    objects: &Objects<'a>,
    slots: &Slots<'a>,
    node: Node<'a>,
) -> Option<usize> {
    let Token { text, spot, .. } = node.name.name;
    let Some(slot) = node.slot else {
        let mut found = slots.named.get(text).copied();
        if let (None, Found::Kept(object)) = (found, objects.find(node.name)) {
            found = slots.first_of(object);
        }
        if found.is_none() && !slots.left_out.contains_key(text) {
            words
                .faults
                .say(spot, format_args!("there is no capability {text}"));
        }
        return found;
    };
    let key = match objects.find(node.name) {
        Found::LeftOut(_) => return None,
        Found::Kept(object) => (object, objects.slot_number(object, slot)),
        Found::Unknown => (usize::MAX, None),
    };
    let key = (key.0, key.1.unwrap_or(u64::MAX));
    let found = slots.places.get(&key).copied();
    if found.is_none() && !slots.emptied.contains_key(&key) {
        let slot = slot.text;
        words
            .faults
            .say(spot, format_args!("slot {slot} of {text} is empty"));
    }
    found
}

/// Whether an object has full slots.
fn has_slots(slots: &[Slot], object: usize) -> bool {
    for slot in slots {
        if slot.holder == object {
            return true;
        }
    }
    false
}

/// Whether the object of one slot lies in the untyped region of another one: what is made of a region is derived from its capability
/// without a word.
fn is_in_region(objects: &[Object], slots: &[Slot], above: usize, below: usize) -> bool {
    match (slots.get(above), slots.get(below)) {
        (Some(above), Some(below)) => {
            above.object != below.object && does_cover(objects, above.object, below.object)
        }
        _ => false,
    }
}

impl<'a> Tree<'a> {
    /// No derivation is read yet.
    pub fn new(alloc: Global) -> Tree<'a> {
        Tree {
            nodes: Vec::new(alloc),
            pairs: Vec::new(alloc),
            lost: Vec::new(alloc),
            parents: Vec::new(alloc),
            originals: Vec::new(alloc),
        }
    }

    /// Reads the section of the derivations.
    pub fn read(&mut self, words: &mut Words<'a>) -> Result<(), AllocError> {
        words.need("{");
        let mut open = Vec::new(words.alloc);
        let mut above = None;
        for _node in 0..words.left() {
            if !words.goes_on() {
                return Ok(());
            }
            if words.has("}") {
                match open.pop() {
                    None => return Ok(()),
                    Some(outer) => above = outer,
                }
            } else if !words.has(",") {
                self.nodes.push(read_node(words, above))?;
                if words.has("{") {
                    open.push(above)?;
                    above = self.nodes.len().checked_sub(1);
                }
            }
        }
        Ok(())
    }

    /// Adds that a slot is derived from another one, where that is said beside it.
    pub fn add_beside(&mut self, slot: SlotText<'a>) -> Result<(), AllocError> {
        let Some(parent) = slot.parent else {
            return Ok(());
        };
        let above = Some(self.nodes.len());
        self.nodes.push(parent)?;
        let (name, at) = match slot.own_name {
            Some(name) => (Reference { name, index: None }, None),
            None => (slot.holder, Some(slot.at)),
        };
        self.nodes.push(Node {
            name,
            slot: at,
            above,
        })?;
        Ok(())
    }

    /// Finds the pairs of slots that the text tells, each once.
    fn find_pairs(
        &mut self,
        words: &mut Words<'a>,
        objects: &Objects<'a>,
        slots: &Slots<'a>,
    ) -> Result<(), AllocError> {
        let (mut found, mut known) = (Vec::new(words.alloc), HashMap::new(words.alloc));
        for node in self.nodes.as_slice() {
            let below = slot_of(words, objects, slots, *node);
            let above = match node.above {
                Some(above) => found.get(above).copied().flatten(),
                None => None,
            };
            found.push(below)?;
            let at = node.name.name.spot;
            if let (Some(above), Some(below)) = (above, below) {
                let (all, filled) = (objects.objects.as_slice(), slots.slots.as_slice());
                let is_new = known.insert((above, below), true)?.is_none();
                if is_new && !is_in_region(all, filled, above, below) {
                    self.pairs.push(Pair { above, below, at })?;
                }
            } else if node.above.is_some() {
                self.lost.push(LostRow { above, below, at })?;
            }
        }
        Ok(())
    }

    /// Finds the slot right above each slot. Two slots above one, and another object, are told.
    fn find_parents(&mut self, words: &mut Words<'a>, slots: &[Slot]) {
        for pair in self.pairs.as_slice() {
            let (Some(above), Some(below), Some(parent)) = (
                slots.get(pair.above),
                slots.get(pair.below),
                self.parents.get_mut(pair.below),
            ) else {
                continue;
            };
            let (line, upper) = (below.line, above.line);
            if above.object != below.object {
                words.faults.say(
                    pair.at,
                    format_args!(
                        "this slot of line {line} holds another object than the one above it, of line {upper}"
                    ),
                );
            }
            if *parent == Some(pair.above) {
                continue;
            }
            if parent.is_some() {
                let told = format_args!("this slot of line {line} stands below two slots");
                words.faults.say(pair.at, told);
            }
            *parent = Some(pair.above);
        }
    }

    /// Finds the slots that hold the originals: what the making of an object gives has all rights, no badge and no guard. A CNode whose
    /// slots are filled by that capability is none of these. With `--flows` all that has slots is a CNode, and nothing has a guard.
    fn find_originals(&mut self, slots: &[Slot], objects: &[Object], flows: bool) {
        for pair in self.pairs.as_slice() {
            let (Some(slot), Some(None)) = (slots.get(pair.above), self.parents.get(pair.above))
            else {
                continue;
            };
            let (Some(object), Some(holder), Some(original)) = (
                objects.get(slot.object),
                objects.get(slot.holder),
                self.originals.get_mut(slot.object),
            ) else {
                continue;
            };
            let is_in_node = flows || holder.kind == Kind::CNode;
            let is_node = object.kind == Kind::CNode
                || object.bits == OTHER_BITS && has_slots(slots, slot.object);
            let can_be = match object.kind {
                _ if is_node => is_in_node && slot.holder != slot.object,
                Kind::Endpoint => object.bits != OTHER_BITS && slot.rights == Rights::ALL,
                _ => is_in_node,
            };
            let is_plain = slot.guard.size == 0 && slot.guard.value == 0;
            if slot.badge == 0 && (flows || is_plain) && can_be && original.is_none() {
                *original = Some(pair.above);
            }
        }
    }

    /// Whether the slots above a slot come to an end, and are not too many.
    fn ends(&self, slot: usize) -> bool {
        let mut slot = slot;
        for _above in 0..MOST_DEPTH {
            match self.parents.get(slot) {
                Some(Some(parent)) => slot = *parent,
                _ => return true,
            }
        }
        false
    }

    /// Whether a kernel can have one slot derived from the other: from the original, or from an endpoint's capability with a badge,
    /// which it keeps. What only counts as an endpoint gets a badge where it has none.
    fn is_kept(&self, pair: Pair, above: &Slot, below: &Slot, only_counts: bool) -> bool {
        let original = self.originals.get(above.object).copied().flatten();
        let parent = self.parents.get(pair.above).copied().flatten();
        let is_second = parent == original || parent.is_none();
        let is_badge_kept = above.badge == below.badge && (above.badge != 0 || only_counts);
        let are_rights_kept = above.rights.0 | below.rights.0 == above.rights.0;
        original == Some(pair.above) || is_second && is_badge_kept && are_rights_kept
    }

    /// Says what is not seen of a row: with `--flows` that one part takes from another.
    fn say_lost(words: &mut Words<'_>, at: Spot, flows: bool, line: Option<usize>) {
        match (flows, line) {
            (true, Some(line)) => words.gaps.say(
                at,
                format_args!(
                    "no take is seen by this row of the cdt: the set-up has it beside the slot of line {line}, and not below that"
                ),
            ),
            (true, None) => words.gaps.say(
                at,
                "no take is seen by this row of the cdt: a capability of it is left out",
            ),
            (false, Some(line)) => words.gaps.say(
                at,
                format_args!(
                    "no kernel has this below the slot of line {line}: it is derived from the loader's capability, beside that slot"
                ),
            ),
            (false, None) => {}
        }
    }

    /// The row of a pair, of which it is said if no kernel here can have it.
    fn row_of(
        &self,
        words: &mut Words<'a>,
        objects: &Objects<'a>,
        slots: &[Slot],
        pair: Pair,
    ) -> Row {
        let (flows, mut is_possible) = (objects.reading.flows, false);
        if let (Some(above), Some(below)) = (slots.get(pair.above), slots.get(pair.below)) {
            let (line, lower) = (above.line, below.line);
            let only_counts = objects.only_counts(above.object) && !has_slots(slots, above.object);
            is_possible = self.is_kept(pair, above, below, only_counts);
            if !self.ends(pair.below) {
                words.faults.say(
                    pair.at,
                    format_args!(
                        "the derivations go in a circle, or are more than {MOST_DEPTH} deep: slots of lines {line} and {lower}"
                    ),
                );
            } else if !is_possible {
                Self::say_lost(words, pair.at, flows, Some(line));
            }
        }
        Row {
            above: Some(pair.above),
            below: Some(pair.below),
            is_possible,
        }
    }

    /// The rows of a layout. Of one that no kernel here can have it is said, and with `--flows` also of one of which a capability is left
    /// out.
    pub fn rows(
        &mut self,
        words: &mut Words<'a>,
        objects: &Objects<'a>,
        slots: &Slots<'a>,
    ) -> Result<Vec<Row>, AllocError> {
        let (all, flows) = (slots.slots.as_slice(), objects.reading.flows);
        self.find_pairs(words, objects, slots)?;
        self.parents = vec![in words.alloc; None; all.len()]?;
        self.originals = vec![in words.alloc; None; objects.objects.len()]?;
        self.find_parents(words, all);
        self.find_originals(all, objects.objects.as_slice(), flows);
        let mut rows = Vec::new(words.alloc);
        for pair in self.pairs.as_slice() {
            rows.push(self.row_of(words, objects, all, *pair))?;
        }
        for LostRow { above, below, at } in self.lost.as_slice() {
            Self::say_lost(words, *at, flows, None);
            rows.push(Row {
                above: *above,
                below: *below,
                is_possible: false,
            })?;
        }
        Ok(rows)
    }
}

/// The pairs of slots of rows that a set-up has, in their order.
pub fn kept_pairs(alloc: Global, rows: &[Row]) -> Result<Vec<(usize, usize)>, AllocError> {
    let mut pairs = Vec::new(alloc);
    for row in rows {
        if let Some(pair) = row.pair() {
            pairs.push(pair)?;
        }
    }
    Ok(pairs)
}
