//! The lines of reasons that are about the objects of a retype.
ghost use Rattle.std.specs.Prelude.{◌≡◌, ◌++◌, OnOk, Some, string_bytes};
ghost use Rattle.command_why.specs.Asked.{asked_texts, asked_view};
ghost use Rattle.command_why.specs.Text.{reason_line};
ghost use Rattle.command_why.specs.Facts.{fact_lines};
ghost use Rattle.command_why.specs.Retypes as spec;

use crate::reasons::asked::{Asked, key_said};
use crate::reasons::facts::add_led;
use crate::reasons::text::{ContentText, LastText, PowerText, object_text, radix_of};
use cap_core::Cap;
use kernel_core::{Held, Reason, Word};
use std::alloc::AllocError;
use std::fmt::{self, Write};

/// What is said of the numbers of a retype.
#[derive(Clone, Copy)]
struct NumberText<'a, 'n> {
    asked: Asked<'a, 'n>,
    reason: Reason,
}

impl fmt::Display for NumberText<'_, '_> {
    ghost output = { λ n. Some (spec.number_text (asked_view n.asked) n.reason) };

    #[tactic(auto, unfolding(crate::specs::Retypes::number_text))]
    fn fmt<W: fmt::Write>(&self, f: &mut fmt::Formatter<W>) -> fmt::Result {
        match self.reason {
            Reason::NoKind => {
                let kind = key_said(self.asked, "kind");
                write!(
                    f,
                    "{kind} is none of 0 (untyped), 1 (thread control block), 2 (endpoint) and 4 (CNode)"
                )
            }
            Reason::NoSize { below } => {
                let size = key_said(self.asked, "size_bits");
                write!(f, "{size} is not below {below}")
            }
            Reason::TooLarge { kind, bits, most } => {
                let object = object_text(kind);
                let size = key_said(self.asked, "size_bits");
                write!(
                    f,
                    "{object} with {size} has 2^{bits} bytes; an object has at most 2^{most}"
                )
            }
            Reason::TooSmall { kind, least } => {
                let object = object_text(kind);
                let size = key_said(self.asked, "size_bits");
                write!(f, "{size} is below {least}, the least of {object}")
            }
            Reason::NoCount { most } => {
                let count = key_said(self.asked, "count");
                write!(f, "{count} is not from 1 to {most}")
            }
            _ => Ok(()),
        }
    }
}

/// For how many objects of a size a region has room.
#[derive(Clone, Copy)]
struct RoomText {
    bits: u32,
    room: u64,
}

impl fmt::Display for RoomText {
    ghost output = { λ r. Some (spec.room_text r.bits r.room) };

    #[tactic(auto, unfolding(crate::specs::Retypes::room_text))]
    fn fmt<W: fmt::Write>(&self, f: &mut fmt::Formatter<W>) -> fmt::Result {
        let size = PowerText(self.bits);
        let room = self.room;
        write!(f, "of objects of {size} bytes it has room for {room}")
    }
}

/// What is said of the slots to fill, and of the room for the objects.
#[derive(Clone, Copy)]
struct ObjectsText<'a, 'n> {
    asked: Asked<'a, 'n>,
    reason: Reason,
}

impl fmt::Display for ObjectsText<'_, '_> {
    ghost output = { λ o. Some (spec.retyped_text (asked_texts o.asked) (asked_view o.asked) o.reason) };

    #[tactic(auto, unfolding(crate::specs::Retypes::retyped_text))]
    fn fmt<W: fmt::Write>(&self, f: &mut fmt::Formatter<W>) -> fmt::Result {
        match self.reason {
            Reason::NoNode { .. } => write!(f, "a retype fills slots of a CNode"),
            Reason::NoOffset { node, .. } => {
                let last = LastText(radix_of(node.cap));
                let offset = key_said(self.asked, "offset");
                write!(f, "it has slots 0 to {last}, and {offset} is past them")
            }
            Reason::FewSlots { node, .. } => {
                let last = LastText(radix_of(node.cap));
                let count = key_said(self.asked, "count");
                let offset = key_said(self.asked, "offset");
                write!(
                    f,
                    "it has slots 0 to {last}, and {count} from {offset} on is past them"
                )
            }
            Reason::SomeFull { number, full, .. } => {
                let naming = self.asked.naming;
                let slot = naming.slot(full.slot);
                let cap = full.cap;
                let content = ContentText { naming, cap };
                write!(
                    f,
                    "its slot {number} stands at {slot} and is full: {content}"
                )
            }
            Reason::NoRoom { bits, room, .. } => {
                let room = RoomText { bits, room };
                let count = key_said(self.asked, "count");
                write!(f, "{room}, and {count} is more")
            }
            _ => Ok(()),
        }
    }
}

fn region_bits(cap: Cap) -> u32
    ensures { result ≡ spec.region_bits cap }
{
    match cap {
        Cap::Untyped { bits, .. } => bits,
        _ => 0,
    }
}

/// How much of an untyped region counts as used.
#[derive(Clone, Copy)]
struct UsedText {
    untyped: Held,
    has_children: bool,
    start: u64,
}

impl fmt::Display for UsedText {
    ghost output = { λ u. Some (spec.used_text u.untyped u.has_children u.start) };

    #[tactic(auto, unfolding(crate::specs::Retypes::used_text))]
    fn fmt<W: fmt::Write>(&self, f: &mut fmt::Formatter<W>) -> fmt::Result {
        let start = self.start;
        let bytes = PowerText(region_bits(self.untyped.cap));
        if self.has_children {
            write!(
                f,
                "it has children, so the first {start} of its {bytes} bytes count as used"
            )
        } else {
            write!(
                f,
                "it has no children, so all of its {bytes} bytes count as unused"
            )
        }
    }
}

/// Adds what is said of the numbers of a retype.
fn add_number(out: &mut String, asked: Asked<'_, '_>, reason: Reason) -> Result<(), AllocError>
    ensures { OnOk result (string_bytes out.new ≡ string_bytes out.old
        ++ reason_line (spec.number_text (asked_view asked.entry) reason)) }
{
    let text = NumberText { asked, reason };
    writeln!(out, "  {text}")
}

/// Adds what is said of the slots to fill, and of the room for the objects.
fn add_objects(out: &mut String, asked: Asked<'_, '_>, reason: Reason) -> Result<(), AllocError>
    ensures { OnOk result (string_bytes out.new ≡ string_bytes out.old
        ++ reason_line (spec.retyped_text (asked_texts asked.entry) (asked_view asked.entry) reason)) }
{
    let text = ObjectsText { asked, reason };
    writeln!(out, "  {text}")
}

/// Adds where the CNode's word leads to, and what is said of the slots to fill.
fn add_slots(
    out: &mut String,
    asked: Asked<'_, '_>,
    word: Word,
    node: Held,
    reason: Reason,
) -> Result<(), AllocError>
    ensures { OnOk result (string_bytes out.new ≡ string_bytes out.old
        ++ fact_lines (asked_texts asked.entry) (asked_view asked.entry) word node (spec.retyped_text (asked_texts asked.entry) (asked_view asked.entry) reason)) }
{
    add_led(out, asked, word, node)?;
    add_objects(out, asked, reason)
}

/// Adds how much of the untyped region counts as used, and for how many objects it has room.
fn add_room(
    out: &mut String,
    asked: Asked<'_, '_>,
    used: UsedText,
    reason: Reason,
) -> Result<(), AllocError>
    ensures { OnOk result (string_bytes out.new ≡ string_bytes out.old
        ++ (fact_lines (asked_texts asked.entry) (asked_view asked.entry) Word.Invoked used.untyped (spec.used_text used.untyped used.has_children used.start)
        ++ reason_line (spec.retyped_text (asked_texts asked.entry) (asked_view asked.entry) reason))) }
{
    add_led(out, asked, Word::Invoked, used.untyped)?;
    writeln!(out, "  {used}")?;
    add_objects(out, asked, reason)
}

/// Adds the lines of a reason that is about the objects of a retype; none of any other.
pub fn add_retype(out: &mut String, asked: Asked<'_, '_>, reason: Reason) -> Result<(), AllocError>
    ensures { OnOk result (string_bytes out.new ≡ string_bytes out.old
        ++ spec.retype_lines (asked_texts asked.entry) (asked_view asked.entry) reason) }
{
    match reason {
        Reason::NoKind
        | Reason::NoSize { .. }
        | Reason::TooLarge { .. }
        | Reason::TooSmall { .. }
        | Reason::NoCount { .. } => add_number(out, asked, reason),
        Reason::NoNode { word, found } => add_slots(out, asked, word, found, reason),
        Reason::NoOffset { word, node } | Reason::FewSlots { word, node } => {
            add_slots(out, asked, word, node, reason)
        }
        Reason::SomeFull { word, node, .. } => add_slots(out, asked, word, node, reason),
        Reason::NoRoom {
            untyped,
            has_children,
            start,
            ..
        } => {
            let used = UsedText {
                untyped,
                has_children,
                start,
            };
            add_room(out, asked, used, reason)
        }
        _ => Ok(()),
    }
}
