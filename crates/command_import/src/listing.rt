//! What was read of a layout, in lines.
ghost use Rattle.std.specs.Prelude.{◌≡◌, ◌++◌, string_bytes, OnOk, IfOk, Some, slice_get};
ghost use Rattle.std.specs.List.{flat_map, list_all};
ghost use Rattle.command_import.specs.Listing as spec;
ghost use Rattle.command_import.specs.Told as told;

use cap_core::Kind;
use setup_layout::{AssumedRights, Layout, Object, Slot};
use setup_report::RightsText;
use std::alloc::{AllocError, Global};
use std::fmt::Write;

/// Whether the name of an object is a word: no byte of it is a blank, a line feed, or another one up to these.
fn has_word(object: &Object) -> bool
    ensures { result ≡ told.has_word object.now }
{
    let bytes = object.name.as_bytes();
    for byte in bytes {
        if *byte <= 32 {
            return false;
        }
    }
    true
}

/// Whether the names of these objects are words, so that a listing tells where they end.
pub fn are_words(objects: &[Object]) -> bool
    ensures { result ≡ list_all told.has_word objects.now }
{
    for object in objects {
        if !has_word(object) {
            return false;
        }
    }
    true
}

/// Adds the name of a slot.
fn add_place(out: &mut String, holder: &Object, slot: &Slot) -> Result<(), AllocError>
    ensures { OnOk result (string_bytes out.new ≡ string_bytes out.old ++ spec.listed_place holder.now.kind holder.now slot.now) }
{
    let (name, index) = (holder.name.as_str(), slot.index);
    match holder.kind {
        Kind::Tcb => write!(out, "{name}.cspace"),
        _ => write!(out, "{name}[{index}]"),
    }
}

/// Adds the capability of a CNode.
fn add_cnode(out: &mut String, object: &Object, slot: &Slot) -> Result<(), AllocError>
    ensures { OnOk result (string_bytes out.new ≡ string_bytes out.old ++ spec.held_of Kind.CNode object.now slot.now) }
{
    let (name, bits) = (object.name.as_str(), object.bits);
    let (value, size) = (slot.guard.value, slot.guard.size);
    writeln!(out, " cnode {name} radix {bits} guard {value} size {size}")
}

/// Adds the capability of a slot.
fn add_held(out: &mut String, object: &Object, slot: &Slot) -> Result<(), AllocError>
    ensures { OnOk result (string_bytes out.new ≡ string_bytes out.old ++ spec.held_of object.now.kind object.now slot.now) }
{
    let (name, bits) = (object.name.as_str(), object.bits);
    match object.kind {
        Kind::Untyped => writeln!(out, " untyped {name} bits {bits}"),
        Kind::Endpoint => {
            let (badge, rights) = (slot.badge, RightsText(slot.rights));
            writeln!(out, " endpoint {name} badge {badge} rights {rights}")
        }
        Kind::CNode => add_cnode(out, object, slot),
        Kind::Tcb => writeln!(out, " tcb {name}"),
    }
}

/// Adds the line of a slot, behind a prefix.
fn add_line(
    out: &mut String,
    prefix: &str,
    holder: &Object,
    object: &Object,
    slot: &Slot,
) -> Result<(), AllocError>
    ensures { OnOk result (string_bytes out.new ≡ string_bytes out.old
        ++ (prefix.now ++ (spec.listed_place holder.now.kind holder.now slot.now ++ spec.held_of object.now.kind object.now slot.now))) }
{
    out.push_str(prefix)?;
    add_place(out, holder, slot)?;
    add_held(out, object, slot)
}

/// Adds the line of a slot, where its holder and its object are there.
fn add_slot(
    out: &mut String,
    prefix: &str,
    objects: &[Object],
    slot: &Slot,
) -> Result<(), AllocError>
    ensures { OnOk result (string_bytes out.new ≡ string_bytes out.old ++ spec.listing_line prefix.now objects.now slot.now) }
{
    match (objects.get(slot.holder), objects.get(slot.object)) {
        (Some(holder), Some(object)) => add_line(out, prefix, holder, object, slot),
        _ => Ok(()),
    }
}

/// Adds a line for each slot.
fn add_slots(
    out: &mut String,
    prefix: &str,
    objects: &[Object],
    slots: &[Slot],
) -> Result<(), AllocError>
    ensures { OnOk result (string_bytes out.new ≡ string_bytes out.old ++ flat_map (spec.listing_line prefix.now objects.now) slots.now) }
{
    for slot in slots {
        add_slot(out, prefix, objects, slot)?;
    }
    Ok(())
}

/// Adds the line of a thread, behind a prefix, where it makes no calls.
fn add_inactive(out: &mut String, prefix: &str, object: &Object) -> Result<(), AllocError>
    ensures { OnOk result (string_bytes out.new ≡ string_bytes out.old ++ spec.inactive_line prefix.now object.now) }
{
    let name = object.name.as_str();
    match (object.kind, object.is_inactive) {
        (Kind::Tcb, true) => writeln!(out, "{prefix}{name} inactive"),
        _ => Ok(()),
    }
}

/// Adds a line for each thread that makes no calls.
fn add_all_inactive(out: &mut String, prefix: &str, objects: &[Object]) -> Result<(), AllocError>
    ensures { OnOk result (string_bytes out.new ≡ string_bytes out.old ++ flat_map (spec.inactive_line prefix.now) objects.now) }
{
    for object in objects {
        add_inactive(out, prefix, object)?;
    }
    Ok(())
}

/// Adds the name of a slot, where its holder is there.
fn add_place_in(out: &mut String, objects: &[Object], slot: &Slot) -> Result<(), AllocError>
    ensures { OnOk result (string_bytes out.new ≡ string_bytes out.old ++ spec.holder_place (slice_get objects.now slot.now.holder) slot.now) }
{
    match objects.get(slot.holder) {
        Some(holder) => add_place(out, holder, slot),
        None => Ok(()),
    }
}

/// Adds the line of a slot that is derived from another one, behind a prefix.
fn add_below(
    out: &mut String,
    prefix: &str,
    objects: &[Object],
    above: &Slot,
    below: &Slot,
) -> Result<(), AllocError>
    ensures { OnOk result (string_bytes out.new ≡ string_bytes out.old ++ spec.below_line prefix.now objects.now (Some above.now) (Some below.now)) }
{
    out.push_str(prefix)?;
    add_place_in(out, objects, below)?;
    out.push_str(" below ")?;
    add_place_in(out, objects, above)?;
    out.push('\n')
}

/// Adds the line of two slots by their places, where they are there.
fn add_pair(
    out: &mut String,
    prefix: &str,
    objects: &[Object],
    slots: &[Slot],
    pair: (usize, usize),
) -> Result<(), AllocError>
    ensures { OnOk result (string_bytes out.new ≡ string_bytes out.old ++ spec.pair_line prefix.now objects.now slots.now pair) }
{
    match (slots.get(pair.0), slots.get(pair.1)) {
        (Some(above), Some(below)) => add_below(out, prefix, objects, above, below),
        _ => Ok(()),
    }
}

/// Adds a line for each slot that is derived from another one.
fn add_pairs(
    out: &mut String,
    prefix: &str,
    objects: &[Object],
    slots: &[Slot],
    derived: &[(usize, usize)],
) -> Result<(), AllocError>
    ensures { OnOk result (string_bytes out.new ≡ string_bytes out.old ++ flat_map (spec.pair_line prefix.now objects.now slots.now) derived.now) }
{
    for pair in derived {
        add_pair(out, prefix, objects, slots, *pair)?;
    }
    Ok(())
}

/// Adds the line that says which rights were taken where the layout says none, behind a prefix.
fn add_assumed(out: &mut String, prefix: &str, assumed: AssumedRights) -> Result<(), AllocError>
    ensures { OnOk result (string_bytes out.new ≡ string_bytes out.old ++ spec.assumed_line assumed prefix.now) }
{
    match assumed {
        AssumedRights::NoRights => Ok(()),
        AssumedRights::AllRights => writeln!(out, "{prefix}assumed rights all"),
        AssumedRights::LeastRights => writeln!(out, "{prefix}assumed rights least"),
    }
}

/// What was read of a layout, in its own names: what each slot holds, the threads that make no calls, which slot is derived from which,
/// and which rights were assumed, each in a line behind a prefix.
pub fn listing_text(alloc: Global, layout: &Layout, prefix: &str) -> Result<String, AllocError>
    ensures { IfOk result (λ text. string_bytes text ≡ spec.listing_lines prefix.now layout.now) }
{
    let mut out = String::new(alloc);
    let (objects, slots) = (layout.objects.as_slice(), layout.slots.as_slice());
    add_slots(&mut out, prefix, objects, slots)?;
    add_all_inactive(&mut out, prefix, objects)?;
    add_pairs(&mut out, prefix, objects, slots, layout.derived.as_slice())?;
    add_assumed(&mut out, prefix, layout.assumed)?;
    Ok(out)
}
