//! The lines of reasons that are about the slots a call names, and the capabilities in them.
ghost use Rattle.std.specs.Prelude.{◌≡◌, ◌++◌, OnOk, string_bytes};
ghost use Rattle.command_why.specs.Asked.{asked_texts, asked_view};
ghost use Rattle.command_why.specs.Facts.{nothing_in};
ghost use Rattle.command_why.specs.Reasons as spec;

use crate::reasons::asked::Asked;
use crate::reasons::facts::{add_children, add_fact, add_guard, add_kind, add_right, badge_text};
use crate::reasons::retypes::add_retype;
use cap_core::Cap;
use kernel_core::{Held, Reason, Word};
use std::alloc::AllocError;

/// An empty slot.
fn nothing_in(slot: u64) -> Held
    ensures { result ≡ nothing_in slot }
{
    let cap = Cap::Null;
    Held { slot, cap }
}

/// Adds the lines of a reason that is about the invoked capability, about those that a call names, or about a retype.
pub fn add_capability(
    out: &mut String,
    asked: Asked<'_, '_>,
    reason: Reason,
) -> Result<(), AllocError>
    ensures { OnOk result (string_bytes out.new ≡ string_bytes out.old
        ++ spec.capability_lines (asked_texts asked.entry) (asked_view asked.entry) reason) }
{
    match reason {
        Reason::NoCapability { slot, wanted } => add_kind(out, asked, nothing_in(slot), wanted),
        Reason::OtherKind { found, wanted } => add_kind(out, asked, found, wanted),
        Reason::NoRight { found, needed } => add_right(out, asked, found, needed),
        Reason::LongGuard {
            word,
            node,
            size,
            most,
        } => add_guard(out, asked, word, node, size, most),
        Reason::HasChildren { source, child } => add_children(out, asked, source, child),
        _ => add_named(out, asked, reason),
    }
}

/// Adds the lines of a reason that is about a slot with one fact, or about a retype.
fn add_named(out: &mut String, asked: Asked<'_, '_>, reason: Reason) -> Result<(), AllocError>
    ensures { OnOk result (string_bytes out.new ≡ string_bytes out.old
        ++ spec.named_lines (asked_texts asked.entry) (asked_view asked.entry) reason) }
{
    match reason {
        Reason::IsFull(held) => add_fact(
            out,
            asked,
            Word::Index,
            held,
            "the slot to fill has to be empty",
        ),
        Reason::IsEmpty { slot } => add_fact(
            out,
            asked,
            Word::SourceIndex,
            nothing_in(slot),
            "the source has to be full",
        ),
        Reason::HasBadge(held) => add_fact(
            out,
            asked,
            Word::SourceIndex,
            held,
            badge_text(&asked.call.op),
        ),
        Reason::NotAllRights(held) => add_fact(
            out,
            asked,
            Word::Index,
            held,
            "a cancel_badged names an endpoint's capability with all four rights",
        ),
        Reason::NoSpace(held) => add_fact(
            out,
            asked,
            Word::Root,
            held,
            "a thread's capability space begins at a CNode's capability",
        ),
        _ => add_retype(out, asked, reason),
    }
}
