//! The lines of a reason: where a word of the call leads to, and what had to be so.
ghost use Rattle.std.specs.Prelude.{◌≡◌, ◌++◌, OnOk, Some, string_bytes};
ghost use Rattle.setup_report.specs.Naming.{naming_view};
ghost use Rattle.command_why.specs.Asked.{asked_texts, asked_view, led_said};
ghost use Rattle.command_why.specs.Text.{reason_line, radix_of as radix_of_cap};
ghost use Rattle.command_why.specs.Facts as spec;

use crate::reasons::asked::{Asked, data_said, word_said};
use crate::reasons::text::{OpText, SlotText, kind_text, radix_of, verb};
use cap_core::Kind;
use kernel_core::{Held, Op, Right, Word};
use setup_report::Naming;
use std::alloc::AllocError;
use std::fmt::{self, Write};

/// Adds the line of the slot that a word leads to.
#[tactic(auto, unfolding(crate::specs::Asked::led_said))]
pub fn add_led(
    out: &mut String,
    asked: Asked<'_, '_>,
    word: Word,
    held: Held,
) -> Result<(), AllocError>
    ensures { OnOk result (string_bytes out.new ≡ string_bytes out.old ++ reason_line (led_said (asked_texts asked.entry) (asked_view asked.entry) word held)) }
{
    let said = word_said(asked, word);
    let verb = verb(word);
    let naming = asked.naming;
    let slot = SlotText { naming, held };
    writeln!(out, "  {said} {verb} {slot}")
}

/// Adds where a word leads to, and what had to be so.
pub fn add_fact(
    out: &mut String,
    asked: Asked<'_, '_>,
    word: Word,
    held: Held,
    fact: &str,
) -> Result<(), AllocError>
    ensures { OnOk result (string_bytes out.new ≡ string_bytes out.old
        ++ spec.fact_lines (asked_texts asked.entry) (asked_view asked.entry) word held fact.now) }
{
    add_led(out, asked, word, held)?;
    writeln!(out, "  {fact}")
}

/// Adds by what kind of capability the call is made.
pub fn add_kind(
    out: &mut String,
    asked: Asked<'_, '_>,
    held: Held,
    wanted: Kind,
) -> Result<(), AllocError>
    ensures { OnOk result (string_bytes out.new ≡ string_bytes out.old
        ++ spec.kind_lines (asked_texts asked.entry) (asked_view asked.entry) held wanted) }
{
    add_led(out, asked, Word::Invoked, held)?;
    let op = OpText(&asked.call.op);
    let kind = kind_text(wanted);
    writeln!(out, "  {op} is made by {kind}")
}

fn right_text(right: Right) -> &'static str
    ensures { result.now ≡ spec.right_words right }
{
    match right {
        Right::Write => "Write (w)",
        Right::Read => "Read (r)",
    }
}

/// Adds which right the call needs.
pub fn add_right(
    out: &mut String,
    asked: Asked<'_, '_>,
    held: Held,
    needed: Right,
) -> Result<(), AllocError>
    ensures { OnOk result (string_bytes out.new ≡ string_bytes out.old
        ++ spec.right_lines (asked_texts asked.entry) (asked_view asked.entry) held needed) }
{
    add_led(out, asked, Word::Invoked, held)?;
    let op = OpText(&asked.call.op);
    let right = right_text(needed);
    writeln!(out, "  {op} needs the right {right}")
}

/// Why an operation can't set a badge.
pub fn badge_text(op: &Op) -> &'static str
    ensures { result.now ≡ spec.badge_text op.now }
{
    match op {
        Op::CapMutate { .. } => "a mutate sets no badge",
        _ => "a mint sets a badge only where there is none",
    }
}

/// By how many bits a guard is too long.
#[derive(Clone, Copy)]
struct LongText {
    size: u64,
    radix: u32,
    most: u32,
}

impl fmt::Display for LongText {
    ghost output = { λ l. Some (spec.long_text l.size l.radix l.most) };

    #[tactic(auto, unfolding(crate::specs::Facts::long_text))]
    fn fmt<W: fmt::Write>(&self, f: &mut fmt::Formatter<W>) -> fmt::Result {
        let size = self.size;
        let radix = self.radix;
        let most = self.most;
        write!(
            f,
            "{size} bits, which with radix {radix} is more than {most}"
        )
    }
}

/// A guard that is too long for a CNode.
#[derive(Clone, Copy)]
struct GuardText<'a, 'n> {
    asked: Asked<'a, 'n>,
    long: LongText,
}

impl fmt::Display for GuardText<'_, '_> {
    ghost output = { λ g. Some (spec.guard_text (asked_view g.asked) g.long.size g.long.radix g.long.most) };

    #[tactic(auto, unfolding(crate::specs::Facts::guard_text))]
    fn fmt<W: fmt::Write>(&self, f: &mut fmt::Formatter<W>) -> fmt::Result {
        let data = data_said(self.asked);
        let long = self.long;
        write!(f, "{data} is a guard of {long}")
    }
}

/// Adds that a guard is too long for a CNode.
pub fn add_guard(
    out: &mut String,
    asked: Asked<'_, '_>,
    word: Word,
    node: Held,
    size: u64,
    most: u32,
) -> Result<(), AllocError>
    ensures { OnOk result (string_bytes out.new ≡ string_bytes out.old
        ++ spec.fact_lines (asked_texts asked.entry) (asked_view asked.entry) word node
        (spec.guard_text (asked_view asked.entry) size (radix_of_cap node.cap) most)) }
{
    add_led(out, asked, word, node)?;
    let radix = radix_of(node.cap);
    let long = LongText { size, radix, most };
    let guard = GuardText { asked, long };
    writeln!(out, "  {guard}")
}

/// The first child of an untyped capability.
#[derive(Clone, Copy)]
struct FirstChildText<'a> {
    naming: &'a Naming<'a>,
    child: u64,
}

impl fmt::Display for FirstChildText<'_> {
    ghost output = { λ c. Some (spec.first_child_text (naming_view c.naming.now) c.child) };

    fn fmt<W: fmt::Write>(&self, f: &mut fmt::Formatter<W>) -> fmt::Result {
        let child = self.naming.slot(self.child);
        write!(f, "it has children, the first of them in slot {child}")
    }
}

/// Adds that an untyped capability has children.
pub fn add_children(
    out: &mut String,
    asked: Asked<'_, '_>,
    source: Held,
    child: u64,
) -> Result<(), AllocError>
    ensures { OnOk result (string_bytes out.new ≡ string_bytes out.old
        ++ spec.children_lines (asked_texts asked.entry) (asked_view asked.entry) source child) }
{
    add_led(out, asked, Word::SourceIndex, source)?;
    let naming = asked.naming;
    let first = FirstChildText { naming, child };
    writeln!(out, "  {first}")?;
    let op = OpText(&asked.call.op);
    writeln!(
        out,
        "  {op} is made of an untyped capability only while it has no children"
    )
}
