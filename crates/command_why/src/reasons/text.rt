//! The parts of a line. Objects and slots stand as a naming writes them.
ghost use Rattle.std.specs.Prelude.{◌≡◌, Some, None, option_copied};
ghost use Rattle.setup_report.specs.Naming.{naming_view};
ghost use Rattle.command_why.specs.Text as text;

use crate::reasons::words::is_whole;
use cap_core::{Cap, Guard, Kind};
use kernel_core::{Held, Op, Word};
use setup_format::op_name;
use setup_report::{CapText, Naming};
use std::fmt;

/// The name by which a value is spelt, after `@`, if it has one.
#[derive(Clone, Copy)]
pub struct NameText<'a>(pub Option<&'a str>);

impl fmt::Display for NameText<'_> {
    ghost output = { λ n. Some (text.name_text (option_copied n.0)) };

    fn fmt<W: fmt::Write>(&self, f: &mut fmt::Formatter<W>) -> fmt::Result {
        match self.0 {
            None => Ok(()),
            Some(name) => write!(f, " @{name}"),
        }
    }
}

/// A key of a call with its value, and the name by which that is spelt.
#[derive(Clone, Copy)]
pub struct KeyText<'a> {
    pub key: &'static str,
    pub value: u64,
    pub name: Option<&'a str>,
}

impl fmt::Display for KeyText<'_> {
    ghost output = { λ k. Some (text.key_value_text k.key.now k.value (option_copied k.name)) };

    #[tactic(auto, unfolding(crate::specs::Text::key_value_text))]
    fn fmt<W: fmt::Write>(&self, f: &mut fmt::Formatter<W>) -> fmt::Result {
        let key = self.key;
        let value = self.value;
        let name = NameText(self.name);
        write!(f, "{key} {value}{name}")
    }
}

/// What is in a slot.
#[derive(Clone, Copy)]
pub struct ContentText<'a> {
    pub naming: &'a Naming<'a>,
    pub cap: Cap,
}

impl fmt::Display for ContentText<'_> {
    ghost output = { λ c. Some (text.content_text (naming_view c.naming.now) c.cap) };

    fn fmt<W: fmt::Write>(&self, f: &mut fmt::Formatter<W>) -> fmt::Result {
        match self.cap {
            Cap::Null => write!(f, "empty"),
            cap => {
                let naming = self.naming;
                let cap = CapText { naming, cap };
                write!(f, "{cap}")
            }
        }
    }
}

/// A slot with what is in it.
#[derive(Clone, Copy)]
pub struct SlotText<'a> {
    pub naming: &'a Naming<'a>,
    pub held: Held,
}

impl fmt::Display for SlotText<'_> {
    ghost output = { λ s. Some (text.slot_and_content (naming_view s.naming.now) s.held) };

    #[tactic(auto, unfolding(crate::specs::Text::slot_and_content))]
    fn fmt<W: fmt::Write>(&self, f: &mut fmt::Formatter<W>) -> fmt::Result {
        let naming = self.naming;
        let slot = naming.slot(self.held.slot);
        let cap = self.held.cap;
        let content = ContentText { naming, cap };
        write!(f, "slot {slot}: {content}")
    }
}

/// How it is said where a word leads to, or what an index names.
pub fn verb(word: Word) -> &'static str
    ensures { result.now ≡ text.verb word }
{
    if is_whole(word) { "leads to" } else { "names" }
}

fn article(op: &Op) -> &'static str
    ensures { result.now ≡ text.article op.now }
{
    match op {
        Op::NbSend { .. } | Op::NbRecv { .. } => "an",
        _ => "a",
    }
}

/// An operation with its article.
#[derive(Clone, Copy)]
pub struct OpText<'a>(pub &'a Op);

impl fmt::Display for OpText<'_> {
    ghost output = { λ o. Some (text.an_op o.0.now) };

    fn fmt<W: fmt::Write>(&self, f: &mut fmt::Formatter<W>) -> fmt::Result {
        let article = article(self.0);
        let op = op_name(self.0).text();
        write!(f, "{article} {op}")
    }
}

/// A capability of a kind.
pub fn kind_text(kind: Kind) -> &'static str
    ensures { result.now ≡ text.kind_text kind }
{
    match kind {
        Kind::Untyped => "an untyped capability",
        Kind::Tcb => "a thread's capability",
        Kind::Endpoint => "an endpoint's capability",
        Kind::CNode => "a CNode's capability",
    }
}

/// An object of a kind.
pub fn object_text(kind: Kind) -> &'static str
    ensures { result.now ≡ text.object_text kind }
{
    match kind {
        Kind::Untyped => "an untyped region",
        Kind::Tcb => "a thread control block",
        Kind::Endpoint => "an endpoint",
        Kind::CNode => "a CNode",
    }
}

/// The guard of a CNode's capability.
pub fn guard_of(cap: Cap) -> Guard
    ensures { result ≡ text.guard_of cap }
{
    match cap {
        Cap::CNode { guard, .. } => guard,
        _ => Guard { value: 0, size: 0 },
    }
}

/// The radix of a CNode's capability.
pub fn radix_of(cap: Cap) -> u32
    ensures { result ≡ text.radix_of cap }
{
    match cap {
        Cap::CNode { radix, .. } => radix,
        _ => 0,
    }
}

/// A power of two, by its exponent: in digits up to 64 bits.
#[derive(Clone, Copy)]
pub struct PowerText(pub u32);

impl fmt::Display for PowerText {
    ghost output = { λ p. Some (text.power_text p.0) };

    #[tactic(auto, unfolding(crate::specs::Text::power_text))]
    fn fmt<W: fmt::Write>(&self, f: &mut fmt::Formatter<W>) -> fmt::Result {
        let bits = self.0;
        if bits < 64 {
            let power = 1u64 << bits;
            write!(f, "{power}")
        } else {
            write!(f, "2^{bits}")
        }
    }
}

/// The greatest number below a power of two.
#[derive(Clone, Copy)]
pub struct LastText(pub u32);

impl fmt::Display for LastText {
    ghost output = { λ l. Some (text.last_text l.0) };

    #[tactic(auto, unfolding(crate::specs::Text::last_text))]
    fn fmt<W: fmt::Write>(&self, f: &mut fmt::Formatter<W>) -> fmt::Result {
        let bits = self.0;
        if bits < 64 {
            let last = (1u64 << bits) - 1;
            write!(f, "{last}")
        } else {
            write!(f, "2^{bits} - 1")
        }
    }
}
