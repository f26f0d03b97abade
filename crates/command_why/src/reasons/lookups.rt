//! The lines of a lookup that fails.
ghost use Rattle.std.specs.Prelude.{◌≡◌, ◌≤◌, ◌-◌, ◌++◌, length, take, OnOk, Some, string_bytes};
ghost use Rattle.cap_core.specs.Numbers.{word_bits};
ghost use Rattle.setup_report.specs.Naming.{naming_view};
ghost use Rattle.command_why.specs.Asked.{asked_texts, asked_view};
ghost use Rattle.command_why.specs.Text.{reason_line};
ghost use Rattle.command_why.specs.Lookups as spec;

use crate::reasons::asked::{Asked, depth_said, word_said};
use crate::reasons::facts::add_led;
use crate::reasons::keys::{KeyWords, key_words};
use crate::reasons::text::{SlotText, guard_of, radix_of};
use crate::reasons::words::{depth_key, depth_of, is_whole, key_of, root_of, value_of};
use cap_core::{Guard, Profile};
use ipc_core::Waiters;
use kernel_core::{Held, Hint, Kernel, Miss, Word};
use setup_report::Naming;
use slot_core::CapStore;
use std::alloc::{AllocError, Global};
use std::fmt::{self, Write};

/// Adds from which slot on a word is looked up.
fn add_start(
    out: &mut String,
    asked: Asked<'_, '_>,
    word: Word,
    from: Held,
) -> Result<(), AllocError>
    ensures { OnOk result (string_bytes out.new ≡ string_bytes out.old ++ spec.start_line (asked_texts asked.entry) (asked_view asked.entry) word from) }
{
    let said = word_said(asked, word);
    let (naming, held) = (asked.naming, from);
    let slot = SlotText { naming, held };
    if is_whole(word) {
        writeln!(out, "  {said} is looked up from the thread's root {slot}")
    } else {
        let depth = depth_said(asked, word);
        writeln!(out, "  {said} {depth} is looked up from {slot}")
    }
}

/// Adds that a lookup begins at no CNode.
fn add_no_root(
    out: &mut String,
    asked: Asked<'_, '_>,
    word: Word,
    from: Held,
) -> Result<(), AllocError>
    ensures { OnOk result (string_bytes out.new ≡ string_bytes out.old ++ spec.no_root_lines (asked_texts asked.entry) (asked_view asked.entry) word from) }
{
    if is_whole(word) {
        add_start(out, asked, word, from)?;
        writeln!(out, "  the thread has no capability space")
    } else {
        add_led(out, asked, root_of(word), from)?;
        let key = key_of(word);
        writeln!(out, "  {key} is looked up from a CNode's capability")
    }
}

/// What is said before the slots that a way goes by.
fn by_text(count: usize) -> &'static str
    ensures { result.now ≡ spec.by_text count }
{
    match count {
        0 => "",
        1 => " by slot",
        _ => " by slots",
    }
}

/// A slot after a space.
#[derive(Clone, Copy)]
struct NextSlotText<'a, 'n> {
    naming: &'a Naming<'n>,
    held: Held,
}

impl fmt::Display for NextSlotText<'_, '_> {
    ghost output = { λ s. Some (spec.next_slot_text (naming_view s.naming.now) s.held) };

    fn fmt<W: fmt::Write>(&self, f: &mut fmt::Formatter<W>) -> fmt::Result {
        let slot = self.naming.slot(self.held.slot);
        write!(f, " {slot}")
    }
}

/// Each of some slots after a space.
#[derive(Clone, Copy)]
struct SlotsText<'a, 'n> {
    naming: &'a Naming<'n>,
    slots: &'a [Held],
}

impl fmt::Display for SlotsText<'_, '_> {
    ghost output = { λ s. Some (spec.held_slots_text (naming_view s.naming.now) s.slots.now) };

    fn fmt<W: fmt::Write>(&self, f: &mut fmt::Formatter<W>) -> fmt::Result {
        for held in self.slots {
            let naming = self.naming;
            let next = NextSlotText {
                naming,
                held: *held,
            };
            write!(f, "{next}")?;
        }
        Ok(())
    }
}

/// Adds the way of a lookup, if it comes to a slot.
fn add_way(out: &mut String, naming: &Naming<'_>, path: &[Held]) -> Result<(), AllocError>
    ensures { OnOk result (string_bytes out.new ≡ string_bytes out.old ++ spec.lookup_line (naming_view naming.now) path.now) }
{
    match path {
        [] => Ok(()),
        [_, rest @ ..] => add_way_on(out, naming, rest),
    }
}

/// A way to a slot, by those before it.
#[derive(Clone, Copy)]
struct WayText<'a, 'n> {
    naming: &'a Naming<'n>,
    between: &'a [Held],
    last: Held,
}

impl fmt::Display for WayText<'_, '_> {
    ghost output = { λ w. Some (spec.lookup_text (naming_view w.naming.now) w.between.now w.last) };

    #[tactic(auto, unfolding(crate::specs::Lookups::lookup_text))]
    fn fmt<W: fmt::Write>(&self, f: &mut fmt::Formatter<W>) -> fmt::Result {
        let (naming, slots, held) = (self.naming, self.between, self.last);
        let by = by_text(slots.len());
        let slots = SlotsText { naming, slots };
        let last = SlotText { naming, held };
        write!(f, "it comes{by}{slots} to {last}")
    }
}

/// Some slots without the last.
fn without_last(slots: &[Held]) -> &[Held]
    ensures { result.now ≡ take (length slots.now - 1) slots.now }
{
    if slots.is_empty() {
        slots
    } else {
        &slots[..slots.len() - 1]
    }
}

/// Adds the way of a lookup behind its first slot.
fn add_way_on(out: &mut String, naming: &Naming<'_>, rest: &[Held]) -> Result<(), AllocError>
    ensures { OnOk result (string_bytes out.new ≡ string_bytes out.old ++ spec.way_on (naming_view naming.now) rest.now) }
{
    match rest.last() {
        None => Ok(()),
        Some(last) => {
            let between = without_last(rest);
            let last = *last;
            let way = WayText {
                naming,
                between,
                last,
            };
            writeln!(out, "  {way}")
        }
    }
}

/// How a guard differs from the bits that are left.
#[derive(Clone, Copy)]
struct GuardText {
    guard: Guard,
    left: u32,
    read: u64,
}

impl fmt::Display for GuardText {
    ghost output = { λ g. Some (spec.guard_lookup_text g.guard g.left g.read) };

    #[tactic(auto, unfolding(crate::specs::Lookups::guard_lookup_text))]
    fn fmt<W: fmt::Write>(&self, f: &mut fmt::Formatter<W>) -> fmt::Result {
        let value = self.guard.value;
        let size = self.guard.size;
        let left = self.left;
        let read = self.read;
        if left < size {
            write!(f, "its guard has size {size}; bits left: {left}")
        } else {
            write!(
                f,
                "its guard is {value} of size {size}; the next {size} of the {left} bits left read {read}"
            )
        }
    }
}

/// Why a lookup ends.
#[derive(Clone, Copy)]
struct MissText(Miss);

impl fmt::Display for MissText {
    ghost output = { λ m. Some (spec.miss_text m.0) };

    fn fmt<W: fmt::Write>(&self, f: &mut fmt::Formatter<W>) -> fmt::Result {
        match self.0 {
            Miss::NoRoot => Ok(()),
            Miss::OtherGuard { node, left, read } => {
                let guard = guard_of(node.cap);
                let guard = GuardText { guard, left, read };
                write!(f, "{guard}")
            }
            Miss::TooFewBits { node, left } => {
                let radix = radix_of(node.cap);
                write!(
                    f,
                    "its radix is {radix}; bits left behind the guard: {left}"
                )
            }
            Miss::BitsLeft { left, .. } => {
                write!(f, "no CNode is there; bits left over: {left}")
            }
        }
    }
}

fn add_miss(out: &mut String, miss: Miss) -> Result<(), AllocError>
    ensures { OnOk result (string_bytes out.new ≡ string_bytes out.old ++ reason_line (spec.miss_text miss)) }
{
    let miss = MissText(miss);
    writeln!(out, "  {miss}")
}

fn would_text(word: Word) -> &'static str
    ensures { result.now ≡ spec.would_text word }
{
    if is_whole(word) {
        " would lead to slot "
    } else {
        " would name slot "
    }
}

/// What would lead to a slot.
#[derive(Clone, Copy)]
struct HintText<'a> {
    naming: &'a Naming<'a>,
    key: &'static str,
    number: u64,
    would: &'static str,
    slot: u64,
}

impl fmt::Display for HintText<'_> {
    ghost output = { λ h. Some (spec.hint_text (naming_view h.naming.now) h.key.now h.number h.would.now h.slot) };

    #[tactic(auto, unfolding(crate::specs::Lookups::hint_text))]
    fn fmt<W: fmt::Write>(&self, f: &mut fmt::Formatter<W>) -> fmt::Result {
        let key = self.key;
        let number = self.number;
        let would = self.would;
        let slot = self.naming.slot(self.slot);
        write!(f, "{key} {number}{would}{slot}")
    }
}

/// Adds what would lead to a slot.
fn add_hint(
    out: &mut String,
    naming: &Naming<'_>,
    word: Word,
    hint: Option<Hint>,
) -> Result<(), AllocError>
    ensures { OnOk result (string_bytes out.new ≡ string_bytes out.old ++ spec.hint_line (naming_view naming.now) word hint) }
{
    match hint {
        None => Ok(()),
        Some(Hint::Depth { depth, slot }) => {
            let key = depth_key(word);
            let number = depth as u64;
            let would = " would name slot ";
            let text = HintText {
                naming,
                key,
                number,
                would,
                slot,
            };
            writeln!(out, "  {text}")
        }
        Some(Hint::Number { number, slot }) => {
            let key = key_of(word);
            let would = would_text(word);
            let text = HintText {
                naming,
                key,
                number,
                would,
                slot,
            };
            writeln!(out, "  {text}")
        }
    }
}

fn hint_of<P: Profile, S: CapStore<P> + Drop, W: Waiters<P> + Drop>(
    kernel: &Kernel<P, S, W>,
    words: &KeyWords,
    word: Word,
    from: Held,
) -> Option<Hint>
    ensures { result ≡ spec.hint_of P.profile kernel.now words.now word from }
{
    let value = value_of(words, word);
    if is_whole(word) {
        kernel.word_hint(from.slot, value)
    } else {
        kernel.index_hint(from.slot, value, depth_of(words, word))
    }
}

/// How many bits of a word a lookup takes.
fn levels<P: Profile>(words: &KeyWords, word: Word) -> u32
    ensures value { result ≡ spec.levels P.profile words.now word }
    ensures most { result ≤ word_bits P.profile }
{
    if is_whole(word) {
        P::WORD_BITS
    } else {
        depth_of(words, word).min(P::WORD_BITS as u64) as u32
    }
}

/// Adds the lines of a lookup that begins at a CNode and fails.
fn add_missed<P: Profile, S: CapStore<P> + Drop, W: Waiters<P> + Drop>(
    alloc: Global,
    out: &mut String,
    kernel: &Kernel<P, S, W>,
    asked: Asked<'_, '_>,
    word: Word,
    from: Held,
    miss: Miss,
) -> Result<(), AllocError>
    ensures { OnOk result (string_bytes out.new ≡ string_bytes out.old
        ++ spec.missed_lines (asked_texts asked.entry) P.profile kernel.now (asked_view asked.entry) word from miss) }
{
    let words = key_words(&asked.call.op);
    let bits = levels::<P>(&words, word);
    let path = kernel.lookup_path(alloc, from.slot, value_of(&words, word), bits)?;
    add_start(out, asked, word, from)?;
    add_way(out, asked.naming, path.as_slice())?;
    add_miss(out, miss)?;
    let hint = hint_of::<P, S, W>(kernel, &words, word, from);
    add_hint(out, asked.naming, word, hint)
}

/// Adds the lines of a lookup that fails.
pub fn add_not_found<P: Profile, S: CapStore<P> + Drop, W: Waiters<P> + Drop>(
    alloc: Global,
    out: &mut String,
    kernel: &Kernel<P, S, W>,
    asked: Asked<'_, '_>,
    word: Word,
    from: Held,
    miss: Miss,
) -> Result<(), AllocError>
    ensures { OnOk result (string_bytes out.new ≡ string_bytes out.old
        ++ spec.not_found_lines (asked_texts asked.entry) P.profile kernel.now (asked_view asked.entry) word from miss) }
{
    match miss {
        Miss::NoRoot => add_no_root(out, asked, word, from),
        _ => add_missed::<P, S, W>(alloc, out, kernel, asked, word, from, miss),
    }
}

/// Adds that a depth names nothing.
pub fn add_no_depth<P: Profile, S: CapStore<P> + Drop, W: Waiters<P> + Drop>(
    out: &mut String,
    kernel: &Kernel<P, S, W>,
    asked: Asked<'_, '_>,
    word: Word,
    from: Held,
    most: u32,
) -> Result<(), AllocError>
    ensures { OnOk result (string_bytes out.new ≡ string_bytes out.old
        ++ spec.no_depth_lines (asked_texts asked.entry) P.profile kernel.now (asked_view asked.entry) word from most) }
{
    let depth = depth_said(asked, word);
    writeln!(out, "  {depth} is not from 1 to {most}")?;
    let words = key_words(&asked.call.op);
    let hint = hint_of::<P, S, W>(kernel, &words, word, from);
    add_hint(out, asked.naming, word, hint)
}
