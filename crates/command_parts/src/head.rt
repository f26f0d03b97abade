//! The first lines: of which state a text is, and which threads are trusted.
ghost use Rattle.std.specs.Prelude.{◌≡◌, ◌++◌, OnOk, Some, string_bytes};
ghost use Rattle.command_parts.specs.Telling.{part_naming_view};
ghost use Rattle.command_parts.specs.Text as spec;
ghost use Rattle.command_parts.specs.Private.Lines.{trusted_line};

use crate::telling::PartNaming;
use cap_core::Profile;
use ipc_core::Waiters;
use kernel_core::Kernel;
use list_questions::{Line, add_each};
use setup_format::Setup;
use setup_values::profile_text;
use slot_core::CapStore;
use std::alloc::AllocError;
use std::fmt;
use std::fmt::Write;

/// Of which state a text is: the set-up, how many of its calls are made, and how many of these were refused; and which threads are
/// trusted to make no more calls, and which to go on only to send and receive.
#[derive(Clone, Copy)]
pub struct Heading<'a> {
    pub setup: &'a Setup,
    pub made: usize,
    pub refused: usize,
    pub without: &'a [u64],
    pub messages: &'a [u64],
}

/// How many calls were refused, if some were.
#[derive(Clone, Copy)]
struct RefusedText(usize);

impl fmt::Display for RefusedText {
    ghost output = { λ r. Some (spec.refused_text r.0) };

    fn fmt<W: fmt::Write>(&self, f: &mut fmt::Formatter<W>) -> fmt::Result {
        let refused = self.0;
        if refused == 0 {
            write!(f, "")
        } else {
            write!(f, " refused {refused}")
        }
    }
}

/// What is said about an object that is not there.
pub fn none_text(live: bool) -> &'static str
    ensures { result.now ≡ spec.none_text live }
{
    if live { "" } else { " none" }
}

/// A thread that is trusted, after a word that says how.
#[derive(Drop)]
struct TrustedLine<'a, P: Profile, S: CapStore<P> + Drop, W: Waiters<P> + Drop> {
    word: &'static str,
    told: &'a PartNaming<'a>,
    kernel: &'a Kernel<P, S, W>,
}

impl<P: Profile, S: CapStore<P> + Drop, W: Waiters<P> + Drop> Line<u64>
    for TrustedLine<'_, P, S, W> {
    ghost line = { λ l thread. trusted_line l.word.now (part_naming_view l.told.now).texts l.kernel.now thread };

    fn add(&self, out: &mut String, thread: &u64) -> Result<(), AllocError> {
        let word = self.word;
        let name = self.told.thread(*thread);
        let none = none_text(self.kernel.thread_state(*thread).is_some());
        writeln!(out, "{word}{name}{none}")
    }
}

/// Adds the first lines of a text with this name and version: of which state it is, and which threads are trusted.
pub fn add_heading<P: Profile, S: CapStore<P> + Drop, W: Waiters<P> + Drop>(
    out: &mut String,
    title: &str,
    told: &PartNaming<'_>,
    heading: &Heading<'_>,
    kernel: &Kernel<P, S, W>,
) -> Result<(), AllocError>
    ensures { OnOk result (string_bytes out.new ≡ string_bytes out.old
        ++ spec.head_lines title.now (part_naming_view told.now).texts heading.now.setup.now heading.now.made heading.now.refused heading.now.without.now heading.now.messages.now kernel.now) }
{
    let profile = profile_text(heading.setup.profile());
    let memory_bits = heading.setup.plan().memory_bits();
    let calls = heading.setup.calls().len();
    let made = heading.made;
    let refused = RefusedText(heading.refused);
    writeln!(
        out,
        "{title} {profile} memory_bits {memory_bits} calls {calls} after {made}{refused}"
    )?;
    let without = TrustedLine {
        word: "without ",
        told: &*told,
        kernel: &*kernel,
    };
    add_each(out, heading.without, &without)?;
    let messages = TrustedLine {
        word: "messages ",
        told: &*told,
        kernel: &*kernel,
    };
    add_each(out, heading.messages, &messages)
}
