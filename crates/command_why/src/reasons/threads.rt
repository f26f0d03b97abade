//! The lines of reasons that are about the calling thread.
ghost use Rattle.command_why.specs.Limits.{threads_told};
ghost use Rattle.std.specs.Prelude.{◌≡◌, ◌++◌, take, OnOk, Some, string_bytes};
ghost use Rattle.setup_report.specs.Naming.{naming_view};
ghost use Rattle.command_why.specs.Asked.{asked_texts, asked_view};
ghost use Rattle.command_why.specs.Reasons as spec;

use crate::reasons::asked::{Asked, thread_name};
use kernel_core::ThreadState;
use setup_report::{Naming, Object, ThreadsText};
use std::alloc::AllocError;
use std::fmt::{self, Write};

/// How many live threads are listed.
pub const THREADS_TOLD: usize = 8;

/// How many live threads there are besides.
#[derive(Clone, Copy)]
struct MoreText(usize);

impl fmt::Display for MoreText {
    ghost output = { λ m. Some (spec.more_text m.0) };

    fn fmt<W: fmt::Write>(&self, f: &mut fmt::Formatter<W>) -> fmt::Result {
        if self.0 > THREADS_TOLD {
            let more = self.0 - THREADS_TOLD;
            write!(f, " and {more} more")
        } else {
            Ok(())
        }
    }
}

/// The first threads of some, as many as are listed.
fn first_threads(threads: &[u64]) -> &[u64]
    ensures { result.now ≡ take THREADS_TOLD threads.now }
{
    if threads.len() > THREADS_TOLD {
        &threads[..THREADS_TOLD]
    } else {
        threads
    }
}

/// Adds the line of the live threads.
#[tactic(auto, unfolding(crate::specs::Reasons::live_line))]
pub fn add_live(out: &mut String, naming: &Naming<'_>, threads: &[u64]) -> Result<(), AllocError>
    ensures { OnOk result (string_bytes out.new ≡ string_bytes out.old
        ++ spec.live_line (naming_view naming.now) threads.now) }
{
    if threads.is_empty() {
        return writeln!(out, "  no thread is live");
    }
    let more = MoreText(threads.len());
    let threads = first_threads(threads);
    let first = ThreadsText { naming, threads };
    writeln!(out, "  live threads:{first}{more}")
}

/// The calling thread: as it is written and, if objects are written by their addresses, by the name that spells it.
#[derive(Clone, Copy)]
struct ThreadText<'a, 'n>(Asked<'a, 'n>);

impl fmt::Display for ThreadText<'_, '_> {
    ghost output = { λ t. Some (spec.asked_thread_text (asked_texts t.0) (asked_view t.0)) };

    #[tactic(auto, unfolding(crate::specs::Reasons::asked_thread_text))]
    fn fmt<W: fmt::Write>(&self, f: &mut fmt::Formatter<W>) -> fmt::Result {
        let naming = self.0.naming;
        let thread = naming.object(Object::Thread(self.0.call.thread));
        if naming.is_by_name() {
            return write!(f, "{thread}");
        }
        let name = thread_name(self.0);
        write!(f, "{thread}{name}")
    }
}

/// Adds at which address no live thread is.
#[tactic(auto, unfolding(crate::specs::Reasons::no_thread_line))]
pub fn add_address(out: &mut String, asked: Asked<'_, '_>) -> Result<(), AllocError>
    ensures { OnOk result (string_bytes out.new ≡ string_bytes out.old
        ++ spec.no_thread_line (asked_texts asked.entry) (asked_view asked.entry)) }
{
    let thread = ThreadText(asked);
    writeln!(out, "  no live thread is at {thread}")
}

/// What a thread does.
#[derive(Clone, Copy)]
struct DoesText<'a> {
    naming: &'a Naming<'a>,
    state: ThreadState,
}

impl fmt::Display for DoesText<'_> {
    ghost output = { λ d. Some (spec.does_text (naming_view d.naming.now) d.state) };

    fn fmt<W: fmt::Write>(&self, f: &mut fmt::Formatter<W>) -> fmt::Result {
        match self.state {
            ThreadState::Ready => write!(f, "is ready"),
            ThreadState::Inactive => write!(f, "is inactive"),
            ThreadState::Sending(address) => {
                let endpoint = self.naming.object(Object::Endpoint(address));
                write!(f, "waits to send on endpoint {endpoint}")
            }
            ThreadState::Receiving(address) => {
                let endpoint = self.naming.object(Object::Endpoint(address));
                write!(f, "waits to receive on endpoint {endpoint}")
            }
        }
    }
}

/// Adds that the calling thread is not ready.
pub fn add_not_ready(
    out: &mut String,
    asked: Asked<'_, '_>,
    state: ThreadState,
) -> Result<(), AllocError>
    ensures { OnOk result (string_bytes out.new ≡ string_bytes out.old
        ++ spec.not_ready_lines (asked_texts asked.entry) (asked_view asked.entry) state) }
{
    let thread = ThreadText(asked);
    let naming = asked.naming;
    let does = DoesText { naming, state };
    writeln!(out, "  thread {thread} {does}")?;
    writeln!(out, "  a call is made by a thread that is ready")
}

/// The number of the code is that of the definitions.
pub fn threads_told_are_those_of_the_definitions()
    ensures { THREADS_TOLD ≡ threads_told }
{}
