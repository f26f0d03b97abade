//! The engine that runs a set-up and compares its replies with what it expects.
ghost use Rattle.std.specs.Prelude.{◌≡◌, ◌≢◌, false, IfOk};
ghost use Rattle.setup_format.specs.Setups.{setup_of_bytes};
ghost use Rattle.command_check.specs.Notes.{unexpected_in};
ghost use Rattle.command_check.specs.Program.{IsTextOfSetup, program};
ghost use Rattle.command_core.specs.Runs.{IsRun};

use crate::run::{CountedText, counted_text_of, text_of};
use cap_core::{Narrow, Wide};
use command_core::{Answer, Engine, RunFault, Sink, Source, Verdict, run_engine};
use ipc_core::LinkedWaiters;
use slot_core::LinkedStore;
use std::alloc::{AllocError, Global};

/// The text that is written for the bytes of an input, and the count of the expectations, by the linked forms.
pub fn checked_text(alloc: Global, bytes: &[u8]) -> Result<CountedText, AllocError>
    ensures text { IfOk result (IsTextOfSetup (setup_of_bytes bytes.now)) }
    ensures refused { IfOk result (λ made. made.notes.refused.items ≡ unexpected_in (setup_of_bytes bytes.now)) }
{
    counted_text_of::<
        LinkedStore<Wide>,
        LinkedWaiters<Wide>,
        LinkedStore<Narrow>,
        LinkedWaiters<Narrow>,
    >(alloc, bytes)
}

/// The report of a set-up's run, by the linked forms. The verdict is that of the expectations.
#[derive(Clone, Copy)]
pub struct Checker;

impl Engine for Checker {
    ghost means = { λ checker input text verdict. program input ≡ (text, verdict) };

    ghost tells = { λ checker input notes. notes.refused.items ≡ unexpected_in (setup_of_bytes input) };

    fn make(&self, alloc: Global, input: &[u8]) -> Result<Answer, RunFault> {
        text_of::<
            LinkedStore<Wide>,
            LinkedWaiters<Wide>,
            LinkedStore<Narrow>,
            LinkedWaiters<Narrow>,
        >(alloc, input).map_err(|_| RunFault::Memory)
    }
}

/// Reads the source to its end, runs the set-up that it holds, and writes the report, or the line of a refusal, to the
/// sink.
///
/// # Errors
/// `Reading` if a read failed in this call, or if `INPUT_LIMIT` bytes came without an end; nothing is written
/// then. `Writing` if a write failed or took no byte; a front of the text was written then. `Memory`; nothing is
/// written then.
pub fn check<S: Source, K: Sink>(
    alloc: Global,
    source: &mut S,
    sink: &mut K,
) -> Result<Verdict, RunFault>
    requires source { S.failed source.old ≡ false }
    requires sink { K.failed sink.old ≡ false }
    ensures run { IsRun (λ input text verdict. program input ≡ (text, verdict))
        S.Source K.Sink source.old source.new sink.old sink.new result }
    ensures never_thread { result ≢ Err RunFault.Thread }
{
    run_engine(alloc, &Checker, source, sink).map(|found| found.verdict)
}
