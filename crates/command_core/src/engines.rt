//! Engines: what the program can make of an input, and its run over a source and a sink.
ghost use Rattle.std.specs.Prelude.{◌≡◌, ◌≢◌, ℕ, List, false, IfOk, IfErr};
ghost use Rattle.command_core.specs.Runs.{IsFound, IsRun, verdict_of};
ghost use Rattle.command_core.specs.declared.answer.Notes.{Notes};
ghost use Rattle.command_core.specs.declared.fault.Verdict.{Verdict};

use crate::answer::{Answer, Found};
use crate::fault::RunFault;
use crate::limits::INPUT_LIMIT;
use crate::sink::Sink;
use crate::source::Source;
use crate::streams::{read_below, write_all};
use std::alloc::Global;

/// What makes an answer of an input.
pub trait Engine {
    /// The text and the verdict are right for the input.
    ghost means: { Self → List ℕ → List ℕ → Verdict → Type 0 };

    /// What standard error says is right for the input. An engine that does not say what is right promises nothing of it.
    ghost tells: { Self → List ℕ → Notes → Type 0 } = { λ _ _ _. Unit {0} };

    /// The text that is to be written for the input, the verdict, and what standard error says.
    ///
    /// # Errors
    /// `Memory`.
    fn make(&self, alloc: Global, input: &[u8]) -> Result<Answer, RunFault>
        ensures made { IfOk result (λ made. means self.now input.now made.text.items made.verdict) }
        ensures told { IfOk result (λ made. tells self.now input.now made.notes) }
        ensures memory { IfErr result (λ fault. fault ≡ RunFault.Memory) };
}

/// Reads the source to its end, and writes to the sink the text that the engine makes of it. Its verdict is the engine's, and so
/// is what standard error says.
///
/// # Errors
/// `Reading` if a read failed in this call, or if `INPUT_LIMIT` bytes came without an end; nothing is written
/// then. `Writing` if a write failed or took no byte; a front of the text was written then. `Memory`; nothing is
/// written then.
pub fn run_engine<S: Source, K: Sink, E: Engine>(
    alloc: Global,
    engine: &E,
    source: &mut S,
    sink: &mut K,
) -> Result<Found, RunFault>
    requires source { S.failed source.old ≡ false }
    requires sink { K.failed sink.old ≡ false }
    ensures run { IsRun (E.means engine.now) S.Source K.Sink source.old source.new sink.old sink.new (verdict_of result) }
    ensures found { IfOk result (IsFound (E.means engine.now) (E.tells engine.now) S.Source K.Sink source.old source.new sink.old sink.new) }
    ensures never_thread { result ≢ Err RunFault.Thread }
{
    let input = read_below(alloc, source, INPUT_LIMIT)?;
    let answer = engine.make(alloc, input.as_slice())?;
    write_all(sink, answer.text.as_slice())?;
    Ok(answer.found())
}
