//! The engine that writes a set-up of format 1 as one of format 2.
ghost use Rattle.std.specs.Prelude.{◌≡◌, ◌≢◌, false, IfOk};
ghost use Rattle.command_marks.specs.Migrations.{IsMigration};
ghost use Rattle.command_core.specs.Runs.{IsRun};

use command_check::refused;
use command_core::{Answer, Engine, RunFault, Sink, Source, Verdict, run_engine};
use setup_format::SetupFault;
use setup_migrate::{migrate, table_text};
use std::alloc::{AllocError, Global};

/// The text that is written for the bytes of a set-up of format 1, and the verdict.
#[tactic(auto, using(crate::proofs::Programs::same_program))]
fn migration_of(alloc: Global, bytes: &[u8]) -> Result<Answer, AllocError>
    ensures { IfOk result (λ made. IsMigration bytes.now made.text.items made.verdict) }
{
    match migrate(alloc, bytes) {
        Ok(table) => {
            let text = table_text(alloc, &table)?;
            Ok(Answer::new(alloc, text, Verdict::AllMet))
        }
        Err(SetupFault::Memory) => Err(AllocError),
        Err(fault) => refused(alloc, &fault),
    }
}

/// The set-up of format 2 that stands for one of format 1. The verdict is `AllMet` or `Refused`.
#[derive(Clone, Copy)]
pub struct Migrator;

impl Engine for Migrator {
    ghost means = { λ migrator. IsMigration };

    fn make(&self, alloc: Global, input: &[u8]) -> Result<Answer, RunFault> {
        migration_of(alloc, input).map_err(|_| RunFault::Memory)
    }
}

/// Reads the source to its end, and writes to the sink the set-up of format 2 that stands for the one of format 1 that it holds, or
/// the line of a refusal.
///
/// # Errors
/// `Reading` if a read failed in this call, or if `INPUT_LIMIT` bytes came without an end; nothing is written
/// then. `Writing` if a write failed or took no byte; a front of the text was written then. `Memory`; nothing is
/// written then.
pub fn migrate_run<S: Source, K: Sink>(
    alloc: Global,
    source: &mut S,
    sink: &mut K,
) -> Result<Verdict, RunFault>
    requires source { S.failed source.old ≡ false }
    requires sink { K.failed sink.old ≡ false }
    ensures run { IsRun IsMigration S.Source K.Sink source.old source.new sink.old sink.new result }
    ensures never_thread { result ≢ Err RunFault.Thread }
{
    run_engine(alloc, &Migrator, source, sink).map(|found| found.verdict)
}
