//! The run of a job.
ghost use Rattle.std.specs.Prelude.{◌≡◌, ◌≢◌, ℕ, List, false, IsOk, option_map};
ghost use Rattle.command_core.specs.Devices.{Gave};
ghost use Rattle.command_core.specs.Runs.{IsRun, verdict_of};
ghost use Rattle.setup_format.specs.Setups.{setup_of_bytes};
ghost use Rattle.program.specs.Jobs.{IsShared, meaning};

use crate::work::Work;
use command_core::{Found, RunFault, Sink, Source, run_engine};
use command_line::{Job, Options};
use command_threads::threads_found_open;
use std::alloc::Global;
use std::sync::Wait;
use std::thread::Threads;

/// Lets the clients of a set-up share a kernel, by the options.
fn threads<R: Threads + Wait + Sync, S: Source, K: Sink>(
    rt: &R,
    alloc: Global,
    options: Options<'_>,
    source: &mut S,
    sink: &mut K,
) -> Result<Found, RunFault>
    requires source { S.failed source.old ≡ false }
    requires sink { K.failed sink.old ≡ false }
    ensures run { IsRun (IsShared options.entry) S.Source K.Sink source.old source.new sink.old sink.new (verdict_of result) }
    ensures accepted { result ≡ Err RunFault.Thread → (input : List ℕ) × Gave S.left S.given source.old source.new input × IsOk (setup_of_bytes input) }
{
    let first = options.first.unwrap_or(0) as usize;
    threads_found_open(rt, alloc, options.names, first, source, sink)
}

/// Reads the source, the file of a path if it has one, to its end, and writes to the sink what a job that starts no threads makes of it
/// by the options.
pub(crate) fn run_work<S: Source, K: Sink>(
    alloc: Global,
    job: Job,
    options: Options<'_>,
    policy: &[u8],
    path: Option<&str>,
    source: &mut S,
    sink: &mut K,
) -> Result<Found, RunFault>
    requires job { job ≢ Job.Threads }
    requires source { S.failed source.old ≡ false }
    requires sink { K.failed sink.old ≡ false }
    ensures run { IsRun (meaning job options.entry policy.now (option_map (λ s. s.now) path.entry)) S.Source K.Sink source.old source.new sink.old sink.new (verdict_of result) }
    ensures never_thread { result ≢ Err RunFault.Thread }
{
    let work = Work::new(job, options, policy, path);
    run_engine(alloc, &work, source, sink)
}

/// Reads the source, the file of a path if it has one, to its end, and writes to the sink what the job makes of it by the options, of
/// which one may name a policy with these bytes. The job `Threads` waits until the set-up's clients have ended.
///
/// # Errors
/// `Reading` if a read failed in this call, or if `INPUT_LIMIT` bytes came without an end; nothing is written
/// then. `Writing` if a write failed or took no byte; a front of the text was written then. `Memory`, and `Thread`
/// if the job starts threads and the set-up was accepted; nothing is written then.
pub fn run_job<R: Threads + Wait + Sync, S: Source, K: Sink>(
    rt: &R,
    alloc: Global,
    job: Job,
    options: Options<'_>,
    policy: &[u8],
    path: Option<&str>,
    source: &mut S,
    sink: &mut K,
) -> Result<Found, RunFault>
    requires source { S.failed source.old ≡ false }
    requires sink { K.failed sink.old ≡ false }
    ensures run { IsRun (meaning job options.entry policy.now (option_map (λ s. s.now) path.entry)) S.Source K.Sink source.old source.new sink.old sink.new (verdict_of result) }
    ensures thread { result ≡ Err RunFault.Thread → job ≡ Job.Threads }
    ensures accepted { result ≡ Err RunFault.Thread → (input : List ℕ) × Gave S.left S.given source.old source.new input × IsOk (setup_of_bytes input) }
{
    match job {
        Job::Threads => threads(rt, alloc, options, source, sink),
        other => run_work(alloc, other, options, policy, path, source, sink),
    }
}
