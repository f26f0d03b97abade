//! The run of a set-up's clients, over a source and a sink.
ghost use Rattle.std.specs.Prelude.{◌≡◌, ◌++◌, ◌-◌, List, ℕ, Err, IsOk, [], false, IfOk, IfErr, codes, vec_len};
ghost use Rattle.command_core.specs.Devices.{Gave};
ghost use Rattle.setup_values.specs.Names.{names_view};
ghost use Rattle.setup_format.specs.Refusal.{setup_fault_text};
ghost use Rattle.setup_format.specs.Setups.{setup_of_bytes};
ghost use Rattle.kernel_abstract.specs.Plan.{IsPlan};
ghost use Rattle.kernel_abstract.specs.State.{shown};
ghost use Rattle.command_check.specs.Notes.{noted};
ghost use Rattle.command_check.specs.Program.{verdict_on as verdict_of_counts};
ghost use Rattle.command_core.specs.Runs.{IsRun, verdict_of};
ghost use Rattle.command_threads.specs.Private.Begun.{IsBegunKernel, state_begun};
ghost use Rattle.command_threads.specs.Private.Settled.{IsOwnFault};
ghost use Rattle.command_threads.specs.SharedRuns.{IsOutcomeIn, IsSharedProgram, IsToldIn, IsToldProgram, TellsUnmet, count_first};

use crate::beginning::{Begun, begin, whole_history};
use crate::open_gate::OpenGate;
use crate::sharing::shared_run;
use crate::unmet::unmet_calls;
use cap_core::{Narrow, Profile, ProfileName, Wide};
use command_check::refused as refused_answer;
use command_core::{
    Answer, Found, INPUT_LIMIT, RunFault, Sink, Source, Verdict, read_below, write_all,
};
use ipc_core::{LinkedWaiters, MakeWaiters};
use kernel_shared::{Gate, Naming};
use setup_format::{ReadSetup, SetupFault, read};
use setup_read::history_report;
use setup_report::Naming as ObjectNaming;
use slot_core::{DerivationStore, LinkedStore, MakeStore};
use std::alloc::Global;
use std::marker::Brand;
use std::sync::Wait;
use std::sync::ledger::Blank;
use std::thread::Threads;

/// Whether all calls of the set-up are made.
fn verdict_on(entries: usize, calls: usize) -> Verdict
    ensures { result ≡ verdict_of_counts entries calls }
{
    if entries == calls {
        Verdict::AllMet
    } else {
        Verdict::NotMet
    }
}

/// Lets the clients of a set-up share a kernel after its first calls, and reports on the history of all calls.
fn report_on<
    N: Naming + Send + Sync,
    P: Profile + Send + Sync,
    S: MakeStore<P> + DerivationStore<P> + Send + Sync,
    W: MakeWaiters<P> + Send + Sync,
    R: Threads + Wait + Sync,
    G: Gate + Sync,
>(
    rt: &R,
    alloc: Global,
    blank: Blank,
    by_name: bool,
    read: &ReadSetup,
    begun: Begun<P, S, W>,
    first: usize,
    gate: &G,
) -> Result<Answer, RunFault>
    requires name { blank.name ≡ N.name }
    requires parts { blank.parts ≡ N.parts }
    requires clients { blank.parts ≡ read.now.setup.clients }
    requires plan { IsPlan P.profile read.now.setup.plan }
    requires begun { IsBegunKernel P.profile read.now.setup first begun.replies.items begun.kernel }
    requires many { vec_len begun.replies ≡ count_first first read.now.setup }
    requires profile { N.profile ≡ P.profile }
    requires start { N.start ≡ state_begun P.profile read.now.setup first }
    requires opening { N.opening ≡ shown (state_begun P.profile read.now.setup first) }
    requires limit { N.limit ≡ read.now.setup.limit - count_first first read.now.setup }
    ensures made { IfOk result (λ made. IsOutcomeIn by_name G.ends first P.profile (names_view read.now.names.items) read.now.setup made.text.items made.verdict) }
    ensures told { IfOk result (λ made. IsToldIn by_name G.ends first P.profile (names_view read.now.names.items) read.now.setup made.text.items made.verdict (noted made.notes.unmet.items)) }
    ensures fault { IfErr result IsOwnFault }
{
    let setup = &read.setup;
    let Begun { kernel, replies } = begun;
    let book = shared_run::<N, P, S, W, R, G>(
        rt,
        alloc,
        blank,
        setup,
        kernel,
        replies.len(),
        gate,
    )?;
    let _limit = setup.limit();
    let later = book.history.as_slice();
    let Ok(history) = whole_history(alloc, setup, replies.as_slice(), later) else {
        return Err(RunFault::Memory);
    };
    let names = read.names.as_slice();
    let Ok(naming) = ObjectNaming::in_report::<P, S, W>(
        alloc,
        by_name,
        names,
        setup.plan(),
        &book.kernel,
    ) else {
        return Err(RunFault::Memory);
    };
    let Ok(text) = history_report(alloc, &naming, setup, history.as_slice(), &book.kernel) else {
        return Err(RunFault::Memory);
    };
    let Ok(unmet) = unmet_calls(alloc, setup, history.as_slice()) else {
        return Err(RunFault::Memory);
    };
    let verdict = verdict_on(history.len(), setup.calls().len());
    Ok(Answer::with_unmet(alloc, text, verdict, unmet))
}

/// The same by the linked forms, from a boot on, under a name of its own.
fn report_by_links<P: Profile + Send + Sync, R: Threads + Wait + Sync, G: Gate + Sync>(
    rt: &R,
    alloc: Global,
    by_name: bool,
    read: &ReadSetup,
    first: usize,
    gate: &G,
) -> Result<Answer, RunFault>
    requires { IsPlan P.profile read.now.setup.plan }
    ensures made { IfOk result (λ made. IsOutcomeIn by_name G.ends first P.profile (names_view read.now.names.items) read.now.setup made.text.items made.verdict) }
    ensures told { IfOk result (λ made. IsToldIn by_name G.ends first P.profile (names_view read.now.names.items) read.now.setup made.text.items made.verdict (noted made.notes.unmet.items)) }
    ensures fault { IfErr result IsOwnFault }
{
    let Ok(begun) = begin::<P, LinkedStore<P>, LinkedWaiters<P>>(alloc, &read.setup, first) else {
        return Err(RunFault::Memory);
    };
    let blank = Blank::new(u64::from(read.setup.clients()));
    report_on::<Brand, P, LinkedStore<P>, LinkedWaiters<P>, R, G>(
        rt, alloc, blank, by_name, read, begun, first, gate,
    )
}

/// The same in the profile of the set-up.
fn report_in_profile<R: Threads + Wait + Sync, G: Gate + Sync>(
    rt: &R,
    alloc: Global,
    by_name: bool,
    read: &ReadSetup,
    first: usize,
    gate: &G,
) -> Result<Answer, RunFault>
    requires { IsPlan read.now.setup.profile read.now.setup.plan }
    ensures made { IfOk result (λ made. IsOutcomeIn by_name G.ends first read.now.setup.profile (names_view read.now.names.items) read.now.setup made.text.items made.verdict) }
    ensures told { IfOk result (λ made. IsToldIn by_name G.ends first read.now.setup.profile (names_view read.now.names.items) read.now.setup made.text.items made.verdict (noted made.notes.unmet.items)) }
    ensures fault { IfErr result IsOwnFault }
{
    match read.setup.profile() {
        ProfileName::Wide => report_by_links::<Wide, R, G>(rt, alloc, by_name, read, first, gate),
        ProfileName::Narrow => {
            report_by_links::<Narrow, R, G>(rt, alloc, by_name, read, first, gate)
        }
    }
}

/// The line that is written for a set-up that is refused, and the verdict.
fn refused(alloc: Global, fault: &SetupFault) -> Result<Answer, RunFault>
    ensures text { IfOk result (λ made. made.text.items ≡ setup_fault_text fault.now ++ codes "\n") }
    ensures verdict { IfOk result (λ made. made.verdict ≡ Verdict.Refused) }
    ensures unmet { IfOk result (λ made. made.notes.unmet.items ≡ []) }
    ensures memory { IfErr result (λ e. e ≡ RunFault.Memory) }
{
    refused_answer(alloc, fault).map_err(|_| RunFault::Memory)
}

/// The text that is written for the bytes of an input, and the verdict.
#[tactic(auto, using(crate::proofs::Reports::accepted_is), unfolding(crate::specs::SharedRuns::IsSharedProgram, crate::specs::SharedRuns::IsToldProgram))]
fn report_of_input<R: Threads + Wait + Sync, G: Gate + Sync>(
    rt: &R,
    alloc: Global,
    first: usize,
    input: &[u8],
    gate: &G,
) -> Result<Answer, RunFault>
    ensures made { IfOk result (λ made. IsSharedProgram false G.ends first input.now made.text.items made.verdict) }
    ensures told { IfOk result (λ made. IsToldProgram false G.ends first input.now made.text.items made.verdict (noted made.notes.unmet.items)) }
    ensures fault { IfErr result IsOwnFault }
    ensures accepted { result ≡ Err RunFault.Thread → IsOk (setup_of_bytes input.now) }
{
    match read(alloc, input) {
        Ok(read) => report_in_profile(rt, alloc, false, &read, first, gate),
        Err(SetupFault::Memory) => Err(RunFault::Memory),
        Err(fault) => refused(alloc, &fault),
    }
}

/// The same with a gate that is always open, by addresses or by names.
#[tactic(auto, using(crate::proofs::Reports::accepted_is), unfolding(crate::specs::SharedRuns::IsSharedProgram, crate::specs::SharedRuns::IsToldProgram))]
fn report_of_input_open<R: Threads + Wait + Sync>(
    rt: &R,
    alloc: Global,
    by_name: bool,
    first: usize,
    input: &[u8],
) -> Result<Answer, RunFault>
    ensures made { IfOk result (λ made. IsSharedProgram by_name (λ _ _. ⊥) first input.now made.text.items made.verdict) }
    ensures told { IfOk result (λ made. IsToldProgram by_name (λ _ _. ⊥) first input.now made.text.items made.verdict (noted made.notes.unmet.items)) }
    ensures fault { IfErr result IsOwnFault }
    ensures accepted { result ≡ Err RunFault.Thread → IsOk (setup_of_bytes input.now) }
{
    match read(alloc, input) {
        Ok(read) => {
            let gate = OpenGate::among(read.setup.clients());
            report_in_profile(rt, alloc, by_name, &read, first, &gate)
        }
        Err(SetupFault::Memory) => Err(RunFault::Memory),
        Err(fault) => refused(alloc, &fault),
    }
}

/// Reads the source to its end, makes the first calls of the set-up that it holds, in the set-up's order, as many as `first`
/// says or as the history has room for, and lets the clients then make the others of one kernel, each its own calls in a
/// thread of its own, with the gate before and after each call. It writes the report of the history to the sink, or the
/// line by which the set-up is refused. It waits until the clients have ended. A history may lack calls if it is full,
/// and if the gate ended a client. What it found notes the calls of the history whose expectation is not met.
///
/// # Errors
/// `Reading` if a read failed in this call, or if `INPUT_LIMIT` bytes came without an end; nothing is written
/// then. `Writing` if a write failed or took no byte; a front of the text was written then. `Memory` if memory was
/// wanted and not there, by any client too, whatever stopped the others; nothing is written then. `Thread` if a
/// thread could not be started, the shared kernel gave a reader no entry, or a client lost a call or found its name
/// taken; nothing is written then.
pub fn threads_found<R: Threads + Wait + Sync, S: Source, K: Sink, G: Gate + Sync>(
    rt: &R,
    alloc: Global,
    first: usize,
    source: &mut S,
    sink: &mut K,
    gate: &G,
) -> Result<Found, RunFault>
    requires source { S.failed source.old ≡ false }
    requires sink { K.failed sink.old ≡ false }
    ensures run { IsRun (IsSharedProgram false G.ends first) S.Source K.Sink source.old source.new sink.old sink.new (verdict_of result) }
    ensures unmet { IfOk result (TellsUnmet false G.ends first S.Source K.Sink source.old source.new sink.old sink.new) }
    ensures accepted { result ≡ Err RunFault.Thread → (input : List ℕ) × Gave S.left S.given source.old source.new input × IsOk (setup_of_bytes input) }
{
    let input = read_below(alloc, source, INPUT_LIMIT)?;
    let answer = report_of_input(rt, alloc, first, input.as_slice(), gate)?;
    write_all(sink, answer.text.as_slice())?;
    Ok(answer.found())
}

/// The same with a gate that is always open, an `OpenGate`, as the program's subcommand `threads` has it: a history lacks
/// calls only if it is full. If `by_name` is set, objects and slots that have a name in the state after the calls are written by it.
///
/// # Errors
/// As `threads_found`.
pub fn threads_found_open<R: Threads + Wait + Sync, S: Source, K: Sink>(
    rt: &R,
    alloc: Global,
    by_name: bool,
    first: usize,
    source: &mut S,
    sink: &mut K,
) -> Result<Found, RunFault>
    requires source { S.failed source.old ≡ false }
    requires sink { K.failed sink.old ≡ false }
    ensures run { IsRun (IsSharedProgram by_name (λ _ _. ⊥) first) S.Source K.Sink source.old source.new sink.old sink.new (verdict_of result) }
    ensures unmet { IfOk result (TellsUnmet by_name (λ _ _. ⊥) first S.Source K.Sink source.old source.new sink.old sink.new) }
    ensures accepted { result ≡ Err RunFault.Thread → (input : List ℕ) × Gave S.left S.given source.old source.new input × IsOk (setup_of_bytes input) }
{
    let input = read_below(alloc, source, INPUT_LIMIT)?;
    let answer = report_of_input_open(rt, alloc, by_name, first, input.as_slice())?;
    write_all(sink, answer.text.as_slice())?;
    Ok(answer.found())
}

/// Reads the source to its end, and lets the clients of the set-up that it holds make their calls of one kernel, each its own
/// calls in a thread of its own, with the gate before and after each call. It writes the report of the history to the sink,
/// or the line by which the set-up is refused. It waits until the clients have ended.
///
/// # Errors
/// As `threads_found`.
pub fn threads_run<R: Threads + Wait + Sync, S: Source, K: Sink, G: Gate + Sync>(
    rt: &R,
    alloc: Global,
    source: &mut S,
    sink: &mut K,
    gate: &G,
) -> Result<Verdict, RunFault>
    requires source { S.failed source.old ≡ false }
    requires sink { K.failed sink.old ≡ false }
    ensures run { IsRun (IsSharedProgram false G.ends 0) S.Source K.Sink source.old source.new sink.old sink.new result }
    ensures accepted { result ≡ Err RunFault.Thread → (input : List ℕ) × Gave S.left S.given source.old source.new input × IsOk (setup_of_bytes input) }
{
    threads_found(rt, alloc, 0, source, sink, gate).map(|found| found.verdict)
}
