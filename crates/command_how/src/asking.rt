//! How it could happen, as the answer of a command.
ghost use Rattle.std.specs.Prelude.{◌≡◌, ◌≤◌, ℕ, IfOk, length};
ghost use Rattle.kernel_abstract.specs.Memory.{IsInMemory};
ghost use Rattle.kernel_abstract.specs.Plan.{IsPlan, IsWithinLimits};
ghost use Rattle.setup_values.specs.Names.{names_view};
ghost use Rattle.setup_report.specs.declared.meanings.meant.ObjectKind.TheVariants as objects;
ghost use Rattle.setup_report.specs.Meant as words;
ghost use Rattle.setup_report.specs.State as state;
ghost use Rattle.command_parts.specs.Ever.{AreRightParts};
ghost use Rattle.command_how.specs.How as spec;

use crate::telling::told;
use cap_core::Profile;
use command_check::{Behind, StateCommand};
use command_core::{Answer, Verdict};
use command_how_witness::{Asked, Happening};
use command_parts::{ObjectWords, absent_answer, named, parts_of_callers};
use ipc_core::{MakeWaiters, Waiters};
use kernel_core::Kernel;
use query_parts::{Parts, PartsFault};
use setup_format::Setup;
use setup_marks::is_for_flows;
use setup_report::{ObjectKind, StateRows, are_meant, object_meant, state_rows};
use setup_values::Name;
use slot_core::{CapStore, DerivationStore, MakeStore};
use std::alloc::{AllocError, Global};

/// How many copies of the kernel are tried if no number is given.
const STATES: u64 = 2_000;

/// How many copies of the kernel are tried, by the number that is given.
pub fn most_of(states: Option<u64>) -> u64
    ensures { result ≡ spec.most_of states }
{
    states.unwrap_or(STATES)
}

/// Why no calls are looked for in a set-up of `import --flows`: a thread uses there what no call of it can name.
pub fn flows_absent(alloc: Global) -> Result<Answer, AllocError>
    ensures { IfOk result (λ made. spec.IsNothing made.text.items made.verdict) }
{
    let absent = String::from_str(
        alloc,
        "made by import --flows: no calls are looked for; sel4sim never has the chain",
    )?;
    Ok(Answer::absent(alloc, absent))
}

/// What is asked after the first calls of a set-up: whether it can happen from the thread `from` to the thread `to`; by messages but by the endpoints `by`, with a badge if one is given; if the threads `without` make no more calls; and
/// by so many copies of the kernel at most. Each thread and each endpoint is given by its address, by its name, or by a slot of the
/// root CNode (`object_meant`).
///
/// The verdict is `AllMet` if the text is a witness: a set-up that makes the first calls, then others that show it, and meets all
/// that it expects; `NotMet` with a line if it is excluded, or no calls are found; or `Absent` with nothing written: if
/// `import --flows` made the set-up, if a word stands for nothing of its kind, if no thread is live at `from` or at `to`, and
/// if both are one.
#[derive(Clone, Copy, Drop)]
pub struct How<'a> {
    pub what: Happening,
    pub from: &'a str,
    pub to: &'a str,
    pub by: &'a [&'a str],
    pub badge: Option<u64>,
    pub without: &'a [&'a str],
    pub states: Option<u64>,
}

/// The least closed parts around the live threads that are not trusted.
fn parts_of<P: Profile, S: DerivationStore<P> + Drop, W: Waiters<P> + Drop>(
    alloc: Global,
    without: &[u64],
    kernel: &Kernel<P, S, W>,
    rows: &StateRows,
) -> Result<Parts, AllocError>
    requires threads { rows.now.threads.keys ≡ state.threads P.profile kernel.now }
    requires memory { (memory : ℕ) × IsInMemory P.profile memory kernel.now }
    ensures { IfOk result (λ parts. AreRightParts P.profile kernel.now without.now parts.memory.items parts.uses.items) }
{
    match parts_of_callers::<P, S, W>(alloc, without, kernel, rows) {
        Ok(parts) => Ok(parts),
        Err(PartsFault::Memory) => Err(AllocError),
        Err(PartsFault::Block) => unreachable!(),
    }
}

/// Whether these are two threads, and both are live.
fn are_two_live<P: Profile, S: CapStore<P> + Drop, W: Waiters<P> + Drop>(
    kernel: &Kernel<P, S, W>,
    from: u64,
    to: u64,
) -> bool
    ensures { result ≡ spec.are_two_live kernel.now from to }
{
    from != to && kernel.thread_state(from).is_some() && kernel.thread_state(to).is_some()
}

impl How<'_> {
    /// The answer of two live threads.
    fn answer_between<P: Profile, S: MakeStore<P> + DerivationStore<P>, W: MakeWaiters<P>>(
        &self,
        alloc: Global,
        behind: &Behind<'_>,
        kernel: &Kernel<P, S, W>,
        from: u64,
        to: u64,
    ) -> Result<Answer, AllocError>
        requires plan { IsPlan P.profile behind.now.setup.now.plan }
        requires made { behind.now.made ≤ length behind.now.setup.now.calls }
        requires memory { (memory : ℕ) × IsInMemory P.profile memory kernel.now }
        ensures { IfOk result (λ answer. spec.IsToldByParts P.profile (spec.how_words self.now) (names_view behind.now.names.now) behind.now.setup.now behind.now.made
            kernel.now from to answer.text.items answer.verdict) }
    {
        let (names, setup) = (behind.names, behind.setup);
        let kind = ObjectKind::Thread;
        let without = named::<P, S, W>(alloc, names, setup, kernel, kind, self.without)?;
        let kind = ObjectKind::Endpoint;
        let by = named::<P, S, W>(alloc, names, setup, kernel, kind, self.by)?;
        let rows = state_rows::<P, S, W>(alloc, kernel)?;
        let parts = parts_of::<P, S, W>(alloc, without.as_slice(), kernel, &rows)?;
        let asked = Asked {
            what: self.what,
            from,
            to,
            by: by.as_slice(),
            badge: self.badge,
            memory: parts.memory.as_slice(),
            without: without.as_slice(),
        };
        let most = most_of(self.states);
        let (text, verdict) = told::<P, S, W>(alloc, behind, kernel, &asked, most)?;
        Ok(Answer::new(alloc, text, verdict))
    }

    /// What is said if no thread is live at one of the two addresses, or both are one.
    fn no_two_threads<P: Profile, S: CapStore<P> + Drop, W: Waiters<P> + Drop>(
        &self,
        alloc: Global,
        kernel: &Kernel<P, S, W>,
        from: u64,
        to: u64,
    ) -> Result<String, AllocError> {
        if from == to {
            let (from, to) = (self.from, self.to);
            return format!(in alloc; "FROM,TO {from},{to}: both are one thread");
        }
        let is_first = kernel.thread_state(from).is_none();
        let word = if is_first { self.from } else { self.to };
        format!(in alloc; "FROM,TO {word}: no thread is live there")
    }

    /// The answer of two threads.
    fn answer_of<P: Profile, S: MakeStore<P> + DerivationStore<P>, W: MakeWaiters<P>>(
        &self,
        alloc: Global,
        behind: &Behind<'_>,
        kernel: &Kernel<P, S, W>,
        from: u64,
        to: u64,
    ) -> Result<Answer, AllocError>
        requires plan { IsPlan P.profile behind.now.setup.now.plan }
        requires made { behind.now.made ≤ length behind.now.setup.now.calls }
        requires memory { (memory : ℕ) × IsInMemory P.profile memory kernel.now }
        ensures { IfOk result (λ answer. spec.IsToldOfThreads P.profile (spec.how_words self.now) (names_view behind.now.names.now) behind.now.setup.now behind.now.made
            kernel.now from to answer.text.items answer.verdict) }
    {
        if are_two_live::<P, S, W>(kernel, from, to) {
            self.answer_between::<P, S, W>(alloc, behind, kernel, from, to)
        } else {
            let absent = self.no_two_threads::<P, S, W>(alloc, kernel, from, to)?;
            Ok(Answer::absent(alloc, absent))
        }
    }

    /// Whether each of the words for trusted threads stands for a thread, and each for an allowed endpoint for an endpoint.
    fn has_asked<P: Profile, S: CapStore<P> + Drop, W: Waiters<P> + Drop>(
        &self,
        names: &[Name],
        setup: &Setup,
        kernel: &Kernel<P, S, W>,
    ) -> bool
        requires { IsWithinLimits P.profile setup.now.plan }
        ensures { result ≡ spec.has_asked_how P.profile (names_view names.now) setup.now.plan kernel.now (spec.how_words self.now) }
    {
        are_meant::<P, S, W>(names, setup, kernel, ObjectKind::Thread, self.without)
            && are_meant::<P, S, W>(names, setup, kernel, ObjectKind::Endpoint, self.by)
    }

    /// The answer if a word stands for nothing of its kind, or if there are not two threads.
    fn absent<P: Profile, S: CapStore<P> + Drop, W: Waiters<P> + Drop>(
        &self,
        alloc: Global,
        behind: &Behind<'_>,
        kernel: &Kernel<P, S, W>,
    ) -> Result<Answer, AllocError>
        requires { IsWithinLimits P.profile behind.now.setup.now.plan }
        ensures { IfOk result (λ made. spec.IsNothing made.text.items made.verdict) }
    {
        self.absent_of::<P, S, W>(alloc, behind, kernel, &[self.from, self.to])
    }

    /// The same, if these are the words for the two threads.
    fn absent_of<P: Profile, S: CapStore<P> + Drop, W: Waiters<P> + Drop>(
        &self,
        alloc: Global,
        behind: &Behind<'_>,
        kernel: &Kernel<P, S, W>,
        ends: &[&str; 2],
    ) -> Result<Answer, AllocError>
        requires { IsWithinLimits P.profile behind.now.setup.now.plan }
        ensures { IfOk result (λ made. spec.IsNothing made.text.items made.verdict) }
    {
        let asked = [
            ObjectWords::threads("--without", self.without),
            ObjectWords::endpoints("--by", self.by),
            ObjectWords::threads("FROM,TO", ends),
        ];
        absent_answer::<P, S, W>(alloc, behind, kernel, &asked)
    }

    /// The same, if each of the words for the two threads stands for one.
    fn answer_meant<P: Profile, S: MakeStore<P> + DerivationStore<P>, W: MakeWaiters<P>>(
        &self,
        alloc: Global,
        behind: &Behind<'_>,
        kernel: &Kernel<P, S, W>,
    ) -> Result<Answer, AllocError>
        requires plan { IsPlan P.profile behind.now.setup.now.plan }
        requires made { behind.now.made ≤ length behind.now.setup.now.calls }
        requires memory { (memory : ℕ) × IsInMemory P.profile memory kernel.now }
        ensures { IfOk result (λ answer. spec.IsToldOfMeant P.profile (spec.how_words self.now) (names_view behind.now.names.now) behind.now.setup.now behind.now.made kernel.now
            (words.object_meant objects.Thread P.profile (names_view behind.now.names.now) behind.now.setup.now.plan kernel.now self.now.from.now)
            (words.object_meant objects.Thread P.profile (names_view behind.now.names.now) behind.now.setup.now.plan kernel.now self.now.to.now) answer.text.items answer.verdict) }
    {
        let (names, setup, kind) = (behind.names, behind.setup, ObjectKind::Thread);
        let from = object_meant::<P, S, W>(names, setup, kernel, kind, self.from.as_bytes());
        let to = object_meant::<P, S, W>(names, setup, kernel, kind, self.to.as_bytes());
        match (from, to) {
            (Some(from), Some(to)) => { self.answer_of::<P, S, W>(alloc, behind, kernel, from, to) }
            _ => self.absent::<P, S, W>(alloc, behind, kernel),
        }
    }

    /// The answer by a kernel.
    fn answer_by<P: Profile, S: MakeStore<P> + DerivationStore<P>, W: MakeWaiters<P>>(
        &self,
        alloc: Global,
        behind: &Behind<'_>,
        kernel: &Kernel<P, S, W>,
    ) -> Result<Answer, AllocError>
        requires plan { IsPlan P.profile behind.now.setup.now.plan }
        requires made { behind.now.made ≤ length behind.now.setup.now.calls }
        requires memory { (memory : ℕ) × IsInMemory P.profile memory kernel.now }
        ensures { IfOk result (λ answer. spec.IsHowBy (spec.how_words self.now) P.profile (names_view behind.now.names.now) behind.now.setup.now behind.now.made
            kernel.now answer.text.items answer.verdict) }
    {
        if is_for_flows(behind.names) {
            return flows_absent(alloc);
        }
        if self.has_asked::<P, S, W>(behind.names, behind.setup, kernel) {
            self.answer_meant::<P, S, W>(alloc, behind, kernel)
        } else {
            self.absent::<P, S, W>(alloc, behind, kernel)
        }
    }
}

impl StateCommand for How<'_> {
    ghost use Rattle.command_how.specs.How.{IsHow, how_words};

    ghost answers = { λ how. IsHow (how_words how) };

    fn answer<P: Profile, S: MakeStore<P> + DerivationStore<P>, W: MakeWaiters<P>>(
        &self,
        alloc: Global,
        behind: &Behind<'_>,
        kernel: &Kernel<P, S, W>,
    ) -> Result<Answer, AllocError> {
        self.answer_by::<P, S, W>(alloc, behind, kernel)
    }
}
