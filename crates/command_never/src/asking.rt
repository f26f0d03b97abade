//! Whether one thread's part is kept from another's, as the answer of a command.
ghost use Rattle.std.specs.Prelude.{◌≡◌, ℕ, IfOk, true};
ghost use Rattle.kernel_abstract.specs.Memory.{IsInMemory};
ghost use Rattle.kernel_abstract.specs.Plan.{IsWithinLimits};
ghost use Rattle.setup_values.specs.Names.{names_view};
ghost use Rattle.setup_marks.specs.Marks.{is_for_flows as marked};
ghost use Rattle.setup_report.specs.Naming.{naming_view};
ghost use Rattle.setup_report.specs.declared.meanings.meant.ObjectKind.TheVariants as objects;
ghost use Rattle.setup_report.specs.Meant as words;
ghost use Rattle.command_parts.specs.Threads as meant;
ghost use Rattle.command_never.specs.Question as spec;

use crate::parts_kept::{Never, never_gets};
use cap_core::Profile;
use command_check::{Behind, StateCommand};
use command_core::{Answer, Verdict};
use command_parts::{Heading, ObjectWords, Trust, absent_answer, named};
use ipc_core::{MakeWaiters, Waiters};
use kernel_core::Kernel;
use query_parts::PartsFault;
use setup_format::Setup;
use setup_marks::is_for_flows;
use setup_report::{Naming, ObjectKind, are_meant, object_meant};
use setup_values::Name;
use slot_core::{CapStore, DerivationStore, MakeStore};
use std::alloc::{AllocError, Global};

/// What is asked after the first calls of a set-up: which threads are trusted; whether the part of the thread `from` is kept from
/// that of the thread `to`, but by the endpoints `by`. Each thread and each endpoint is given by its address, by
/// its name, or by a slot of the root CNode (`object_meant`).
///
/// The verdict is `AllMet` if it is excluded that the one part ever gets a capability to an object that has bytes in the
/// other's memory, or that a message of it is ever delivered there, but by the endpoints that are named, and if flows exclude it
/// of the two threads (`Never::ExcludedByFlow`); `NotMet` if that is not excluded; or `Absent` with nothing written: if a word stands for nothing of its kind, and if no thread is live at `from` or at `to`.
#[derive(Clone, Copy, Drop)]
pub struct Question<'a> {
    pub trust: Trust<'a>,
    pub from: &'a str,
    pub to: &'a str,
    pub by: &'a [&'a str],
    /// Whether objects that have a name are written by it, and parts by their threads.
    pub names: bool,
}

fn verdict_of(answer: Never) -> Verdict
    ensures { result ≡ spec.never_verdict answer }
{
    match answer {
        Never::Excluded | Never::ExcludedByFlow => Verdict::AllMet,
        Never::Possible | Never::Decided => Verdict::NotMet,
    }
}

/// Whether both threads are live.
fn are_live<P: Profile, S: CapStore<P> + Drop, W: Waiters<P> + Drop>(
    kernel: &Kernel<P, S, W>,
    from: u64,
    to: u64,
) -> bool
    ensures { result ≡ spec.are_live kernel.now from to }
{
    kernel.thread_state(from).is_some() && kernel.thread_state(to).is_some()
}

/// The answer of two live threads, which stands in the heading's set-up.
fn answer_between<P: Profile, S: DerivationStore<P> + Drop, W: Waiters<P> + Drop>(
    alloc: Global,
    naming: &Naming<'_>,
    heading: &Heading<'_>,
    from: u64,
    to: u64,
    by: &[u64],
    is_for_flows: bool,
    kernel: &Kernel<P, S, W>,
) -> Result<Answer, AllocError>
    requires live { spec.are_live kernel.now from to ≡ true }
    requires memory { (memory : ℕ) × IsInMemory P.profile memory kernel.now }
    ensures { IfOk result (λ made. spec.IsAnsweredOf P.profile (naming_view naming.now) is_for_flows heading.now.setup.now heading.now.made heading.now.refused
        heading.now.without.now heading.now.messages.now kernel.now by.now from to made.text.items made.verdict) }
{
    // A thread of such a set-up also uses what no word of it leads to, as a frame that it maps, and flows go by words.
    let asks_flows = !is_for_flows;
    match never_gets::<P, S, W>(alloc, naming, heading, from, to, by, asks_flows, kernel) {
        Ok((text, answer)) => Ok(Answer::new(alloc, text, verdict_of(answer))),
        Err(PartsFault::Memory) => Err(AllocError),
        Err(PartsFault::Block) => unreachable!(),
    }
}

impl Question<'_> {
    /// The text and the verdict of a kernel's state, for two threads.
    fn answer_of<P: Profile, S: DerivationStore<P> + Drop, W: Waiters<P> + Drop>(
        &self,
        alloc: Global,
        naming: &Naming<'_>,
        behind: &Behind<'_>,
        kernel: &Kernel<P, S, W>,
        from: u64,
        to: u64,
    ) -> Result<Answer, AllocError>
        requires limits { IsWithinLimits P.profile behind.now.setup.now.plan }
        requires memory { (memory : ℕ) × IsInMemory P.profile memory kernel.now }
        ensures { IfOk result (λ answer. spec.IsAnsweredOf P.profile (naming_view naming.now) (marked (names_view behind.now.names.now)) behind.now.setup.now behind.now.made behind.now.refused
            (meant.objects_named objects.Thread P.profile (names_view behind.now.names.now) behind.now.setup.now.plan kernel.now (spec.asked_never self.now).trust.without)
            (meant.objects_named objects.Thread P.profile (names_view behind.now.names.now) behind.now.setup.now.plan kernel.now (spec.asked_never self.now).trust.messages)
            kernel.now (meant.objects_named objects.Endpoint P.profile (names_view behind.now.names.now) behind.now.setup.now.plan kernel.now (spec.asked_never self.now).by)
            from to answer.text.items answer.verdict) }
    {
        if !are_live::<P, S, W>(kernel, from, to) {
            let absent = self.no_thread::<P, S, W>(alloc, kernel, from)?;
            return Ok(Answer::absent(alloc, absent));
        }
        let (names, setup) = (behind.names, behind.setup);
        let Trust { without, messages } = self.trust;
        let without = named::<P, S, W>(alloc, names, setup, kernel, ObjectKind::Thread, without)?;
        let messages = named::<P, S, W>(alloc, names, setup, kernel, ObjectKind::Thread, messages)?;
        let by = named::<P, S, W>(alloc, names, setup, kernel, ObjectKind::Endpoint, self.by)?;
        let heading = Heading {
            setup,
            made: behind.made,
            refused: behind.refused,
            without: without.as_slice(),
            messages: messages.as_slice(),
        };
        let by = by.as_slice();
        let is_for_flows = is_for_flows(names);
        answer_between::<P, S, W>(alloc, naming, &heading, from, to, by, is_for_flows, kernel)
    }

    /// What is said if no thread is live at one of the two addresses.
    fn no_thread<P: Profile, S: CapStore<P> + Drop, W: Waiters<P> + Drop>(
        &self,
        alloc: Global,
        kernel: &Kernel<P, S, W>,
        from: u64,
    ) -> Result<String, AllocError> {
        let is_first = kernel.thread_state(from).is_none();
        let word = if is_first { self.from } else { self.to };
        format!(in alloc; "FROM,TO {word}: no thread is live there")
    }

    /// The same, if each of the words for the two threads stands for one.
    fn answer_meant<P: Profile, S: DerivationStore<P> + Drop, W: Waiters<P> + Drop>(
        &self,
        alloc: Global,
        naming: &Naming<'_>,
        behind: &Behind<'_>,
        kernel: &Kernel<P, S, W>,
    ) -> Result<Answer, AllocError>
        requires limits { IsWithinLimits P.profile behind.now.setup.now.plan }
        requires memory { (memory : ℕ) × IsInMemory P.profile memory kernel.now }
        ensures { IfOk result (λ answer. spec.IsNeverAnswered (naming_view naming.now) P.profile (names_view behind.now.names.now) behind.now.setup.now behind.now.made behind.now.refused kernel.now (spec.asked_never self.now)
            (words.object_meant objects.Thread P.profile (names_view behind.now.names.now) behind.now.setup.now.plan kernel.now self.now.from.now)
            (words.object_meant objects.Thread P.profile (names_view behind.now.names.now) behind.now.setup.now.plan kernel.now self.now.to.now) answer.text.items answer.verdict) }
    {
        let (names, setup, kind) = (behind.names, behind.setup, ObjectKind::Thread);
        let from = object_meant::<P, S, W>(names, setup, kernel, kind, self.from.as_bytes());
        let to = object_meant::<P, S, W>(names, setup, kernel, kind, self.to.as_bytes());
        match (from, to) {
            (Some(from), Some(to)) => {
                self.answer_of::<P, S, W>(alloc, naming, behind, kernel, from, to)
            }
            _ => self.absent::<P, S, W>(alloc, behind, kernel),
        }
    }

    /// Whether each of the words for trusted threads stands for a thread, and each for an allowed endpoint for an endpoint.
    fn has_asked<P: Profile, S: CapStore<P> + Drop, W: Waiters<P> + Drop>(
        &self,
        names: &[Name],
        setup: &Setup,
        kernel: &Kernel<P, S, W>,
    ) -> bool
        requires { IsWithinLimits P.profile setup.now.plan }
        ensures { result ≡ spec.has_asked P.profile (names_view names.now) setup.now.plan kernel.now (spec.asked_never self.now) }
    {
        self.trust.is_meant::<P, S, W>(names, setup, kernel)
            && are_meant::<P, S, W>(names, setup, kernel, ObjectKind::Endpoint, self.by)
    }

    /// The answer if a word stands for nothing of its kind, or if there are not two threads.
    fn absent<P: Profile, S: CapStore<P> + Drop, W: Waiters<P> + Drop>(
        &self,
        alloc: Global,
        behind: &Behind<'_>,
        kernel: &Kernel<P, S, W>,
    ) -> Result<Answer, AllocError>
        requires { IsWithinLimits P.profile behind.now.setup.now.plan }
        ensures { IfOk result (λ made. spec.IsAbsent made.text.items made.verdict) }
    {
        self.absent_of::<P, S, W>(alloc, behind, kernel, &[self.from, self.to])
    }

    /// The same, if these are the words for the two threads.
    fn absent_of<P: Profile, S: CapStore<P> + Drop, W: Waiters<P> + Drop>(
        &self,
        alloc: Global,
        behind: &Behind<'_>,
        kernel: &Kernel<P, S, W>,
        ends: &[&str; 2],
    ) -> Result<Answer, AllocError>
        requires { IsWithinLimits P.profile behind.now.setup.now.plan }
        ensures { IfOk result (λ made. spec.IsAbsent made.text.items made.verdict) }
    {
        let asked = [
            ObjectWords::threads("--without", self.trust.without),
            ObjectWords::threads("--messages", self.trust.messages),
            ObjectWords::endpoints("--by", self.by),
            ObjectWords::threads("FROM,TO", ends),
        ];
        absent_answer::<P, S, W>(alloc, behind, kernel, &asked)
    }

    /// The answer by a kernel.
    fn answer_by<P: Profile, S: DerivationStore<P> + Drop, W: Waiters<P> + Drop>(
        &self,
        alloc: Global,
        naming: &Naming<'_>,
        behind: &Behind<'_>,
        kernel: &Kernel<P, S, W>,
    ) -> Result<Answer, AllocError>
        requires limits { IsWithinLimits P.profile behind.now.setup.now.plan }
        requires memory { (memory : ℕ) × IsInMemory P.profile memory kernel.now }
        ensures { IfOk result (λ answer. spec.IsNeverBy (spec.asked_never self.now) (naming_view naming.now) P.profile (names_view behind.now.names.now) behind.now.setup.now
            behind.now.made behind.now.refused kernel.now answer.text.items answer.verdict) }
    {
        if self.has_asked::<P, S, W>(behind.names, behind.setup, kernel) {
            self.answer_meant::<P, S, W>(alloc, naming, behind, kernel)
        } else {
            self.absent::<P, S, W>(alloc, behind, kernel)
        }
    }
}

impl StateCommand for Question<'_> {
    ghost use Rattle.command_never.specs.Question.{IsNever, asked_never};

    ghost answers = { λ question. IsNever (asked_never question) };

    fn answer<P: Profile, S: MakeStore<P> + DerivationStore<P>, W: MakeWaiters<P>>(
        &self,
        alloc: Global,
        behind: &Behind<'_>,
        kernel: &Kernel<P, S, W>,
    ) -> Result<Answer, AllocError> {
        let (names, setup) = (behind.names, behind.setup);
        let naming = Naming::of::<P, S, W>(alloc, self.names, names, setup.plan(), kernel)?;
        self.answer_by::<P, S, W>(alloc, &naming, behind, kernel)
    }
}
