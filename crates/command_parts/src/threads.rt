//! Which threads words mean, and which threads may go on to make calls.
ghost use Rattle.std.specs.Prelude.{◌≡◌, [], IfOk, filter, map, not};
ghost use Rattle.kernel_abstract.specs.Plan.{IsWithinLimits};
ghost use Rattle.setup_values.specs.Names.{names_view};
ghost use Rattle.setup_report.specs.State.{is_in as is_in_list};
ghost use Rattle.command_parts.specs.Threads as spec;

use crate::sets::{is_in, rising};
use cap_core::Profile;
use command_check::Behind;
use command_core::{Answer, Verdict};
use ipc_core::Waiters;
use kernel_core::Kernel;
use setup_format::Setup;
use setup_report::{ObjectKind, absent_object, are_meant, objects_meant};
use setup_values::Name;
use slot_core::CapStore;
use std::alloc::{AllocError, Global};

/// The words of an option, each for an object of a kind.
#[derive(Clone, Copy, Drop)]
pub struct ObjectWords<'a> {
    kind: ObjectKind,
    option: &'a str,
    words: &'a [&'a str],
}

impl<'a> ObjectWords<'a> {
    /// Words for threads.
    pub fn threads(option: &'a str, words: &'a [&'a str]) -> ObjectWords<'a> {
        let kind = ObjectKind::Thread;
        ObjectWords {
            kind,
            option,
            words,
        }
    }

    /// Words for endpoints.
    pub fn endpoints(option: &'a str, words: &'a [&'a str]) -> ObjectWords<'a> {
        let kind = ObjectKind::Endpoint;
        ObjectWords {
            kind,
            option,
            words,
        }
    }
}

/// The answer if not all words stand for an object: nothing is written, and the first that stands for none is named.
pub fn absent_answer<P: Profile, S: CapStore<P> + Drop, W: Waiters<P> + Drop>(
    alloc: Global,
    behind: &Behind<'_>,
    kernel: &Kernel<P, S, W>,
    asked: &[ObjectWords<'_>],
) -> Result<Answer, AllocError>
    requires { IsWithinLimits P.profile behind.now.setup.now.plan }
    ensures text { IfOk result (λ made. made.text.items ≡ []) }
    ensures verdict { IfOk result (λ made. made.verdict ≡ Verdict.Absent) }
{
    let (names, setup) = (behind.names, behind.setup);
    for ObjectWords {
        kind,
        option,
        words,
    } in asked {
        let absent = absent_object::<P, S, W>(alloc, names, setup, kernel, *kind, *option, *words)?;
        if let Some(absent) = absent {
            return Ok(Answer::absent(alloc, absent));
        }
    }
    Ok(Answer::new(alloc, Vec::new(alloc), Verdict::Absent))
}

/// The words for the threads that are trusted: to make no more calls, and to go on only to send and receive. Each is a thread's
/// address, its name, or a slot of the root CNode (`object_meant`).
#[derive(Clone, Copy, Drop)]
pub struct Trust<'a> {
    pub without: &'a [&'a str],
    pub messages: &'a [&'a str],
}

impl Trust<'_> {
    /// Whether each of the words stands for a thread.
    pub fn is_meant<P: Profile, S: CapStore<P> + Drop, W: Waiters<P> + Drop>(
        &self,
        names: &[Name],
        setup: &Setup,
        kernel: &Kernel<P, S, W>,
    ) -> bool
        requires { IsWithinLimits P.profile setup.now.plan }
        ensures { result ≡ spec.are_trusted P.profile (names_view names.now) setup.now.plan kernel.now (spec.trusted_by self.now) }
    {
        are_meant::<P, S, W>(names, setup, kernel, ObjectKind::Thread, self.without)
            && are_meant::<P, S, W>(names, setup, kernel, ObjectKind::Thread, self.messages)
    }

    /// The answer if one of the words stands for no thread: nothing is written, and the first such word is named.
    pub fn absent<P: Profile, S: CapStore<P> + Drop, W: Waiters<P> + Drop>(
        &self,
        alloc: Global,
        behind: &Behind<'_>,
        kernel: &Kernel<P, S, W>,
    ) -> Result<Answer, AllocError>
        requires { IsWithinLimits P.profile behind.now.setup.now.plan }
        ensures text { IfOk result (λ made. made.text.items ≡ []) }
        ensures verdict { IfOk result (λ made. made.verdict ≡ Verdict.Absent) }
    {
        let asked = [
            ObjectWords::threads("--without", self.without),
            ObjectWords::threads("--messages", self.messages),
        ];
        absent_answer::<P, S, W>(alloc, behind, kernel, &asked)
    }
}

/// The objects of a kind that some words stand for, rising.
pub fn named<P: Profile, S: CapStore<P> + Drop, W: Waiters<P> + Drop>(
    alloc: Global,
    names: &[Name],
    setup: &Setup,
    kernel: &Kernel<P, S, W>,
    kind: ObjectKind,
    words: &[&str],
) -> Result<Vec<u64>, AllocError>
    requires { IsWithinLimits P.profile setup.now.plan }
    ensures { IfOk result (λ v. v.items ≡ spec.objects_named kind P.profile (names_view names.now) setup.now.plan kernel.now (map (λ w. w.now) words.now)) }
{
    let objects = objects_meant::<P, S, W>(alloc, names, setup, kernel, kind, words)?;
    rising(alloc, objects.as_slice())
}

/// The threads that are not trusted.
pub fn callers(alloc: Global, threads: &[u64], trusted: &[u64]) -> Result<Vec<u64>, AllocError>
    ensures { IfOk result (λ v. v.items ≡ filter (λ thread. not (is_in_list thread trusted.now)) threads.now) }
{
    let mut callers = Vec::new(alloc);
    for thread in threads {
        if !is_in(trusted, *thread) {
            callers.push(*thread)?;
        }
    }
    Ok(callers)
}
