//! The audit of a state without the threads that are trusted, by addresses or by names, as the answer of a command.
ghost use Rattle.std.specs.Prelude.{◌≡◌, ℕ, IfOk};
ghost use Rattle.kernel_abstract.specs.Memory.{IsInMemory};
ghost use Rattle.kernel_abstract.specs.Plan.{IsPlan};
ghost use Rattle.kernel_abstract.specs.Reached.{IsReached};
ghost use Rattle.kernel_abstract.specs.State.{State, shown};
ghost use Rattle.setup_values.specs.Names.{names_view};
ghost use Rattle.setup_report.specs.Naming.{texts_of};
ghost use Rattle.command_audit.specs.Audit.{IsWholeAudit};

use crate::state::{Heading, whole_audit};
use cap_core::Profile;
use command_check::{Behind, StateCommand};
use command_core::{Answer, Verdict};
use ipc_core::MakeWaiters;
use kernel_core::Kernel;
use setup_format::Setup;
use setup_report::{Naming, ObjectKind, absent_object, are_meant, objects_meant};
use setup_values::Name;
use slot_core::{DerivationStore, MakeStore};
use std::alloc::{AllocError, Global};

/// The audit of the state behind the first calls of a set-up, without the threads that the words stand for: each is a thread's
/// address, its name, or a slot of the root CNode (`object_meant`). If `names` is set, objects that have a name are told by it. The
/// verdict is `AllMet`, or `Absent` with nothing written where a word stands for no thread.
#[derive(Clone, Copy, Drop)]
pub struct StateAudit<'a> {
    pub without: &'a [&'a str],
    pub names: bool,
}

/// The audit of a kernel, by addresses or by the names of objects.
fn told_by<P: Profile, S: MakeStore<P> + DerivationStore<P>, W: MakeWaiters<P>>(
    alloc: Global,
    by_name: bool,
    names: &[Name],
    trusted: &[u64],
    setup: &Setup,
    made: usize,
    kernel: &Kernel<P, S, W>,
) -> Result<Vec<u8>, AllocError>
    requires plan { IsPlan P.profile setup.now.plan }
    requires memory { (memory : ℕ) × IsInMemory P.profile memory kernel.now }
    ensures { IfOk result (λ text. (A : State) → IsReached P.profile A → kernel.now ≡ shown A
        → IsWholeAudit P.profile (names_view names.now) (texts_of by_name P.profile (names_view names.now) setup.now.plan (shown A)) trusted.now setup.now made A text.items) }
{
    let naming = Naming::of::<P, S, W>(alloc, by_name, names, setup.plan(), kernel)?;
    let heading = Heading {
        names,
        naming: &naming,
        trusted,
        setup,
        made,
    };
    let text = whole_audit::<P, S, W>(alloc, heading, kernel)?;
    Ok(text)
}

impl StateCommand for StateAudit<'_> {
    ghost use Rattle.std.specs.Prelude.{map};
    ghost use Rattle.command_audit.specs.Audits.{IsStateAudited};

    ghost answers = { λ audit. IsStateAudited (map (λ w. w.now) audit.without.now) audit.names };

    fn answer<P: Profile, S: MakeStore<P> + DerivationStore<P>, W: MakeWaiters<P>>(
        &self,
        alloc: Global,
        behind: &Behind<'_>,
        kernel: &Kernel<P, S, W>,
    ) -> Result<Answer, AllocError> {
        let Behind {
            names,
            setup,
            made,
            ..
        } = *behind;
        let (kind, words) = (ObjectKind::Thread, self.without);
        if !are_meant::<P, S, W>(names, setup, kernel, kind, words) {
            let option = "--without";
            let absent = absent_object::<P, S, W>(
                alloc, names, setup, kernel, kind, option, words,
            )?;
            let none = Answer::absent(alloc, absent.unwrap_or(String::new(alloc)));
            return Ok(none);
        }
        let trusted = objects_meant::<P, S, W>(alloc, names, setup, kernel, kind, words)?;
        let trusted = trusted.as_slice();
        let text = told_by::<P, S, W>(alloc, self.names, names, trusted, setup, made, kernel)?;
        let answer = Answer::new(alloc, text, Verdict::AllMet);
        Ok(answer)
    }
}
