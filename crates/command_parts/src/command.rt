//! What the threads of a state can never get, as the answer of a command.
ghost use Rattle.std.specs.Prelude.{◌≡◌, ℕ, IfOk};
ghost use Rattle.kernel_abstract.specs.Memory.{IsInMemory};
ghost use Rattle.kernel_abstract.specs.Plan.{IsWithinLimits};
ghost use Rattle.setup_values.specs.Names.{names_view};
ghost use Rattle.setup_report.specs.Naming.{naming_view};
ghost use Rattle.setup_report.specs.declared.meanings.meant.ObjectKind.TheVariants as objects;
ghost use Rattle.command_parts.specs.Ever as spec;
ghost use Rattle.command_parts.specs.Threads as meant;
ghost use Rattle.command_parts.specs.Threads.{trusted_by};
ghost use Rattle.command_parts.specs.Told.{IsEverOf};

use crate::head::Heading;
use crate::text::ever;
use crate::threads::{Trust, named};
use cap_core::Profile;
use command_check::{Behind, StateCommand};
use command_core::{Answer, Verdict};
use ipc_core::{MakeWaiters, Waiters};
use kernel_core::Kernel;
use query_parts::PartsFault;
use setup_report::{Naming, ObjectKind};
use slot_core::{DerivationStore, MakeStore};
use std::alloc::{AllocError, Global};

/// What the threads of a set-up can never get, whatever they call, after its first calls: closed parts of the memory, the endpoints
/// that each may use, and the ways between them. Some threads are trusted. If `names` is set, objects that have a name are written by it,
/// and a part by its threads. The verdict is `AllMet`, or `Absent` with nothing written if a word stands for no thread.
#[derive(Clone, Copy, Drop)]
pub struct Ever<'a> {
    pub trust: Trust<'a>,
    pub names: bool,
}

impl Ever<'_> {
    /// The text of a kernel, if each word stands for a thread.
    fn text_of<P: Profile, S: DerivationStore<P> + Drop, W: Waiters<P> + Drop>(
        &self,
        alloc: Global,
        naming: &Naming<'_>,
        behind: &Behind<'_>,
        kernel: &Kernel<P, S, W>,
    ) -> Result<Vec<u8>, AllocError>
        requires limits { IsWithinLimits P.profile behind.now.setup.now.plan }
        requires memory { (memory : ℕ) × IsInMemory P.profile memory kernel.now }
        ensures { IfOk result (λ text. spec.IsPartsText P.profile (naming_view naming.now) behind.now.setup.now behind.now.made behind.now.refused
            (meant.objects_named objects.Thread P.profile (names_view behind.now.names.now) behind.now.setup.now.plan kernel.now (trusted_by self.now.trust).without)
            (meant.objects_named objects.Thread P.profile (names_view behind.now.names.now) behind.now.setup.now.plan kernel.now (trusted_by self.now.trust).messages) kernel.now text.items) }
    {
        let (names, setup, kind) = (behind.names, behind.setup, ObjectKind::Thread);
        let Trust { without, messages } = self.trust;
        let without = named::<P, S, W>(alloc, names, setup, kernel, kind, without)?;
        let messages = named::<P, S, W>(alloc, names, setup, kernel, kind, messages)?;
        let heading = Heading {
            setup,
            made: behind.made,
            refused: behind.refused,
            without: without.as_slice(),
            messages: messages.as_slice(),
        };
        match ever::<P, S, W>(alloc, naming, &heading, kernel) {
            Ok(text) => Ok(text),
            Err(PartsFault::Memory) => Err(AllocError),
            Err(PartsFault::Block) => unreachable!(),
        }
    }

    /// The answer by a kernel.
    fn answer_of<P: Profile, S: DerivationStore<P> + Drop, W: Waiters<P> + Drop>(
        &self,
        alloc: Global,
        naming: &Naming<'_>,
        behind: &Behind<'_>,
        kernel: &Kernel<P, S, W>,
    ) -> Result<Answer, AllocError>
        requires limits { IsWithinLimits P.profile behind.now.setup.now.plan }
        requires memory { (memory : ℕ) × IsInMemory P.profile memory kernel.now }
        ensures { IfOk result (λ answer. IsEverOf (trusted_by self.now.trust) (naming_view naming.now) P.profile (names_view behind.now.names.now) behind.now.setup.now
            behind.now.made behind.now.refused kernel.now answer.text.items answer.verdict) }
    {
        if !self
            .trust
            .is_meant::<P, S, W>(behind.names, behind.setup, kernel)
        {
            return self.trust.absent::<P, S, W>(alloc, behind, kernel);
        }
        let text = self.text_of::<P, S, W>(alloc, naming, behind, kernel)?;
        Ok(Answer::new(alloc, text, Verdict::AllMet))
    }
}

impl StateCommand for Ever<'_> {
    ghost use Rattle.command_parts.specs.Threads.{trusted_by};
    ghost use Rattle.command_parts.specs.Told.{IsEver};

    ghost answers = { λ ever. IsEver (trusted_by ever.trust) ever.names };

    fn answer<P: Profile, S: MakeStore<P> + DerivationStore<P>, W: MakeWaiters<P>>(
        &self,
        alloc: Global,
        behind: &Behind<'_>,
        kernel: &Kernel<P, S, W>,
    ) -> Result<Answer, AllocError> {
        let (names, setup) = (behind.names, behind.setup);
        let naming = Naming::of::<P, S, W>(alloc, self.names, names, setup.plan(), kernel)?;
        self.answer_of::<P, S, W>(alloc, &naming, behind, kernel)
    }
}
