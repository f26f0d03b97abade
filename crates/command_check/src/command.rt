//! Commands on a set-up: how it is read, refused and given its profile is the same for all of them.
ghost use Rattle.std.specs.Prelude.{IfOk};
ghost use Rattle.kernel_abstract.specs.Plan.{IsPlan};
ghost use Rattle.setup_format.specs.Read.{read_view};

use crate::run::refused;
use cap_core::{Narrow, Profile, ProfileName, Wide};
use command_core::{Answer, Engine, RunFault};
use ipc_core::{LinkedWaiters, SaveWaiters};
use setup_format::{ReadSetup, SetupFault, read};
use slot_core::{DerivationStore, LinkedStore, SaveStore};
use std::alloc::{AllocError, Global};

/// What is written of a set-up.
pub trait Command {
    ghost use Rattle.std.specs.Prelude.{ℕ, List};
    ghost use Rattle.cap_core.specs.declared.profile.ProfileName.{ProfileName};
    ghost use Rattle.setup_format.specs.Views.{ReadView};
    ghost use Rattle.command_core.specs.declared.fault.Verdict.{Verdict};

    /// The text and the verdict are right for a set-up that was read, in a profile.
    ghost answers: { Self → ProfileName → ReadView → List ℕ → Verdict → Type 0 };

    /// The text that is to be written of the set-up, the verdict, and what standard error says. A kernel that it boots can be of
    /// these stores.
    fn answer<P: Profile, S: SaveStore<P> + DerivationStore<P>, W: SaveWaiters<P>>(
        &self,
        alloc: Global,
        read: &ReadSetup,
    ) -> Result<Answer, AllocError>
        requires { IsPlan P.profile read.now.setup.plan }
        ensures { IfOk result (λ made. answers self.now P.profile (read_view read.now) made.text.items made.verdict) };
}

/// A command, on the set-up that the bytes of an input are.
#[derive(Clone, Copy, Drop)]
pub struct OnSetup<C> {
    pub command: C,
}

impl<C: Command> OnSetup<C> {
    ghost use Rattle.setup_format.specs.Setups.{read_of_bytes};
    ghost use Rattle.command_check.specs.Commands.{IsSetUpAnswer};

    /// The command's answer in the profile that the set-up names, by the linked forms.
    fn answer_read(&self, alloc: Global, read: &ReadSetup) -> Result<Answer, AllocError>
        requires { IsPlan read.now.setup.profile read.now.setup.plan }
        ensures { IfOk result (λ made. C.answers self.now.command read.now.setup.profile (read_view read.now) made.text.items made.verdict) }
    {
        let command = &self.command;
        match read.setup.profile() {
            ProfileName::Wide => {
                command.answer::<Wide, LinkedStore<Wide>, LinkedWaiters<Wide>>(alloc, read)
            }
            ProfileName::Narrow => {
                command.answer::<Narrow, LinkedStore<Narrow>, LinkedWaiters<Narrow>>(alloc, read)
            }
        }
    }

    /// The answer for the bytes of an input.
    fn answer_bytes(&self, alloc: Global, bytes: &[u8]) -> Result<Answer, AllocError>
        ensures { IfOk result (λ made. IsSetUpAnswer (C.answers self.now.command) (read_of_bytes bytes.now) made.text.items made.verdict) }
    {
        match read(alloc, bytes) {
            Ok(read) => self.answer_read(alloc, &read),
            Err(SetupFault::Memory) => Err(AllocError),
            Err(fault) => refused(alloc, &fault),
        }
    }
}

impl<C: Command> Engine for OnSetup<C> {
    ghost use Rattle.command_check.specs.Commands.{IsAnswerTo};

    ghost means = { λ on. IsAnswerTo (C.answers on.command) };

    fn make(&self, alloc: Global, input: &[u8]) -> Result<Answer, RunFault> {
        self.answer_bytes(alloc, input)
            .map_err(|_| RunFault::Memory)
    }
}
