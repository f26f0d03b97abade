//! Commands on the state after the first calls of a set-up: how that state is made is the same for all of them.
ghost use Rattle.std.specs.Prelude.{◌≡◌, ◌≤◌, ℕ, IfOk, length};
ghost use Rattle.kernel_abstract.specs.Memory.{IsInMemory};
ghost use Rattle.kernel_abstract.specs.Plan.{IsPlan};
ghost use Rattle.kernel_abstract.specs.State.{shown};
ghost use Rattle.setup_report.specs.Behind.{refused_behind, state_behind};
ghost use Rattle.setup_values.specs.Names.{names_view};

use crate::command::Command;
use cap_core::Profile;
use command_core::Answer;
use ipc_core::{MakeWaiters, SaveWaiters};
use kernel_core::Kernel;
use setup_format::{ReadSetup, Setup};
use setup_report::{calls_made, count_refused, run_first};
use setup_values::Name;
use slot_core::{DerivationStore, MakeStore, SaveStore};
use std::alloc::{AllocError, Global};

/// A set-up that was read, with its names and its text, how many of its calls are made, and how many of these were refused.
#[derive(Clone, Copy, Drop)]
pub struct Behind<'a> {
    pub names: &'a [Name],
    pub setup: &'a Setup,
    pub text: &'a [u8],
    pub made: usize,
    pub refused: usize,
}

/// What is written of the state after the first calls of a set-up.
pub trait StateCommand {
    ghost use Rattle.std.specs.Prelude.{List};
    ghost use Rattle.cap_core.specs.declared.profile.ProfileName.{ProfileName};
    ghost use Rattle.kernel_abstract.specs.State.{State};
    ghost use Rattle.setup_values.specs.Names.{Names};
    ghost use Rattle.setup_format.specs.Views.{SetupView};
    ghost use Rattle.command_core.specs.declared.fault.Verdict.{Verdict};

    /// The text and the verdict are right for a set-up in a profile, whose words have these names, and of which so many calls led
    /// to this state.
    ghost answers: { Self → ProfileName → Names → SetupView → ℕ → State → List ℕ → Verdict → Type 0 };

    /// The text that is to be written, by the kernel that the first calls led to, the verdict, and what standard error says.
    fn answer<P: Profile, S: MakeStore<P> + DerivationStore<P>, W: MakeWaiters<P>>(
        &self,
        alloc: Global,
        behind: &Behind<'_>,
        kernel: &Kernel<P, S, W>,
    ) -> Result<Answer, AllocError>
        requires plan { IsPlan P.profile behind.now.setup.now.plan }
        requires made { behind.now.made ≤ length behind.now.setup.now.calls }
        requires shows { kernel.now ≡ shown (state_behind P.profile behind.now.setup.now behind.now.made) }
        requires refused { behind.now.refused ≡ refused_behind P.profile behind.now.setup.now behind.now.made }
        requires within { (memory : ℕ) × IsInMemory P.profile memory kernel.now }
        ensures { IfOk result (λ answer. answers self.now P.profile (names_view behind.now.names.now) behind.now.setup.now behind.now.made
            (state_behind P.profile behind.now.setup.now behind.now.made) answer.text.items answer.verdict) };
}

/// A command, on the state after the first `after` calls, or after all. If the set-up has fewer calls, nothing is written, and
/// the verdict is `Absent`.
#[derive(Clone, Copy, Drop)]
pub struct OnState<C> {
    pub command: C,
    pub after: Option<u64>,
}

impl<C: StateCommand> Command for OnState<C> {
    ghost use Rattle.command_check.specs.Commands.{IsStateAnswer};

    ghost answers = { λ on. IsStateAnswer (C.answers on.command) on.after };

    fn answer<P: Profile, S: SaveStore<P> + DerivationStore<P>, W: SaveWaiters<P>>(
        &self,
        alloc: Global,
        read: &ReadSetup,
    ) -> Result<Answer, AllocError> {
        let setup = &read.setup;
        let Some(made) = calls_made(setup, self.after) else {
            let (asked, calls) = (self.after.unwrap_or(0), setup.calls().len());
            let absent = format!(in alloc; "--after {asked}: the set-up has {calls} calls")?;
            return Ok(Answer::absent(alloc, absent));
        };
        let (kernel, replies) = run_first::<P, S, W>(alloc, setup, made)?;
        let behind = Behind {
            names: read.names.as_slice(),
            setup,
            text: read.text.as_slice(),
            made,
            refused: count_refused(replies.as_slice()),
        };
        self.command.answer::<P, S, W>(alloc, &behind, &kernel)
    }
}
