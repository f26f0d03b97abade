//! The exploration of a set-up, as the answer of a command.
ghost use Rattle.std.specs.Prelude.{◌≡◌};
ghost use Rattle.command_explore.specs.Explorations.{explore_verdict};

use crate::report::{ExploredText, explored_report};
use cap_core::Profile;
use command_check::Command;
use command_core::{Answer, Verdict};
use ipc_core::{RowWaiters, SaveWaiters};
use setup_format::ReadSetup;
use slot_core::{DerivationStore, RowStore, SaveStore};
use std::alloc::{AllocError, Global};

/// How many calls of a set-up are made before its clients begin, and how many states are explored at most.
#[derive(Clone, Copy, Drop)]
pub struct ExploreOptions {
    pub first: usize,
    pub states: u64,
}

/// The answer of a report on an exploration.
pub fn answered(alloc: Global, told: ExploredText) -> Answer
    ensures text { result.text ≡ told.text }
    ensures verdict { result.verdict ≡ explore_verdict told.is_well }
{
    let ExploredText {
        text,
        is_well,
        unmet,
    } = told;
    let verdict = if is_well {
        Verdict::AllMet
    } else {
        Verdict::NotMet
    };
    Answer::with_unmet(alloc, text, verdict, unmet)
}

/// The report on every order of the calls that the clients of a set-up make. Of several clients it is made by the plain forms: a
/// copy of these has the full slots and the threads that wait alone to write. One client has one order: its calls are made on one
/// kernel, by the forms that the command is given. The verdict is `AllMet` if all orders were explored, each expectation is met in
/// each of them, and none ends stuck. With `names`, threads and endpoints that have a name are told by it in place of their
/// address; the verdict is the same.
#[derive(Clone, Copy, Drop)]
pub struct Explore {
    pub options: ExploreOptions,
    pub names: bool,
}

impl Command for Explore {
    ghost use Rattle.command_explore.specs.Explorations.{IsExploration};

    ghost answers = { λ explore. IsExploration explore.options.first explore.options.states explore.names };

    #[tactic(auto, unfolding(crate::specs::Explorations::explored_in))]
    fn answer<P: Profile, S: SaveStore<P> + DerivationStore<P>, W: SaveWaiters<P>>(
        &self,
        alloc: Global,
        read: &ReadSetup,
    ) -> Result<Answer, AllocError> {
        let (names, setup) = (read.names.as_slice(), &read.setup);
        let ExploreOptions { first, states } = self.options;
        if setup.clients() == 1 {
            let told = explored_report::<P, S, W>(alloc, self.names, names, setup, first, states)?;
            return Ok(answered(alloc, told));
        }
        let told = explored_report::<P, RowStore<P>, RowWaiters<P>>(
            alloc, self.names, names, setup, first, states,
        )?;
        Ok(answered(alloc, told))
    }
}
