//! The exploration of clients that share nothing, as the answer of a command.
use crate::exploring::{ExploreOptions, answered};
use crate::report::groups_report;
use cap_core::Profile;
use command_check::Command;
use command_core::Answer;
use ipc_core::{RowWaiters, SaveWaiters};
use setup_format::ReadSetup;
use slot_core::{DerivationStore, RowStore, SaveStore};
use std::alloc::{AllocError, Global};

/// The report on every order of the calls of each group of clients by itself. Clients that share a thread or an endpoint are in one
/// group. The verdict is as that of [`Explore`](crate::Explore), of all groups.
#[derive(Clone, Copy, Drop)]
pub struct ExploreGroups {
    pub options: ExploreOptions,
    pub names: bool,
}

impl Command for ExploreGroups {
    ghost use Rattle.command_explore.specs.Explorations.{IsGroupsExploration};

    ghost answers = { λ explore. IsGroupsExploration explore.options.first explore.options.states explore.names };

    fn answer<P: Profile, S: SaveStore<P> + DerivationStore<P>, W: SaveWaiters<P>>(
        &self,
        alloc: Global,
        read: &ReadSetup,
    ) -> Result<Answer, AllocError> {
        let (names, setup) = (read.names.as_slice(), &read.setup);
        let ExploreOptions { first, states } = self.options;
        let told = groups_report::<P, RowStore<P>, RowWaiters<P>>(
            alloc, self.names, names, setup, first, states,
        )?;
        Ok(answered(alloc, told))
    }
}
